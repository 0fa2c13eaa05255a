use recipe::Recipe;
use sections::Sections;
use std::process::Abort;
use std::test::Fail;
use strands::locate;

// A Foreach of count 3 behind three cells.
// The tests of recipes have the same file: a crate for one constant would be no plainer.
#[rattlefmt::skip]
const THREE_CELLS: [u8; 68] = [
    0x01, 0x48, 0, 0, 0, 0, 1, 0, 1, 0,
    0x01, 0x48, 0, 0, 1, 0, 1, 0, 1, 0,
    0x01, 0x48, 0, 0, 2, 0, 1, 0, 1, 0,
    0x11, 0x48, 0, 0, 0, 0, 1, 0, 3, 0,
    0x31, 3,
    0x11, 0x48, 1, 1, 0, 0, 1, 0, 1, 0,
    0x24, 0, 1,
    0x21, 0, 0x48, 1, 1, 0, 0, 1, 0, 1, 0,
    0x3F,
    0x3F,
];

// A Cobegin; its first branch has a Foreach of count 3, its second no fork.
const BRANCHES: [u8; 8] = [0x30, 2, 0x31, 3, 0x3F, 0x3F, 0x3F, 0x3F];

// Foreach of 2, of 3 and of 4 instances, nested.
const NESTED: [u8; 10] = [0x31, 2, 0x31, 3, 0x31, 4, 0x3F, 0x3F, 0x3F, 0x3F];

// A Foreach under a When, and then a Cobegin.
const GUARDED: [u8; 10] = [0x25, 0, 0x31, 2, 0x3F, 0x30, 2, 0x3F, 0x3F, 0x3F];

fn check_strand(
    rt: &impl Abort,
    file: &[u8],
    number: usize,
    place: usize,
    indices: [u8; 3],
) -> Result<(), Fail> {
    let Ok(recipe) = Recipe::read::<Sections>(file) else {
        return Err(Fail::new("refused"));
    };
    let Some(strand) = locate::<Sections>(&recipe, number) else {
        return Err(Fail::new("no such strand"));
    };
    let (site, found) = strand;
    assert_eq!(rt; site.place, place);
    assert_eq!(rt; found, indices);
    Ok(())
}

// A file has so many strands, and no strand has that number.
fn check_strands(rt: &impl Abort, file: &[u8], strands: u16) -> Result<(), Fail> {
    let Ok(recipe) = Recipe::read::<Sections>(file) else {
        return Err(Fail::new("refused"));
    };
    assert_eq!(rt; recipe.strands(), strands);
    assert!(rt; locate::<Sections>(&recipe, strands as usize).is_none());
    Ok(())
}

#[test]
fn instances_of_a_foreach_are_numbered_by_index(rt: HostRuntime) -> Result<(), Fail> {
    check_strands(&rt, &THREE_CELLS, 4)?;
    check_strand(&rt, &THREE_CELLS, 0, 30, [0, 0, 0])?;
    check_strand(&rt, &THREE_CELLS, 1, 42, [0, 0, 0])?;
    check_strand(&rt, &THREE_CELLS, 2, 42, [1, 0, 0])?;
    check_strand(&rt, &THREE_CELLS, 3, 42, [2, 0, 0])
}

#[test]
fn a_branch_is_numbered_after_all_strands_of_the_one_before(rt: HostRuntime) -> Result<(), Fail> {
    check_strands(&rt, &BRANCHES, 6)?;
    check_strand(&rt, &BRANCHES, 0, 0, [0, 0, 0])?;
    check_strand(&rt, &BRANCHES, 1, 2, [0, 0, 0])?;
    check_strand(&rt, &BRANCHES, 2, 4, [0, 0, 0])?;
    check_strand(&rt, &BRANCHES, 4, 4, [2, 0, 0])?;
    check_strand(&rt, &BRANCHES, 5, 6, [0, 0, 0])
}

// Sizes from the innermost out: 1, 1 + 4 = 5, 1 + 3 × 5 = 16, 1 + 2 × 16 = 33.
#[test]
fn indices_go_from_the_outermost_foreach_in(rt: HostRuntime) -> Result<(), Fail> {
    check_strands(&rt, &NESTED, 33)?;
    check_strand(&rt, &NESTED, 1, 2, [0, 0, 0])?;
    check_strand(&rt, &NESTED, 12, 4, [0, 2, 0])?;
    check_strand(&rt, &NESTED, 17, 2, [1, 0, 0])?;
    check_strand(&rt, &NESTED, 18, 4, [1, 0, 0])?;
    check_strand(&rt, &NESTED, 32, 6, [1, 2, 3])
}

#[test]
fn a_fork_under_when_counts_in_full(rt: HostRuntime) -> Result<(), Fail> {
    check_strands(&rt, &GUARDED, 5)?;
    check_strand(&rt, &GUARDED, 2, 4, [1, 0, 0])?;
    check_strand(&rt, &GUARDED, 3, 7, [0, 0, 0])?;
    check_strand(&rt, &GUARDED, 4, 8, [0, 0, 0])
}
