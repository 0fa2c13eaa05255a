use paths::{Paths, Pattern, Region};
use sections::{Section, SectionPattern, Sections};
use std::process::Abort;
use std::test::Fail;
use theory::{Product, Theory, Told};

type Strip = Product<Paths, Sections>;

// `*:A` with 0, 6, .. , 54, and with 0, 6, 12, 18.
const SIXES: &[u8] = &[0x43, 0x41, 0, 0, 0x40, 0x48, 0, 0, 0, 0, 6, 0, 10, 0];

const FEW_SIXES: &[u8] = &[0x43, 0x41, 0, 0, 0x40, 0x48, 0, 0, 0, 0, 6, 0, 4, 0];

// `B:*`, and `A`, with 4, 14, 24.
const TENS: &[u8] = &[0x41, 1, 0, 0x43, 0x40, 0x48, 0, 0, 4, 0, 10, 0, 3, 0];

const OTHER_TENS: &[u8] = &[0x41, 0, 0, 0x40, 0x48, 0, 0, 4, 0, 10, 0, 3, 0];

// `B:A` with 24.
const CELL: &[u8] = &[0x41, 1, 0, 0x41, 0, 0, 0x40, 0x48, 0, 0, 24, 0, 1, 0, 1, 0];

// The pattern that a file has alone.
fn pattern(
    rt: &impl Abort,
    file: &[u8],
    depth: u8,
) -> Result<Product<Pattern, SectionPattern>, Fail> {
    let Ok((pattern, end)) = Strip::read(file, 0, depth) else {
        return Err(Fail::new("a product is not read"));
    };
    assert_eq!(rt; end, file.len());
    Ok(pattern)
}

// Its region outside every foreach.
fn region(rt: &impl Abort, file: &[u8]) -> Result<Product<Region, Section>, Fail> {
    Ok(Strip::fill(&pattern(rt, file, 0)?, &[0, 0, 0]))
}

// A value and its copy, which has a variable of its own.
fn twice<T: Copy>(value: T) -> (T, T) {
    let copy = value;
    (value, copy)
}

#[test]
fn patterns_and_regions_are_copied(rt: HostRuntime) -> Result<(), Fail> {
    let (sixes, same) = twice(pattern(&rt, SIXES, 0)?);
    assert!(rt; sixes == same);
    let (region, other) = twice(Strip::fill(&sixes, &[0, 0, 0]));
    assert!(rt; region == other && Strip::within(&region, &other));
    Ok(())
}

#[test]
fn single_where_both_sides_are(rt: HostRuntime) -> Result<(), Fail> {
    let star = pattern(&rt, &[0x43, 0x40, 0x48, 0, 0, 24, 0, 1, 0, 1, 0], 0)?;
    assert!(rt; !Strip::single(&star));
    assert!(rt; !Strip::single(&pattern(&rt, OTHER_TENS, 0)?));
    assert!(rt; !Strip::single(&pattern(&rt, SIXES, 0)?));
    assert!(rt; Strip::single(&pattern(&rt, CELL, 0)?));
    Ok(())
}

// The pattern is refused with this number at this place.
// Each crate of tests has its own: a crate for a few lines would be no plainer.
fn refuses(rt: &impl Abort, file: &[u8], number: u8, place: usize) -> Result<(), Fail> {
    let Err(fault) = Strip::read(file, 0, 0) else {
        return Err(Fail::new("a faulty product is read"));
    };
    let told = Told::from(fault);
    assert!(rt; told.number == number && told.place == place);
    Ok(())
}

#[test]
fn a_fault_of_the_section_has_its_own_place(rt: HostRuntime) -> Result<(), Fail> {
    refuses(&rt, &[0x43], 2, 1)?;
    refuses(&rt, &[0x43, 0x40], 2, 2)?;
    refuses(&rt, &[0x43, 0x40, 0x40], 3, 2)?;
    refuses(&rt, &[0x40, 0x48, 1, 0, 0, 0, 1, 0, 1, 0], 4, 1)
}

// Index 2i + 10 with cell i + 17, where i is the index of the second foreach; then `[24]` with 24.
#[test]
fn both_sides_have_the_same_indices(rt: HostRuntime) -> Result<(), Fail> {
    let file = [0x45, 2, 2, 10, 0, 0x40, 0x48, 2, 1, 17, 0, 1, 0, 1, 0];
    let fixed = [0x42, 24, 0, 0, 0, 0x40, 0x48, 0, 0, 24, 0, 1, 0, 1, 0];
    let moving = pattern(&rt, &file, 2)?;
    let cell = Strip::only(&moving, &[0, 7, 0]);
    assert!(rt; Strip::same(&cell, &Strip::only(&pattern(&rt, &fixed, 0)?, &[0, 0, 0])));
    assert!(rt; !Strip::same(&cell, &Strip::only(&moving, &[0, 8, 0])));
    Ok(())
}

#[test]
fn the_shown_cell_is_a_pair(rt: HostRuntime) -> Result<(), Fail> {
    let sixes = region(&rt, SIXES)?;
    let tens = region(&rt, TENS)?;
    let cell = region(&rt, CELL)?;
    assert!(rt; Strip::within(&cell, &sixes) && Strip::within(&cell, &tens));
    assert!(rt; !Strip::within(&sixes, &cell));
    let Some(shown) = Strip::share(&sixes, &tens) else {
        return Err(Fail::new("two products share no cell"));
    };
    assert!(rt; Strip::has(&cell, &shown));
    Ok(())
}

#[test]
fn no_cell_where_one_side_has_none(rt: HostRuntime) -> Result<(), Fail> {
    let tens = region(&rt, TENS)?;
    assert!(rt; Strip::share(&region(&rt, FEW_SIXES)?, &tens).is_none());
    assert!(rt; Strip::share(&region(&rt, OTHER_TENS)?, &tens).is_none());
    Ok(())
}
