use crate::said::{END, Part, Said, all_built_say, says};
use paths::Paths;
use recipe::Recipe;
use sections::Sections;
use std::test::Fail;

const ADD: &[u8] = &[0x23, 0, 0];

const LESS: &[u8] = &[0x26, 0, 0, 0];

// Three cells, and three strands that each store their index into their cell.
// The tests of strands have the same file: a crate for one constant would be no plainer.
#[rattlefmt::skip]
const WORKED: [u8; 68] = [
    0x01, 0x48, 0, 0, 0, 0, 1, 0, 1, 0,
    0x01, 0x48, 0, 0, 1, 0, 1, 0, 1, 0,
    0x01, 0x48, 0, 0, 2, 0, 1, 0, 1, 0,
    0x11, 0x48, 0, 0, 0, 0, 1, 0, 3, 0,
    0x31, 3,
    0x11, 0x48, 1, 1, 0, 0, 1, 0, 1, 0,
    0x24, 0, 1,
    0x21, 0, 0x48, 1, 1, 0, 0, 1, 0, 1, 0,
    0x3F,
    0x3F,
];

const LENGTHS: [(&[Part], Said); 10] = [
    (&[], Said::Record(2, 0)),
    (&[(END, 1)], Said::Recipe(0, 1)),
    // 16,384 bytes
    (&[(ADD, 5461), (END, 1)], Said::Recipe(0, 1)),
    (&[(ADD, 5460), (LESS, 1)], Said::Record(2, 16_384)),
    (&[(END, 16_384)], Said::Record(8, 1)),
    (&[(&WORKED, 1), (&[0], 16_316)], Said::Record(8, 68)),
    // 16,385 bytes
    (&[(ADD, 5460), (LESS, 1), (END, 1)], Said::Record(1, 0)),
    (&[(END, 16_385)], Said::Record(1, 0)),
    (&[(&[0], 16_385)], Said::Record(1, 0)),
    (&[(&WORKED, 1), (&[0], 16_317)], Said::Record(1, 0)),
];

#[test]
fn at_most_16384_bytes(rt: HostRuntime) -> Result<(), Fail> {
    all_built_say::<Sections>(&rt, rt.alloc(), &LENGTHS)
}

// From the place of each record to its end, what is said of the bytes before.
const BEGINNINGS: [(usize, usize, Said); 16] = [
    (0, 1, Said::Record(2, 0)),
    (1, 10, Said::Pattern(2, 1)),
    (10, 11, Said::Record(2, 10)),
    (11, 20, Said::Pattern(2, 11)),
    (20, 21, Said::Record(2, 20)),
    (21, 30, Said::Pattern(2, 21)),
    (30, 31, Said::Record(2, 30)),
    (31, 40, Said::Pattern(2, 31)),
    (40, 42, Said::Record(2, 40)),
    (42, 43, Said::Record(2, 42)),
    (43, 52, Said::Pattern(2, 43)),
    (52, 55, Said::Record(2, 52)),
    (55, 57, Said::Record(2, 55)),
    (57, 66, Said::Pattern(2, 57)),
    (66, 67, Said::Record(2, 66)),
    (67, 68, Said::Record(2, 67)),
];

#[test]
fn the_worked_file(rt: HostRuntime) -> Result<(), Fail> {
    says::<Sections>(&rt, &WORKED, Said::Recipe(3, 4))?;
    says::<Paths>(&rt, &WORKED, Said::Pattern(3, 1))?;
    let Ok(recipe) = Recipe::read::<Sections>(&WORKED) else {
        return Err(Fail::new("refused"));
    };
    assert!(rt; recipe.file() == WORKED.as_slice());
    for (place, end, expected) in BEGINNINGS {
        assert!(rt; end <= 68);
        for length in place..end {
            says::<Sections>(&rt, &WORKED[..length], expected)?;
        }
    }
    Ok(())
}
