use crate::said::{Said, all_say, says};
use paths::Paths;
use sections::Sections;
use std::alloc::Global;
use std::test::Fail;

// A file that lists so many cells from 0 on, and then has these bytes.
fn listed(heap: Global, count: u8, rest: &[u8]) -> Result<Vec<u8>, Fail> {
    let mut file = Vec::new(heap);
    // The loop's number is the cell.
    for cell in 0..count {
        file.extend_from_slice(&[0x01, 0x48, 0, 0, cell, 0, 1, 0, 1, 0])?;
    }
    file.extend_from_slice(rest)?;
    Ok(file)
}

const LISTS: [(u8, &[u8], Said); 14] = [
    (127, &[0x3F], Said::Recipe(127, 1)),
    (128, &[0x3F], Said::Recipe(128, 1)),
    (129, &[0x3F], Said::Record(5, 1280)),
    // the 129th before its pattern is read
    (128, &[0x01], Said::Record(5, 1280)),
    (128, &[0x01, 0x3F], Said::Record(5, 1280)),
    (128, &[0x00], Said::Record(3, 1280)),
    // a new cell, the last one again, the first one again
    (
        3,
        &[0x01, 0x48, 0, 0, 3, 0, 1, 0, 1, 0, 0x3F],
        Said::Recipe(4, 1),
    ),
    (
        3,
        &[0x01, 0x48, 0, 0, 2, 0, 1, 0, 1, 0, 0x3F],
        Said::Record(7, 30),
    ),
    (
        3,
        &[0x01, 0x48, 0, 0, 0, 0, 1, 0, 1, 0, 0x3F],
        Said::Record(7, 30),
    ),
    // a listed cell in other bytes
    (
        3,
        &[0x01, 0x48, 0, 0, 1, 0, 2, 0, 1, 0, 0x3F],
        Said::Record(7, 30),
    ),
    // not single, whether or not its first cell is listed
    (
        3,
        &[0x01, 0x48, 0, 0, 3, 0, 1, 0, 2, 0, 0x3F],
        Said::Record(6, 30),
    ),
    (
        3,
        &[0x01, 0x48, 0, 0, 1, 0, 1, 0, 2, 0, 0x3F],
        Said::Record(6, 30),
    ),
    // a step of 0, a hole outside every foreach
    (
        3,
        &[0x01, 0x48, 0, 0, 1, 0, 0, 0, 2, 0, 0x3F],
        Said::Pattern(4, 31),
    ),
    (
        3,
        &[0x01, 0x48, 1, 0, 1, 0, 1, 0, 2, 0, 0x3F],
        Said::Pattern(4, 31),
    ),
];

#[test]
fn sections_are_listed_once_and_at_most_128(rt: HostRuntime) -> Result<(), Fail> {
    for (count, rest, expected) in LISTS {
        let file = listed(rt.alloc(), count, rest)?;
        says::<Sections>(&rt, &file, expected)?;
    }
    Ok(())
}

const PATTERNS: [(&[u8], Said); 14] = [
    (&[0x01, 0x40, 0x3F], Said::Recipe(1, 1)),
    (&[0x01, 0x40, 0x01, 0x40, 0x3F], Said::Record(7, 2)),
    // name 5 is not index 5
    (
        &[0x01, 0x41, 5, 0, 0x40, 0x01, 0x42, 5, 0, 0, 0, 0x40, 0x3F],
        Said::Recipe(2, 1),
    ),
    // a star, any index
    (&[0x01, 0x43, 0x40, 0x3F], Said::Record(6, 0)),
    (&[0x01, 0x40, 0x01, 0x44, 0x40, 0x3F], Said::Record(6, 2)),
    (&[0x20, 0, 0x43, 0x40, 0x3F], Said::Record(6, 0)),
    (&[0x25, 0, 0x21, 0, 0x44, 0x40, 0x3F], Said::Record(6, 2)),
    (
        &[0x10, 0x43, 0x40, 0x11, 0x44, 0x40, 0x3F],
        Said::Recipe(0, 1),
    ),
    // a fault inside the pattern is told first
    (&[0x01, 0x43, 0x00], Said::Pattern(3, 2)),
    (&[0x20, 0, 0x43, 0x48], Said::Pattern(3, 3)),
    // what may not stand there is refused before its pattern is read
    (&[0x10, 0x40, 0x01, 0x43, 0x40, 0x3F], Said::Record(3, 2)),
    (&[0x23, 0, 0, 0x01, 0x40, 0x3F], Said::Record(3, 3)),
    (&[0x31, 1, 0x01, 0x40, 0x3F, 0x3F], Said::Record(3, 2)),
    (&[0x23, 0, 0, 0x10, 0x40, 0x3F], Said::Record(3, 3)),
];

#[test]
fn paths_are_single_and_listed_once(rt: HostRuntime) -> Result<(), Fail> {
    all_say::<Paths>(&rt, &PATTERNS)
}
