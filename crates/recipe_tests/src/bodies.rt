use crate::said::{Said, all_say};
use paths::Paths;
use std::test::Fail;

// Files that end where a record or its body goes on. The path 40 has no elements, and is single.
const ENDS: [(&[u8], Said); 26] = [
    (&[], Said::Record(2, 0)),
    (&[0x23, 0, 0], Said::Record(2, 3)),
    (&[0x25, 0], Said::Record(2, 2)),
    (&[0x31, 1], Said::Record(2, 2)),
    (&[0x31, 1, 0x3F], Said::Record(2, 3)),
    (&[0x30, 2, 0x3F], Said::Record(2, 3)),
    (&[0x01, 0x40], Said::Record(2, 2)),
    (&[0x10, 0x40], Said::Record(2, 2)),
    // a pattern is missing, or has no end
    (&[0x01], Said::Pattern(2, 1)),
    (&[0x10], Said::Pattern(2, 1)),
    (&[0x11, 0x43], Said::Pattern(2, 2)),
    (&[0x20, 3], Said::Pattern(2, 2)),
    (&[0x21, 3], Said::Pattern(2, 2)),
    (&[0x01, 0x41, 7], Said::Pattern(2, 1)),
    // a body is one byte short
    (&[0x20], Said::Record(2, 0)),
    (&[0x21], Said::Record(2, 0)),
    (&[0x22, 0, 0, 0, 0], Said::Record(2, 0)),
    (&[0x23, 0], Said::Record(2, 0)),
    (&[0x24, 0], Said::Record(2, 0)),
    (&[0x25], Said::Record(2, 0)),
    (&[0x26, 0, 0], Said::Record(2, 0)),
    (&[0x30], Said::Record(2, 0)),
    (&[0x31], Said::Record(2, 0)),
    // and has a number outside its limits
    (&[0x22, 4, 0, 0, 0], Said::Record(2, 0)),
    (&[0x26, 4, 4], Said::Record(2, 0)),
    (&[0x31, 1, 0x25, 3, 0x24, 4], Said::Record(2, 4)),
];

#[test]
fn files_that_end_too_soon(rt: HostRuntime) -> Result<(), Fail> {
    all_say::<Paths>(&rt, &ENDS)
}

const REGISTERS: [(&[u8], Said); 18] = [
    (&[0x20, 3, 0x40, 0x3F], Said::Recipe(0, 1)),
    (&[0x20, 4, 0x40, 0x3F], Said::Record(4, 0)),
    (&[0x21, 3, 0x40, 0x3F], Said::Recipe(0, 1)),
    (&[0x21, 4, 0x40, 0x3F], Said::Record(4, 0)),
    (&[0x22, 3, 255, 255, 255, 255, 0x3F], Said::Recipe(0, 1)),
    (&[0x22, 4, 0, 0, 0, 0, 0x3F], Said::Record(4, 0)),
    (&[0x23, 3, 3, 0x3F], Said::Recipe(0, 1)),
    (&[0x23, 4, 0, 0x3F], Said::Record(4, 0)),
    (&[0x23, 0, 4, 0x3F], Said::Record(4, 0)),
    (&[0x26, 3, 3, 3, 0x3F], Said::Recipe(0, 1)),
    (&[0x26, 4, 0, 0, 0x3F], Said::Record(4, 0)),
    (&[0x26, 0, 4, 0, 0x3F], Said::Record(4, 0)),
    (&[0x26, 0, 0, 255, 0x3F], Said::Record(4, 0)),
    (&[0x25, 3, 0x23, 0, 0, 0x3F], Said::Recipe(0, 1)),
    (&[0x25, 4, 0x23, 0, 0, 0x3F], Said::Record(4, 0)),
    // before the pattern is looked at: missing, of another kind, not single
    (&[0x20, 4], Said::Record(4, 0)),
    (&[0x21, 4, 0x48], Said::Record(4, 0)),
    (&[0x25, 0, 0x20, 4, 0x43, 0x40], Said::Record(4, 2)),
];

const HOLES: [(&[u8], Said); 11] = [
    // outside every foreach
    (&[0x24, 0, 0, 0x3F], Said::Record(4, 0)),
    (&[0x24, 0, 1, 0x3F], Said::Record(4, 0)),
    (&[0x31, 1, 0x3F, 0x24, 0, 1, 0x3F], Said::Record(4, 3)),
    // under one, and a cobegin adds none
    (&[0x31, 1, 0x24, 0, 0, 0x3F, 0x3F], Said::Record(4, 2)),
    (&[0x31, 1, 0x24, 3, 1, 0x3F, 0x3F], Said::Recipe(0, 2)),
    (&[0x31, 1, 0x24, 4, 1, 0x3F, 0x3F], Said::Record(4, 2)),
    (&[0x31, 1, 0x24, 0, 2, 0x3F, 0x3F], Said::Record(4, 2)),
    (&[0x31, 1, 0x30, 2, 0x24, 0, 2, 0x3F], Said::Record(4, 4)),
    // under three
    (
        &[0x31, 1, 0x31, 1, 0x31, 1, 0x24, 0, 3, 0x3F],
        Said::Record(2, 10),
    ),
    (
        &[0x31, 1, 0x31, 1, 0x31, 1, 0x24, 0, 4, 0x3F],
        Said::Record(4, 6),
    ),
    // a Cell is under none
    (&[0x01, 0x45, 1, 1, 0, 0, 0x40], Said::Pattern(4, 1)),
];

#[test]
fn registers_and_holes(rt: HostRuntime) -> Result<(), Fail> {
    all_say::<Paths>(&rt, &REGISTERS)?;
    all_say::<Paths>(&rt, &HOLES)
}
