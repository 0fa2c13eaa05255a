use crate::said::{END, Part, Said, all_built_say};
use paths::Paths;
use std::test::Fail;

const READS: &[u8] = &[0x10, 0x40];

const WRITES: &[u8] = &[0x11, 0x40];

const FOREACH: &[u8] = &[0x31, 1];

const COBEGIN: &[u8] = &[0x30, 2];

const WHEN: &[u8] = &[0x25, 0];

const EFFECTS: [(&[Part], Said); 8] = [
    (&[(READS, 16), (END, 1)], Said::Recipe(0, 1)),
    (&[(READS, 17), (END, 1)], Said::Record(5, 32)),
    (&[(READS, 8), (WRITES, 9), (END, 1)], Said::Record(5, 32)),
    // before its pattern is read
    (&[(WRITES, 16), (&[0x11], 1)], Said::Record(5, 32)),
    (&[(WRITES, 16), (&[0x11, 0x00], 1)], Said::Record(5, 32)),
    (&[(WRITES, 16), (&[0x12], 1)], Said::Record(3, 32)),
    // each block has its own
    (
        &[(READS, 16), (FOREACH, 1), (WRITES, 16), (END, 2)],
        Said::Recipe(0, 2),
    ),
    (
        &[(READS, 16), (FOREACH, 1), (WRITES, 17), (END, 2)],
        Said::Record(5, 66),
    ),
];

#[test]
fn at_most_16_effects(rt: HostRuntime) -> Result<(), Fail> {
    all_built_say::<Paths>(&rt, rt.alloc(), &EFFECTS)
}

const NESTED: [(&[Part], Said); 16] = [
    (&[(COBEGIN, 6), (END, 13)], Said::Recipe(0, 13)),
    (&[(COBEGIN, 7), (END, 15)], Said::Record(5, 12)),
    (&[(FOREACH, 3), (END, 4)], Said::Recipe(0, 4)),
    (&[(FOREACH, 4), (END, 5)], Said::Record(5, 6)),
    (
        &[(FOREACH, 3), (COBEGIN, 3), (END, 10)],
        Said::Recipe(0, 10),
    ),
    (
        &[(FOREACH, 3), (COBEGIN, 4), (END, 12)],
        Said::Record(5, 12),
    ),
    (&[(COBEGIN, 4), (FOREACH, 3)], Said::Record(5, 12)),
    (
        &[(FOREACH, 2), (COBEGIN, 1), (FOREACH, 2)],
        Said::Record(5, 8),
    ),
    // before its blocks are read, and after its own numbers
    (&[(COBEGIN, 7)], Said::Record(5, 12)),
    (&[(COBEGIN, 6), (&[0x30], 1)], Said::Record(2, 12)),
    (&[(COBEGIN, 6), (&[0x30, 17], 1)], Said::Record(4, 12)),
    (&[(FOREACH, 3), (&[0x31, 65], 1)], Said::Record(4, 6)),
    // a When in between makes no difference
    (
        &[(WHEN, 1), (COBEGIN, 5), (WHEN, 1), (COBEGIN, 2)],
        Said::Record(5, 16),
    ),
    // one after another, forks are not nested
    (
        &[(&[0x30, 2, 0x3F, 0x3F], 7), (END, 1)],
        Said::Recipe(0, 15),
    ),
    (&[(&[0x31, 1, 0x3F], 4), (END, 1)], Said::Recipe(0, 5)),
    (
        &[(COBEGIN, 6), (END, 12), (COBEGIN, 1), (END, 3)],
        Said::Recipe(0, 15),
    ),
];

#[test]
fn at_most_6_forks_and_3_foreach_are_nested(rt: HostRuntime) -> Result<(), Fail> {
    all_built_say::<Paths>(&rt, rt.alloc(), &NESTED)
}
