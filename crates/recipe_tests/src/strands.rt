use crate::said::{END, Part, Said, all_built_say, says};
use paths::Paths;
use std::test::Fail;

const COUNTS: [(&[Part], Said); 21] = [
    (&[(&[0x30, 0], 1), (END, 1)], Said::Record(4, 0)),
    (&[(&[0x30, 1], 1), (END, 2)], Said::Record(4, 0)),
    (&[(&[0x30, 2], 1), (END, 3)], Said::Recipe(0, 3)),
    (&[(&[0x30, 16], 1), (END, 17)], Said::Recipe(0, 17)),
    (&[(&[0x30, 17], 1), (END, 18)], Said::Record(4, 0)),
    (&[(&[0x31, 0], 1), (END, 2)], Said::Record(4, 0)),
    (&[(&[0x31, 1], 1), (END, 2)], Said::Recipe(0, 2)),
    (&[(&[0x31, 64], 1), (END, 2)], Said::Recipe(0, 65)),
    (&[(&[0x31, 65], 1), (END, 2)], Said::Record(4, 0)),
    // one End too few, one too many
    (&[(&[0x30, 16], 1), (END, 16)], Said::Record(2, 18)),
    (&[(&[0x30, 16], 1), (END, 18)], Said::Record(8, 19)),
    // 1 + 33 * (1 + 30) strands
    (
        &[(&[0x31, 33, 0x31, 30], 1), (END, 3)],
        Said::Recipe(0, 1024),
    ),
    (
        &[(&[0x25, 0, 0x31, 33, 0x31, 30], 1), (END, 3)],
        Said::Recipe(0, 1024),
    ),
    // 1 + 64 * (1 + 15)
    (&[(&[0x31, 64, 0x31, 15], 1), (END, 3)], Said::Record(9, 0)),
    (
        &[(&[0x25, 0, 0x31, 64, 0x31, 15], 1), (END, 3)],
        Said::Record(9, 0),
    ),
    // 1 + 63 * (1 + 15) + 15, and + 16
    (
        &[(&[0x31, 63, 0x31, 15, 0x3F, 0x3F, 0x30, 15], 1), (END, 16)],
        Said::Recipe(0, 1024),
    ),
    (
        &[(&[0x31, 63, 0x31, 15, 0x3F, 0x3F, 0x30, 16], 1), (END, 17)],
        Said::Record(9, 0),
    ),
    // 1 + 64 * (1 + 16)
    (&[(&[0x31, 64, 0x31, 16], 1), (END, 3)], Said::Record(9, 0)),
    // 1 + 64 * (1 + 33 * (1 + 30)), which is 65,537
    (
        &[(&[0x31, 64, 0x31, 33, 0x31, 30], 1), (END, 4)],
        Said::Record(9, 0),
    ),
    // spare bytes are told first
    (&[(&[0x31, 64, 0x31, 64], 1), (END, 4)], Said::Record(8, 7)),
    (&[(&[0x31, 64, 0x31, 64], 1), (END, 3)], Said::Record(9, 0)),
];

#[test]
fn forks_count_strands(rt: HostRuntime) -> Result<(), Fail> {
    all_built_say::<Paths>(&rt, rt.alloc(), &COUNTS)
}

// Foreach of 64 and Cobegin of 16 in turn, three each, all branches alike: 1,141,965,889 strands.
#[test]
fn a_billion_strands(rt: HostRuntime) -> Result<(), Fail> {
    let heap = rt.alloc();
    let mut block = vec![in heap; 0x3F]?;
    for _ in 0..3 {
        let mut outer = vec![in heap; 0x31, 64, 0x30, 16]?;
        for _ in 0..16 {
            outer.extend_from_slice(&block)?;
        }
        outer.extend_from_slice(&[0x3F, 0x3F])?;
        block = outer;
    }
    assert_eq!(rt; block.len(), 5734);
    says::<Paths>(&rt, &block, Said::Record(9, 0))?;
    block.push(0)?;
    says::<Paths>(&rt, &block, Said::Record(8, 5734))
}
