use crate::said::{Said, says};
use paths::Paths;
use std::test::Fail;

// The start of a file; whether a Cell, an effect and a When may follow, and what is said after an End.
const POINTS: [(&[u8], bool, bool, bool, Said); 12] = [
    (&[], true, true, true, Said::Recipe(0, 1)),
    (&[0x01, 0x40], true, true, true, Said::Recipe(1, 1)),
    (&[0x10, 0x40], false, true, true, Said::Recipe(0, 1)),
    (&[0x11, 0x40], false, true, true, Said::Recipe(0, 1)),
    (&[0x23, 0, 0], false, false, true, Said::Recipe(0, 1)),
    (&[0x25, 0], false, false, false, Said::Record(3, 2)),
    (
        &[0x25, 0, 0x23, 0, 0],
        false,
        false,
        true,
        Said::Recipe(0, 1),
    ),
    (&[0x31, 1, 0x3F], false, false, true, Said::Recipe(0, 2)),
    // in a block that is not the root
    (&[0x31, 1], false, true, true, Said::Record(2, 3)),
    (&[0x30, 2, 0x3F], false, true, true, Said::Record(2, 4)),
    (
        &[0x31, 1, 0x10, 0x40],
        false,
        true,
        true,
        Said::Record(2, 5),
    ),
    (
        &[0x31, 1, 0x23, 0, 0],
        false,
        false,
        true,
        Said::Record(2, 6),
    ),
];

// A kind that may stand there has its body cut off, or the pattern after it is missing.
fn expected(byte: u8, place: usize, cell: bool, effect: bool, when: bool, end: Said) -> Said {
    match byte {
        0x01 if cell => Said::Pattern(2, place.wrapping_add(1)),
        0x10 | 0x11 if effect => Said::Pattern(2, place.wrapping_add(1)),
        0x20..=0x24 | 0x26 | 0x30 | 0x31 => Said::Record(2, place),
        0x25 if when => Said::Record(2, place),
        0x3F => end,
        _ => Said::Record(3, place),
    }
}

#[test]
fn every_byte_at_every_point(rt: HostRuntime) -> Result<(), Fail> {
    for (head, cell, effect, when, end) in POINTS {
        // The loop's number is the byte that is tried.
        for byte in 0..=255 {
            let mut file = head.to_vec(rt.alloc())?;
            file.push(byte)?;
            says::<Paths>(
                &rt,
                &file,
                expected(byte, head.len(), cell, effect, when, end),
            )?;
        }
    }
    Ok(())
}
