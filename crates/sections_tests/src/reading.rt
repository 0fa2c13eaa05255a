use sections::Sections;
use std::test::Fail;
use theory::{Theory, Told};

// The bytes of a file, the place of the pattern, the number of enclosing foreach; the number and the
// place of the fault.
const FAULTS: [(&[u8], usize, u8, u8, usize); 16] = [
    // no kind byte
    (&[], 0, 0, 2, 0),
    (&[0x48], 1, 0, 2, 1),
    // another kind, before its body is looked at
    (&[0x40], 0, 0, 3, 0),
    (&[0x48, 0x49], 1, 3, 3, 1),
    // a body of no byte, and one byte short
    (&[0x48], 0, 0, 2, 0),
    (&[0x48, 0, 0, 0, 0, 1, 0, 1], 0, 0, 2, 0),
    (&[9, 9, 0x48, 0, 0, 0, 0, 1, 0, 1], 2, 0, 2, 2),
    // a cut body comes before a hole out of range
    (&[0x48, 9, 0, 0, 0, 1, 0, 1], 0, 0, 2, 0),
    // a hole above the number of enclosing foreach
    (&[0x48, 1, 0, 0, 0, 1, 0, 1, 0], 0, 0, 4, 0),
    (&[0x48, 3, 0, 0, 0, 1, 0, 1, 0], 0, 2, 4, 0),
    (&[0x48, 4, 0, 0, 0, 1, 0, 1, 0], 0, 3, 4, 0),
    (&[0x48, 255, 0, 0, 0, 1, 0, 1, 0], 0, 255, 4, 0),
    // a scale without a hole
    (&[0x48, 0, 1, 0, 0, 1, 0, 1, 0], 0, 3, 4, 0),
    (&[0x48, 0, 255, 0, 0, 1, 0, 1, 0], 0, 3, 4, 0),
    // a step of 0, a count of 0
    (&[0x48, 0, 0, 0, 0, 0, 0, 1, 0], 0, 0, 4, 0),
    (&[7, 0x48, 0, 0, 0, 0, 1, 0, 0, 0], 1, 0, 4, 1),
];

#[test]
fn the_first_fault_is_told(rt: HostRuntime) -> Result<(), Fail> {
    for (file, place, depth, number, at) in FAULTS {
        let Err(fault) = Sections::read(file, place, depth) else {
            return Err(Fail::new("a faulty pattern is read"));
        };
        let told = Told::from(fault);
        assert_eq!(rt; told.number, number);
        assert_eq!(rt; told.place, at);
    }
    Ok(())
}

// The bytes of a file, the place of the pattern, the number of enclosing foreach; number and scale of
// the hole, if there is one; offset, step and count; the end.
const PATTERNS: [(&[u8], usize, u8, Option<(u8, u8)>, (u16, u16, u16), usize); 6] = [
    (&[0x48, 0, 0, 0, 0, 1, 0, 1, 0], 0, 0, None, (0, 1, 1), 9),
    (
        &[0x48, 0, 0, 1, 2, 3, 4, 5, 6],
        0,
        3,
        None,
        (513, 1027, 1541),
        9,
    ),
    (
        &[0x48, 1, 255, 255, 255, 255, 255, 255, 255],
        0,
        1,
        Some((1, 255)),
        (65535, 65535, 65535),
        9,
    ),
    (
        &[0x48, 3, 0, 0, 0, 1, 0, 1, 0],
        0,
        3,
        Some((3, 0)),
        (0, 1, 1),
        9,
    ),
    (
        &[0x48, 2, 7, 0, 0, 1, 0, 1, 0, 0xff],
        0,
        3,
        Some((2, 7)),
        (0, 1, 1),
        9,
    ),
    (
        &[0xff, 0x48, 0, 0, 9, 0, 0, 1, 1, 0],
        1,
        0,
        None,
        (9, 256, 1),
        10,
    ),
];

#[test]
fn patterns_are_read_low_byte_first(rt: HostRuntime) -> Result<(), Fail> {
    for (file, place, depth, hole, numbers, end) in PATTERNS {
        let Ok((p, after)) = Sections::read(file, place, depth) else {
            return Err(Fail::new("a pattern is not read"));
        };
        assert_eq!(rt; p.hole.map(|h| (h.number, h.scale)), hole);
        assert_eq!(rt; (p.offset, p.step, p.count), numbers);
        assert_eq!(rt; after, end);
    }
    Ok(())
}
