use paths::{Paths, Pattern};
use recipe::{Fork, Operation, Record, Site, Spot, read_block, read_record};
use std::test::Fail;
use theory::Told;

// The numbers of the body of a record.
fn numbers(record: &Record<Pattern>) -> (u8, u32, u8) {
    match record {
        Record::Cell(_) => (0, 0, 0),
        Record::Effect(_, _) => (0, 0, 0),
        Record::Operation(Operation::Load(register, _)) => (*register, 0, 0),
        Record::Operation(Operation::Store(register, _)) => (*register, 0, 0),
        Record::Operation(Operation::Set(register, value)) => (*register, *value, 0),
        Record::Operation(Operation::Add(target, source)) => (*target, *source as u32, 0),
        Record::Operation(Operation::Index(register, hole)) => (*register, *hole as u32, 0),
        Record::Operation(Operation::Less(target, left, right)) => (*target, *left as u32, *right),
        Record::When(register) => (*register, 0, 0),
        Record::Fork(Fork::Cobegin(count)) => (*count, 0, 0),
        Record::Fork(Fork::Foreach(count)) => (*count, 0, 0),
        Record::End => (0, 0, 0),
    }
}

// The bytes of its pattern.
fn borrowed<'a>(record: &Record<'a, Pattern>) -> &'a [u8] {
    match record {
        Record::Cell(pattern) => pattern.bytes,
        Record::Effect(_, pattern) => pattern.bytes,
        Record::Operation(Operation::Load(_, pattern)) => pattern.bytes,
        Record::Operation(Operation::Store(_, pattern)) => pattern.bytes,
        _ => &[],
    }
}

// A record between two bytes; where it stands, the numbers of its body, its pattern and its end.
const RECORDS: [(&[u8], Spot, (u8, u32, u8), &[u8], usize); 11] = [
    (
        &[0, 0x01, 0x41, 5, 0, 0x40, 0],
        Spot::Cells,
        (0, 0, 0),
        &[0x41, 5, 0, 0x40],
        6,
    ),
    (
        &[0, 0x11, 0x44, 0x40, 0],
        Spot::Effects,
        (0, 0, 0),
        &[0x44, 0x40],
        4,
    ),
    (
        &[0, 0x20, 3, 0x40, 0],
        Spot::Statements,
        (3, 0, 0),
        &[0x40],
        4,
    ),
    (
        &[0, 0x21, 2, 0x41, 5, 0, 0x40, 0],
        Spot::Guarded,
        (2, 0, 0),
        &[0x41, 5, 0, 0x40],
        7,
    ),
    (
        &[0, 0x22, 1, 4, 3, 2, 1, 0],
        Spot::Guarded,
        (1, 0x01020304, 0),
        &[],
        7,
    ),
    (&[0, 0x23, 1, 2, 0], Spot::Statements, (1, 2, 0), &[], 4),
    (&[0, 0x24, 3, 2, 0], Spot::Guarded, (3, 2, 0), &[], 4),
    (&[0, 0x25, 2, 0], Spot::Statements, (2, 0, 0), &[], 3),
    (&[0, 0x26, 1, 2, 3, 0], Spot::Statements, (1, 2, 3), &[], 5),
    (&[0, 0x30, 16, 0], Spot::Guarded, (16, 0, 0), &[], 3),
    (&[0, 0x3F, 0], Spot::Statements, (0, 0, 0), &[], 2),
];

const SITE: Site = Site {
    place: 1,
    forks: 1,
    depth: 2,
};

#[test]
fn records_say_what_stands_in_them(rt: HostRuntime) -> Result<(), Fail> {
    for (file, spot, inside, pattern, after) in RECORDS {
        let Ok((record, end)) = read_record::<Paths>(file, spot, SITE) else {
            return Err(Fail::new("a record is refused"));
        };
        assert_eq!(rt; numbers(&record), inside);
        assert!(rt; borrowed(&record) == pattern);
        assert_eq!(rt; end, after);
    }
    Ok(())
}

// Bytes, room for forks, foreach around, the place of a block; its end and strands, or a fault's number.
const BLOCKS: [(&[u8], u8, u8, usize, Result<(usize, u16), u8>); 7] = [
    (&[0x00, 0x3F, 0x00], 0, 0, 1, Ok((2, 1))),
    (&[0x00, 0x3F, 0x00], 0, 0, 0, Err(3)),
    (&[0x30, 2, 0x3F, 0x3F, 0x3F], 1, 0, 0, Ok((5, 3))),
    (&[0x30, 2, 0x3F, 0x3F, 0x3F], 0, 0, 0, Err(5)),
    (&[0x31, 9, 0x24, 0, 3, 0x3F, 0x3F], 1, 2, 0, Ok((7, 10))),
    (&[0x31, 9, 0x24, 0, 3, 0x3F, 0x3F], 1, 3, 0, Err(5)),
    (
        &[0x31, 64, 0x31, 64, 0x3F, 0x3F, 0x3F],
        2,
        0,
        0,
        Ok((7, 1025)),
    ),
];

#[test]
fn blocks_end_with_their_end(rt: HostRuntime) {
    for (file, forks, depth, place, expected) in BLOCKS {
        match read_block::<Paths>(
            file,
            Site {
                place,
                forks,
                depth,
            },
        ) {
            Ok(extent) => assert_eq!(rt; Ok((extent.end, extent.strands)), expected),
            Err(fault) => assert_eq!(rt; Err(Told::from(fault).number), expected),
        }
    }
}
