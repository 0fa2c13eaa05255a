use paths::Paths;
use rpl::Key;
use std::process::Abort;
use std::test::Fail;
use theory::{Theory, Told};

// The pattern is read up to `end` and has so many elements.
fn reads(rt: &impl Abort, file: &[u8], depth: u8, elements: usize, end: usize) -> Result<(), Fail> {
    let Ok((pattern, stop)) = Paths::read(file, 0, depth) else {
        return Err(Fail::new("refused"));
    };
    assert!(rt; pattern.len() == elements && stop == end);
    Ok(())
}

// The pattern is refused with this number at this place.
// Each crate of tests has its own: a crate for a few lines would be no plainer.
fn refuses(rt: &impl Abort, file: &[u8], depth: u8, number: u8, place: usize) -> Result<(), Fail> {
    let Err(fault) = Paths::read(file, 0, depth) else {
        return Err(Fail::new("read"));
    };
    let told = Told::from(fault);
    assert!(rt; told.number == number && told.place == place);
    Ok(())
}

// The pattern is single, and this is its cell at these indices.
fn names(
    rt: &impl Abort,
    file: &[u8],
    depth: u8,
    indices: [u8; 3],
    cell: &[Key],
) -> Result<(), Fail> {
    let Ok((pattern, _)) = Paths::read(file, 0, depth) else {
        return Err(Fail::new("refused"));
    };
    assert!(rt; Paths::single(&pattern));
    assert!(rt; rpl::same(&Paths::only(&pattern, &indices), cell));
    Ok(())
}

// The pattern is not single.
fn many(rt: &impl Abort, file: &[u8]) -> Result<(), Fail> {
    let Ok((pattern, _)) = Paths::read(file, 0, 0) else {
        return Err(Fail::new("refused"));
    };
    assert!(rt; !Paths::single(&pattern));
    Ok(())
}

#[test]
fn lengths(rt: HostRuntime) -> Result<(), Fail> {
    reads(&rt, &[0x40], 0, 0, 1)?;
    reads(&rt, &[0x43, 0x40], 0, 1, 2)?;
    reads(&rt, &[0x44, 0x43, 0x40, 0x40], 0, 2, 3)?;
    let mut twelve = [0x43; 13];
    twelve[12] = 0x40;
    reads(&rt, &twelve, 0, 12, 13)
}

// Twelve elements, then a record of five bytes.
fn thirteenth(record: [u8; 5]) -> [u8; 17] {
    let mut file = [0x44; 17];
    file[12..].copy_from_slice(&record);
    file
}

#[test]
fn one_too_many(rt: HostRuntime) -> Result<(), Fail> {
    refuses(&rt, &thirteenth([0x43, 0x40, 0, 0, 0]), 0, 5, 12)?;
    refuses(&rt, &thirteenth([0x46, 0x40, 0, 0, 0]), 0, 3, 12)?;
    refuses(&rt, &thirteenth([0x45, 2, 1, 0, 0])[0..16], 1, 2, 12)?;
    refuses(&rt, &thirteenth([0x45, 2, 1, 0, 0]), 1, 4, 12)?;
    refuses(&rt, &thirteenth([0x45, 2, 1, 0, 0]), 2, 5, 12)
}

#[test]
fn cut_records(rt: HostRuntime) -> Result<(), Fail> {
    refuses(&rt, &[], 0, 2, 0)?;
    refuses(&rt, &[0x43], 0, 2, 1)?;
    refuses(&rt, &[0x41], 0, 2, 0)?;
    refuses(&rt, &[0x43, 0x41, 7], 0, 2, 1)?;
    refuses(&rt, &[0x42, 7, 7, 7], 0, 2, 0)?;
    refuses(&rt, &[0x45, 9, 7, 7], 0, 2, 0)?;
    refuses(&rt, &[0x42, 7, 7, 7, 7], 0, 2, 5)
}

#[test]
fn other_kinds(rt: HostRuntime) -> Result<(), Fail> {
    refuses(&rt, &[0x3F], 0, 3, 0)?;
    refuses(&rt, &[0x46], 0, 3, 0)?;
    refuses(&rt, &[0x48], 0, 3, 0)?;
    refuses(&rt, &[0x41, 1, 0, 0], 0, 3, 3)
}

#[test]
fn holes(rt: HostRuntime) -> Result<(), Fail> {
    refuses(&rt, &[0x45, 0, 1, 0, 0, 0x40], 3, 4, 0)?;
    refuses(&rt, &[0x45, 1, 1, 0, 0, 0x40], 0, 4, 0)?;
    refuses(&rt, &[0x45, 3, 1, 0, 0, 0x40], 2, 4, 0)?;
    refuses(&rt, &[0x45, 4, 1, 0, 0, 0x40], 4, 4, 0)?;
    reads(&rt, &[0x45, 3, 1, 0, 0, 0x40], 3, 1, 6)
}

#[test]
fn single_cells(rt: HostRuntime) -> Result<(), Fail> {
    names(&rt, &[0x40], 0, [0, 0, 0], &[])?;
    names(
        &rt,
        &[0x41, 0x34, 0x12, 0x40],
        0,
        [0, 0, 0],
        &[Key::Named(0x1234)],
    )?;
    let largest = [0x41, 0xFF, 0xFF, 0x42, 0xFF, 0xFF, 0xFF, 0xFF, 0x40];
    names(
        &rt,
        &largest,
        0,
        [0, 0, 0],
        &[Key::Named(65535), Key::Indexed(4294967295)],
    )?;
    many(&rt, &[0x43, 0x40])?;
    many(&rt, &[0x41, 1, 0, 0x44, 0x40])
}

#[test]
fn filled_indices(rt: HostRuntime) -> Result<(), Fail> {
    let one = [0x45, 1, 3, 5, 0, 0x40];
    names(&rt, &one, 1, [0, 9, 9], &[Key::Indexed(5)])?;
    names(&rt, &one, 1, [2, 9, 9], &[Key::Indexed(11)])?;
    let largest = [0x45, 2, 255, 0xFF, 0xFF, 0x40];
    names(&rt, &largest, 2, [0, 63, 0], &[Key::Indexed(81600)])
}
