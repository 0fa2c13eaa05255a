use sections::{Section, Sections};
use std::test::Fail;
use theory::{Product, Theory, Told};

type Grid = Product<Sections, Sections>;

// A square of so many cells to a side.
fn square(corner: u32, side: u16) -> Product<Section, Section> {
    let side = Section {
        first: corner,
        step: 1,
        count: side.max(1),
    };
    Product {
        left: side,
        right: side,
    }
}

const FILE: [u8; 18] = [
    0x48, 0, 0, 4, 0, 1, 0, 1, 0, // left: the cell 4
    0x48, 1, 2, 0, 0, 1, 0, 1, 0, // right: twice the index
];

#[test]
fn the_right_pattern_follows_the_left_one(rt: HostRuntime) -> Result<(), Fail> {
    let Ok((pattern, end)) = Grid::read(&FILE, 0, 1) else {
        return Err(Fail::new("a product is not read"));
    };
    assert_eq!(rt; end, 18);
    assert!(rt; Grid::single(&pattern));
    let cell = Grid::only(&pattern, &[21, 0, 0]);
    assert_eq!(rt; cell.left, 4);
    assert_eq!(rt; cell.right, 42);
    let region = Grid::fill(&pattern, &[21, 0, 0]);
    assert!(rt; Grid::has(&region, &cell));
    Ok(())
}

#[test]
fn a_fault_of_the_right_side_has_its_own_place(rt: HostRuntime) -> Result<(), Fail> {
    let Err(fault) = Grid::read(&FILE, 0, 0) else {
        return Err(Fail::new("a hole outside every foreach is read"));
    };
    let told = Told::from(fault);
    assert_eq!(rt; told.number, 4);
    assert_eq!(rt; told.place, 9);
    Ok(())
}

#[test]
fn both_sides_are_asked(rt: HostRuntime) -> Result<(), Fail> {
    let large = square(0, 9);
    let small = square(4, 3);
    let tall = Product {
        left: small.left,
        right: large.right,
    };
    assert!(rt; Grid::within(&small, &large));
    assert!(rt; Grid::within(&small, &tall));
    assert!(rt; !Grid::within(&large, &tall));
    assert!(rt; !Grid::within(&tall, &small));
    let corner = Product { left: 4, right: 4 };
    let edge = Product { left: 4, right: 3 };
    assert!(rt; Grid::has(&small, &corner));
    assert!(rt; !Grid::has(&small, &edge));
    assert!(rt; Grid::has(&tall, &edge));
    assert!(rt; Grid::same(&edge, &edge));
    assert!(rt; !Grid::same(&edge, &corner));
    assert!(rt; Grid::share(&small, &square(9, 2)).is_none());
    let Some(cell) = Grid::share(&large, &small) else {
        return Err(Fail::new("nested squares share no cell"));
    };
    assert_eq!(rt; cell.left, 4);
    assert_eq!(rt; cell.right, 4);
    Ok(())
}
