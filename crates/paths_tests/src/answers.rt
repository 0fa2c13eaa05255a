ghost use Rattle.std.specs.Prelude.{◌≡◌};

use paths::{Pattern, Region};
use rpl::{Element, Key, Part, has, share, within};
use std::process::Abort;
use std::test::Fail;

const STAR: Element = Element::Star;

const ANY: Element = Element::One(Part::AnyIndex);

const A: Element = Element::One(Part::Name(0));

const B: Element = Element::One(Part::Name(1));

const ONE: Element = Element::One(Part::Index(1));

const TWO: Element = Element::One(Part::Index(2));

const KEY_A: Key = Key::Named(0);

const KEY_B: Key = Key::Named(1);

const KEY_1: Key = Key::Indexed(1);

// The paths share no cell, whichever comes first.
fn apart(rt: &impl Abort, p: &[Element], q: &[Element]) {
    assert!(rt; p.len() <= 12 && q.len() <= 12);
    assert!(rt; share(p, q).is_none());
    assert!(rt; share(q, p).is_none());
}

// The paths share a cell, whichever comes first: the one shown is in both.
fn meets(rt: &impl Abort, p: &[Element], q: &[Element]) -> Result<(), Fail> {
    assert!(rt; p.len() <= 12 && q.len() <= 12);
    shows(rt, p, q)?;
    shows(rt, q, p)
}

fn shows(rt: &impl Abort, p: &[Element], q: &[Element]) -> Result<(), Fail> {
    assert!(rt; p.len() <= 12 && q.len() <= 12);
    let Some(cell) = share(p, q) else {
        return Err(Fail::new("apart"));
    };
    assert!(rt; has(p, &cell) && has(q, &cell));
    Ok(())
}

// A value and its copy.
fn twice<T: Copy>(value: T) -> (T, T)
    ensures { result ≡ (value, value) }
{
    (value, value)
}

#[test]
fn cells_regions_and_patterns_are_copied(rt: HostRuntime) -> Result<(), Fail> {
    let Some(cell) = share(&[STAR, A], &[B, STAR]) else {
        return Err(Fail::new("apart"));
    };
    let (one, other) = twice(cell);
    assert!(rt; one == other && rpl::same(&one, &[KEY_B, KEY_A]));
    let third = other.clone()?;
    assert!(rt; third == one);
    let mut region = Region::new();
    region.push(A);
    let (mut longer, shorter) = twice(region);
    longer.push(STAR);
    assert!(rt; longer.as_slice() == [A, STAR].as_slice());
    assert!(rt; shorter.as_slice() == [A].as_slice() && shorter.len() == 1);
    assert!(rt; longer != shorter && !longer.is_full());
    let (pattern, same) = twice(Pattern::new());
    assert!(rt; pattern == same);
    Ok(())
}

#[test]
fn a_region_is_the_first_of_some_elements(rt: HostRuntime) -> Result<(), Fail> {
    let mut elements = [STAR; 12];
    elements[1] = A;
    assert!(rt; Region::first_of(elements, 0).as_slice().is_empty());
    assert!(rt; Region::first_of(elements, 2).as_slice() == [STAR, A].as_slice());
    assert!(rt; Region::first_of(elements, 12).as_slice() == elements.as_slice());
    assert!(rt; Region::first_of(elements, 13) == Region::first_of(elements, 12));
    Ok(())
}

#[test]
fn worked_examples(rt: HostRuntime) -> Result<(), Fail> {
    apart(&rt, &[A, STAR, ONE], &[A, STAR, TWO]);
    assert!(rt; has(&[A, STAR], &[KEY_A]));
    apart(&rt, &[A, ANY], &[A, B]);
    apart(&rt, &[A, STAR, A], &[A]);
    meets(&rt, &[STAR, A], &[B, STAR])?;
    let Some(cell) = share(&[STAR, A], &[B, STAR]) else {
        return Err(Fail::new("apart"));
    };
    assert!(rt; rpl::same(&cell, &[KEY_B, KEY_A]));
    Ok(())
}

#[test]
fn empty_paths_and_stars(rt: HostRuntime) -> Result<(), Fail> {
    assert!(rt; has(&[], &[]));
    assert!(rt; !has(&[], &[KEY_A]));
    assert!(rt; has(&[STAR], &[]));
    assert!(rt; has(&[STAR, STAR], &[KEY_A, KEY_1]));
    assert!(rt; has(&[A, STAR, STAR, B], &[KEY_A, KEY_B]));
    assert!(rt; !has(&[A, STAR, STAR, B], &[KEY_A]));
    assert!(rt; within(&[STAR], &[STAR, STAR]));
    assert!(rt; within(&[STAR, STAR], &[STAR]));
    assert!(rt; within(&[], &[STAR]));
    assert!(rt; !within(&[STAR], &[]));
    meets(&rt, &[], &[STAR, STAR])?;
    apart(&rt, &[], &[STAR, A, STAR]);
    Ok(())
}

#[test]
fn membership(rt: HostRuntime) {
    assert!(rt; has(&[ANY], &[KEY_1]));
    assert!(rt; !has(&[ANY], &[KEY_A]));
    assert!(rt; !has(&[ONE], &[Key::Named(1)]));
    assert!(rt; has(&[STAR, A, STAR, B], &[KEY_A, KEY_1, KEY_A, KEY_B, KEY_B]));
    assert!(rt; !has(&[STAR, A, STAR, B], &[KEY_B, KEY_A]));
    assert!(rt; !has(&[A], &[KEY_A, KEY_B]));
}

#[test]
fn inclusion(rt: HostRuntime) {
    assert!(rt; within(&[ONE], &[ANY]));
    assert!(rt; !within(&[ANY], &[ONE]));
    assert!(rt; !within(&[STAR], &[ANY]));
    assert!(rt; !within(&[A, STAR], &[A, ANY]));
    assert!(rt; within(&[A, ANY, STAR, B], &[A, STAR, ANY, STAR, B]));
    assert!(rt; within(&[A, STAR, A], &[STAR, A]));
    assert!(rt; !within(&[STAR, A], &[A, STAR, A]));
}

#[test]
fn sharing(rt: HostRuntime) -> Result<(), Fail> {
    meets(&rt, &[STAR, A, B, STAR], &[STAR, B, ONE, STAR])?;
    meets(&rt, &[ANY, STAR], &[STAR, ONE])?;
    apart(&rt, &[ANY, STAR], &[A, STAR]);
    apart(&rt, &[STAR, ANY], &[STAR, A]);
    meets(&rt, &[STAR, A, STAR], &[B, ANY, STAR])?;
    apart(&rt, &[A, B], &[A, STAR, A, B]);
    Ok(())
}

#[test]
fn many_stars(rt: HostRuntime) -> Result<(), Fail> {
    let mut stars = [STAR; 12];
    stars[11] = A;
    let mut names = [A; 12];
    assert!(rt; within(&names, &stars));
    meets(&rt, &names, &stars)?;
    names[11] = B;
    assert!(rt; !within(&names, &stars));
    apart(&rt, &names, &stars);
    let mut cell = [KEY_A; 12];
    assert!(rt; has(&stars, &cell));
    cell[11] = KEY_B;
    assert!(rt; !has(&stars, &cell));
    Ok(())
}

#[test]
fn longest_shown(rt: HostRuntime) -> Result<(), Fail> {
    let mut front = [A; 12];
    front[11] = STAR;
    let mut back = [B; 12];
    back[0] = STAR;
    let Some(cell) = share(&front, &back) else {
        return Err(Fail::new("apart"));
    };
    assert!(rt; cell.len() == 22 && has(&front, &cell) && has(&back, &cell));
    Ok(())
}
