use sections::{Section, Sections};
use theory::Theory;

// A section of any numbers; a step or a count of 0 counts as 1.
// The benchmark has one too: a crate for a few lines would be no plainer.
fn section((first, step, count): (u32, u16, u16)) -> Section {
    Section {
        first,
        step: step.max(1),
        count: count.max(1),
    }
}

// A section as first, step and count, and a cell.
const MEMBERS: [((u32, u16, u16), u64, bool); 10] = [
    ((5, 1, 1), 5, true),
    ((5, 1, 1), 4, false),
    ((5, 1, 1), 6, false),
    ((5, 65535, 1), 5, true),
    ((5, 65535, 1), 65540, false),
    ((0, 3, 4), 9, true),
    ((0, 3, 4), 8, false),
    ((0, 3, 4), 12, false),
    ((81600, 65535, 65535), 4_294_852_290, true),
    ((81600, 65535, 65535), 4_294_917_825, false),
];

#[test]
fn members(rt: HostRuntime) {
    for (numbers, cell, yes) in MEMBERS {
        assert_eq!(rt; Sections::has(&section(numbers), &cell), yes);
    }
}

// Two sections; whether the first lies within the second; the cell that both share.
const PAIRS: [((u32, u16, u16), (u32, u16, u16), bool, Option<u64>); 18] = [
    ((0, 6, 10), (4, 10, 3), false, Some(24)),
    ((4, 10, 3), (0, 6, 10), false, Some(24)),
    ((0, 6, 4), (4, 10, 3), false, None),
    ((4, 12, 1), (0, 2, 3), true, Some(4)),
    ((0, 2, 3), (4, 12, 1), false, Some(4)),
    // the last cell is one too far
    ((0, 2, 4), (0, 2, 3), false, Some(0)),
    ((0, 4, 2), (0, 2, 3), true, Some(0)),
    // both ends lie within, and the cell between does not
    ((0, 3, 3), (0, 6, 2), false, Some(0)),
    ((0, 3, 3), (0, 2, 4), false, Some(0)),
    // the first ends just before, and just at, the shared cell
    ((0, 5, 4), (20, 1, 9), false, None),
    ((0, 5, 5), (20, 1, 9), false, Some(20)),
    ((20, 1, 9), (0, 5, 4), false, None),
    // even and odd
    ((0, 2, 65535), (1, 2, 65535), false, None),
    ((7, 7, 1), (7, 7, 1), true, Some(7)),
    (
        (65535, 65535, 65535),
        (65535, 65535, 65535),
        true,
        Some(65535),
    ),
    // first + 65535 t and first + 65534 u meet after as many turns as the firsts are apart
    ((0, 65535, 65535), (5, 65534, 65535), false, Some(327675)),
    ((0, 65535, 5), (5, 65534, 65535), false, None),
    ((0, 65535, 65535), (5, 65534, 5), false, None),
];

#[test]
fn pairs(rt: HostRuntime) {
    for (one, other, inside, shared) in PAIRS {
        let a = section(one);
        let b = section(other);
        assert_eq!(rt; Sections::within(&a, &b), inside);
        assert_eq!(rt; Sections::share(&a, &b), shared);
        assert_eq!(rt; Sections::share(&b, &a), shared);
    }
}
