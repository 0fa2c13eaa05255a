use sections::{Hole, SectionPattern, Sections};
use theory::Theory;

// Number and scale of the hole, if there is one, and the offset; the three indices; the first cell.
const FILLINGS: [(Option<(u8, u8)>, u16, [u8; 3], u32); 9] = [
    (None, 0, [0, 0, 0], 0),
    (None, 65535, [63, 63, 63], 65535),
    (Some((1, 1)), 0, [5, 6, 7], 5),
    (Some((2, 1)), 0, [5, 6, 7], 6),
    (Some((3, 1)), 0, [5, 6, 7], 7),
    (Some((1, 10)), 3, [0, 63, 63], 3),
    (Some((2, 255)), 65535, [0, 63, 0], 81600),
    (Some((3, 255)), 65535, [63, 63, 0], 65535),
    (Some((3, 0)), 9, [63, 63, 63], 9),
];

#[test]
fn the_first_cell_moves_with_the_index_of_its_hole(rt: HostRuntime) {
    for (hole, offset, indices, first) in FILLINGS {
        let pattern = SectionPattern {
            hole: hole.map(|(number, scale)| Hole { number, scale }),
            offset,
            step: 65535,
            count: 1,
        };
        let region = Sections::fill(&pattern, &indices);
        assert_eq!(rt;
            (region.first, region.step, region.count),
            (first, 65535, 1)
        );
        assert!(rt; Sections::single(&pattern));
        assert_eq!(rt; Sections::only(&pattern, &indices), first as u64);
    }
}

#[test]
fn the_last_cell_is_the_largest(rt: HostRuntime) {
    let pattern = SectionPattern {
        hole: Some(Hole {
            number: 1,
            scale: 255,
        }),
        offset: 65535,
        step: 65535,
        count: 65535,
    };
    let region = Sections::fill(&pattern, &[63, 0, 0]);
    assert!(rt; !Sections::single(&pattern));
    assert!(rt; Sections::has(&region, &4_294_852_290));
    assert!(rt; !Sections::has(&region, &(4_294_852_290 + 65535)));
    assert!(rt; !Sections::has(&region, &(4_294_852_290 - 1)));
}
