use recipe::{Fork, Site};
use sections::Sections;
use strands::child;

// A Cobegin; its first branch has a Foreach of count 3, its second no fork: sizes 4 and 1.
const BRANCHES: &[u8] = &[0x30, 2, 0x31, 3, 0x3F, 0x3F, 0x3F, 0x3F];

// Foreach of 2, of 3 and of 4 instances, nested. Sizes from the innermost out: 1, 1 + 4 = 5, 1 + 3 × 5 = 16.
const NESTED: &[u8] = &[0x31, 2, 0x31, 3, 0x31, 4, 0x3F, 0x3F, 0x3F, 0x3F];

// A file, a fork in it, and the site of its first block as place, forks and depth; the number of the
// first child, which child is asked for, and its number.
const CHILDREN: [(&[u8], Fork, (usize, u8, u8), u16, u8, Option<u16>); 25] = [
    (BRANCHES, Fork::Cobegin(2), (2, 5, 0), 1, 0, Some(1)),
    (BRANCHES, Fork::Cobegin(2), (2, 5, 0), 1, 1, Some(5)),
    (BRANCHES, Fork::Cobegin(2), (2, 5, 0), 1, 2, None),
    (BRANCHES, Fork::Cobegin(2), (2, 5, 0), 1, 255, None),
    (BRANCHES, Fork::Foreach(3), (4, 4, 1), 2, 0, Some(2)),
    (BRANCHES, Fork::Foreach(3), (4, 4, 1), 2, 2, Some(4)),
    (BRANCHES, Fork::Foreach(3), (4, 4, 1), 2, 3, None),
    // instances are a block's size apart
    (NESTED, Fork::Foreach(2), (2, 5, 1), 1, 0, Some(1)),
    (NESTED, Fork::Foreach(2), (2, 5, 1), 1, 1, Some(17)),
    (NESTED, Fork::Foreach(2), (2, 5, 1), 1, 2, None),
    (NESTED, Fork::Foreach(3), (4, 4, 2), 18, 1, Some(23)),
    (NESTED, Fork::Foreach(3), (4, 4, 2), 18, 2, Some(28)),
    // sums are counted up to 1,025
    (BRANCHES, Fork::Cobegin(2), (2, 5, 0), 1020, 1, Some(1024)),
    (BRANCHES, Fork::Cobegin(2), (2, 5, 0), 1021, 1, Some(1025)),
    (BRANCHES, Fork::Cobegin(2), (2, 5, 0), 1022, 1, Some(1025)),
    (NESTED, Fork::Foreach(64), (2, 5, 1), 1008, 1, Some(1024)),
    (NESTED, Fork::Foreach(64), (2, 5, 1), 1009, 1, Some(1025)),
    (NESTED, Fork::Foreach(64), (2, 5, 1), 1, 63, Some(1009)),
    (NESTED, Fork::Foreach(64), (2, 5, 1), 17, 63, Some(1025)),
    (NESTED, Fork::Foreach(64), (2, 5, 1), 18, 63, Some(1025)),
    // a block that does not read: the file has ended, a fork or a foreach too many
    (BRANCHES, Fork::Cobegin(2), (8, 5, 0), 1, 1, None),
    (BRANCHES, Fork::Foreach(3), (8, 4, 1), 2, 0, None),
    (BRANCHES, Fork::Cobegin(2), (2, 0, 0), 1, 1, None),
    (NESTED, Fork::Foreach(2), (2, 5, 2), 1, 1, None),
    // the first branch is the first child, whatever stands there
    (BRANCHES, Fork::Cobegin(2), (8, 5, 0), 1, 0, Some(1)),
];

#[test]
fn children_of_a_fork_are_numbered_in_order(rt: HostRuntime) {
    for (file, fork, (place, forks, depth), first, nth, number) in CHILDREN {
        let site = Site {
            place,
            forks,
            depth,
        };
        assert_eq!(rt; child::<Sections>(file, fork, site, first, nth), number);
    }
}
