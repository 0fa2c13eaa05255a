ghost use Rattle.std.specs.Prelude.{◌≡◌};
ghost use Rattle.strands.specs.ChildAt.{branch_at, child_at};
ghost use Rattle.strands.specs.ChildFound.{ChildFound};

use recipe::{Fork, Site, counted, read_block};
use theory::Theory;

// The number of the block after so many others, of which the first stands at the site and has this
// number.
fn branch<T: Theory>(file: &[u8], site: Site, first: u16, nth: u8) -> Option<u16>
    ensures { result ≡ branch_at T.Theory.meaning file.now site nth first site.place }
{
    let mut at = site.place;
    let mut number = first;
    for _ in 0..nth {
        let extent = read_block::<T>(file, Site { place: at, ..site }).ok()?;
        number = counted(number as u32 + extent.strands as u32);
        at = extent.end;
    }
    Some(number)
}

/// The number of a child of a fork, counted from 0, whose first block stands at the site and whose
/// first child has this number; none where it has no such child. Each sum on the way is counted up to
/// 1,025. Where the fork's blocks lie in the file, and the number behind all the fork's strands is at
/// most 1,024, it is the child's in the list of the fork's children.
pub fn child<T: Theory>(file: &[u8], fork: Fork, site: Site, first: u16, nth: u8) -> Option<u16>
    ensures is { result ≡ child_at T.Theory.meaning file.now site first nth fork }
    ensures among { ChildFound T.Theory.meaning file.now fork site first nth result }
{
    match fork {
        Fork::Cobegin(count) if nth < count => branch::<T>(file, site, first, nth),
        Fork::Foreach(count) if nth < count => {
            let extent = read_block::<T>(file, site).ok()?;
            Some(counted(first as u32 + nth as u32 * extent.strands as u32))
        }
        _ => None,
    }
}
