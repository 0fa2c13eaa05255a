ghost use Rattle.paths.specs.PathsMeaning.{paths_meaning};
ghost use Rattle.paths.specs.PathsKept.{paths_kept};

use crate::filling::filled;
use crate::pattern::Pattern;
use crate::reading::read_pattern;
use crate::region::Region;
use rpl::Cell;
use theory::{Indices, NO_INDICES, PatternFault, Theory};

/// The theory of paths. A cell is a list of names and indices, a region a path that stands for cells.
pub struct Paths;

impl Theory for Paths {
    type Pattern = Pattern;

    type Region = Region;

    type Cell = Cell;

    ghost meaning = { paths_meaning };

    ghost kept = { paths_kept };

    fn read(file: &[u8], place: usize, depth: u8) -> Result<(Pattern, usize), PatternFault> {
        read_pattern(file, place, depth)
    }

    fn fill(pattern: &Pattern, indices: &Indices) -> Region {
        filled(pattern, indices)
    }

    fn same(a: &Cell, b: &Cell) -> bool {
        rpl::same(a, b)
    }

    // Whether a pattern is single does not hang on the indices.
    fn single(pattern: &Pattern) -> bool {
        rpl::single(&filled(pattern, &NO_INDICES))
    }

    fn only(pattern: &Pattern, indices: &Indices) -> Cell {
        rpl::only(&filled(pattern, indices))
    }

    fn has(region: &Region, cell: &Cell) -> bool {
        rpl::has(region, cell)
    }

    fn within(a: &Region, b: &Region) -> bool {
        rpl::within(a, b)
    }

    fn share(a: &Region, b: &Region) -> Option<Cell> {
        rpl::share(a, b)
    }
}
