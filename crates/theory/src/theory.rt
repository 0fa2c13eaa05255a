ghost use Rattle.std.specs.Prelude.{◌≡◌};
ghost use Rattle.theory.specs.Meaning.{Kept, Meaning, pointed};

use crate::fault::PatternFault;
use crate::indices::Indices;

/// A region theory. `meaning` says what bytes read as, what a filling gives and which cells a region
/// has; `kept` proves that the answers are exact for that meaning.
pub trait Theory {
    type Pattern: Drop;

    type Region: Drop;

    type Cell: Drop;

    ghost meaning: { Meaning Self.Pattern Self.Region Self.Cell };

    /// The pattern at a place of the file and its end, or the first fault in it. `depth` is the number
    /// of enclosing foreach.
    // The three stay apart, since a product reads its right side in the same file at another place.
    fn read(file: &[u8], place: usize, depth: u8) -> Result<(Self::Pattern, usize), PatternFault>
        ensures { result ≡ meaning.reads file.now place depth };

    /// The region of the pattern at these indices.
    fn fill(pattern: &Self::Pattern, indices: &Indices) -> Self::Region
        ensures { result ≡ meaning.filled pattern.now indices.now };

    /// Whether two cells are the same.
    // Not `PartialEq`: the meaning says which values stand for the same cell.
    fn same(a: &Self::Cell, b: &Self::Cell) -> bool
        ensures { result ≡ meaning.same (meaning.point a.now) (meaning.point b.now) };

    /// Whether each filling of the pattern has just one cell.
    fn single(pattern: &Self::Pattern) -> bool
        ensures { result ≡ meaning.single pattern.now };

    /// The cell of a single pattern at these indices.
    fn only(pattern: &Self::Pattern, indices: &Indices) -> Self::Cell
        ensures { meaning.point result ≡ meaning.only pattern.now indices.now };

    /// Whether the cell is in the region.
    fn has(region: &Self::Region, cell: &Self::Cell) -> bool
        ensures { result ≡ meaning.has region.now (meaning.point cell.now) };

    /// Whether every cell of `a` is in `b`.
    fn within(a: &Self::Region, b: &Self::Region) -> bool
        ensures { result ≡ meaning.within a.now b.now };

    /// A cell in both regions, or none where there is none.
    fn share(a: &Self::Region, b: &Self::Region) -> Option<Self::Cell>
        ensures { pointed meaning result ≡ meaning.shown a.now b.now };

    ghost kept: { Kept meaning };
}
