ghost use Rattle.std.specs.Prelude.{◌≡◌, ◌≤◌, [], length, IfOk};
ghost use Rattle.recipe.specs.Cells.{cell_at, cells, position};
ghost use Rattle.recipe.specs.Extents.{EndsBehind};
ghost use Rattle.recipe.specs.Listed.{counted, listed, pointed_at};
ghost use Rattle.recipe.specs.Records.{mapped};

use crate::fault::Fault;
use crate::head::{Spot, begins};
use crate::read::read_record;
use crate::site::Site;
use theory::{Flaw, NO_INDICES, Theory};

const MOST_CELLS: u8 = 128;

/// The cell of the Cell at a place, and its end.
#[tactic(auto, unfolding(crate::specs::Cells::cell_at))]
pub fn read_cell<T: Theory>(file: &[u8], place: usize) -> Result<(T::Cell, usize), Fault>
    ensures is { pointed_at T.Theory.meaning result ≡ cell_at T.Theory.meaning file.now place }
    ensures whole { IfOk result (λ x. EndsBehind file.now place x.1) }
{
    let site = Site {
        place,
        forks: 0,
        depth: 0,
    };
    let (entry, end) = read_record::<T>(file, Spot::Cells, site)?;
    let Some(pattern) = entry.cell_pattern() else {
        return Err(Fault::Record(Flaw::Kind, place));
    };
    // No foreach encloses a Cell.
    Ok((T::only(pattern, &NO_INDICES), end))
}

/// Where a cell stands among the first so many cells of a file, counted from 0.
#[tactic(auto, using(crate::proofs::CellLaws::cell_found))]
pub(crate) fn find_cell<T: Theory>(file: &[u8], count: u8, cell: &T::Cell) -> Option<u8>
    ensures { result ≡ position T.Theory.meaning (T.Theory.meaning.point cell.now) (listed T.Theory.meaning file.now count 0) }
{
    let mut at = 0;
    // The loop's number is the answer.
    for k in 0..count {
        let (other, end) = read_cell::<T>(file, at).ok()?;
        if T::same(cell, &other) {
            return Some(k);
        }
        at = end;
    }
    None
}

// How many cells the file lists, and where their list ends.
#[tactic(auto, using(crate::proofs::CellLaws::cells_read))]
pub(crate) fn read_cells<T: Theory>(file: &[u8]) -> Result<(u8, usize), Fault>
    ensures is { result ≡ mapped (counted T.Theory.meaning) (cells T.Theory.meaning file.now 128 [] 0) }
    ensures whole { IfOk result (λ x. x.1 ≤ length file.now) }
{
    let mut at = 0;
    // The loop's number is the count of those before.
    for count in 0..MOST_CELLS {
        if !begins(file, Spot::Cells, at) {
            return Ok((count, at));
        }
        let (cell, end) = read_cell::<T>(file, at)?;
        if find_cell::<T>(file, count, &cell).is_some() {
            return Err(Fault::Repeated(at));
        }
        at = end;
    }
    if begins(file, Spot::Cells, at) {
        return Err(Fault::Record(Flaw::TooMany, at));
    }
    Ok((MOST_CELLS, at))
}
