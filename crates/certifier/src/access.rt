ghost use Rattle.std.specs.Prelude.{◌≡◌, map, is_some, IfOk};
ghost use Rattle.recipe.specs.Cells.{position};
ghost use Rattle.recipe.specs.Listed.{listed};
ghost use Rattle.recipe.specs.Numbers.{numbers};
ghost use Rattle.certifier.specs.Faults.{access_faults};
ghost use Rattle.certifier.specs.Lists.{first};
ghost use Rattle.certifier.specs.Refusals.{refused};

use crate::effect::{Effect, access_is_covered};
use crate::refusal::{Location, Refusal};
use recipe::{Mode, Recipe, read_cell};
use std::alloc::{AllocError, Global};
use theory::Theory;

// The cells that a recipe lists, in order.
pub(crate) fn read_listed<T: Theory>(
    recipe: &Recipe<'_>,
    heap: Global,
) -> Result<Vec<T::Cell>, AllocError>
    ensures { IfOk result (λ v. map T.Theory.meaning.point v.items ≡ listed T.Theory.meaning recipe.now.file.now (numbers recipe.now).cells 0) }
{
    let file = recipe.file();
    let mut cells = Vec::new(heap);
    let mut at = 0;
    for _ in 0..recipe.cells() {
        let Ok((cell, end)) = read_cell::<T>(file, at) else {
            return Ok(cells);
        };
        cells.push(cell)?;
        at = end;
    }
    Ok(cells)
}

// Whether a cell is among those listed.
fn is_listed<T: Theory>(cells: &[T::Cell], cell: &T::Cell) -> bool
    ensures { result ≡ is_some (position T.Theory.meaning (T.Theory.meaning.point cell.now) (map T.Theory.meaning.point cells.now)) }
{
    cells.iter().any(|other| T::same(cell, other))
}

// The first fault of an access of this mode to the cell: it must be listed, and covered.
pub(crate) fn access_fault<T: Theory>(
    cells: &[T::Cell],
    own: &[Effect<T::Region>],
    mode: Mode,
    here: Location,
    cell: &T::Cell,
) -> Option<Refusal<T::Cell>>
    ensures { refused T.Theory.meaning result ≡ first (access_faults T.Theory.meaning (map T.Theory.meaning.point cells.now) own.now mode here (T.Theory.meaning.point cell.now)) }
{
    if !is_listed::<T>(cells, cell) {
        return Some(Refusal::Unlisted(here));
    }
    if !access_is_covered::<T>(own, mode, cell) {
        return Some(Refusal::Uncovered(here));
    }
    None
}
