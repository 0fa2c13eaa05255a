ghost use Rattle.std.specs.Prelude.{◌≡◌, IfOk};
ghost use Rattle.recipe.specs.Cells.{position};
ghost use Rattle.recipe.specs.Listed.{listed};
ghost use Rattle.recipe.specs.Numbers.{numbered, numbers};
ghost use Rattle.recipe.specs.Records.{mapped};
ghost use Rattle.recipe.specs.Recipes.{recipe_of};

use crate::blocks::read_block;
use crate::cells::{find_cell, read_cells};
use crate::fault::Fault;
use crate::site::Site;
use theory::Theory;

/// How many bytes a file may have.
pub const LONGEST_FILE: usize = 16_384;

/// How many forks may be nested.
pub const MOST_FORKS: u8 = 6;

/// How many strands a recipe may have.
pub const MOST_STRANDS: u16 = 1024;

/// A recipe that was read: its file, and how many cells and strands it has.
#[derive(Clone, Copy)]
pub struct Recipe<'a> {
    file: &'a [u8],
    cells: u8,
    root: usize,
    strands: u16,
}

impl<'a> Recipe<'a> {
    /// Reads a file as a recipe of the theory, or tells the first fault.
    #[tactic(auto, unfolding(crate::specs::Recipes::recipe_of))]
    pub fn read<T: Theory>(file: &'a [u8]) -> Result<Recipe<'a>, Fault>
        ensures is { mapped numbers result ≡ mapped numbered (recipe_of T.Theory.meaning file.now) }
        ensures same { IfOk result (λ x. x.file.now ≡ file.now) }
    {
        if file.len() > LONGEST_FILE {
            return Err(Fault::TooLong);
        }
        let (cells, root) = read_cells::<T>(file)?;
        let site = Site {
            place: root,
            forks: MOST_FORKS,
            depth: 0,
        };
        let extent = read_block::<T>(file, site)?;
        if extent.end != file.len() {
            return Err(Fault::Spare(extent.end));
        }
        if extent.strands > MOST_STRANDS {
            return Err(Fault::TooManyStrands);
        }
        Ok(Recipe {
            file,
            cells,
            root,
            strands: extent.strands,
        })
    }

    /// The file.
    pub fn file(&self) -> &'a [u8]
        ensures { result.now ≡ self.now.file.now }
    {
        self.file
    }

    /// How many cells it lists.
    pub fn cells(&self) -> u8
        ensures { result ≡ (numbers self.now).cells }
    {
        self.cells
    }

    /// How many strands it has.
    pub fn strands(&self) -> u16
        ensures { result ≡ (numbers self.now).strands }
    {
        self.strands
    }

    /// The place of the root block.
    pub fn root(&self) -> usize
        ensures { result ≡ (numbers self.now).from }
    {
        self.root
    }

    /// Where a cell stands in the list of cells, counted from 0.
    pub fn position<T: Theory>(&self, cell: &T::Cell) -> Option<u8>
        ensures { result ≡ position T.Theory.meaning (T.Theory.meaning.point cell.now) (listed T.Theory.meaning self.now.file.now (numbers self.now).cells 0) }
    {
        find_cell::<T>(self.file, self.cells, cell)
    }
}
