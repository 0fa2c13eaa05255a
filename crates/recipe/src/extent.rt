ghost use Rattle.std.specs.Prelude.{◌≡◌};
ghost use Rattle.recipe.specs.Extents.{capped, one_after, repeated};

use crate::recipe::MOST_STRANDS;

/// Where a part of a file ends, and how many strands it has, counted up to one more than the 1,024 that
/// a recipe may have.
#[derive(Clone, Copy, Debug, PartialEq, Eq)]
pub struct Extent {
    pub end: usize,
    pub strands: u16,
}

/// A number of strands, counted up to 1,025.
pub fn counted(strands: u32) -> u16
    ensures { result ≡ capped strands }
{
    strands.min(MOST_STRANDS as u32 + 1) as u16
}

impl Extent {
    // This part and the next, which begins where this one ends.
    pub(crate) fn then(self, next: Extent) -> Extent
        ensures { result ≡ one_after self next }
    {
        Extent {
            end: next.end,
            strands: counted(self.strands as u32 + next.strands as u32),
        }
    }

    // The part with its strands so many times.
    pub(crate) fn times(self, count: u8) -> Extent
        ensures { result ≡ repeated count self }
    {
        Extent {
            end: self.end,
            strands: counted(count as u32 * self.strands as u32),
        }
    }
}
