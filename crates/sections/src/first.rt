ghost use Rattle.std.specs.Prelude.{◌≡◌};
ghost use Rattle.sections.specs.SectionMeaning.{first_cell};

use crate::pattern::SectionPattern;
use theory::{Indices, index_of};

impl SectionPattern {
    // The first cell at these indices.
    pub(crate) fn first(&self, indices: &Indices) -> u32
        ensures { result ≡ first_cell self.now indices.now }
    {
        let offset = self.offset as u32;
        match self.hole {
            None => offset,
            Some(hole) => offset + hole.scale as u32 * index_of(indices, hole.number) as u32,
        }
    }
}
