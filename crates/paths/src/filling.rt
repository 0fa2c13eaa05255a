ghost use Rattle.std.specs.Prelude.{◌≡◌};
ghost use Rattle.paths.specs.Filling.{path_filled, piece_filled};

use crate::pattern::{Pattern, Piece};
use crate::region::Region;
use rpl::{Element, Part};
use theory::{Indices, index_of};

// The element of a path that the piece gives.
fn filled_piece(piece: &Piece, indices: &Indices) -> Element
    ensures { result ≡ piece_filled indices.now piece.now }
{
    match piece {
        Piece::Fixed(element) => *element,
        Piece::Filled(filled) => {
            let index = index_of(indices, filled.hole);
            Element::One(Part::Index(filled.scale as u32 * index as u32 + filled.offset as u32))
        }
    }
}

// The region of the pattern at these indices.
pub(crate) fn filled(pattern: &Pattern, indices: &Indices) -> Region
    ensures { result ≡ path_filled pattern.now indices.now }
{
    let mut region = Region::new();
    for piece in pattern.as_slice() {
        region.push(filled_piece(piece, indices));
    }
    region
}
