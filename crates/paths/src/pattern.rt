use rpl::{Blank, Element, ShortList};

/// An index that is filled in: scale × the index of its hole + offset.
#[derive(Clone, Copy, Debug, PartialEq, Eq)]
pub struct FilledIndex {
    pub hole: u8,
    pub scale: u8,
    pub offset: u16,
}

/// An element of a pattern.
#[derive(Clone, Copy, Debug, PartialEq, Eq)]
pub enum Piece {
    /// The same in every filling.
    Fixed(Element),
    /// An index that hangs on the filling.
    Filled(FilledIndex),
}

/// What stands in the places of a pattern that hold no element yet.
impl Default for Piece {
    ghost use Rattle.std.specs.Prelude.{◌≡◌};
    ghost use Rattle.rpl.specs.declared.element.Element.TheVariants.{Star};
    ghost use Rattle.paths.specs.declared.pattern.Piece.TheVariants.{Fixed};

    ghost is_default = { λ piece. piece ≡ Fixed Star };

    fn default() -> Piece {
        Piece::Fixed(Element::default())
    }
}

impl Blank for Piece {
    ghost use Rattle.rpl.specs.declared.element.Element.TheVariants.{Star};
    ghost use Rattle.paths.specs.declared.pattern.Piece.TheVariants.{Fixed};

    ghost blank = { Fixed Star };

    fn blank() -> Piece {
        Piece::default()
    }
}

/// A path with holes, of at most 12 elements.
pub type Pattern = ShortList<Piece, 12>;
