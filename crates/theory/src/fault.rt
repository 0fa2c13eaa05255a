ghost use Rattle.std.specs.Prelude.{◌≡◌};
ghost use Rattle.theory.specs.Reading.{flawed};

use crate::told::{Layer, Told};

/// What is wrong with a record of a pattern.
#[derive(Clone, Copy, Debug, PartialEq, Eq)]
pub enum Flaw {
    /// The kind byte or the body runs past the end of the file.
    Cut,
    /// The kind is not allowed there.
    Kind,
    /// A number of the body is outside its limits.
    Limit,
    /// One element too many.
    TooMany,
}

impl Flaw {
    /// The fault with this flaw in the record at a place.
    pub fn at(self, place: usize) -> PatternFault
        ensures { result ≡ flawed self place }
    {
        PatternFault { flaw: self, place }
    }
}

/// The number under which a fault of this sort is told.
impl From<Flaw> for u8 {
    ghost use Rattle.std.specs.Prelude.{◌≡◌};
    ghost use Rattle.theory.specs.Fault.{flaw_number};

    ghost from_gives = { λ flaw number. number ≡ flaw_number flaw };

    fn from(flaw: Flaw) -> u8 {
        // The only place of these numbers: elsewhere a flaw is a variant, and a number is for printing.
        match flaw {
            Flaw::Cut => 2,
            Flaw::Kind => 3,
            Flaw::Limit => 4,
            Flaw::TooMany => 5,
        }
    }
}

/// A fault inside a pattern: what is wrong, and the place of the record.
#[derive(Clone, Copy, Debug, PartialEq, Eq)]
pub struct PatternFault {
    pub flaw: Flaw,
    pub place: usize,
}

/// What the fault tells.
impl From<PatternFault> for Told {
    ghost use Rattle.std.specs.Prelude.{◌≡◌};
    ghost use Rattle.theory.specs.Fault.{pattern_told};

    ghost from_gives = { λ fault told. told ≡ pattern_told fault };

    fn from(fault: PatternFault) -> Told {
        Told {
            number: fault.flaw.into(),
            layer: Layer::Theory,
            place: fault.place,
            strand: 0,
        }
    }
}
