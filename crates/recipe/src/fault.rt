ghost use Rattle.std.specs.Prelude.{◌≡◌};
ghost use Rattle.recipe.specs.Fault.{reader_told};

use theory::{Flaw, Layer, PatternFault, Told};

/// Why a file is no recipe.
#[derive(Clone, Copy, Debug, PartialEq, Eq)]
pub enum Fault {
    /// The file is longer than 16,384 bytes.
    TooLong,
    /// A record outside patterns is at fault.
    Record(Flaw, usize),
    /// A record inside a pattern is at fault.
    Pattern(PatternFault),
    /// The pattern of a Cell, Load or Store at this place is not single.
    NotSingle(usize),
    /// The Cell at this place names a cell that was listed before.
    Repeated(usize),
    /// Bytes follow the End of the root.
    Spare(usize),
    /// There are more than 1,024 strands.
    TooManyStrands,
}

// What the reader tells: a constructor, since two values are no conversion.
fn reader_told(number: u8, place: usize) -> Told
    ensures { result ≡ reader_told number place }
{
    Told {
        number,
        layer: Layer::Reader,
        place,
        strand: 0,
    }
}

/// A fault inside a pattern.
impl From<PatternFault> for Fault {
    ghost use Rattle.std.specs.Prelude.{◌≡◌};
    ghost use Rattle.recipe.specs.declared.fault.Fault.TheVariants.{Pattern};

    ghost from_gives = { λ flawed fault. fault ≡ Pattern flawed };

    fn from(flawed: PatternFault) -> Fault {
        Fault::Pattern(flawed)
    }
}

/// What a fault tells.
impl From<Fault> for Told {
    ghost use Rattle.std.specs.Prelude.{◌≡◌};
    ghost use Rattle.recipe.specs.Fault.{fault_told};

    ghost from_gives = { λ fault told. told ≡ fault_told fault };

    fn from(fault: Fault) -> Told {
        // The only place of these numbers: elsewhere a fault is a variant, and a number is for printing.
        match fault {
            Fault::TooLong => reader_told(1, 0),
            Fault::Record(flaw, place) => reader_told(flaw.into(), place),
            Fault::Pattern(fault) => fault.into(),
            Fault::NotSingle(place) => reader_told(6, place),
            Fault::Repeated(place) => reader_told(7, place),
            Fault::Spare(place) => reader_told(8, place),
            Fault::TooManyStrands => reader_told(9, 0),
        }
    }
}
