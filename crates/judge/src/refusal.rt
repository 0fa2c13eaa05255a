use crate::theories::UnknownTheory;
use recipe::Fault;
use std::error::Error;
use std::fmt;
use theory::{Layer, Told};

/// Why an input is refused.
#[derive(Clone, Copy, Debug, PartialEq, Eq)]
pub enum Refusal {
    /// The theory byte is missing, or not 1 to 4.
    UnknownTheory,
    /// The file is no recipe of the theory.
    Unread(Fault),
}

/// What the refusal tells.
impl From<Refusal> for Told {
    ghost use Rattle.std.specs.Prelude.{◌≡◌};
    ghost use Rattle.judge.specs.Refusals.{refusal_told};

    ghost from_gives = { λ refusal told. told ≡ refusal_told refusal };

    fn from(refusal: Refusal) -> Told {
        // The only place of number 20: elsewhere a refusal is a variant, and a number is for printing.
        match refusal {
            Refusal::UnknownTheory => Told {
                number: 20,
                layer: Layer::Machine,
                place: 0,
                strand: 0,
            },
            Refusal::Unread(fault) => fault.into(),
        }
    }
}

impl From<UnknownTheory> for Refusal {
    ghost use Rattle.std.specs.Prelude.{◌≡◌};
    ghost use Rattle.judge.specs.declared.refusal.Refusal.TheVariants.{UnknownTheory as Unknown};

    ghost from_gives = { λ _ refusal. refusal ≡ Unknown };

    fn from(_: UnknownTheory) -> Refusal {
        Self::UnknownTheory
    }
}

impl From<Fault> for Refusal {
    ghost use Rattle.std.specs.Prelude.{◌≡◌};
    ghost use Rattle.judge.specs.declared.refusal.Refusal.TheVariants.{Unread};

    ghost from_gives = { λ fault refusal. refusal ≡ Unread fault };

    fn from(fault: Fault) -> Refusal {
        Self::Unread(fault)
    }
}

/// The printed line.
impl fmt::Display for Refusal {
    ghost use Rattle.std.specs.Prelude.{Some};
    ghost use Rattle.judge.specs.Refusals.{refusal_line};

    ghost output = { λ r. Some (refusal_line r) };

    fn fmt<W: fmt::Write>(&self, f: &mut fmt::Formatter<W>) -> fmt::Result {
        let told = Told::from(*self);
        write!(f, "{told}")
    }
}

impl Error for Refusal {}
