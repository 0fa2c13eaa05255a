ghost use Rattle.std.specs.Prelude.{◌≡◌, Some};
ghost use Rattle.theory.specs.Line.{told_line};

use std::fmt;

/// Who tells a fault.
#[derive(Clone, Copy, Debug, PartialEq, Eq)]
pub enum Layer {
    /// A theory, inside a pattern.
    Theory = 1,
    Reader = 2,
    Certifier = 3,
    /// The machine, and the program around it.
    Machine = 4,
}

/// What a fault tells: which refusal it is, who tells it, the place of the record at fault and the
/// strand at fault. Place and strand are 0 where there is none.
// No kinds and no Options: each of these is printed as a number, a missing one as 0.
#[derive(Clone, Copy, Debug, PartialEq, Eq)]
pub struct Told {
    pub number: u8,
    pub layer: Layer,
    pub place: usize,
    pub strand: usize,
}

/// The printed line, `refused 4 at 12 strand 0`.
impl fmt::Display for Told {
    ghost output = { λ t. Some (told_line t) };

    fn fmt<W: fmt::Write>(&self, f: &mut fmt::Formatter<W>) -> fmt::Result {
        let Told {
            number,
            place,
            strand,
            ..
        } = self;
        write!(f, "refused {number} at {place} strand {strand}")
    }
}
