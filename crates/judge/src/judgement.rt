ghost use Rattle.std.specs.Prelude.{Some};
ghost use Rattle.judge.specs.Judged.{judgement_line};

use std::fmt;

/// What is said of an input that reads: how many cells and strands its recipe has.
#[derive(Clone, Copy, Debug, PartialEq, Eq)]
pub struct Judgement {
    pub cells: u8,
    pub strands: u16,
}

/// The printed line.
impl fmt::Display for Judgement {
    ghost output = { λ j. Some (judgement_line j) };

    fn fmt<W: fmt::Write>(&self, f: &mut fmt::Formatter<W>) -> fmt::Result {
        let Judgement { cells, strands } = self;
        write!(
            f,
            "read: {cells} cells, {strands} strands; certifying is not built yet"
        )
    }
}
