ghost use Rattle.std.specs.Prelude.{Some};
ghost use Rattle.judge.specs.Judged.{line};

use crate::judgement::Judgement;
use crate::refusal::Refusal;
use std::fmt;

/// What is said of an input, refused or read, as it is printed.
#[derive(Clone, Copy, Debug, PartialEq, Eq)]
pub struct Line(pub Result<Judgement, Refusal>);

/// The printed line.
impl fmt::Display for Line {
    ghost output = { λ l. Some (line l.0) };

    fn fmt<W: fmt::Write>(&self, f: &mut fmt::Formatter<W>) -> fmt::Result {
        match self.0 {
            Ok(judgement) => write!(f, "{judgement}"),
            Err(refusal) => write!(f, "{refusal}"),
        }
    }
}
