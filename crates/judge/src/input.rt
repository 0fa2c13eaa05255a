ghost use Rattle.std.specs.Prelude.{◌≡◌};
ghost use Rattle.judge.specs.Enough.{Enough};
ghost use Rattle.judge.specs.Judged.{judged, judged_named, read_by};

use crate::judgement::Judgement;
use crate::refusal::Refusal;
use crate::theories::TheoryName;
use paths::Paths;
use recipe::{LONGEST_FILE, Recipe};
use sections::Sections;
use theory::{Product, Theory};

/// No more bytes of an input need to be read than these: a theory byte, the longest file, and one
/// byte by which a longer file shows.
pub const LONGEST_INPUT: u64 = LONGEST_FILE as u64 + 2;

/// Of an input from which no more bytes are read, the same is said as of the whole.
pub fn longest_input_is_enough()
    ensures { Enough LONGEST_INPUT }
{}

// Judges a file under a theory.
fn judge_by<T: Theory>(file: &[u8]) -> Result<Judgement, Refusal>
    ensures { result ≡ read_by T.Theory.meaning file.now }
{
    let recipe = Recipe::read::<T>(file)?;
    Ok(Judgement {
        cells: recipe.cells(),
        strands: recipe.strands(),
    })
}

// Judges a file under the theory of that name.
// Each theory is a type, which no value can hold, so the name picks it here.
#[tactic(auto, unfolding(crate::specs::Judged::judged_named))]
fn judge_named(name: TheoryName, file: &[u8]) -> Result<Judgement, Refusal>
    ensures { result ≡ judged_named name file.now }
{
    match name {
        TheoryName::Paths => judge_by::<Paths>(file),
        TheoryName::Sections => judge_by::<Sections>(file),
        TheoryName::PathsSections => judge_by::<Product<Paths, Sections>>(file),
        TheoryName::SectionsSections => judge_by::<Product<Sections, Sections>>(file),
    }
}

/// Judges an input: a theory byte, then a file. A missing theory byte counts as 0.
pub fn judge(input: &[u8]) -> Result<Judgement, Refusal>
    ensures { result ≡ judged input.now }
{
    let [byte, file @ ..] = input else {
        return Err(Refusal::UnknownTheory);
    };
    judge_named(TheoryName::try_from(*byte)?, file)
}
