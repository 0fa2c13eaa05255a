ghost use Rattle.std.specs.Prelude.{◌≡◌, Bool};
ghost use Rattle.rpl.specs.declared.element.Part.{Part};
ghost use Rattle.rpl.specs.Greedy.{greedy, is_match};
ghost use Rattle.rpl.specs.Inclusion.{covers};
ghost use Rattle.rpl.specs.Paths.{stands};

use crate::element::{Element, Key, Part};

/// What a part of a path may take.
pub trait Letter {
    ghost takes: { Part → Self → Bool };

    /// Whether the part takes the letter.
    fn taken(part: &Part, letter: &Self) -> bool
        ensures { result ≡ takes part.now letter.now };
}

/// A key of a cell is taken by the parts that stand for it.
impl Letter for Key {
    ghost takes = { stands };

    fn taken(part: &Part, letter: &Key) -> bool {
        match (part, letter) {
            (Part::Name(a), Key::Named(b)) => *a == *b,
            (Part::Index(a), Key::Indexed(b)) => *a == *b,
            (Part::AnyIndex, Key::Indexed(_)) => true,
            _ => false,
        }
    }
}

/// An element of another path is taken by the parts that stand for all its keys; a star by none.
impl Letter for Element {
    ghost takes = { covers };

    fn taken(part: &Part, letter: &Element) -> bool {
        match letter {
            Element::Star => false,
            Element::One(other) => match (part, other) {
                (Part::AnyIndex, Part::Index(_)) => true,
                _ => part == other,
            },
        }
    }
}

/// What matching a path with a word comes to.
#[derive(Clone, Copy, Debug, PartialEq, Eq)]
pub enum Outcome {
    /// The path has the word.
    Match,
    /// The path has not the word.
    Miss,
    /// The path has neither the word nor any that is left when letters are taken off its front.
    Short,
}

// Greedy matching: a star takes as few letters as it can, and what comes up short behind it settles
// the whole, so that no earlier star is tried again.
#[tactic(auto, using(crate::proofs::GreedySteps::star_settled))]
fn matched<L: Letter>(path: &[Element], word: &[L]) -> Outcome
    ensures { result ≡ greedy L.Letter.takes path.now word.now }
{
    match path {
        [Element::Star, rest @ ..] => match matched(rest, word) {
            Outcome::Miss => match word {
                [_, others @ ..] => matched(path, others),
                [] => Outcome::Short,
            },
            settled => settled,
        },
        [Element::One(part), rest @ ..] => match word {
            [letter, others @ ..] => {
                if L::taken(part, letter) {
                    matched(rest, others)
                } else {
                    Outcome::Miss
                }
            }
            [] => Outcome::Short,
        },
        [] => match word {
            [] => Outcome::Match,
            [_, ..] => Outcome::Miss,
        },
    }
}

// Whether the path has the word.
pub(crate) fn matches<L: Letter>(path: &[Element], word: &[L]) -> bool
    ensures { result ≡ is_match (greedy L.Letter.takes path.now word.now) }
{
    matched(path, word) == Outcome::Match
}
