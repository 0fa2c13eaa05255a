ghost use Rattle.std.specs.Prelude.{◌≡◌};
ghost use Rattle.certifier.specs.Families.{child_of, children_of};
ghost use Rattle.certifier.specs.Faults.{child_faults, family_faults, overlaps, pair_faults, pairs_faults};
ghost use Rattle.certifier.specs.Lists.{first, gather};
ghost use Rattle.certifier.specs.Refusals.{refused};

use crate::effect::{Effect, effect_covered, interfere};
use crate::refusal::Refusal;
use theory::Theory;

// A child of a fork: its number, how many strands it and those inside it are, and its effects.
#[derive(Drop)]
pub(crate) struct Child<R> {
    pub(crate) number: usize,
    pub(crate) strands: usize,
    pub(crate) effects: Vec<Effect<R>>,
}

// The first effect of a child that none of its parent's covers.
fn exceeding<T: Theory>(
    own: &[Effect<T::Region>],
    child: &Child<T::Region>,
) -> Option<Refusal<T::Cell>>
    ensures { refused T.Theory.meaning result ≡ first (child_faults T.Theory.meaning own.now (child_of child.now)) }
{
    child.effects.iter().find_map(|effect| {
        (!effect_covered::<T>(own, effect)).then(|| Refusal::Exceeding(effect.at(child.number)))
    })
}

// The first effect of another child that interferes with an effect of the child of this number.
fn clash<T: Theory>(
    number: usize,
    effect: &Effect<T::Region>,
    other: &Child<T::Region>,
) -> Option<Refusal<T::Cell>>
    ensures { refused T.Theory.meaning result ≡ first (gather (overlaps T.Theory.meaning number other.now.number effect.now) (child_of other.now).1) }
{
    other.effects.iter().find_map(|theirs| {
        let cell = interfere::<T>(effect, theirs)?;
        Some(Refusal::Interfering(effect.at(number), theirs.at(other.number), cell))
    })
}

// The first interference of two children.
fn pair_clash<T: Theory>(
    child: &Child<T::Region>,
    other: &Child<T::Region>,
) -> Option<Refusal<T::Cell>>
    ensures { refused T.Theory.meaning result ≡ first (pair_faults T.Theory.meaning (child_of child.now) (child_of other.now)) }
{
    child
        .effects
        .iter()
        .find_map(|effect| clash::<T>(child.number, effect, other))
}

// The first interference of a child with one of those after it.
fn clash_with_rest<T: Theory>(
    child: &Child<T::Region>,
    rest: &[Child<T::Region>],
) -> Option<Refusal<T::Cell>>
    ensures { refused T.Theory.meaning result ≡ first (gather (pair_faults T.Theory.meaning (child_of child.now)) (children_of rest.now)) }
{
    rest.iter().find_map(|other| pair_clash::<T>(child, other))
}

// The first interference of two of the children.
fn clash_among<T: Theory>(children: &[Child<T::Region>]) -> Option<Refusal<T::Cell>>
    ensures { refused T.Theory.meaning result ≡ first (pairs_faults T.Theory.meaning (children_of children.now)) }
{
    let [child, rest @ ..] = children else {
        return None;
    };
    // `or_else` would call this function in a closure, which would need a contract and a measure.
    match clash_with_rest::<T>(child, rest) {
        None => clash_among::<T>(rest),
        found => found,
    }
}

// The first effect of one of the children that none of their parent's covers.
fn child_exceeding<T: Theory>(
    own: &[Effect<T::Region>],
    children: &[Child<T::Region>],
) -> Option<Refusal<T::Cell>>
    ensures { refused T.Theory.meaning result ≡ first (gather (child_faults T.Theory.meaning own.now) (children_of children.now)) }
{
    children.iter().find_map(|child| exceeding::<T>(own, child))
}

// The first fault among the children of a fork: an effect that is not covered, or an interference.
pub(crate) fn family_fault<T: Theory>(
    own: &[Effect<T::Region>],
    children: &[Child<T::Region>],
) -> Option<Refusal<T::Cell>>
    ensures { refused T.Theory.meaning result ≡ first (family_faults T.Theory.meaning own.now (children_of children.now)) }
{
    child_exceeding::<T>(own, children).or_else(|| clash_among::<T>(children))
}
