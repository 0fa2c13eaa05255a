ghost use Rattle.theory.specs.Laws.{TheoryLaws};

use crate::theory::Theory;

/// The laws that every theory has: inclusion is reflexive and transitive, sharing is none in both
/// orders or in neither, and what lies within a region that shares nothing shares nothing.
pub fn theory_laws<T: Theory>()
    ensures { TheoryLaws T.Theory.meaning }
{}
