ghost use Rattle.certifier.specs.CertifierLaws.{CertifierLaws};

use theory::Theory;

/// What the verdict means: a recipe that reads is certified exactly when it is sound, what is told of
/// another is so, and in a sound recipe strands that run side by side have no interfering effects.
pub fn certifier_laws<T: Theory>()
    ensures { CertifierLaws T.Theory.meaning }
{}
