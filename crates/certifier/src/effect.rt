ghost use Rattle.std.specs.Prelude.{◌≡◌};
ghost use Rattle.theory.specs.Meaning.{pointed};
ghost use Rattle.certifier.specs.Effects.{access_covered, covered, grants, interference};
ghost use Rattle.certifier.specs.Faults.{location};

use crate::refusal::Location;
use recipe::Mode;
use theory::Theory;

/// An effect of a strand: the place of its record, and what it says of a region.
#[derive(Drop)]
pub struct Effect<R> {
    pub place: usize,
    pub mode: Mode,
    pub region: R,
}

impl<R> Effect<R> {
    // Where its record stands, in the strand of this number.
    pub(crate) fn at(&self, strand: usize) -> Location
        ensures { result ≡ location self.now.place strand }
    {
        Location {
            place: self.place,
            strand,
        }
    }
}

// Whether an effect of the first mode allows what one of the second states.
fn granted(by: Mode, asked: Mode) -> bool
    ensures { result ≡ grants by asked }
{
    asked <= by
}

// Whether one of the effects covers the effect.
pub(crate) fn effect_covered<T: Theory>(
    own: &[Effect<T::Region>],
    effect: &Effect<T::Region>,
) -> bool
    ensures { result ≡ covered T.Theory.meaning own.now effect.now }
{
    own.iter().any(|by| granted(by.mode, effect.mode) && T::within(&effect.region, &by.region))
}

// Whether one of the effects covers an access of this mode to the cell.
pub(crate) fn access_is_covered<T: Theory>(
    own: &[Effect<T::Region>],
    mode: Mode,
    cell: &T::Cell,
) -> bool
    ensures { result ≡ access_covered T.Theory.meaning own.now mode (T.Theory.meaning.point cell.now) }
{
    own.iter()
        .any(|by| granted(by.mode, mode) && T::has(&by.region, cell))
}

// A cell by which two effects interfere: both have it, and one of them writes.
pub(crate) fn interfere<T: Theory>(a: &Effect<T::Region>, b: &Effect<T::Region>) -> Option<T::Cell>
    ensures { pointed T.Theory.meaning result ≡ interference T.Theory.meaning a.now b.now }
{
    match (a.mode, b.mode) {
        (Mode::Reads, Mode::Reads) => None,
        _ => T::share(&a.region, &b.region),
    }
}
