ghost use Rattle.std.specs.Prelude.{◌≡◌, IfOk};
ghost use Rattle.recipe.specs.Extents.{EndsBehind};
ghost use Rattle.recipe.specs.Records.{mapped, record_at};
ghost use Rattle.recipe.specs.Outlines.{Roomy, outline_of, outlined};
ghost use Rattle.recipe.specs.Said.{said};

use crate::fault::Fault;
use crate::head::Spot;
use crate::read::read_record;
use crate::record::{Fork, Record};
use crate::site::Site;
use theory::Theory;

/// A record as far as the walk over statements has to know it.
#[derive(Clone, Copy, Debug, PartialEq, Eq)]
pub enum Outline {
    Operation,
    When,
    Fork(Fork),
    End,
    /// No record of a statement.
    Other,
}

/// The outline of the record at a site, and its end, or the first fault in it.
#[tactic(auto, using(crate::proofs::RecordLaws::record_roomy))]
pub fn read_outline<T: Theory>(
    file: &[u8],
    spot: Spot,
    site: Site,
) -> Result<(Outline, usize), Fault>
    ensures is { result ≡ mapped outlined (record_at T.Theory.meaning file.now spot site.forks site.depth site.place) }
    ensures whole { IfOk result (λ x. EndsBehind file.now site.place x.1) }
    ensures room { IfOk result (λ x. Roomy x.0 site.forks site.depth) }
{
    let (entry, end) = read_record::<T>(file, spot, site)?;
    Ok((entry.outline(), end))
}

impl<P> Record<'_, P> {
    /// The outline of the record.
    pub fn outline(&self) -> Outline
        ensures { result ≡ outline_of (said self.now) }
    {
        match self {
            Record::Operation(_) => Outline::Operation,
            Record::When(_) => Outline::When,
            Record::Fork(fork) => Outline::Fork(*fork),
            Record::End => Outline::End,
            Record::Cell(_) | Record::Effect(_, _) => Outline::Other,
        }
    }
}
