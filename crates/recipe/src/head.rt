ghost use Rattle.std.specs.Prelude.{◌≡◌, ◌+◌, ◌<◌, ◌≤◌, length, IfOk};
ghost use Rattle.recipe.specs.Kinds.{allowed, body_of, has_room, in_limits};
ghost use Rattle.recipe.specs.Heads.{begins as begins_at, head};

use crate::fault::Fault;
use crate::kinds::{Kind, body_length};
use crate::site::Site;
use theory::{Flaw, HOLES};

/// Where a record stands, which decides the kinds that are allowed.
#[derive(Clone, Copy, Debug, PartialEq, Eq)]
pub enum Spot {
    /// In the list of cells.
    Cells,
    /// Among the effects of a block.
    Effects,
    /// Among the statements of a block.
    Statements,
    /// Under a When.
    Guarded,
}

impl Spot {
    // Whether a record of this kind may stand here.
    pub(crate) fn allows(&self, kind: Kind) -> bool
        ensures { result ≡ allowed self.now kind }
    {
        match (self, kind) {
            (Spot::Cells, Kind::Cell) => true,
            (Spot::Effects, Kind::Reads | Kind::Writes) => true,
            (Spot::Cells | Spot::Effects, _) => false,
            (_, Kind::Cell | Kind::Reads | Kind::Writes) => false,
            (Spot::Guarded, Kind::When | Kind::End) => false,
            _ => true,
        }
    }
}

impl Kind {
    // Whether a record of this kind may come at a site, by the forks around it.
    pub(crate) fn has_room(&self, site: Site) -> bool
        ensures { result ≡ has_room self.now site.forks site.depth }
    {
        match self {
            Kind::Cobegin => site.forks > 0,
            Kind::Foreach => site.forks > 0 && site.depth < HOLES,
            _ => true,
        }
    }
}

// Whether the numbers of the body of the record at a site are within their limits.
fn in_limits(file: &[u8], kind: Kind, site: Site) -> bool
    requires { site.place + 1 + body_of kind ≤ length file.now }
    ensures { result ≡ in_limits file.now kind site.depth site.place }
{
    let place = site.place;
    match kind {
        Kind::Cell | Kind::Reads | Kind::Writes | Kind::End => true,
        Kind::Load | Kind::Store | Kind::Set | Kind::When => file[place + 1] < 4,
        Kind::Add => file[place + 1] < 4 && file[place + 2] < 4,
        Kind::Index => file[place + 1] < 4 && (1..=site.depth).contains(&file[place + 2]),
        Kind::Less => file[place + 1] < 4 && file[place + 2] < 4 && file[place + 3] < 4,
        Kind::Cobegin => (2..=16).contains(&file[place + 1]),
        Kind::Foreach => (1..=64).contains(&file[place + 1]),
    }
}

// The kind of the record at a site, where its head is in order.
#[tactic(auto, unfolding(crate::specs::Heads::head, crate::specs::Kinds::kind_of, crate::specs::Kinds::body_length), using(crate::proofs::Table::lengths_agree))]
pub(crate) fn read_head(file: &[u8], spot: Spot, site: Site) -> Result<Kind, Fault>
    ensures is { result ≡ head file.now spot site.depth site.place }
    ensures whole { IfOk result (λ k. site.place + 1 + body_of k ≤ length file.now) }
{
    let place = site.place;
    let fault = |flaw| Fault::Record(flaw, place);
    let byte = *file.get(place).ok_or(fault(Flaw::Cut))?;
    let kind = Kind::try_from(byte).map_err(|_| fault(Flaw::Kind))?;
    if !spot.allows(kind) {
        return Err(fault(Flaw::Kind));
    }
    if file.len() - place <= body_length(byte) as usize {
        return Err(fault(Flaw::Cut));
    }
    if !in_limits(file, kind, site) {
        return Err(fault(Flaw::Limit));
    }
    Ok(kind)
}

/// Whether a record that may stand at the spot begins at the place.
#[tactic(auto, unfolding(crate::specs::Heads::begins))]
pub fn begins(file: &[u8], spot: Spot, place: usize) -> bool
    ensures { result ≡ begins_at file.now spot place }
{
    file.get(place).is_some_and(|byte| Kind::try_from(*byte).is_ok_and(|kind| spot.allows(kind)))
}
