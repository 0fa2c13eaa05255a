ghost use Rattle.std.specs.Prelude.{◌≡◌, ℕ, suc, ◌≤◌, true, length, IfOk};
ghost use Rattle.recipe.specs.Blocks.{block_at, branches, effects, forking, inner, statement, statements, under};
ghost use Rattle.recipe.specs.Records.{mapped};
ghost use Rattle.recipe.specs.Extents.{EndsBehind, EndsFrom, ending, extent, statement_extent};
ghost use Rattle.recipe.specs.Kinds.{roomy};
ghost use Rattle.recipe.specs.Tree.{branched, forked, size, sizes};

use crate::extent::Extent;
use crate::fault::Fault;
use crate::head::{Spot, begins};
use crate::outline::{Outline, read_outline};
use crate::read::read_record;
use crate::record::Fork;
use crate::site::Site;
use theory::{Flaw, Theory};

const MOST_EFFECTS: u8 = 16;

/// The end of the effects from a site on, or the first fault in them.
#[tactic(auto, using(crate::proofs::BlockLaws::effects_read))]
pub fn read_effects<T: Theory>(file: &[u8], site: Site) -> Result<usize, Fault>
    ensures is { result ≡ mapped ending (effects T.Theory.meaning file.now 16 site.depth site.place) }
    ensures whole { IfOk result (λ e. site.place ≤ e) }
{
    let mut at = site.place;
    for _ in 0..MOST_EFFECTS {
        if !begins(file, Spot::Effects, at) {
            return Ok(at);
        }
        let here = Site {
            place: at,
            forks: 0,
            ..site
        };
        let (_, end) = read_record::<T>(file, Spot::Effects, here)?;
        at = end;
    }
    if begins(file, Spot::Effects, at) {
        return Err(Fault::Record(Flaw::TooMany, at));
    }
    Ok(at)
}

// So many blocks one after another.
#[tactic(auto, using(crate::proofs::RingLaws::branches_read))]
#[cycle(read_block_read_branches_read_fork_read_statement_read_statements_read_under)]
fn read_branches<T: Theory>(file: &[u8], count: u8, site: Site) -> Result<Extent, Fault>
    ensures is { result ≡ mapped (extent branched) (branches T.Theory.meaning file.now (block_at T.Theory.meaning file.now site.forks) count site.depth site.place) }
    ensures whole { IfOk result (λ x. EndsFrom file.now site.place x.end) }
{
    let mut read = Extent {
        end: site.place,
        strands: 0,
    };
    for _ in 0..count {
        let at = read.end;
        let block = read_block::<T>(file, Site { place: at, ..site })?;
        read = read.then(block);
    }
    Ok(read)
}

// The blocks of a fork, from behind its record on.
#[tactic(auto, using(crate::proofs::RingLaws::fork_read))]
#[cycle(read_block_read_branches_read_fork_read_statement_read_statements_read_under)]
fn read_fork<T: Theory>(file: &[u8], fork: Fork, site: Site) -> Result<Extent, Fault>
    requires { roomy fork site.forks site.depth ≡ true }
    ensures is { (at : ℕ) → result ≡ mapped (extent forked) (forking T.Theory.meaning file.now (inner T.Theory.meaning file.now site.forks) site.depth at fork site.place) }
    ensures whole { IfOk result (λ x. EndsFrom file.now site.place x.end) }
{
    let inner = Site {
        forks: site.forks - 1,
        ..site
    };
    match fork {
        Fork::Cobegin(count) => read_branches::<T>(file, count, inner),
        Fork::Foreach(count) => {
            let depth = site.depth + 1;
            let block = read_block::<T>(file, Site { depth, ..inner })?;
            Ok(block.times(count))
        }
    }
}

// The statement under a When.
#[tactic(auto, unfolding(crate::specs::Blocks::under))]
#[cycle(read_block_read_branches_read_fork_read_statement_read_statements_read_under)]
fn read_under<T: Theory>(file: &[u8], site: Site) -> Result<Extent, Fault>
    ensures is { result ≡ mapped (extent forked) (under T.Theory.meaning file.now (inner T.Theory.meaning file.now site.forks) site.forks site.depth site.place) }
    ensures whole { IfOk result (λ x. EndsBehind file.now site.place x.end) }
{
    let (outline, end) = read_outline::<T>(file, Spot::Guarded, site)?;
    match outline {
        Outline::Operation => Ok(Extent { end, strands: 0 }),
        Outline::Fork(fork) => read_fork::<T>(file, fork, Site { place: end, ..site }),
        Outline::When | Outline::End | Outline::Other => {
            Err(Fault::Record(Flaw::Kind, site.place))
        }
    }
}

/// The statement at a site: its strands, or none at the End of the block; and its end.
#[tactic(auto, unfolding(crate::specs::Blocks::statement))]
#[cycle(read_block_read_branches_read_fork_read_statement_read_statements_read_under)]
pub fn read_statement<T: Theory>(file: &[u8], site: Site) -> Result<(Option<u16>, usize), Fault>
    ensures is { result ≡ mapped statement_extent (statement T.Theory.meaning file.now (inner T.Theory.meaning file.now site.forks) site.forks site.depth site.place) }
    ensures whole { IfOk result (λ x. EndsBehind file.now site.place x.1) }
{
    let (outline, end) = read_outline::<T>(file, Spot::Statements, site)?;
    let behind = Site { place: end, ..site };
    match outline {
        Outline::Operation => Ok((Some(0), end)),
        Outline::When => {
            let guarded = read_under::<T>(file, behind)?;
            Ok((Some(guarded.strands), guarded.end))
        }
        Outline::Fork(fork) => {
            let forked = read_fork::<T>(file, fork, behind)?;
            Ok((Some(forked.strands), forked.end))
        }
        Outline::End => Ok((None, end)),
        Outline::Other => Err(Fault::Record(Flaw::Kind, site.place)),
    }
}

// The statements from a site on, up to the End of the block.
#[tactic(auto, using(crate::proofs::RingLaws::statements_read))]
#[cycle(read_block_read_branches_read_fork_read_statement_read_statements_read_under)]
fn read_statements<T: Theory>(file: &[u8], site: Site) -> Result<Extent, Fault>
    ensures is { result ≡ mapped (extent sizes) (statements T.Theory.meaning file.now (inner T.Theory.meaning file.now site.forks) site.forks site.depth (suc (length file.now)) site.place) }
    ensures whole { IfOk result (λ x. EndsBehind file.now site.place x.end) }
{
    let mut read = Extent {
        end: site.place,
        strands: 0,
    };
    loop {
        let at = read.end;
        let (found, end) = read_statement::<T>(file, Site { place: at, ..site })?;
        let Some(strands) = found else {
            return Ok(Extent { end, ..read });
        };
        read = read.then(Extent { end, strands });
    }
}

/// The extent of the block at a site, or the first fault in it.
#[tactic(auto, unfolding(crate::specs::Blocks::block_at))]
#[cycle(read_block_read_branches_read_fork_read_statement_read_statements_read_under)]
pub fn read_block<T: Theory>(file: &[u8], site: Site) -> Result<Extent, Fault>
    ensures is { result ≡ mapped (extent size) (block_at T.Theory.meaning file.now site.forks site.depth site.place) }
    ensures whole { IfOk result (λ x. EndsBehind file.now site.place x.end) }
{
    let end = read_effects::<T>(file, site)?;
    let own = Extent { end, strands: 1 };
    let inside = read_statements::<T>(file, Site { place: end, ..site })?;
    Ok(own.then(inside))
}
