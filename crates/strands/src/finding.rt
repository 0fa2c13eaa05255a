ghost use Rattle.std.specs.Prelude.{◌≡◌, ◌<◌, true, slice_set};
ghost use Rattle.recipe.specs.Kinds.{roomy};
ghost use Rattle.recipe.specs.Numbers.{numbers};
ghost use Rattle.strands.specs.Finding.{FoundInBlock, FoundInBranches, FoundInFork, FoundInStatement, FoundInStatements, FoundUnder};
ghost use Rattle.strands.specs.Located.{strand_at};

use recipe::{
    Fork, MOST_FORKS, MOST_STRANDS, Outline, Recipe, Site, Spot, read_block, read_effects,
    read_outline, read_statement,
};
use theory::{Indices, NO_INDICES, Theory};

// A block's site and its indices are two arguments below, and no struct: `locate` answers them as a pair.

// The indices inside one instance of a foreach.
fn inside(indices: Indices, depth: u8, index: u8) -> Indices
    requires { depth < 3 }
    ensures { result ≡ slice_set indices depth index }
{
    let mut filled = indices;
    filled[depth as usize] = index;
    filled
}

// The strand of a number among so many blocks one after another.
#[cycle(find_in_block_find_in_branches_find_in_fork_find_in_statement_find_in_statements_find_under)]
fn find_in_branches<T: Theory>(
    file: &[u8],
    count: u8,
    site: Site,
    indices: Indices,
    number: u16,
) -> Option<(Site, Indices)>
    ensures { FoundInBranches T.Theory.meaning file.now site indices number result count }
{
    let mut at = site.place;
    let mut left = number;
    for _ in 0..count {
        let block = Site { place: at, ..site };
        let extent = read_block::<T>(file, block).ok()?;
        if left < extent.strands {
            return find_in_block::<T>(file, block, indices, left);
        }
        left -= extent.strands;
        at = extent.end;
    }
    None
}

// The strand of a number in the blocks of a fork, whose first stands at the site.
#[cycle(find_in_block_find_in_branches_find_in_fork_find_in_statement_find_in_statements_find_under)]
fn find_in_fork<T: Theory>(
    file: &[u8],
    fork: Fork,
    site: Site,
    indices: Indices,
    number: u16,
) -> Option<(Site, Indices)>
    requires { roomy fork site.forks site.depth ≡ true }
    ensures { FoundInFork T.Theory.meaning file.now site indices number result fork }
{
    match fork {
        Fork::Cobegin(count) => {
            let first = Site {
                forks: site.forks - 1,
                ..site
            };
            find_in_branches::<T>(file, count, first, indices, number)
        }
        Fork::Foreach(count) => {
            let block = Site {
                forks: site.forks - 1,
                depth: site.depth + 1,
                ..site
            };
            let extent = read_block::<T>(file, block).ok()?;
            if extent.strands == 0 {
                return None;
            }
            let index = number / extent.strands;
            if index >= count as u16 {
                return None;
            }
            let filled = inside(indices, site.depth, index as u8);
            find_in_block::<T>(file, block, filled, number % extent.strands)
        }
    }
}

// The strand of a number in the statement at the site, under a When.
#[cycle(find_in_block_find_in_branches_find_in_fork_find_in_statement_find_in_statements_find_under)]
fn find_under<T: Theory>(
    file: &[u8],
    site: Site,
    indices: Indices,
    number: u16,
) -> Option<(Site, Indices)>
    ensures { FoundUnder T.Theory.meaning file.now site indices number result }
{
    let (outline, end) = read_outline::<T>(file, Spot::Guarded, site).ok()?;
    let behind = Site { place: end, ..site };
    match outline {
        Outline::Fork(fork) => find_in_fork::<T>(file, fork, behind, indices, number),
        _ => None,
    }
}

// The strand of a number in the statement at the site.
#[cycle(find_in_block_find_in_branches_find_in_fork_find_in_statement_find_in_statements_find_under)]
fn find_in_statement<T: Theory>(
    file: &[u8],
    site: Site,
    indices: Indices,
    number: u16,
) -> Option<(Site, Indices)>
    ensures { FoundInStatement T.Theory.meaning file.now site indices number result }
{
    let (outline, end) = read_outline::<T>(file, Spot::Statements, site).ok()?;
    let behind = Site { place: end, ..site };
    match outline {
        Outline::When => find_under::<T>(file, behind, indices, number),
        Outline::Fork(fork) => find_in_fork::<T>(file, fork, behind, indices, number),
        _ => None,
    }
}

// The strand of a number in the statements from the site on.
#[cycle(find_in_block_find_in_branches_find_in_fork_find_in_statement_find_in_statements_find_under)]
fn find_in_statements<T: Theory>(
    file: &[u8],
    site: Site,
    indices: Indices,
    number: u16,
) -> Option<(Site, Indices)>
    ensures { FoundInStatements T.Theory.meaning file.now site indices number result }
{
    let mut at = site.place;
    let mut left = number;
    while let Ok((Some(strands), end)) = read_statement::<T>(file, Site { place: at, ..site }) {
        if left < strands {
            let here = Site { place: at, ..site };
            return find_in_statement::<T>(file, here, indices, left);
        }
        left -= strands;
        at = end;
    }
    None
}

// The strand of a number in the block at the site.
#[cycle(find_in_block_find_in_branches_find_in_fork_find_in_statement_find_in_statements_find_under)]
fn find_in_block<T: Theory>(
    file: &[u8],
    site: Site,
    indices: Indices,
    number: u16,
) -> Option<(Site, Indices)>
    ensures { FoundInBlock T.Theory.meaning file.now site indices number result }
{
    if number == 0 {
        return Some((site, indices));
    }
    let end = read_effects::<T>(file, site).ok()?;
    let behind = Site { place: end, ..site };
    find_in_statements::<T>(file, behind, indices, number - 1)
}

/// The place of the block of a strand, and the three indices that fill its patterns; none where the
/// recipe has no strand of that number under the theory.
pub fn locate<T: Theory>(recipe: &Recipe<'_>, number: usize) -> Option<(Site, Indices)>
    ensures { result ≡ strand_at T.Theory.meaning recipe.now.file.now (numbers recipe.now).from number }
{
    let file = recipe.file();
    let root = Site {
        place: recipe.root(),
        forks: MOST_FORKS,
        depth: 0,
    };
    let extent = read_block::<T>(file, root).ok()?;
    if extent.strands > MOST_STRANDS {
        return None;
    }
    if number >= extent.strands as usize {
        return None;
    }
    find_in_block::<T>(file, root, NO_INDICES, number as u16)
}
