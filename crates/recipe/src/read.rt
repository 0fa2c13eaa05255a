ghost use Rattle.std.specs.Prelude.{◌≡◌, ◌+◌, ◌≤◌, length, IfOk};
ghost use Rattle.recipe.specs.Extents.{EndsBehind};
ghost use Rattle.recipe.specs.Kinds.{body_of};
ghost use Rattle.recipe.specs.Records.{body, pattern, record_at, single_pattern};
ghost use Rattle.theory.specs.Reading.{four_bytes};
ghost use Rattle.recipe.specs.Said.{Borrows, part, patterned, told};

use crate::fault::Fault;
use crate::head::{Spot, read_head};
use crate::kinds::Kind;
use crate::record::{Fork, Mode, Operation, Pattern, Record};
use crate::site::Site;
use theory::{Flaw, Theory};

// Each reader says in a clause where it ends: a type for such ends would have to hold the file.

// The pattern at a place, and its end: by depth and place, as the theory reads it.
fn read_pattern<'a, T: Theory>(
    file: &'a [u8],
    depth: u8,
    place: usize,
) -> Result<(Pattern<'a, T::Pattern>, usize), Fault>
    requires { place ≤ length file.now }
    ensures is { patterned result ≡ pattern T.Theory.meaning file.now depth place }
    ensures whole { IfOk result (λ x. EndsBehind file.now place x.1) }
    ensures borrows { IfOk result (λ x. x.0.bytes.now ≡ part file.now place x.1) }
{
    let (pattern, end) = T::read(file, place, depth)?;
    let bytes = &file[place..end];
    Ok((Pattern { bytes, pattern }, end))
}

// The same for a pattern that must be single: that of the record at `owner`.
fn read_single<'a, T: Theory>(
    file: &'a [u8],
    owner: usize,
    depth: u8,
    place: usize,
) -> Result<(Pattern<'a, T::Pattern>, usize), Fault>
    requires { place ≤ length file.now }
    ensures is { patterned result ≡ single_pattern T.Theory.meaning file.now owner depth place }
    ensures whole { IfOk result (λ x. EndsBehind file.now place x.1) }
    ensures borrows { IfOk result (λ x. x.0.bytes.now ≡ part file.now place x.1) }
{
    let (pattern, end) = read_pattern::<T>(file, depth, place)?;
    if !T::single(&pattern.pattern) {
        return Err(Fault::NotSingle(owner));
    }
    Ok((pattern, end))
}

// The number of four bytes, low byte first.
fn four_bytes(file: &[u8], place: usize) -> u32
    requires { place + 4 ≤ length file.now }
    ensures { result ≡ four_bytes file.now place }
{
    u32::from_le_bytes(*file[place..].first_chunk().unwrap())
}

// The record of a kind whose head is in order, and its end.
fn read_body<'a, T: Theory>(
    file: &'a [u8],
    kind: Kind,
    site: Site,
) -> Result<(Record<'a, T::Pattern>, usize), Fault>
    requires { site.place + 1 + body_of kind ≤ length file.now }
    ensures is { told result ≡ body T.Theory.meaning file.now kind site.depth site.place }
    ensures whole { IfOk result (λ x. EndsBehind file.now site.place x.1) }
    ensures borrows { IfOk result (λ x. Borrows file.now site.place x.1 x.0) }
{
    let place = site.place;
    let depth = site.depth;
    // An arm for each kind, though two may share a call: a function for both would be longer.
    match kind {
        Kind::Cell => {
            let (pattern, end) = read_single::<T>(file, place, depth, place + 1)?;
            Ok((Record::Cell(pattern), end))
        }
        Kind::Reads => {
            let (pattern, end) = read_pattern::<T>(file, depth, place + 1)?;
            Ok((Record::Effect(Mode::Reads, pattern), end))
        }
        Kind::Writes => {
            let (pattern, end) = read_pattern::<T>(file, depth, place + 1)?;
            Ok((Record::Effect(Mode::Writes, pattern), end))
        }
        Kind::Load => {
            let (pattern, end) = read_single::<T>(file, place, depth, place + 2)?;
            let load = Operation::Load(file[place + 1], pattern);
            Ok((Record::Operation(load), end))
        }
        Kind::Store => {
            let (pattern, end) = read_single::<T>(file, place, depth, place + 2)?;
            let store = Operation::Store(file[place + 1], pattern);
            Ok((Record::Operation(store), end))
        }
        Kind::Set => {
            let set = Operation::Set(file[place + 1], four_bytes(file, place + 2));
            Ok((Record::Operation(set), place + 6))
        }
        Kind::Add => {
            let add = Operation::Add(file[place + 1], file[place + 2]);
            Ok((Record::Operation(add), place + 3))
        }
        Kind::Index => {
            let index = Operation::Index(file[place + 1], file[place + 2]);
            Ok((Record::Operation(index), place + 3))
        }
        Kind::When => Ok((Record::When(file[place + 1]), place + 2)),
        Kind::Less => {
            let less = Operation::Less(file[place + 1], file[place + 2], file[place + 3]);
            Ok((Record::Operation(less), place + 4))
        }
        Kind::Cobegin => Ok((Record::Fork(Fork::Cobegin(file[place + 1])), place + 2)),
        Kind::Foreach => Ok((Record::Fork(Fork::Foreach(file[place + 1])), place + 2)),
        Kind::End => Ok((Record::End, place + 1)),
    }
}

/// The record at a site and its end, or the first fault in it. `spot` says which kinds may stand there.
#[tactic(auto, unfolding(crate::specs::Records::record_at))]
pub fn read_record<'a, T: Theory>(
    file: &'a [u8],
    spot: Spot,
    site: Site,
) -> Result<(Record<'a, T::Pattern>, usize), Fault>
    ensures is { told result ≡ record_at T.Theory.meaning file.now spot site.forks site.depth site.place }
    ensures whole { IfOk result (λ x. EndsBehind file.now site.place x.1) }
    ensures borrows { IfOk result (λ x. Borrows file.now site.place x.1 x.0) }
{
    let kind = read_head(file, spot, site)?;
    if !kind.has_room(site) {
        return Err(Fault::Record(Flaw::TooMany, site.place));
    }
    read_body::<T>(file, kind, site)
}
