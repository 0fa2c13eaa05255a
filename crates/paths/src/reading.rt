ghost use Rattle.std.specs.Prelude.{◌≡◌, ◌+◌, ◌<◌, ◌≤◌, length, drop, IfOk, IfErr};
ghost use Rattle.std.specs.Array.{IsFirstChunk};
ghost use Rattle.theory.specs.declared.fault.Flaw.TheVariants.{Cut};
ghost use Rattle.paths.specs.Reading.{allowed_hole, filled_at, index_at, name_at, path_reads, record_at};
ghost use Rattle.theory.specs.Reading.{flawed};

use crate::kind::Kind;
use crate::pattern::{FilledIndex, Pattern, Piece};
use rpl::{Element, Part};
use theory::{Flaw, HOLES, PatternFault};

// File, place and depth stay apart below, as the theory is asked for them.

// The next element of a path, or none at its end, and the place behind the record.
type Read = Result<(Option<Piece>, usize), PatternFault>;

// The N bytes behind the kind byte of the record at a place.
fn read_bytes<const N: usize>(file: &[u8], place: usize) -> Result<[u8; N], PatternFault>
    requires { place < length file.now }
    ensures whole { IfOk result (λ bytes. (place + 1 + N ≤ length file.now) × IsFirstChunk (drop (place + 1) file.now) bytes N) }
    ensures cut { IfErr result (λ e. (e ≡ flawed Cut place) × (length file.now < place + 1 + N)) }
{
    let bytes = file[place + 1..].first_chunk().ok_or(Flaw::Cut.at(place))?;
    Ok(*bytes)
}

// A name, of two bytes, low byte first.
fn read_name(file: &[u8], place: usize) -> Read
    requires { place < length file.now }
    ensures { result ≡ name_at file.now place }
{
    let name = u16::from_le_bytes(read_bytes(file, place)?);
    Ok((
        Some(Piece::Fixed(Element::One(Part::Name(name)))),
        place + 3,
    ))
}

// An index, of four bytes, low byte first.
fn read_index(file: &[u8], place: usize) -> Read
    requires { place < length file.now }
    ensures { result ≡ index_at file.now place }
{
    let index = u32::from_le_bytes(read_bytes(file, place)?);
    Ok((
        Some(Piece::Fixed(Element::One(Part::Index(index)))),
        place + 5,
    ))
}

// Whether there is a foreach for the hole.
fn allowed(hole: u8, depth: u8) -> bool
    ensures { result ≡ allowed_hole depth hole }
{
    1 <= hole && hole <= depth && hole <= HOLES
}

// A filled index: hole and scale of a byte each, offset of two, low byte first.
fn read_filled(file: &[u8], place: usize, depth: u8) -> Read
    requires { place < length file.now }
    ensures { result ≡ filled_at file.now depth place }
{
    let [hole, scale, low, high] = read_bytes::<4>(file, place)?;
    if !allowed(hole, depth) {
        return Err(Flaw::Limit.at(place));
    }
    let offset = u16::from_le_bytes([low, high]);
    Ok((
        Some(Piece::Filled(FilledIndex {
            hole,
            scale,
            offset,
        })),
        place + 5,
    ))
}

// The record at a place.
fn read_record(file: &[u8], place: usize, depth: u8) -> Read
    ensures { result ≡ record_at file.now depth place }
{
    let byte = file.get(place).ok_or(Flaw::Cut.at(place))?;
    let kind = Kind::try_from(*byte).map_err(|flaw| flaw.at(place))?;
    match kind {
        Kind::End => Ok((None, place + 1)),
        Kind::Name => read_name(file, place),
        Kind::Index => read_index(file, place),
        Kind::Star => Ok((Some(Piece::Fixed(Element::Star)), place + 1)),
        Kind::AnyIndex => Ok((Some(Piece::Fixed(Element::One(Part::AnyIndex))), place + 1)),
        Kind::FilledIndex => read_filled(file, place, depth),
    }
}

// The pattern at a place and its end, or the first fault in it.
#[tactic(auto, using(crate::proofs::ReadSteps::read_steps))]
pub(crate) fn read_pattern(
    file: &[u8],
    mut place: usize,
    depth: u8,
) -> Result<(Pattern, usize), PatternFault>
    ensures { result ≡ path_reads file.now place depth }
{
    let mut pattern = Pattern::new();
    loop {
        let (record, next) = read_record(file, place, depth)?;
        let Some(piece) = record else {
            return Ok((pattern, next));
        };
        if pattern.is_full() {
            return Err(Flaw::TooMany.at(place));
        }
        pattern.push(piece);
        place = next;
    }
}
