ghost use Rattle.std.specs.Prelude.{◌≡◌};
ghost use Rattle.sections.specs.SectionMeaning.{hole_said, section_meaning};
ghost use Rattle.sections.specs.SectionKept.{section_kept};

use crate::pattern::{Hole, SectionPattern};
use crate::section::Section;
use theory::{Flaw, HOLES, Indices, PatternFault, Theory};

// The only kind of record here: an enum of one variant would say no more.
const KIND: u8 = 0x48;

// The bytes behind the kind byte.
const BODY: usize = 8;

// The hole that two bytes say under so many foreach: 0 and 0 say that there is none.
fn hole_said(depth: u8, number: u8, scale: u8) -> Result<Option<Hole>, Flaw>
    ensures { result ≡ hole_said depth number scale }
{
    match number {
        0 if scale == 0 => Ok(None),
        1..=HOLES if number <= depth => Ok(Some(Hole { number, scale })),
        _ => Err(Flaw::Limit),
    }
}

/// The theory of sections. Its cells are numbers.
pub struct Sections;

impl Theory for Sections {
    type Pattern = SectionPattern;

    type Region = Section;

    type Cell = u64;

    ghost meaning = { section_meaning };

    ghost kept = { section_kept };

    fn read(file: &[u8], place: usize, depth: u8) -> Result<(SectionPattern, usize), PatternFault> {
        let kind = *file.get(place).ok_or(Flaw::Cut.at(place))?;
        if kind != KIND {
            return Err(Flaw::Kind.at(place));
        }
        let Some(&[number, scale, o0, o1, s0, s1, c0, c1]) = file[place + 1..].first_chunk::<BODY>()
        else {
            return Err(Flaw::Cut.at(place));
        };
        let hole = hole_said(depth, number, scale).map_err(|flaw| flaw.at(place))?;
        let offset = u16::from_le_bytes([o0, o1]);
        let step = u16::from_le_bytes([s0, s1]);
        let count = u16::from_le_bytes([c0, c1]);
        if step == 0 || count == 0 {
            return Err(Flaw::Limit.at(place));
        }
        let pattern = SectionPattern {
            hole,
            offset,
            step,
            count,
        };
        Ok((pattern, place + 1 + BODY))
    }

    fn fill(pattern: &SectionPattern, indices: &Indices) -> Section {
        Section {
            first: pattern.first(indices),
            step: pattern.step,
            count: pattern.count,
        }
    }

    fn same(a: &u64, b: &u64) -> bool {
        a == b
    }

    fn single(pattern: &SectionPattern) -> bool {
        pattern.count == 1
    }

    fn only(pattern: &SectionPattern, indices: &Indices) -> u64 {
        pattern.first(indices) as u64
    }

    fn has(region: &Section, cell: &u64) -> bool {
        region.holds(*cell)
    }

    fn within(a: &Section, b: &Section) -> bool {
        a.lies_within(b)
    }

    fn share(a: &Section, b: &Section) -> Option<u64> {
        a.least_shared(b)
    }
}
