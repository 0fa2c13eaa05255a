ghost use Rattle.std.specs.Prelude.{◌≡◌, IfOk, IfSome};
ghost use Rattle.recipe.specs.Extents.{EndsBehind};
ghost use Rattle.recipe.specs.declared.head.Spot.TheVariants.{Effects};
ghost use Rattle.recipe.specs.Records.{record_at};
ghost use Rattle.certifier.specs.Walks.{ChildRead, ChildrenRead, Counted, EffectsFound, effect_found};

use crate::effect::Effect;
use crate::family::Child;
use recipe::{Recipe, Site, Spot, read_block, read_record};
use std::alloc::{AllocError, Global};
use strands::locate;
use theory::{Indices, Theory};

// A strand: its number, where its block stands, and its indices.
#[derive(Clone, Copy)]
pub(crate) struct Instance {
    pub(crate) number: usize,
    pub(crate) site: Site,
    pub(crate) indices: Indices,
}

// The effect at a place in a strand's block, filled with its indices, and its end; none where no effect
// stands there.
fn read_effect<T: Theory>(
    file: &[u8],
    strand: &Instance,
    place: usize,
) -> Option<(Effect<T::Region>, usize)>
    ensures is { result ≡ effect_found T.Theory.meaning strand.now.indices place (record_at T.Theory.meaning file.now Effects 0 strand.now.site.depth place) }
    ensures whole { IfSome result (λ x. EndsBehind file.now place x.1) }
{
    let site = Site {
        place,
        forks: 0,
        ..strand.site
    };
    let (entry, end) = read_record::<T>(file, Spot::Effects, site).ok()?;
    let (mode, pattern) = entry.effect()?;
    let region = T::fill(pattern, &strand.indices);
    Some((
        Effect {
            place,
            mode,
            region,
        },
        end,
    ))
}

// The effects of a strand's block, filled with its indices.
pub(crate) fn read_filled<T: Theory>(
    file: &[u8],
    strand: &Instance,
    heap: Global,
) -> Result<Vec<Effect<T::Region>>, AllocError>
    ensures { IfOk result (λ v. EffectsFound T.Theory.meaning file.now strand.now.site strand.now.indices v.items) }
{
    let mut filled = Vec::new(heap);
    let mut at = strand.site.place;
    while let Some((effect, end)) = read_effect::<T>(file, strand, at) {
        filled.push(effect)?;
        at = end;
    }
    Ok(filled)
}

// How many strands the block at a site has.
fn count_strands<T: Theory>(file: &[u8], site: Site) -> usize
    ensures { Counted T.Theory.meaning file.now site result }
{
    read_block::<T>(file, site).map_or(0, |extent| extent.strands as usize)
}

// A strand as a child of a fork.
fn read_child<T: Theory>(
    file: &[u8],
    strand: &Instance,
    heap: Global,
) -> Result<Child<T::Region>, AllocError>
    ensures { IfOk result (ChildRead T.Theory.meaning file.now strand.now.number strand.now.site strand.now.indices) }
{
    let effects = read_filled::<T>(file, strand, heap)?;
    let strands = count_strands::<T>(file, strand.site);
    Ok(Child {
        number: strand.number,
        strands,
        effects,
    })
}

// So many children, of which the first has this number; each has the number behind all strands of the
// one before.
pub(crate) fn read_children<T: Theory>(
    recipe: &Recipe<'_>,
    count: u8,
    first: usize,
    heap: Global,
) -> Result<Vec<Child<T::Region>>, AllocError>
    ensures { IfOk result (λ v. ChildrenRead T.Theory.meaning recipe.now count first v.items) }
{
    let mut children = Vec::new(heap);
    let mut number = first;
    for _ in 0..count {
        let Some(found) = locate::<T>(recipe, number) else {
            return Ok(children);
        };
        let (site, indices) = found;
        let strand = Instance {
            number,
            site,
            indices,
        };
        let child = read_child::<T>(recipe.file(), &strand, heap)?;
        number = number.saturating_add(child.strands);
        children.push(child)?;
    }
    Ok(children)
}
