ghost use Rattle.std.specs.Prelude.{◌≡◌, map, IfOk};
ghost use Rattle.recipe.specs.declared.head.Spot.TheVariants.{Statements as InBlock};
ghost use Rattle.certifier.specs.Walks.{Bare, ForkJudged, StatementJudged, StatementsJudged, fork_count};

use crate::access::access_fault;
use crate::effect::Effect;
use crate::family::family_fault;
use crate::refusal::{Location, Refusal};
use crate::strand::{Instance, read_children};
use recipe::{Fork, Outline, Recipe, Site, Spot, read_outline, read_record, read_statement};
use std::alloc::{AllocError, Global};
use theory::Theory;

// How many children a fork has: a part of it, and no conversion.
fn count_children(fork: Fork) -> u8
    ensures { result ≡ fork_count fork }
{
    match fork {
        Fork::Cobegin(count) | Fork::Foreach(count) => count,
    }
}

// What the walk over the statements of a strand goes by: the recipe, the cells that it lists, the effects
// of the strand's block, the strand, and the heap for its children.
pub(crate) struct Certifying<'a, T: Theory> {
    pub(crate) recipe: &'a Recipe<'a>,
    pub(crate) cells: &'a [T::Cell],
    pub(crate) own: &'a [Effect<T::Region>],
    pub(crate) strand: Instance,
    pub(crate) heap: Global,
}

impl<T: Theory> Certifying<'_, T> {
    // The first fault of a fork with so many children, of which the first has this number.
    fn fork_fault(&self, count: u8, child: usize) -> Result<Option<Refusal<T::Cell>>, AllocError>
        ensures { IfOk result (ForkJudged T.Theory.meaning self.now.recipe.now self.now.own.now count child) }
    {
        let children = read_children::<T>(self.recipe, count, child, self.heap)?;
        Ok(family_fault::<T>(self.own, &children))
    }

    // The first fault of the statement at a place, which no When guards and whose first child has this
    // number.
    fn bare_fault(
        &self,
        spot: Spot,
        at: usize,
        child: usize,
    ) -> Result<Option<Refusal<T::Cell>>, AllocError>
        ensures { IfOk result (StatementJudged T.Theory.meaning self.now.recipe.now (map T.Theory.meaning.point self.now.cells.now) self.now.own.now self.now.strand.number self.now.strand.site self.now.strand.indices Bare spot at child) }
    {
        let site = Site {
            place: at,
            ..self.strand.site
        };
        let Ok((entry, _)) = read_record::<T>(self.recipe.file(), spot, site) else {
            return Ok(None);
        };
        if let Some((mode, pattern)) = entry.access() {
            let cell = T::only(pattern, &self.strand.indices);
            let here = Location {
                place: at,
                strand: self.strand.number,
            };
            return Ok(access_fault::<T>(self.cells, self.own, mode, here, &cell));
        }
        match entry.outline() {
            Outline::Fork(fork) => self.fork_fault(count_children(fork), child),
            _ => Ok(None),
        }
    }

    // The first fault of the statement at a place, whose first child has this number.
    fn statement_fault(
        &self,
        at: usize,
        child: usize,
    ) -> Result<Option<Refusal<T::Cell>>, AllocError>
        ensures { IfOk result (StatementJudged T.Theory.meaning self.now.recipe.now (map T.Theory.meaning.point self.now.cells.now) self.now.own.now self.now.strand.number self.now.strand.site self.now.strand.indices (λ _. Unit {0}) InBlock at child) }
    {
        let site = Site {
            place: at,
            ..self.strand.site
        };
        let Ok((outline, end)) = read_outline::<T>(self.recipe.file(), Spot::Statements, site)
        else {
            return Ok(None);
        };
        match outline {
            Outline::When => self.bare_fault(Spot::Guarded, end, child),
            _ => self.bare_fault(Spot::Statements, at, child),
        }
    }

    // The first fault of the statements from a place on, up to the End of the block.
    pub(crate) fn statements_fault(
        &self,
        place: usize,
    ) -> Result<Option<Refusal<T::Cell>>, AllocError>
        ensures { IfOk result (StatementsJudged T.Theory.meaning self.now.recipe.now (map T.Theory.meaning.point self.now.cells.now) self.now.own.now self.now.strand.number self.now.strand.site self.now.strand.indices place) }
    {
        let file = self.recipe.file();
        let site = self.strand.site;
        let mut at = place;
        let mut child = self.strand.number.saturating_add(1);
        while let Ok((Some(strands), end)) = read_statement::<T>(file, Site { place: at, ..site }) {
            if let Some(refusal) = self.statement_fault(at, child)? {
                return Ok(Some(refusal));
            }
            child = child.saturating_add(strands as usize);
            at = end;
        }
        Ok(None)
    }
}
