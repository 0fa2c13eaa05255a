/// A record of a strand.
#[derive(Clone, Copy, Debug, PartialEq, Eq)]
pub struct Location {
    pub place: usize,
    pub strand: usize,
}

/// Why a recipe is not certified.
#[derive(Drop)]
pub enum Refusal<C> {
    /// The theory does not read the recipe.
    OtherTheory,
    /// The cell of an access is not listed.
    Unlisted(Location),
    /// No effect of the strand's block covers an access.
    Uncovered(Location),
    /// No effect of a fork's block covers an effect of a child.
    Exceeding(Location),
    /// Two effects of two children of one fork interfere: both have the cell.
    Interfering(Location, Location, C),
}
