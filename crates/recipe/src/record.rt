ghost use Rattle.std.specs.Prelude.{◌≡◌};
ghost use Rattle.recipe.specs.Rec.{access_made, cell_pattern, effect_stated};
ghost use Rattle.recipe.specs.Said.{said, viewed, viewed_with};

/// A pattern, with its bytes in the file.
#[derive(Drop)]
pub struct Pattern<'a, P> {
    pub bytes: &'a [u8],
    pub pattern: P,
}

/// What an effect says of its region.
#[derive(Clone, Copy, Debug, PartialEq, Eq, PartialOrd, Ord)]
pub enum Mode {
    Reads,
    Writes,
}

/// A statement that does its work in one step.
#[derive(Drop)]
pub enum Operation<'a, P> {
    /// The register takes the value of the cell.
    Load(u8, Pattern<'a, P>),
    /// The cell takes the value of the register.
    Store(u8, Pattern<'a, P>),
    /// The register takes the value.
    Set(u8, u32),
    /// Target and source: the target takes the sum.
    Add(u8, u8),
    /// The register takes the index of the hole.
    Index(u8, u8),
    /// Target, left and right: the target takes 1 where left is below right, else 0.
    Less(u8, u8, u8),
}

/// A statement that splits the work: so many branches, or one block so many times.
#[derive(Clone, Copy, Debug, PartialEq, Eq)]
pub enum Fork {
    Cobegin(u8),
    Foreach(u8),
}

/// A record of a file.
#[derive(Drop)]
pub enum Record<'a, P> {
    Cell(Pattern<'a, P>),
    Effect(Mode, Pattern<'a, P>),
    Operation(Operation<'a, P>),
    /// The statement after it is passed over where the register is 0.
    When(u8),
    Fork(Fork),
    End,
}

impl<P> Record<'_, P> {
    /// The pattern of a Cell.
    pub fn cell_pattern(&self) -> Option<&P>
        ensures { viewed result ≡ cell_pattern (said self.now) }
    {
        match self {
            Record::Cell(pattern) => Some(&pattern.pattern),
            _ => None,
        }
    }

    /// What an effect states, and of which pattern.
    pub fn effect(&self) -> Option<(Mode, &P)>
        ensures { viewed_with result ≡ effect_stated (said self.now) }
    {
        match self {
            Record::Effect(mode, pattern) => Some((*mode, &pattern.pattern)),
            _ => None,
        }
    }

    /// What an access does to the cell of its pattern: a Load reads it, and a Store writes it.
    pub fn access(&self) -> Option<(Mode, &P)>
        ensures { viewed_with result ≡ access_made (said self.now) }
    {
        match self {
            Record::Operation(Operation::Load(_, pattern)) => Some((Mode::Reads, &pattern.pattern)),
            Record::Operation(Operation::Store(_, pattern)) => Some((
                Mode::Writes,
                &pattern.pattern,
            )),
            _ => None,
        }
    }
}
