ghost use Rattle.std.specs.Prelude.{◌<◌};

/// The hole of a section: the foreach that moves the section, and by how much for each index.
#[derive(Clone, Copy, Debug, PartialEq, Eq)]
pub struct Hole {
    /// 1 is the outermost foreach.
    pub number: u8,
    pub scale: u8,
}

/// A section that may have a hole: its first cell is `offset + scale × index` of the hole, or `offset`
/// alone where there is none.
#[derive(Clone, Copy, Debug, PartialEq, Eq)]
pub struct SectionPattern {
    pub hole: Option<Hole>,
    pub offset: u16,
    pub step: u16,
    pub count: u16,
    ghost moves: { 0 < step },
    ghost some: { 0 < count },
}
