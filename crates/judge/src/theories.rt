/// The theory that a recipe is written in.
#[derive(Clone, Copy, Debug, PartialEq, Eq)]
pub enum TheoryName {
    Paths,
    Sections,
    PathsSections,
    SectionsSections,
}

/// A byte that stands for no theory.
#[derive(Clone, Copy, Debug, PartialEq, Eq)]
pub struct UnknownTheory(pub u8);

/// The theory that a byte stands for: 1 to 4, and no other byte.
impl TryFrom<u8> for TheoryName {
    type Error = UnknownTheory;

    ghost use Rattle.judge.specs.Named.{Names};

    ghost try_from_gives = { Names };

    fn try_from(byte: u8) -> Result<TheoryName, UnknownTheory> {
        match byte {
            1 => Ok(TheoryName::Paths),
            2 => Ok(TheoryName::Sections),
            3 => Ok(TheoryName::PathsSections),
            4 => Ok(TheoryName::SectionsSections),
            _ => Err(UnknownTheory(byte)),
        }
    }
}
