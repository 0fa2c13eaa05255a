ghost use Rattle.std.specs.Prelude.{◌≡◌};
ghost use Rattle.paths.specs.Kinds.{kind_of};

use theory::Flaw;

/// What a record of a path is, by its kind byte.
#[derive(Clone, Copy, Debug, PartialEq, Eq)]
pub enum Kind {
    End,
    Name,
    Index,
    Star,
    AnyIndex,
    FilledIndex,
}

impl TryFrom<u8> for Kind {
    type Error = Flaw;

    ghost try_from_gives = { λ byte kind. kind ≡ kind_of byte };

    fn try_from(byte: u8) -> Result<Kind, Flaw> {
        match byte {
            0x40 => Ok(Kind::End),
            0x41 => Ok(Kind::Name),
            0x42 => Ok(Kind::Index),
            0x43 => Ok(Kind::Star),
            0x44 => Ok(Kind::AnyIndex),
            0x45 => Ok(Kind::FilledIndex),
            _ => Err(Flaw::Kind),
        }
    }
}
