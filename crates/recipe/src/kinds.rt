ghost use Rattle.std.specs.Prelude.{◌≡◌};
ghost use Rattle.recipe.specs.Kinds.{body_length};

/// The kinds of records outside patterns.
#[derive(Clone, Copy, Debug, PartialEq, Eq)]
pub enum Kind {
    Cell,
    Reads,
    Writes,
    Load,
    Store,
    Set,
    Add,
    Index,
    When,
    Less,
    Cobegin,
    Foreach,
    End,
}

/// A byte that is no kind.
#[derive(Clone, Copy, Debug, PartialEq, Eq)]
pub struct UnknownKind;

/// The kind that a byte stands for.
impl TryFrom<u8> for Kind {
    type Error = UnknownKind;

    ghost use Rattle.std.specs.Prelude.{◌≡◌};
    ghost use Rattle.std.specs.Result.{result_ok};
    ghost use Rattle.recipe.specs.Kinds.{kind_of};

    ghost try_from_gives = { λ byte kind. result_ok kind ≡ kind_of byte };

    #[tactic(auto, unfolding(crate::specs::Kinds::kind_of))]
    fn try_from(byte: u8) -> Result<Kind, UnknownKind> {
        match byte {
            0x01 => Ok(Kind::Cell),
            0x10 => Ok(Kind::Reads),
            0x11 => Ok(Kind::Writes),
            0x20 => Ok(Kind::Load),
            0x21 => Ok(Kind::Store),
            0x22 => Ok(Kind::Set),
            0x23 => Ok(Kind::Add),
            0x24 => Ok(Kind::Index),
            0x25 => Ok(Kind::When),
            0x26 => Ok(Kind::Less),
            0x30 => Ok(Kind::Cobegin),
            0x31 => Ok(Kind::Foreach),
            0x3F => Ok(Kind::End),
            _ => Err(UnknownKind),
        }
    }
}

// From a kind byte to the length of its body, sixteen kind bytes to a line. A byte that is no kind has
// none.
#[rattlefmt::skip]
const BODY_LENGTHS: [u8; 73] = [
    0, 0, 0, 0, 0, 0, 0, 0, 0, 0, 0, 0, 0, 0, 0, 0, // 0x01 Cell
    0, 0, 0, 0, 0, 0, 0, 0, 0, 0, 0, 0, 0, 0, 0, 0, // 0x10 Reads, Writes
    1, 1, 5, 2, 2, 1, 3, 0, 0, 0, 0, 0, 0, 0, 0, 0, // 0x20 Load, Store, Set, Add, Index, When, Less
    1, 1, 0, 0, 0, 0, 0, 0, 0, 0, 0, 0, 0, 0, 0, 0, // 0x30 Cobegin, Foreach; 0x3F End
    0, 2, 4, 0, 0, 4, 0, 0, 8, // 0x40 end of a path, name, index, star, any index, filled index; 0x48 section
];

/// The length of the body of a record that begins with this byte.
pub fn body_length(byte: u8) -> u8
    ensures { result ≡ body_length byte }
{
    if byte as usize >= BODY_LENGTHS.len() {
        return 0;
    }
    BODY_LENGTHS[byte as usize]
}
