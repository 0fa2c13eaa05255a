ghost use Rattle.std.specs.Prelude.{◌≡◌};
ghost use Rattle.theory.specs.Meaning.{index_of};

/// How many foreach may enclose a pattern, and so how many holes it may have.
pub const HOLES: u8 = 3;

/// The indices of the enclosing foreach, the outermost first, 0 for a missing one.
pub type Indices = [u8; 3];

/// The indices where no foreach encloses.
pub const NO_INDICES: Indices = [0, 0, 0];

/// The index that fills a hole: hole 1 is the outermost foreach. A number that no foreach has gives 0.
pub fn index_of(indices: &Indices, hole: u8) -> u8
    ensures { result ≡ index_of indices.now hole }
{
    match hole {
        1 => indices[0],
        2 => indices[1],
        3 => indices[2],
        _ => 0,
    }
}
