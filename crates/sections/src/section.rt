ghost use Rattle.std.specs.Prelude.{◌<◌};

/// The cells `first + step × t` for `t` from 0 to `count - 1`.
#[derive(Clone, Copy, Debug, PartialEq, Eq)]
pub struct Section {
    pub first: u32,
    pub step: u16,
    pub count: u16,
    ghost moves: { 0 < step },
    ghost some: { 0 < count },
}
