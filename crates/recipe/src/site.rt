/// Where a block stands, how many more forks may be nested in it, and how many foreach enclose it.
#[derive(Clone, Copy, Debug, PartialEq, Eq)]
pub struct Site {
    pub place: usize,
    pub forks: u8,
    pub depth: u8,
}
