ghost use Rattle.std.specs.Prelude.{◌≡◌};
ghost use Rattle.rpl.specs.Greedy.{has_cell};
ghost use Rattle.rpl.specs.Inclusion.{within_path};
ghost use Rattle.rpl.specs.Paths.{same_cell};

use crate::element::{Element, Key};
use crate::matching::matches;

/// Whether two cells are the same.
pub fn same(a: &[Key], b: &[Key]) -> bool
    ensures { result ≡ same_cell a.now b.now }
{
    a == b
}

/// Whether the path has the cell.
pub fn has(path: &[Element], cell: &[Key]) -> bool
    ensures { result ≡ has_cell path.now cell.now }
{
    matches(path, cell)
}

/// Whether every cell of `a` is one of `b`.
pub fn within(a: &[Element], b: &[Element]) -> bool
    ensures { result ≡ within_path a.now b.now }
{
    matches(b, a)
}
