ghost use Rattle.std.specs.Prelude.{◌≡◌, ◌≤◌, length};
ghost use Rattle.rpl.specs.Sharing.{key_of};
ghost use Rattle.rpl.specs.Singles.{a_cell, single_element, single_path};

use crate::cell::Cell;
use crate::element::{Element, Key, Part};

// A key that the part stands for.
pub(crate) fn a_key(part: &Part) -> Key
    ensures { result ≡ key_of part.now }
{
    match part {
        Part::Name(name) => Key::Named(*name),
        Part::Index(index) => Key::Indexed(*index),
        Part::AnyIndex => Key::Indexed(0),
    }
}

// Whether the element stands for just one key.
fn settled(element: &Element) -> bool
    ensures { result ≡ single_element element.now }
{
    match element {
        Element::Star => false,
        Element::One(Part::AnyIndex) => false,
        Element::One(_) => true,
    }
}

/// Whether the path has just one cell.
pub fn single(path: &[Element]) -> bool
    ensures { result ≡ single_path path.now }
{
    path.iter().all(settled)
}

/// A cell of the path: the only one where the path is single.
#[tactic(auto, using(crate::proofs::Steps::cell_one, crate::proofs::Steps::cell_star))]
pub fn only(path: &[Element]) -> Cell
    requires { length path.now ≤ 22 }
    ensures { result.items ≡ a_cell path.now }
{
    let mut cell = Cell::new();
    for element in path {
        if let Element::One(part) = element {
            cell.push(a_key(part));
        }
    }
    cell
}
