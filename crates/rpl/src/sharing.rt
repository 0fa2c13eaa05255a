ghost use Rattle.std.specs.Prelude.{◌≡◌, ◌≤◌, length};
ghost use Rattle.rpl.specs.Cell.{told};
ghost use Rattle.rpl.specs.Lists.{rest};
ghost use Rattle.rpl.specs.Sharing.{AtMost, common, common_key, common_nil, in_front};
ghost use Rattle.rpl.specs.Table.{RowOf, TableOf, meeting_bit};

use crate::cell::Cell;
use crate::element::{Element, Key, Part};
use crate::singles::a_key;

// Each function states the bounds on its paths: a type that holds them would be made anew at each rest.

// Whether a path shares a cell with each suffix of another, under the suffix's length.
type Row = [bool; 13];

// The row of each suffix of a path, under the suffix's length.
type Table = [Row; 13];

// A key that both parts stand for.
fn shared_key(a: &Part, b: &Part) -> Option<Key>
    ensures { result ≡ common_key a.now b.now }
{
    match (a, b) {
        (Part::Name(a), Part::Name(b)) if *a == *b => Some(Key::Named(*a)),
        (Part::Index(a), Part::Index(b)) if *a == *b => Some(Key::Indexed(*a)),
        (Part::Index(a), Part::AnyIndex) => Some(Key::Indexed(*a)),
        (Part::AnyIndex, Part::Index(b)) => Some(Key::Indexed(*b)),
        (Part::AnyIndex, Part::AnyIndex) => Some(Key::Indexed(0)),
        _ => None,
    }
}

// Whether two paths with these first elements share a cell, from whether they do without the first
// element of the one, of the other, and of both.
fn meet(a: &Element, b: &Element, left: bool, right: bool, both: bool) -> bool
    ensures { result ≡ meeting_bit a.now b.now left right both }
{
    match (a, b) {
        (Element::One(a), Element::One(b)) => shared_key(a, b).is_some() && both,
        (Element::Star, _) => left || right,
        (Element::One(_), Element::Star) => left || right,
    }
}

// The row of the empty path.
#[tactic(auto, using(crate::proofs::Bits::row_steps))]
fn first_row(q: &[Element], row: &mut Row)
    requires { length q.now ≤ 12 }
    ensures { RowOf common_nil row.new q.now }
{
    match q {
        [] => {
            row[0] = true;
        }
        [Element::Star, others @ ..] => {
            first_row(others, row);
            row[q.len()] = row[q.len() - 1];
        }
        [Element::One(_), others @ ..] => {
            first_row(others, row);
            row[q.len()] = false;
        }
    }
}

// The row of a path, in the place of that of its rest.
#[tactic(auto, using(crate::proofs::Bits::row_steps))]
fn next_row(p: &[Element], q: &[Element], row: &mut Row)
    requires some { 1 ≤ length p.now }
    requires few { length q.now ≤ 12 }
    requires before { RowOf (common (rest p.now)) row.old q.now }
    ensures { RowOf (common p.now) row.new q.now }
{
    match q {
        [] => match p[0] {
            Element::Star => {}
            Element::One(_) => {
                row[0] = false;
            }
        },
        [b, others @ ..] => {
            let left = row[q.len()];
            let both = row[q.len() - 1];
            next_row(p, others, row);
            row[q.len()] = meet(&p[0], b, left, row[q.len() - 1], both);
        }
    }
}

// The rows of a path and its suffixes.
#[tactic(auto, using(crate::proofs::Bits::table_steps))]
fn fill_table(p: &[Element], q: &[Element], table: &mut Table)
    requires few_rows { length p.now ≤ 12 }
    requires few { length q.now ≤ 12 }
    ensures { TableOf q.now table.new p.now }
{
    match p {
        [] => {
            let mut row = table[0];
            first_row(q, &mut row);
            table[0] = row;
        }
        [_, rest @ ..] => {
            fill_table(rest, q, table);
            let mut row = table[rest.len()];
            next_row(p, q, &mut row);
            table[p.len()] = row;
        }
    }
}

// The answer with one more key in front.
fn in_front(key: Key, answer: Option<Cell>) -> Option<Cell>
    requires { AtMost 21 (told answer) }
    ensures { told result ≡ in_front key (told answer) }
{
    let mut cell = answer?;
    cell.push_front(key);
    Some(cell)
}

// The cell that the paths share: where the table has none, nothing is looked for.
#[tactic(auto, using(crate::proofs::Bits::found_steps))]
fn found(p: &[Element], q: &[Element], table: &Table) -> Option<Cell>
    requires few_rows { length p.now ≤ 12 }
    requires few { length q.now ≤ 12 }
    requires filled { TableOf q.now table.now p.now }
    ensures { told result ≡ common p.now q.now }
{
    if !table[p.len()][q.len()] {
        return None;
    }
    match (p, q) {
        ([], _) => Some(Cell::new()),
        ([Element::Star, rest @ ..], _) if table[rest.len()][q.len()] => found(rest, q, table),
        ([Element::Star, ..], [Element::Star, others @ ..]) => found(p, others, table),
        ([Element::Star, ..], [Element::One(b), others @ ..]) => {
            in_front(a_key(b), found(p, others, table))
        }
        ([Element::One(_), ..], [Element::Star, others @ ..]) if table[p.len()][others.len()] => {
            found(p, others, table)
        }
        ([Element::One(a), rest @ ..], [Element::Star, ..]) => {
            in_front(a_key(a), found(rest, q, table))
        }
        ([Element::One(a), rest @ ..], [Element::One(b), others @ ..]) => {
            in_front(shared_key(a, b)?, found(rest, others, table))
        }
        (_, []) => None,
    }
}

/// A cell of both paths, or none where they share none.
pub fn share(a: &[Element], b: &[Element]) -> Option<Cell>
    requires few_a { length a.now ≤ 12 }
    requires few_b { length b.now ≤ 12 }
    ensures { told result ≡ common a.now b.now }
{
    let mut table = [[false; 13]; 13];
    fill_table(a, b, &mut table);
    found(a, b, &table)
}
