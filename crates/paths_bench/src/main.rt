// Puts the worst questions about paths many thousand times, and prints how often the answer is yes.
#![tactic(auto)]

use rpl::{Element, Key, Part, has, share, within};

const ROUNDS: u32 = 50000;

const STAR: Element = Element::Star;

const A: Element = Element::One(Part::Name(0));

const B: Element = Element::One(Part::Name(1));

// Stars between parts: as many ways to match as there can be.
fn woven(name: u16, last: u32) -> [Element; 12] {
    let named = Element::One(Part::Name(name));
    let any = Element::One(Part::AnyIndex);
    let index = Element::One(Part::Index(last));
    [
        STAR, named, STAR, any, STAR, named, STAR, any, STAR, named, STAR, index,
    ]
}

// The number of rounds in which the answer is yes.
fn count<F: Fn(u32) -> bool>(answer: F) -> usize
    requires { F.IsAlwaysCallable answer }
{
    (0..ROUNDS).filter(|round| answer(*round)).count()
}

// Paths that share a cell, and paths that differ in their last element alone.
fn shared(last: u32) -> usize {
    count(|round| share(&woven(1, round % 2), &woven(2, last)).is_some())
}

// Eleven stars and a name against twelve elements.
fn included(last: Element) -> usize {
    let stars = [
        STAR, STAR, STAR, STAR, STAR, STAR, STAR, STAR, STAR, STAR, STAR, A,
    ];
    let names = [A, A, A, A, A, A, A, A, A, A, A, last];
    count(|_| within(&names, &stars))
}

// Six stars between names against a cell of 22 names.
fn matched(last: Key) -> usize {
    let path = [STAR, A, STAR, A, STAR, A, STAR, A, STAR, A, STAR, B];
    let mut cell = [Key::Named(0); 22];
    cell[21] = last;
    count(|_| has(&path, &cell))
}

fn main(rt: HostRuntime) -> Result<(), std::io::Error> {
    println!(rt; "share {} {}", shared(0), shared(7))?;
    println!(rt; "within {} {}", included(A), included(B))?;
    println!(rt; "has {} {}", matched(Key::Named(1)), matched(Key::Named(0)))?;
    Ok(())
}
