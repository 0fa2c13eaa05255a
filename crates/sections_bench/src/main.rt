// Shares pairs of sections of tens of thousands of cells whose steps are large and coprime, and counts
// the pairs with a shared cell. Comparing cell with cell would take hours.
#![tactic(auto)]

use sections::{Section, Sections};
use std::io;
use theory::Theory;

const STEPS: [u16; 4] = [65_521, 65_519, 65_497, 65_479];

// As in the tests of sections: a crate for a few lines would be no plainer.
fn section(first: u32, step: u16, count: u16) -> Section {
    Section {
        first,
        step: step.max(1),
        count: count.max(1),
    }
}

// How many of the 1,000 sections of one step, their firsts a little apart, share a cell with that of
// the other step from 0 on.
fn shared(one: u16, other: u16) -> usize {
    let fixed = section(0, one, 65_535);
    (0..1_000)
        .filter(|first| Sections::share(&fixed, &section(*first, other, 33_000)).is_some())
        .count()
}

fn main(rt: HostRuntime) -> io::Result<()> {
    let mut pairs = 0usize;
    let mut met = 0usize;
    for one in STEPS {
        for other in STEPS {
            pairs = pairs.saturating_add(1_000);
            met = met.saturating_add(shared(one, other));
        }
    }
    println!(rt; "{met} of {pairs} pairs share a cell")
}
