// Reads a theory byte and a recipe from standard input and prints one line: what is said of it.
#![tactic(auto)]

use judge::{LONGEST_INPUT, Line, judge};
use std::io::Read;

fn run(rt: &HostRuntime) -> anyhow::Result<()> {
    let mut input = Vec::new(rt.alloc());
    rt.stdin().take(LONGEST_INPUT).read_to_end(&mut input)?;
    let line = Line(judge(&input));
    println!(rt; "{line}")?;
    Ok(())
}

fn main(rt: HostRuntime) -> anyhow::Result<()> {
    run(&rt)
}
