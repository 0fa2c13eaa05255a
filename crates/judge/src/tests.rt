use crate::{Line, judge};
use std::alloc::Global;
use std::process::Abort;
use std::test::Fail;

const UNKNOWN: &str = "refused 20 at 0 strand 0";

const TOO_LONG: &str = "refused 1 at 0 strand 0";

const NO_KIND: &str = "refused 2 at 0 strand 0";

const SPARE: &str = "refused 8 at 1 strand 0";

// This line is said of an input.
fn says_of(rt: &impl Abort, heap: Global, input: &[u8], line: &str) -> Result<(), Fail> {
    let said = Line(judge(input)).to_string(heap)?;
    assert!(rt; said.as_str() == line);
    Ok(())
}

// This line is said of a theory byte and a file: an End, and as many zeros as make up the
// length.
fn says(rt: &impl Abort, heap: Global, theory: u8, length: usize, line: &str) -> Result<(), Fail> {
    let mut input = vec![in heap; theory]?;
    if length > 0 {
        input.push(0x3F)?;
    }
    for _ in 1..length {
        input.push(0)?;
    }
    says_of(rt, heap, &input, line)
}

#[test]
fn theories_are_1_to_4(rt: HostRuntime) -> Result<(), Fail> {
    let heap = rt.alloc();
    says_of(&rt, heap, &[], UNKNOWN)?;
    for theory in [0, 5, 255] {
        says(&rt, heap, theory, 0, UNKNOWN)?;
        says(&rt, heap, theory, 16_385, UNKNOWN)?;
    }
    for theory in 1..5 {
        says(&rt, heap, theory, 0, NO_KIND)?;
    }
    Ok(())
}

#[test]
fn files_have_at_most_16384_bytes(rt: HostRuntime) -> Result<(), Fail> {
    let heap = rt.alloc();
    for theory in 1..5 {
        says(&rt, heap, theory, 16_384, SPARE)?;
        says(&rt, heap, theory, 16_385, TOO_LONG)?;
    }
    Ok(())
}
