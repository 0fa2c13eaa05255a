// From the bytes that `verdict` is given to what it says of them.
#![tactic(auto)]

mod input;
mod judgement;
mod line;
mod refusal;
mod theories;

pub use input::{LONGEST_INPUT, judge, longest_input_is_enough};
pub use judgement::Judgement;
pub use line::Line;
pub use refusal::Refusal;
pub use theories::{TheoryName, UnknownTheory};

#[cfg(test)]
mod tests;
