// Paths as a region theory: patterns, their reading and filling, and the theory's answers.
#![tactic(auto)]

mod filling;
mod kind;
mod laws;
mod paths_theory;
mod pattern;
mod reading;
mod region;

pub use laws::{path_laws, worked_paths};
pub use paths_theory::Paths;
pub use pattern::{FilledIndex, Pattern, Piece};
pub use region::Region;
