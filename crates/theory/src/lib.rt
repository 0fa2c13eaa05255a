// Region theories: what a theory answers, what its answers mean, and the product of any two.
#![tactic(auto)]

mod fault;
mod indices;
mod laws;
mod product;
mod theory;
mod told;

pub use fault::{Flaw, PatternFault};
pub use indices::{HOLES, Indices, NO_INDICES, index_of};
pub use laws::theory_laws;
pub use product::Product;
pub use theory::Theory;
pub use told::{Layer, Told};
