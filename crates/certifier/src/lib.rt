// Certifying: whether the strands of a recipe keep to what they state, and never interfere.
#![tactic(auto)]

mod access;
mod effect;
mod family;
mod laws;
mod refusal;
mod statement;
mod strand;

pub use effect::Effect;
pub use laws::certifier_laws;
pub use refusal::{Location, Refusal};
