// The strands of a recipe: from a strand's number to its block and its indices, and from a fork to its
// children.
#![tactic(auto)]

mod children;
mod finding;
mod laws;

pub use children::child;
pub use finding::locate;
pub use laws::strand_laws;
pub use recipe::Site;
