// Recipes: the records of a file, the reader, and the walk over blocks and statements.
#![tactic(auto)]

mod blocks;
mod cells;
mod extent;
mod fault;
mod head;
mod kinds;
mod laws;
mod outline;
mod read;
mod recipe;
mod record;
mod site;

pub use blocks::{read_block, read_effects, read_statement};
pub use cells::read_cell;
pub use extent::{Extent, counted};
pub use fault::Fault;
pub use head::{Spot, begins};
pub use kinds::{Kind, UnknownKind, body_length};
pub use laws::recipe_laws;
pub use outline::{Outline, read_outline};
pub use read::read_record;
pub use recipe::{LONGEST_FILE, MOST_FORKS, MOST_STRANDS, Recipe};
pub use record::{Fork, Mode, Operation, Pattern, Record};
pub use site::Site;
