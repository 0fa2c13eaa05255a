// Region path lists: the cells that a path stands for, and the answers about them.
#![tactic(auto)]

mod answers;
mod cell;
mod element;
mod exact;
mod matching;
mod sharing;
mod short_list;
mod singles;

pub use answers::{has, same, within};
pub use cell::Cell;
pub use element::{Element, Key, Part};
pub use exact::answers_exact;
pub use sharing::share;
pub use short_list::{Blank, ShortList};
pub use singles::{only, single};
