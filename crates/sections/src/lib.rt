// Sections: regions whose cells are numbers at a fixed distance from each other.
#![tactic(auto)]

mod compare;
mod first;
mod laws;
mod pattern;
mod section;
mod sections;

pub use laws::{section_laws, worked_sections};
pub use pattern::{Hole, SectionPattern};
pub use section::Section;
pub use sections::Sections;
