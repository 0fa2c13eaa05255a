// The worked examples of the definitions, as one list.
#![tactic(auto)]

ghost use Rattle.worked.specs.Examples.{Examples};

use paths::worked_paths;
use recipe::recipe_laws;
use sections::{Sections, worked_sections};

/// The worked examples, computed of the definitions: paths, sections, and a recipe file.
pub fn worked_examples()
    ensures { Examples }
{
    worked_paths();
    worked_sections();
    recipe_laws::<Sections>();
}
