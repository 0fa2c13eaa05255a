ghost use Rattle.recipe.specs.RecipeLaws.{RecipeLaws};

use theory::Theory;

/// A record is read exactly where it may stand and is laid byte by byte. The files that read are exactly
/// the well-formed ones, so a file is one recipe at most. What holds of each: it keeps the limits, its
/// cells are those that its first Cell records name, in their order, none is listed twice, and the places
/// of the records of its root rise within the file.
pub fn recipe_laws<T: Theory>()
    ensures { RecipeLaws T.Theory.meaning }
{}
