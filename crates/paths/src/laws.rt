ghost use Rattle.paths.specs.PathLaws.{PathLaws};
ghost use Rattle.paths.specs.WorkedPaths.{WorkedPaths};

/// What holds of the regions of paths: each read one fits its types, a shown cell has at most 22
/// keys, and a refused inclusion has a cell to show for it.
pub fn path_laws()
    ensures { PathLaws }
{}

/// Worked examples of membership and sharing.
pub fn worked_paths()
    ensures { WorkedPaths }
{}
