ghost use Rattle.rpl.specs.Exact.{Exact};

/// The answers are exact for every path and every cell.
pub fn answers_exact()
    ensures { Exact }
{}
