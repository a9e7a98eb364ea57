//! Laws of expansion.
ghost use Rattle.expanded_programs.specs.Laws.{ExpansionKeepsRuns};

/// The pieces of a core program as elaboration makes it have the program's run, wherever that is defined, for all inputs that fit and every number of points.
pub fn expansion_keeps_runs()
    ensures { ExpansionKeepsRuns }
{}
