//! Laws of statements.
ghost use Rattle.expanded_programs.specs.Statements.{StatementsKeepRuns};

/// The pieces of statements without calls do what the statements do, wherever that is defined.
pub fn statements_keep_runs()
    ensures { StatementsKeepRuns }
{}
