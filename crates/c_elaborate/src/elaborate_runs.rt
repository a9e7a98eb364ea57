//! Laws of elaboration.
ghost use Rattle.c_elaborate.specs.Laws.{ElaborationKeepsRuns, GrammarDeclaresInBlocks, ResolvedProgramsKeepRuns};

/// The run of the core program that a program becomes is the run of the program, where each name is declared where it is used, and as what.
pub fn resolved_programs_keep_runs()
    ensures { ResolvedProgramsKeepRuns }
{}

/// The run of the core program that a program without faults becomes is the run of the program, for all inputs, and for every number of points.
pub fn elaboration_keeps_runs()
    ensures { ElaborationKeepsRuns }
{}

/// In a program that the grammar derives, no declaration is the body of an `if`, of a loop or of a label.
pub fn grammar_declares_in_blocks()
    ensures { GrammarDeclaresInBlocks }
{}
