//! Laws of lowered pieces.
ghost use Rattle.pass_runs.specs.LowerRuns.LoweredRuns.{LoweredKeepsRuns, ProgramsKeepRuns};

/// The tree of blocks that pieces are lowered to has their run without the points that have no blocks.
pub fn lowered_keeps_runs()
    ensures { LoweredKeepsRuns }
{}

/// A program is lowered to blocks that have its run, and that end with its result and its contents.
pub fn programs_keep_runs()
    ensures { ProgramsKeepRuns }
{}
