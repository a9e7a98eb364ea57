//! Laws of flat programs.
ghost use Rattle.timed_pieces.specs.FlatRuns.{FlatProgramsKeepRuns};

/// The flat program that is laid out from the converted, numbered and lowered tree of pieces has their run without the points that have no nodes.
pub fn flat_programs_keep_runs()
    ensures { FlatProgramsKeepRuns }
{}
