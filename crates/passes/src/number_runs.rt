//! Laws of numbering.
ghost use Rattle.passes.specs.NumberRuns.{NumberingKeepsRuns};

/// The numbered tree has the run of the tree, from all contents, and for every number of points.
pub fn numbering_keeps_runs()
    ensures { NumberingKeepsRuns }
{}
