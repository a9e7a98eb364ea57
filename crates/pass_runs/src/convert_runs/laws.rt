//! Laws of conversion.
ghost use Rattle.pass_runs.specs.ConvertRuns.Forks.{ForksAreMerged, LoopsAreOverlapped};
ghost use Rattle.pass_runs.specs.ConvertRuns.{TreesKeepRuns};

/// The converted tree has the run of the tree without the points of blocks that are merged, where forks that are merged keep what blocks do.
pub fn trees_keep_runs()
    ensures { TreesKeepRuns }
{}

/// Blocks with convertible forks between them become one block.
pub fn forks_are_merged()
    ensures { ForksAreMerged }
{}

/// Eligible loops of the form that lowering gives are overlapped.
pub fn loops_are_overlapped()
    ensures { LoopsAreOverlapped }
{}
