//! Laws of fusing.
ghost use Rattle.op_chain.specs.Laws.{FusingKeepsRuns, FusingLeavesNoPair, FusedStandForPairs};
ghost use Rattle.op_chain.specs.Reaching.{ReachingIsReached};

/// Fusing keeps the run of a program whose operands name earlier operations, from all contents and for every number of points, unless the run is undefined.
pub fn fusing_keeps_runs()
    ensures { FusingKeepsRuns }
{}

/// No fusable pair is left in any body.
pub fn fusing_leaves_no_pair()
    ensures { FusingLeavesNoPair }
{}

/// Each fused operation was one before, or replaces a fusable pair.
pub fn fused_stand_for_pairs()
    ensures { FusedStandForPairs }
{}

/// What is found to reach a subscript does so directly, through operations or through variables, and nothing else does.
pub fn reaching_is_reached()
    ensures { ReachingIsReached }
{}
