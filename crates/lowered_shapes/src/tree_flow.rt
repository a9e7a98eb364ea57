//! Laws of the trees of a program, from the lowered one to the converted one.
ghost use Rattle.lowered_shapes.specs.TreeFlow.{ConversionKeepsRuns, ConvertedTreesAreWellFormed, StraightBecomesOne};

/// The converted tree has the run of the lowered one without the points of blocks that are merged.
pub fn conversion_keeps_runs()
    ensures { ConversionKeepsRuns }
{}

/// In the converted tree each block is left as what stands behind it asks, where the jumps of the pieces lead somewhere.
pub fn converted_trees_are_well_formed()
    ensures { ConvertedTreesAreWellFormed }
{}

/// Straight pieces become one block.
pub fn straight_becomes_one()
    ensures { StraightBecomesOne }
{}
