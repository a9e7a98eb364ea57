//! Laws of numbering.
ghost use Rattle.passes.specs.DistinctOperations.{NumberedBlocksHaveNoTwins, NumberedTreesHaveNoTwins};

/// No two operations of a numbered block do the same, but for two that each make an out of a block in a loop that may be overlapped.
pub fn numbered_blocks_have_no_twins()
    ensures { NumberedBlocksHaveNoTwins }
{}

/// The same of each block of a numbered tree.
pub fn numbered_trees_have_no_twins()
    ensures { NumberedTreesHaveNoTwins }
{}
