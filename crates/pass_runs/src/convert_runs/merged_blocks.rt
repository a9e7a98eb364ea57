//! Laws of merged blocks.
ghost use Rattle.pass_runs.specs.ConvertRuns.MergedBlocks.{MergedBlocksAreKept, ConvertedTreesKeepRuns};

/// A fork whose branches are one block each, merged into the block before it, does what that block and the branch that is taken do.
pub fn merged_blocks_are_kept()
    ensures { MergedBlocksAreKept }
{}

/// The converted tree has the run of the tree without the points of blocks that are merged.
pub fn converted_trees_keep_runs()
    ensures { ConvertedTreesKeepRuns }
{}
