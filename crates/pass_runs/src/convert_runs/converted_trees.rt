//! Laws of numbered and converted trees.
ghost use Rattle.pass_runs.specs.ConvertRuns.ConvertedTrees.{NumberedIsWellFormed, ConvertedIsWellFormed, NumberedIsTyped, NumberedHoldsForks, ApartPointsAreKept, NumberedKeepsPoints};

/// In a numbered tree each block is left as what stands behind it asks, where it is so in the tree.
pub fn numbered_is_well_formed()
    ensures { NumberedIsWellFormed }
{}

/// In a converted tree each block is left as what stands behind it asks, where it is so in the tree.
pub fn converted_is_well_formed()
    ensures { ConvertedIsWellFormed }
{}

/// In a numbered tree operands are there and have their widths, where they have them in the tree.
pub fn numbered_is_typed()
    ensures { NumberedIsTyped }
{}

/// A numbered tree has the form of blocks that are to become one, where the tree has it.
pub fn numbered_holds_forks()
    ensures { NumberedHoldsForks }
{}

/// Where no two points of a tree are the same, those of blocks that stay are kept and the others dropped.
pub fn apart_points_are_kept()
    ensures { ApartPointsAreKept }
{}

/// A numbered tree has the points of the tree.
pub fn numbered_keeps_points()
    ensures { NumberedKeepsPoints }
{}
