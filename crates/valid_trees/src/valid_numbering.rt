//! Laws of numbering.
ghost use Rattle.valid_trees.specs.ValidNumbering.{NumberedTreesAreValid};

/// The numbered tree of a valid tree is valid.
pub fn numbered_trees_are_valid()
    ensures { NumberedTreesAreValid }
{}
