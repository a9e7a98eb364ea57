//! Laws of conversion.
ghost use Rattle.valid_trees.specs.ValidConversion.{ConvertedTreesAreValid};

/// The converted tree of a valid tree is valid, where the loops that are overlapped have results of their own for what they set.
pub fn converted_trees_are_valid()
    ensures { ConvertedTreesAreValid }
{}
