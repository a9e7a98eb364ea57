//! Laws of what trees name.
ghost use Rattle.valid_trees.specs.WholeTrees.{NumberedIsThere, ConvertedIsThere, LoweredIsThere, ProgramIsThere};

/// A numbered tree names only variables and memories that are there, where the tree does.
pub fn numbered_is_there()
    ensures { NumberedIsThere }
{}

/// A converted tree names only variables and memories that are there, where the tree does.
pub fn converted_is_there()
    ensures { ConvertedIsThere }
{}

/// A lowered tree names only variables and memories that are there, where the expressions name arrays that are there.
pub fn lowered_is_there()
    ensures { LoweredIsThere }
{}

/// The converted tree of the numbered tree of such pieces names only variables and memories that are there.
pub fn program_is_there()
    ensures { ProgramIsThere }
{}
