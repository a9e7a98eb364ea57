//! Laws of the operations of trees that are numbered and converted.
ghost use Rattle.program_sizes.specs.ConvertedOperations.{NumberedOperationsAreFewer, ConvertedOperationsAreBounded};

/// Numbering leaves a tree no more operations, and the conversion of its forks no more to add.
pub fn numbered_operations_are_fewer()
    ensures { NumberedOperationsAreFewer }
{}

/// Conversion adds to the operations of a tree no more than is counted of its forks.
pub fn converted_operations_are_bounded()
    ensures { ConvertedOperationsAreBounded }
{}
