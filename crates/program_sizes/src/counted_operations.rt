//! Laws of the operations that are counted.
ghost use Rattle.program_sizes.specs.CountedOperations.{LoweredOperationsAreCounted, CountedOperationsAreFew};

/// The blocks of pieces have no more operations than their expressions and pieces count.
pub fn lowered_operations_are_counted()
    ensures { LoweredOperationsAreCounted }
{}

/// Pieces of a program that is not too heavy count few operations.
pub fn counted_operations_are_few()
    ensures { CountedOperationsAreFew }
{}
