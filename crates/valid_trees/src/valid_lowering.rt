//! Laws of lowered trees that are valid.
ghost use Rattle.valid_trees.specs.ValidLowering.{LoweredIsValid, OperatorsAreProper};

/// The tree that pieces are lowered to is valid, where the expressions have the types of what they name and the pieces are proper.
pub fn lowered_is_valid()
    ensures { LoweredIsValid }
{}

/// The type that C gives an operator is one that it may have in proper pieces.
pub fn operators_are_proper()
    ensures { OperatorsAreProper }
{}
