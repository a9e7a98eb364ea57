//! Laws of operators.
ghost use Rattle.c_meaning.specs.OperatorResults.{BinaryResultsFit, UnaryResultsFit};

/// What `+`, `-`, `~` and `!` give is a number of the type of the result.
pub fn unary_results_fit()
    ensures { UnaryResultsFit }
{}

/// So is what operators of two operands give, where they are defined.
pub fn binary_results_fit()
    ensures { BinaryResultsFit }
{}
