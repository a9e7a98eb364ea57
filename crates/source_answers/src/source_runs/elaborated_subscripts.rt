//! Laws of the subscripts in elaborated programs.
ghost use Rattle.source_answers.specs.SourceRuns.ElaboratedSubscripts.{CheckedSubscriptsFit, ElaboratedSubscriptsFit};

/// Each element of the core program of a program without faults has as many subscripts as its array has dimensions.
pub fn elaborated_subscripts_fit()
    ensures { ElaboratedSubscriptsFit }
{}

/// So has each element of the pieces of such a program.
pub fn checked_subscripts_fit()
    ensures { CheckedSubscriptsFit }
{}
