//! Laws of operators on words.
ghost use Rattle.pass_runs.specs.LowerRuns.OperatorWords.Words.{ConversionsAgree, OperatorsAgree};

/// Conversions between the types of C give on words what they give on numbers.
pub fn conversions_agree()
    ensures { ConversionsAgree }
{}

/// Where an operator of C gives a number, its operation gives the number's word, and is defined.
pub fn operators_agree()
    ensures { OperatorsAgree }
{}
