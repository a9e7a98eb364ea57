//! Laws of the answers to starts.
ghost use Rattle.cosim_levels.specs.Laws.{StartsHaveOneAnswer, StartsAreAnswered};

/// A start has no two answers, since a run that may pass more points ends as before.
pub fn starts_have_one_answer()
    ensures { StartsHaveOneAnswer }
{}

/// Each number of points either leads to the answer of a start or leaves its run waiting, and a run that waits at every number has the answer without end. So no start is without an answer; which of the two it is for all numbers together cannot be computed.
pub fn starts_are_answered()
    ensures { StartsAreAnswered }
{}
