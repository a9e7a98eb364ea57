//! Laws of the loops of expanded programs.
ghost use Rattle.source_answers.specs.EndedLoops.{ExpandedLoopsEnd};

/// Each loop of an expanded program ends at the End of the point at which its body begins.
pub fn expanded_loops_end()
    ensures { ExpandedLoopsEnd }
{}
