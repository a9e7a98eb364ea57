//! Laws of the cycles of sources.
ghost use Rattle.source_answers.specs.SourceCycles.{SourceFormulaCounts};

/// Where the run in C of a source without faults ends, the clocked run of each program that is laid out and scheduled from its pieces ends as that does, after exactly the cycles that the formula of the report gives for the points that the run in C passes, and no sooner; where the run in C goes on for ever, so does the clocked one.
pub fn source_formula_counts()
    ensures { SourceFormulaCounts }
{}
