//! Laws of the answers to starts.
ghost use Rattle.source_answers.specs.SourceDesigns.PlanAnswers.{SourcePlansAnswer};

/// What a source without faults answers to a start, after the cycles that the report's formula gives, the clocked run of its plan answers, from all contents with which a run may begin, wherever the run in C is defined.
pub fn source_plans_answer()
    ensures { SourcePlansAnswer }
{}
