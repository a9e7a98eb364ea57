//! Laws of the contents of plans.
ghost use Rattle.source_answers.specs.SourceDesigns.PlanWords.{PlansBegin, PlansHold};

/// Contents with which a run of a plan may begin are words that begin with the same inputs, for the expanded program whose frame the plan has.
pub fn plans_begin()
    ensures { PlansBegin }
{}

/// Words that hold the elements of the host's arrays and what file scope keeps, for an expanded program, hold them for a plan that has its frame.
pub fn plans_hold()
    ensures { PlansHold }
{}
