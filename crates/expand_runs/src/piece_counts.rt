//! Laws of pieces that are counted.
ghost use Rattle.expand_runs.specs.Counting.{CallsAreCounted};
ghost use Rattle.expand_runs.specs.Subscripts.{SubscriptsLead};

/// Each piece of a call is counted, and no label of a switch round the call is made in it.
pub fn calls_are_counted()
    ensures { CallsAreCounted }
{}

/// The subscripts that are made for the element with a number lead to it.
pub fn subscripts_lead()
    ensures { SubscriptsLead }
{}
