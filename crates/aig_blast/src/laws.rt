//! What the parts of a finished graph say of it.
ghost use Rattle.aig_blast.specs.Finished.{FinishedGraphsFollow};

/// A finished graph is valid, and gives the outputs of its circuit in every cycle.
pub fn finished_graphs_follow()
    ensures { FinishedGraphsFollow }
{}
