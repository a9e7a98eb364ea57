//! The circuit of a compiled program runs as its clocked run, and agrees with the box that asks this run.
ghost use Rattle.circuit_agreement.specs.Laws.{NodesAreEntered, RunsStep, ReducedHasMemories, CircuitsAgree};

/// A node that is entered is under way as in the clocked run.
pub fn nodes_are_entered()
    ensures { NodesAreEntered }
{}

/// Each edge of the clock in a run is a step of the clocked run.
pub fn runs_step()
    ensures { RunsStep }
{}

/// A circuit with fewer registers and wires has the same memories.
pub fn reduced_has_memories()
    ensures { ReducedHasMemories }
{}

/// The circuit of a compiled program agrees with the box that asks its clocked run.
pub fn circuits_agree()
    ensures { CircuitsAgree }
{}
