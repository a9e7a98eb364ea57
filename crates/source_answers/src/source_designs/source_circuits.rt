//! Laws of the circuits of sources.
ghost use Rattle.source_answers.specs.SourceDesigns.SourceCircuits.{SourceCircuitsAgree};

/// A netlist that agrees with the box that asks the clocked run of a plan agrees with the box of the C function that the plan is made from, to the cycle that the report's formula gives.
pub fn source_circuits_agree()
    ensures { SourceCircuitsAgree }
{}
