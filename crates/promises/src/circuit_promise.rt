//! Laws of the circuits of compiled programs.
ghost use Rattle.promises.specs.CircuitPromise.{PlansFitFrames, SourceCircuitsKeepPromise};

/// The plan of a program that is laid out and scheduled from an expanded program fits its frame.
pub fn plans_fit_frames()
    ensures { PlansFitFrames }
{}

/// A valid netlist that is the circuit of the plan of a compiled program agrees with the box of the C function, to the cycle that the report's formula gives.
pub fn source_circuits_keep_promise()
    ensures { SourceCircuitsKeepPromise }
{}
