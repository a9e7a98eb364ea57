//! Laws of the circuits of sources without faults.
ghost use Rattle.promises.specs.SourcePromise.{SourcePlansAreCompiled, SourcesKeepPromise};

/// The plan of the program with times of a source without faults is compiled.
pub fn source_plans_are_compiled()
    ensures { SourcePlansAreCompiled }
{}

/// A valid netlist that is the circuit of this plan agrees with the box of the C function, to the cycle that the report's formula gives.
pub fn sources_keep_promise()
    ensures { SourcesKeepPromise }
{}
