//! Laws of circuits that are put together.
ghost use Rattle.fsm_datapath.specs.AssembledCircuits.{PartsAreAssembled};

/// Where the registers of a bank, the shared units and the ports are all there and take what the plan gives them, the circuit is assembled.
pub fn parts_are_assembled()
    ensures { PartsAreAssembled }
{}
