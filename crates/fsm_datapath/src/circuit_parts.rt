//! Laws of circuits whose parts are all there.
ghost use Rattle.fsm_datapath.specs.CircuitParts.{AssembledIsCircuit, AssembledHasMemories};

/// A netlist whose parts are all there is the circuit of the plan.
pub fn assembled_is_circuit()
    ensures { AssembledIsCircuit }
{}

/// Its memories are those of the arrays that are no tables.
pub fn assembled_has_memories()
    ensures { AssembledHasMemories }
{}
