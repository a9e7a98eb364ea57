//! Laws of wires.
ghost use Rattle.datapath.specs.CircuitWires.{CarriedStays, RegistersCarry};

/// An atom goes on to carry its value while the circuit is made.
pub fn carried_stays()
    ensures { CarriedStays }
{}

/// A register carries what the plan's register holds.
pub fn registers_carry()
    ensures { RegistersCarry }
{}
