//! Laws of the stores of timed programs.
ghost use Rattle.circuit_agreement.specs.ApartStores.{CompiledStoresStayApart, StoresStayApart};

/// Where a run has a meaning, two operations that store in one cycle change different words: those that might change one word keep their order, and so start in different cycles.
pub fn stores_stay_apart()
    ensures { StoresStayApart }
{}

/// So it is in each cycle of the circuit of a compiled program.
pub fn compiled_stores_stay_apart()
    ensures { CompiledStoresStayApart }
{}
