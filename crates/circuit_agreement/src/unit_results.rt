//! Laws of operations that are under way.
ghost use Rattle.circuit_agreement.specs.UnitResults.{UnitsBegin, UnitsStep, UnitsGive};

/// As the time of a node begins no operation is under way.
pub fn units_begin()
    ensures { UnitsBegin }
{}

/// From cycle to cycle the units work on what the clocked run has under way.
pub fn units_step()
    ensures { UnitsStep }
{}

/// Each result comes from its unit in the cycle before it is there.
pub fn units_give()
    ensures { UnitsGive }
{}
