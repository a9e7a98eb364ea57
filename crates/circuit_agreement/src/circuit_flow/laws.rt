//! Laws of compiled programs.
ghost use Rattle.circuit_agreement.specs.CircuitFlow.{IntervalsArePositive};

/// Iterations begin some cycles apart, and blocks take some cycles.
pub fn intervals_are_positive()
    ensures { IntervalsArePositive }
{}
