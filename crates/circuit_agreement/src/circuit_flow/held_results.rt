//! Laws of registers that hold results.
ghost use Rattle.circuit_agreement.specs.CircuitFlow.HeldResults.{NothingIsHeldFirst, EntriesAreHeld, ResultsStayHeld, HeldResultsAreSeen};

/// As a block begins no result is held.
pub fn nothing_is_held_first()
    ensures { NothingIsHeldFirst }
{}

/// As the time of a loop begins the values are held that live variables have at entry.
pub fn entries_are_held()
    ensures { EntriesAreHeld }
{}

/// From cycle to cycle registers take the results that come, and hold those that are read later.
pub fn results_stay_held()
    ensures { ResultsStayHeld }
{}

/// What is read in a cycle is what the clocked run reads, where registers hold the results and the variables.
pub fn held_results_are_seen()
    ensures { HeldResultsAreSeen }
{}
