//! Laws of programs with times.
ghost use Rattle.clock_machine.specs.Lines.{WellTimedIsOrderly};

/// The intervals of a well timed program are positive, its operations start before 2 to the power of 32, and its tests are known before the next iteration begins.
pub fn well_timed_is_orderly()
    ensures { WellTimedIsOrderly }
{}
