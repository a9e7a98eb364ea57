//! Laws of programs with times.
ghost use Rattle.source_validity.specs.SourceMachines.SmallTimes.{TimedProgramsHaveSmallTimes};

/// The times of a small program are small, whatever units there are, so that its values can be given registers.
pub fn timed_programs_have_small_times()
    ensures { TimedProgramsHaveSmallTimes }
{}
