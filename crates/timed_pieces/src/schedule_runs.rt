//! Laws of scheduled programs.
ghost use Rattle.timed_pieces.specs.ScheduleRuns.{ScheduledIsWellTimed, ScheduledKeepsRuns};

/// A program whose blocks and loops have the times that the scheduler gives is well timed: all that operations wait for is kept, also from one iteration to the next, and operations on one unit take turns.
pub fn scheduled_is_well_timed()
    ensures { ScheduledIsWellTimed }
{}

/// So a sound program that was scheduled does, cycle by cycle, what its blocks do one after another.
pub fn scheduled_keeps_runs()
    ensures { ScheduledKeepsRuns }
{}
