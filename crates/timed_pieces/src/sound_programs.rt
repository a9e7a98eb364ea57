//! Laws of laid out programs whose times are looked for.
ghost use Rattle.timed_pieces.specs.SoundPrograms.{LaidOutProgramsAreSound, ScheduledProgramsKeepRuns};

/// The program that fine pieces are lowered, numbered, converted and laid out to is sound, where each element has as many subscripts as its array has dimensions.
pub fn laid_out_programs_are_sound()
    ensures { LaidOutProgramsAreSound }
{}

/// So the clocked run of such a program, with the times that it was given, ends as the run of the pieces does, and in exactly the cycles of its nodes; where that run never ends, neither does the clocked one.
pub fn scheduled_programs_keep_runs()
    ensures { ScheduledProgramsKeepRuns }
{}
