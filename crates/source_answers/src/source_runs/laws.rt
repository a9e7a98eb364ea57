//! Laws of the programs that sources are.
ghost use Rattle.source_answers.specs.SourceRuns.{SourceProgramsKeepRuns};

/// The clocked run of a program that is laid out and scheduled from the pieces of a source without faults is the run in C: where that ends, it ends with the same result, elements and contents of file scope, and no sooner than after the cycles of its nodes; where that goes on for ever, so does it.
pub fn source_programs_keep_runs()
    ensures { SourceProgramsKeepRuns }
{}
