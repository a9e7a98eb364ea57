//! Laws of programs without faults.
ghost use Rattle.expanded_programs.specs.ElaboratedPrograms.{CheckedProgramsKeepRuns, ElaboratedInputsFit, ElaboratedProgramsAreSound, SourceNumbersFit};

/// The numbers of a source are of their types, also behind the replacement of words.
pub fn source_numbers_fit()
    ensures { SourceNumbersFit }
{}

/// The core program of a program without faults is sound: what its names, calls and jumps stand for is there, no function calls itself, and its const objects are filled.
pub fn elaborated_programs_are_sound()
    ensures { ElaboratedProgramsAreSound }
{}

/// Inputs that fit a program without faults fit its core program.
pub fn elaborated_inputs_fit()
    ensures { ElaboratedInputsFit }
{}

/// The pieces of a program without faults have the program's run, wherever that is defined, for all inputs that fit and every number of points.
pub fn checked_programs_keep_runs()
    ensures { CheckedProgramsKeepRuns }
{}
