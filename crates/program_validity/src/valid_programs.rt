//! Laws of valid programs.
ghost use Rattle.program_validity.specs.ValidPrograms.{ValidProgramsAreWhole};

/// The variables and arrays that a valid program names are there, so that a machine that runs it stands in the run of its definition.
pub fn valid_programs_are_whole()
    ensures { ValidProgramsAreWhole }
{}
