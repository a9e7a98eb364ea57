//! Laws of programs that can be given times.
ghost use Rattle.source_validity.specs.SourceMachines.ForwardPrograms.{ValidProgramsAreForward, LaidOutConstantsAreNear, CompiledProgramsAreForward};

/// In a valid program of few operations each operation comes behind those that it waits for, where no constant is said to be of an iteration long before.
pub fn valid_programs_are_forward()
    ensures { ValidProgramsAreForward }
{}

/// In the flat program that pieces are compiled to no constant is said to be of an iteration long before.
pub fn laid_out_constants_are_near()
    ensures { LaidOutConstantsAreNear }
{}

/// In the valid flat program that light pieces are compiled to each operation comes behind those that it waits for.
pub fn compiled_programs_are_forward()
    ensures { CompiledProgramsAreForward }
{}
