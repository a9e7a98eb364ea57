//! Laws of programs whose pairs are fused: they can be given times as they could before.
ghost use Rattle.source_validity.specs.FusedPrograms.{FusedConstantsAreNear, FusedOutsAreNear, FusedProgramsAreForward, FusedProgramsAreSmall};

/// No constant is said to be of an iteration long before if none was.
pub fn fused_constants_are_near()
    ensures { FusedConstantsAreNear }
{}

/// Values of outs and tests are of iterations as near as they were.
pub fn fused_outs_are_near()
    ensures { FusedOutsAreNear }
{}

/// There are as many nodes as before, and no node has more operations.
pub fn fused_programs_are_small()
    ensures { FusedProgramsAreSmall }
{}

/// In a valid program of few operations each operation comes behind those that it waits for once pairs are fused.
pub fn fused_programs_are_forward()
    ensures { FusedProgramsAreForward }
{}
