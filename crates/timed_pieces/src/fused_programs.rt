//! Laws of programs whose pairs are fused.
ghost use Rattle.timed_pieces.specs.FusedPrograms.{FusedLoopsLeadToTheirEnds, FusedLoopsSetOnce, FusedPointsDiffer, FusedProgramsAreSound};

/// If no two outs of a loop set one variable, then none do once pairs are fused.
pub fn fused_loops_set_once()
    ensures { FusedLoopsSetOnce }
{}

/// A valid and sound program stays sound when pairs are fused, so schedules keep its runs.
pub fn fused_programs_are_sound()
    ensures { FusedProgramsAreSound }
{}

/// If no point has two nodes, then none has once pairs are fused.
pub fn fused_points_differ()
    ensures { FusedPointsDiffer }
{}

/// If loops lead to blocks at their Ends, to which nothing else leads, they do so once pairs are fused.
pub fn fused_loops_lead_to_their_ends()
    ensures { FusedLoopsLeadToTheirEnds }
{}
