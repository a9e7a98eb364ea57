//! Laws of the layout.
ghost use Rattle.valid_trees.specs.ValidLayout.{LaidOutProgramsAreConsistent};

/// The flat program of a valid tree and a valid frame is consistent, where there are numbers enough for its nodes and operations.
pub fn laid_out_programs_are_consistent()
    ensures { LaidOutProgramsAreConsistent }
{}
