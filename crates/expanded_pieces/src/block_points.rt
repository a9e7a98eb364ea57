//! Laws of the points of blocks.
ghost use Rattle.expanded_pieces.specs.BlockPoints.{SuitingPointsDiffer};

/// No two blocks that pieces are lowered to begin at the same point, where blocks begin at marks and no point stands twice among the pieces.
pub fn suiting_points_differ()
    ensures { SuitingPointsDiffer }
{}
