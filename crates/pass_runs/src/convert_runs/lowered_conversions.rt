//! Laws of lowered trees that are converted.
ghost use Rattle.pass_runs.specs.ConvertRuns.LoweredConversions.{LoweredIsTyped, NumberedLoweredIsTyped, StraightHoldsForks, NumberedStraightHoldsForks, LoweredPoints, NumberedLoweredKeeps};

/// In a lowered tree operands are there and have their widths, where the expressions have the types of what they name.
pub fn lowered_is_typed()
    ensures { LoweredIsTyped }
{}

/// So it is in the numbered tree.
pub fn numbered_lowered_is_typed()
    ensures { NumberedLoweredIsTyped }
{}

/// Straight pieces become blocks with convertible forks between them.
pub fn straight_holds_forks()
    ensures { StraightHoldsForks }
{}

/// So they do once their blocks are numbered.
pub fn numbered_straight_holds_forks()
    ensures { NumberedStraightHoldsForks }
{}

/// The points of the blocks are those of the pieces.
pub fn lowered_points()
    ensures { LoweredPoints }
{}

/// In the numbered tree each point is kept or dropped as conversion asks, where no two points of the pieces are the same.
pub fn numbered_lowered_keeps()
    ensures { NumberedLoweredKeeps }
{}
