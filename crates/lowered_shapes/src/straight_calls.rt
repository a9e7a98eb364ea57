//! Laws of the straight pieces of expanded programs.
ghost use Rattle.lowered_shapes.specs.StraightCalls.{CallsEndApart, ExpandedShapesConvert};

/// No call ends in a straight fork, or in a loop that may be overlapped.
pub fn calls_end_apart()
    ensures { CallsEndApart }
{}

/// Each convertible fork of an expanded program is merged, none is left, and each eligible loop becomes a loop node.
pub fn expanded_shapes_convert()
    ensures { ExpandedShapesConvert }
{}
