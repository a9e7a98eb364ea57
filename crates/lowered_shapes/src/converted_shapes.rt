//! Laws of what conversion makes of forks and loops.
ghost use Rattle.lowered_shapes.specs.ConvertedShapes.{LoweredShapesConvert, NoForkIsLeft};

/// In the numbered tree of pieces each convertible fork is merged, and each eligible loop becomes a loop node.
pub fn lowered_shapes_convert()
    ensures { LoweredShapesConvert }
{}

/// Where each convertible fork is merged, no such fork is left.
pub fn no_fork_is_left()
    ensures { NoForkIsLeft }
{}
