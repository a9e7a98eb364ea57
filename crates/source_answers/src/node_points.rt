//! Laws of the points of nodes.
ghost use Rattle.source_answers.specs.NodePoints.{LaidOutPointsDiffer, LaidOutPassesKept};

/// No point has two nodes in a program that is laid out from pieces among which no point stands twice.
pub fn laid_out_points_differ()
    ensures { LaidOutPointsDiffer }
{}

/// Each node of such a program begins at a point that is kept, or that the run of the pieces never passes.
pub fn laid_out_passes_kept()
    ensures { LaidOutPassesKept }
{}
