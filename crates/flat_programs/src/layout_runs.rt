//! Laws of the layout.
ghost use Rattle.flat_programs.specs.Laws.{LayoutIsWhole, LayoutKeepsRuns};

/// The flat program of a well formed tree has the run of the tree, from all contents, and for every number of points.
pub fn layout_keeps_runs()
    ensures { LayoutKeepsRuns }
{}

/// The flat program of a tree names only variables and memories that are there, where the tree and the frame do.
pub fn layout_is_whole()
    ensures { LayoutIsWhole }
{}
