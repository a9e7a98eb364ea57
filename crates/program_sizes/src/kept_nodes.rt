//! Laws of nodes that stay, and of forks and loops that may be folded.
ghost use Rattle.program_sizes.specs.KeptNodes.{NumberedNodesStay, NodesBeginAtBlocks, ConvertedPointsStay, ConvertedPointsAreThere, LoweredFoldsAreFew};

/// Numbering keeps where nodes begin and where they lead.
pub fn numbered_nodes_stay()
    ensures { NumberedNodesStay }
{}

/// Nodes begin at the points of the blocks, in their order.
pub fn nodes_begin_at_blocks()
    ensures { NodesBeginAtBlocks }
{}

/// The points of a converted tree are points of the tree, in their order.
pub fn converted_points_stay()
    ensures { ConvertedPointsStay }
{}

/// A point of a converted tree is a point of the tree.
pub fn converted_points_are_there()
    ensures { ConvertedPointsAreThere }
{}

/// Pieces become no more forks and loops that may be folded than they weigh.
pub fn lowered_folds_are_few()
    ensures { LoweredFoldsAreFew }
{}
