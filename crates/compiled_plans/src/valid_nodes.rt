//! Laws of valid programs: their nodes are as plans ask.
ghost use Rattle.compiled_plans.specs.ValidNodes.{DividingNodesSetOnce, FusedNodesSetOnce, ValidNodesAreNamed, ValidNodesDivide};

/// The nodes of a valid program name variables of its frame, and arrays of an expanded program with the same arrays; none stores into a table.
pub fn valid_nodes_are_named()
    ensures { ValidNodesAreNamed }
{}

/// In a valid program the operands of a division have its width, and no two outs of a node set one variable where that is given.
pub fn valid_nodes_divide()
    ensures { ValidNodesDivide }
{}

/// Nodes whose divisions and outs suit a plan set each variable once.
pub fn dividing_nodes_set_once()
    ensures { DividingNodesSetOnce }
{}

/// If no two outs of a node set one variable, then none do once pairs are fused.
pub fn fused_nodes_set_once()
    ensures { FusedNodesSetOnce }
{}
