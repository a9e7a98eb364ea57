//! Laws of the nodes of lowered trees.
ghost use Rattle.program_sizes.specs.LoweredNodes.{LoweredNodesAreFew};

/// Pieces become few nodes for what they weigh.
pub fn lowered_nodes_are_few()
    ensures { LoweredNodesAreFew }
{}
