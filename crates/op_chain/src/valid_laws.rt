//! Laws of valid programs and fusing.
ghost use Rattle.op_chain.specs.Skeletons.{FusingAddsNone, FusingKeepsOperands, FusingKeepsSkeletons};
ghost use Rattle.op_chain.specs.ValidFusing.{FusingKeepsValidity, TreesTellValidity, ValidNodesAreForward, ValidNodesAreThere};

/// Programs with one frame, one first node and one list of nodes are valid alike, wherever their parts lie in memory.
pub fn trees_tell_validity()
    ensures { TreesTellValidity }
{}

/// A valid program stays valid when pairs are fused at any period.
pub fn fusing_keeps_validity()
    ensures { FusingKeepsValidity }
{}

/// Each node keeps its point, its kind, where it leads, the variables that it sets, and how many iterations back the values of its outs and its test are.
pub fn fusing_keeps_skeletons()
    ensures { FusingKeepsSkeletons }
{}

/// No node has more operations than before.
pub fn fusing_adds_none()
    ensures { FusingAddsNone }
{}

/// Operands of the new operations are operands of old ones, but for the numbers of operations.
pub fn fusing_keeps_operands()
    ensures { FusingKeepsOperands }
{}

/// In a valid program operands name earlier operations, and an operator that may be fused has two arguments, so that fusing keeps its runs.
pub fn valid_nodes_are_forward()
    ensures { ValidNodesAreForward }
{}

/// The outs of a valid program set variables of its frame, so that what reaches a subscript is found.
pub fn valid_nodes_are_there()
    ensures { ValidNodesAreThere }
{}
