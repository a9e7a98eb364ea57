//! The nodes of a program, and their operations and times.
ghost use Rattle.std.specs.Prelude.{◌≡◌, ◌<◌, ◌≤◌, ◌-◌, ◌^◌, List, IsTrue, Some, [], get_or, length, map, slice_get};
ghost use Rattle.clock_ir.specs.ClockRuns.{timed_node};
ghost use Rattle.clock_ir.specs.Flows.{ready, timed_op};
ghost use Rattle.datapath.specs.Plans as plans;
ghost use Rattle.datapath.specs.Plans.{Plan, body_at, node_units};
ghost use Rattle.ir_core.specs.declared.body.Op.{Op};
ghost use Rattle.ir_core.specs.declared.timed.Timed.{Timed};
ghost use Rattle.datapath.specs.Cycles.{Register};
ghost use Rattle.circuit_context.specs.Counting.{ops_in};
ghost use Rattle.circuit_context.specs.Numbers.{operations_of};
ghost use Rattle.circuit_context.specs.Contexts.{IsContext};

use circuit_context::context::{Context, Reading};
use datapath::plan_sizes::sizes::{body_of, ready_at, span};
use hls_base::number::{NodeId, OpId};
use ir_core::body::Op;
use ir_core::cfg::Node;
use ir_core::timed::Timed;

/// A node of the program.
pub fn node_at<'a>(of: &Context<'a>, node: NodeId) -> &'a Node<Timed>
    requires { node.0 < length of.now.cfg.now.nodes.items }
    ensures stands { slice_get of.now.cfg.now.nodes.items node.0 ≡ Some result.now }
    ensures timed { (p : Plan) (names : List Register) → IsContext p names of.now → slice_get p.program.nodes node.0 ≡ Some (timed_node result.now) }
{
    &of.cfg.nodes[node.0 as usize]
}

fn ops_of(node: &Node<Timed>) -> &[Op<Timed>]
    ensures ops { map timed_op result.now ≡ (plans.body_of (timed_node node.now)).ops }
    ensures units { map (λ (op : Op Timed). op.stamp.bound) result.now ≡ node_units node.now }
    ensures own { result.now ≡ ops_in node.now }
{
    match node {
        Node::Plain(block) => &block.body.ops,
        Node::Looped(region) => &region.body.ops,
    }
}

/// An operation of a node.
pub fn operation<'a>(of: &Context<'a>, node: NodeId, op: OpId) -> &'a Op<Timed>
    requires { op.0 < operations_of of.now.cfg.now.nodes.items node.0 }
    ensures stands { (p : Plan) (names : List Register) → IsContext p names of.now → slice_get (body_at p node.0).ops op.0 ≡ Some (timed_op result.now) }
    ensures unit { (p : Plan) (names : List Register) → IsContext p names of.now → get_or (get_or p.units node.0 []) op.0 0 ≡ result.now.stamp.bound }
{
    let ops = ops_of(node_at(of, node));
    &ops[op.0 as usize]
}

/// Whether a node has an operation with this number.
pub fn has_operation(of: &Context<'_>, node: NodeId, op: OpId) -> bool
    ensures { IsTrue result → op.0 < operations_of of.now.cfg.now.nodes.items node.0 }
{
    if node.0 as usize >= of.cfg.nodes.len() {
        return false;
    }
    let ops = ops_of(node_at(of, node));
    (op.0 as usize) < ops.len()
}

/// The time of an iteration from which the value of an operation is there.
pub fn there_at(of: &Context<'_>, node: NodeId, op: OpId) -> u64
    requires { node.0 < length of.now.cfg.now.nodes.items }
    ensures early { result ≤ 2 ^ 32 }
    ensures ready { (p : Plan) (names : List Register) → IsContext p names of.now → result ≡ ready (body_at p node.0) op }
{
    ready_at(body_of(node_at(of, node)), op)
}

/// The last cycle of a block.
pub fn last_cycle(of: &Context<'_>, node: NodeId) -> Reading
    requires { node.0 < length of.now.cfg.now.nodes.items }
    ensures node { result.node ≡ node }
    ensures time { (p : Plan) (names : List Register) → IsContext p names of.now → result.time ≡ plans.span p node.0 - 1 }
{
    let time = span(node_at(of, node)) - 1;
    Reading { node, time }
}

/// The cycles between the iterations of a loop; of a block its length.
pub fn interval(of: &Context<'_>, node: NodeId) -> u32
    requires { node.0 < length of.now.cfg.now.nodes.items }
    ensures { (p : Plan) (names : List Register) → IsContext p names of.now → result ≡ (body_at p node.0).interval }
{
    match node_at(of, node) {
        Node::Plain(block) => block.length,
        Node::Looped(region) => region.ii,
    }
}
