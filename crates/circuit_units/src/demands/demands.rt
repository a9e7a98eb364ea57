//! The operations of all nodes, in order.
ghost use Rattle.std.specs.Prelude.{◌<◌, ◌^◌, ◌≡◌, List, IfOk, OnOk, length, map};
ghost use Rattle.ir_core.specs.declared.body.Op.{Op};
ghost use Rattle.ir_core.specs.declared.timed.Timed.{Timed};
ghost use Rattle.rtl_logic.specs.Making.{circuit};
ghost use Rattle.clock_ir.specs.Flows.{timed_op};
ghost use Rattle.clock_ir.specs.ClockRuns.{timed_node};
ghost use Rattle.datapath.specs.Plans as plans;
ghost use Rattle.datapath.specs.Plans.{Plan};
ghost use Rattle.datapath.specs.Cycles.{Register};
ghost use Rattle.datapath.specs.CircuitWires.Carrying.{IsBegun};
ghost use Rattle.circuit_context.specs.Counting.{ops_in};
ghost use Rattle.circuit_context.specs.Wanted.Entries.{demands_of, all_demands};
ghost use Rattle.circuit_context.specs.Wanted.Logs.{Logs};
ghost use Rattle.circuit_context.specs.Contexts.{IsContext};
ghost use Rattle.circuit_units.specs.Demands.Computed.{AreComputed};
ghost use Rattle.circuit_units.specs.Demands.Placing.{placed_as, HasOps, IsOfProgram, IsStarted};
ghost use Rattle.circuit_units.specs.Demands.Collected.{AreOpsOf, Collects, CollectsOps, CollectsNodes};

use crate::demands::accesses::{give_load, give_store};
use crate::demands::results::wire_of;
use crate::demands::shared::give_operands;
use crate::demands::started::Started;
use circuit_context::context::{Context, Reading};
use circuit_context::wanted::log::Log;
use circuit_context::wanted::role::UnitKind;
use hls_base::number::NodeId;
use ir_core::body::{Op, OpKind};
use ir_core::cfg::Node;
use ir_core::timed::Timed;
use rtl_core::design::Atom;
use rtl_logic::logic::Logic;
use std::alloc::AllocError;

/// The wire of each operation that has no shared unit and no port, by node and operation.
#[derive(Drop)]
pub struct Computed {
    pub wires: Vec<Vec<Option<Atom>>>,
}

/// What an operation gives to its unit or port.
fn give(
    of: &Context<'_>,
    logic: &mut Logic,
    log: &mut Log,
    it: &Started<'_>,
) -> Result<(), AllocError>
    requires { IsOfProgram of.now it.now }
    ensures { (p : Plan) (names : List Register) → IsContext p names of.now → IsBegun p names (circuit logic.old) → IsStarted p it.now
        → OnOk result (Logs p names (circuit logic.old) (circuit logic.new) log.old.pushes.items log.new.pushes.items (demands_of p (placed_as it.now))) }
{
    match it.op.kind {
        OpKind::Mul => give_operands(of, logic, log, it, UnitKind::Multiplier),
        OpKind::Div | OpKind::Rem => give_operands(of, logic, log, it, UnitKind::Divider),
        OpKind::Load => give_load(of, logic, log, it),
        OpKind::Store => give_store(of, logic, log, it),
        _ => Ok(()),
    }
}

/// What an operation gives, and its wire, if it has one.
fn collect_operation(
    of: &Context<'_>,
    logic: &mut Logic,
    log: &mut Log,
    it: &Started<'_>,
) -> Result<Option<Atom>, AllocError>
    requires { IsOfProgram of.now it.now }
    ensures { (p : Plan) (names : List Register) → IsContext p names of.now → IsBegun p names (circuit logic.old) → IsStarted p it.now
        → IfOk result (Collects p names (circuit logic.old) (circuit logic.new) log.old.pushes.items log.new.pushes.items it.now) }
{
    give(of, logic, log, it)?;
    wire_of(of, logic, it)
}

/// The same for the operations of a node.
fn collect_node(
    of: &Context<'_>,
    logic: &mut Logic,
    log: &mut Log,
    node: NodeId,
    ops: &[Op<Timed>],
) -> Result<Vec<Option<Atom>>, AllocError>
    requires { HasOps of.now node.0 ops.now }
    ensures { (p : Plan) (names : List Register) → IsContext p names of.now → IsBegun p names (circuit logic.old) → AreOpsOf p node.0 ops.now
        → IfOk result (λ wires. CollectsOps p names (circuit logic.old) (circuit logic.new) log.old.pushes.items log.new.pushes.items node.0 ops.now wires.items) }
{
    let mut wires = Vec::with_capacity(of.alloc, ops.len())?;
    for (number, op) in ops.iter().enumerate() {
        let time = op.stamp.start;
        let at = Reading { node, time };
        let it = Started {
            at,
            number,
            op,
            ops,
        };
        wires.push(collect_operation(of, logic, log, &it)?)?;
    }
    Ok(wires)
}

/// The operations of a node.
fn ops_of(node: &Node<Timed>) -> &[Op<Timed>]
    ensures ops { map timed_op result.now ≡ (plans.body_of (timed_node node.now)).ops }
    ensures units { map (λ (op : Op Timed). op.stamp.bound) result.now ≡ plans.node_units node.now }
    ensures own { result.now ≡ ops_in node.now }
{
    match node {
        Node::Plain(block) => &block.body.ops,
        Node::Looped(region) => &region.body.ops,
    }
}

/// The name of the node with this number.
fn node_named(number: usize) -> NodeId
    requires { number < 2 ^ 32 }
    ensures { result.0 ≡ number }
{
    NodeId(number as u32)
}

/// Makes the wires of operations, and logs what they give to units and ports.
pub fn collect(of: &Context<'_>, logic: &mut Logic, log: &mut Log) -> Result<Computed, AllocError>
    ensures logs { (p : Plan) (names : List Register) → IsContext p names of.now → IsBegun p names (circuit logic.old)
        → IfOk result (λ r. Logs p names (circuit logic.old) (circuit logic.new) log.old.pushes.items log.new.pushes.items (all_demands p)) }
    ensures computed { (p : Plan) (names : List Register) → IsContext p names of.now → IsBegun p names (circuit logic.old)
        → IfOk result (λ r. AreComputed p names (circuit logic.new) r) }
{
    let nodes = &of.cfg.nodes;
    let mut wires = Vec::with_capacity(of.alloc, nodes.len())?;
    for (number, node) in nodes.iter().enumerate() {
        let name = node_named(number);
        wires.push(collect_node(of, logic, log, name, ops_of(node))?)?;
    }
    Ok(Computed { wires })
}
