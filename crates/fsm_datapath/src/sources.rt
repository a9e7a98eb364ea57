//! Where results come from.
ghost use Rattle.std.specs.Prelude.{◌≡◌, ◌<◌, List, IfOk, IfSome, Some, slice_get};
ghost use Rattle.hls_base.specs.declared.number.ArrayId.{ArrayId};
ghost use Rattle.clock_ir.specs.Flows.{TimedOp};
ghost use Rattle.rtl_core.specs.Netlist.{Netlist};
ghost use Rattle.datapath.specs.Plans.{Plan, body_at};
ghost use Rattle.datapath.specs.Cycles.{Register, Word};
ghost use Rattle.datapath.specs.Values.{arriving};
ghost use Rattle.datapath.specs.CircuitWires.Carrying.{IsBegun};
ghost use Rattle.circuit_context.specs.Numbers.{operations_of};
ghost use Rattle.circuit_context.specs.Wanted.Logs.{CarriesSome};
ghost use Rattle.circuit_context.specs.Contexts.{IsContext};
ghost use Rattle.circuit_units.specs.Units.{HasAnswers};
ghost use Rattle.circuit_units.specs.Demands.Computed.{AreComputed};

use crate::nodes::operation;
use circuit_context::context::Context;
use circuit_context::wanted::role::{Role, SharedUnit, UnitKind};
use circuit_units::demands::demands::Computed;
use circuit_units::units::units::UnitTable;
use hls_base::number::{ArrayId, NodeId, OpId};
use hls_base::refusal::impossible;
use ir_core::body::{Op, OpKind};
use ir_core::timed::Timed;
use rtl_core::design::Atom;
use std::alloc::AllocError;

/// The wires of operations, and the answers of units.
#[derive(Drop)]
pub struct Sources<'a> {
    pub computed: &'a Computed,
    pub units: &'a UnitTable,
}

/// The unit of an operation.
fn unit(kind: UnitKind, op: &Op<Timed>) -> SharedUnit
    ensures { result ≡ record { kind = kind; bits = op.now.bits; number = op.now.stamp.bound } }
{
    SharedUnit {
        kind,
        bits: op.bits,
        number: op.stamp.bound,
    }
}

/// The register with the word that a load reads.
fn word(of: &Context<'_>, node: NodeId, op: OpId, array: ArrayId) -> Result<Atom, AllocError>
    requires { op.0 < operations_of of.now.cfg.now.nodes.items node.0 }
    ensures { (p : Plan) (names : List Register) (d : Netlist) (it : TimedOp) → IsContext p names of.now → IsBegun p names d
        → slice_get (body_at p node.0).ops op.0 ≡ Some it → it.op.kind ≡ OpKind.Load → it.op.array ≡ Some array
        → IfOk result (λ a. CarriesSome p names d a (λ c. arriving p c node.0 op.0)) }
{
    let port = of.ports.port(node, op.0 as usize);
    of.bank.register(Role::Word { array, port })
}

/// The wire of an operation that has no unit and no port.
fn wire(computed: &Computed, node: NodeId, op: OpId) -> Option<Atom>
    ensures { (p : Plan) (names : List Register) (d : Netlist) → AreComputed p names d computed.now → IfSome result (λ a. CarriesSome p names d a (λ c. arriving p c node.0 op.0)) }
{
    let number = node.0 as usize;
    if number >= computed.wires.len() {
        return None;
    }
    wire_in(&computed.wires[number], op)
}

fn wire_in(wires: &[Option<Atom>], op: OpId) -> Option<Atom>
    ensures { IfSome result (λ a. slice_get wires.now op.0 ≡ Some (Some a)) }
{
    let number = op.0 as usize;
    if number < wires.len() {
        wires[number]
    } else {
        None
    }
}

/// The atom that a result's register takes at the edge before the result counts.
pub fn arriving(
    of: &Context<'_>,
    sources: &Sources<'_>,
    node: NodeId,
    op: OpId,
) -> Result<Atom, AllocError>
    requires { op.0 < operations_of of.now.cfg.now.nodes.items node.0 }
    ensures { (p : Plan) (names : List Register) (d : Netlist) → IsContext p names of.now → IsBegun p names d → AreComputed p names d sources.now.computed.now → HasAnswers p names d sources.now.units.now
        → IfOk result (λ a. CarriesSome p names d a (λ c. arriving p c node.0 op.0)) }
{
    let it = operation(of, node, op);
    match (it.kind, it.array) {
        (OpKind::Mul, _) => sources.units.answer(unit(UnitKind::Multiplier, it), false),
        (OpKind::Div, _) => sources.units.answer(unit(UnitKind::Divider, it), false),
        (OpKind::Rem, _) => sources.units.answer(unit(UnitKind::Divider, it), true),
        (OpKind::Load, Some(array)) => word(of, node, op, array),
        _ => match wire(sources.computed, node, op) {
            Some(atom) => Ok(atom),
            None => Err(impossible()),
        },
    }
}
