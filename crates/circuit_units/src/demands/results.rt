//! The wires of results.
ghost use Rattle.std.specs.Prelude.{◌≡◌, List, IfOk, Some};
ghost use Rattle.ir_core.specs.Timing as timing;
ghost use Rattle.rtl_logic.specs.Making.{circuit, Appends};
ghost use Rattle.datapath.specs.Plans.{Plan};
ghost use Rattle.datapath.specs.Cycles.{Register, Cycle};
ghost use Rattle.datapath.specs.Values.{computed};
ghost use Rattle.datapath.specs.CircuitWires.Carrying.{IsBegun, MakesCarrying};
ghost use Rattle.circuit_context.specs.Contexts.{IsContext};
ghost use Rattle.circuit_units.specs.Demands.Placing.{placed_as, IsStarted, HasWire, IsOfProgram};
ghost use Rattle.circuit_units.specs.Demands.Collected.{IsWireOf};

use crate::demands::arguments::arguments;
use crate::demands::started::Started;
use circuit_context::context::Context;
use ir_core::body::OpKind;
use rtl_core::design::Atom;
use rtl_logic::logic::Logic;
use rtl_logic::operations::value_of;
use std::alloc::AllocError;

/// The wire of the result of an operation that has neither a shared unit nor a port.
fn result_of(of: &Context<'_>, logic: &mut Logic, it: &Started<'_>) -> Result<Atom, AllocError>
    requires { IsOfProgram of.now it.now }
    ensures { (p : Plan) (names : List Register) → IsContext p names of.now → IsBegun p names (circuit logic.old) → IsStarted p it.now → HasWire it.now.op.now.kind
        → IfOk result (λ a. MakesCarrying p names (circuit logic.old) (circuit logic.new) (timing.result_bits it.now.op.now.kind it.now.op.now.bits) a (λ (c : Cycle). computed p c (placed_as it.now))) }
{
    let arguments = arguments(of, logic, it)?;
    value_of(logic, it.op, arguments)
}

/// The wire of an operation's result, if it has one.
pub fn wire_of(
    of: &Context<'_>,
    logic: &mut Logic,
    it: &Started<'_>,
) -> Result<Option<Atom>, AllocError>
    requires { IsOfProgram of.now it.now }
    ensures { (p : Plan) (names : List Register) → IsContext p names of.now → IsBegun p names (circuit logic.old) → IsStarted p it.now
        → IfOk result (λ wire. Appends (circuit logic.old) (circuit logic.new) × IsBegun p names (circuit logic.new) × IsWireOf p names (circuit logic.new) it.now wire) }
{
    match it.op.kind {
        OpKind::Mul | OpKind::Div | OpKind::Rem | OpKind::Load | OpKind::Store => Ok(None),
        _ => Ok(Some(result_of(of, logic, it)?)),
    }
}
