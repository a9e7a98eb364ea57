//! What operations give to multipliers and dividers.
ghost use Rattle.std.specs.Prelude.{◌≡◌, List, OnOk};
ghost use Rattle.rtl_logic.specs.Making.{circuit};
ghost use Rattle.datapath.specs.Plans.{Plan};
ghost use Rattle.datapath.specs.Cycles.{Register};
ghost use Rattle.datapath.specs.CircuitWires.Carrying.{IsBegun};
ghost use Rattle.circuit_context.specs.Wanted.Entries.{shared_entries, unit_at};
ghost use Rattle.circuit_context.specs.Wanted.Logs.{Logs};
ghost use Rattle.circuit_context.specs.Contexts.{IsContext};
ghost use Rattle.circuit_units.specs.Demands.Placing.{placed_as, IsStarted, IsOfProgram};

use crate::demands::started::Started;
use circuit_context::context::Context;
use circuit_context::wanted::log::Log;
use circuit_context::wanted::role::{SharedUnit, Target, UnitKind};
use rtl_logic::logic::Logic;
use rtl_logic::operations::argument;
use rtl_logic::select::constant;
use std::alloc::AllocError;

/// A unit is given the operands as the operation starts, and whether they have signs.
pub fn give_operands(
    of: &Context<'_>,
    logic: &mut Logic,
    log: &mut Log,
    it: &Started<'_>,
    kind: UnitKind,
) -> Result<(), AllocError>
    requires { IsOfProgram of.now it.now }
    ensures { (p : Plan) (names : List Register) → IsContext p names of.now → IsBegun p names (circuit logic.old) → IsStarted p it.now
        → OnOk result (Logs p names (circuit logic.old) (circuit logic.new) log.old.pushes.items log.new.pushes.items (shared_entries p (unit_at p kind (placed_as it.now)) (placed_as it.now))) }
{
    let bits = it.op.bits;
    let number = it.op.stamp.bound;
    let unit = SharedUnit { kind, bits, number };
    let when = of.at(logic, it.at)?;
    let left = of.operand(logic, it.at, argument(it.op, 0), bits)?;
    let right = of.operand(logic, it.at, argument(it.op, 1), bits)?;
    log.push(Target::Left(unit), when, left)?;
    log.push(Target::Right(unit), when, right)?;
    let signed = constant(1, it.op.signed as u128);
    log.push(Target::Signed(unit), when, signed)
}
