//! What loads and stores give to their ports.
ghost use Rattle.std.specs.Prelude.{◌≡◌, ◌<◌, ◌∷◌, [], ℕ, List, map, length, OnOk, Some};
ghost use Rattle.ir_core.specs.declared.body.OpKind.TheVariants as o;
ghost use Rattle.ir_core.specs.declared.body.Operand.{Operand};
ghost use Rattle.rtl_logic.specs.Making.{circuit};
ghost use Rattle.ir_core.specs.Bodies as bodies;
ghost use Rattle.datapath.specs.Plans.{Plan, array_at};
ghost use Rattle.datapath.specs.Cycles.{Register, Cycle};
ghost use Rattle.datapath.specs.CircuitWires.Carrying.{IsBegun};
ghost use Rattle.circuit_context.specs.Numbers.{IsAccess};
ghost use Rattle.circuit_context.specs.Wanted.Entries.{address_entry, refusal_entries, entries_as};
ghost use Rattle.circuit_context.specs.Wanted.Logs.{Logs};
ghost use Rattle.circuit_context.specs.Contexts.{IsContext};
ghost use Rattle.circuit_units.specs.Demands.Placing.{placed_as, IsOfProgram, IsAccessTo, IsStarted, IsPortOf, subscripts_as, stored_entry};

use crate::demands::started::Started;
use circuit_context::context::Context;
use circuit_context::tests::{is_true, may_store};
use circuit_context::wanted::log::Log;
use circuit_context::wanted::role::Target;
use hls_base::number::ArrayId;
use ir_core::body::{Op, OpKind, Operand};
use ir_core::timed::Timed;
use rtl_logic::logic::Logic;
use rtl_logic::select::constant;
use std::alloc::AllocError;

/// A port of an array.
#[derive(Clone, Copy)]
pub struct Port {
    pub array: ArrayId,
    pub number: u32,
}

/// The subscripts of an access: all arguments, of a store all but the last.
fn subscripts(op: &Op<Timed>) -> &[Operand]
    requires { op.now.kind ≡ o.Store → 0 < length op.now.args.items }
    ensures { (f : Operand → ℕ) → map f result.now ≡ subscripts_as op.now.kind (map f op.now.args.items) }
{
    let args = op.args.as_slice();
    match op.kind {
        OpKind::Store => match args.split_last() {
            Some((_, rest)) => rest,
            None => unreachable!(),
        },
        _ => args,
    }
}

/// What a store stores.
fn stored(op: &Op<Timed>) -> Operand
    requires { 0 < length op.now.args.items }
    ensures { (f : Operand → ℕ) → f result ≡ bodies.stored (map f op.now.args.items) }
{
    match op.args.as_slice().split_last() {
        Some((last, _)) => *last,
        None => unreachable!(),
    }
}

/// The bits of an array's words.
fn word_bits(of: &Context<'_>, array: ArrayId) -> u8
    requires { array.0 < length of.now.cfg.now.frame.memories.items }
    ensures { (p : Plan) (names : List Register) → IsContext p names of.now → result ≡ (array_at p array.0).bits }
{
    let memories = &of.cfg.frame.memories;
    memories[array.0 as usize].bits
}

/// The port of an access to an array.
fn port_used(of: &Context<'_>, it: &Started<'_>, array: ArrayId) -> Port
    requires { IsOfProgram of.now it.now }
    ensures array { result.array ≡ array }
    ensures port { (p : Plan) (names : List Register) → IsContext p names of.now → IsStarted p it.now → IsAccess it.now.op.now.kind → it.now.op.now.array ≡ Some array
        → IsPortOf p it.now result }
{
    let number = of.ports.port(it.at.node, it.number);
    Port { array, number }
}

/// A port is given the address as the access starts.
fn give_address(
    of: &Context<'_>,
    logic: &mut Logic,
    log: &mut Log,
    it: &Started<'_>,
    port: Port,
) -> Result<(), AllocError>
    requires program { IsOfProgram of.now it.now }
    requires access { IsAccessTo it.now port.array }
    ensures { (p : Plan) (names : List Register) → IsContext p names of.now → IsBegun p names (circuit logic.old) → IsPortOf p it.now port
        → OnOk result (Logs p names (circuit logic.old) (circuit logic.new) log.old.pushes.items log.new.pushes.items (address_entry p port.array (placed_as it.now) ∷ [])) }
{
    let subscripts = subscripts(it.op);
    let when = of.at(logic, it.at)?;
    let address = of.address(logic, it.at, port.array, subscripts)?;
    let Port { array, number } = port;
    let target = Target::Address {
        array,
        port: number,
    };
    log.push(target, when, address)
}

/// A load with a guard is refused where the guard is 0.
fn give_refusal(
    of: &Context<'_>,
    logic: &mut Logic,
    log: &mut Log,
    it: &Started<'_>,
    port: Port,
) -> Result<(), AllocError>
    requires { IsOfProgram of.now it.now }
    ensures { (p : Plan) (names : List Register) → IsContext p names of.now → IsBegun p names (circuit logic.old) → IsPortOf p it.now port
        → OnOk result (Logs p names (circuit logic.old) (circuit logic.new) log.old.pushes.items log.new.pushes.items (refusal_entries p port.array (placed_as it.now))) }
{
    if it.op.guard.is_none() {
        return Ok(());
    }
    let starts = of.at(logic, it.at)?;
    let allowed = is_true(of, logic, it.at, it.op.guard)?;
    let against = logic.not(allowed)?;
    let refused = logic.and(starts, against)?;
    let Port { array, number } = port;
    let target = Target::Refused {
        array,
        port: number,
    };
    log.push(target, refused, constant(1, 1))
}

/// A port is given the word that is stored, where the store may be.
fn give_word(
    of: &Context<'_>,
    logic: &mut Logic,
    log: &mut Log,
    it: &Started<'_>,
    port: Port,
) -> Result<(), AllocError>
    requires program { IsOfProgram of.now it.now }
    requires access { IsAccessTo it.now port.array }
    requires kind { it.now.op.now.kind ≡ o.Store }
    ensures { (p : Plan) (names : List Register) → IsContext p names of.now → IsBegun p names (circuit logic.old) → IsStarted p it.now → IsPortOf p it.now port
        → OnOk result (Logs p names (circuit logic.old) (circuit logic.new) log.old.pushes.items log.new.pushes.items (stored_entry p port.array (placed_as it.now) ∷ [])) }
{
    let bits = word_bits(of, port.array);
    let word = of.operand(logic, it.at, stored(it.op), bits)?;
    let may = may_store(of, logic, it.at.node, it.op)?;
    let allowed = is_true(of, logic, it.at, it.op.guard)?;
    let when = logic.and(may, allowed)?;
    let Port { array, number } = port;
    let target = Target::Stored {
        array,
        port: number,
    };
    log.push(target, when, word)
}

/// What a load gives to its port.
pub fn give_load(
    of: &Context<'_>,
    logic: &mut Logic,
    log: &mut Log,
    it: &Started<'_>,
) -> Result<(), AllocError>
    requires program { IsOfProgram of.now it.now }
    requires kind { it.now.op.now.kind ≡ o.Load }
    ensures { (p : Plan) (names : List Register) → IsContext p names of.now → IsBegun p names (circuit logic.old) → IsStarted p it.now → it.now.op.now.kind ≡ o.Load
        → OnOk result (Logs p names (circuit logic.old) (circuit logic.new) log.old.pushes.items log.new.pushes.items (entries_as p o.Load it.now.op.now.array (placed_as it.now))) }
{
    let Some(array) = it.op.array else {
        unreachable!()
    };
    let port = port_used(of, it, array);
    give_address(of, logic, log, it, port)?;
    give_refusal(of, logic, log, it, port)
}

/// What a store gives to its port.
pub fn give_store(
    of: &Context<'_>,
    logic: &mut Logic,
    log: &mut Log,
    it: &Started<'_>,
) -> Result<(), AllocError>
    requires program { IsOfProgram of.now it.now }
    requires kind { it.now.op.now.kind ≡ o.Store }
    ensures { (p : Plan) (names : List Register) → IsContext p names of.now → IsBegun p names (circuit logic.old) → IsStarted p it.now → it.now.op.now.kind ≡ o.Store
        → OnOk result (Logs p names (circuit logic.old) (circuit logic.new) log.old.pushes.items log.new.pushes.items (entries_as p o.Store it.now.op.now.array (placed_as it.now))) }
{
    let Some(array) = it.op.array else {
        return Ok(());
    };
    let port = port_used(of, it, array);
    give_address(of, logic, log, it, port)?;
    give_word(of, logic, log, it, port)
}
