//! Results in their registers.
ghost use Rattle.std.specs.Prelude.{◌≡◌, ◌<◌, ◌≤◌, ◌^◌, ℕ, true, false, nat_lt, List, length, flat_map, Option, IfOk, OnOk, [], ◌∷◌, slice_get, if◌then◌else◌};
ghost use Rattle.rtl_core.specs.Netlist.{Netlist};
ghost use Rattle.rtl_logic.specs.Making.{circuit};
ghost use Rattle.rtl_logic.specs.Choosing.{where_};
ghost use Rattle.clock_ir.specs.Flows.{is_result};
ghost use Rattle.datapath.specs.Plans.{Plan};
ghost use Rattle.datapath.specs.Cycles.{Register};
ghost use Rattle.datapath.specs.Control.{is_loop};
ghost use Rattle.datapath.specs.Reading as reading;
ghost use Rattle.datapath.specs.Values as values;
ghost use Rattle.datapath.specs.CircuitWires.Carrying.{IsBegun, MakesTelling};
ghost use Rattle.circuit_context.specs.Wanted.Logs.{CarriesSome, Logs};
ghost use Rattle.circuit_context.specs.Numbers.{operations_of};
ghost use Rattle.circuit_context.specs.Contexts.{IsContext};
ghost use Rattle.circuit_context.specs.Wanted.Entries.{all_places, held_entries, load_entries, register_entry};
ghost use Rattle.circuit_units.specs.Units.{HasAnswers};
ghost use Rattle.circuit_units.specs.Demands.Computed.{AreComputed};
ghost use Rattle.fsm_datapath.specs.Steps.{made_first, number_of, entry_count, loop_entries};

use crate::nodes::{has_operation, interval, node_at, there_at};
use crate::pushes::take;
use crate::sources::{Sources, arriving};
use circuit_context::context::{Context, Reading};
use circuit_context::wanted::log::Log;
use circuit_context::wanted::role::Role;
use datapath::plan_sizes::sizes::body_of;
use hls_base::number::{OpId, VarId};
use hls_base::refusal::impossible;
use ir_core::body::{Out, Source};
use ir_core::cfg::Node;
use reg_binding::registers::Held;
use rtl_core::design::Atom;
use rtl_logic::logic::Logic;
use rtl_logic::select::Choice;
use std::alloc::AllocError;

// ---- the variable of a loop that an operation makes

fn is_made(out: &Out, op: OpId) -> bool
    ensures { result ≡ is_result op.0 out.now.value.value }
{
    match out.value.value {
        Source::Result(made) => made.0 == op.0,
        _ => false,
    }
}

/// The variable of which an operation of a loop makes the value.
fn variable_made(outs: &[Out], op: OpId) -> Option<VarId>
    ensures { result ≡ made_first outs.now op.0 }
{
    for out in outs {
        if is_made(out, op) {
            return Some(out.variable);
        }
    }
    None
}

/// Whether a variable is read.
fn is_read(of: &Context<'_>, variable: VarId) -> bool
    requires { variable.0 < length of.now.cfg.now.frame.variables.items }
    ensures { (p : Plan) (names : List Register) → IsContext p names of.now → result ≡ p.savings.read variable.0 }
{
    of.read[variable.0 as usize]
}

/// The variable whose next value a place of a loop holds, if it is read.
fn entry_of(of: &Context<'_>, held: Held) -> Option<VarId>
    requires { held.node.0 < length of.now.cfg.now.nodes.items }
    ensures { (p : Plan) (names : List Register) → IsContext p names of.now → is_loop (slice_get p.program.nodes held.node.0) ≡ true
        → number_of result ≡ values.entry_of p held }
{
    let node = node_at(of, held.node);
    let Some(variable) = variable_made(&body_of(node).outs, held.op) else {
        return None;
    };
    if is_read(of, variable) {
        Some(variable)
    } else {
        None
    }
}

// ---- times

/// The cycle before the result of the operation is there.
fn arrival(of: &Context<'_>, held: Held) -> u64
    requires { held.node.0 < length of.now.cfg.now.nodes.items }
    ensures early { result ≤ 2 ^ 32 }
    ensures arrival { (p : Plan) (names : List Register) → IsContext p names of.now → result ≡ values.arrival p held }
{
    there_at(of, held.node, held.op).saturating_sub(1)
}

/// The same of a place further back; so many places hold what was there before the first iteration.
fn place_arrival(of: &Context<'_>, held: Held, entries: u32) -> u64
    requires { held.node.0 < length of.now.cfg.now.nodes.items }
    ensures { (p : Plan) (names : List Register) → IsContext p names of.now → result ≡ values.place_arrival p held entries }
{
    let first = arrival(of, held);
    let places = held.place.saturating_sub(entries) as u64;
    let later = places * interval(of, held.node) as u64;
    first + later
}

/// How many places hold what was there before the first iteration: the first one, where there is a variable whose values it holds.
fn entries_of(entry: Option<VarId>) -> u32
    ensures { result ≡ entry_count (number_of entry) }
{
    match entry {
        Some(_) => 1,
        None => 0,
    }
}

/// Whether a place may take any value, since its register holds nothing else before.
fn is_free(of: &Context<'_>, held: Held, entries: u32) -> Result<bool, AllocError>
    ensures { (p : Plan) (names : List Register) → IsContext p names of.now → IfOk result (λ r. r ≡ (if nat_lt held.place entries then false else values.is_alone p held)) }
{
    if held.place < entries {
        return Ok(false);
    }
    of.places.is_alone(held.node, held.register)
}

/// When a place takes its next value: once in each interval, and only real values where the register holds something else before.
fn moves(of: &Context<'_>, logic: &mut Logic, held: Held, entries: u32) -> Result<Atom, AllocError>
    requires { held.node.0 < length of.now.cfg.now.nodes.items }
    ensures { (p : Plan) (names : List Register) (entry : Option ℕ) → IsContext p names of.now → IsBegun p names (circuit logic.old) → entry_count entry ≡ entries
        → IfOk result (λ a. MakesTelling p names (circuit logic.old) (circuit logic.new) a (λ c. values.moves p c held entry)) }
{
    let node = held.node;
    if is_free(of, held, entries)? {
        let time = arrival(of, held);
        of.at(logic, Reading { node, time })
    } else {
        let time = place_arrival(of, held, entries);
        of.at_iteration(logic, Reading { node, time })
    }
}

// ---- values

/// What a place of a loop takes: the result, or what the place before has.
fn moved(of: &Context<'_>, sources: &Sources<'_>, held: Held) -> Result<Atom, AllocError>
    requires { held.op.0 < operations_of of.now.cfg.now.nodes.items held.node.0 }
    ensures { (p : Plan) (names : List Register) (d : Netlist) → IsContext p names of.now → IsBegun p names d → AreComputed p names d sources.now.computed.now → HasAnswers p names d sources.now.units.now
        → IfOk result (λ a. CarriesSome p names d a (λ c. values.moved p c held held.place)) }
{
    if held.place == 0 {
        arriving(of, sources, held.node, held.op)
    } else {
        of.result_at(held.node, held.op, held.place - 1)
    }
}

/// The first place of a variable's values takes what the variable has at entry.
fn write_entry(
    of: &Context<'_>,
    logic: &Logic,
    log: &mut Log,
    held: Held,
    entry: Option<VarId>,
) -> Result<(), AllocError>
    ensures { (p : Plan) (names : List Register) → IsContext p names of.now → IsBegun p names (circuit logic.now)
        → OnOk result (Logs p names (circuit logic.now) (circuit logic.now) log.old.pushes.items log.new.pushes.items (load_entries held (number_of entry))) }
{
    match entry {
        Some(variable) if held.place == 0 => {
            let when = of.bank.register(Role::Load(held.node))?;
            let value = of.bank.register(Role::Variable(variable))?;
            let choice = Choice { when, value };
            take(of, logic, log, Role::Value(held.register), choice)
        }
        _ => Ok(()),
    }
}

// ---- places

fn write_block_place(
    of: &Context<'_>,
    logic: &mut Logic,
    log: &mut Log,
    sources: &Sources<'_>,
    held: Held,
) -> Result<(), AllocError>
    requires { held.op.0 < operations_of of.now.cfg.now.nodes.items held.node.0 }
    ensures { (p : Plan) (names : List Register) → IsContext p names of.now → IsBegun p names (circuit logic.old)
        → AreComputed p names (circuit logic.old) sources.now.computed.now → HasAnswers p names (circuit logic.old) sources.now.units.now
        → OnOk result (Logs p names (circuit logic.old) (circuit logic.new) log.old.pushes.items log.new.pushes.items
        (register_entry (Role.Value held.register) (λ c. where_ (reading.at p c held.node.0 (values.arrival p held)) (values.arriving p c held.node.0 held.op.0)) ∷ [])) }
{
    let (node, op) = (held.node, held.op);
    let time = arrival(of, held);
    let when = of.at(logic, Reading { node, time })?;
    let value = arriving(of, sources, node, op)?;
    let choice = Choice { when, value };
    take(of, logic, log, Role::Value(held.register), choice)
}

fn write_loop_place(
    of: &Context<'_>,
    logic: &mut Logic,
    log: &mut Log,
    sources: &Sources<'_>,
    held: Held,
) -> Result<(), AllocError>
    requires { held.op.0 < operations_of of.now.cfg.now.nodes.items held.node.0 }
    ensures { (p : Plan) (names : List Register) → IsContext p names of.now → IsBegun p names (circuit logic.old)
        → AreComputed p names (circuit logic.old) sources.now.computed.now → HasAnswers p names (circuit logic.old) sources.now.units.now
        → is_loop (slice_get p.program.nodes held.node.0) ≡ true
        → OnOk result (Logs p names (circuit logic.old) (circuit logic.new) log.old.pushes.items log.new.pushes.items (loop_entries p held)) }
{
    let entry = entry_of(of, held);
    write_entry(of, logic, log, held, entry)?;
    let when = moves(of, logic, held, entries_of(entry))?;
    let value = moved(of, sources, held)?;
    let choice = Choice { when, value };
    take(of, logic, log, Role::Value(held.register), choice)
}

fn write_place(
    of: &Context<'_>,
    logic: &mut Logic,
    log: &mut Log,
    sources: &Sources<'_>,
    held: Held,
) -> Result<(), AllocError>
    ensures { (p : Plan) (names : List Register) → IsContext p names of.now → IsBegun p names (circuit logic.old)
        → AreComputed p names (circuit logic.old) sources.now.computed.now → HasAnswers p names (circuit logic.old) sources.now.units.now
        → OnOk result (Logs p names (circuit logic.old) (circuit logic.new) log.old.pushes.items log.new.pushes.items (held_entries p held)) }
{
    if !has_operation(of, held.node, held.op) {
        return Err(impossible());
    }
    match node_at(of, held.node) {
        Node::Plain(_) => write_block_place(of, logic, log, sources, held),
        Node::Looped(_) => write_loop_place(of, logic, log, sources, held),
    }
}

fn write_all(
    of: &Context<'_>,
    logic: &mut Logic,
    log: &mut Log,
    sources: &Sources<'_>,
    all: &[Held],
) -> Result<(), AllocError>
    ensures { (p : Plan) (names : List Register) → IsContext p names of.now → IsBegun p names (circuit logic.old)
        → AreComputed p names (circuit logic.old) sources.now.computed.now → HasAnswers p names (circuit logic.old) sources.now.units.now
        → OnOk result (Logs p names (circuit logic.old) (circuit logic.new) log.old.pushes.items log.new.pushes.items (flat_map (held_entries p) all.now)) }
{
    for held in all {
        write_place(of, logic, log, sources, *held)?;
    }
    Ok(())
}

/// The writes of all places that are held.
pub fn write_places(
    of: &Context<'_>,
    logic: &mut Logic,
    log: &mut Log,
    sources: &Sources<'_>,
) -> Result<(), AllocError>
    ensures { (p : Plan) (names : List Register) → IsContext p names of.now → IsBegun p names (circuit logic.old)
        → AreComputed p names (circuit logic.old) sources.now.computed.now → HasAnswers p names (circuit logic.old) sources.now.units.now
        → OnOk result (Logs p names (circuit logic.old) (circuit logic.new) log.old.pushes.items log.new.pushes.items (all_places p)) }
{
    write_all(of, logic, log, sources, &of.registers.held)
}
