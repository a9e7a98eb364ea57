//! The registers that all loops share.
ghost use Rattle.std.specs.Prelude.{◌<◌, ◌^◌, ◌≡◌, ◌||◌, ◌+◌, ◌-◌, ◌∷◌, [], ◌&&◌, true, false, List, Bool, IfOk, OnOk, MatchOption, Some, length, slice_get, map};
ghost use Rattle.rtl_core.specs.Netlist.{Netlist};
ghost use Rattle.rtl_logic.specs.Making.{circuit};
ghost use Rattle.clock_ir.specs.ClockRuns.{TimedNode};
ghost use Rattle.datapath.specs.Plans.{Plan, body_at};
ghost use Rattle.datapath.specs.Cycles.{Register, Load, Cycle, holds};
ghost use Rattle.datapath.specs.Control as control;
ghost use Rattle.datapath.specs.Control.{is_loading, ends_interval, passed_write};
ghost use Rattle.datapath.specs.Reading.{at, has_passed};
ghost use Rattle.datapath.specs.CircuitWires.Carrying.{IsBegun, Tells};
ghost use Rattle.circuit_context.specs.Wanted.Logs.{Logs};
ghost use Rattle.circuit_context.specs.Contexts.{IsContext};
ghost use Rattle.circuit_context.specs.declared.wanted.log.Push.{Push};
ghost use Rattle.circuit_context.specs.declared.wanted.role.Role.TheVariants as role;
ghost use Rattle.circuit_context.specs.declared.wanted.role.Target.{Target};
ghost use Rattle.circuit_context.specs.Wanted.Roles.{named, given, choices_of};
ghost use Rattle.circuit_context.specs.Wanted.Logs.{ArePushes};
ghost use Rattle.circuit_context.specs.Bank.Banks.{names_of};
ghost use Rattle.circuit_context.specs.Wanted.Entries.{moves_of, gate_entries, passed_entries, waited_entries, loop_entries, all_roles, register_entry};
ghost use Rattle.circuit_control.specs.Gathered.{TellTogether, MakesTogether, moved_entries};

use crate::asked::is_wanted;
use crate::bits::{
    counted, either, except, is_loop, node_at, node_with_number, register, register_bit, write,
};
use circuit_context::context::{Context, Reading};
use circuit_context::wanted::log::{Groups, Log};
use circuit_context::wanted::role::{Role, Target};
use datapath::plan_sizes::sizes::{bits_of, greatest_wait};
use ir_core::cfg::Node;
use rtl_core::design::Atom;
use rtl_logic::logic::Logic;
use rtl_logic::select::{Choice, constant};
use std::alloc::AllocError;

/// Gates, stages, and the cycles since a test failed.
pub fn write_loops(
    of: &Context<'_>,
    logic: &mut Logic,
    log: &mut Log,
    groups: &Groups,
) -> Result<(), AllocError>
    ensures { (p : Plan) (names : List Register) (pushes : List Push) → IsContext p names of.now → IsBegun p names (circuit logic.old)
        → names_of of.now.bank ≡ map named (all_roles p of.now.bank.gates of.now.bank.stages)
        → ArePushes p names (circuit logic.old) pushes (moves_of p) → ((t : Target) → given groups.now t ≡ choices_of t pushes)
        → OnOk result (Logs p names (circuit logic.old) (circuit logic.new) log.old.pushes.items log.new.pushes.items (loop_entries p of.now.bank.gates of.now.bank.stages)) }
{
    let loads = loads(of)?;
    let load = logic.any(of.alloc, &loads)?;
    write_gates(of, logic, log, groups, load)?;
    write_stages(of, logic, log, load)?;
    write_waited(of, logic, log, load)
}

/// The bits of the cycles before the loops' times begin.
fn loads(of: &Context<'_>) -> Result<Vec<Atom>, AllocError>
    ensures { (p : Plan) (names : List Register) (d : Netlist) → IsContext p names of.now → IsBegun p names d
        → IfOk result (λ bits. TellTogether p names d bits.items (is_loading p)) }
{
    let mut all = Vec::new(of.alloc);
    for number in 0..of.cfg.nodes.len() {
        add_load(of, &mut all, number)?;
    }
    Ok(all)
}

/// Adds that of one node, if it is a loop.
fn add_load(of: &Context<'_>, all: &mut Vec<Atom>, number: usize) -> Result<(), AllocError>
    requires { number < length of.now.cfg.now.nodes.items }
    ensures { (p : Plan) (names : List Register) (d : Netlist) (n : TimedNode) (before : Cycle → Bool) → IsContext p names of.now → IsBegun p names d → slice_get p.program.nodes number ≡ Some n
        → TellTogether p names d all.old.items before
        → OnOk result (TellTogether p names d all.new.items (λ (c : Cycle). before c || (control.is_loop (Some n) && holds c (Load number)))) }
{
    let looped = is_loop(of, number);
    if !looped {
        return Ok(());
    }
    let node = node_with_number(number);
    let load = register_bit(of, Role::Load(node))?;
    all.push(load)?;
    Ok(())
}

/// A test that fails shuts the first gate, and the next loop opens it; what was known before moves on by one with each test.
fn write_gates(
    of: &Context<'_>,
    logic: &mut Logic,
    log: &mut Log,
    groups: &Groups,
    load: Atom,
) -> Result<(), AllocError>
    ensures { (p : Plan) (names : List Register) (pushes : List Push) → IsContext p names of.now → IsBegun p names (circuit logic.old)
        → ArePushes p names (circuit logic.old) pushes (moves_of p) → ((t : Target) → given groups.now t ≡ choices_of t pushes)
        → Tells p names (circuit logic.old) load (is_loading p)
        → OnOk result (Logs p names (circuit logic.old) (circuit logic.new) log.old.pushes.items log.new.pushes.items (gate_entries p of.now.bank.gates)) }
{
    if of.bank.gates == 0 {
        return Ok(());
    }
    let opened = Choice {
        when: load,
        value: constant(1, 1),
    };
    write(of, log, Role::Gate(0), opened)?;
    if of.bank.gates == 1 {
        return Ok(());
    }
    let tested = is_wanted(of.alloc, logic, groups, Target::Tested)?;
    write_earlier(of, log, tested)
}

/// Each gate behind the first one takes what the one before it holds.
fn write_earlier(of: &Context<'_>, log: &mut Log, moved: Atom) -> Result<(), AllocError>
    ensures { (p : Plan) (names : List Register) (d : Netlist) (moves : Cycle → Bool) → IsContext p names of.now → IsBegun p names d → Tells p names d moved moves
        → OnOk result (Logs p names d d log.old.pushes.items log.new.pushes.items (moved_entries moves (of.now.bank.gates - 1))) }
{
    for before in 0..of.bank.gates.saturating_sub(1) {
        let value = register(of, Role::Gate(before))?;
        let choice = Choice { when: moved, value };
        write(of, log, Role::Gate(before + 1), choice)?;
    }
    Ok(())
}

/// The bits of the cycles that are the last ones of an interval.
fn interval_ends(of: &Context<'_>, logic: &mut Logic) -> Result<Vec<Atom>, AllocError>
    ensures { (p : Plan) (names : List Register) → IsContext p names of.now → IsBegun p names (circuit logic.old)
        → IfOk result (λ bits. MakesTogether p names (circuit logic.old) (circuit logic.new) bits.items (ends_interval p)) }
{
    let mut all = Vec::new(of.alloc);
    for number in 0..of.cfg.nodes.len() {
        add_end(of, logic, &mut all, number)?;
    }
    Ok(all)
}

/// The same of one node, if it is a loop.
fn add_end(
    of: &Context<'_>,
    logic: &mut Logic,
    all: &mut Vec<Atom>,
    number: usize,
) -> Result<(), AllocError>
    requires { number < length of.now.cfg.now.nodes.items }
    ensures { (p : Plan) (names : List Register) (d : Netlist) (n : TimedNode) (before : Cycle → Bool) → IsContext p names of.now → slice_get p.program.nodes number ≡ Some n
        → MakesTogether p names d (circuit logic.old) all.old.items before
        → OnOk result (MakesTogether p names d (circuit logic.new) all.new.items
        (λ (c : Cycle). before c || (control.is_loop (Some n) && at p c number ((body_at p number).interval - 1)))) }
{
    let Some(interval) = interval_at(of, number) else {
        return Ok(());
    };
    let node = node_with_number(number);
    let time = (interval as u64).saturating_sub(1);
    let end = of.at(logic, Reading { node, time })?;
    all.push(end)?;
    Ok(())
}

/// The interval of a node that is a loop.
fn interval_at(of: &Context<'_>, number: usize) -> Option<u32>
    requires { number < length of.now.cfg.now.nodes.items }
    ensures { (p : Plan) (names : List Register) (n : TimedNode) → IsContext p names of.now → slice_get p.program.nodes number ≡ Some n
        → MatchOption result (control.is_loop (Some n) ≡ false) (λ k. (control.is_loop (Some n) ≡ true) × (k ≡ (body_at p number).interval)) }
{
    match node_at(of, number) {
        Node::Plain(_) => None,
        Node::Looped(region) => Some(region.ii),
    }
}

/// Where stages are taken, and the bit of the cycles in which a loop takes its first values.
#[derive(Clone, Copy)]
struct Passing {
    enable: Atom,
    load: Atom,
}

/// Each stage is reached one interval after the one before, and none at the load.
fn write_stages(
    of: &Context<'_>,
    logic: &mut Logic,
    log: &mut Log,
    load: Atom,
) -> Result<(), AllocError>
    ensures { (p : Plan) (names : List Register) → IsContext p names of.now → IsBegun p names (circuit logic.old) → Tells p names (circuit logic.old) load (is_loading p)
        → OnOk result (Logs p names (circuit logic.old) (circuit logic.new) log.old.pushes.items log.new.pushes.items (passed_entries p of.now.bank.stages)) }
{
    if of.bank.stages == 0 {
        return Ok(());
    }
    let all = interval_ends(of, logic)?;
    let ends = logic.any(of.alloc, &all)?;
    let enable = either(logic, load, ends)?;
    write_each_stage(of, logic, log, Passing { enable, load })
}

fn write_each_stage(
    of: &Context<'_>,
    logic: &mut Logic,
    log: &mut Log,
    passing: Passing,
) -> Result<(), AllocError>
    ensures { (p : Plan) (names : List Register) → IsContext p names of.now → IsBegun p names (circuit logic.old)
        → Tells p names (circuit logic.old) passing.load (is_loading p) → Tells p names (circuit logic.old) passing.enable (λ (c : Cycle). is_loading p c || ends_interval p c)
        → OnOk result (Logs p names (circuit logic.old) (circuit logic.new) log.old.pushes.items log.new.pushes.items (passed_entries p of.now.bank.stages)) }
{
    for before in 0..of.bank.stages {
        write_stage(of, logic, log, passing, before)?;
    }
    Ok(())
}

/// The stage behind so many intervals.
fn write_stage(
    of: &Context<'_>,
    logic: &mut Logic,
    log: &mut Log,
    passing: Passing,
    before: u64,
) -> Result<(), AllocError>
    requires { before + 1 < 2 ^ 64 }
    ensures { (p : Plan) (names : List Register) → IsContext p names of.now → IsBegun p names (circuit logic.old)
        → Tells p names (circuit logic.old) passing.load (is_loading p) → Tells p names (circuit logic.old) passing.enable (λ (c : Cycle). is_loading p c || ends_interval p c)
        → OnOk result (Logs p names (circuit logic.old) (circuit logic.new) log.old.pushes.items log.new.pushes.items
        (register_entry (role.Passed (before + 1)) (λ (c : Cycle). passed_write p c (before + 1)) ∷ [])) }
{
    let reached = passed(of, before)?;
    let value = except(logic, reached, passing.load)?;
    let when = passing.enable;
    write(of, log, Role::Passed(before + 1), Choice { when, value })
}

/// Whether so many intervals have passed.
fn passed(of: &Context<'_>, intervals: u64) -> Result<Atom, AllocError>
    ensures { (p : Plan) (names : List Register) (d : Netlist) → IsContext p names of.now → IsBegun p names d
        → IfOk result (λ a. Tells p names d a (λ (c : Cycle). has_passed c intervals)) }
{
    if intervals == 0 {
        Ok(constant(1, 1))
    } else {
        register_bit(of, Role::Passed(intervals))
    }
}

/// The cycles since a test failed.
fn write_waited(
    of: &Context<'_>,
    logic: &mut Logic,
    log: &mut Log,
    load: Atom,
) -> Result<(), AllocError>
    ensures { (p : Plan) (names : List Register) → IsContext p names of.now → IsBegun p names (circuit logic.old) → Tells p names (circuit logic.old) load (is_loading p)
        → OnOk result (Logs p names (circuit logic.old) (circuit logic.new) log.old.pushes.items log.new.pushes.items (waited_entries p)) }
{
    let bits = bits_of(greatest_wait(of.cfg).saturating_sub(1));
    if bits == 0 {
        return Ok(());
    }
    let running = register_bit(of, Role::Gate(0))?;
    let failed = except(logic, constant(1, 1), running)?;
    let when = either(logic, load, failed)?;
    let waited = register(of, Role::Waited)?;
    let later = counted(logic, waited, bits)?;
    let value = logic.pick(load, constant(bits, 0), later)?;
    write(of, log, Role::Waited, Choice { when, value })
}
