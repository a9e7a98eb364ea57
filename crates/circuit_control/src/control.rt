//! The nodes, and where no run is under way. A reset wins over all else.
ghost use Rattle.std.specs.Prelude.{◌^◌, ◌≡◌, ◌<◌, ◌∷◌, [], true, List, IfOk, OnOk, Some, length, slice_get};
ghost use Rattle.rtl_logic.specs.Making.{circuit};
ghost use Rattle.clock_ir.specs.ClockRuns.{TimedNode};
ghost use Rattle.datapath.specs.Plans as plans;
ghost use Rattle.datapath.specs.Plans.{Plan};
ghost use Rattle.datapath.specs.Cycles.{Register, Cycle, bit};
ghost use Rattle.datapath.specs.Control as control;
ghost use Rattle.datapath.specs.CircuitWires.Carrying.{IsBegun, Tells, MakesTelling};
ghost use Rattle.circuit_context.specs.Wanted.Logs.{Logs};
ghost use Rattle.circuit_context.specs.Contexts.{IsContext};
ghost use Rattle.circuit_context.specs.declared.wanted.log.Push.{Push};
ghost use Rattle.circuit_context.specs.declared.wanted.role.Role.TheVariants as role;
ghost use Rattle.circuit_context.specs.declared.wanted.role.Target.{Target};
ghost use Rattle.circuit_context.specs.Wanted.Roles.{given, choices_of};
ghost use Rattle.circuit_context.specs.Wanted.Logs.{ArePushes};
ghost use Rattle.circuit_context.specs.Wanted.Entries.{moves_of, control_entries, state_entries, initial_entries, always_entry};
ghost use Rattle.circuit_control.specs.Gathered.{states_of, waiting_of};

use crate::asked::is_wanted;
use crate::bits::{both, either, except, is_loop, node_with_number, register_bit, write_always};
use crate::time::{initial_length, write_time};
use circuit_context::context::Context;
use circuit_context::tests::leaves;
use circuit_context::wanted::log::{Groups, Log};
use circuit_context::wanted::role::{Role, Target};
use datapath::plan_sizes::pins::{RESET, START};
use hls_base::number::NodeId;
use rtl_core::design::Atom;
use rtl_logic::logic::Logic;
use std::alloc::AllocError;

/// The registers of nodes, of the time, of ready and done, and of the initial sequence.
pub fn write_control(
    of: &Context<'_>,
    logic: &mut Logic,
    log: &mut Log,
    groups: &Groups,
) -> Result<(), AllocError>
    ensures { (p : Plan) (names : List Register) (pushes : List Push) → IsContext p names of.now → IsBegun p names (circuit logic.old)
        → ArePushes p names (circuit logic.old) pushes (moves_of p) → ((t : Target) → given groups.now t ≡ choices_of t pushes)
        → OnOk result (Logs p names (circuit logic.old) (circuit logic.new) log.old.pushes.items log.new.pushes.items (control_entries p)) }
{
    write_states(of, logic, log, groups)?;
    write_waiting(of, logic, log, groups)?;
    write_initial(of, logic, log)?;
    write_time(of, logic, log)
}

// ---- nodes

fn write_states(
    of: &Context<'_>,
    logic: &mut Logic,
    log: &mut Log,
    groups: &Groups,
) -> Result<(), AllocError>
    ensures { (p : Plan) (names : List Register) (pushes : List Push) → IsContext p names of.now → IsBegun p names (circuit logic.old)
        → ArePushes p names (circuit logic.old) pushes (moves_of p) → ((t : Target) → given groups.now t ≡ choices_of t pushes)
        → OnOk result (Logs p names (circuit logic.old) (circuit logic.new) log.old.pushes.items log.new.pushes.items (states_of p)) }
{
    for number in 0..of.cfg.nodes.len() {
        write_state(of, logic, log, groups, number)?;
    }
    Ok(())
}

/// The registers of one node.
fn write_state(
    of: &Context<'_>,
    logic: &mut Logic,
    log: &mut Log,
    groups: &Groups,
    number: usize,
) -> Result<(), AllocError>
    requires { number < length of.now.cfg.now.nodes.items }
    ensures { (p : Plan) (names : List Register) (pushes : List Push) (n : TimedNode) → IsContext p names of.now → IsBegun p names (circuit logic.old)
        → ArePushes p names (circuit logic.old) pushes (moves_of p) → ((t : Target) → given groups.now t ≡ choices_of t pushes) → slice_get p.program.nodes number ≡ Some n
        → OnOk result (Logs p names (circuit logic.old) (circuit logic.new) log.old.pushes.items log.new.pushes.items (state_entries p (number, n))) }
{
    let node = node_with_number(number);
    let entered = is_wanted(of.alloc, logic, groups, Target::Entered(node))?;
    let looped = is_loop(of, number);
    if looped {
        write_load(of, logic, log, node, entered)?;
        let load = register_bit(of, Role::Load(node))?;
        write_active(of, logic, log, node, load)
    } else {
        write_active(of, logic, log, node, entered)
    }
}

/// A loop takes its first values in the cycle behind the one in which it is entered.
fn write_load(
    of: &Context<'_>,
    logic: &mut Logic,
    log: &mut Log,
    node: NodeId,
    entered: Atom,
) -> Result<(), AllocError>
    ensures { (p : Plan) (names : List Register) → IsContext p names of.now → IsBegun p names (circuit logic.old) → control.is_loop (slice_get p.program.nodes node.0) ≡ true
        → Tells p names (circuit logic.old) entered (λ (c : Cycle). control.is_entered p c node.0)
        → OnOk result (Logs p names (circuit logic.old) (circuit logic.new) log.old.pushes.items log.new.pushes.items (always_entry (role.Load node) (λ (c : Cycle). bit (control.next_load p c node.0)) ∷ [])) }
{
    let next = except(logic, entered, RESET)?;
    write_always(of, log, Role::Load(node), next)
}

/// A node is under way from its beginning until it is left.
fn write_active(
    of: &Context<'_>,
    logic: &mut Logic,
    log: &mut Log,
    node: NodeId,
    begins: Atom,
) -> Result<(), AllocError>
    requires { node.0 < length of.now.cfg.now.nodes.items }
    ensures { (p : Plan) (names : List Register) → IsContext p names of.now → IsBegun p names (circuit logic.old)
        → Tells p names (circuit logic.old) begins (λ (c : Cycle). control.begins p c node.0)
        → OnOk result (Logs p names (circuit logic.old) (circuit logic.new) log.old.pushes.items log.new.pushes.items (always_entry (role.Active node) (λ (c : Cycle). bit (control.next_active p c node.0)) ∷ [])) }
{
    let leave = leaves(of, logic, node)?;
    let active = register_bit(of, Role::Active(node))?;
    let stays = except(logic, active, leave)?;
    let goes = either(logic, begins, stays)?;
    let next = except(logic, goes, RESET)?;
    write_always(of, log, Role::Active(node), next)
}

// ---- where no run is under way

fn write_waiting(
    of: &Context<'_>,
    logic: &mut Logic,
    log: &mut Log,
    groups: &Groups,
) -> Result<(), AllocError>
    ensures { (p : Plan) (names : List Register) (pushes : List Push) → IsContext p names of.now → IsBegun p names (circuit logic.old)
        → ArePushes p names (circuit logic.old) pushes (moves_of p) → ((t : Target) → given groups.now t ≡ choices_of t pushes)
        → OnOk result (Logs p names (circuit logic.old) (circuit logic.new) log.old.pushes.items log.new.pushes.items (waiting_of p)) }
{
    let ended = is_wanted(of.alloc, logic, groups, Target::Ended)?;
    let done = next_done(of, logic, ended)?;
    write_always(of, log, Role::Done, done)?;
    let ready = next_ready(of, logic, ended)?;
    write_always(of, log, Role::Ready, ready)
}

fn next_done(of: &Context<'_>, logic: &mut Logic, ended: Atom) -> Result<Atom, AllocError>
    ensures { (p : Plan) (names : List Register) → IsContext p names of.now → IsBegun p names (circuit logic.old) → Tells p names (circuit logic.old) ended (control.is_ending p)
        → IfOk result (λ a. MakesTelling p names (circuit logic.old) (circuit logic.new) a (control.next_done p)) }
{
    let done = register_bit(of, Role::Done)?;
    let still = except(logic, done, START)?;
    let goes = either(logic, ended, still)?;
    except(logic, goes, RESET)
}

fn next_ready(of: &Context<'_>, logic: &mut Logic, ended: Atom) -> Result<Atom, AllocError>
    ensures { (p : Plan) (names : List Register) → IsContext p names of.now → IsBegun p names (circuit logic.old) → Tells p names (circuit logic.old) ended (control.is_ending p)
        → IfOk result (λ a. MakesTelling p names (circuit logic.old) (circuit logic.new) a (control.next_ready p)) }
{
    let cycles = initial_length(of);
    let ready = register_bit(of, Role::Ready)?;
    let still = except(logic, ready, START)?;
    if cycles == 0 {
        let rest = either(logic, still, RESET)?;
        return either(logic, ended, rest);
    }
    let last = last_initial(of, logic, cycles)?;
    let rest = either(logic, still, last)?;
    let goes = either(logic, ended, rest)?;
    except(logic, goes, RESET)
}

/// The bit of the last cycle of the initial sequence, which has so many cycles.
fn last_initial(of: &Context<'_>, logic: &mut Logic, cycles: u64) -> Result<Atom, AllocError>
    ensures { (p : Plan) (names : List Register) → IsContext p names of.now → IsBegun p names (circuit logic.old) → cycles ≡ plans.initial_cycles p
        → IfOk result (λ a. MakesTelling p names (circuit logic.old) (circuit logic.new) a (control.last_initial p)) }
{
    let initial = register_bit(of, Role::Initial)?;
    let last = of.time_is(logic, cycles.saturating_sub(1))?;
    both(logic, initial, last)
}

/// The initial sequence, which a reset begins.
fn write_initial(of: &Context<'_>, logic: &mut Logic, log: &mut Log) -> Result<(), AllocError>
    ensures { (p : Plan) (names : List Register) → IsContext p names of.now → IsBegun p names (circuit logic.old)
        → OnOk result (Logs p names (circuit logic.old) (circuit logic.new) log.old.pushes.items log.new.pushes.items (initial_entries p)) }
{
    let cycles = initial_length(of);
    if cycles == 0 {
        return Ok(());
    }
    let next = next_initial(of, logic, cycles)?;
    write_always(of, log, Role::Initial, next)
}

fn next_initial(of: &Context<'_>, logic: &mut Logic, cycles: u64) -> Result<Atom, AllocError>
    ensures { (p : Plan) (names : List Register) → IsContext p names of.now → IsBegun p names (circuit logic.old) → cycles ≡ plans.initial_cycles p → 0 < cycles
        → IfOk result (λ a. MakesTelling p names (circuit logic.old) (circuit logic.new) a (control.next_initial p)) }
{
    let last = last_initial(of, logic, cycles)?;
    let initial = register_bit(of, Role::Initial)?;
    let still = except(logic, initial, last)?;
    either(logic, still, RESET)
}
