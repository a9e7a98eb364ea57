//! What happens at the end of each node.
ghost use Rattle.std.specs.Prelude.{◌<◌, ◌^◌, ◌≡◌, ℕ, List, Some, IfOk, OnOk, filter, length, slice_get};
ghost use Rattle.rtl_logic.specs.Making.{circuit};
ghost use Rattle.clock_ir.specs.ClockRuns as runs;
ghost use Rattle.clock_ir.specs.ClockRuns.{TimedNode};
ghost use Rattle.reg_binding.specs.Sets.{has};
ghost use Rattle.datapath.specs.Plans.{Plan};
ghost use Rattle.datapath.specs.Cycles.{Register, Cycle};
ghost use Rattle.datapath.specs.Control.{leaves_as};
ghost use Rattle.datapath.specs.Reading as reading;
ghost use Rattle.datapath.specs.Values as values;
ghost use Rattle.datapath.specs.CircuitWires.Carrying.{IsBegun, Tells};
ghost use Rattle.circuit_context.specs.Wanted.Logs.{CarriesSome, Logs};
ghost use Rattle.reg_binding.specs.SmallTimes.{IsNear};
ghost use Rattle.circuit_context.specs.Contexts.{IsContext};
ghost use Rattle.circuit_context.specs.Wanted.Entries.{all_ends, end_entries, out_entries};
ghost use Rattle.circuit_units.specs.Units.{HasAnswers};
ghost use Rattle.circuit_units.specs.Demands.Computed.{AreComputed};
ghost use Rattle.fsm_datapath.specs.Outs.{HasOut};

use crate::nodes::{last_cycle, node_at, there_at};
use crate::pushes::take;
use crate::sources::{Sources, arriving};
use crate::ways::{Leaving, write_ways};
use circuit_context::context::{Context, Reading};
use circuit_context::tests::leaves;
use circuit_context::wanted::log::Log;
use circuit_context::wanted::role::Role;
use datapath::plan_sizes::sizes::body_of;
use hls_base::number::{NodeId, VarId};
use ir_core::body::{Operand, Out, Source};
use ir_core::cfg::Node;
use reg_binding::var_set::VarSet;
use rtl_core::design::Atom;
use rtl_logic::logic::Logic;
use rtl_logic::select::Choice;
use std::alloc::{AllocError, Global};

// ---- variables

/// The bits of a variable.
fn bits_of(of: &Context<'_>, logic: &Logic, variable: VarId) -> Result<u8, AllocError> {
    Ok(logic.width(of.bank.register(Role::Variable(variable))?))
}

/// What a variable takes at the end of a block, also a result that is only just there.
fn last_value(
    of: &Context<'_>,
    logic: &Logic,
    sources: &Sources<'_>,
    node: NodeId,
    out: Out,
) -> Result<Atom, AllocError>
    requires { HasOut of.now node.0 out }
    ensures { (p : Plan) (names : List Register) → IsContext p names of.now → IsBegun p names (circuit logic.now)
        → AreComputed p names (circuit logic.now) sources.now.computed.now → HasAnswers p names (circuit logic.now) sources.now.units.now
        → IfOk result (λ a. CarriesSome p names (circuit logic.now) a (λ (c : Cycle). values.last_value p c node.0 out.value out.value.value)) }
{
    let at = last_cycle(of, node);
    if let Source::Result(op) = out.value.value {
        if there_at(of, node, op) > at.time {
            return arriving(of, sources, node, op);
        }
    }
    let bits = bits_of(of, logic, out.variable)?;
    of.operand(logic, at, out.value, bits)
}

/// The operand one iteration later.
fn later(operand: Operand) -> Operand
    requires { IsNear operand }
    ensures { result ≡ runs.later operand }
{
    let distance = operand.distance + 1;
    Operand {
        value: operand.value,
        distance,
    }
}

/// What a variable takes as a loop is left: the value of the iteration before the one that does not run.
fn exit_value(of: &Context<'_>, logic: &Logic, exit: Reading, out: Out) -> Result<Atom, AllocError>
    requires { HasOut of.now exit.node.0 out }
    ensures { (p : Plan) (names : List Register) → IsContext p names of.now → IsBegun p names (circuit logic.now)
        → IfOk result (λ a. CarriesSome p names (circuit logic.now) a (λ (c : Cycle). reading.operand p c exit.node.0 exit.time (runs.later out.value))) }
{
    let bits = bits_of(of, logic, out.variable)?;
    of.operand(logic, exit, later(out.value), bits)
}

/// What a variable takes as a node is left.
fn out_value(
    of: &Context<'_>,
    logic: &Logic,
    sources: &Sources<'_>,
    node: NodeId,
    out: Out,
) -> Result<Atom, AllocError>
    requires { HasOut of.now node.0 out }
    ensures { (p : Plan) (names : List Register) (n : TimedNode) → IsContext p names of.now → IsBegun p names (circuit logic.now)
        → AreComputed p names (circuit logic.now) sources.now.computed.now → HasAnswers p names (circuit logic.now) sources.now.units.now
        → slice_get p.program.nodes node.0 ≡ Some n
        → IfOk result (λ a. CarriesSome p names (circuit logic.now) a (λ (c : Cycle). values.out_value p c node.0 n out)) }
{
    match node_at(of, node) {
        Node::Plain(_) => last_value(of, logic, sources, node, out),
        Node::Looped(region) => {
            let time = region.exit as u64;
            exit_value(of, logic, Reading { node, time }, out)
        }
    }
}

/// The variables that are live behind a node.
fn live_behind(of: &Context<'_>, node: NodeId) -> Result<VarSet, AllocError>
    requires { node.0 < length of.now.cfg.now.nodes.items }
    ensures { (p : Plan) (names : List Register) → IsContext p names of.now → IfOk result (λ set. (v : ℕ) → has set v ≡ p.savings.behind node.0 v) }
{
    of.live.behind(of.alloc, node_at(of, node))
}

/// The outs whose variables are in the set.
fn live_outs(alloc: Global, outs: &[Out], behind: &VarSet) -> Result<Vec<Out>, AllocError>
    ensures { IfOk result (λ live. live.items ≡ filter (λ (x : Out). has behind.now x.variable.0) outs.now) }
{
    let mut live = Vec::new(alloc);
    for out in outs {
        if behind.contains(out.variable) {
            live.push(*out)?;
        }
    }
    Ok(live)
}

/// A variable takes its value as the node is left.
fn write_outs(
    of: &Context<'_>,
    logic: &Logic,
    log: &mut Log,
    sources: &Sources<'_>,
    leaving: Leaving,
) -> Result<(), AllocError>
    requires { leaving.node.0 < length of.now.cfg.now.nodes.items }
    ensures { (p : Plan) (names : List Register) (n : TimedNode) → IsContext p names of.now → IsBegun p names (circuit logic.now)
        → AreComputed p names (circuit logic.now) sources.now.computed.now → HasAnswers p names (circuit logic.now) sources.now.units.now
        → slice_get p.program.nodes leaving.node.0 ≡ Some n → Tells p names (circuit logic.now) leaving.when (λ (c : Cycle). leaves_as p c leaving.node.0 n)
        → OnOk result (Logs p names (circuit logic.now) (circuit logic.now) log.old.pushes.items log.new.pushes.items (out_entries p (leaving.node.0, n))) }
{
    let node = node_at(of, leaving.node);
    let behind = live_behind(of, leaving.node)?;
    let live = live_outs(of.alloc, &body_of(node).outs, &behind)?;
    for out in &live {
        let value = out_value(of, logic, sources, leaving.node, *out)?;
        let when = leaving.when;
        let role = Role::Variable(out.variable);
        take(of, logic, log, role, Choice { when, value })?;
    }
    Ok(())
}

// ---- nodes

/// The writes of variables at the end of a node, and where control goes from there.
fn write_node(
    of: &Context<'_>,
    logic: &mut Logic,
    log: &mut Log,
    sources: &Sources<'_>,
    node: NodeId,
) -> Result<(), AllocError>
    requires { node.0 < length of.now.cfg.now.nodes.items }
    ensures { (p : Plan) (names : List Register) (n : TimedNode) → IsContext p names of.now → IsBegun p names (circuit logic.old)
        → AreComputed p names (circuit logic.old) sources.now.computed.now → HasAnswers p names (circuit logic.old) sources.now.units.now
        → slice_get p.program.nodes node.0 ≡ Some n
        → OnOk result (Logs p names (circuit logic.old) (circuit logic.new) log.old.pushes.items log.new.pushes.items (end_entries p (node.0, n))) }
{
    let when = leaves(of, logic, node)?;
    let leaving = Leaving { node, when };
    write_outs(of, logic, log, sources, leaving)?;
    write_ways(of, logic, log, leaving)
}

/// The name of the node with this number.
fn named(number: usize) -> NodeId
    requires { number < 2 ^ 32 }
    ensures { result.0 ≡ number }
{
    NodeId(number as u32)
}

/// The writes of variables, and where control goes.
pub fn write_ends(
    of: &Context<'_>,
    logic: &mut Logic,
    log: &mut Log,
    sources: &Sources<'_>,
) -> Result<(), AllocError>
    ensures { (p : Plan) (names : List Register) → IsContext p names of.now → IsBegun p names (circuit logic.old)
        → AreComputed p names (circuit logic.old) sources.now.computed.now → HasAnswers p names (circuit logic.old) sources.now.units.now
        → OnOk result (Logs p names (circuit logic.old) (circuit logic.new) log.old.pushes.items log.new.pushes.items (all_ends p)) }
{
    for number in 0..of.cfg.nodes.len() {
        write_node(of, logic, log, sources, named(number))?;
    }
    Ok(())
}
