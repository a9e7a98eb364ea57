//! Where control goes from a node.
ghost use Rattle.std.specs.Prelude.{◌≡◌, ◌<◌, ◌&&◌, ◌==◌, not, Bool, List, [], ◌∷◌, Some, IfOk, OnOk, length, slice_get};
ghost use Rattle.rtl_logic.specs.Making.{circuit};
ghost use Rattle.clock_ir.specs.Flows.{TimedBody};
ghost use Rattle.clock_ir.specs.ClockRuns.{TimedNode, block};
ghost use Rattle.datapath.specs.Plans as plans;
ghost use Rattle.datapath.specs.Plans.{Plan};
ghost use Rattle.datapath.specs.Cycles.{Register, Cycle};
ghost use Rattle.datapath.specs.Control.{leaves_as};
ghost use Rattle.datapath.specs.CircuitWires.Carrying.{IsBegun, Tells, MakesTelling};
ghost use Rattle.circuit_context.specs.declared.wanted.role.Target.TheVariants as target;
ghost use Rattle.circuit_context.specs.Wanted.Logs.{Logs};
ghost use Rattle.circuit_context.specs.Wanted.Entries.{bit_entry, last_operand, result_entries, ways, ways_as};
ghost use Rattle.datapath.specs.LeftOut.{all_differ};
ghost use Rattle.circuit_context.specs.Contexts.{IsContext};
ghost use Rattle.fsm_datapath.specs.Steps.{none_left, ordered_cases, exclusive_cases, choice_cases, TellCases};

use crate::nodes::{last_cycle, node_at};
use crate::pushes::{enter, finish, take};
use circuit_context::context::Context;
use circuit_context::tests::is_true;
use circuit_context::wanted::log::Log;
use circuit_context::wanted::role::Role;
use circuit_control::savings::savings::are_exclusive;
use datapath::plan_sizes::sizes::body_of;
use hls_base::number::NodeId;
use ir_core::body::Operand;
use ir_core::cfg::{End, Node};
use rtl_core::design::Atom;
use rtl_logic::logic::Logic;
use rtl_logic::select::Choice;
use std::alloc::AllocError;

/// A node, and the bit of its last cycle.
#[derive(Clone, Copy)]
pub struct Leaving {
    pub node: NodeId,
    pub when: Atom,
}

/// Whether an operand is not 0 in the last cycle of a block.
fn holds_last(
    of: &Context<'_>,
    logic: &Logic,
    node: NodeId,
    test: Operand,
) -> Result<Atom, AllocError>
    requires { node.0 < length of.now.cfg.now.nodes.items }
    ensures { (p : Plan) (names : List Register) → IsContext p names of.now → IsBegun p names (circuit logic.now)
        → IfOk result (λ a. Tells p names (circuit logic.now) a (λ (c : Cycle). not (last_operand p node.0 c test == 0))) }
{
    is_true(of, logic, last_cycle(of, node), Some(test))
}

/// The node is entered where both bits are 1.
fn write_way(
    logic: &mut Logic,
    log: &mut Log,
    one: Atom,
    other: Atom,
    next: NodeId,
) -> Result<(), AllocError>
    ensures { (p : Plan) (names : List Register) (left right both : Cycle → Bool) → IsBegun p names (circuit logic.old)
        → Tells p names (circuit logic.old) one left → Tells p names (circuit logic.old) other right → ((c : Cycle) → (left c && right c) ≡ both c)
        → OnOk result (Logs p names (circuit logic.old) (circuit logic.new) log.old.pushes.items log.new.pushes.items (bit_entry (target.Entered next) both ∷ [])) }
{
    let taken = logic.and(one, other)?;
    enter(log, next, taken)
}

/// The bit of the first, and not of the second.
fn without(logic: &mut Logic, one: Atom, other: Atom) -> Result<Atom, AllocError>
    ensures { (p : Plan) (names : List Register) (left right rest : Cycle → Bool) → IsBegun p names (circuit logic.old)
        → Tells p names (circuit logic.old) one left → Tells p names (circuit logic.old) other right → ((c : Cycle) → (left c && not (right c)) ≡ rest c)
        → IfOk result (λ a. MakesTelling p names (circuit logic.old) (circuit logic.new) a rest) }
{
    let against = logic.not(other)?;
    logic.and(one, against)
}

// ---- cases

/// Enters the node of the first case that holds. Gives the bit of the cycles in which none does.
fn write_ordered(
    of: &Context<'_>,
    logic: &mut Logic,
    log: &mut Log,
    leaving: Leaving,
    cases: &[(Operand, NodeId)],
) -> Result<Atom, AllocError>
    requires { leaving.node.0 < length of.now.cfg.now.nodes.items }
    ensures { (p : Plan) (names : List Register) (n : TimedNode) → IsContext p names of.now → IsBegun p names (circuit logic.old)
        → Tells p names (circuit logic.old) leaving.when (λ (c : Cycle). leaves_as p c leaving.node.0 n)
        → IfOk result (λ a. Logs p names (circuit logic.old) (circuit logic.new) log.old.pushes.items log.new.pushes.items (ordered_cases p (leaving.node.0, n) [] cases.now)
        × Tells p names (circuit logic.new) a (none_left p (leaving.node.0, n) cases.now)) }
{
    let mut rest = leaving.when;
    for case in cases {
        let test = holds_last(of, logic, leaving.node, case.0)?;
        write_way(logic, log, rest, test, case.1)?;
        rest = without(logic, rest, test)?;
    }
    Ok(rest)
}

/// Enters the nodes of cases of which no two can hold. Gives the bits of the cases.
fn write_exclusive(
    of: &Context<'_>,
    logic: &mut Logic,
    log: &mut Log,
    leaving: Leaving,
    cases: &[(Operand, NodeId)],
) -> Result<Vec<Atom>, AllocError>
    requires { leaving.node.0 < length of.now.cfg.now.nodes.items }
    ensures { (p : Plan) (names : List Register) (n : TimedNode) → IsContext p names of.now → IsBegun p names (circuit logic.old)
        → Tells p names (circuit logic.old) leaving.when (λ (c : Cycle). leaves_as p c leaving.node.0 n)
        → IfOk result (λ tests. Logs p names (circuit logic.old) (circuit logic.new) log.old.pushes.items log.new.pushes.items (exclusive_cases p (leaving.node.0, n) cases.now)
        × TellCases p names (circuit logic.new) leaving.node.0 cases.now tests.items) }
{
    let mut tests = Vec::with_capacity(of.alloc, cases.len())?;
    for case in cases {
        let test = holds_last(of, logic, leaving.node, case.0)?;
        write_way(logic, log, leaving.when, test, case.1)?;
        tests.push(test)?;
    }
    Ok(tests)
}

/// The bit of the cycles in which the node is left and none of the cases holds.
fn none_of(
    of: &Context<'_>,
    logic: &mut Logic,
    leaving: Leaving,
    tests: &[Atom],
) -> Result<Atom, AllocError>
    ensures { (p : Plan) (names : List Register) (n : TimedNode) (cases : List (Operand × NodeId)) → IsBegun p names (circuit logic.old)
        → Tells p names (circuit logic.old) leaving.when (λ (c : Cycle). leaves_as p c leaving.node.0 n) → TellCases p names (circuit logic.old) leaving.node.0 cases tests.now
        → IfOk result (λ a. MakesTelling p names (circuit logic.old) (circuit logic.new) a (none_left p (leaving.node.0, n) cases)) }
{
    let one = logic.any(of.alloc, tests)?;
    without(logic, leaving.when, one)
}

/// Enters the node of the case that holds. Gives the bit of the cycles in which none does. Cases that compare one value with different constants need no order.
fn write_cases(
    of: &Context<'_>,
    logic: &mut Logic,
    log: &mut Log,
    leaving: Leaving,
    cases: &[(Operand, NodeId)],
) -> Result<Atom, AllocError>
    requires { leaving.node.0 < length of.now.cfg.now.nodes.items }
    ensures { (p : Plan) (names : List Register) (n : TimedNode) → IsContext p names of.now → IsBegun p names (circuit logic.old)
        → slice_get p.program.nodes leaving.node.0 ≡ Some n → Tells p names (circuit logic.old) leaving.when (λ (c : Cycle). leaves_as p c leaving.node.0 n)
        → IfOk result (λ a. Logs p names (circuit logic.old) (circuit logic.new) log.old.pushes.items log.new.pushes.items
        (choice_cases p (leaving.node.0, n) (all_differ (plans.body_of n) cases.now) cases.now)
        × Tells p names (circuit logic.new) a (none_left p (leaving.node.0, n) cases.now)) }
{
    let node = node_at(of, leaving.node);
    if are_exclusive(of.alloc, body_of(node), cases)? {
        let tests = write_exclusive(of, logic, log, leaving, cases)?;
        none_of(of, logic, leaving, &tests)
    } else {
        write_ordered(of, logic, log, leaving, cases)
    }
}

// ---- ends

/// The function's result, if the block returns one.
fn write_result(
    of: &Context<'_>,
    logic: &Logic,
    log: &mut Log,
    leaving: Leaving,
    value: Option<Operand>,
) -> Result<(), AllocError>
    requires { leaving.node.0 < length of.now.cfg.now.nodes.items }
    ensures { (p : Plan) (names : List Register) (n : TimedNode) → IsContext p names of.now → IsBegun p names (circuit logic.now)
        → Tells p names (circuit logic.now) leaving.when (λ (c : Cycle). leaves_as p c leaving.node.0 n)
        → OnOk result (Logs p names (circuit logic.now) (circuit logic.now) log.old.pushes.items log.new.pushes.items (result_entries p (leaving.node.0, n) value)) }
{
    let Some(value) = value else {
        return Ok(());
    };
    let at = last_cycle(of, leaving.node);
    let value = of.operand(logic, at, value, of.cfg.frame.ret)?;
    let when = leaving.when;
    take(of, logic, log, Role::Result, Choice { when, value })
}

/// Where control goes from a block.
fn write_end(
    of: &Context<'_>,
    logic: &mut Logic,
    log: &mut Log,
    leaving: Leaving,
    end: &End,
) -> Result<(), AllocError>
    requires { leaving.node.0 < length of.now.cfg.now.nodes.items }
    ensures { (p : Plan) (names : List Register) (body : TimedBody) → IsContext p names of.now → IsBegun p names (circuit logic.old)
        → slice_get p.program.nodes leaving.node.0 ≡ Some (block body end.now) → Tells p names (circuit logic.old) leaving.when (λ (c : Cycle). leaves_as p c leaving.node.0 (block body end.now))
        → OnOk result (Logs p names (circuit logic.old) (circuit logic.new) log.old.pushes.items log.new.pushes.items (ways p (leaving.node.0, block body end.now) end.now)) }
{
    match end {
        End::Jump(next) => enter(log, *next, leaving.when),
        End::Branch { test, yes, no } => {
            let test = holds_last(of, logic, leaving.node, *test)?;
            write_way(logic, log, leaving.when, test, *yes)?;
            let rest = without(logic, leaving.when, test)?;
            enter(log, *no, rest)
        }
        End::Choose { cases, other } => {
            let rest = write_cases(of, logic, log, leaving, cases)?;
            enter(log, *other, rest)
        }
        End::Return(value) => {
            finish(log, leaving.when)?;
            write_result(of, logic, log, leaving, *value)
        }
    }
}

/// Where control goes from a node.
pub fn write_ways(
    of: &Context<'_>,
    logic: &mut Logic,
    log: &mut Log,
    leaving: Leaving,
) -> Result<(), AllocError>
    requires { leaving.node.0 < length of.now.cfg.now.nodes.items }
    ensures { (p : Plan) (names : List Register) (n : TimedNode) → IsContext p names of.now → IsBegun p names (circuit logic.old)
        → slice_get p.program.nodes leaving.node.0 ≡ Some n → Tells p names (circuit logic.old) leaving.when (λ (c : Cycle). leaves_as p c leaving.node.0 n)
        → OnOk result (Logs p names (circuit logic.old) (circuit logic.new) log.old.pushes.items log.new.pushes.items (ways_as p (leaving.node.0, n) n)) }
{
    match node_at(of, leaving.node) {
        Node::Plain(block) => write_end(of, logic, log, leaving, &block.end),
        Node::Looped(region) => enter(log, region.next, leaving.when),
    }
}
