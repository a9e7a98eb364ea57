//! The tests of loops, and the gates of their iterations.
ghost use Rattle.std.specs.Prelude.{◌≡◌, ◌<◌, ◌==◌, ◌&&◌, not, ℕ, List, IfOk, Some, length, slice_get};
ghost use Rattle.clock_ir.specs.Flows.{known};
ghost use Rattle.clock_ir.specs.ClockRuns.{timed_node};
ghost use Rattle.reg_binding.specs.SmallTimes.{IsEarlyNode};
ghost use Rattle.rtl_logic.specs.Making.{circuit};
ghost use Rattle.datapath.specs.Plans as plans;
ghost use Rattle.datapath.specs.Plans.{Plan};
ghost use Rattle.datapath.specs.Cycles.{Register, Cycle, Gate, Waited, holds};
ghost use Rattle.datapath.specs.Reading as reading;
ghost use Rattle.datapath.specs.Control as control;
ghost use Rattle.datapath.specs.CircuitWires.Carrying.{IsBegun, Tells, MakesTelling};
ghost use Rattle.circuit_context.specs.Contexts.{IsContext, placed};

use crate::context::{Context, Reading};
use crate::numbers::{constant_bit, holds_number};
use crate::wanted::role::Role;
use datapath::plan_sizes::sizes::{body_of, cycles_after_test, greatest_wait, span, test_known};
use hls_base::number::NodeId;
use ir_core::body::{Body, Op, Operand, Source};
use ir_core::cfg::Node;
use ir_core::timed::Timed;
use rtl_core::design::Atom;
use rtl_logic::logic::Logic;
use std::alloc::AllocError;

// ---- tests

/// Whether an operand, if there is one, is not 0.
pub fn is_true(
    of: &Context<'_>,
    logic: &Logic,
    at: Reading,
    operand: Option<Operand>,
) -> Result<Atom, AllocError>
    requires { at.node.0 < length of.now.cfg.now.nodes.items }
    ensures { (p : Plan) (names : List Register) → IsContext p names of.now → IsBegun p names (circuit logic.now)
        → IfOk result (λ a. Tells p names (circuit logic.now) a (λ (c : Cycle). reading.is_true p c at.node.0 at.time operand)) }
{
    let Some(operand) = operand else {
        return Ok(constant_bit(true));
    };
    match operand.value {
        Source::Constant(word) => Ok(constant_bit(word != 0)),
        _ => of.operand(logic, at, operand, 1),
    }
}

/// Whether the loop may be left.
pub fn has_test(body: &Body<Timed>) -> bool
    ensures { result ≡ control.has_test_as body.now.test }
{
    let Some(test) = body.test else {
        return false;
    };
    match test.value {
        Source::Constant(word) => word % 2 == 0,
        _ => true,
    }
}

/// The time of an iteration at which its test is known.
fn known_at(node: &Node<Timed>) -> u64
    requires { IsEarlyNode node.now }
    ensures { result ≡ known (plans.body_of (timed_node node.now)) }
{
    test_known(body_of(node))
}

/// The bit of the cycles in which the test of an iteration becomes known.
pub fn is_tested(of: &Context<'_>, logic: &mut Logic, node: NodeId) -> Result<Atom, AllocError>
    requires { node.0 < length of.now.cfg.now.nodes.items }
    ensures { (p : Plan) (names : List Register) → IsContext p names of.now → IsBegun p names (circuit logic.old)
        → IfOk result (λ a. MakesTelling p names (circuit logic.old) (circuit logic.new) a (λ (c : Cycle). control.is_tested p c node.0)) }
{
    let itself = of.node(node);
    if !has_test(body_of(itself)) {
        return Ok(constant_bit(false));
    }
    let time = known_at(itself);
    of.at_iteration(logic, Reading { node, time })
}

/// The bit of a loop's test.
pub fn test_holds(of: &Context<'_>, logic: &Logic, node: NodeId) -> Result<Atom, AllocError>
    requires { node.0 < length of.now.cfg.now.nodes.items }
    ensures { (p : Plan) (names : List Register) → IsContext p names of.now → IsBegun p names (circuit logic.now)
        → IfOk result (λ a. Tells p names (circuit logic.now) a (λ (c : Cycle). control.test_holds p c node.0)) }
{
    let itself = of.node(node);
    let time = known_at(itself);
    is_true(of, logic, Reading { node, time }, body_of(itself).test)
}

/// Whether all tests so far were true, the one that may become known in this cycle among them.
fn runs_on(of: &Context<'_>, logic: &mut Logic, node: NodeId) -> Result<Atom, AllocError>
    requires { node.0 < length of.now.cfg.now.nodes.items }
    ensures { (p : Plan) (names : List Register) → IsContext p names of.now → IsBegun p names (circuit logic.old)
        → IfOk result (λ a. MakesTelling p names (circuit logic.old) (circuit logic.new) a (λ (c : Cycle). control.gate_after p c node.0 0 0)) }
{
    let running = of.register(Role::Gate(0))?;
    let test = test_holds(of, logic, node)?;
    logic.and(running, test)
}

// ---- stores

/// The gate of an iteration, so many intervals and cycles after its test is known.
fn gate_after(
    of: &Context<'_>,
    logic: &mut Logic,
    node: NodeId,
    tests: u64,
    rest: u64,
) -> Result<Atom, AllocError>
    requires { node.0 < length of.now.cfg.now.nodes.items }
    ensures { (p : Plan) (names : List Register) → IsContext p names of.now → IsBegun p names (circuit logic.old)
        → IfOk result (λ a. MakesTelling p names (circuit logic.old) (circuit logic.new) a (λ (c : Cycle). control.gate_after p c node.0 tests rest)) }
{
    if rest > 0 {
        return of.register(Role::Gate(tests));
    }
    if tests > 0 {
        return of.register(Role::Gate(tests - 1));
    }
    runs_on(of, logic, node)
}

/// Whether the node is a loop that may be left.
fn is_gated(node: &Node<Timed>) -> bool
    ensures { result ≡ (control.is_loop (Some (timed_node node.now)) && control.has_test_as (plans.body_of (timed_node node.now)).test) }
{
    match node {
        Node::Plain(_) => false,
        Node::Looped(region) => has_test(&region.body),
    }
}

/// The bit of a cycle in which a store of an iteration may change a word: all tests so far, its own among them, were true.
pub fn may_store(
    of: &Context<'_>,
    logic: &mut Logic,
    node: NodeId,
    op: &Op<Timed>,
) -> Result<Atom, AllocError>
    requires { node.0 < length of.now.cfg.now.nodes.items }
    ensures { (p : Plan) (names : List Register) (k : ℕ) → IsContext p names of.now → IsBegun p names (circuit logic.old)
        → IfOk result (λ a. MakesTelling p names (circuit logic.old) (circuit logic.new) a (λ (c : Cycle). control.may_store p c (placed node.0 k op.now))) }
{
    let time = op.stamp.start;
    let now = of.at_iteration(logic, Reading { node, time })?;
    let itself = of.node(node);
    if !is_gated(itself) {
        return Ok(now);
    }
    let since = time.saturating_sub(known_at(itself));
    let cycles = span(itself);
    let gate = gate_after(of, logic, node, since / cycles, since % cycles)?;
    logic.and(now, gate)
}

// ---- the last cycle

/// Whether so many cycles have been counted since a test failed.
fn has_waited(of: &Context<'_>, logic: &mut Logic, cycles: u64) -> Result<Atom, AllocError>
    ensures { (p : Plan) (names : List Register) → IsContext p names of.now → IsBegun p names (circuit logic.old)
        → IfOk result (λ a. MakesTelling p names (circuit logic.old) (circuit logic.new) a (λ (c : Cycle). c.regs Waited == cycles)) }
{
    if greatest_wait(of.cfg) <= 1 {
        return Ok(constant_bit(cycles == 0));
    }
    let register = of.register(Role::Waited)?;
    holds_number(logic, register, cycles)
}

/// Whether a test has failed, and so many cycles have been counted since then.
fn has_failed(of: &Context<'_>, logic: &mut Logic, cycles: u64) -> Result<Atom, AllocError>
    ensures { (p : Plan) (names : List Register) → IsContext p names of.now → IsBegun p names (circuit logic.old)
        → IfOk result (λ a. MakesTelling p names (circuit logic.old) (circuit logic.new) a (λ (c : Cycle). not (holds c (Gate 0)) && (c.regs Waited == cycles))) }
{
    let running = of.register(Role::Gate(0))?;
    let failed = logic.not(running)?;
    let over = has_waited(of, logic, cycles)?;
    logic.and(failed, over)
}

/// The bit of the cycle in which the failing test becomes known.
fn fails(of: &Context<'_>, logic: &mut Logic, node: NodeId) -> Result<Atom, AllocError>
    requires { node.0 < length of.now.cfg.now.nodes.items }
    ensures { (p : Plan) (names : List Register) → IsContext p names of.now → IsBegun p names (circuit logic.old)
        → IfOk result (λ a. MakesTelling p names (circuit logic.old) (circuit logic.new) a (λ (c : Cycle). control.leaves_loop p c node.0 0)) }
{
    let tested = is_tested(of, logic, node)?;
    let test = test_holds(of, logic, node)?;
    let failed = logic.not(test)?;
    logic.and(tested, failed)
}

/// The bit of a loop's last cycle, so many cycles after its failing test becomes known.
fn leaves_loop(
    of: &Context<'_>,
    logic: &mut Logic,
    node: NodeId,
    wait: u64,
) -> Result<Atom, AllocError>
    requires { node.0 < length of.now.cfg.now.nodes.items }
    ensures { (p : Plan) (names : List Register) → IsContext p names of.now → IsBegun p names (circuit logic.old)
        → IfOk result (λ a. MakesTelling p names (circuit logic.old) (circuit logic.new) a (λ (c : Cycle). control.leaves_loop p c node.0 wait)) }
{
    if wait == 0 {
        return fails(of, logic, node);
    }
    if !has_test(body_of(of.node(node))) {
        return Ok(constant_bit(false));
    }
    let active = of.active(node)?;
    let over = has_failed(of, logic, wait - 1)?;
    logic.and(active, over)
}

/// The bit of the last cycle of a node.
pub fn leaves(of: &Context<'_>, logic: &mut Logic, node: NodeId) -> Result<Atom, AllocError>
    requires { node.0 < length of.now.cfg.now.nodes.items }
    ensures { (p : Plan) (names : List Register) → IsContext p names of.now → IsBegun p names (circuit logic.old)
        → IfOk result (λ a. MakesTelling p names (circuit logic.old) (circuit logic.new) a (λ (c : Cycle). control.leaves_if p c node.0 (slice_get p.program.nodes node.0))) }
{
    let itself = of.node(node);
    match itself {
        Node::Plain(_) => {
            let time = span(itself) - 1;
            of.at(logic, Reading { node, time })
        }
        Node::Looped(region) => {
            let wait = cycles_after_test(&region.body, region.exit);
            leaves_loop(of, logic, node, wait)
        }
    }
}
