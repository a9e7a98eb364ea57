//! Where operands stand when they are read.
ghost use Rattle.std.specs.Prelude.{◌≡◌, ◌<◌, ◌+◌, ◌*◌, ℕ, List, IfOk, length};
ghost use Rattle.rtl_core.specs.ClockStep.{widths};
ghost use Rattle.rtl_core.specs.Netlist.{Netlist};
ghost use Rattle.rtl_core.specs.Valid.{HasBits};
ghost use Rattle.clock_ir.specs.Flows.{place, ready};
ghost use Rattle.clock_ir.specs.ClockRuns.{timed_node};
ghost use Rattle.rtl_logic.specs.Making.{circuit};
ghost use Rattle.datapath.specs.Plans as plans;
ghost use Rattle.datapath.specs.Plans.{Plan};
ghost use Rattle.datapath.specs.Cycles.{Register, Cycle};
ghost use Rattle.datapath.specs.Reading as reading;
ghost use Rattle.reg_binding.specs.SmallTimes.{IsEarlyNode};
ghost use Rattle.datapath.specs.CircuitWires.Carrying.{IsBegun, Carries};
ghost use Rattle.circuit_context.specs.Wanted.Logs.{CarriesSome};
ghost use Rattle.circuit_context.specs.Contexts.{IsContext};

use crate::context::{Context, Reading};
use crate::numbers::number;
use crate::wanted::role::Role;
use datapath::plan_sizes::sizes::{body_of, chain_of, ready_at};
use hls_base::number::{NodeId, OpId};
use hls_base::refusal::impossible;
use ir_core::body::{Operand, Source};
use ir_core::cfg::Node;
use ir_core::timed::Timed;
use rtl_core::design::Atom;
use rtl_logic::logic::Logic;
use std::alloc::AllocError;

/// The atom, where it has so many bits.
pub fn with_width(logic: &Logic, atom: Atom, bits: u8) -> Result<Atom, AllocError>
    ensures same { IfOk result (λ a. a ≡ atom) }
    ensures fits { (n : ℕ) → HasBits (widths (circuit logic.now)) n atom → IfOk result (λ a. n ≡ bits) }
{
    if logic.width(atom) == bits {
        Ok(atom)
    } else {
        Err(impossible())
    }
}

/// The interval of a loop, the length of a block.
fn interval_of(node: &Node<Timed>) -> u32
    ensures { result ≡ (plans.body_of (timed_node node.now)).interval }
{
    match node {
        Node::Plain(block) => block.length,
        Node::Looped(region) => region.ii,
    }
}

/// The time at which a result is read, counted from the beginning of the iteration that makes it.
fn time_read(interval: u32, time: u64, distance: u32) -> u128
    ensures { result ≡ time + distance * interval }
{
    let between = distance as u64 * interval as u64;
    time as u128 + between as u128
}

/// The first time at which a result is there.
fn first_time(node: &Node<Timed>, op: OpId) -> u64
    requires { IsEarlyNode node.now }
    ensures { result ≡ ready (plans.body_of (timed_node node.now)) op }
{
    ready_at(body_of(node), op)
}

/// The place of a chain at which a result is read, so many iterations after it was made.
fn place_read(node: &Node<Timed>, op: OpId, time: u64, distance: u32) -> Result<u32, AllocError>
    requires { IsEarlyNode node.now }
    ensures { IfOk result (λ j. j ≡ place (plans.body_of (timed_node node.now)).interval (ready (plans.body_of (timed_node node.now)) op) time distance) }
{
    let interval = interval_of(node);
    let first = first_time(node, op);
    let time = time_read(interval, time, distance);
    if interval == 0 {
        return Ok(0);
    }
    match u32::try_from(time.saturating_sub(first as u128) / interval as u128) {
        Ok(place) => Ok(place),
        Err(_) => Err(impossible()),
    }
}

impl<'a> Context<'a> {
    /// What an operand of so many bits has in a cycle.
    pub fn operand(
        &self,
        logic: &Logic,
        at: Reading,
        operand: Operand,
        bits: u8,
    ) -> Result<Atom, AllocError>
        requires { at.node.0 < length self.now.cfg.now.nodes.items }
        ensures { (p : Plan) (names : List Register) → IsContext p names self.now → IsBegun p names (circuit logic.now)
            → IfOk result (λ a. Carries p names (circuit logic.now) bits a (λ (c : Cycle). reading.operand p c at.node.0 at.time operand)) }
    {
        let atom = self.operand_of_any_width(logic, at, operand, bits)?;
        with_width(logic, atom, bits)
    }

    /// What an operand has in a cycle; a constant has so many bits.
    pub fn operand_of_any_width(
        &self,
        logic: &Logic,
        at: Reading,
        operand: Operand,
        bits: u8,
    ) -> Result<Atom, AllocError>
        requires { at.node.0 < length self.now.cfg.now.nodes.items }
        ensures { (p : Plan) (names : List Register) → IsContext p names self.now → IsBegun p names (circuit logic.now)
            → IfOk result (λ a. CarriesSome p names (circuit logic.now) a (λ (c : Cycle). reading.operand p c at.node.0 at.time operand)) }
    {
        let node = self.node(at.node);
        match chain_of(body_of(node), operand) {
            Some((op, distance)) => {
                let place = place_read(node, op, at.time, distance)?;
                self.result_at(at.node, op, place)
            }
            None => self.read_from(operand.value, bits),
        }
    }

    /// What is no result of an operation; a constant has so many bits.
    fn read_from(&self, source: Source, bits: u8) -> Result<Atom, AllocError>
        ensures { (p : Plan) (names : List Register) (d : Netlist) → IsContext p names self.now → IsBegun p names d
            → IfOk result (λ a. CarriesSome p names d a (λ (c : Cycle). reading.read_from c source)) }
    {
        match source {
            Source::Constant(value) => number(bits, value),
            Source::Variable(variable) => self.register(Role::Variable(variable)),
            Source::Result(_) => number(bits, 0),
        }
    }

    /// The register that holds a place of the results of an operation.
    pub fn result_at(&self, node: NodeId, op: OpId, place: u32) -> Result<Atom, AllocError>
        ensures { (p : Plan) (names : List Register) (d : Netlist) → IsContext p names self.now → IsBegun p names d
            → IfOk result (λ a. CarriesSome p names d a (λ (c : Cycle). reading.result_at p c node.0 op.0 place)) }
    {
        let register = self.places.register(node, op, place)?;
        self.register(Role::Value(register))
    }
}
