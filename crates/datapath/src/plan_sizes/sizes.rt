//! Numbers that a timed program determines.
ghost use Rattle.std.specs.Prelude.{◌≡◌, ◌≤◌, ◌<◌, ◌-◌, ◌^◌, ℕ, None, Some, MatchOption, is_some, length, map, max, min, slice_get};
ghost use Rattle.std.specs.Option.{option_map};
ghost use Rattle.hls_base.specs.ArrayAddress as address;
ghost use Rattle.dep_graph.specs.Offsets as offsets;
ghost use Rattle.dep_graph.specs.Dependences.{maker_of};
ghost use Rattle.clock_ir.specs.Flows.{known, ready, ready_in, timed_body, timed_op};
ghost use Rattle.clock_ir.specs.ClockRuns.{timed_node, timed_program};
ghost use Rattle.datapath.specs.Plans as plans;
ghost use Rattle.datapath.specs.Plans.{Plan, array_of, host_arrays};
ghost use Rattle.datapath.specs.Control as control;
ghost use Rattle.datapath.specs.Control.{wait, wait_as};

use dep_graph::counter::{self, result_of};
use hls_base::number::{ArrayId, NodeId, OpId, VarId};
use ir_core::address::subscript_bits;
use ir_core::body::{Body, Op, Operand, Source};
use ir_core::cfg::{Cfg, Memory, Node};
use ir_core::timed::Timed;
use ir_core::timing::latency;

// ---- operations

/// The first cycle in which the operation's result stands in a register.
pub fn available(op: &Op<Timed>) -> u64
    ensures { result ≡ min (ready_in (Some (timed_op op.now))) (2 ^ 64 - 1) }
{
    op.stamp
        .start
        .saturating_add(latency(op.kind, op.bits) as u64)
}

/// The time of an iteration from which the value of an operation is there, 0 where there is no such operation.
pub fn ready_at(body: &Body<Timed>, op: OpId) -> u64
    ensures { (interval : ℕ) → result ≡ min (ready (timed_body interval body.now) op) (2 ^ 64 - 1) }
{
    let number = op.0 as usize;
    if number < body.ops.len() {
        available(&body.ops[number])
    } else {
        0
    }
}

/// The operation that makes a variable's value at the end of a body.
pub fn maker(body: &Body<Timed>, variable: VarId) -> Option<OpId>
    ensures { result ≡ offsets.maker body.now.outs.items variable.0 }
{
    counter::maker(&body.outs, variable)
}

/// The operation whose chain an operand of a loop reads, and how many iterations back.
pub fn chain_of(body: &Body<Timed>, operand: Operand) -> Option<(OpId, u32)>
    ensures { result ≡ option_map (λ op. (op, operand.distance)) (maker_of body.now.outs.items operand) }
{
    let op = match operand.value {
        Source::Result(op) => Some(op),
        Source::Variable(variable) => {
            if operand.distance > 0 {
                maker(body, variable)
            } else {
                None
            }
        }
        Source::Constant(_) => None,
    };
    op.map(|op| (op, operand.distance))
}

// ---- nodes

pub fn body_of(node: &Node<Timed>) -> &Body<Timed>
    ensures { timed_body (plans.body_of (timed_node node.now)).interval result.now ≡ plans.body_of (timed_node node.now) }
{
    match node {
        Node::Plain(block) => &block.body,
        Node::Looped(region) => &region.body,
    }
}

/// The cycles after which a node's time begins again: those of a block, or the interval of a loop.
pub fn span(node: &Node<Timed>) -> u64
    ensures value { result ≡ max 1 (plans.body_of (timed_node node.now)).interval }
    ensures positive { 1 ≤ result }
    ensures small { result < 2 ^ 32 }
{
    let cycles = match node {
        Node::Plain(block) => block.length,
        Node::Looped(region) => region.ii,
    };
    at_least_one(cycles as u64)
}

/// The cycle, counted from the beginning of its iteration, in which the test of a loop is known.
pub fn test_known(body: &Body<Timed>) -> u64
    ensures { (interval : ℕ) → result ≡ min (known (timed_body interval body.now)) (2 ^ 64 - 1) }
{
    let Some(test) = body.test else {
        return 0;
    };
    match result_of(test.value) {
        Some(op) => ready_at(body, op),
        None => 0,
    }
}

/// The cycles from the one in which the failing test is known to the last one of a loop.
pub fn cycles_after_test(body: &Body<Timed>, exit: u32) -> u64
    ensures { (interval : ℕ) → result ≡ wait (timed_body interval body.now) exit }
{
    (exit as u64).saturating_sub(test_known(body))
}

/// The same of any node: a block has none.
fn wait_of(node: &Node<Timed>) -> u64
    ensures { result ≡ wait_as (timed_node node.now) }
{
    match node {
        Node::Plain(_) => 0,
        Node::Looped(region) => cycles_after_test(&region.body, region.exit),
    }
}

// ---- numbers

/// The number, or 1 in place of 0.
pub fn at_least_one(number: u64) -> u64
    ensures value { result ≡ max 1 number }
    ensures positive { 1 ≤ result }
{
    if number == 0 { 1 } else { number }
}

/// The bits of a number: the powers of two that are not above it.
pub fn bits_of(number: u64) -> u8
    ensures value { result ≡ plans.bits_of number }
    ensures bound { result ≤ 64 }
{
    let mut bits: u8 = 0;
    for place in 0..64u8 {
        if number >> place as u32 != 0 {
            bits += 1;
        }
    }
    bits
}

// ---- memories

/// The address bits of a dimension, which is rounded up to a power of two that is at least 2.
pub fn dimension_bits(length: u32) -> u8
    ensures value { result ≡ address.subscript_bits length }
    ensures bound { result ≤ 16 }
{
    subscript_bits(length as usize) as u8
}

/// The address bits of a memory.
pub fn depth_log(memory: &Memory) -> u8
    ensures { result ≡ min (address.address_bits memory.now.dims.items) (2 ^ 8 - 1) }
{
    let mut bits: u8 = 0;
    for length in &memory.dims {
        bits = bits.saturating_add(dimension_bits(*length));
    }
    bits
}

/// Whether the memory keeps its contents from one run to the next and is out of the host's reach.
pub fn is_kept(memory: &Memory) -> bool
    ensures { result ≡ is_some (array_of memory.now).first }
{
    memory.initial.is_some()
}

/// The cycles in which a memory takes its first contents.
fn cycles_for(memory: &Memory) -> u64
    ensures { result ≡ min (plans.cycles_for (array_of memory.now)) (2 ^ 64 - 1) }
{
    if is_kept(memory) {
        1u64.checked_shl(depth_log(memory) as u32)
            .unwrap_or(u64::MAX)
    } else {
        0
    }
}

pub fn memory_at(cfg: &Cfg<Timed>, array: ArrayId) -> Option<&Memory>
    ensures { MatchOption result (slice_get cfg.now.frame.memories.items array.0 ≡ None) (λ m. slice_get cfg.now.frame.memories.items array.0 ≡ Some m.now) }
{
    cfg.frame.memories.get(array.0 as usize)
}

/// How many memories the host reaches.
pub fn host_memories(cfg: &Cfg<Timed>) -> usize
    ensures { (p : Plan) → map array_of cfg.now.frame.memories.items ≡ p.arrays → result ≡ length (host_arrays p) }
{
    let mut count: usize = 0;
    for memory in &cfg.frame.memories {
        if memory.host {
            count = count.saturating_add(1);
        }
    }
    count
}

// ---- programs

/// The cycles of the initial sequence after a reset.
pub fn initial_cycles(cfg: &Cfg<Timed>) -> u64
    ensures { (p : Plan) → map array_of cfg.now.frame.memories.items ≡ p.arrays → cfg.now.frame.kept.items ≡ p.kept → result ≡ min (plans.initial_cycles p) (2 ^ 64 - 1) }
{
    let mut cycles = if cfg.frame.kept.is_empty() { 0 } else { 1 };
    for memory in &cfg.frame.memories {
        cycles = cycles.max(cycles_for(memory));
    }
    cycles
}

/// The greatest time that a block, a loop or the initial sequence counts to.
pub fn greatest_time(cfg: &Cfg<Timed>) -> u64
    ensures { (p : Plan) → p.program ≡ timed_program cfg.now → map array_of cfg.now.frame.memories.items ≡ p.arrays → cfg.now.frame.kept.items ≡ p.kept
        → plans.initial_cycles p < 2 ^ 64 → result ≡ control.greatest_time p }
{
    let mut greatest = initial_cycles(cfg).saturating_sub(1);
    for node in &cfg.nodes {
        greatest = greatest.max(span(node).saturating_sub(1));
    }
    greatest
}

/// The greatest number of cycles that a loop counts after its failing test.
pub fn greatest_wait(cfg: &Cfg<Timed>) -> u64
    ensures { (p : Plan) → p.program ≡ timed_program cfg.now → result ≡ control.greatest_wait p }
{
    let mut greatest = 0;
    for node in &cfg.nodes {
        greatest = greatest.max(wait_of(node));
    }
    greatest
}
