ghost use Rattle.std.specs.Prelude.{◌≡◌, ◌+◌, ◌-◌, ◌<◌, ◌≤◌, ◌^◌, ℕ, IfOk, length};
ghost use Rattle.std.specs.List.{All};
ghost use Rattle.dep_graph.specs.Sizes.{IsSmallBody};
ghost use Rattle.dep_graph.specs.ForwardBodies.{IsForwardEdge};
ghost use Rattle.diff_solve.specs.Times.{Solves, IsBelowAll};
ghost use Rattle.unit_binding.specs.Ranks.{AreForwardOrders};
ghost use Rattle.block_schedule.specs.Constraints.{block_constraints};
ghost use Rattle.block_schedule.specs.Schedules.{ready, IsThereBefore, EndIsReady, IsLongEnough, IsScheduled};

use crate::order::constraints;
use dep_graph::edge::Edge;
use diff_solve::solve::{Solved, solve};
use hls_base::number::NodeId;
use hls_base::words::Words;
use ir_core::body::{Body, Operand, Source};
use ir_core::cfg::{Block, End};
use ir_core::stamp::Untimed;
use ir_core::timed::Timed;
use ir_core::timing::latency;
use std::alloc::{AllocError, Global};
use unit_binding::binding::Binding;
use unit_binding::copy::{end_copy, timed_body};

/// The least time of each node.
fn least_times(
    alloc: Global,
    ops: usize,
    edges: &[Edge],
    binding: &Binding,
) -> Result<Words, AllocError>
    requires few { ops < 2 ^ 25 }
    requires edges { All (IsForwardEdge (ops + 1)) edges.now }
    requires orders { AreForwardOrders ops edges.now binding.now.orders.items }
    ensures solves { IfOk result (λ times. Solves (ops + 1) (block_constraints edges.now binding.now.orders.items) times) }
    ensures least { IfOk result (λ times. IsBelowAll (ops + 1) (block_constraints edges.now binding.now.orders.items) times) }
    ensures early { IfOk result (λ times. All (λ t. t ≤ 2 ^ 32 - 2 ^ 25) times) }
{
    let constraints = constraints(alloc, ops + 1, edges, binding)?;
    let nodes = ops as u32 + 1;
    match solve(alloc, nodes, &constraints)? {
        Solved::Least(times) => Ok(times),
        Solved::Cycle(_) => unreachable!(),
    }
}

/// The cycle from which the value of an operation is there.
fn ready_time(body: &Body<Untimed>, times: &[u64], number: usize) -> u64
    requires long { length times.now ≡ length body.now.ops.items + 1 }
    requires early { All (λ t. t ≤ 2 ^ 32 - 2 ^ 25) times.now }
    ensures value { result ≡ ready body.now.ops.items times.now number }
    ensures small { result + 1 < 2 ^ 32 }
{
    if number < body.ops.len() {
        let op = &body.ops[number];
        times[number + 1] + u64::from(latency(op.kind, op.bits))
    } else {
        0
    }
}

/// The least length that has an operand there one cycle before the end.
fn length_for(body: &Body<Untimed>, times: &[u64], operand: Operand) -> u64
    requires long { length times.now ≡ length body.now.ops.items + 1 }
    requires early { All (λ t. t ≤ 2 ^ 32 - 2 ^ 25) times.now }
    ensures some { 1 ≤ result }
    ensures enough { IsThereBefore body.now.ops.items times.now operand result }
    ensures least { (len : ℕ) → 1 ≤ len → IsThereBefore body.now.ops.items times.now operand len → result ≤ len }
    ensures small { result < 2 ^ 32 }
{
    match operand.value {
        Source::Result(op) => ready_time(body, times, op.0 as usize) + 1,
        _ => 1,
    }
}

/// The least length that has the cases there one cycle before the end.
fn length_for_cases(body: &Body<Untimed>, times: &[u64], cases: &[(Operand, NodeId)]) -> u64
    requires long { length times.now ≡ length body.now.ops.items + 1 }
    requires early { All (λ t. t ≤ 2 ^ 32 - 2 ^ 25) times.now }
    ensures some { 1 ≤ result }
    ensures enough { All (λ c. IsThereBefore body.now.ops.items times.now c.0 result) cases.now }
    ensures least { (len : ℕ) → 1 ≤ len → All (λ c. IsThereBefore body.now.ops.items times.now c.0 len) cases.now → result ≤ len }
    ensures small { result < 2 ^ 32 }
{
    let mut length = 1;
    for (operand, _) in cases {
        length = length_for(body, times, *operand).max(length);
    }
    length
}

/// The least length that has what the end uses there one cycle before.
fn length_for_end(body: &Body<Untimed>, times: &[u64], end: &End) -> u64
    requires long { length times.now ≡ length body.now.ops.items + 1 }
    requires early { All (λ t. t ≤ 2 ^ 32 - 2 ^ 25) times.now }
    ensures some { 1 ≤ result }
    ensures enough { EndIsReady body.now.ops.items times.now end.now result }
    ensures least { (len : ℕ) → 1 ≤ len → EndIsReady body.now.ops.items times.now end.now len → result ≤ len }
    ensures small { result < 2 ^ 32 }
{
    match end {
        End::Jump(_) | End::Return(None) => 1,
        End::Branch { test, .. } => length_for(body, times, *test),
        End::Choose { cases, .. } => length_for_cases(body, times, cases),
        End::Return(Some(value)) => length_for(body, times, *value),
    }
}

/// The least length of a block whose operations start at these times.
fn least_length(block: &Block<Untimed>, times: &[u64]) -> u64
    requires long { length times.now ≡ length block.now.body.ops.items + 1 }
    requires early { All (λ t. t ≤ 2 ^ 32 - 2 ^ 25) times.now }
    ensures enough { IsLongEnough block.now times.now result }
    ensures shortest { (len : ℕ) → IsLongEnough block.now times.now len → result ≤ len }
    ensures small { result < 2 ^ 32 }
{
    let mut length = length_for_end(&block.body, times, &block.end);
    for number in 0..block.body.ops.len() {
        length = ready_time(&block.body, times, number).max(length);
    }
    length
}

/// Starts each operation of a block as soon as the edges and the units allow it.
pub fn schedule(
    alloc: Global,
    block: &Block<Untimed>,
    edges: &[Edge],
    binding: &Binding,
) -> Result<Block<Timed>, AllocError>
    requires small { IsSmallBody block.now.body }
    requires edges { All (IsForwardEdge (length block.now.body.ops.items + 1)) edges.now }
    requires orders { AreForwardOrders (length block.now.body.ops.items) edges.now binding.now.orders.items }
    ensures { IfOk result (IsScheduled block.now edges.now binding.now) }
{
    let times = least_times(alloc, block.body.ops.len(), edges, binding)?;
    let length = least_length(block, times.items()) as u32;
    Ok(Block {
        point: block.point.copy(alloc)?,
        body: timed_body(alloc, &block.body, times.items(), &binding.unit_of)?,
        end: end_copy(alloc, &block.end)?,
        length,
    })
}
