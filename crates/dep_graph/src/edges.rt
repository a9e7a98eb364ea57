ghost use Rattle.std.specs.Prelude.{◌≡◌, ◌<◌, ◌≤◌, ◌^◌, ◌+◌, ◌++◌, ◌∷◌, [], IfOk, OnOk, length, min, map};
ghost use Rattle.std.specs.List.{All};
ghost use Rattle.std.specs.Prelude.{ℕ, pos};
ghost use Rattle.dep_graph.specs.Meetings.{reach};
ghost use Rattle.dep_graph.specs.Dependences as spec;
ghost use Rattle.dep_graph.specs.Sizes.{IsSmallBody, IsOfSmallBody};
ghost use Rattle.dep_graph.specs.ForwardBodies.{IsForwardBody, IsForwardEdge};

use crate::access::{Access, Meeting, accesses_of, distances_between, is_store};
use crate::counter::{maker, result_of, sums_of};
use crate::edge::{Edge, Why};
use hls_base::number::OpId;
use ir_core::body::{Body, Op, Operand, Out, Source};
use ir_core::stamp::Untimed;
use ir_core::timing::latency;
use std::alloc::{AllocError, Global};

const MAX_DISTANCE: i128 = 65_536;

/// The operation that makes what an operand names.
fn maker_of(outs: &[Out], operand: Operand) -> Option<OpId>
    ensures { result ≡ spec.maker_of outs.now operand }
{
    match operand.value {
        Source::Constant(_) => None,
        Source::Variable(variable) => {
            if operand.distance > 0 {
                maker(outs, variable)
            } else {
                None
            }
        }
        Source::Result(op) => Some(op),
    }
}

/// An edge from an operation, with its latency.
fn push_edge(
    ops: &[Op<Untimed>],
    from: OpId,
    edge: Edge,
    edges: &mut Vec<Edge>,
) -> Result<(), AllocError>
    requires small { length ops.now < 2 ^ 25 }
    ensures { OnOk result (edges.new.items ≡ edges.old.items ++ spec.edges_behind ops.now (Some from) edge.to edge.distance edge.why) }
{
    let index = from.0 as usize;
    if index < ops.len() {
        let op = &ops[index];
        let latency = latency(op.kind, op.bits);
        edges.push(Edge {
            from: from.0 + 1,
            to: edge.to,
            latency,
            distance: edge.distance,
            why: edge.why,
        })?;
    }
    Ok(())
}

fn push_data_edge(
    body: &Body<Untimed>,
    operand: Operand,
    to: u32,
    edges: &mut Vec<Edge>,
) -> Result<(), AllocError>
    requires small { IsSmallBody body.now }
    ensures { OnOk result (edges.new.items ≡ edges.old.items ++ spec.data_edge body.now to operand) }
{
    if let Some(from) = maker_of(&body.outs, operand) {
        let edge = Edge {
            from: 0,
            to,
            latency: 0,
            distance: operand.distance,
            why: Why::Data,
        };
        push_edge(&body.ops, from, edge, edges)?;
    }
    Ok(())
}

/// The edges to an operation from those that make these operands.
fn push_edges_to(
    body: &Body<Untimed>,
    operands: &[Operand],
    to: u32,
    edges: &mut Vec<Edge>,
) -> Result<(), AllocError>
    requires small { IsSmallBody body.now }
    ensures { OnOk result (edges.new.items ≡ edges.old.items ++ spec.gather (spec.data_edge body.now to) operands.now) }
{
    for operand in operands {
        push_data_edge(body, *operand, to, edges)?;
    }
    Ok(())
}

/// The edges to an operation from those that make its arguments and its guard.
fn push_data_edges(
    body: &Body<Untimed>,
    op: &Op<Untimed>,
    to: u32,
    edges: &mut Vec<Edge>,
) -> Result<(), AllocError>
    requires small { IsSmallBody body.now }
    ensures { OnOk result (edges.new.items ≡ edges.old.items ++ spec.data_edges body.now to op.now) }
{
    push_edges_to(body, op.args.as_slice(), to, edges)?;
    if let Some(guard) = op.guard {
        push_data_edge(body, guard, to, edges)?;
    }
    Ok(())
}

/// The operation that makes the test of an iteration in this iteration.
pub fn test_maker(test: Option<Operand>) -> Option<OpId>
    ensures { result ≡ spec.test_maker test }
{
    match test {
        Some(operand) => result_of(operand.value),
        None => None,
    }
}

/// The edge to a store from the operation that makes the test.
fn push_control_edges(
    body: &Body<Untimed>,
    op: &Op<Untimed>,
    to: u32,
    edges: &mut Vec<Edge>,
) -> Result<(), AllocError>
    requires small { IsSmallBody body.now }
    ensures { OnOk result (edges.new.items ≡ edges.old.items ++ spec.control_edges body.now to op.now) }
{
    if !is_store(op.kind) {
        return Ok(());
    }
    if let Some(test) = test_maker(body.test) {
        let edge = Edge {
            from: 0,
            to,
            latency: 0,
            distance: 0,
            why: Why::Control,
        };
        push_edge(&body.ops, test, edge, edges)?;
    }
    Ok(())
}

fn memory_edge(from: &Access, to: &Access, distance: u32) -> Edge
    requires from { IsOfSmallBody from.now }
    requires to { IsOfSmallBody to.now }
    ensures { result ≡ spec.memory_edge (reach from.now) (reach to.now) distance }
{
    Edge {
        from: from.op + 1,
        to: to.op + 1,
        latency: if from.is_store { 1 } else { 0 },
        distance,
        why: Why::Memory,
    }
}

/// The edges at one distance: none at a negative one, and at 0 in the order of the program.
fn push_near_edges(
    from: &Access,
    to: &Access,
    distance: i128,
    edges: &mut Vec<Edge>,
) -> Result<(), AllocError>
    requires from { IsOfSmallBody from.now }
    requires to { IsOfSmallBody to.now }
    ensures { OnOk result (edges.new.items ≡ edges.old.items ++ spec.near_edges (reach from.now) (reach to.now) distance) }
{
    if distance > 0 {
        let near = distance.min(MAX_DISTANCE) as u32;
        edges.push(memory_edge(from, to, near))?;
    } else if distance == 0 && from.op < to.op {
        edges.push(memory_edge(from, to, 0))?;
    }
    Ok(())
}

/// The edges from one access to another one that it may meet at every distance.
fn push_all_edges(from: &Access, to: &Access, edges: &mut Vec<Edge>) -> Result<(), AllocError>
    requires from { IsOfSmallBody from.now }
    requires to { IsOfSmallBody to.now }
    ensures { OnOk result (edges.new.items ≡ edges.old.items ++ spec.edges_at (reach from.now) (reach to.now) Meeting.Always) }
{
    if from.op < to.op {
        edges.push(memory_edge(from, to, 0))?;
    }
    edges.push(memory_edge(from, to, 1))?;
    Ok(())
}

/// The edges from one access to another one that it meets.
fn push_memory_edges(from: &Access, to: &Access, edges: &mut Vec<Edge>) -> Result<(), AllocError>
    requires from { IsOfSmallBody from.now }
    requires to { IsOfSmallBody to.now }
    ensures { OnOk result (edges.new.items ≡ edges.old.items ++ spec.memory_edges (reach from.now) (reach to.now)) }
{
    if !is_pair(from, to) {
        return Ok(());
    }
    match distances_between(&from.subscripts, &to.subscripts) {
        Meeting::Never => Ok(()),
        Meeting::At(distance) => push_near_edges(from, to, distance, edges),
        Meeting::Always => push_all_edges(from, to, edges),
    }
}

/// Whether the order of two accesses counts: they are of one array, different, and not both loads.
fn is_pair(one: &Access, other: &Access) -> bool
    ensures { result ≡ spec.is_pair (reach one.now) (reach other.now) }
{
    one.array.0 == other.array.0 && one.op != other.op && (one.is_store || other.is_store)
}

/// The edges from an access to the others of its array.
fn push_edges_from(
    access: &Access,
    others: &[Access],
    edges: &mut Vec<Edge>,
) -> Result<(), AllocError>
    requires access { IsOfSmallBody access.now }
    requires others { All IsOfSmallBody others.now }
    ensures { OnOk result (edges.new.items ≡ edges.old.items ++ spec.gather (spec.memory_edges (reach access.now)) (map reach others.now)) }
{
    for other in others {
        push_memory_edges(access, other, edges)?;
    }
    Ok(())
}

/// The edges between accesses.
fn push_edges_between(accesses: &[Access], edges: &mut Vec<Edge>) -> Result<(), AllocError>
    requires { All IsOfSmallBody accesses.now }
    ensures { OnOk result (edges.new.items ≡ edges.old.items ++ spec.edges_of_reaches (map reach accesses.now)) }
{
    for access in accesses {
        push_edges_from(access, accesses, edges)?;
    }
    Ok(())
}

/// The edges to the operations of a body other than those between accesses.
fn push_op_edges(body: &Body<Untimed>, edges: &mut Vec<Edge>) -> Result<(), AllocError>
    requires small { IsSmallBody body.now }
    ensures { OnOk result (edges.new.items ≡ edges.old.items ++ spec.op_edges body.now 0 body.now.ops.items) }
{
    for (number, op) in body.ops.iter().enumerate() {
        let to = number as u32 + 1;
        push_data_edges(body, op, to, edges)?;
        push_control_edges(body, op, to, edges)?;
    }
    Ok(())
}

/// What each operation of a body waits for. Where the body is no loop's, only edges of distance 0 count.
pub fn edges(alloc: Global, body: &Body<Untimed>) -> Result<Vec<Edge>, AllocError>
    requires { IsForwardBody body.now }
    ensures all { IfOk result (λ edges. edges.items ≡ spec.edges_of body.now) }
    ensures forward { IfOk result (λ edges. All (IsForwardEdge (length body.now.ops.items + 1)) edges.items) }
{
    let sums = sums_of(alloc, body)?;
    let accesses = accesses_of(alloc, body, &sums)?;
    let mut edges = Vec::new(alloc);
    push_op_edges(body, &mut edges)?;
    push_edges_between(&accesses, &mut edges)?;
    Ok(edges)
}
