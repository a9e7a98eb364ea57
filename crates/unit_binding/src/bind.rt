ghost use Rattle.std.specs.Prelude.{◌≡◌, ◌+◌, ◌<◌, ◌≤◌, ◌^◌, IfOk, OnOk, length, map, option_to_list, slice_index};
ghost use Rattle.ir_core.specs.Timing as timing;
ghost use Rattle.std.specs.List.{All};
ghost use Rattle.dep_graph.specs.ForwardBodies.{IsForwardBody, IsForwardEdge};
ghost use Rattle.unit_binding.specs.Binding as spec;
ghost use Rattle.unit_binding.specs.Ranks.{AreForwardOrders};

use crate::binding::{Binding, UnitOrder};
use crate::times::{least_times, sorted_within};
use dep_graph::edge::Edge;
use hls_base::settings::Units;
use ir_core::body::{Body, Op};
use ir_core::cfg::Memory;
use ir_core::stamp::Untimed;
use ir_core::timing::{UnitClass, occupancy, unit_class};
use std::alloc::{AllocError, Global};

/// An operation that shares units, in the order in which they are given out.
#[derive(Clone, Copy, PartialEq, Eq, PartialOrd, Ord)]
pub struct Request {
    pub class: UnitClass,
    pub time: u64,
    pub op: u32,
    pub occupancy: u32,
}

/// How many units a class has, at least one.
fn unit_count(units: Units, class: UnitClass) -> u32
    ensures value { result ≡ spec.unit_count units class }
    ensures few { result < 256 }
{
    let count = match class {
        UnitClass::Multiplier(_) => units.mul,
        UnitClass::Divider(_) => units.div,
        UnitClass::Port(_) => units.ports,
    };
    if count < 1 { 1 } else { u32::from(count) }
}

/// The time of an operation, whose node is that behind its number.
fn time_of(times: &[u64], op: u32) -> u64
    ensures { result ≡ slice_index times.now (op + 1) }
{
    let node = op as usize + 1;
    if node < times.len() { times[node] } else { 0 }
}

/// The request of an operation, if it shares units.
fn request_of(memories: &[Memory], times: &[u64], number: u32, op: &Op<Untimed>) -> Option<Request>
    ensures { option_to_list result ≡ spec.request_of (timing.unit_class op.now.kind op.now.bits op.now.array memories.now) (slice_index times.now (number + 1)) number (timing.occupancy op.now.kind op.now.bits) }
{
    let class = unit_class(op, memories)?;
    Some(Request {
        class,
        time: time_of(times, number),
        op: number,
        occupancy: occupancy(op.kind, op.bits),
    })
}

/// The operations that share units.
fn requests_of(
    alloc: Global,
    body: &Body<Untimed>,
    memories: &[Memory],
    times: &[u64],
) -> Result<Vec<Request>, AllocError>
    requires few { length body.now.ops.items < 2 ^ 32 }
    ensures { IfOk result (λ v. v.items ≡ spec.requests_from times.now memories.now 0 body.now.ops.items) }
{
    let mut requests = Vec::new(alloc);
    for (number, op) in body.ops.iter().enumerate() {
        if let Some(request) = request_of(memories, times, number as u32, op) {
            requests.push(request)?;
        }
    }
    Ok(requests)
}

fn same_class(one: UnitClass, other: UnitClass) -> bool
    ensures { result ≡ spec.same_class one other }
{
    match (one, other) {
        (UnitClass::Multiplier(bits), UnitClass::Multiplier(others)) => bits == others,
        (UnitClass::Divider(bits), UnitClass::Divider(others)) => bits == others,
        (UnitClass::Port(array), UnitClass::Port(another)) => array.0 == another.0,
        _ => false,
    }
}

fn is_class(one: Option<UnitClass>, class: UnitClass) -> bool
    ensures { result ≡ spec.is_class one class }
{
    match one {
        Some(other) => same_class(other, class),
        None => false,
    }
}

/// Puts an operation behind those of the order of this number, or into a new one.
fn serve(
    alloc: Global,
    orders: &mut Vec<UnitOrder>,
    index: usize,
    unit: u32,
    request: Request,
) -> Result<(), AllocError>
    ensures { OnOk result (map spec.order_view orders.new.items ≡ spec.served (map spec.order_view orders.old.items) index unit request) }
{
    if index < orders.len() {
        let order = &mut orders[index];
        order.ops.push(request.op)?;
    } else {
        let mut ops = Vec::new(alloc);
        ops.push(request.op)?;
        orders.push(UnitOrder {
            unit,
            occupancy: request.occupancy,
            ops,
        })?;
    }
    Ok(())
}

/// Where the next operation goes: the orders of the current class begin at `first`.
#[derive(Clone, Copy, PartialEq, Eq)]
pub struct Turn {
    pub class: Option<UnitClass>,
    pub first: usize,
    pub unit: u32,
}

/// Turns to a class, where `count` orders are there.
fn opened(turn: Turn, class: UnitClass, count: usize) -> Turn
    ensures { result ≡ spec.opened turn class count }
{
    if is_class(turn.class, class) {
        turn
    } else {
        Turn {
            class: Some(class),
            first: count,
            unit: 0,
        }
    }
}

fn next_unit(units: Units, class: UnitClass, unit: u32) -> u32
    requires small { unit < 256 }
    ensures value { result ≡ spec.next_unit units class unit }
    ensures small { result < 256 }
{
    let next = unit + 1;
    if next < unit_count(units, class) {
        next
    } else {
        0
    }
}

/// Gives the unit whose turn it is to an operation.
fn give(
    alloc: Global,
    binding: &mut Binding,
    turn: Turn,
    request: Request,
) -> Result<(), AllocError>
    requires first { turn.first ≤ length binding.old.orders.items }
    requires small { turn.unit < 256 }
    ensures { OnOk result (spec.binding_view binding.new ≡ spec.given (spec.binding_view binding.old) turn request) }
{
    let index = turn.first + turn.unit as usize;
    let op = request.op as usize;
    if op < binding.unit_of.len() {
        binding.unit_of[op] = turn.unit;
    }
    serve(alloc, &mut binding.orders, index, turn.unit, request)
}

/// Gives the operations of each class to its units in turn.
fn deal(
    alloc: Global,
    units: Units,
    requests: &[Request],
    binding: &mut Binding,
) -> Result<(), AllocError>
    ensures { OnOk result (spec.binding_view binding.new ≡ spec.dealt units (spec.binding_view binding.old) spec.first_turn requests.now) }
{
    let mut turn = Turn {
        class: None,
        first: 0,
        unit: 0,
    };
    for request in requests {
        turn = opened(turn, request.class, binding.orders.len());
        give(alloc, binding, turn, *request)?;
        turn.unit = next_unit(units, request.class, turn.unit);
    }
    Ok(())
}

/// Gives the operations of each class to its units in turn, in the order of the times at which they could start if there were units enough, and of their numbers where these are equal. The orders name operations by their numbers.
pub fn bind(
    alloc: Global,
    body: &Body<Untimed>,
    memories: &[Memory],
    edges: &[Edge],
    units: Units,
) -> Result<Binding, AllocError>
    requires body { IsForwardBody body.now }
    requires edges { All (IsForwardEdge (length body.now.ops.items + 1)) edges.now }
    ensures bound { IfOk result (λ binding. spec.IsBoundBy ⟦<Request as Ord>⟧.cmp body.now memories.now edges.now units binding) }
    ensures forward { IfOk result (λ binding. AreForwardOrders (length body.now.ops.items) edges.now binding.orders.items) }
{
    let ops = body.ops.len();
    let within = sorted_within(alloc, edges)?;
    let times = least_times(alloc, ops + 1, &within)?;
    let mut requests = requests_of(alloc, body, memories, &times)?;
    requests.sort()?;
    let mut binding = Binding {
        unit_of: vec![in alloc; 0u32; ops]?,
        orders: Vec::new(alloc),
    };
    deal(alloc, units, &requests, &mut binding)?;
    Ok(binding)
}
