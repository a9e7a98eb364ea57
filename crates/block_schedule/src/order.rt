//! The constraints of a block, each behind those that it builds on.
ghost use Rattle.std.specs.Prelude.{◌≡◌, ◌^◌, ◌++◌, IfOk, OnOk};
ghost use Rattle.std.specs.List.{All};
ghost use Rattle.std.specs.List.Sorted.{IsPermutation};
ghost use Rattle.unit_binding.specs.Ranks.{IsOrderWithin};
ghost use Rattle.unit_binding.specs.Times.{edge_constraints};
ghost use Rattle.block_schedule.specs.Constraints.{order_constraints, unit_constraints, block_constraints};

use dep_graph::edge::Edge;
use diff_solve::solve::Constraint;
use std::alloc::{AllocError, Global};
use unit_binding::binding::{Binding, UnitOrder};

/// The constraints of the edges within the block.
fn edges_within(alloc: Global, edges: &[Edge]) -> Result<Vec<Constraint>, AllocError>
    ensures { IfOk result (λ cs. cs.items ≡ edge_constraints edges.now) }
{
    let mut constraints = Vec::new(alloc);
    for edge in edges {
        if edge.distance == 0 {
            constraints.push(Constraint {
                from: edge.from,
                to: edge.to,
                weight: i64::from(edge.latency),
            })?;
        }
    }
    Ok(constraints)
}

/// Adds that a unit serves each of its operations after the one before.
fn add_order(order: &UnitOrder, constraints: &mut Vec<Constraint>) -> Result<(), AllocError>
    requires { IsOrderWithin (2 ^ 25) order.now }
    ensures { OnOk result (constraints.new.items ≡ constraints.old.items ++ order_constraints order.now.occupancy order.now.ops.items) }
{
    for position in 1..order.ops.len() {
        constraints.push(Constraint {
            from: order.ops[position - 1] + 1,
            to: order.ops[position] + 1,
            weight: i64::from(order.occupancy),
        })?;
    }
    Ok(())
}

/// Adds the orders of units.
fn add_orders(orders: &[UnitOrder], constraints: &mut Vec<Constraint>) -> Result<(), AllocError>
    requires { All (IsOrderWithin (2 ^ 25)) orders.now }
    ensures { OnOk result (constraints.new.items ≡ constraints.old.items ++ unit_constraints orders.now) }
{
    for order in orders {
        add_order(order, constraints)?;
    }
    Ok(())
}

fn time_at(times: &[i64], node: u32) -> i64 {
    let index = node as usize;
    if index < times.len() { times[index] } else { 0 }
}

/// The least time of each node under constraints that lead from lower nodes to higher ones, and are sorted by these.
fn forward_times(
    alloc: Global,
    nodes: usize,
    constraints: &[Constraint],
) -> Result<Vec<i64>, AllocError> {
    let mut times = vec![in alloc; 0i64; nodes]?;
    for constraint in constraints {
        let time = time_at(&times, constraint.from).saturating_add(constraint.weight);
        let to = constraint.to as usize;
        if to < times.len() && times[to] < time {
            times[to] = time;
        }
    }
    Ok(times)
}

/// The constraints of the edges within the block and of the units. They are sorted by the times at which operations could start if there were units enough, so that one pass over them meets them all.
pub fn constraints(
    alloc: Global,
    nodes: usize,
    edges: &[Edge],
    binding: &Binding,
) -> Result<Vec<Constraint>, AllocError>
    requires { All (IsOrderWithin (2 ^ 25)) binding.now.orders.items }
    ensures { IfOk result (λ cs. IsPermutation (block_constraints edges.now binding.now.orders.items) cs.items) }
{
    let mut constraints = edges_within(alloc, edges)?;
    constraints.sort_by_key(|constraint| constraint.to)?;
    let times = forward_times(alloc, nodes, &constraints)?;
    add_orders(&binding.orders, &mut constraints)?;
    constraints.sort_by_key(|constraint| (time_at(&times, constraint.to), constraint.to))?;
    Ok(constraints)
}
