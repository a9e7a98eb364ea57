//! What each point of a program costs.
ghost use Rattle.std.specs.Prelude.{◌≡◌, ◌+◌, ◌*◌, ◌^◌, ◌<◌, ◌≤◌, ◌++◌, [], IfOk, OnOk, length};
ghost use Rattle.std.specs.List.{flat_map};
ghost use Rattle.std.specs.List.Sorted.{IsPermutation, IsSortedBy};
ghost use Rattle.std.specs.Ordering.{is_lt, is_eq};
ghost use Rattle.report_rows.specs.Points.{point_order};
ghost use Rattle.report_rows.specs.Costs.{AreRowsOf, EachCounts, weighed, once, some_cost, some_costs, end_of, last_with, rows_with, merged_behind};

use crate::points::compare;
use cycle_report::report::{Cost, Formula};
use hls_base::point::{Point, PointKind};
use ir_core::cfg::Node;
use ir_core::timed::Timed;
use std::alloc::{AllocError, Global};
use std::cmp::Ordering;

fn add_cost(
    alloc: Global,
    costs: &mut Vec<Cost>,
    point: &Point,
    cost: u64,
) -> Result<(), AllocError>
    ensures { OnOk result (costs.new.items ≡ costs.old.items ++ some_cost point.now cost) }
{
    if cost > 0 {
        let point = point.copy(alloc)?;
        costs.push(Cost { point, cost })?;
    }
    Ok(())
}

/// The End of what this point is in.
fn end_of(alloc: Global, point: &Point) -> Result<Point, AllocError>
    ensures { IfOk result (λ p. p ≡ end_of point.now) }
{
    Ok(Point {
        path: point.path.copy(alloc)?,
        at: point.at,
        kind: PointKind::End,
    })
}

/// A block takes its length each time that its point is passed. A loop takes its interval for each iteration, and at its End two cycles more than its exit.
fn add_costs(alloc: Global, costs: &mut Vec<Cost>, node: &Node<Timed>) -> Result<(), AllocError>
    ensures costs { OnOk result (costs.new.items ≡ costs.old.items ++ some_costs node.now) }
    ensures small { OnOk result (weighed once (some_costs node.now) ≤ 2 ^ 33) }
{
    match node {
        Node::Plain(block) => add_cost(alloc, costs, &block.point, u64::from(block.length)),
        Node::Looped(region) => {
            let end = end_of(alloc, &region.point)?;
            add_cost(alloc, costs, &region.point, u64::from(region.ii))?;
            add_cost(alloc, costs, &end, u64::from(region.exit) + 2)
        }
    }
}

/// The costs of all blocks and loops.
fn all_costs(alloc: Global, nodes: &[Node<Timed>]) -> Result<Vec<Cost>, AllocError>
    ensures costs { IfOk result (λ v. v.items ≡ flat_map some_costs nodes.now) }
    ensures small { IfOk result (λ v. weighed once v.items ≤ length nodes.now * 2 ^ 33) }
{
    let mut costs = Vec::new(alloc);
    for node in nodes {
        add_costs(alloc, &mut costs, node)?;
    }
    Ok(costs)
}

/// The same costs, in order of their points.
fn sorted_costs(costs: Vec<Cost>) -> Result<Vec<Cost>, AllocError>
    ensures moved { IfOk result (λ v. IsPermutation costs.items v.items) }
    ensures sorted { IfOk result (λ v. IsSortedBy (λ x y. is_lt (point_order x.point y.point)) v.items) }
{
    let mut sorted = costs;
    sorted.sort_by(|a, b| compare(&a.point, &b.point))?;
    Ok(sorted)
}

fn is_same_point(a: &Point, b: &Point) -> bool
    ensures { result ≡ is_eq (point_order a.now b.now) }
{
    compare(a, b) == Ordering::Equal
}

/// Adds the cost to the last row, if that is of the same point.
fn add_behind(rows: &mut Vec<Cost>, last: Cost, cost: Cost) -> Result<(), AllocError>
    requires { last.cost + cost.cost < 2 ^ 64 }
    ensures { OnOk result (rows.new.items ≡ rows.old.items ++ last_with last cost) }
{
    if is_same_point(&last.point, &cost.point) {
        rows.push(Cost {
            point: last.point,
            cost: last.cost + cost.cost,
        })?;
    } else {
        rows.push(last)?;
        rows.push(cost)?;
    }
    Ok(())
}

fn add_row(rows: &mut Vec<Cost>, cost: Cost) -> Result<(), AllocError>
    requires { weighed once rows.old.items + cost.cost < 2 ^ 64 }
    ensures { OnOk result (rows.new.items ≡ rows_with rows.old.items cost) }
{
    match rows.pop() {
        Some(last) => add_behind(rows, last, cost),
        None => {
            rows.push(cost)?;
            Ok(())
        }
    }
}

/// One row for each point.
fn merged(alloc: Global, costs: Vec<Cost>) -> Result<Vec<Cost>, AllocError>
    requires { weighed once costs.items < 2 ^ 64 }
    ensures { IfOk result (λ v. v.items ≡ merged_behind [] costs.items) }
{
    let mut rows = Vec::with_capacity(alloc, costs.len())?;
    for cost in costs {
        add_row(&mut rows, cost)?;
    }
    Ok(rows)
}

/// The cycles of a run: one, and the cost of each point as often as it is passed.
pub fn formula_of(alloc: Global, nodes: &[Node<Timed>]) -> Result<Formula, AllocError>
    requires { length nodes.now < 2 ^ 31 }
    ensures base { IfOk result (λ f. f.base ≡ 1) }
    ensures rows { IfOk result (λ f. AreRowsOf nodes.now f.rows.items) }
    ensures longer { IfOk result (λ f. EachCounts nodes.now f.rows.items) }
{
    let costs = all_costs(alloc, nodes)?;
    let costs = sorted_costs(costs)?;
    let rows = merged(alloc, costs)?;
    Ok(Formula { base: 1, rows })
}
