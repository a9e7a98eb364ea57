//! How often a run passes the points of nodes, beside the run in C.
ghost use Rattle.std.specs.Prelude.{◌≡◌, map, IfOk};
ghost use Rattle.hls_base.specs.Tallies.{count_in};
ghost use Rattle.stage_runs.specs.Points.{point_of, counted};

use crate::stage::PointCount;
use cosim_levels::levels::cycles_of;
use cycle_report::report::{Cost, Formula};
use hls_base::point::{Point, Tally};
use ir_core::cfg::Node;
use ir_core::stamp::Untimed;
use std::alloc::{AllocError, Global};

/// How often a tally counts a point: what a formula gives in which it alone costs a cycle.
fn count_of(alloc: Global, tally: &Tally, point: &Point) -> Result<u128, AllocError>
    ensures { IfOk result (λ n. n ≡ count_in tally.now point.now) }
{
    let row = Cost {
        point: point.copy(alloc)?,
        cost: 1,
    };
    let formula = Formula {
        base: 0,
        rows: vec![in alloc; row]?,
    };
    cycles_of(&formula, tally)
}

fn point_of(node: &Node<Untimed>) -> &Point
    ensures { result.now ≡ point_of node.now }
{
    match node {
        Node::Plain(block) => &block.point,
        Node::Looped(region) => &region.point,
    }
}

/// The point of a node, as one tally counts it and as that of the run in C does.
fn point_count(
    alloc: Global,
    node: &Node<Untimed>,
    tally: &Tally,
    in_c: &Tally,
) -> Result<PointCount, AllocError>
    ensures { IfOk result (λ p. p ≡ counted tally.now in_c.now node.now) }
{
    let point = point_of(node);
    Ok(PointCount {
        point: point.copy(alloc)?,
        count: count_of(alloc, tally, point)?,
        in_c: count_of(alloc, in_c, point)?,
    })
}

/// The same for all nodes.
pub fn point_counts(
    alloc: Global,
    nodes: &[Node<Untimed>],
    tally: &Tally,
    in_c: &Tally,
) -> Result<Vec<PointCount>, AllocError>
    ensures { IfOk result (λ v. v.items ≡ map (counted tally.now in_c.now) nodes.now) }
{
    let mut counts = Vec::new(alloc);
    for node in nodes {
        counts.push(point_count(alloc, node, tally, in_c)?)?;
    }
    Ok(counts)
}
