//! The times of a program's operations.
ghost use Rattle.std.specs.Prelude.{◌≡◌, ◌++◌, [], map, length, IfOk, OnOk, option_to_list};
ghost use Rattle.std.specs.List.{All};
ghost use Rattle.std.specs.List.Sorted.{IsPermutation, IsSortedBy};
ghost use Rattle.std.specs.Ordering.{is_lt};
ghost use Rattle.dep_graph.specs.ForwardBodies.{IsForwardBody};
ghost use Rattle.modulo_loop.specs.ForwardRules.{IsForwardLoop};
ghost use Rattle.cycle_report.specs.PlainReport.{loop_of};
ghost use Rattle.report_rows.specs.Points.{point_order};
ghost use Rattle.report_rows.specs.ForwardNodes.{HasForwardBody};
ghost use Rattle.report_rows.specs.Timing.{printed_edge, printed_cycle, IsTimedBlock, IsTimedLoop, IsTimedNode, AreTimed, AreTimedAs};

use crate::points::compare;
use block_schedule::schedule::schedule;
use cycle_report::report::{Edge4, LoopRow};
use dep_graph::edge::Edge;
use dep_graph::edges::edges;
use hls_base::settings::Units;
use ir_core::cfg::{Block, Loop, Memory, Node};
use ir_core::stamp::Untimed;
use ir_core::timed::Timed;
use modulo_loop::pipeline::pipeline;
use std::alloc::{AllocError, Global};
use unit_binding::bind::bind;
use unit_binding::times::edges_within;

/// Nodes with times, and what the report says of the overlapped loops.
#[derive(Drop)]
pub struct TimedNodes {
    pub nodes: Vec<Node<Timed>>,
    pub loops: Vec<LoopRow>,
}

fn timed_block(
    alloc: Global,
    block: &Block<Untimed>,
    memories: &[Memory],
    units: Units,
) -> Result<Block<Timed>, AllocError>
    requires { IsForwardBody block.now.body }
    ensures { IfOk result (IsTimedBlock memories.now units block.now) }
{
    let all = edges(alloc, &block.body)?;
    let within = edges_within(alloc, all.as_slice())?;
    let constraints = within.as_slice();
    let binding = bind(alloc, &block.body, memories, constraints, units)?;
    let timed = schedule(alloc, block, constraints, &binding)?;
    Ok(timed)
}

/// Edges as the report prints them.
fn printed(alloc: Global, edges: &[Edge]) -> Result<Vec<Edge4>, AllocError>
    ensures { IfOk result (λ v. v.items ≡ map printed_edge edges.now) }
{
    let mut cycle = Vec::with_capacity(alloc, edges.len())?;
    for edge in edges {
        cycle.push(Edge4 {
            from: edge.from,
            to: edge.to,
            latency: edge.latency,
            distance: edge.distance,
        })?;
    }
    Ok(cycle)
}

/// The cycle of edges for which a smaller interval is impossible.
fn cycle_of(alloc: Global, lower: Option<Vec<Edge>>) -> Result<Vec<Edge4>, AllocError>
    ensures { IfOk result (λ v. v.items ≡ printed_cycle lower) }
{
    match lower {
        Some(edges) => printed(alloc, &edges),
        None => Ok(Vec::new(alloc)),
    }
}

fn timed_loop(
    alloc: Global,
    region: &Loop<Untimed>,
    memories: &[Memory],
    units: Units,
) -> Result<(Loop<Timed>, LoopRow), AllocError>
    requires { IsForwardLoop region.now.body }
    ensures { IfOk result (λ made. IsTimedLoop memories.now units region.now made.0 (loop_of made.1)) }
{
    let all = edges(alloc, &region.body)?;
    let constraints = all.as_slice();
    let binding = bind(alloc, &region.body, memories, constraints, units)?;
    let pipelined = pipeline(alloc, region, constraints, &binding)?;
    let row = LoopRow {
        point: pipelined.region.point.copy(alloc)?,
        ii: pipelined.region.ii,
        exit: pipelined.region.exit,
        cycle: cycle_of(alloc, pipelined.lower)?,
    };
    Ok((pipelined.region, row))
}

/// The node with its times, and the row of a loop.
fn timed_node(
    alloc: Global,
    node: &Node<Untimed>,
    memories: &[Memory],
    units: Units,
) -> Result<(Node<Timed>, Option<LoopRow>), AllocError>
    requires { HasForwardBody node.now }
    ensures { IfOk result (λ made. IsTimedNode memories.now units node.now made.0 (map loop_of (option_to_list made.1))) }
{
    match node {
        Node::Plain(block) => {
            let timed = timed_block(alloc, block, memories, units)?;
            Ok((Node::Plain(timed), None))
        }
        Node::Looped(region) => {
            let (timed, row) = timed_loop(alloc, region, memories, units)?;
            Ok((Node::Looped(timed), Some(row)))
        }
    }
}

fn push_row(loops: &mut Vec<LoopRow>, row: Option<LoopRow>) -> Result<(), AllocError>
    ensures { OnOk result (loops.new.items ≡ loops.old.items ++ option_to_list row) }
{
    if let Some(row) = row {
        loops.push(row)?;
    }
    Ok(())
}

/// All nodes with their times, and the rows of the loops in the order of the nodes.
fn all_timed(
    alloc: Global,
    nodes: &[Node<Untimed>],
    memories: &[Memory],
    units: Units,
) -> Result<TimedNodes, AllocError>
    requires { All HasForwardBody nodes.now }
    ensures { IfOk result (λ made. AreTimed memories.now units nodes.now made.nodes.items (map loop_of made.loops.items)) }
{
    let mut timed = Vec::with_capacity(alloc, nodes.len())?;
    let mut loops = Vec::new(alloc);
    for node in nodes {
        let (node, row) = timed_node(alloc, node, memories, units)?;
        timed.push(node)?;
        push_row(&mut loops, row)?;
    }
    Ok(TimedNodes {
        nodes: timed,
        loops,
    })
}

/// The rows in the order of their points.
fn sorted(loops: Vec<LoopRow>) -> Result<Vec<LoopRow>, AllocError>
    ensures moved { IfOk result (λ v. IsPermutation (map loop_of loops.items) (map loop_of v.items)) }
    ensures sorted { IfOk result (λ v. IsSortedBy (λ x y. is_lt (point_order x.point y.point)) (map loop_of v.items)) }
{
    let mut rows = loops;
    rows.sort_by(|a, b| compare(&a.point, &b.point))?;
    Ok(rows)
}

/// Gives the operations of each block and loop their times.
pub fn timed_nodes(
    alloc: Global,
    nodes: &[Node<Untimed>],
    memories: &[Memory],
    units: Units,
) -> Result<TimedNodes, AllocError>
    requires { All HasForwardBody nodes.now }
    ensures { IfOk result (λ made. AreTimedAs memories.now units nodes.now made.nodes.items (map loop_of made.loops.items)) }
{
    let TimedNodes { nodes, loops } = all_timed(alloc, nodes, memories, units)?;
    Ok(TimedNodes {
        nodes,
        loops: sorted(loops)?,
    })
}
