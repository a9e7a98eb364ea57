//! When operations could start if there were units enough.
ghost use Rattle.std.specs.Prelude.{◌≡◌, ◌<◌, ◌==◌, ◌↔◌, IfOk, IsTrue, length, map, replicate};
ghost use Rattle.std.specs.List.{All, filter};
ghost use Rattle.std.specs.List.Sorted.{IsPermutation};
ghost use Rattle.diff_solve.specs.Times.{Solves, IsBelowAll};
ghost use Rattle.unit_binding.specs.Times as spec;

use dep_graph::edge::Edge;
use std::alloc::{AllocError, Global};

/// The edges within an iteration.
pub fn edges_within(alloc: Global, edges: &[Edge]) -> Result<Vec<Edge>, AllocError>
    ensures { IfOk result (λ within. within.items ≡ filter (λ edge. edge.distance == 0) edges.now) }
{
    let mut within = Vec::new(alloc);
    for edge in edges {
        if edge.distance == 0 {
            within.push(*edge)?;
        }
    }
    Ok(within)
}

/// The edges within an iteration, sorted by the node to which they lead.
pub fn sorted_within(alloc: Global, edges: &[Edge]) -> Result<Vec<Edge>, AllocError>
    ensures moved { IfOk result (λ within. IsPermutation (filter (λ edge. edge.distance == 0) edges.now) within.items) }
    ensures sorted { IfOk result (λ within. spec.AreSorted within.items) }
{
    let mut within = edges_within(alloc, edges)?;
    within.sort_by_key(|edge| edge.to)?;
    Ok(within)
}

/// Moves each node behind those from which edges lead to it.
fn follow_all(times: &mut [u64], edges: &[Edge])
    requires lead_on { All (spec.LeadsOn (length times.old)) edges.now }
    requires sorted { spec.AreSorted edges.now }
    requires zero { times.old ≡ replicate (length times.old) 0 }
    ensures solves { Solves (length times.old) (map spec.edge_constraint edges.now) times.new }
    ensures least { IsBelowAll (length times.old) (map spec.edge_constraint edges.now) times.new }
{
    for edge in edges {
        let time = times[edge.from as usize] + u64::from(edge.latency);
        let to = edge.to as usize;
        if times[to] < time {
            times[to] = time;
        }
    }
}

/// The least time of each node under edges that are sorted by the node to which they lead.
pub fn least_times(alloc: Global, nodes: usize, edges: &[Edge]) -> Result<Vec<u64>, AllocError>
    requires lead_on { All (spec.LeadsOn nodes) edges.now }
    requires sorted { spec.AreSorted edges.now }
    ensures solves { IfOk result (λ times. Solves nodes (map spec.edge_constraint edges.now) times.items) }
    ensures least { IfOk result (λ times. IsBelowAll nodes (map spec.edge_constraint edges.now) times.items) }
{
    let mut times = vec![in alloc; 0u64; nodes]?;
    follow_all(&mut times, edges);
    Ok(times)
}
