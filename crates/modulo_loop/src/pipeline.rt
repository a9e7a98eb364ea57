ghost use Rattle.std.specs.Prelude.{◌≡◌, ◌+◌, ◌-◌, ◌<◌, ◌≤◌, ◌^◌, IfOk, length};
ghost use Rattle.std.specs.List.{All};
ghost use Rattle.dep_graph.specs.Dependences.{edges_of};
ghost use Rattle.dep_graph.specs.ForwardBodies.{IsForwardEdge};
ghost use Rattle.unit_binding.specs.Ranks.{AreForwardOrders};
ghost use Rattle.modulo_loop.specs.ForwardRules.{IsForwardLoop, AreForwardRules};
ghost use Rattle.modulo_loop.specs.Lowest.{HasLeastInterval};
ghost use Rattle.modulo_loop.specs.Searches.{IsAttempt, IsEarlyAttempt, IsFound};

use crate::exit::least_exit;
use crate::rules::rules;
use crate::tight::{constraints_at, cycle_of, least_interval};
use dep_graph::edge::Edge;
use diff_solve::solve::{Solved, solve};
use hls_base::words::Words;
use ir_core::cfg::Loop;
use ir_core::stamp::Untimed;
use ir_core::timed::Timed;
use std::alloc::{AllocError, Global};
use unit_binding::binding::Binding;
use unit_binding::copy::timed_body;

/// A loop with times. Above interval 1 `lower` has constraints that an interval one less cannot meet, each of which begins where the one before ends.
#[derive(Drop)]
pub struct Pipelined {
    pub region: Loop<Timed>,
    pub lower: Option<Vec<Edge>>,
}

/// What came of an interval: the least times, or rules that it cannot meet, and a greater interval.
#[derive(Drop)]
enum Attempt {
    Met(Words),
    TooTight { cycle: Vec<Edge>, next: u32 },
}

/// The times at the least interval, and the rules that one less cannot meet.
#[derive(Drop)]
struct Found {
    ii: u32,
    times: Words,
    lower: Option<Vec<Edge>>,
}

/// Tries an interval.
fn try_interval(alloc: Global, nodes: u32, rules: &[Edge], ii: u32) -> Result<Attempt, AllocError>
    requires some { 0 < nodes }
    requires few { nodes ≤ 2 ^ 25 }
    requires forward { AreForwardRules nodes rules.now }
    ensures attempt { IfOk result (IsAttempt nodes rules.now ii) }
    ensures early { IfOk result (IsEarlyAttempt (2 ^ 32 - 2 ^ 25)) }
{
    let constraints = constraints_at(alloc, rules, ii)?;
    match solve(alloc, nodes, &constraints)? {
        Solved::Least(times) => Ok(Attempt::Met(times)),
        Solved::Cycle(positions) => {
            let cycle = cycle_of(alloc, rules, positions.items())?;
            let next = least_interval(&cycle);
            Ok(Attempt::TooTight { cycle, next })
        }
    }
}

/// Raises the interval past each cycle of rules that cannot be met, until there is none.
fn search(alloc: Global, nodes: u32, rules: &[Edge]) -> Result<Found, AllocError>
    requires some { 0 < nodes }
    requires few { nodes ≤ 2 ^ 25 }
    requires forward { AreForwardRules nodes rules.now }
    ensures found { IfOk result (IsFound nodes rules.now) }
    ensures early { IfOk result (λ found. All (λ t. t ≤ 2 ^ 32 - 2 ^ 25) found.times) }
{
    let mut ii = 1;
    let mut lower = None;
    for _round in 0..u32::MAX {
        match try_interval(alloc, nodes, rules, ii)? {
            Attempt::Met(times) => return Ok(Found { ii, times, lower }),
            Attempt::TooTight { cycle, next } => {
                ii = next;
                lower = Some(cycle);
            }
        }
    }
    unreachable!()
}

/// Starts an iteration each `ii` cycles, with the least `ii` that there is, and each operation as soon as it may.
pub fn pipeline(
    alloc: Global,
    region: &Loop<Untimed>,
    edges: &[Edge],
    binding: &Binding,
) -> Result<Pipelined, AllocError>
    requires forward { IsForwardLoop region.now.body }
    requires edges { edges.now ≡ edges_of region.now.body }
    requires leading { All (IsForwardEdge (length region.now.body.ops.items + 1)) edges.now }
    requires orders { AreForwardOrders (length region.now.body.ops.items) edges.now binding.now.orders.items }
    ensures { IfOk result (HasLeastInterval region.now edges.now binding.now) }
{
    let body = &region.body;
    let ops = body.ops.len();
    let rules = rules(alloc, body, edges, binding)?;
    let found = search(alloc, ops as u32 + 1, &rules)?;
    let times = found.times.items();
    let exit = least_exit(body, times, found.ii) as u32;
    let region = Loop {
        point: region.point.copy(alloc)?,
        body: timed_body(alloc, body, times, &binding.unit_of)?,
        next: region.next,
        ii: found.ii,
        exit,
    };
    Ok(Pipelined {
        region,
        lower: found.lower,
    })
}
