//! Cycles of rules that an interval cannot meet.
ghost use Rattle.std.specs.Prelude.{◌≡◌, ℕ, ◌+◌, ◌-◌, ◌*◌, ◌<◌, ◌≤◌, ◌^◌, IfOk, OnOk, pos, ◌-ℤ◌};
ghost use Rattle.std.specs.List.{All};
ghost use Rattle.dep_graph.specs.declared.edge.Edge.{Edge};
ghost use Rattle.modulo_loop.specs.Lowest.{total_latency, total_distance};
ghost use Rattle.modulo_loop.specs.Trips.{IsRoundTrip, RulesLead, Joins, IsCycleAlong};
ghost use Rattle.modulo_loop.specs.Rules as spec;

use dep_graph::edge::{Edge, Why};
use diff_solve::solve::Constraint;
use std::alloc::{AllocError, Global};

/// What a rule adds where an iteration begins each `ii` cycles.
fn weight_at(rule: Edge, ii: u32) -> i64
    requires { rule.distance ≤ 2 ^ 16 }
    ensures { result ≡ (pos rule.latency -ℤ pos (ii * rule.distance)) }
{
    let back = u64::from(ii) * u64::from(rule.distance);
    i64::from(rule.latency) - back as i64
}

/// The rules as constraints, where an iteration begins each `ii` cycles.
pub fn constraints_at(alloc: Global, rules: &[Edge], ii: u32) -> Result<Vec<Constraint>, AllocError>
    requires { All (λ (rule : Edge). rule.distance ≤ 2 ^ 16) rules.now }
    ensures { IfOk result (λ cs. cs.items ≡ spec.constraints_at ii rules.now) }
{
    let mut constraints = Vec::with_capacity(alloc, rules.len())?;
    for rule in rules {
        constraints.push(Constraint {
            from: rule.from,
            to: rule.to,
            weight: weight_at(*rule, ii),
        })?;
    }
    Ok(constraints)
}

/// The node in which the last of the rules ends.
fn end_of(rules: &[Edge], positions: &[u64]) -> u32
    ensures { IsRoundTrip rules.now positions.now → RulesLead rules.now result positions.now result }
{
    let count = positions.len();
    if count == 0 {
        return 0;
    }
    let last = positions[count - 1] as usize;
    if last < rules.len() {
        rules[last].to
    } else {
        0
    }
}

/// Goes on from a node by a rule, and before that, where the rule begins elsewhere, by an edge from the beginning of the iteration.
fn add_rule(at: u32, rule: Edge, cycle: &mut Vec<Edge>) -> Result<(), AllocError>
    ensures { OnOk result (Joins at rule cycle.old.items cycle.new.items) }
{
    if at != rule.from {
        cycle.push(Edge {
            from: 0,
            to: rule.from,
            latency: 0,
            distance: 0,
            why: Why::Start,
        })?;
    }
    cycle.push(rule)?;
    Ok(())
}

/// The rules at these positions, in turn, and between them edges from the beginning of the iteration where the next one begins elsewhere.
pub fn cycle_of(alloc: Global, rules: &[Edge], positions: &[u64]) -> Result<Vec<Edge>, AllocError>
    requires { IsRoundTrip rules.now positions.now }
    ensures { IfOk result (λ cycle. IsCycleAlong rules.now positions.now cycle.items) }
{
    let mut cycle: Vec<Edge> = Vec::new(alloc);
    let mut at = end_of(rules, positions);
    for position in positions {
        let rule = rules[*position as usize];
        add_rule(at, rule, &mut cycle)?;
        at = rule.to;
    }
    Ok(cycle)
}

/// A total and one more number.
fn increased(total: u128, more: u32) -> u128
    requires { total < 2 ^ 127 }
    ensures value { result ≡ total + more }
    ensures low { result ≤ total + 2 ^ 32 }
{
    total + u128::from(more)
}

/// The latencies and the distances of edges, added up.
fn totals(cycle: &[Edge]) -> (u128, u128)
    ensures latency { result.0 ≡ total_latency cycle.now }
    ensures distance { result.1 ≡ total_distance cycle.now }
{
    let mut latency: u128 = 0;
    let mut distance: u128 = 0;
    for edge in cycle {
        latency = increased(latency, edge.latency);
        distance = increased(distance, edge.distance);
    }
    (latency, distance)
}

/// The least interval that is not too tight for a cycle of rules.
pub fn least_interval(cycle: &[Edge]) -> u32
    requires later { 0 < total_distance cycle.now }
    requires long { 0 < total_latency cycle.now }
    requires low { (ii : ℕ) → ii * total_distance cycle.now < total_latency cycle.now → ii + 1 < 2 ^ 32 }
    ensures least { (result - 1) * total_distance cycle.now < total_latency cycle.now }
    ensures enough { (ii : ℕ) → ii * total_distance cycle.now < total_latency cycle.now → ii < result }
{
    let (latency, distance) = totals(cycle);
    let before = (latency - 1) / distance;
    before as u32 + 1
}
