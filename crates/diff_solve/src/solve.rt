//! Least solutions of systems of difference constraints.
ghost use Rattle.std.specs.Prelude.{◌≡◌, ℕ, ◌+◌, ◌*◌, ◌^◌, ◌<◌, ◌≤◌, IsTrue, IfOk, IfSome, IfNone, pos, negsuc, ◌+ℤ◌, ◌<ℤ◌, ◌≤ℤ◌, [], length, replicate};
ghost use Rattle.diff_solve.specs.Times.{InRange, Solves, IsBelowAll};
ghost use Rattle.diff_solve.specs.Cycles.{IsPositiveCycle};
ghost use Rattle.diff_solve.specs.Answers.{IsAnswer, HasModestWeights};
ghost use Rattle.diff_solve.specs.Passes.{HasEnds, ComesHome, IsRunning, IsTangled, Leaves};

use hls_base::words::Words;
use std::alloc::{AllocError, Global};

/// The time of `to` is at least `weight` after the time of `from`.
#[derive(Clone, Copy, PartialEq, Eq)]
pub struct Constraint {
    pub from: u32,
    pub to: u32,
    pub weight: i64,
}

/// What came of a system of constraints.
#[derive(Drop)]
pub enum Solved {
    /// The least time of each node.
    Least(Words),
    /// The positions of constraints that cannot be met together.
    Cycle(Words),
}

/// The most that one constraint may add.
const MAX_WEIGHT: u64 = 1 << 20;

/// What one pass over the constraints came to.
enum Pass {
    /// No time rose, so all constraints are met.
    Settled,
    /// Times rose, and the last that did is that of this node.
    Raised(u32),
    /// The time of this node is higher than it can be without a cycle.
    TooHigh(u32),
}

/// Raises times until each constraint is met, or there is a cycle that makes that impossible.
pub fn solve(alloc: Global, n: u32, constraints: &[Constraint]) -> Result<Solved, AllocError>
    requires some_nodes { 0 < n }
    requires few_nodes { n ≤ 2 ^ 26 }
    requires in_range { InRange n constraints.now }
    requires modest { HasModestWeights constraints.now }
    ensures { IfOk result (IsAnswer n constraints.now) }
{
    let count = n as usize;
    let mut times: Vec<u64> = vec![in alloc; 0; count]?;
    let mut entered: Vec<u64> = vec![in alloc; 0; count]?;
    let mut seen: Vec<u64> = vec![in alloc; 0; count]?;
    let trail: Vec<u64> = Vec::with_capacity(alloc, count)?;
    match settle(constraints, &mut times, &mut entered) {
        None => Ok(Solved::Least(Words::new(times))),
        Some(start) => {
            let cycle = cycle_behind(constraints, &entered, start, &mut seen, trail)?;
            Ok(Solved::Cycle(Words::new(cycle)))
        }
    }
}

/// Raises times until each constraint is met, or names a node behind which there is a cycle.
fn settle(constraints: &[Constraint], times: &mut [u64], entered: &mut [u64]) -> Option<u32>
    requires some_nodes { 0 < length times.old }
    requires few_nodes { length times.old ≤ 2 ^ 26 }
    requires in_range { InRange (length times.old) constraints.now }
    requires modest { HasModestWeights constraints.now }
    requires no_times { times.old ≡ replicate (length times.old) 0 }
    requires none_entered { entered.old ≡ replicate (length times.old) 0 }
    ensures solved { IfNone result (Solves (length times.old) constraints.now times.new) }
    ensures least { IfNone result (IsBelowAll (length times.old) constraints.now times.new) }
    ensures tangled { IfSome result (IsTangled (length times.old) constraints.now entered.new) }
{
    let count = times.len();
    let limit = count as u64 * MAX_WEIGHT;
    let mut passes = 0;
    'rounds: loop {
        match raise_times(constraints, limit, times, entered) {
            Pass::Settled => return None,
            Pass::TooHigh(node) => return Some(node),
            Pass::Raised(node) => {
                if passes == count || is_in_a_loop(constraints, entered, node) {
                    return Some(node);
                }
                passes += 1;
            }
        }
    }
}

/// The time that a constraint asks for, if that is above the time which the node has.
#[inline]
fn higher_time(from: u64, weight: i64, to: u64) -> Option<u64>
    requires early_from { from ≤ 2 ^ 60 }
    requires early_to { to ≤ 2 ^ 60 }
    requires not_low { negsuc (2 ^ 50) <ℤ weight }
    requires not_high { weight ≤ℤ pos (2 ^ 20) }
    ensures above { IfSome result (λ time. (to < time) × (pos time ≡ (pos from +ℤ weight))) }
    ensures met { IfNone result ((pos from +ℤ weight) ≤ℤ pos to) }
{
    let time = from as i64 + weight;
    if time > to as i64 {
        Some(time as u64)
    } else {
        None
    }
}

/// Raises the time at the end of each constraint, in turn, to what the constraint asks for.
fn raise_times(
    constraints: &[Constraint],
    limit: u64,
    times: &mut [u64],
    entered: &mut [u64],
) -> Pass
    requires low_limit { limit ≤ 2 ^ 60 }
    requires in_range { InRange (length times.old) constraints.now }
    requires modest { HasModestWeights constraints.now }
    requires running { IsRunning (length times.old) constraints.now limit times.old entered.old }
    ensures { Leaves (length times.old) constraints.now limit times.old times.new entered.new result }
{
    let mut last = None;
    for (position, constraint) in constraints.iter().enumerate() {
        let to = constraint.to as usize;
        if let Some(time) = higher_time(
            times[constraint.from as usize],
            constraint.weight,
            times[to],
        ) {
            times[to] = time;
            entered[to] = position as u64 + 1;
            if constraint.to == 0 || time > limit {
                return Pass::TooHigh(constraint.to);
            }
            last = Some(constraint.to);
        }
    }
    match last {
        None => Pass::Settled,
        Some(node) => Pass::Raised(node),
    }
}

/// Whether one goes back from the node over the constraints that raised the times, and never comes to an end.
fn is_in_a_loop(constraints: &[Constraint], entered: &[u64], start: u32) -> bool
    requires start_in { start < length entered.now }
    requires in_range { InRange (length entered.now) constraints.now }
    requires ends { HasEnds constraints.now entered.now }
    ensures { IsTrue result → ComesHome (length entered.now) constraints.now entered.now start }
{
    let mut node = start as usize;
    'back: for _step in 0..entered.len() + 1 {
        if entered[node] == 0 {
            return false;
        }
        let position = entered[node] - 1;
        node = constraints[position as usize].from as usize;
    }
    true
}

/// Goes back from a node over the constraints that raised the times, until a node comes again or none raised it.
fn cycle_behind(
    constraints: &[Constraint],
    entered: &[u64],
    start: u32,
    seen: &mut [u64],
    mut trail: Vec<u64>,
) -> Result<Vec<u64>, AllocError>
    requires in_range { InRange (length entered.now) constraints.now }
    requires tangled { IsTangled (length entered.now) constraints.now entered.now start }
    requires unseen { seen.old ≡ replicate (length entered.now) 0 }
    requires no_trail { trail.items ≡ [] }
    ensures { IfOk result (λ cycle. IsPositiveCycle constraints.now cycle.items) }
{
    let mut node = start as usize;
    while entered[node] != 0 && seen[node] == 0 {
        let position = entered[node] - 1;
        trail.push(position)?;
        seen[node] = trail.len() as u64;
        node = constraints[position as usize].from as usize;
    }
    let begin = if seen[node] == 0 {
        0
    } else {
        seen[node] as usize - 1
    };
    let length = trail.len() - begin;
    trail.reverse();
    trail.truncate(length);
    Ok(trail)
}
