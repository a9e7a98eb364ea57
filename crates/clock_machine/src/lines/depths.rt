//! How far back values are read, and lines that are long enough for it.
ghost use Rattle.std.specs.Prelude.{◌≡◌, ◌≤◌, ◌<◌, ◌+◌, ◌-◌, ◌^◌, ℕ, min, length, slice_get, Some, IfOk};
ghost use Rattle.clock_machine.specs.Lines.Forms.{IsLineOf};
ghost use Rattle.clock_machine.specs.Lines.Reads.{Each, EachIf, IsCovered, CoversAction, CoversWay};

use crate::lines::program::{Action, Assignment, Case, Line, Read, Way};
use std::alloc::{AllocError, Global};

fn deeper(depth: usize, read: Read) -> usize
    ensures grows { depth ≤ result }
    ensures covers { IsCovered result read }
{
    match read {
        Read::Value { back, .. } => depth.max(back),
        _ => depth,
    }
}

pub fn deeper_if(depth: usize, read: Option<Read>) -> usize
    ensures grows { depth ≤ result }
    ensures covers { EachIf (IsCovered result) read }
{
    match read {
        Some(read) => deeper(depth, read),
        None => depth,
    }
}

fn deeper_all(mut depth: usize, reads: &[Read]) -> usize
    ensures grows { depth ≤ result }
    ensures covers { Each (IsCovered result) reads.now }
{
    for read in reads {
        depth = deeper(depth, *read);
    }
    depth
}

fn deeper_action(depth: usize, action: &Action) -> usize
    ensures grows { depth ≤ result }
    ensures covers { CoversAction result action.now }
{
    deeper_if(
        deeper_all(depth.max(action.wait), &action.args),
        action.guard,
    )
}

pub fn deeper_actions(mut depth: usize, actions: &[Action]) -> usize
    ensures grows { depth ≤ result }
    ensures covers { (k : ℕ) (a : Action) → slice_get actions.now k ≡ Some a → CoversAction result a }
{
    for action in actions {
        depth = deeper_action(depth, action);
    }
    depth
}

pub fn deeper_assignments(mut depth: usize, assignments: &[Assignment]) -> usize
    ensures grows { depth ≤ result }
    ensures covers { Each (λ (x : Assignment). IsCovered result x.value) assignments.now }
{
    for assignment in assignments {
        depth = deeper(depth, assignment.value);
    }
    depth
}

fn deeper_cases(mut depth: usize, cases: &[Case]) -> usize
    ensures grows { depth ≤ result }
    ensures covers { Each (λ (c : Case). IsCovered result c.test) cases.now }
{
    for case in cases {
        depth = deeper(depth, case.test);
    }
    depth
}

pub fn deeper_way(depth: usize, way: &Way) -> usize
    ensures grows { depth ≤ result }
    ensures covers { CoversWay result way.now }
{
    match way {
        Way::Choose { cases, .. } => deeper_cases(depth, cases),
        Way::Return(value) => deeper_if(depth, *value),
    }
}

/// So many lines of one length, one behind the other.
pub fn lines_of(alloc: Global, count: usize, size: usize) -> Result<Vec<Line>, AllocError>
    ensures count { IfOk result (λ v. length v.items ≡ count) }
    ensures lines { IfOk result (λ v.
        (k : ℕ) (line : Line) → slice_get v.items k ≡ Some line → IsLineOf size k line) }
{
    let mut lines = Vec::new(alloc);
    let mut first = 0usize;
    for _ in 0..count {
        lines.push(Line {
            first,
            length: size,
        })?;
        first = first.saturating_add(size);
    }
    Ok(lines)
}
