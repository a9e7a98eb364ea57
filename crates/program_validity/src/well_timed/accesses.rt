//! At which distances two accesses of an array may meet.
ghost use Rattle.std.specs.Prelude.{◌≡◌, ◌≢◌, ◌≤◌, ◌^◌, pos, ◌-ℤ◌, unsigned_abs, length};
ghost use Rattle.dep_graph.specs.Offsets.{sums_of};
ghost use Rattle.dep_graph.specs.Meetings as spec;
ghost use Rattle.program_validity.specs.Untimed.{untimed_op, untimed_body};
ghost use Rattle.program_validity.specs.Sums.{IsSmall, IsSmallSubscript};
ghost use Rattle.program_validity.specs.Checks.{distances};

use crate::well_timed::counters::offset_of;
use dep_graph::access::{Meeting, Subscript, both};
use dep_graph::counter::Offset;
use ir_core::body::{Body, Op, OpKind, Operand, Source};
use ir_core::timed::Timed;

fn subscript_of(body: &Body<Timed>, operand: Operand, guard: Option<Operand>) -> Subscript
    ensures value { result ≡
        spec.subscript_of (untimed_body body.now) (sums_of (untimed_body body.now)) guard operand }
    ensures small { IsSmallSubscript result }
{
    if let Source::Constant(word) = operand.value {
        return Subscript::Constant(word);
    }
    match offset_of(body, operand, guard) {
        Some(offset) => Subscript::Counted(offset),
        None => Subscript::Unknown,
    }
}

/// How many arguments of an access are subscripts.
fn subscript_count(op: &Op<Timed>) -> usize
    ensures value { result ≡ spec.subscript_count op.now.kind (length op.now.args.items) }
    ensures within { result ≤ length op.now.args.items }
{
    match op.kind {
        OpKind::Store => op.args.len().saturating_sub(1),
        _ => op.args.len(),
    }
}

/// By how much the first offset is ahead of the second one.
fn gap_between(from: Offset, to: Offset) -> i128
    requires from { IsSmall from }
    requires to { IsSmall to }
    ensures value { result ≡ from.constant -ℤ to.constant }
    ensures small { unsigned_abs result ≤ 2 ^ 97 }
{
    from.constant - to.constant
}

/// The distance after which a counter has gone so far.
fn distance_of(step: i128, gap: i128) -> Meeting
    requires step { step ≢ pos 0 }
    requires gap { unsigned_abs gap ≤ 2 ^ 97 }
    ensures { result ≡ spec.distance_of step gap }
{
    if gap % step == 0 {
        Meeting::At(gap / step)
    } else {
        Meeting::Never
    }
}

fn offsets_meet(from: Offset, to: Offset) -> Meeting
    requires from { IsSmall from }
    requires to { IsSmall to }
    ensures { result ≡ spec.offsets_meet from to }
{
    if from.counter.0 == to.counter.0 {
        distance_of(from.step, gap_between(from, to))
    } else {
        Meeting::Always
    }
}

fn subscripts_meet(from: Subscript, to: Subscript) -> Meeting
    requires from { IsSmallSubscript from }
    requires to { IsSmallSubscript to }
    ensures { result ≡ spec.subscripts_meet from to }
{
    match (from, to) {
        (Subscript::Constant(one), Subscript::Constant(other)) => {
            if one == other {
                Meeting::Always
            } else {
                Meeting::Never
            }
        }
        (Subscript::Counted(one), Subscript::Counted(other)) => offsets_meet(one, other),
        _ => Meeting::Always,
    }
}

/// At which distances the second access may meet the first one.
pub fn distances_between(body: &Body<Timed>, from: &Op<Timed>, to: &Op<Timed>) -> Meeting
    ensures { result ≡ distances body.now from.now to.now }
{
    let ones = &from.args.as_slice()[..subscript_count(from)];
    let others = &to.args.as_slice()[..subscript_count(to)];
    let mut distances = Meeting::Always;
    for index in 0..ones.len().min(others.len()) {
        let one = subscript_of(body, ones[index], from.guard);
        let other = subscript_of(body, others[index], to.guard);
        distances = both(distances, subscripts_meet(one, other));
    }
    distances
}
