//! At which distances two accesses of an array may meet.
ghost use Rattle.std.specs.Prelude.{◌≡◌, ◌≢◌, ◌<◌, ◌≤◌, ◌^◌, pos, ◌-ℤ◌, unsigned_abs, IfOk, IfSome, length, map, option_to_list};
ghost use Rattle.std.specs.List.{All};
ghost use Rattle.dep_graph.specs.Meetings as spec;
ghost use Rattle.dep_graph.specs.Sizes.{IsSmallBody, IsNear, AreNear, IsNearSubscript, IsOfSmallBody};

use crate::counter::{Offset, Sum, offset_of};
use hls_base::number::ArrayId;
use ir_core::body::{Body, Op, OpKind, Operand, Source};
use ir_core::stamp::Untimed;
use std::alloc::{AllocError, Global};

/// What is known of a subscript.
#[derive(Clone, Copy, PartialEq, Eq)]
pub enum Subscript {
    Constant(u64),
    Counted(Offset),
    Unknown,
}

/// A load or store of an array, with the number of its operation.
#[derive(Drop)]
pub struct Access {
    pub op: u32,
    pub array: ArrayId,
    pub is_store: bool,
    pub subscripts: Vec<Subscript>,
}

/// The distances from one access to another at which they may meet.
#[derive(Clone, Copy, PartialEq, Eq)]
pub enum Meeting {
    Never,
    At(i128),
    Always,
}

fn subscript_of(
    body: &Body<Untimed>,
    sums: &[Option<Sum>],
    operand: Operand,
    guard: Option<Operand>,
) -> Subscript
    requires few { length sums.now ≤ 2 ^ 25 }
    requires near { AreNear sums.now }
    ensures value { result ≡ spec.subscript_of body.now sums.now guard operand }
    ensures near { IsNearSubscript result }
{
    if let Source::Constant(word) = operand.value {
        return Subscript::Constant(word);
    }
    match offset_of(body, sums, operand, guard) {
        Some(offset) => Subscript::Counted(offset),
        None => Subscript::Unknown,
    }
}

/// How many arguments of an access are subscripts.
fn subscript_count(op: &Op<Untimed>) -> usize
    ensures value { result ≡ spec.subscript_count op.now.kind (length op.now.args.items) }
    ensures within { result ≤ length op.now.args.items }
{
    match op.kind {
        OpKind::Store => op.args.len().saturating_sub(1),
        _ => op.args.len(),
    }
}

fn subscripts_of(
    alloc: Global,
    body: &Body<Untimed>,
    sums: &[Option<Sum>],
    op: &Op<Untimed>,
) -> Result<Vec<Subscript>, AllocError>
    requires few { length sums.now ≤ 2 ^ 25 }
    requires near { AreNear sums.now }
    ensures value { IfOk result (λ v. v.items ≡ spec.subscripts_of body.now sums.now op.now) }
    ensures near { IfOk result (λ v. All IsNearSubscript v.items) }
{
    let args = op.args.as_slice();
    let mut subscripts = Vec::new(alloc);
    for operand in &args[..subscript_count(op)] {
        subscripts.push(subscript_of(body, sums, *operand, op.guard))?;
    }
    Ok(subscripts)
}

pub fn is_store(kind: OpKind) -> bool
    ensures { result ≡ spec.is_store kind }
{
    match kind {
        OpKind::Store => true,
        _ => false,
    }
}

/// The access that an operation is, if it is one.
fn access_of(
    alloc: Global,
    body: &Body<Untimed>,
    sums: &[Option<Sum>],
    number: usize,
    op: &Op<Untimed>,
) -> Result<Option<Access>, AllocError>
    requires number { number < 2 ^ 25 }
    requires few { length sums.now ≤ 2 ^ 25 }
    requires near { AreNear sums.now }
    ensures value { IfOk result (λ access. map spec.reach (option_to_list access) ≡ spec.reach_of body.now sums.now number op.now op.now.array) }
    ensures small { IfOk result (λ access. IfSome access IsOfSmallBody) }
{
    let Some(array) = op.array else {
        return Ok(None);
    };
    let subscripts = subscripts_of(alloc, body, sums, op)?;
    Ok(Some(Access {
        op: number as u32,
        array,
        is_store: is_store(op.kind),
        subscripts,
    }))
}

/// The accesses of a body in order.
pub fn accesses_of(
    alloc: Global,
    body: &Body<Untimed>,
    sums: &[Option<Sum>],
) -> Result<Vec<Access>, AllocError>
    requires small { IsSmallBody body.now }
    requires few { length sums.now ≤ 2 ^ 25 }
    requires near { AreNear sums.now }
    ensures value { IfOk result (λ v. map spec.reach v.items ≡ spec.reaches_from body.now sums.now 0 body.now.ops.items) }
    ensures small { IfOk result (λ v. All IsOfSmallBody v.items) }
{
    let mut accesses = Vec::new(alloc);
    for (number, op) in body.ops.iter().enumerate() {
        if let Some(access) = access_of(alloc, body, sums, number, op)? {
            accesses.push(access)?;
        }
    }
    Ok(accesses)
}

/// By how much one offset is ahead of another of the same counter.
fn gap_between(from: Offset, to: Offset) -> i128
    requires from { IsNear (2 ^ 25) from }
    requires to { IsNear (2 ^ 25) to }
    ensures value { result ≡ from.constant -ℤ to.constant }
    ensures small { unsigned_abs result ≤ 2 ^ 97 }
{
    from.constant - to.constant
}

/// The distance after which a counter has gone so far.
fn distance_of(step: i128, gap: i128) -> Meeting
    requires step { step ≢ pos 0 }
    requires gap { unsigned_abs gap ≤ 2 ^ 97 }
    ensures { result ≡ spec.distance_of step gap }
{
    if gap % step == 0 {
        Meeting::At(gap / step)
    } else {
        Meeting::Never
    }
}

fn offsets_meet(from: Offset, to: Offset) -> Meeting
    requires from { IsNear (2 ^ 25) from }
    requires to { IsNear (2 ^ 25) to }
    ensures { result ≡ spec.offsets_meet from to }
{
    if from.counter.0 == to.counter.0 {
        distance_of(from.step, gap_between(from, to))
    } else {
        Meeting::Always
    }
}

pub fn subscripts_meet(from: Subscript, to: Subscript) -> Meeting
    requires from { IsNearSubscript from }
    requires to { IsNearSubscript to }
    ensures { result ≡ spec.subscripts_meet from to }
{
    match (from, to) {
        (Subscript::Constant(one), Subscript::Constant(other)) => {
            if one == other {
                Meeting::Always
            } else {
                Meeting::Never
            }
        }
        (Subscript::Counted(one), Subscript::Counted(other)) => offsets_meet(one, other),
        _ => Meeting::Always,
    }
}

/// The distances that two dimensions leave.
pub fn both(one: Meeting, other: Meeting) -> Meeting
    ensures { result ≡ spec.both one other }
{
    match (one, other) {
        (Meeting::Always, _) => other,
        (_, Meeting::Always) => one,
        (Meeting::At(distance), Meeting::At(another)) => {
            if distance == another {
                one
            } else {
                Meeting::Never
            }
        }
        _ => Meeting::Never,
    }
}

/// At which distances `to` may meet `from`.
pub fn distances_between(from: &[Subscript], to: &[Subscript]) -> Meeting
    requires from { All IsNearSubscript from.now }
    requires to { All IsNearSubscript to.now }
    ensures { result ≡ spec.distances_between from.now to.now }
{
    let count = from.len().min(to.len());
    let mut distances = Meeting::Always;
    for index in 0..count {
        distances = both(distances, subscripts_meet(from[index], to[index]));
    }
    distances
}
