//! Variables that grow by a constant with each iteration, and what is reckoned from them.
ghost use Rattle.std.specs.Prelude.{◌≡◌, ◌≢◌, ◌<◌, ◌≤◌, ◌^◌, ◌+◌, ◌*◌, ◌+ℤ◌, ℕ, pos, IfOk, IfSome, length, unsigned_abs};
ghost use Rattle.dep_graph.specs.Offsets as spec;
ghost use Rattle.dep_graph.specs.Sizes.{IsSmallBody, IsNear, IsNearSum, AreNear};

use hls_base::number::{OpId, VarId};
use ir_core::body::{Body, Op, OpKind, Operand, Out, Source};
use ir_core::stamp::Untimed;
use ir_core::value::number_of;
use std::alloc::{AllocError, Global};

/// The operation whose result the variable takes as the body is left.
pub fn maker(outs: &[Out], variable: VarId) -> Option<OpId>
    ensures { result ≡ spec.maker outs.now variable.0 }
{
    for out in outs {
        if out.variable.0 == variable.0 {
            return result_of(out.value.value);
        }
    }
    None
}

pub fn result_of(source: Source) -> Option<OpId>
    ensures { result ≡ spec.result_of source }
{
    match source {
        Source::Result(op) => Some(op),
        _ => None,
    }
}

/// What a counter holds as the iteration begins, and a constant; the counter grows by `step` with each iteration.
#[derive(Clone, Copy, PartialEq, Eq)]
pub struct Offset {
    pub counter: VarId,
    pub step: i128,
    pub constant: i128,
}

/// The result of operations that add constants to a counter. Those that have a guard have this one.
#[derive(Clone, Copy, PartialEq, Eq)]
pub struct Sum {
    pub offset: Offset,
    pub guard: Option<Operand>,
}

/// An operand to which a constant is added.
#[derive(Clone, Copy, PartialEq, Eq)]
pub struct Addition {
    pub operand: Operand,
    pub constant: i128,
}

/// The number of a constant of a signed type.
fn constant_of(operand: Operand, bits: u8) -> Option<i128>
    ensures value { result ≡ spec.constant_of operand.value bits }
    ensures small { IfSome result (λ c. unsigned_abs c < 2 ^ 64) }
{
    match operand.value {
        Source::Constant(word) => Some(number_of(true, bits, word)),
        _ => None,
    }
}

fn plus(left: Operand, right: Operand, bits: u8) -> Option<Addition>
    ensures value { result ≡ spec.added_by OpKind.Add bits left right }
    ensures small { IfSome result (λ a. unsigned_abs a.constant < 2 ^ 64) }
{
    if let Some(constant) = constant_of(right, bits) {
        return Some(Addition {
            operand: left,
            constant,
        });
    }
    let constant = constant_of(left, bits)?;
    Some(Addition {
        operand: right,
        constant,
    })
}

fn minus(left: Operand, right: Operand, bits: u8) -> Option<Addition>
    ensures value { result ≡ spec.added_by OpKind.Sub bits left right }
    ensures small { IfSome result (λ a. unsigned_abs a.constant < 2 ^ 64) }
{
    let constant = constant_of(right, bits)?;
    Some(Addition {
        operand: left,
        constant: -constant,
    })
}

pub fn added(kind: OpKind, bits: u8, left: Operand, right: Operand) -> Option<Addition>
    ensures value { result ≡ spec.added_by kind bits left right }
    ensures small { IfSome result (λ a. unsigned_abs a.constant < 2 ^ 64) }
{
    match kind {
        OpKind::Add => plus(left, right, bits),
        OpKind::Sub => minus(left, right, bits),
        _ => None,
    }
}

/// The operand to which a flagged operation adds a constant, and the constant.
fn addition_of(op: &Op<Untimed>) -> Option<Addition>
    ensures value { result ≡ spec.addition op.now }
    ensures small { IfSome result (λ a. unsigned_abs a.constant < 2 ^ 64) }
{
    if op.flag.is_none() {
        return None;
    }
    match op.args.as_slice() {
        [left, right] => added(op.kind, op.bits, *left, *right),
        _ => None,
    }
}

pub fn is_variable(source: Source, variable: VarId) -> bool
    ensures { result ≡ spec.is_variable source variable.0 }
{
    match source {
        Source::Variable(other) => other.0 == variable.0,
        _ => false,
    }
}

/// By how much a variable grows with each iteration whose next value this operation makes, where it is a counter.
fn step_by(op: &Op<Untimed>, variable: VarId) -> Option<i128>
    ensures value { result ≡ spec.step_by op.now variable.0 }
    ensures moves { IfSome result (λ step. step ≢ pos 0) }
{
    if op.guard.is_some() {
        return None;
    }
    let added = addition_of(op)?;
    if is_variable(added.operand.value, variable) && added.constant != 0 {
        Some(added.constant)
    } else {
        None
    }
}

/// By how much the variable grows with each iteration, where it is a counter.
fn step(body: &Body<Untimed>, variable: VarId) -> Option<i128>
    ensures value { result ≡ spec.step_of body.now variable.0 }
    ensures moves { IfSome result (λ step. step ≢ pos 0) }
{
    let maker = maker(&body.outs, variable)?.0 as usize;
    if maker < body.ops.len() {
        step_by(&body.ops[maker], variable)
    } else {
        None
    }
}

fn same_source(one: Source, other: Source) -> bool
    ensures { result ≡ spec.same_source one other }
{
    match (one, other) {
        (Source::Constant(word), Source::Constant(another)) => word == another,
        (Source::Variable(variable), Source::Variable(another)) => variable.0 == another.0,
        (Source::Result(op), Source::Result(another)) => op.0 == another.0,
        _ => false,
    }
}

fn same_operand(one: Operand, other: Operand) -> bool
    ensures { result ≡ spec.same_operand one other }
{
    one.distance == other.distance && same_source(one.value, other.value)
}

/// Whether operations with one guard may be followed by operations with the other: no two guards differ.
fn guards_agree(one: Option<Operand>, other: Option<Operand>) -> bool
    ensures { result ≡ spec.guards_agree one other }
{
    match (one, other) {
        (Some(guard), Some(another)) => same_operand(guard, another),
        _ => true,
    }
}

/// Whether an operation with the first guard is unguarded, or has the second one.
pub fn is_covered(one: Option<Operand>, other: Option<Operand>) -> bool
    ensures { result ≡ spec.is_covered one other }
{
    match (one, other) {
        (Some(guard), Some(another)) => same_operand(guard, another),
        (Some(_), None) => false,
        (None, _) => true,
    }
}

fn either_guard(one: Option<Operand>, other: Option<Operand>) -> Option<Operand>
    ensures { result ≡ spec.or_else one other }
{
    match one {
        Some(_) => one,
        None => other,
    }
}

/// The sum that an operand is, where those of the first operations are known.
fn operand_sum(body: &Body<Untimed>, sums: &[Option<Sum>], operand: Operand) -> Option<Sum>
    requires near { AreNear sums.now }
    ensures value { result ≡ spec.source_sum body.now sums.now operand.value }
    ensures near { IsNearSum (length sums.now) result }
{
    match operand.value {
        Source::Constant(_) => None,
        Source::Variable(counter) => {
            let step = step(body, counter)?;
            let offset = Offset {
                counter,
                step,
                constant: 0,
            };
            Some(Sum {
                offset,
                guard: None,
            })
        }
        Source::Result(op) => {
            let index = op.0 as usize;
            if index < sums.len() {
                sums[index]
            } else {
                None
            }
        }
    }
}

/// A constant and one of 64 bits, added up.
fn increased(constant: i128, more: i128) -> i128
    requires constant { unsigned_abs constant ≤ 2 ^ 96 }
    requires more { unsigned_abs more < 2 ^ 64 }
    ensures value { result ≡ constant +ℤ more }
    ensures near { unsigned_abs result ≤ unsigned_abs constant + 2 ^ 64 }
{
    constant + more
}

/// A sum and a constant, by an operation with this guard.
fn plus_constant(sum: Sum, constant: i128, guard: Option<Operand>) -> Option<Sum>
    requires near { IsNear (2 ^ 25) sum.offset }
    requires small { unsigned_abs constant < 2 ^ 64 }
    ensures value { result ≡ spec.plus_constant (Some sum) constant guard }
    ensures near { (n : ℕ) → IsNear n sum.offset → IsNearSum (n + 1) result }
{
    if !guards_agree(sum.guard, guard) {
        return None;
    }
    let offset = Offset {
        counter: sum.offset.counter,
        step: sum.offset.step,
        constant: increased(sum.offset.constant, constant),
    };
    Some(Sum {
        offset,
        guard: either_guard(sum.guard, guard),
    })
}

/// The sum that an operation makes, where those of the operations before it are known.
fn op_sum(body: &Body<Untimed>, sums: &[Option<Sum>], op: &Op<Untimed>) -> Option<Sum>
    requires few { length sums.now < 2 ^ 25 }
    requires near { AreNear sums.now }
    ensures value { result ≡ spec.op_sum body.now sums.now op.now }
    ensures near { IsNearSum (length sums.now + 1) result }
{
    let added = addition_of(op)?;
    let sum = operand_sum(body, sums, added.operand)?;
    plus_constant(sum, added.constant, op.guard)
}

/// The sums that the operations of a body make.
pub fn sums_of(alloc: Global, body: &Body<Untimed>) -> Result<Vec<Option<Sum>>, AllocError>
    requires small { IsSmallBody body.now }
    ensures value { IfOk result (λ sums. sums.items ≡ spec.sums_of body.now) }
    ensures near { IfOk result (λ sums. AreNear sums.items) }
    ensures few { IfOk result (λ sums. length sums.items ≤ 2 ^ 25) }
{
    let mut sums = Vec::new(alloc);
    for op in &body.ops {
        let sum = op_sum(body, &sums, op);
        sums.push(sum)?;
    }
    Ok(sums)
}

/// The offset that a subscript has for an access with this guard.
pub fn offset_of(
    body: &Body<Untimed>,
    sums: &[Option<Sum>],
    subscript: Operand,
    guard: Option<Operand>,
) -> Option<Offset>
    requires near { AreNear sums.now }
    ensures value { result ≡ spec.offset_of body.now sums.now subscript guard }
    ensures near { IfSome result (IsNear (length sums.now)) }
{
    let sum = operand_sum(body, sums, subscript)?;
    if is_covered(sum.guard, guard) {
        Some(sum.offset)
    } else {
        None
    }
}
