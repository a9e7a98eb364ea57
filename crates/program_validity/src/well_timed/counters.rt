//! Variables that grow by a constant with each iteration, and subscripts that are such a variable and a constant.
ghost use Rattle.std.specs.Prelude.{◌≡◌, ◌<◌, ◌≤◌, ◌^◌, ◌+◌, ◌+ℤ◌, ◌≢◌, pos, IfSome, unsigned_abs, if◌then◌else◌};
ghost use Rattle.dep_graph.specs.Offsets as spec;
ghost use Rattle.program_validity.specs.Untimed.{untimed_op, untimed_body};
ghost use Rattle.program_validity.specs.Sums.{IsSmall, counted_from};

use dep_graph::counter::{Addition, Offset, is_covered, is_variable, maker};
use hls_base::number::{OpId, VarId};
use ir_core::body::{Body, Op, OpKind, Operand, Source};
use ir_core::timed::Timed;
use ir_core::value::number_of;

/// The number of a constant of a signed type.
fn constant_of(operand: Operand, bits: u8) -> Option<i128>
    ensures value { result ≡ spec.constant_of operand.value bits }
    ensures small { IfSome result (λ c. unsigned_abs c < 2 ^ 64) }
{
    match operand.value {
        Source::Constant(word) => Some(number_of(true, bits, word)),
        _ => None,
    }
}

fn plus(left: Operand, right: Operand, bits: u8) -> Option<Addition>
    ensures value { result ≡ spec.added_by OpKind.Add bits left right }
    ensures small { IfSome result (λ a. unsigned_abs a.constant < 2 ^ 64) }
{
    if let Some(constant) = constant_of(right, bits) {
        return Some(Addition {
            operand: left,
            constant,
        });
    }
    let constant = constant_of(left, bits)?;
    Some(Addition {
        operand: right,
        constant,
    })
}

fn minus(left: Operand, right: Operand, bits: u8) -> Option<Addition>
    ensures value { result ≡ spec.added_by OpKind.Sub bits left right }
    ensures small { IfSome result (λ a. unsigned_abs a.constant < 2 ^ 64) }
{
    let constant = constant_of(right, bits)?;
    Some(Addition {
        operand: left,
        constant: -constant,
    })
}

fn added(kind: OpKind, bits: u8, left: Operand, right: Operand) -> Option<Addition>
    ensures value { result ≡ spec.added_by kind bits left right }
    ensures small { IfSome result (λ a. unsigned_abs a.constant < 2 ^ 64) }
{
    match kind {
        OpKind::Add => plus(left, right, bits),
        OpKind::Sub => minus(left, right, bits),
        _ => None,
    }
}

/// The operand to which a flagged operation adds a constant, and the constant.
fn addition_of(op: &Op<Timed>) -> Option<Addition>
    ensures value { result ≡ spec.addition (untimed_op op.now) }
    ensures small { IfSome result (λ a. unsigned_abs a.constant < 2 ^ 64) }
{
    if op.flag.is_none() {
        return None;
    }
    match op.args.as_slice() {
        [left, right] => added(op.kind, op.bits, *left, *right),
        _ => None,
    }
}

/// By how much a variable grows with each iteration whose next value this operation makes, where it is a counter.
fn step_by(op: &Op<Timed>, variable: VarId) -> Option<i128>
    ensures value { result ≡ spec.step_by (untimed_op op.now) variable.0 }
    ensures some { IfSome result (λ s. s ≢ pos 0) }
    ensures small { IfSome result (λ s. unsigned_abs s < 2 ^ 64) }
{
    if op.guard.is_some() {
        return None;
    }
    let added = addition_of(op)?;
    if is_variable(added.operand.value, variable) && added.constant != 0 {
        Some(added.constant)
    } else {
        None
    }
}

/// By how much the variable grows with each iteration, where it is a counter.
fn step(body: &Body<Timed>, variable: VarId) -> Option<i128>
    ensures value { result ≡ spec.step_of (untimed_body body.now) variable.0 }
    ensures some { IfSome result (λ s. s ≢ pos 0) }
    ensures small { IfSome result (λ s. unsigned_abs s < 2 ^ 64) }
{
    let maker = maker(&body.outs, variable)?.0 as usize;
    if maker < body.ops.len() {
        step_by(&body.ops[maker], variable)
    } else {
        None
    }
}

/// The operand to which an operation adds a constant, where its guard is none or this one.
fn addition_under(op: &Op<Timed>, guard: Option<Operand>) -> Option<Addition>
    ensures value { result ≡ (if spec.is_covered op.now.guard guard then spec.addition (untimed_op op.now) else None) }
    ensures small { IfSome result (λ a. unsigned_abs a.constant < 2 ^ 64) }
{
    if is_covered(op.guard, guard) {
        addition_of(op)
    } else {
        None
    }
}

/// The offset of a variable and a constant, where the variable is a counter.
fn counted(body: &Body<Timed>, sum: Addition) -> Option<Offset>
    requires { unsigned_abs sum.constant ≤ 2 ^ 96 }
    ensures value { result ≡ counted_from (untimed_body body.now) sum.operand.value sum.constant }
    ensures small { IfSome result IsSmall }
{
    match sum.operand.value {
        Source::Variable(counter) => {
            let step = step(body, counter)?;
            Some(Offset {
                counter,
                step,
                constant: sum.constant,
            })
        }
        _ => None,
    }
}

/// The number of an operation, which has 32 bits.
fn number_of_op(op: OpId) -> usize
    ensures value { result ≡ op.0 }
    ensures within { result < 2 ^ 32 }
{
    op.0 as usize
}

/// What an operand is to which a constant is added, and then another one.
fn both_added(outer: Addition, inner: Addition) -> Addition
    requires outer { unsigned_abs outer.constant ≤ 2 ^ 96 }
    requires inner { unsigned_abs inner.constant < 2 ^ 64 }
    ensures operand { result.operand ≡ inner.operand }
    ensures constant { result.constant ≡ outer.constant +ℤ inner.constant }
    ensures small { unsigned_abs result.constant ≤ unsigned_abs outer.constant + unsigned_abs inner.constant }
{
    Addition {
        operand: inner.operand,
        constant: outer.constant + inner.constant,
    }
}

/// The offset that a subscript has for an access with this guard. Sums are of operations that come before.
pub fn offset_of(body: &Body<Timed>, subscript: Operand, guard: Option<Operand>) -> Option<Offset>
    ensures value { result ≡
        spec.offset_of (untimed_body body.now) (spec.sums_of (untimed_body body.now)) subscript guard }
    ensures small { IfSome result IsSmall }
{
    let mut sum = Addition {
        operand: subscript,
        constant: 0,
    };
    let mut limit = body.ops.len();
    while let Source::Result(op) = sum.operand.value {
        let number = number_of_op(op);
        if number >= limit {
            return None;
        }
        let inner = addition_under(&body.ops[number], guard)?;
        sum = both_added(sum, inner);
        limit = number;
    }
    counted(body, sum)
}
