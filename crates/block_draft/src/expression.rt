//! The operations of expressions.
ghost use Rattle.std.specs.Prelude.{◌≡◌, ◌∷◌, [], IfOk};
ghost use Rattle.pieces.specs.View.{pure_of, pures_of};
ghost use Rattle.passes.specs.Lowering.Expressions as spec;
ghost use Rattle.passes.specs.Lowering.Operations.{added};
ghost use Rattle.passes.specs.Lowering.Guards.{guarded};
ghost use Rattle.pieces.specs.Kind.{kind};
ghost use Rattle.block_draft.specs.Views.{ops_of, guards_of, made, flagged_as, evaluated_of, subscripts_of};
ghost use Rattle.block_draft.specs.Operators as parts;

use crate::guards::{Guards, add_guard, drop_guard, guard_bit};
use crate::operations::{Args, Form, Given, Operations, constant, plain};
use crate::outs::Outs;
use c_token::ctype::CType;
use c_tree::operator::{Binary, Unary};
use c_value::kind::{common, is_signed, promoted, width};
use hls_base::number::ArrayId;
use hls_base::place::Place;
use ir_core::body::{OpKind, Operand};
use pieces::pure_expr::Pure;
use pieces::pure_kind::kind_of;
use smallvec::SmallVec;
use std::alloc::AllocError;

/// Adds the operations of an expression: those of its operands from left to right, each with its conversions, and then its own. Binary operators are gone through in a loop along their left operands, so that the recursion is no deeper than the source nests.
#[cycle(expression)]
pub fn emit(
    ops: &mut Operations,
    guards: &mut Guards,
    outs: &Outs,
    pure: &Pure,
) -> Result<Given, AllocError>
    ensures { IfOk result (λ x. evaluated_of ops.new guards.new.items x ≡ spec.emitted outs.now (pure_of pure.now) (ops_of ops.old) (guards_of guards.old.items)) }
{
    let mut behind: Vec<&Pure> = Vec::new(ops.alloc());
    let mut part = pure;
    'inner: while let Pure::Binary { left, .. } = part {
        behind.push(part)?;
        part = left;
    }
    let mut given = emit_part(ops, guards, outs, part)?;
    'outer: while let Some(operator) = behind.pop() {
        given = emit_operator(ops, guards, outs, given, operator)?;
    }
    Ok(given)
}

/// The operations of an expression whose first operand, where it has one, is to be emitted too.
#[cycle(expression)]
fn emit_part(
    ops: &mut Operations,
    guards: &mut Guards,
    outs: &Outs,
    part: &Pure,
) -> Result<Given, AllocError>
    ensures { IfOk result (λ x. evaluated_of ops.new guards.new.items x ≡ spec.emitted outs.now (pure_of part.now) (ops_of ops.old) (guards_of guards.old.items)) }
{
    match part {
        Pure::Number { value, kind } => Ok(Given::Value(constant(*value), *kind)),
        Pure::Variable(variable, kind) => Ok(Given::Value(outs.read(*variable), *kind)),
        Pure::Element {
            array,
            subscripts,
            kind,
            at,
        } => {
            let args = emit_all(ops, guards, outs, subscripts)?;
            emit_load(ops, guards, *array, args, *kind, *at)
        }
        Pure::Unary { op, arg, kind, at } => {
            let arg = emit(ops, guards, outs, arg)?;
            emit_unary(ops, guards, *op, arg, *kind, *at)
        }
        Pure::Binary { left, .. } => {
            let left = emit(ops, guards, outs, left)?;
            emit_operator(ops, guards, outs, left, part)
        }
        Pure::Choice {
            test,
            yes,
            no,
            kind,
        } => {
            let test = emit(ops, guards, outs, test)?;
            let test = ops.condition(test)?;
            let yes = emit_side(ops, guards, outs, test, true, yes, *kind)?;
            emit_other(ops, guards, outs, test, yes, no, *kind)
        }
        Pure::Cast { to, arg } => {
            let arg = emit(ops, guards, outs, arg)?;
            Ok(Given::Value(ops.converted(arg, *to)?, *to))
        }
    }
}

/// A binary operator behind its left operand.
#[cycle(expression)]
fn emit_operator(
    ops: &mut Operations,
    guards: &mut Guards,
    outs: &Outs,
    left: Given,
    operator: &Pure,
) -> Result<Given, AllocError>
    ensures { IfOk result (λ x. evaluated_of ops.new guards.new.items x ≡ parts.behind_left outs.now (pure_of operator.now) (evaluated_of ops.old guards.old.items left)) }
{
    match operator {
        Pure::Binary {
            op,
            right,
            kind,
            at,
            ..
        } => match junction_of(*op) {
            Some(both) => {
                let left = ops.condition(left)?;
                emit_junction(ops, guards, outs, both, left, right)
            }
            None => {
                let operator = Operator {
                    op: *op,
                    kind: *kind,
                    at: *at,
                };
                emit_operands(ops, guards, outs, left, right, operator)
            }
        },
        Pure::Number { .. }
        | Pure::Variable(..)
        | Pure::Element { .. }
        | Pure::Unary { .. }
        | Pure::Choice { .. }
        | Pure::Cast { .. } => Ok(left),
    }
}

/// `&&` where `both`, else `||`, behind its first operand. Control may not come to the second one.
#[cycle(expression)]
fn emit_junction(
    ops: &mut Operations,
    guards: &mut Guards,
    outs: &Outs,
    both: bool,
    left: Operand,
    right: &Pure,
) -> Result<Given, AllocError>
    ensures { IfOk result (λ x. evaluated_of ops.new guards.new.items x ≡ parts.joined_by both (spec.emitted outs.now (pure_of right.now)) (guards_of guards.old.items) (made ops.old left)) }
{
    add_guard(guards, left, both)?;
    let right = emit(ops, guards, outs, right)?;
    drop_guard(guards);
    let right = ops.condition(right)?;
    let bit = ops.operation(junction_form(both), &[left, right])?;
    Ok(Given::Truth(bit))
}

/// The operands of an operator, converted, and then its operation.
#[cycle(expression)]
fn emit_operands(
    ops: &mut Operations,
    guards: &mut Guards,
    outs: &Outs,
    left: Given,
    right: &Pure,
    operator: Operator,
) -> Result<Given, AllocError>
    ensures { IfOk result (λ x. evaluated_of ops.new guards.new.items x ≡ parts.joined_with operator (kind (pure_of right.now)) (spec.emitted outs.now (pure_of right.now)) (evaluated_of ops.old guards.old.items left)) }
{
    let kinds = operand_kinds(operator.op, left.kind(), kind_of(right), operator.kind);
    let left = ops.balanced(left, kinds.left)?;
    let right = emit(ops, guards, outs, right)?;
    let right = ops.balanced(right, kinds.right)?;
    emit_binary(ops, guards, operator, kinds.left, left, right)
}

/// Subscripts, each at its own width.
#[cycle(expression)]
pub fn emit_all(
    ops: &mut Operations,
    guards: &mut Guards,
    outs: &Outs,
    pures: &Vec<Pure>,
) -> Result<Args, AllocError>
    ensures { IfOk result (λ args. subscripts_of ops.new guards.new.items args.items ≡ spec.emitted_all outs.now (pures_of pures.now.items) (ops_of ops.old) (guards_of guards.old.items)) }
{
    let mut args = SmallVec::new(ops.alloc());
    for pure in pures {
        let given = emit(ops, guards, outs, pure)?;
        args.push(ops.value(given)?)?;
    }
    Ok(args)
}

/// The second value of a choice, behind the first one, and the choice.
#[cycle(expression)]
fn emit_other(
    ops: &mut Operations,
    guards: &mut Guards,
    outs: &Outs,
    test: Operand,
    yes: Operand,
    no: &Pure,
    kind: CType,
) -> Result<Given, AllocError>
    ensures { IfOk result (λ x. evaluated_of ops.new guards.new.items x ≡ parts.chosen_other kind (spec.emitted outs.now (pure_of no.now)) test (parts.side_of ops.old guards.old.items yes)) }
{
    let no = emit_side(ops, guards, outs, test, false, no, kind)?;
    let value = ops.operation(plain(OpKind::Select, width(kind)), &[test, yes, no])?;
    Ok(Given::Value(value, kind))
}

/// A value of this type to which control comes where the test is as told.
#[cycle(expression)]
fn emit_side(
    ops: &mut Operations,
    guards: &mut Guards,
    outs: &Outs,
    test: Operand,
    holds: bool,
    pure: &Pure,
    kind: CType,
) -> Result<Operand, AllocError>
    ensures { IfOk result (λ x. parts.side_of ops.new guards.new.items x ≡ parts.sided kind (spec.emitted outs.now (pure_of pure.now)) test holds (ops_of ops.old) (guards_of guards.old.items)) }
{
    add_guard(guards, test, holds)?;
    let given = emit(ops, guards, outs, pure)?;
    drop_guard(guards);
    ops.balanced(given, kind)
}

// ---- operators

/// A binary operator, with its type and its place.
#[derive(Clone, Copy, PartialEq, Eq)]
struct Operator {
    op: Binary,
    kind: CType,
    at: Place,
}

/// The types to which the operands of an operator are converted.
#[derive(Clone, Copy, PartialEq, Eq)]
struct Kinds {
    left: CType,
    right: CType,
}

/// What compares, and whether it does so with its operands exchanged.
#[derive(Clone, Copy, PartialEq, Eq)]
struct Comparison {
    kind: OpKind,
    exchanged: bool,
}

/// Whether both operands have to hold, of `&&` and `||`.
fn junction_of(op: Binary) -> Option<bool>
    ensures { result ≡ parts.junction_of op }
{
    match op {
        Binary::LogAnd => Some(true),
        Binary::LogOr => Some(false),
        _ => None,
    }
}

fn junction_form(both: bool) -> Form
    ensures { result ≡ parts.junction_form both }
{
    if both {
        plain(OpKind::And, 1)
    } else {
        plain(OpKind::Or, 1)
    }
}

/// A shift's count has the width of what is shifted.
fn operand_kinds(op: Binary, left: CType, right: CType, kind: CType) -> Kinds
    ensures { result ≡ parts.operand_kinds op left right kind }
{
    match op {
        Binary::Shl | Binary::Shr => Kinds {
            left: kind,
            right: CType::Int {
                signed: is_signed(promoted(right)),
                bits: width(kind),
            },
        },
        Binary::Lt | Binary::Gt | Binary::Le | Binary::Ge | Binary::Eq | Binary::Ne => Kinds {
            left: common(left, right),
            right: common(left, right),
        },
        _ => Kinds {
            left: kind,
            right: kind,
        },
    }
}

/// What an operator that compares is.
fn comparison_of(op: Binary) -> Option<Comparison>
    ensures { result ≡ parts.comparison_of op }
{
    let (kind, exchanged) = match op {
        Binary::Lt => (OpKind::Lt, false),
        Binary::Gt => (OpKind::Lt, true),
        Binary::Le => (OpKind::Le, false),
        Binary::Ge => (OpKind::Le, true),
        Binary::Eq => (OpKind::Eq, false),
        Binary::Ne => (OpKind::Ne, false),
        _ => return None,
    };
    Some(Comparison { kind, exchanged })
}

/// The operation of a binary operator on operands of this type.
fn emit_binary(
    ops: &mut Operations,
    guards: &mut Guards,
    operator: Operator,
    kind: CType,
    left: Operand,
    right: Operand,
) -> Result<Given, AllocError>
    ensures { IfOk result (λ x. evaluated_of ops.new guards.new.items x ≡ spec.operated operator.op kind operator.at (ops_of ops.old) (guards_of guards.old.items) left right) }
{
    match comparison_of(operator.op) {
        Some(comparison) => Ok(Given::Truth(compare(ops, comparison, kind, left, right)?)),
        None => {
            let args = SmallVec::from_slice(ops.alloc(), &[left, right])?;
            emit_computed(
                ops,
                guards,
                operation_of(operator.op),
                args,
                kind,
                operator.at,
            )
        }
    }
}

fn compare(
    ops: &mut Operations,
    comparison: Comparison,
    kind: CType,
    left: Operand,
    right: Operand,
) -> Result<Operand, AllocError>
    ensures { IfOk result (λ x. made ops.new x ≡ added (ops_of ops.old) (parts.compared_as comparison kind left right)) }
{
    let form = Form {
        kind: comparison.kind,
        signed: is_signed(kind) && is_ordering(comparison.kind),
        bits: width(kind),
    };
    if comparison.exchanged {
        ops.operation(form, &[right, left])
    } else {
        ops.operation(form, &[left, right])
    }
}

fn is_ordering(kind: OpKind) -> bool
    ensures { result ≡ parts.is_ordering kind }
{
    matches!(kind, OpKind::Lt | OpKind::Le)
}

/// The operation of a binary operator.
fn operation_of(op: Binary) -> OpKind
    ensures { result ≡ spec.operation op }
{
    match op {
        Binary::Mul => OpKind::Mul,
        Binary::Div => OpKind::Div,
        Binary::Rem => OpKind::Rem,
        Binary::Add => OpKind::Add,
        Binary::Sub => OpKind::Sub,
        Binary::Shl => OpKind::Shl,
        Binary::Shr => OpKind::Shr,
        Binary::Xor => OpKind::Xor,
        Binary::And | Binary::LogAnd => OpKind::And,
        Binary::Or | Binary::LogOr => OpKind::Or,
        Binary::Lt | Binary::Gt => OpKind::Lt,
        Binary::Le | Binary::Ge => OpKind::Le,
        Binary::Eq => OpKind::Eq,
        Binary::Ne => OpKind::Ne,
    }
}

/// Whether C gives all such operations a value.
fn is_total(op: OpKind, signed: bool) -> bool
    ensures { result ≡ spec.is_total op signed }
{
    match op {
        OpKind::And | OpKind::Or | OpKind::Xor => true,
        OpKind::Add | OpKind::Sub | OpKind::Mul | OpKind::Neg => !signed,
        _ => false,
    }
}

/// An operation that computes, with a flag where it may be undefined.
fn emit_computed(
    ops: &mut Operations,
    guards: &mut Guards,
    op: OpKind,
    args: Args,
    kind: CType,
    at: Place,
) -> Result<Given, AllocError>
    ensures { IfOk result (λ x. evaluated_of ops.new guards.new.items x ≡ spec.computed op kind at (ops_of ops.old) (guards_of guards.old.items) args.items) }
{
    let signed = is_signed(kind);
    let bits = width(kind);
    if is_total(op, signed) {
        let value = ops.operation(plain(op, bits), args.as_slice())?;
        Ok(Given::Value(value, kind))
    } else {
        let form = Form {
            kind: op,
            signed,
            bits,
        };
        emit_flagged(ops, guards, form, args, None, at, kind)
    }
}

/// An operation that may be undefined, which it is at this place, and only where control comes to it.
fn emit_flagged(
    ops: &mut Operations,
    guards: &mut Guards,
    form: Form,
    args: Args,
    array: Option<ArrayId>,
    at: Place,
    kind: CType,
) -> Result<Given, AllocError>
    ensures { IfOk result (λ x. evaluated_of ops.new guards.new.items x ≡ spec.under_guard kind (flagged_as form args.items array at) (guarded (ops_of ops.old) (guards_of guards.old.items))) }
{
    let guard = guard_bit(ops, guards)?;
    let value = ops.flagged(form, args, array, at, guard)?;
    Ok(Given::Value(value, kind))
}

fn emit_load(
    ops: &mut Operations,
    guards: &mut Guards,
    array: ArrayId,
    args: Args,
    kind: CType,
    at: Place,
) -> Result<Given, AllocError>
    ensures { IfOk result (λ x. evaluated_of ops.new guards.new.items x ≡ spec.loaded array kind at (subscripts_of ops.old guards.old.items args.items)) }
{
    let form = plain(OpKind::Load, width(kind));
    emit_flagged(ops, guards, form, args, Some(array), at, kind)
}

fn emit_unary(
    ops: &mut Operations,
    guards: &mut Guards,
    op: Unary,
    arg: Given,
    kind: CType,
    at: Place,
) -> Result<Given, AllocError>
    ensures { IfOk result (λ x. evaluated_of ops.new guards.new.items x ≡ spec.unary op kind at (evaluated_of ops.old guards.old.items arg)) }
{
    match op {
        Unary::LogNot => {
            let bit = ops.condition(arg)?;
            Ok(Given::Truth(ops.operation(plain(OpKind::Not, 1), &[bit])?))
        }
        Unary::Minus => {
            let arg = ops.balanced(arg, kind)?;
            let args = SmallVec::from_slice(ops.alloc(), &[arg])?;
            emit_computed(ops, guards, OpKind::Neg, args, kind, at)
        }
        Unary::Not => {
            let arg = ops.balanced(arg, kind)?;
            let form = plain(OpKind::Not, width(kind));
            Ok(Given::Value(ops.operation(form, &[arg])?, kind))
        }
        Unary::Plus => Ok(Given::Value(ops.balanced(arg, kind)?, kind)),
    }
}
