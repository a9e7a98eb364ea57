//! Operators around an expression, which are put round it one after another, without recursion.
ghost use Rattle.std.specs.Prelude.{◌≡◌, IfOk};
ghost use Rattle.pieces.specs.Resolved.Core as core;
ghost use Rattle.pieces.specs.Resolved.CoreView.{core_of, core_target_of};
ghost use Rattle.c_elaborate.specs.Chains as spec;
ghost use Rattle.c_elaborate.specs.Expressions.{unary_of, binary_of};

use crate::kinds::kind_of;
use c_token::ctype::CType;
use c_tree::operator::{Binary, Unary};
use c_value::operate::{binary_kind, unary_kind};
use hls_base::place::Place;
use pieces::resolved::expression::{CoreExpr, CoreTarget};
use std::alloc::{AllocError, Global};

/// An operator with all but the operand that it goes on with: its only one, the left one, or the value that it assigns.
#[derive(Drop)]
pub enum Step {
    Unary {
        op: Unary,
        at: Place,
    },
    Cast {
        to: CType,
    },
    Binary {
        op: Binary,
        right: CoreExpr,
        at: Place,
    },
    Assign {
        target: CoreTarget,
        op: Option<Binary>,
        at: Place,
    },
    Comma {
        right: CoreExpr,
    },
}

fn unary(alloc: Global, op: Unary, arg: CoreExpr, at: Place) -> Result<CoreExpr, AllocError>
    ensures { IfOk result (λ e. core_of e ≡ unary_of op (core_of arg) at) }
{
    let kind = unary_kind(op, kind_of(&arg));
    let arg = Box::new(alloc, arg)?;
    Ok(CoreExpr::Unary { op, arg, kind, at })
}

fn binary(
    alloc: Global,
    op: Binary,
    left: CoreExpr,
    right: CoreExpr,
    at: Place,
) -> Result<CoreExpr, AllocError>
    ensures { IfOk result (λ e. core_of e ≡ binary_of op (core_of left) (core_of right) at) }
{
    let kind = binary_kind(op, kind_of(&left), kind_of(&right));
    let left = Box::new(alloc, left)?;
    let right = Box::new(alloc, right)?;
    Ok(CoreExpr::Binary {
        op,
        left,
        right,
        kind,
        at,
    })
}

fn cast(alloc: Global, to: CType, arg: CoreExpr) -> Result<CoreExpr, AllocError>
    ensures { IfOk result (λ e. core_of e ≡ core.cast to (core_of arg)) }
{
    let arg = Box::new(alloc, arg)?;
    Ok(CoreExpr::Cast { to, arg })
}

/// `target = value`, or with an operator.
pub fn assign(
    alloc: Global,
    target: CoreTarget,
    op: Option<Binary>,
    value: CoreExpr,
    at: Place,
) -> Result<CoreExpr, AllocError>
    ensures { IfOk result (λ e. core_of e ≡ core.assign (core_target_of target) op (core_of value) at) }
{
    let value = Box::new(alloc, value)?;
    Ok(CoreExpr::Assign {
        target,
        op,
        value,
        at,
    })
}

fn comma(alloc: Global, left: CoreExpr, right: CoreExpr) -> Result<CoreExpr, AllocError>
    ensures { IfOk result (λ e. core_of e ≡ core.comma (core_of left) (core_of right)) }
{
    let left = Box::new(alloc, left)?;
    let right = Box::new(alloc, right)?;
    Ok(CoreExpr::Comma { left, right })
}

/// The operator with the operand that it goes on with.
fn stepped(alloc: Global, step: Step, part: CoreExpr) -> Result<CoreExpr, AllocError>
    ensures { IfOk result (λ e. core_of e ≡ spec.step step (core_of part)) }
{
    match step {
        Step::Unary { op, at } => unary(alloc, op, part, at),
        Step::Cast { to } => cast(alloc, to, part),
        Step::Binary { op, right, at } => binary(alloc, op, part, right, at),
        Step::Assign { target, op, at } => assign(alloc, target, op, part, at),
        Step::Comma { right } => comma(alloc, part, right),
    }
}

/// The whole expression, from its innermost part and the operators around it, of which the last is the innermost.
pub fn joined(alloc: Global, part: CoreExpr, steps: Vec<Step>) -> Result<CoreExpr, AllocError>
    ensures { IfOk result (λ e. core_of e ≡ spec.steps steps.items (core_of part)) }
{
    let mut steps = steps;
    let mut whole = part;
    while let Some(step) = steps.pop() {
        whole = stepped(alloc, step, whole)?;
    }
    Ok(whole)
}
