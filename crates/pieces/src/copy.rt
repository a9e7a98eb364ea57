//! Expressions that are used twice.
ghost use Rattle.std.specs.Prelude.{◌≡◌, IfOk};
ghost use Rattle.pieces.specs.View.{pure_of, pures_of};

use crate::pure_expr::Pure;
use std::alloc::{AllocError, Global};

/// Another owner of the same expression.
#[cycle(copy_pure)]
pub fn copy_pure(alloc: Global, pure: &Pure) -> Result<Pure, AllocError>
    ensures { IfOk result (λ p. pure_of p ≡ pure_of pure.now) }
{
    match pure {
        Pure::Number { value, kind } => Ok(Pure::Number {
            value: *value,
            kind: *kind,
        }),
        Pure::Variable(variable, kind) => Ok(Pure::Variable(*variable, *kind)),
        Pure::Element {
            array,
            subscripts,
            kind,
            at,
        } => Ok(Pure::Element {
            array: *array,
            subscripts: copy_pures(alloc, subscripts)?,
            kind: *kind,
            at: *at,
        }),
        Pure::Unary { op, arg, kind, at } => Ok(Pure::Unary {
            op: *op,
            arg: copy_box(alloc, arg)?,
            kind: *kind,
            at: *at,
        }),
        Pure::Binary {
            op,
            left,
            right,
            kind,
            at,
        } => Ok(Pure::Binary {
            op: *op,
            left: copy_box(alloc, left)?,
            right: copy_box(alloc, right)?,
            kind: *kind,
            at: *at,
        }),
        Pure::Choice {
            test,
            yes,
            no,
            kind,
        } => Ok(Pure::Choice {
            test: copy_box(alloc, test)?,
            yes: copy_box(alloc, yes)?,
            no: copy_box(alloc, no)?,
            kind: *kind,
        }),
        Pure::Cast { to, arg } => Ok(Pure::Cast {
            to: *to,
            arg: copy_box(alloc, arg)?,
        }),
    }
}

#[cycle(copy_pure)]
fn copy_box(alloc: Global, pure: &Pure) -> Result<Box<Pure>, AllocError>
    ensures { IfOk result (λ p. pure_of p.value ≡ pure_of pure.now) }
{
    let copied = copy_pure(alloc, pure)?;
    Ok(Box::new(alloc, copied)?)
}

/// Another owner of the same expressions.
#[cycle(copy_pure)]
pub fn copy_pures(alloc: Global, pures: &Vec<Pure>) -> Result<Vec<Pure>, AllocError>
    ensures { IfOk result (λ ps. pures_of ps.items ≡ pures_of pures.now.items) }
{
    let mut all = Vec::with_capacity(alloc, pures.len())?;
    for pure in pures {
        all.push(copy_pure(alloc, pure)?)?;
    }
    Ok(all)
}
