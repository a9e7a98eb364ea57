//! Expressions that are put together.
ghost use Rattle.std.specs.Prelude.{◌≡◌, IfOk, if◌then◌else◌};
ghost use Rattle.c_value.specs.Values.{int_type};
ghost use Rattle.pieces.specs.Trees as tree;
ghost use Rattle.pieces.specs.View.{pure_of, pures_of};

use c_token::ctype::CType;
use c_tree::operator::{Binary, Unary};
use c_value::kind::INT;
use hls_base::number::{ArrayId, VarId};
use hls_base::place::Place;
use pieces::pure_expr::Pure;
use std::alloc::{AllocError, Global};

/// A binary operator with its type and place.
#[derive(Clone, Copy, PartialEq, Eq)]
pub struct Operator {
    pub op: Binary,
    pub kind: CType,
    pub at: Place,
}

/// A unary operator with its type and place.
pub fn unary(
    alloc: Global,
    op: Unary,
    arg: Pure,
    kind: CType,
    at: Place,
) -> Result<Pure, AllocError>
    ensures { IfOk result (λ p. pure_of p ≡ tree.unary op (pure_of arg) kind at) }
{
    let arg = Box::new(alloc, arg)?;
    Ok(Pure::Unary { op, arg, kind, at })
}

pub fn cast(alloc: Global, to: CType, arg: Pure) -> Result<Pure, AllocError>
    ensures { IfOk result (λ p. pure_of p ≡ tree.cast to (pure_of arg)) }
{
    let arg = Box::new(alloc, arg)?;
    Ok(Pure::Cast { to, arg })
}

pub fn binary(
    alloc: Global,
    operator: Operator,
    left: Pure,
    right: Pure,
) -> Result<Pure, AllocError>
    ensures { IfOk result (λ p. pure_of p ≡ tree.binary operator.op (pure_of left) (pure_of right) operator.kind operator.at) }
{
    let Operator { op, kind, at } = operator;
    let left = Box::new(alloc, left)?;
    let right = Box::new(alloc, right)?;
    Ok(Pure::Binary {
        op,
        left,
        right,
        kind,
        at,
    })
}

pub fn choice(
    alloc: Global,
    kind: CType,
    test: Pure,
    yes: Pure,
    no: Pure,
) -> Result<Pure, AllocError>
    ensures { IfOk result (λ p. pure_of p ≡ tree.choice (pure_of test) (pure_of yes) (pure_of no) kind) }
{
    let test = Box::new(alloc, test)?;
    let yes = Box::new(alloc, yes)?;
    let no = Box::new(alloc, no)?;
    Ok(Pure::Choice {
        test,
        yes,
        no,
        kind,
    })
}

/// The number 0 or 1, as an `int`.
pub fn bit(is_one: bool) -> Pure
    ensures { pure_of result ≡ tree.number (if is_one then 1 else 0) int_type }
{
    let value = if is_one { 1 } else { 0 };
    Pure::Number { value, kind: INT }
}

/// A variable that is read.
pub fn variable(own: VarId, kind: CType) -> Pure
    ensures { pure_of result ≡ tree.variable own kind }
{
    Pure::Variable(own, kind)
}

/// An element that is read.
pub fn element(array: ArrayId, subscripts: Vec<Pure>, kind: CType, at: Place) -> Pure
    ensures { pure_of result ≡ tree.element array (pures_of subscripts.items) kind at }
{
    Pure::Element {
        array,
        subscripts,
        kind,
        at,
    }
}
