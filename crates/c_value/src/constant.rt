//! Constant expressions.
ghost use Rattle.std.specs.Prelude.{◌≡◌, pos, if◌then◌else◌};
ghost use Rattle.c_tree.specs.View.{tree_of};
ghost use Rattle.c_value.specs.Operators.{computed_of, defined, is_true};
ghost use Rattle.c_value.specs.Operators as operators;
ghost use Rattle.c_value.specs.Values as values;
ghost use Rattle.c_value.specs.Constant.{then_compute, is_constant, constant_kind, constant_number, constant_value, as_truth, operated};
ghost use Rattle.c_value.specs.Inside.{value_of};

use crate::chain::{chain_length, part_at};
use crate::convert::convert;
use crate::kind::{INT, common};
use crate::operate::{binary_kind, binary_value, unary_kind, unary_value};
use c_token::ctype::CType;
use c_tree::expression::Expr;
use c_tree::operator::{Binary, Unary};
use hls_base::refusal::UbRule;

/// What an expression is as a constant: a number of a type, or an expression of the form that has no value, or none of the form.
#[derive(Clone, Copy, Debug, PartialEq, Eq)]
pub enum Constant {
    Number { kind: CType, number: i128 },
    Undefined(UbRule),
    Other,
}

/// Whether it has the form of a constant expression.
pub fn is_constant(e: &Expr) -> bool
    ensures { result ≡ is_constant (tree_of e.now) }
{
    let mut part = e;
    'chain: loop {
        match part {
            Expr::Number { .. } => return true,
            Expr::Unary { arg, .. } | Expr::Cast { arg, .. } => part = arg,
            Expr::Binary { left, right, .. } => {
                if !is_constant(right) {
                    return false;
                }
                part = left;
            }
            Expr::Choice { test, yes, no, .. } => {
                return is_constant(test) && is_constant(yes) && is_constant(no);
            }
            _ => return false,
        }
    }
}

fn as_truth(second: Result<i128, UbRule>) -> Result<i128, UbRule>
    ensures { computed_of result ≡ as_truth (computed_of second) }
{
    let y = second?;
    Ok(i128::from(y != 0))
}

/// An operator on the number x and a second operand, which has a part in it only where C evaluates it.
#[tactic(auto, using(crate::proofs::Operating::others))]
fn operated(
    op: Binary,
    left: CType,
    x: i128,
    right: CType,
    second: Result<i128, UbRule>,
) -> Result<i128, UbRule>
    ensures { computed_of result ≡ operated op left x right (computed_of second) }
{
    match op {
        Binary::LogAnd if x == 0 => Ok(0),
        Binary::LogOr if x != 0 => Ok(1),
        Binary::LogAnd | Binary::LogOr => as_truth(second),
        _ => {
            let y = second?;
            binary_value(op, left, x, right, y)
        }
    }
}

/// The type and the number of a constant expression.
#[derive(Drop)]
struct Valued {
    kind: CType,
    number: Result<i128, UbRule>,
}

fn of_unary(op: Unary, arg: Valued) -> Valued
    ensures kind { result.kind ≡ operators.unary_kind op arg.kind }
    ensures number { computed_of result.number ≡ then_compute (computed_of arg.number) (operators.unary_value op arg.kind) }
{
    let kind = unary_kind(op, arg.kind);
    let number = match arg.number {
        Ok(x) => unary_value(op, arg.kind, x),
        Err(rule) => Err(rule),
    };
    Valued { kind, number }
}

fn of_binary(op: Binary, left: Valued, right: Valued) -> Valued
    ensures kind { result.kind ≡ operators.binary_kind op left.kind right.kind }
    ensures number { computed_of result.number ≡ then_compute (computed_of left.number) (λ x. operated op left.kind x right.kind (computed_of right.number)) }
{
    let kind = binary_kind(op, left.kind, right.kind);
    let number = match left.number {
        Ok(x) => operated(op, left.kind, x, right.kind, right.number),
        Err(rule) => Err(rule),
    };
    Valued { kind, number }
}

fn converted(kind: CType, number: Result<i128, UbRule>) -> Result<i128, UbRule>
    ensures { computed_of result ≡ then_compute (computed_of number) (λ y. defined (values.convert kind y)) }
{
    let y = number?;
    Ok(convert(kind, y))
}

fn of_choice(test: Valued, yes: Valued, no: Valued) -> Valued
    ensures kind { result.kind ≡ values.common yes.kind no.kind }
    ensures number { computed_of result.number ≡ then_compute (computed_of test.number) (λ x. then_compute (if is_true x then computed_of yes.number else computed_of no.number) (λ y. defined (values.convert (values.common yes.kind no.kind) y))) }
{
    let kind = common(yes.kind, no.kind);
    let number = match test.number {
        Ok(0) => converted(kind, no.number),
        Ok(_) => converted(kind, yes.number),
        Err(rule) => Err(rule),
    };
    Valued { kind, number }
}

/// What an expression of the form comes to, by its own variant.
#[cycle(evaluate)]
fn evaluate_part(e: &Expr) -> Valued
    ensures kind { result.kind ≡ constant_kind (tree_of e.now) }
    ensures number { computed_of result.number ≡ constant_number (tree_of e.now) }
{
    match e {
        Expr::Number { value, kind, .. } => Valued {
            kind: *kind,
            number: Ok(i128::from(*value)),
        },
        Expr::Unary { op, arg, .. } => of_unary(*op, evaluate(arg)),
        Expr::Binary {
            op,
            left,
            right,
            ..
        } => of_binary(*op, evaluate(left), evaluate(right)),
        Expr::Choice { test, yes, no, .. } => of_choice(
            evaluate(test),
            evaluate(yes),
            evaluate(no),
        ),
        Expr::Cast { to, arg, .. } => Valued {
            kind: *to,
            number: converted(*to, evaluate(arg).number),
        },
        _ => Valued {
            kind: INT,
            number: Ok(0),
        },
    }
}

/// What an expression of the form comes to. Operators in a row are gone through from the innermost outwards.
#[cycle(evaluate)]
fn evaluate(e: &Expr) -> Valued
    ensures kind { result.kind ≡ constant_kind (tree_of e.now) }
    ensures number { computed_of result.number ≡ constant_number (tree_of e.now) }
{
    let mut depth = chain_length(e);
    let mut whole = evaluate_part(part_at(e, depth));
    'outwards: while depth > 0 {
        depth -= 1;
        if let Expr::Binary { op, right, .. } = part_at(e, depth) {
            whole = of_binary(*op, whole, evaluate(right));
        }
    }
    whole
}

/// The type of a constant expression.
pub fn constant_kind(e: &Expr) -> CType
    ensures { result ≡ constant_kind (tree_of e.now) }
{
    evaluate(e).kind
}

/// The number of a constant expression.
pub fn constant_number(e: &Expr) -> Result<i128, UbRule>
    ensures { computed_of result ≡ constant_number (tree_of e.now) }
{
    evaluate(e).number
}

/// What the expression is as a constant.
pub fn constant_value(e: &Expr) -> Constant
    ensures { value_of result ≡ constant_value (tree_of e.now) }
{
    if !is_constant(e) {
        return Constant::Other;
    }
    let found = evaluate(e);
    match found.number {
        Ok(number) => Constant::Number {
            kind: found.kind,
            number,
        },
        Err(rule) => Constant::Undefined(rule),
    }
}
