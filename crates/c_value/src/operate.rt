//! The operators.
ghost use Rattle.std.specs.Prelude.{◌≡◌, ◌^◌, ◌*ℤ◌, ◌<◌, ◌≤ℤ◌, pos, neg_ℤ, IsTrue, int_lt, int_le, int_div, int_rem, not, bit_and, bit_or, bit_xor};
ghost use Rattle.c_value.specs.Inside.{IsShift, IsComparison, comparison};
ghost use Rattle.c_value.specs.Values.{width, is_of, IsOf, convert};
ghost use Rattle.c_value.specs.Operators.{computed_of, truth, is_true, unary_kind, binary_kind, in_range, complement, bitwise, unary_value, binary_value, balanced, divided, shifted, shifted_left, shifted_right};

use crate::arithmetic::{self, opposite};
use crate::convert::{convert, number_of, ones, pattern, wrap};
use crate::kind::{INT, common, is_of, is_signed, promoted, width};
use c_token::ctype::CType;
use c_tree::operator::{Binary, Unary};
use hls_base::refusal::UbRule;

/// The type of a unary operator's result.
pub fn unary_kind(op: Unary, kind: CType) -> CType
    ensures { result ≡ unary_kind op kind }
{
    match op {
        Unary::LogNot => INT,
        Unary::Plus | Unary::Minus | Unary::Not => promoted(kind),
    }
}

/// The type of a binary operator's result.
pub fn binary_kind(op: Binary, left: CType, right: CType) -> CType
    ensures { result ≡ binary_kind op left right }
{
    match op {
        Binary::Shl | Binary::Shr => promoted(left),
        Binary::Lt
        | Binary::Gt
        | Binary::Le
        | Binary::Ge
        | Binary::Eq
        | Binary::Ne
        | Binary::LogAnd
        | Binary::LogOr => INT,
        _ => common(left, right),
    }
}

fn in_range(kind: CType, n: i128) -> Result<i128, UbRule>
    ensures { computed_of result ≡ in_range kind n }
{
    if !is_signed(kind) {
        Ok(wrap(kind, n))
    } else if is_of(kind, n) {
        Ok(n)
    } else {
        Err(UbRule::Overflow)
    }
}

fn complement(kind: CType, n: i128) -> i128
    ensures { result ≡ complement kind n }
{
    number_of(kind, ones(kind) - pattern(kind, n))
}

fn minus(kind: CType, n: i128) -> Result<i128, UbRule>
    ensures { computed_of result ≡ in_range kind (neg_ℤ (convert kind n)) }
{
    in_range(kind, opposite(convert(kind, n)))
}

/// The value of a unary operator on a number of this type.
pub fn unary_value(op: Unary, kind: CType, n: i128) -> Result<i128, UbRule>
    ensures { computed_of result ≡ unary_value op kind n }
{
    let to = promoted(kind);
    match op {
        Unary::Plus => Ok(convert(to, n)),
        Unary::Minus => minus(to, n),
        Unary::Not => Ok(complement(to, n)),
        Unary::LogNot => Ok(i128::from(n == 0)),
    }
}

fn quotient(kind: CType, x: i128, y: i128) -> Result<i128, UbRule>
    requires { IsTrue (is_of kind x) }
    ensures { computed_of result ≡ divided int_div kind x y }
{
    if y == 0 {
        return Err(UbRule::DivideByZero);
    }
    let quotient = arithmetic::quotient(x, y);
    if is_of(kind, quotient) {
        Ok(quotient)
    } else {
        Err(UbRule::QuotientRange)
    }
}

fn remainder(kind: CType, x: i128, y: i128) -> Result<i128, UbRule>
    requires { IsTrue (is_of kind x) }
    ensures { computed_of result ≡ divided int_rem kind x y }
{
    if y == 0 {
        return Err(UbRule::DivideByZero);
    }
    if is_of(kind, arithmetic::quotient(x, y)) {
        Ok(arithmetic::remainder(x, y))
    } else {
        Err(UbRule::QuotientRange)
    }
}

/// Of unsigned numbers of 64 bits the product does not fit 128 bits with a sign.
fn product(kind: CType, x: i128, y: i128) -> Result<i128, UbRule>
    requires left { IsTrue (is_of kind x) }
    requires right { IsTrue (is_of kind y) }
    ensures { computed_of result ≡ in_range kind (x *ℤ y) }
{
    match kind {
        CType::Int {
            signed: false,
            bits,
        } if bits > 32 => Ok(i128::from((x as u64).wrapping_mul(y as u64))),
        _ => in_range(kind, arithmetic::product(x, y)),
    }
}

fn shifted_left(kind: CType, n: i128, count: u8) -> Result<i128, UbRule>
    requires number { IsTrue (is_of kind n) }
    requires count { count < 64 }
    ensures { computed_of result ≡ shifted_left kind n count }
{
    if !is_signed(kind) {
        Ok(wrap(kind, arithmetic::times_power(n, count)))
    } else if 0 <= n && is_of(kind, arithmetic::times_power(n, count)) {
        Ok(arithmetic::times_power(n, count))
    } else {
        Err(UbRule::ShiftLeft)
    }
}

fn bitwise_and(kind: CType, x: i128, y: i128) -> i128
    ensures { result ≡ bitwise bit_and kind x y }
{
    number_of(kind, pattern(kind, x) & pattern(kind, y))
}

fn bitwise_or(kind: CType, x: i128, y: i128) -> i128
    ensures { result ≡ bitwise bit_or kind x y }
{
    number_of(kind, pattern(kind, x) | pattern(kind, y))
}

fn bitwise_xor(kind: CType, x: i128, y: i128) -> i128
    ensures { result ≡ bitwise bit_xor kind x y }
{
    number_of(kind, pattern(kind, x) ^ pattern(kind, y))
}

/// A shift, by a count that may be outside the width.
fn shift(op: Binary, kind: CType, n: i128, count: i128) -> Result<i128, UbRule>
    requires number { IsTrue (is_of kind n) }
    requires shift { IsShift op }
    ensures { computed_of result ≡ balanced op kind n count }
{
    if count < 0 || count >= i128::from(width(kind)) {
        return Err(UbRule::ShiftCount);
    }
    let count = count as u8;
    match op {
        Binary::Shl => shifted_left(kind, n, count),
        _ => Ok(arithmetic::by_power(n, count)),
    }
}

fn compared(op: Binary, x: i128, y: i128) -> bool
    requires { IsComparison op }
    ensures { result ≡ comparison op x y }
{
    match op {
        Binary::Lt => x < y,
        Binary::Gt => y < x,
        Binary::Le => x <= y,
        Binary::Ge => y <= x,
        Binary::Eq => x == y,
        _ => x != y,
    }
}

/// An operator on two numbers of their common type.
fn balanced(op: Binary, kind: CType, x: i128, y: i128) -> Result<i128, UbRule>
    requires left { IsTrue (is_of kind x) }
    requires right { IsTrue (is_of kind y) }
    ensures { computed_of result ≡ balanced op kind x y }
{
    match op {
        Binary::Mul => product(kind, x, y),
        Binary::Div => quotient(kind, x, y),
        Binary::Rem => remainder(kind, x, y),
        Binary::Add => in_range(kind, arithmetic::sum(x, y)),
        Binary::Sub => in_range(kind, arithmetic::difference(x, y)),
        Binary::And => Ok(bitwise_and(kind, x, y)),
        Binary::Xor => Ok(bitwise_xor(kind, x, y)),
        Binary::Or => Ok(bitwise_or(kind, x, y)),
        Binary::Shl | Binary::Shr => shift(op, kind, x, y),
        Binary::LogAnd => Ok(i128::from(x != 0 && y != 0)),
        Binary::LogOr => Ok(i128::from(x != 0 || y != 0)),
        _ => Ok(i128::from(compared(op, x, y))),
    }
}

/// The value of a binary operator on two numbers of these types.
pub fn binary_value(op: Binary, left: CType, x: i128, right: CType, y: i128) -> Result<i128, UbRule>
    ensures { computed_of result ≡ binary_value op left x right y }
{
    match op {
        Binary::LogAnd => Ok(i128::from(x != 0 && y != 0)),
        Binary::LogOr => Ok(i128::from(x != 0 || y != 0)),
        Binary::Shl | Binary::Shr => {
            let kind = promoted(left);
            shift(op, kind, convert(kind, x), convert(promoted(right), y))
        }
        _ => {
            let kind = common(left, right);
            balanced(op, kind, convert(kind, x), convert(kind, y))
        }
    }
}
