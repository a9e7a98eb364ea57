//! The one meaning of the operations, on bit patterns. It is total: where C gives no value it is a fixed pattern.
ghost use Rattle.std.specs.Prelude.{◌≡◌, ◌≢◌, ◌<◌, ◌≤◌, ◌*◌, ◌%◌, ◌^◌, ◌+ℤ◌, ◌-ℤ◌, ◌*ℤ◌, IsTrue, true, pos, neg_ℤ, unsigned_abs, int_div, int_rem, get_or, bit_and, bit_or, bit_xor};
ghost use Rattle.std.specs.Int.{int_shr};
ghost use Rattle.ir_core.specs.Value as spec;

use crate::body::{OpKind, Pairing, Simple};

/// No pattern has more than 64 bits.
pub fn width(bits: u8) -> u64
    ensures { result ≡ spec.width bits }
{
    if bits < 64 { u64::from(bits) } else { 64 }
}

fn power(count: u8) -> i128
    requires { count < 64 }
    ensures value { result ≡ pos (2 ^ count) }
    ensures small { unsigned_abs result ≤ 2 ^ 63 }
{
    i128::from(1u64 << count)
}

/// How many patterns of so many bits there are.
fn count_of(bits: u8) -> i128
    ensures value { result ≡ pos (spec.count_of bits) }
    ensures small { spec.count_of bits ≤ 2 ^ 64 }
{
    if bits < 64 { power(bits) } else { 1 << 64 }
}

/// How many patterns of so many bits stand for negative numbers where they are signed.
fn half_of(bits: u8) -> i128
    ensures value { result ≡ pos (spec.half_of bits) }
    ensures small { spec.half_of bits ≤ 2 ^ 63 }
{
    if bits < 64 {
        power(bits.saturating_sub(1))
    } else {
        1 << 63
    }
}

/// The number that a pattern of so many bits stands for.
pub fn number_of(signed: bool, bits: u8, word: u64) -> i128
    ensures value { result ≡ spec.number_of signed bits word }
    ensures small { unsigned_abs result < 2 ^ 64 }
{
    let number = i128::from(word);
    if signed && number >= half_of(bits) {
        number - count_of(bits)
    } else {
        number
    }
}

/// The pattern of so many bits that is congruent to a number.
fn pattern(bits: u8, n: i128) -> u64
    ensures value { result ≡ spec.pattern bits n }
    ensures within { result < spec.count_of bits }
{
    n.rem_euclid(count_of(bits)) as u64
}

/// Whether a number has a pattern of so many bits.
fn is_of(signed: bool, bits: u8, n: i128) -> bool
    ensures value { result ≡ spec.is_of signed bits n }
    ensures small { signed ≡ true → IsTrue result → unsigned_abs n ≤ 2 ^ 63 }
{
    if signed {
        -half_of(bits) <= n && n < half_of(bits)
    } else {
        0 <= n && n < count_of(bits)
    }
}

fn opposite(n: i128) -> i128
    requires { unsigned_abs n < 2 ^ 64 }
    ensures { result ≡ neg_ℤ n }
{
    -n
}

fn sum(x: i128, y: i128) -> i128
    requires left { unsigned_abs x < 2 ^ 64 }
    requires right { unsigned_abs y < 2 ^ 64 }
    ensures { result ≡ x +ℤ y }
{
    x + y
}

fn difference(x: i128, y: i128) -> i128
    requires left { unsigned_abs x < 2 ^ 64 }
    requires right { unsigned_abs y < 2 ^ 64 }
    ensures { result ≡ x -ℤ y }
{
    x - y
}

fn times(x: i128, y: i128) -> i128
    requires left { unsigned_abs x < 2 ^ 64 }
    requires right { unsigned_abs y ≤ 2 ^ 63 }
    ensures { result ≡ x *ℤ y }
{
    x * y
}

fn divided(x: i128, y: i128) -> i128
    requires dividend { unsigned_abs x < 2 ^ 64 }
    requires divisor { y ≢ pos 0 }
    ensures { result ≡ int_div x y }
{
    x / y
}

fn rest(x: i128, y: i128) -> i128
    requires dividend { unsigned_abs x < 2 ^ 64 }
    requires divisor { y ≢ pos 0 }
    ensures { result ≡ int_rem x y }
{
    x % y
}

fn halved(n: i128, count: u8) -> i128
    requires { count < 64 }
    ensures { result ≡ int_shr n count }
{
    n >> count
}

fn product(bits: u8, x: u64, y: u64) -> u64
    ensures { result ≡ spec.product bits x y }
{
    let product = u128::from(x) * u128::from(y);
    if bits < 64 {
        (product % (1u128 << bits)) as u64
    } else {
        (product % (1u128 << 64)) as u64
    }
}

/// With the divisor 0 the dividend's absolute value is divided to all ones.
fn quotient(bits: u8, x: i128, y: i128) -> u64
    requires { unsigned_abs x < 2 ^ 64 }
    ensures { result ≡ spec.quotient bits x y }
{
    if y != 0 {
        pattern(bits, divided(x, y))
    } else if x < 0 {
        pattern(bits, 1)
    } else {
        pattern(bits, -1)
    }
}

/// With the divisor 0 the remainder is the dividend.
fn remainder(bits: u8, x: i128, y: i128) -> u64
    requires { unsigned_abs x < 2 ^ 64 }
    ensures { result ≡ spec.remainder bits x y }
{
    if y != 0 {
        pattern(bits, rest(x, y))
    } else {
        pattern(bits, x)
    }
}

fn shifted_left(bits: u8, x: u64, count: u64) -> u64
    ensures { result ≡ spec.shifted_left bits x count }
{
    if count < width(bits) {
        product(bits, x, 1u64 << count)
    } else {
        0
    }
}

fn shifted_right(bits: u8, x: i128, count: u64) -> u64
    ensures { result ≡ spec.shifted_right bits x count }
{
    if count < width(bits) {
        pattern(bits, halved(x, count as u8))
    } else if x < 0 {
        pattern(bits, -1)
    } else {
        0
    }
}

fn simple(kind: Simple, bits: u8, x: u64, y: u64) -> u64
    ensures { result ≡ spec.simple kind bits x y }
{
    match kind {
        Simple::Add => pattern(bits, sum(i128::from(x), i128::from(y))),
        Simple::Sub => pattern(bits, difference(i128::from(x), i128::from(y))),
        Simple::And => pattern(bits, i128::from(x & y)),
        Simple::Or => pattern(bits, i128::from(x | y)),
        Simple::Xor => pattern(bits, i128::from(x ^ y)),
    }
}

fn fused(pairing: Pairing, bits: u8, x: u64, y: u64, z: u64) -> u64
    ensures { result ≡ spec.fused pairing bits x y z }
{
    let first = simple(pairing.first, bits, x, y);
    if pairing.left {
        simple(pairing.second, bits, first, z)
    } else {
        simple(pairing.second, bits, z, first)
    }
}

fn chosen(bits: u8, test: u64, one: u64, zero: u64) -> u64
    ensures { result ≡ spec.chosen bits test one zero }
{
    if test == 0 {
        pattern(bits, i128::from(zero))
    } else {
        pattern(bits, i128::from(one))
    }
}

/// The argument of this number, or 0 where there is none.
fn arg_at(args: &[u64], index: usize) -> u64
    ensures { result ≡ get_or args.now index 0 }
{
    if index < args.len() { args[index] } else { 0 }
}

fn compared(kind: OpKind, x: i128, y: i128) -> u64
    ensures { result ≡ spec.compared kind x y }
{
    match kind {
        OpKind::Lt => u64::from(x < y),
        _ => u64::from(x <= y),
    }
}

/// The bit pattern that an operation gives on three arguments.
fn value_at(kind: OpKind, signed: bool, widths: (u8, u8), args: (u64, u64, u64)) -> u64
    ensures { result ≡ spec.value_at kind signed widths.0 widths.1 args.0 args.1 args.2 }
{
    let (bits, from_bits) = widths;
    let (x, y, z) = args;
    match kind {
        OpKind::Add => simple(Simple::Add, bits, x, y),
        OpKind::Sub => simple(Simple::Sub, bits, x, y),
        OpKind::Mul => product(bits, x, y),
        OpKind::Div => quotient(bits, number_of(signed, bits, x), number_of(signed, bits, y)),
        OpKind::Rem => remainder(bits, number_of(signed, bits, x), number_of(signed, bits, y)),
        OpKind::And => simple(Simple::And, bits, x, y),
        OpKind::Or => simple(Simple::Or, bits, x, y),
        OpKind::Xor => simple(Simple::Xor, bits, x, y),
        OpKind::Shl => shifted_left(bits, x, y),
        OpKind::Shr => shifted_right(bits, number_of(signed, bits, x), y),
        OpKind::Eq => u64::from(x == y),
        OpKind::Ne => u64::from(x != y),
        OpKind::Lt | OpKind::Le => {
            compared(kind, number_of(signed, bits, x), number_of(signed, bits, y))
        }
        OpKind::Not => pattern(bits, difference(-1, i128::from(x))),
        OpKind::Neg => pattern(bits, opposite(i128::from(x))),
        OpKind::Select => chosen(bits, x, y, z),
        OpKind::Widen => pattern(bits, number_of(signed, from_bits, x)),
        OpKind::Narrow | OpKind::Copy => pattern(bits, i128::from(x)),
        OpKind::Truth => u64::from(x != 0),
        OpKind::Load | OpKind::Store => 0,
        OpKind::Fused(pairing) => fused(pairing, bits, x, y, z),
    }
}

/// The bit pattern that an operation gives. `from_bits` is the width of the first argument. What a `Load` gives and a `Store` does is the memory's, and no value of theirs.
pub fn evaluate(kind: OpKind, signed: bool, bits: u8, from_bits: u8, args: &[u64]) -> u64
    ensures { result ≡ spec.value kind signed bits from_bits args.now }
{
    let words = (arg_at(args, 0), arg_at(args, 1), arg_at(args, 2));
    value_at(kind, signed, (bits, from_bits), words)
}

fn in_range(signed: bool, bits: u8, n: i128) -> bool
    ensures { result ≡ spec.in_range signed bits n }
{
    !signed || is_of(signed, bits, n)
}

fn is_product(bits: u8, x: i128, y: i128) -> bool
    ensures { result ≡ spec.is_product bits x y }
{
    if !is_of(true, bits, x) {
        return false;
    }
    if !is_of(true, bits, y) {
        return false;
    }
    is_of(true, bits, times(x, y))
}

fn is_shift(signed: bool, bits: u8, x: i128, count: u64) -> bool
    requires { unsigned_abs x < 2 ^ 64 }
    ensures { result ≡ spec.is_shift signed bits x count }
{
    if count >= width(bits) {
        return false;
    }
    !signed || (0 <= x && is_of(signed, bits, times(x, power(count as u8))))
}

fn is_quotient(signed: bool, bits: u8, x: i128, y: i128) -> bool
    requires { unsigned_abs x < 2 ^ 64 }
    ensures { result ≡ spec.is_quotient signed bits x y }
{
    y != 0 && is_of(signed, bits, divided(x, y))
}

/// Whether C gives the operation a value.
pub fn is_defined(kind: OpKind, signed: bool, bits: u8, args: &[u64]) -> bool
    ensures { result ≡ spec.is_defined kind signed bits args.now }
{
    let count = arg_at(args, 1);
    let x = number_of(signed, bits, arg_at(args, 0));
    let y = number_of(signed, bits, count);
    match kind {
        OpKind::Add => in_range(signed, bits, sum(x, y)),
        OpKind::Sub => in_range(signed, bits, difference(x, y)),
        OpKind::Mul => !signed || is_product(bits, x, y),
        OpKind::Neg => in_range(signed, bits, opposite(x)),
        OpKind::Div | OpKind::Rem => is_quotient(signed, bits, x, y),
        OpKind::Shl => is_shift(signed, bits, x, count),
        OpKind::Shr => count < width(bits),
        _ => true,
    }
}
