//! Expressions on constants.
ghost use Rattle.std.specs.Prelude.{◌≡◌, ◌≤◌, ◌<◌, ◌*◌, ◌/◌, ◌%◌, ◌^◌, ℕ};
ghost use Rattle.rtl_core.specs.ClockStep.{bit_of, pair_value};
ghost use Rattle.rtl_core.specs.Valid.{IsBetween, OperandsFit};
ghost use Rattle.rtl_logic.specs.Making.{number_in};

use rtl_core::design::{Atom, Pair};

/// The number of an atom that is a constant.
pub fn constant_of(atom: Atom) -> Option<u128>
    ensures { result ≡ number_in atom }
{
    match atom {
        Atom::Constant { value, .. } => Some(value),
        _ => None,
    }
}

/// The low bits of a number.
fn low_bits(value: u128, bits: u8) -> u128
    ensures { result ≡ value % 2 ^ bits }
{
    if bits < 128 {
        value % (1 << bits as u32)
    } else {
        value
    }
}

/// The low bits of a number as a constant.
pub fn constant(bits: u8, value: u128) -> Atom
    ensures { result ≡ Atom.Constant bits (value % 2 ^ bits) }
{
    Atom::Constant {
        bits,
        value: low_bits(value, bits),
    }
}

/// A bit.
pub fn bit(value: bool) -> Atom
    ensures { result ≡ Atom.Constant 1 (bit_of value) }
{
    Atom::Constant {
        bits: 1,
        value: value as u128,
    }
}

fn shifted_left(value: u128, count: u128) -> u128
    ensures { result ≡ (value * 2 ^ count) % 2 ^ 128 }
{
    if count < 128 {
        value << count as u32
    } else {
        0
    }
}

fn shifted_right(value: u128, count: u128) -> u128
    ensures { result ≡ value / 2 ^ count }
{
    if count < 128 {
        value >> count as u32
    } else {
        0
    }
}

/// The value of an operator on two constants, in so many bits.
pub fn pair_of_constants(pair: Pair, bits: u8, left: u128, right: u128) -> Atom
    ensures { IsBetween 1 128 bits → OperandsFit pair bits (λ m. left < 2 ^ m) (λ m. right < 2 ^ m) → result ≡ Atom.Constant bits (pair_value pair bits left right) }
{
    let value = match pair {
        Pair::Add => left.wrapping_add(right),
        Pair::Sub => left.wrapping_sub(right),
        Pair::Mul => left.wrapping_mul(right),
        Pair::And => left & right,
        Pair::Or => left | right,
        Pair::Xor => left ^ right,
        Pair::Equal => (left == right) as u128,
        Pair::Below => (left < right) as u128,
        Pair::Left => shifted_left(left, right),
        Pair::Right => shifted_right(left, right),
    };
    constant(bits, value)
}
