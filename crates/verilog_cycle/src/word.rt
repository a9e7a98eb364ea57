//! Arithmetic on values of at most 64 bits.
ghost use Rattle.std.specs.Prelude.{◌≡◌, ◌<◌, ◌≤◌, ◌+◌, ◌-◌, ◌*◌, ◌/◌, ◌%◌, ◌^◌};
ghost use Rattle.rtl_core.specs.ClockStep.{pair_value};

use rtl_core::design::Pair;

/// The greatest number of so many bits.
pub fn ones(bits: u8) -> u64
    requires some { 1 ≤ bits }
    requires within { bits ≤ 64 }
    ensures { result ≡ 2 ^ bits - 1 }
{
    u64::MAX >> (64 - bits)
}

/// The lowest bits of a value.
pub fn low_bits(value: u64, bits: u8) -> u64
    requires some { 1 ≤ bits }
    requires within { bits ≤ 64 }
    ensures { result ≡ value % 2 ^ bits }
{
    value & ones(bits)
}

pub fn shifted_left(value: u64, count: u64) -> u64
    ensures { result ≡ (value * 2 ^ count) % 2 ^ 64 }
{
    if count < 64 {
        value << (count as u32)
    } else {
        0
    }
}

pub fn shifted_right(value: u64, count: u64) -> u64
    ensures { result ≡ value / 2 ^ count }
{
    if count < 64 {
        value >> (count as u32)
    } else {
        0
    }
}

fn sum(bits: u8, x: u64, y: u64) -> u64
    requires some { 1 ≤ bits }
    requires within { bits ≤ 64 }
    ensures { result ≡ (x + y) % 2 ^ bits }
{
    low_bits(x.wrapping_add(y), bits)
}

fn difference(bits: u8, x: u64, y: u64) -> u64
    requires some { 1 ≤ bits }
    requires within { bits ≤ 64 }
    requires fits { y < 2 ^ bits }
    ensures { result ≡ (x + (2 ^ bits - y)) % 2 ^ bits }
{
    low_bits(x.wrapping_sub(y), bits)
}

fn product(bits: u8, x: u64, y: u64) -> u64
    requires some { 1 ≤ bits }
    requires within { bits ≤ 64 }
    ensures { result ≡ (x * y) % 2 ^ bits }
{
    low_bits(x.wrapping_mul(y), bits)
}

/// The value of an operator on two operands, in so many bits.
pub fn pair_value(op: Pair, bits: u8, x: u64, y: u64) -> u64
    requires some { 1 ≤ bits }
    requires within { bits ≤ 64 }
    requires fits { op ≡ Pair.Sub → y < 2 ^ bits }
    ensures { result ≡ pair_value op bits x y }
{
    match op {
        Pair::Add => sum(bits, x, y),
        Pair::Sub => difference(bits, x, y),
        Pair::Mul => product(bits, x, y),
        Pair::And => x & y,
        Pair::Or => x | y,
        Pair::Xor => x ^ y,
        Pair::Equal => u64::from(x == y),
        Pair::Below => u64::from(x < y),
        Pair::Left => low_bits(shifted_left(x, y), bits),
        Pair::Right => shifted_right(x, y),
    }
}
