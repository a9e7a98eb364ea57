//! Bit patterns, and conversions between types.
ghost use Rattle.std.specs.Prelude.{◌≡◌, ◌-◌, ◌^◌, ◌<◌, IsTrue, pos};
ghost use Rattle.c_value.specs.Values.{width, pattern, number_of, wrap, convert, is_of};

use crate::kind::{count_of, half_of, is_of};
use c_token::ctype::CType;

fn modulus(kind: CType) -> i128
    ensures { result ≡ pos (2 ^ width kind) }
{
    match kind {
        CType::Bool => 2,
        CType::Int { bits, .. } => count_of(bits),
    }
}

/// All bits of the type.
pub fn ones(kind: CType) -> u64
    ensures { result ≡ 2 ^ width kind - 1 }
{
    (modulus(kind) - 1) as u64
}

/// The bits of a number in two's complement.
pub fn pattern(kind: CType, n: i128) -> u64
    ensures value { result ≡ pattern kind n }
    ensures within { result < 2 ^ width kind }
{
    n.rem_euclid(modulus(kind)) as u64
}

/// The number that has these bits.
pub fn number_of(kind: CType, word: u64) -> i128
    ensures value { result ≡ number_of kind word }
    ensures fits { word < 2 ^ width kind → IsTrue (is_of kind result) }
{
    let number = i128::from(word);
    match kind {
        CType::Int { signed: true, bits } if number >= half_of(bits) => number - count_of(bits),
        _ => number,
    }
}

/// The number of the type that is congruent to n modulo 2^width.
pub fn wrap(kind: CType, n: i128) -> i128
    ensures value { result ≡ wrap kind n }
    ensures fits { IsTrue (is_of kind result) }
{
    if is_of(kind, n) {
        n
    } else {
        number_of(kind, pattern(kind, n))
    }
}

/// A number as one of the type.
pub fn convert(kind: CType, n: i128) -> i128
    ensures value { result ≡ convert kind n }
    ensures fits { IsTrue (is_of kind result) }
{
    match kind {
        CType::Bool => i128::from(n != 0),
        CType::Int { .. } => wrap(kind, n),
    }
}
