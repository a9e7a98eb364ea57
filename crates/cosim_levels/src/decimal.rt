//! Decimal numbers.
ghost use Rattle.std.specs.Prelude.{◌≡◌, ◌≤◌, ◌^◌, ◌<◌, length, IsTrue, IfSome};
ghost use Rattle.std.specs.Str.{all_ascii_digits};
ghost use Rattle.std.specs.Str.Parse.{digits_value};
ghost use Rattle.cosim_levels.specs.Numerals.{is_numeral, number_by, short_natural, bits_of_word};

use c_token::ctype::CType;
use c_value::convert::pattern;
use c_value::kind::is_of;

/// The digits of the greatest numbers that are read.
const MOST_DIGITS: usize = 20;

fn are_digits(word: &[u8]) -> bool
    ensures { result ≡ all_ascii_digits word.now }
{
    for byte in word {
        if !byte.is_ascii_digit() {
            return false;
        }
    }
    true
}

/// Whether these are decimal digits without a leading zero.
fn is_numeral(word: &[u8]) -> bool
    ensures { result ≡ is_numeral word.now }
{
    match word {
        [] => false,
        [b'0', _, ..] => false,
        _ => are_digits(word),
    }
}

/// The value of decimal digits.
fn value(digits: &[u8]) -> u128
    requires digits { IsTrue (all_ascii_digits digits.now) }
    requires few { length digits.now ≤ 20 }
    ensures value { result ≡ digits_value 10 digits.now }
    ensures small { result < 10 ^ 20 }
{
    let mut value: u128 = 0;
    for byte in digits {
        value = value * 10 + u128::from(*byte - b'0');
    }
    value
}

#[tactic(auto, using(crate::proofs::Numerals::naturals))]
/// The number that decimal digits write, if it is below 10 to the power of 20.
fn natural(word: &[u8]) -> Option<u128>
    ensures value { result ≡ short_natural word.now }
    ensures small { IfSome result (λ n. n < 10 ^ 20) }
{
    if word.len() <= MOST_DIGITS && is_numeral(word) {
        Some(value(word))
    } else {
        None
    }
}

/// The number that a word writes, with an optional `-`, if it is that near to 0.
fn number(word: &[u8]) -> Option<i128>
    ensures { result ≡ number_by short_natural word.now }
{
    match word {
        [] => None,
        [b'-', digits @ ..] => match natural(digits) {
            Some(n) => Some(-(n as i128)),
            None => None,
        },
        _ => match natural(word) {
            Some(n) => Some(n as i128),
            None => None,
        },
    }
}

#[tactic(auto, using(crate::proofs::Numerals::words))]
/// The bits of the number that a word writes, if it is one of the type.
pub fn bits_of(kind: CType, word: &[u8]) -> Option<u64>
    ensures { result ≡ bits_of_word kind word.now }
{
    match number(word) {
        Some(n) if is_of(kind, n) => Some(pattern(kind, n)),
        _ => None,
    }
}
