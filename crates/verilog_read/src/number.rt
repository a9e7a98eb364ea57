ghost use Rattle.std.specs.Prelude.{◌≡◌, ◌+◌, ◌*◌, ◌<◌, ◌^◌, SomeIff};
ghost use Rattle.rtl_core.specs.ModuleTokens.{value_behind, digit_value};
ghost use Rattle.verilog_read.specs.Numbers.{declared_bits, depth_of};

use verilog_syntax::characters::digit_value;
use verilog_syntax::number::number_value;

/// The number with one hexadecimal digit more behind its digits, if it has 128 bits.
fn with_hex_digit(value: u128, digit: u8) -> Option<u128>
    ensures { SomeIff result (value * 16 + digit_value digit < 2 ^ 128) (value * 16 + digit_value digit) }
{
    value
        .checked_mul(16)?
        .checked_add(u128::from(digit_value(digit)))
}

/// The number that hexadecimal digits write, if it has 128 bits.
pub fn constant_value(digits: &[u8]) -> Option<u128>
    ensures { let value = value_behind 16 0 digits.now in SomeIff result (value < 2 ^ 128) value }
{
    let mut value = 0u128;
    for digit in digits {
        value = with_hex_digit(value, *digit)?;
    }
    Some(value)
}

/// The number of bits of `[high:0]`, or 129 where it is greater than 128.
pub fn bits_of(high: &[u8]) -> u8
    ensures { result ≡ declared_bits high.now }
{
    (number_value(high) + 1).min(129) as u8
}

/// The k from 1 to 16 for which `[0:last]` has 2^k words.
pub fn depth_of(last: &[u8]) -> Option<u8>
    ensures { result ≡ depth_of last.now }
{
    let depth = number_value(last) + 1;
    for k in 1..17u8 {
        if depth == 1 << k {
            return Some(k);
        }
    }
    None
}
