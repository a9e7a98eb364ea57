ghost use Rattle.std.specs.Prelude.{◌≡◌, min};
ghost use Rattle.rtl_core.specs.ModuleTokens.{number_value};

use crate::characters::digit_value;

/// Greater than every number that a module's text may have.
pub const MANY: u32 = 1_000_000;

/// The number that decimal digits write, or `MANY` where it is greater.
pub fn number_value(digits: &[u8]) -> u32
    ensures { result ≡ min (number_value digits.now) 1_000_000 }
{
    let mut value = 0u32;
    for digit in digits {
        value = (value * 10 + u32::from(digit_value(*digit))).min(MANY);
    }
    value
}
