//! Numbers in decimal digits.
ghost use Rattle.std.specs.Prelude.{◌≡◌, ◌+◌, ◌-◌, ◌*◌, ◌^◌, ◌≤◌, ◌⊎◌, true, false, IfSome, IfNone, Some};
ghost use Rattle.std.specs.Option.{option_map};
ghost use Rattle.command_words.specs.Words.{is_digit, value_behind, number_in, number_or};

fn is_digit(byte: u8) -> bool
    ensures { result ≡ is_digit byte }
{
    48 <= byte && byte <= 57
}

/// The number with one digit more, if it is below 2^64.
fn with_digit(value: u64, byte: u8) -> Option<u64>
    ensures some { IfSome result (λ n. (is_digit byte ≡ true) × (n ≡ value * 10 + (byte - 48))) }
    ensures none { IfNone result ((is_digit byte ≡ false) ⊎ (2 ^ 64 ≤ value * 10 + (byte - 48))) }
{
    if !is_digit(byte) {
        return None;
    }
    let next = u128::from(value) * 10 + u128::from(byte - 48);
    u64::try_from(next).ok()
}

/// The number of these digits, if it is below 2^64.
fn value_of(digits: &[u8]) -> Option<u64>
    ensures some { IfSome result (λ n. value_behind 0 digits.now ≡ Some n) }
    ensures none { IfNone result (IfSome (value_behind 0 digits.now) (λ n. 2 ^ 64 ≤ n)) }
{
    let mut value = 0;
    for byte in digits {
        let Some(next) = with_digit(value, *byte) else {
            return None;
        };
        value = next;
    }
    Some(value)
}

/// The number of decimal digits without a sign, if it is in this range.
pub fn number_in(low: u64, high: u64, word: &str) -> Option<u64>
    ensures value { result ≡ number_in low high word.now }
    ensures range { IfSome result (λ n. (low ≤ n) × (n ≤ high)) }
{
    if word.is_empty() {
        return None;
    }
    match value_of(word.as_bytes()) {
        Some(n) if low <= n && n <= high => Some(n),
        _ => None,
    }
}

/// The number that a word gives, or this one where there is no word.
pub fn number_or(low: u64, high: u64, without: u64, word: Option<&str>) -> Option<u64>
    requires low { low ≤ without }
    requires high { without ≤ high }
    ensures value { result ≡ number_or low high without (option_map (λ w. w.now) word.entry) }
    ensures range { IfSome result (λ n. (low ≤ n) × (n ≤ high)) }
{
    match word {
        Some(word) => number_in(low, high, word),
        None => Some(without),
    }
}
