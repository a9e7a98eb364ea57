ghost use Rattle.std.specs.Prelude.{◌≡◌, ℕ, ◌+◌, ◌*◌, ◌<◌, ◌≤◌, ◌==◌, ◌^◌, ◌&&◌, ◌||◌, nat_lt, length, take, drop, MatchOption, SomeIff, codes, slice_index};
ghost use Rattle.std.specs.Char.{digit_value};
ghost use Rattle.std.specs.Str.Parse.{digits_value};
ghost use Rattle.std.specs.List.{prefix_len};
ghost use Rattle.c_token.specs.Constants.{is_unsigned_suffix, is_long_suffix, is_unsigned_long_suffix, suffix_of, holds, types, type_of, is_hexadecimal, mark_length, radix_of, IsConstant};
ghost use Rattle.c_token.specs.declared.ctype.CType.{CType};
ghost use Rattle.c_lexer.specs.Constant.{option_suffix, suffix_view};

use c_token::ctype::CType;

/// The suffix of a constant.
#[derive(Clone, Copy)]
pub enum Suffix {
    Plain,
    Unsigned,
    Long,
    UnsignedLong,
}

fn is_unsigned_suffix(text: &[u8]) -> bool
    ensures { result ≡ is_unsigned_suffix text.now }
{
    text == b"u".as_slice() || text == b"U".as_slice()
}

fn is_long_suffix(text: &[u8]) -> bool
    ensures { result ≡ is_long_suffix text.now }
{
    text == b"l".as_slice()
        || text == b"L".as_slice()
        || text == b"ll".as_slice()
        || text == b"LL".as_slice()
}

fn is_unsigned_long_suffix(text: &[u8]) -> bool
    requires { 0 < length text.now }
    ensures { result ≡ is_unsigned_long_suffix text.now }
{
    let (first, behind) = text.split_at(1);
    let (front, last) = text.split_at(text.len() - 1);
    (is_unsigned_suffix(first) && is_long_suffix(behind))
        || (is_long_suffix(front) && is_unsigned_suffix(last))
}

#[tactic(auto, unfolding(c_token::specs::Constants::suffix_of))]
fn suffix_of(text: &[u8]) -> Option<Suffix>
    ensures { option_suffix result ≡ suffix_of text.now }
{
    if text.is_empty() {
        Some(Suffix::Plain)
    } else if is_unsigned_suffix(text) {
        Some(Suffix::Unsigned)
    } else if is_long_suffix(text) {
        Some(Suffix::Long)
    } else if is_unsigned_long_suffix(text) {
        Some(Suffix::UnsignedLong)
    } else {
        None
    }
}

const INT: CType = CType::Int {
    signed: true,
    bits: 32,
};

const UNSIGNED: CType = CType::Int {
    signed: false,
    bits: 32,
};

const LONG: CType = CType::Int {
    signed: true,
    bits: 64,
};

const UNSIGNED_LONG: CType = CType::Int {
    signed: false,
    bits: 64,
};

/// The types that a constant with this suffix may have, in order.
#[tactic(auto, unfolding(c_token::specs::Constants::types))]
fn types(suffix: Suffix, is_decimal: bool) -> &'static [CType]
    ensures { result.now ≡ types (suffix_view suffix) is_decimal }
{
    match suffix {
        Suffix::Plain if is_decimal => &[INT, LONG],
        Suffix::Plain => &[INT, UNSIGNED, LONG, UNSIGNED_LONG],
        Suffix::Unsigned => &[UNSIGNED, UNSIGNED_LONG],
        Suffix::Long if is_decimal => &[LONG],
        Suffix::Long => &[LONG, UNSIGNED_LONG],
        Suffix::UnsignedLong => &[UNSIGNED_LONG],
    }
}

fn is_below_power(value: u64, bits: u8) -> bool
    ensures { result ≡ nat_lt value (2 ^ bits) }
{
    bits >= 64 || value < 1 << bits
}

/// Whether the type has the value.
fn holds(value: u64, kind: CType) -> bool
    ensures { result ≡ holds value kind }
{
    match kind {
        CType::Bool => value < 2,
        CType::Int { signed, bits } => {
            if signed {
                is_below_power(value, bits.saturating_sub(1))
            } else {
                is_below_power(value, bits)
            }
        }
    }
}

/// The first type of the list that has the value.
#[tactic(auto, unfolding(c_token::specs::Constants::type_of))]
fn type_of(value: u64, suffix: Suffix, is_decimal: bool) -> Option<CType>
    ensures { result ≡ type_of value (suffix_view suffix) is_decimal }
{
    types(suffix, is_decimal)
        .iter()
        .copied()
        .find(|kind| holds(value, *kind))
}

fn is_hexadecimal(text: &[u8]) -> bool
    ensures { result ≡ is_hexadecimal text.now }
{
    text.len() >= 2 && text[0] == b'0' && (text[1] == b'x' || text[1] == b'X')
}

fn radix_of(text: &[u8]) -> u32
    ensures { result ≡ radix_of text.now }
{
    if is_hexadecimal(text) {
        16
    } else if text.len() >= 1 && text[0] == b'0' {
        8
    } else {
        10
    }
}

/// The text without `0x` or `0X`.
fn without_mark(text: &[u8]) -> &[u8]
    ensures { result.now ≡ drop (mark_length text.now) text.now }
{
    if is_hexadecimal(text) {
        &text[2..]
    } else {
        text
    }
}

fn is_digit_in(byte: u8, radix: u32) -> bool
    requires low { 2 ≤ radix }
    requires high { radix ≤ 36 }
    ensures { result ≡ nat_lt (digit_value byte) radix }
{
    char::from(byte).to_digit(radix).is_some()
}

/// How many digits of the base stand at the front.
fn digit_count(bytes: &[u8], radix: u32) -> usize
    requires low { 2 ≤ radix }
    requires high { radix ≤ 36 }
    ensures { result ≡ prefix_len (λ b. nat_lt (digit_value b) radix) bytes.now }
{
    let mut n = 0;
    while n < bytes.len() && is_digit_in(bytes[n], radix) {
        n += 1;
    }
    n
}

/// The value of a row of digits with one more behind it, if it has 64 bits.
fn with_digit(value: u64, byte: u8, radix: u32) -> Option<u64>
    requires low { 2 ≤ radix }
    requires high { radix ≤ 36 }
    requires digit { digit_value byte < radix }
    ensures { SomeIff result (value * radix + digit_value byte < 2 ^ 64) (value * radix + digit_value byte) }
{
    let digit = char::from(byte).to_digit(radix)?;
    value
        .checked_mul(u64::from(radix))?
        .checked_add(u64::from(digit))
}

/// The value of a row of digits, if it has 64 bits.
fn value_of(digits: &[u8], radix: u32) -> Option<u64>
    requires low { 2 ≤ radix }
    requires high { radix ≤ 36 }
    requires digits { (i : ℕ) → i < length digits.now → digit_value (slice_index digits.now i) < radix }
    ensures { SomeIff result (digits_value radix digits.now < 2 ^ 64) (digits_value radix digits.now) }
{
    let mut value = 0u64;
    for byte in digits {
        value = with_digit(value, *byte, radix)?;
    }
    Some(value)
}

/// The value and the type of an integer constant.
pub fn constant(text: &[u8]) -> Option<(u64, CType)>
    ensures { MatchOption result ((value : ℕ) (kind : CType) → ¬ IsConstant text.now value kind) (λ c. IsConstant text.now c.0 c.1) }
{
    let radix = radix_of(text);
    let body = without_mark(text);
    let (digits, suffix) = body.split_at(digit_count(body, radix));
    if digits.is_empty() {
        return None;
    }
    let value = value_of(digits, radix)?;
    let kind = type_of(value, suffix_of(suffix)?, radix == 10)?;
    Some((value, kind))
}
