ghost use Rattle.std.specs.Prelude.{◌≡◌};
ghost use Rattle.rtl_core.specs.ModuleTokens.{digit_value};
ghost use Rattle.verilog_syntax.specs.Characters.{is_white, is_letter, is_digit, is_hex_digit, in_word};

pub fn is_white(byte: u8) -> bool
    ensures { result ≡ is_white byte }
{
    byte == b' ' || (9 <= byte && byte <= 13)
}

pub fn is_letter(byte: u8) -> bool
    ensures { result ≡ is_letter byte }
{
    (b'A' <= byte && byte <= b'Z') || ((b'a' <= byte && byte <= b'z') || byte == b'_')
}

pub fn is_digit(byte: u8) -> bool
    ensures { result ≡ is_digit byte }
{
    b'0' <= byte && byte <= b'9'
}

pub fn is_hex_digit(byte: u8) -> bool
    ensures { result ≡ is_hex_digit byte }
{
    is_digit(byte) || ((b'A' <= byte && byte <= b'F') || (b'a' <= byte && byte <= b'f'))
}

/// Whether a byte may stand in a word behind its first byte.
pub fn is_word_byte(byte: u8) -> bool
    ensures { result ≡ in_word byte }
{
    is_letter(byte) || is_digit(byte)
}

/// The value of a hexadecimal digit.
pub fn digit_value(byte: u8) -> u8
    ensures { result ≡ digit_value byte }
{
    if byte >= b'a' {
        byte - 87
    } else if byte >= b'A' {
        byte - 55
    } else {
        byte.saturating_sub(b'0')
    }
}
