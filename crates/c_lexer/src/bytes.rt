ghost use Rattle.std.specs.Prelude.{◌≡◌, ◌<◌, ◌≤◌, MatchOption, length};
ghost use Rattle.c_token.specs.Characters.{is_letter, is_digit, is_word_byte, is_blank, at_end, opening};
ghost use Rattle.c_lexer.specs.Views.{opening_of};

/// What begins at a place in a source.
pub enum Opening {
    LineEnd,
    Space(usize),
    LineComment,
    BlockComment,
    Token,
}

#[tactic(auto, unfolding(c_token::specs::Characters::is_letter))]
pub fn is_letter(byte: u8) -> bool
    ensures { result ≡ is_letter byte }
{
    (b'a' <= byte && byte <= b'z') || (b'A' <= byte && byte <= b'Z') || byte == b'_'
}

#[tactic(auto, unfolding(c_token::specs::Characters::is_digit))]
pub fn is_digit(byte: u8) -> bool
    ensures { result ≡ is_digit byte }
{
    b'0' <= byte && byte <= b'9'
}

pub fn is_word_byte(byte: u8) -> bool
    ensures { result ≡ is_word_byte byte }
{
    is_letter(byte) || is_digit(byte)
}

/// White space that ends no line: space, tab, vertical tab, form feed, CR.
#[tactic(auto, unfolding(c_token::specs::Characters::is_blank))]
fn is_blank(byte: u8) -> bool
    ensures { result ≡ is_blank byte }
{
    byte == b' ' || byte == b'\t' || byte == 11 || byte == 12 || byte == b'\r'
}

/// What begins at the first byte, or none where no byte is left.
#[tactic(auto, unfolding(c_token::specs::Characters::opening))]
pub fn opening_at(bytes: &[u8]) -> Option<Opening>
    ensures { MatchOption result (opening bytes.now ≡ at_end) (λ o. opening bytes.now ≡ opening_of o) }
{
    let byte = *bytes.first()?;
    if byte == b'\n' {
        Some(Opening::LineEnd)
    } else if is_blank(byte) {
        Some(Opening::Space(1))
    } else if bytes.starts_with(b"\\\n") {
        Some(Opening::Space(2))
    } else if bytes.starts_with(b"\\\r\n") {
        Some(Opening::Space(3))
    } else if bytes.starts_with(b"//") {
        Some(Opening::LineComment)
    } else if bytes.starts_with(b"/*") {
        Some(Opening::BlockComment)
    } else {
        Some(Opening::Token)
    }
}
