ghost use Rattle.std.specs.Prelude.{◌≡◌, ◌<◌, ◌≤◌, length, true, slice_index};
ghost use Rattle.c_token.specs.Spelling.{in_line_comment, in_word, is_exponent, in_number, is_spliced};
ghost use Rattle.c_lexer.specs.Runs.{IsRun, IsFirstClose};

use crate::bytes::{is_digit, is_letter, is_word_byte};

/// Whether byte i has a backslash directly before it, or one before a CR.
fn is_spliced(bytes: &[u8], i: usize) -> bool
    requires low { 2 ≤ i }
    requires high { i < length bytes.now }
    ensures { result ≡ is_spliced bytes.now i }
{
    bytes[i - 1] == b'\\' || (bytes[i - 1] == b'\r' && bytes[i - 2] == b'\\')
}

#[tactic(auto, unfolding(c_token::specs::Spelling::in_line_comment))]
fn in_line_comment(bytes: &[u8], i: usize) -> bool
    requires { i < length bytes.now }
    ensures { result ≡ in_line_comment bytes.now i }
{
    if i < 2 {
        bytes[i] == b'/'
    } else {
        bytes[i] != b'\n' || is_spliced(bytes, i)
    }
}

#[tactic(auto, unfolding(c_token::specs::Spelling::in_word))]
fn in_word(bytes: &[u8], i: usize) -> bool
    requires { i < length bytes.now }
    ensures { result ≡ in_word bytes.now i }
{
    if i == 0 {
        is_letter(bytes[i])
    } else {
        is_word_byte(bytes[i])
    }
}

fn is_exponent(byte: u8) -> bool
    ensures { result ≡ is_exponent byte }
{
    byte == b'e' || byte == b'E' || byte == b'p' || byte == b'P'
}

#[tactic(auto, unfolding(c_token::specs::Spelling::in_number))]
fn in_number(bytes: &[u8], i: usize) -> bool
    requires { i < length bytes.now }
    ensures { result ≡ in_number bytes.now i }
{
    if i == 0 {
        return is_digit(bytes[i]);
    }
    let byte = bytes[i];
    is_word_byte(byte)
        || byte == b'.'
        || ((byte == b'+' || byte == b'-') && is_exponent(bytes[i - 1]))
}

/// How many bytes the `//` comment at the front has.
pub fn line_comment_length(bytes: &[u8]) -> usize
    ensures { IsRun in_line_comment bytes.now result }
{
    let mut n = 0;
    while n < bytes.len() && in_line_comment(bytes, n) {
        n += 1;
    }
    n
}

/// How many bytes the word at the front has.
pub fn word_length(bytes: &[u8]) -> usize
    ensures { IsRun in_word bytes.now result }
{
    let mut n = 0;
    while n < bytes.len() && in_word(bytes, n) {
        n += 1;
    }
    n
}

/// How many bytes the number at the front has.
pub fn number_length(bytes: &[u8]) -> usize
    ensures { IsRun in_number bytes.now result }
{
    let mut n = 0;
    while n < bytes.len() && in_number(bytes, n) {
        n += 1;
    }
    n
}

/// How many bytes the `/*` comment at the front has, if it is closed.
pub fn block_comment_length(bytes: &[u8]) -> Option<usize>
    ensures { IsFirstClose bytes.now result }
{
    let mut k = 2;
    while k < bytes.len() && k + 1 < bytes.len() {
        if bytes[k] == b'*' && bytes[k + 1] == b'/' {
            return Some(k + 2);
        }
        k += 1;
    }
    None
}
