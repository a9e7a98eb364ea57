ghost use Rattle.std.specs.Prelude.{◌≡◌, ◌≢◌, ◌<◌, ◌≤◌, ◌==◌, not, true, false, length, slice_index, MatchOption, IfOk};
ghost use Rattle.std.specs.List.{prefix_len};
ghost use Rattle.rtl_core.specs.ModuleTokens.{number_value};
ghost use Rattle.verilog_syntax.specs.Characters.{is_white, is_letter, is_digit, is_hex_digit, in_word};
ghost use Rattle.verilog_syntax.specs.Signs.{double_sign, single_sign};
ghost use Rattle.verilog_syntax.specs.Fronts.{ClosesFirst, StandsConstant, hex_digits};
ghost use Rattle.verilog_syntax.specs.Views.{StandsFirst, Lexes};

use crate::characters::{is_digit, is_hex_digit, is_letter, is_white, is_word_byte};
use crate::number::number_value;
use crate::token::{Kind, Sign, Token, keyword_of};
use hls_base::place::{Place, TEXT_START, place_after};
use hls_base::refusal::Refusal;
use std::alloc::{AllocError, Global};

/// The tokens of a text as far as they go, and what is refused where they end: the text itself, or a byte at which no token begins.
#[derive(Drop)]
pub struct Lexed<'a> {
    pub tokens: Vec<Token<'a>>,
    pub end: Refusal,
}

/// What stands at the front of the bytes, and how many bytes it has.
pub enum Piece<'a> {
    Gap(usize),
    Lexeme(Kind<'a>, usize),
    Nothing,
}

fn word_length(bytes: &[u8]) -> usize
    ensures { result ≡ prefix_len in_word bytes.now }
{
    let mut n = 0;
    while n < bytes.len() && is_word_byte(bytes[n]) {
        n += 1;
    }
    n
}

fn digits_length(bytes: &[u8]) -> usize
    ensures { result ≡ prefix_len is_digit bytes.now }
{
    let mut n = 0;
    while n < bytes.len() && is_digit(bytes[n]) {
        n += 1;
    }
    n
}

fn hex_digits_length(bytes: &[u8]) -> usize
    ensures { result ≡ prefix_len is_hex_digit bytes.now }
{
    let mut n = 0;
    while n < bytes.len() && is_hex_digit(bytes[n]) {
        n += 1;
    }
    n
}

fn line_length(bytes: &[u8]) -> usize
    ensures { result ≡ prefix_len (λ c. not (c == 10)) bytes.now }
{
    let mut n = 0;
    while n < bytes.len() && bytes[n] != b'\n' {
        n += 1;
    }
    n
}

/// How many bytes stand before the first `*/`.
fn length_before_close(bytes: &[u8]) -> Option<usize>
    ensures { ClosesFirst bytes.now result }
{
    let mut n = 0;
    while n < bytes.len() && n + 1 < bytes.len() {
        if bytes[n] == b'*' && bytes[n + 1] == b'/' {
            return Some(n);
        }
        n += 1;
    }
    None
}

fn word(left: &[u8]) -> Piece
    requires some { 0 < length left.now }
    requires letter { is_letter (slice_index left.now 0) ≡ true }
    ensures { StandsFirst left.now result }
{
    let n = word_length(left);
    let (text, _) = left.split_at(n);
    match keyword_of(text) {
        Some(keyword) => Piece::Lexeme(Kind::Keyword(keyword), n),
        None => Piece::Lexeme(Kind::Name(text), n),
    }
}

/// The bits and the digits of a constant whose size is `size`, with `'h` and its digits at the front of the bytes behind it.
fn constant<'a>(size: &[u8], behind: &'a [u8]) -> Option<(u8, &'a [u8])>
    ensures { MatchOption result (¬ StandsConstant size.now behind.now)
        (λ c. (c.0 ≡ number_value size.now) × (c.1.now ≡ hex_digits behind.now) × StandsConstant size.now behind.now) }
{
    if behind.len() < 2 || behind[0] != b'\'' || behind[1] != b'h' {
        return None;
    }
    let (_, rest) = behind.split_at(2);
    let (digits, _) = rest.split_at(hex_digits_length(rest));
    let bits = number_value(size);
    if digits.is_empty() || bits < 1 || 128 < bits {
        return None;
    }
    Some((bits as u8, digits))
}

fn number(left: &[u8]) -> Piece
    requires some { 0 < length left.now }
    requires digit { is_digit (slice_index left.now 0) ≡ true }
    ensures { StandsFirst left.now result }
{
    let n = digits_length(left);
    let (size, behind) = left.split_at(n);
    match constant(size, behind) {
        Some((bits, digits)) => Piece::Lexeme(
            Kind::Constant { bits, digits },
            n + 2 + digits.len(),
        ),
        None => Piece::Lexeme(Kind::Number(size), n),
    }
}

fn comment(left: &[u8]) -> Piece
    requires some { 0 < length left.now }
    requires slash { slice_index left.now 0 ≡ 47 }
    ensures { StandsFirst left.now result }
{
    if left.len() < 2 {
        return Piece::Nothing;
    }
    let (_, body) = left.split_at(2);
    if left[1] == b'/' {
        Piece::Gap(2 + line_length(body))
    } else if left[1] == b'*' {
        match length_before_close(body) {
            Some(n) => Piece::Gap(n + 4),
            None => Piece::Nothing,
        }
    } else {
        Piece::Nothing
    }
}

fn double_sign(first: u8, second: u8) -> Option<Sign>
    ensures { result ≡ double_sign first second }
{
    if first == b'=' && second == b'=' {
        Some(Sign::EqualEqual)
    } else if first == b'<' && second == b'=' {
        Some(Sign::LessEqual)
    } else if first == b'<' && second == b'<' {
        Some(Sign::ShiftLeft)
    } else if first == b'>' && second == b'>' {
        Some(Sign::ShiftRight)
    } else {
        None
    }
}

fn single_sign(byte: u8) -> Option<Sign>
    ensures { result ≡ single_sign byte }
{
    match byte {
        b'(' => Some(Sign::LeftParen),
        b')' => Some(Sign::RightParen),
        b'[' => Some(Sign::LeftBracket),
        b']' => Some(Sign::RightBracket),
        b'{' => Some(Sign::LeftBrace),
        b'}' => Some(Sign::RightBrace),
        b';' => Some(Sign::Semicolon),
        b',' => Some(Sign::Comma),
        b':' => Some(Sign::Colon),
        b'?' => Some(Sign::Question),
        b'=' => Some(Sign::Equal),
        b'@' => Some(Sign::At),
        b'~' => Some(Sign::Tilde),
        b'+' => Some(Sign::Plus),
        b'-' => Some(Sign::Minus),
        b'*' => Some(Sign::Star),
        b'&' => Some(Sign::Ampersand),
        b'|' => Some(Sign::Bar),
        b'^' => Some(Sign::Caret),
        b'<' => Some(Sign::Less),
        _ => None,
    }
}

fn sign_piece(left: &[u8]) -> Piece
    requires some { 0 < length left.now }
    requires white { is_white (slice_index left.now 0) ≡ false }
    requires letter { is_letter (slice_index left.now 0) ≡ false }
    requires digit { is_digit (slice_index left.now 0) ≡ false }
    requires slash { slice_index left.now 0 ≢ 47 }
    ensures { StandsFirst left.now result }
{
    if left.len() >= 2 {
        if let Some(sign) = double_sign(left[0], left[1]) {
            return Piece::Lexeme(Kind::Sign(sign), 2);
        }
    }
    match single_sign(left[0]) {
        Some(sign) => Piece::Lexeme(Kind::Sign(sign), 1),
        None => Piece::Nothing,
    }
}

fn piece_at(left: &[u8]) -> Piece
    requires { 0 < length left.now }
    ensures { StandsFirst left.now result }
{
    let byte = left[0];
    if is_white(byte) {
        Piece::Gap(1)
    } else if is_letter(byte) {
        word(left)
    } else if is_digit(byte) {
        number(left)
    } else if byte == b'/' {
        comment(left)
    } else {
        sign_piece(left)
    }
}

pub fn lex<'a>(alloc: Global, bytes: &'a [u8]) -> Result<Lexed<'a>, AllocError>
    requires { length bytes.now ≤ 67_108_864 }
    ensures { IfOk result (λ lexed. Lexes bytes.now lexed.tokens.items lexed.end) }
{
    let mut tokens = Vec::new(alloc);
    let mut left = bytes;
    let mut place = TEXT_START;
    while !left.is_empty() {
        let n = match piece_at(left) {
            Piece::Gap(n) => n,
            Piece::Lexeme(kind, n) => {
                tokens.push(Token { kind, place })?;
                n
            }
            Piece::Nothing => {
                return Ok(Lexed {
                    tokens,
                    end: Refusal { rule: 50, place },
                });
            }
        };
        let (text, rest) = left.split_at(n);
        place = place_after(place, text);
        left = rest;
    }
    Ok(Lexed {
        tokens,
        end: Refusal { rule: 51, place },
    })
}
