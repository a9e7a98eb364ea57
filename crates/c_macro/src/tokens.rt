ghost use Rattle.std.specs.Prelude.{◌≡◌, ◌≤◌, length, take, drop, true};
ghost use Rattle.c_token.specs.Replacement.{is_word, is_punct, names_stdint, has_parameters, same_kinds, is_directive, none_first, begins_line};

use c_token::punct::Punct;
use c_token::token::{Token, TokenKind};

pub fn is_word(word: &[u8], kind: &TokenKind) -> bool
    ensures { result ≡ is_word word.now kind.now }
{
    match kind {
        TokenKind::Word(other) => word == other.items(),
        _ => false,
    }
}

fn is_punct(punct: Punct, kind: &TokenKind) -> bool
    ensures { result ≡ is_punct punct kind.now }
{
    match kind {
        TokenKind::Punct(other) => *other == punct,
        _ => false,
    }
}

/// Whether the tokens behind `include` are `<stdint.h>`.
pub fn names_stdint(tokens: &[Token]) -> bool
    ensures { result ≡ names_stdint tokens.now }
{
    match tokens {
        [less, stdint, dot, h, greater] => {
            is_punct(Punct::Less, &less.kind)
                && is_word(b"stdint", &stdint.kind)
                && is_punct(Punct::Dot, &dot.kind)
                && is_word(b"h", &h.kind)
                && is_punct(Punct::Greater, &greater.kind)
        }
        _ => false,
    }
}

/// Whether the tokens behind a defined word begin a parameter list.
pub fn has_parameters(tokens: &[Token]) -> bool
    ensures { result ≡ has_parameters tokens.now }
{
    match tokens {
        [token, ..] => is_punct(Punct::LeftParen, &token.kind) && token.glued,
        [] => false,
    }
}

/// Whether the tokens are of the same kinds, one by one.
pub fn same_kinds(tokens: &[Token], others: &[Token]) -> bool
    ensures { result ≡ same_kinds tokens.now others.now }
{
    if tokens.len() != others.len() {
        return false;
    }
    for (i, token) in tokens.iter().enumerate() {
        if !token.kind.is_same(&others[i].kind) {
            return false;
        }
    }
    true
}

/// Whether the token is a `#` that begins its line.
pub fn is_directive(token: &Token) -> bool
    ensures { result ≡ is_directive token.now }
{
    match &token.kind {
        TokenKind::Punct(punct) => *punct == Punct::Hash && token.first,
        _ => false,
    }
}

/// How many tokens stand before the next one that begins a line.
pub fn line_length(tokens: &[Token]) -> usize
    ensures within { result ≤ length tokens.now }
    ensures same_line { none_first (take result tokens.now) ≡ true }
    ensures next_line { begins_line (drop result tokens.now) ≡ true }
{
    for (i, token) in tokens.iter().enumerate() {
        if token.first {
            return i;
        }
    }
    tokens.len()
}
