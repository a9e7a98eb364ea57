ghost use Rattle.std.specs.Prelude.{◌≡◌, ◌++◌, OnOk};
ghost use Rattle.c_tree.specs.RowText as rows;

use crate::print::row::Written;
use c_token::ctype::CType;
use c_token::punct::Punct;
use c_token::token::TokenKind;
use itoa::Buffer;
use std::alloc::AllocError;

/// The suffix that gives a decimal constant this type, C11 6.4.4.1.
fn number_suffix(kind: CType) -> &'static [u8]
    ensures { result.now ≡ rows.number_suffix kind }
{
    match kind {
        CType::Bool => b"",
        CType::Int { signed, bits } => {
            if bits <= 32 {
                if signed { b"" } else { b"u" }
            } else {
                if signed { b"l" } else { b"ul" }
            }
        }
    }
}

fn push_token_text(out: &mut Vec<u8>, kind: &TokenKind) -> Result<(), AllocError>
    ensures { OnOk result (out.new.items ≡ out.old.items ++ rows.token_text kind.now) }
{
    match kind {
        TokenKind::Word(text) => out.extend_from_slice(text.items()),
        TokenKind::Number { value, kind } => {
            let mut buffer = Buffer::new();
            out.extend_from_slice(buffer.format(*value).as_bytes())?;
            out.extend_from_slice(number_suffix(*kind))
        }
        TokenKind::Punct(punct) => out.extend_from_slice(punct.spelling()),
        TokenKind::TypeWord(_) => Ok(()),
    }
}

/// Whether the punctuator is part of no longer one.
fn is_closed(punct: Punct) -> bool
    ensures { result ≡ rows.is_closed punct }
{
    matches!(
        punct,
        Punct::LeftParen
            | Punct::RightParen
            | Punct::LeftBracket
            | Punct::RightBracket
            | Punct::LeftBrace
            | Punct::RightBrace
            | Punct::Semicolon
            | Punct::Comma
            | Punct::Colon
            | Punct::Question
            | Punct::Tilde
    )
}

/// Whether the second token may stand directly behind the first.
fn may_touch(kind: &TokenKind, next: &TokenKind) -> bool
    ensures { result ≡ rows.may_touch kind.now next.now }
{
    match (kind, next) {
        (TokenKind::Word(_), TokenKind::Punct(_)) => true,
        (TokenKind::Number { .. }, TokenKind::Punct(next)) => is_closed(*next),
        (TokenKind::Punct(punct), TokenKind::Punct(next)) => is_closed(*punct) || is_closed(*next),
        (TokenKind::Punct(_), _) => true,
        _ => false,
    }
}

/// Appends a space behind a token where what follows would be read as a part of it.
fn push_separator(out: &mut Vec<u8>, kind: &TokenKind, rest: &[Written]) -> Result<(), AllocError>
    ensures { OnOk result (out.new.items ≡ out.old.items ++ rows.separator kind.now rest.now) }
{
    if rest.is_empty() {
        return Ok(());
    }
    match &rest[0] {
        Written::Token(next) if !may_touch(kind, next) => out.extend_from_slice(b" "),
        _ => Ok(()),
    }
}

fn push_indentation(out: &mut Vec<u8>, depth: u64) -> Result<(), AllocError>
    ensures { OnOk result (out.new.items ≡ out.old.items ++ rows.indentation depth) }
{
    for step in 0..depth {
        out.extend_from_slice(b"    ")?;
    }
    Ok(())
}

/// Appends the bytes of a row.
pub fn push_text(out: &mut Vec<u8>, row: &[Written]) -> Result<(), AllocError>
    ensures { OnOk result (out.new.items ≡ out.old.items ++ rows.row_text row.now) }
{
    for i in 0..row.len() {
        match &row[i] {
            Written::Space => out.extend_from_slice(b" ")?,
            Written::Line(depth) => {
                out.extend_from_slice(b"\n")?;
                push_indentation(out, *depth)?;
            }
            Written::Token(kind) => {
                push_token_text(out, kind)?;
                push_separator(out, kind, &row[i + 1..])?;
            }
        }
    }
    Ok(())
}
