ghost use Rattle.std.specs.Prelude.{◌≡◌, ◌-◌, ◌<◌, ◌≤◌, ◌++◌, [], ◌∷◌, length, take, slice_index, true, false, IfOk};
ghost use Rattle.c_token.specs.Characters.{is_letter, is_digit, opening};
ghost use Rattle.c_token.specs.SourceText.{is_hash, is_pragma, line_after_token, after, gap, lexeme, pragma, token_at, AtToken, Finds, LongestToken};
ghost use Rattle.c_lexer.specs.Views.{line_of, opening_of, Steps};

use crate::bytes::{Opening, is_digit, is_letter};
use crate::constant::constant;
use crate::cursor::{Cursor, Line};
use crate::rows::{block_comment_length, line_comment_length, number_length, word_length};
use crate::signs::sign_at;
use c_token::punct::Punct;
use c_token::token::{Token, TokenKind};
use hls_base::refusal::{Fail, Refusal};
use hls_base::text::Text;
use std::alloc::{AllocError, Global};

/// The most bytes that a word may have.
const WORD_LIMIT: usize = 64;

fn fault(cursor: &Cursor, rule: u8) -> Fail
    ensures { result ≡ Fail.Refused (record { rule = rule; place = cursor.now.place }) }
{
    Fail::Refused(Refusal {
        rule,
        place: cursor.place(),
    })
}

fn is_hash(kind: &TokenKind) -> bool
    ensures { result ≡ is_hash kind.now }
{
    match kind {
        TokenKind::Punct(punct) => *punct == Punct::Hash,
        _ => false,
    }
}

fn line_after_token(line: Line, kind: &TokenKind) -> Line
    ensures { line_of result ≡ line_after_token (line_of line) kind.now }
{
    if line == Line::Empty && is_hash(kind) {
        Line::Hash
    } else {
        Line::Tokens
    }
}

/// Goes on behind white space or a comment of n bytes.
fn take_gap(cursor: &mut Cursor, n: usize)
    requires { n ≤ length cursor.old.left }
    ensures { cursor.new ≡ after cursor.old (gap (take n cursor.old.left)) }
{
    let line = cursor.line();
    cursor.advance(n, line, false);
}

/// Takes n bytes as a token of this kind.
fn take_lexeme(
    cursor: &mut Cursor,
    tokens: &mut Vec<Token>,
    kind: TokenKind,
    n: usize,
) -> Result<(), AllocError>
    requires { n ≤ length cursor.old.left }
    ensures cursor { IfOk result (λ _. cursor.new ≡ after cursor.old (lexeme (take n cursor.old.left) (token_at cursor.old kind))) }
    ensures tokens { IfOk result (λ _. tokens.new.items ≡ tokens.old.items ++ token_at cursor.old kind ∷ []) }
{
    let line = line_after_token(cursor.line(), &kind);
    let token = Token {
        kind,
        place: cursor.place(),
        first: cursor.is_first(),
        glued: cursor.glued(),
    };
    cursor.advance(n, line, true);
    tokens.push(token)?;
    Ok(())
}

/// Takes n bytes as the word `pragma` behind a `#`, which is no token then.
fn take_pragma(cursor: &mut Cursor, tokens: &mut Vec<Token>, n: usize)
    requires { n ≤ length cursor.old.left }
    ensures cursor { cursor.new ≡ after cursor.old (pragma (take n cursor.old.left)) }
    ensures tokens { tokens.new.items ≡ take (length tokens.old.items - 1) tokens.old.items }
{
    cursor.advance(n, Line::Pragma, false);
    tokens.pop();
}

/// Whether the word is `pragma` behind a `#` that begins its line.
fn is_pragma(line: Line, text: &[u8]) -> bool
    ensures { result ≡ is_pragma (line_of line) text.now }
{
    line == Line::Hash && text == b"pragma".as_slice()
}

fn take_word(alloc: Global, cursor: &mut Cursor, tokens: &mut Vec<Token>) -> Result<(), Fail>
    requires some { 0 < length cursor.old.left }
    requires letter { is_letter (slice_index cursor.old.left 0) ≡ true }
    ensures { Steps (LongestToken cursor.old) result cursor.old cursor.new tokens.old.items tokens.new.items }
{
    let left = cursor.left();
    let n = word_length(left);
    if n > WORD_LIMIT {
        return Err(fault(cursor, 4));
    }
    let (text, _) = left.split_at(n);
    if is_pragma(cursor.line(), text) {
        take_pragma(cursor, tokens, n);
        return Ok(());
    }
    let word = Text::from_slice(alloc, text)?;
    take_lexeme(cursor, tokens, TokenKind::Word(word), n)?;
    Ok(())
}

fn take_number(cursor: &mut Cursor, tokens: &mut Vec<Token>) -> Result<(), Fail>
    requires some { 0 < length cursor.old.left }
    requires digit { is_digit (slice_index cursor.old.left 0) ≡ true }
    ensures { Steps (LongestToken cursor.old) result cursor.old cursor.new tokens.old.items tokens.new.items }
{
    let left = cursor.left();
    let n = number_length(left);
    let (text, _) = left.split_at(n);
    match constant(text) {
        Some((value, kind)) => take_lexeme(cursor, tokens, TokenKind::Number { value, kind }, n)?,
        None => return Err(fault(cursor, 3)),
    }
    Ok(())
}

fn take_sign(cursor: &mut Cursor, tokens: &mut Vec<Token>) -> Result<(), Fail>
    requires some { 0 < length cursor.old.left }
    requires letter { is_letter (slice_index cursor.old.left 0) ≡ false }
    requires digit { is_digit (slice_index cursor.old.left 0) ≡ false }
    ensures { Steps (LongestToken cursor.old) result cursor.old cursor.new tokens.old.items tokens.new.items }
{
    match sign_at(cursor.left(), cursor.is_first()) {
        Some(punct) => take_lexeme(
            cursor,
            tokens,
            TokenKind::Punct(punct),
            punct.spelling().len(),
        )?,
        None => return Err(fault(cursor, 1)),
    }
    Ok(())
}

/// Takes a token, or a byte of a pragma line.
fn take_token(alloc: Global, cursor: &mut Cursor, tokens: &mut Vec<Token>) -> Result<(), Fail>
    requires { 0 < length cursor.old.left }
    ensures { Steps (AtToken cursor.old.line cursor.old) result cursor.old cursor.new tokens.old.items tokens.new.items }
{
    if cursor.line() == Line::Pragma {
        take_gap(cursor, 1);
        return Ok(());
    }
    let byte = cursor.left()[0];
    if is_letter(byte) {
        take_word(alloc, cursor, tokens)
    } else if is_digit(byte) {
        take_number(cursor, tokens)
    } else {
        take_sign(cursor, tokens)
    }
}

/// Takes the next piece of the source, which begins so, and puts its token behind the others.
pub fn take_piece(
    alloc: Global,
    begins: Opening,
    cursor: &mut Cursor,
    tokens: &mut Vec<Token>,
) -> Result<(), Fail>
    requires { opening cursor.old.left ≡ opening_of begins }
    ensures { Steps (Finds cursor.old) result cursor.old cursor.new tokens.old.items tokens.new.items }
{
    match begins {
        Opening::LineEnd => cursor.advance(1, Line::Empty, false),
        Opening::Space(n) => take_gap(cursor, n),
        Opening::LineComment => {
            let n = line_comment_length(cursor.left());
            take_gap(cursor, n);
        }
        Opening::BlockComment => match block_comment_length(cursor.left()) {
            Some(n) => take_gap(cursor, n),
            None => return Err(fault(cursor, 2)),
        },
        Opening::Token => take_token(alloc, cursor, tokens)?,
    }
    Ok(())
}
