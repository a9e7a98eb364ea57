//! The words of types.
ghost use Rattle.std.specs.Prelude.{◌≡◌, ◌≤◌, ◌<◌, IfOk, OnOk, [], Option, Some, None, length, map, remove, MatchOption, MatchBool};
ghost use Rattle.c_token.specs.declared.punct.Punct.TheVariants as p;
ghost use Rattle.c_token.specs.Replacement.{find_word};
ghost use Rattle.c_tree.specs.Kinds.{same_specifier, same_words, without_one, row_with, rows, type_of_words, specifier_of};
ghost use Rattle.c_parser.specs.Cursor.Readings.{Found, Never, Anywhere, Closed};
ghost use Rattle.c_parser.specs.Cursor.Stops.{IfAbsent};
ghost use Rattle.c_parser.specs.Cursor.Types.{named_specifier, plain_row, kind_word_of, kind_word_of_text, KindWords, KindEnds, specifiers, names, has_const, type_among, SomeKind, AValueKind};

use crate::cursor::cursor::Cursor;
use crate::cursor::stop::Stop;
use c_token::ctype::CType;
use c_token::punct::Punct;
use c_token::token::TokenKind;
use c_tree::specifier::Specifier;
use std::alloc::{AllocError, Global};

/// A token that belongs to a type.
#[derive(Clone, Copy, PartialEq, Eq)]
pub enum KindWord {
    Const,
    Specifier(Specifier),
    Name(CType),
}

/// A type, where `None` is `void`, and whether `const` stands with it.
#[derive(Clone, Copy, PartialEq, Eq)]
pub struct Kind {
    pub kind: Option<CType>,
    pub constant: bool,
}

/// A type that has values.
#[derive(Clone, Copy, PartialEq, Eq)]
pub struct ValueKind {
    pub kind: CType,
    pub constant: bool,
}

const SPECIFIERS: [(&[u8], Specifier); 8] = [
    (b"void", Specifier::Void),
    (b"_Bool", Specifier::Bool),
    (b"char", Specifier::Char),
    (b"short", Specifier::Short),
    (b"int", Specifier::Int),
    (b"long", Specifier::Long),
    (b"signed", Specifier::Signed),
    (b"unsigned", Specifier::Unsigned),
];

fn specifier_in(table: &[(&[u8], Specifier)], text: &[u8]) -> Option<Specifier>
    ensures { result ≡ find_word text.now (map named_specifier table.now) }
{
    for (word, specifier) in table {
        if text == *word {
            return Some(*specifier);
        }
    }
    None
}

fn specifier_of(text: &[u8]) -> Option<Specifier>
    ensures { result ≡ specifier_of text.now }
{
    specifier_in(&SPECIFIERS, text)
}

/// What a word is in a type.
pub fn kind_word_of(text: &[u8]) -> Option<KindWord>
    ensures { result ≡ kind_word_of_text text.now }
{
    if text == b"const".as_slice() {
        return Some(KindWord::Const);
    }
    specifier_of(text).map(KindWord::Specifier)
}

/// What a token is in a type.
pub fn kind_word_at(kind: &TokenKind) -> Option<KindWord>
    ensures { result ≡ kind_word_of kind.now }
{
    match kind {
        TokenKind::Word(text) => kind_word_of(text.items()),
        TokenKind::TypeWord(kind) => Some(KindWord::Name(*kind)),
        _ => None,
    }
}

/// Reads all words of types that come next.
fn kind_words(alloc: Global, cursor: &mut Cursor<'_>) -> Result<Vec<KindWord>, AllocError>
    ensures found { IfOk result (λ words. Found KindWords Anywhere cursor.old words.items cursor.new) }
    ensures shorter { OnOk result (length cursor.new ≤ length cursor.old) }
{
    let mut words = Vec::new(alloc);
    while let Some(word) = cursor.kind_word() {
        words.push(word)?;
    }
    Ok(words)
}

fn specifiers_in(alloc: Global, words: &[KindWord]) -> Result<Vec<Specifier>, AllocError>
    ensures { IfOk result (λ found. found.items ≡ specifiers words.now) }
{
    let mut found = Vec::new(alloc);
    for word in words {
        if let KindWord::Specifier(specifier) = word {
            found.push(*specifier)?;
        }
    }
    Ok(found)
}

fn names_in(alloc: Global, words: &[KindWord]) -> Result<Vec<CType>, AllocError>
    ensures { IfOk result (λ found. found.items ≡ names words.now) }
{
    let mut found = Vec::new(alloc);
    for word in words {
        if let KindWord::Name(kind) = word {
            found.push(*kind)?;
        }
    }
    Ok(found)
}

fn has_const(words: &[KindWord]) -> bool
    ensures { result ≡ has_const words.now }
{
    for word in words {
        if matches!(word, KindWord::Const) {
            return true;
        }
    }
    false
}

fn is_same(a: Specifier, b: Specifier) -> bool
    ensures { result ≡ same_specifier a b }
{
    a == b
}

/// The place of the first such word.
fn position_of(words: &[Specifier], wanted: Specifier) -> Option<usize>
    ensures { MatchOption result (without_one wanted words.now ≡ None) (λ i. (i < length words.now) × (without_one wanted words.now ≡ Some (remove words.now i))) }
{
    for i in 0..words.len() {
        if is_same(wanted, words[i]) {
            return Some(i);
        }
    }
    None
}

/// Takes the first such word out, and says whether there was one.
fn remove_one(words: &mut Vec<Specifier>, wanted: Specifier) -> bool
    ensures { MatchBool result (without_one wanted words.old.items ≡ Some words.new.items) (without_one wanted words.old.items ≡ None) }
{
    match position_of(words.as_slice(), wanted) {
        Some(i) => {
            words.remove(i);
            true
        }
        None => false,
    }
}

/// Whether these are the same words, in any order.
fn same_words(alloc: Global, words: &[Specifier], others: &[Specifier]) -> Result<bool, AllocError>
    ensures { IfOk result (λ same. same ≡ same_words words.now others.now) }
{
    let mut left = Vec::from_slice(alloc, others)?;
    for word in words {
        if !remove_one(&mut left, *word) {
            return Ok(false);
        }
    }
    Ok(left.is_empty())
}

const INT_8: CType = CType::Int {
    signed: true,
    bits: 8,
};

const INT_16: CType = CType::Int {
    signed: true,
    bits: 16,
};

const INT_32: CType = CType::Int {
    signed: true,
    bits: 32,
};

const INT_64: CType = CType::Int {
    signed: true,
    bits: 64,
};

const UNSIGNED_8: CType = CType::Int {
    signed: false,
    bits: 8,
};

const UNSIGNED_16: CType = CType::Int {
    signed: false,
    bits: 16,
};

const UNSIGNED_32: CType = CType::Int {
    signed: false,
    bits: 32,
};

const UNSIGNED_64: CType = CType::Int {
    signed: false,
    bits: 64,
};

/// The lists of words that are a type, C11 6.7.2 paragraph 2.
const ROWS: [(&[Specifier], Option<CType>); 28] = [
    (&[Specifier::Void], None),
    (&[Specifier::Bool], Some(CType::Bool)),
    (&[Specifier::Char], Some(INT_8)),
    (&[Specifier::Signed, Specifier::Char], Some(INT_8)),
    (&[Specifier::Unsigned, Specifier::Char], Some(UNSIGNED_8)),
    (&[Specifier::Short], Some(INT_16)),
    (&[Specifier::Signed, Specifier::Short], Some(INT_16)),
    (&[Specifier::Short, Specifier::Int], Some(INT_16)),
    (
        &[Specifier::Signed, Specifier::Short, Specifier::Int],
        Some(INT_16),
    ),
    (&[Specifier::Unsigned, Specifier::Short], Some(UNSIGNED_16)),
    (
        &[Specifier::Unsigned, Specifier::Short, Specifier::Int],
        Some(UNSIGNED_16),
    ),
    (&[Specifier::Int], Some(INT_32)),
    (&[Specifier::Signed], Some(INT_32)),
    (&[Specifier::Signed, Specifier::Int], Some(INT_32)),
    (&[Specifier::Unsigned], Some(UNSIGNED_32)),
    (&[Specifier::Unsigned, Specifier::Int], Some(UNSIGNED_32)),
    (&[Specifier::Long], Some(INT_64)),
    (&[Specifier::Signed, Specifier::Long], Some(INT_64)),
    (&[Specifier::Long, Specifier::Int], Some(INT_64)),
    (
        &[Specifier::Signed, Specifier::Long, Specifier::Int],
        Some(INT_64),
    ),
    (&[Specifier::Unsigned, Specifier::Long], Some(UNSIGNED_64)),
    (
        &[Specifier::Unsigned, Specifier::Long, Specifier::Int],
        Some(UNSIGNED_64),
    ),
    (&[Specifier::Long, Specifier::Long], Some(INT_64)),
    (
        &[Specifier::Signed, Specifier::Long, Specifier::Long],
        Some(INT_64),
    ),
    (
        &[Specifier::Long, Specifier::Long, Specifier::Int],
        Some(INT_64),
    ),
    (
        &[
            Specifier::Signed,
            Specifier::Long,
            Specifier::Long,
            Specifier::Int,
        ],
        Some(INT_64),
    ),
    (
        &[Specifier::Unsigned, Specifier::Long, Specifier::Long],
        Some(UNSIGNED_64),
    ),
    (
        &[
            Specifier::Unsigned,
            Specifier::Long,
            Specifier::Long,
            Specifier::Int,
        ],
        Some(UNSIGNED_64),
    ),
];

fn row_in(
    alloc: Global,
    rows: &[(&[Specifier], Option<CType>)],
    words: &[Specifier],
) -> Result<Option<Option<CType>>, AllocError>
    ensures { IfOk result (λ found. found ≡ row_with words.now (map plain_row rows.now)) }
{
    for (row, kind) in rows {
        if same_words(alloc, words, *row)? {
            return Ok(Some(*kind));
        }
    }
    Ok(None)
}

fn type_of_words(alloc: Global, words: &[Specifier]) -> Result<Option<Option<CType>>, AllocError>
    ensures { IfOk result (λ found. found ≡ type_of_words words.now) }
{
    row_in(alloc, &ROWS, words)
}

/// The type, from its names and its other words.
fn type_among(
    alloc: Global,
    names: &[CType],
    words: &[Specifier],
) -> Result<Option<Option<CType>>, AllocError>
    ensures { IfOk result (λ found. found ≡ type_among names.now words.now) }
{
    match names {
        [] => type_of_words(alloc, words),
        [kind] if words.is_empty() => Ok(Some(Some(*kind))),
        _ => Ok(None),
    }
}

/// Reads a type, or `void`.
pub fn some_kind(alloc: Global, cursor: &mut Cursor<'_>) -> Result<Kind, Stop>
    ensures found { IfOk result (λ kind. Found SomeKind KindEnds cursor.old kind cursor.new) }
    ensures absent { IfAbsent result (Never SomeKind KindEnds cursor.old) }
    ensures shorter { OnOk result (length cursor.new ≤ length cursor.old) }
{
    let words = kind_words(alloc, cursor)?;
    let specifiers = specifiers_in(alloc, words.as_slice())?;
    let names = names_in(alloc, words.as_slice())?;
    let constant = has_const(words.as_slice());
    match type_among(alloc, names.as_slice(), specifiers.as_slice())? {
        Some(kind) => Ok(Kind { kind, constant }),
        None => Err(Stop::Absent),
    }
}

/// Reads a type that has values.
pub fn value_kind(alloc: Global, cursor: &mut Cursor<'_>) -> Result<ValueKind, Stop>
    ensures found { IfOk result (λ kind. Found AValueKind KindEnds cursor.old kind cursor.new) }
    ensures absent { IfAbsent result (Never AValueKind KindEnds cursor.old) }
    ensures shorter { OnOk result (length cursor.new ≤ length cursor.old) }
{
    let Kind { kind, constant } = some_kind(alloc, cursor)?;
    match kind {
        Some(kind) => Ok(ValueKind { kind, constant }),
        None => Err(Stop::Absent),
    }
}

/// Reads a type in the parentheses of a cast, and the closing one.
pub fn closed_kind(alloc: Global, cursor: &mut Cursor<'_>) -> Result<ValueKind, Stop>
    ensures found { IfOk result (λ kind. Found (Closed AValueKind p.RightParen) Anywhere cursor.old kind cursor.new) }
    ensures absent { IfAbsent result (Never (Closed AValueKind p.RightParen) Anywhere cursor.old) }
    ensures shorter { OnOk result (length cursor.new < length cursor.old) }
{
    let kind = value_kind(alloc, cursor)?;
    cursor.expect(Punct::RightParen)?;
    Ok(kind)
}
