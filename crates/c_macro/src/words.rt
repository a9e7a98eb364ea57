ghost use Rattle.std.specs.Prelude.{◌≡◌, map, IfOk};
ghost use Rattle.c_token.specs.Replacement.{is_in, keywords, exact_types, find_word, may_be_defined, typed_kind};

use c_token::ctype::CType;
use c_token::token::TokenKind;
use std::alloc::{AllocError, Global};

/// The keywords, C11 6.4.1.
const KEYWORDS: [&[u8]; 44] = [
    b"auto",
    b"break",
    b"case",
    b"char",
    b"const",
    b"continue",
    b"default",
    b"do",
    b"double",
    b"else",
    b"enum",
    b"extern",
    b"float",
    b"for",
    b"goto",
    b"if",
    b"inline",
    b"int",
    b"long",
    b"register",
    b"restrict",
    b"return",
    b"short",
    b"signed",
    b"sizeof",
    b"static",
    b"struct",
    b"switch",
    b"typedef",
    b"union",
    b"unsigned",
    b"void",
    b"volatile",
    b"while",
    b"_Alignas",
    b"_Alignof",
    b"_Atomic",
    b"_Bool",
    b"_Complex",
    b"_Generic",
    b"_Imaginary",
    b"_Noreturn",
    b"_Static_assert",
    b"_Thread_local",
];

/// The types of `stdint.h` with an exact width, C11 7.20.1.1.
const EXACT_TYPES: [(&[u8], CType); 8] = [
    (
        b"int8_t",
        CType::Int {
            signed: true,
            bits: 8,
        },
    ),
    (
        b"int16_t",
        CType::Int {
            signed: true,
            bits: 16,
        },
    ),
    (
        b"int32_t",
        CType::Int {
            signed: true,
            bits: 32,
        },
    ),
    (
        b"int64_t",
        CType::Int {
            signed: true,
            bits: 64,
        },
    ),
    (
        b"uint8_t",
        CType::Int {
            signed: false,
            bits: 8,
        },
    ),
    (
        b"uint16_t",
        CType::Int {
            signed: false,
            bits: 16,
        },
    ),
    (
        b"uint32_t",
        CType::Int {
            signed: false,
            bits: 32,
        },
    ),
    (
        b"uint64_t",
        CType::Int {
            signed: false,
            bits: 64,
        },
    ),
];

fn is_among(words: &[&[u8]], word: &[u8]) -> bool
    ensures { result ≡ is_in word.now (map (λ other. other.now) words.now) }
{
    for other in words {
        if word == *other {
            return true;
        }
    }
    false
}

fn is_keyword(word: &[u8]) -> bool
    ensures { result ≡ is_in word.now keywords }
{
    is_among(&KEYWORDS, word)
}

/// The type that `stdint.h` gives the word.
fn exact_type(word: &[u8]) -> Option<CType>
    ensures { result ≡ find_word word.now exact_types }
{
    for (name, kind) in &EXACT_TYPES {
        if word == *name {
            return Some(*kind);
        }
    }
    None
}

/// Whether `#define` may give the word tokens: no keyword, and no type of `stdint.h`.
pub fn may_be_defined(word: &[u8]) -> bool
    ensures { result ≡ may_be_defined word.now }
{
    !is_keyword(word) && exact_type(word).is_none()
}

/// The kind of a token that is put out: once `stdint.h` is included its words are types.
pub fn typed_kind(alloc: Global, included: bool, kind: &TokenKind) -> Result<TokenKind, AllocError>
    ensures { IfOk result (λ t. t ≡ typed_kind included kind.now) }
{
    if let TokenKind::Word(word) = kind
        && included
        && let Some(exact) = exact_type(word.items())
    {
        return Ok(TokenKind::TypeWord(exact));
    }
    kind.copy(alloc)
}
