ghost use Rattle.std.specs.Prelude.{◌≡◌, ◌↔◌, IsTrue, IfOk};

use crate::ctype::CType;
use crate::punct::Punct;
use hls_base::place::Place;
use hls_base::text::Text;
use std::alloc::{AllocError, Global};

/// What a token is. A `TypeWord` is one of the eight names of `stdint.h`, once that is included.
#[derive(Drop)]
pub enum TokenKind {
    Word(Text),
    Number { value: u64, kind: CType },
    Punct(Punct),
    TypeWord(CType),
}

impl TokenKind {
    /// Another owner of the same token kind.
    pub fn copy(&self, alloc: Global) -> Result<TokenKind, AllocError>
        ensures { IfOk result (λ t. t ≡ self.now) }
    {
        match self {
            TokenKind::Word(word) => Ok(TokenKind::Word(word.copy(alloc)?)),
            TokenKind::Number { value, kind } => Ok(TokenKind::Number {
                value: *value,
                kind: *kind,
            }),
            TokenKind::Punct(punct) => Ok(TokenKind::Punct(*punct)),
            TokenKind::TypeWord(kind) => Ok(TokenKind::TypeWord(*kind)),
        }
    }

    pub fn is_same(&self, other: &TokenKind) -> bool
        ensures { IsTrue result ↔ (self.now ≡ other.now) }
    {
        match (self, other) {
            (TokenKind::Word(word), TokenKind::Word(other)) => word.is_same(other.items()),
            (
                TokenKind::Number { value, kind },
                TokenKind::Number {
                    value: other,
                    kind: wanted,
                },
            ) => { value == other && kind == wanted }
            (TokenKind::Punct(punct), TokenKind::Punct(other)) => punct == other,
            (TokenKind::TypeWord(kind), TokenKind::TypeWord(other)) => kind == other,
            _ => false,
        }
    }
}

/// A token: where it stands, whether it is the first of its line, and whether neither white space nor a comment stands directly before it.
#[derive(Drop)]
pub struct Token {
    pub kind: TokenKind,
    pub place: Place,
    pub first: bool,
    pub glued: bool,
}

impl Token {
    /// Another owner of the same token.
    pub fn copy(&self, alloc: Global) -> Result<Token, AllocError>
        ensures { IfOk result (λ t. t ≡ self.now) }
    {
        Ok(Token {
            kind: self.kind.copy(alloc)?,
            place: self.place,
            first: self.first,
            glued: self.glued,
        })
    }
}
