//! The tokens of a source text of C.
#![tactic(auto)]

ghost use Rattle.std.specs.Prelude.{◌≡◌, ◌≤◌, IfOk, length};
ghost use Rattle.c_token.specs.SourceText.{Spells, FirstFault, SpellsOnce, source_limit};
ghost use Rattle.hls_base.specs.TextPlaces.{text_start, place_after};
ghost use Rattle.hls_base.specs.Refusals.{IfRefused};

mod bytes;
mod constant;
mod cursor;
mod pieces;
mod rows;
mod signs;

use crate::bytes::opening_at;
use crate::cursor::Cursor;
use crate::pieces::take_piece;
use c_token::token::Token;
use hls_base::place::{Place, TEXT_START, place_after};
use hls_base::refusal::{Fail, Refusal};
use std::alloc::Global;

/// The most bytes that a source may have.
const SOURCE_LIMIT: usize = 65536;

/// The place just after the last byte of a source.
pub fn end_of(source: &[u8]) -> Place
    requires { length source.now ≤ source_limit }
    ensures { result ≡ place_after text_start source.now }
{
    place_after(TEXT_START, source)
}

/// The tokens of a source, or its first fault. No token is a `TypeWord`.
#[tactic(auto, using(c_token::proofs::Unique::spelled_once))]
pub fn lex(alloc: Global, source: &[u8]) -> Result<Vec<Token>, Fail>
    ensures spelled { IfOk result (λ tokens. Spells source.now tokens.items) }
    ensures refused { IfRefused result (λ refusal. FirstFault source.now refusal) }

    // what holds of the relations that these clauses speak of
    ensures once { SpellsOnce source.now }
{
    if source.len() > SOURCE_LIMIT {
        let (front, _) = source.split_at(SOURCE_LIMIT);
        let place = end_of(front);
        return Err(Fail::Refused(Refusal { rule: 30, place }));
    }
    let mut cursor = Cursor::new(source);
    let mut tokens = Vec::new(alloc);
    while let Some(begins) = opening_at(cursor.left()) {
        take_piece(alloc, begins, &mut cursor, &mut tokens)?;
    }
    Ok(tokens)
}
