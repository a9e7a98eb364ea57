ghost use Rattle.std.specs.Prelude.{◌≡◌, ◌+◌, ◌≤◌, [], ◌∷◌, ◌++◌, length, OnOk, IfOk};
ghost use Rattle.hls_base.specs.Refusals.{IfRefused};
ghost use Rattle.c_token.specs.Replacement.{token_limit, word_limit};
ghost use Rattle.c_macro.specs.Emitted.{Emitted};
ghost use Rattle.c_macro.specs.Views.{Emits, overflow};

use crate::words::typed_kind;
use c_token::token::Token;
use hls_base::place::Place;
use hls_base::refusal::{Fail, Refusal};
use std::alloc::Global;
use std::marker::Model;

/// The most tokens after replacement.
const TOKEN_LIMIT: usize = 16384;

/// The most words that are replaced.
const WORD_LIMIT: usize = 65536;

/// A word of the source that is replaced: where it stands, how many tokens were put out before it, and whether `stdint.h` is included there.
#[derive(Clone, Copy)]
pub struct Invocation {
    pub place: Place,
    pub before: usize,
    pub included: bool,
}

/// The tokens that were put out, and how many words were replaced for them.
#[derive(Drop)]
pub struct Output {
    tokens: Vec<Token>,
    words: usize,
}

impl Model for Output {
    ghost use Rattle.c_macro.specs.Emitted.{Emitted};

    ghost Value = { Emitted };

    ghost view = { λ o. record { tokens = o.tokens.items; words = o.words } };
}

fn overflow(place: Place) -> Fail
    ensures { result ≡ Fail.Refused (overflow place) }
{
    Fail::Refused(Refusal { rule: 31, place })
}

impl Output {
    pub fn new(alloc: Global) -> Output
        ensures { result ≡ record { tokens = []; words = 0 } }
    {
        Output {
            tokens: Vec::new(alloc),
            words: 0,
        }
    }

    pub fn len(&self) -> usize
        ensures { result ≡ length self.now.tokens }
    {
        self.tokens.len()
    }

    pub fn into_tokens(self) -> Vec<Token>
        ensures { result.items ≡ self.tokens }
    {
        self.tokens
    }

    /// Puts out a token of the source.
    pub fn push(&mut self, token: Token) -> Result<(), Fail>
        ensures pushed { OnOk result (self.new ≡ record self.old { tokens = self.old.tokens ++ token ∷ [] }) }
        ensures within { OnOk result (length self.new.tokens ≤ token_limit) }
        ensures refused { IfRefused result (λ r. (r ≡ overflow token.place) × (token_limit ≤ length self.old.tokens)) }
    {
        if self.tokens.len() >= TOKEN_LIMIT {
            return Err(overflow(token.place));
        }
        self.tokens.push(token)?;
        Ok(())
    }

    /// Puts out a token of a replacement, with the next part of the word's place.
    pub fn push_part(&mut self, alloc: Global, word: Invocation, token: &Token) -> Result<(), Fail>
        requires { word.before ≤ length self.old.tokens }
        ensures pushed { OnOk result (Emits word (token.now ∷ []) 0 self.old self.new) }
        ensures within { OnOk result (length self.new.tokens ≤ token_limit) }
        ensures refused { IfRefused result (λ r. (r ≡ overflow word.place) × (token_limit ≤ length self.old.tokens)) }
    {
        let place = word.place;
        if self.tokens.len() >= TOKEN_LIMIT {
            return Err(overflow(place));
        }
        let part = self.tokens.len() - word.before + 1;
        self.tokens.push(Token {
            kind: typed_kind(alloc, word.included, &token.kind)?,
            place: Place {
                line: place.line,
                column: place.column,
                part: part as u32,
            },
            first: token.first,
            glued: token.glued,
        })?;
        Ok(())
    }

    /// Counts a word that is replaced, as part of what the word at this place stands for.
    pub fn count_word(&mut self, place: Place) -> Result<(), Fail>
        ensures counted { OnOk result (self.new ≡ record self.old { words = self.old.words + 1 }) }
        ensures within { OnOk result (self.new.words ≤ word_limit) }
        ensures refused { IfRefused result (λ r. (r ≡ overflow place) × (word_limit ≤ self.old.words)) }
    {
        if self.words >= WORD_LIMIT {
            return Err(overflow(place));
        }
        self.words += 1;
        Ok(())
    }
}
