ghost use Rattle.std.specs.Prelude.{◌≡◌, ◌≤◌, ◌<◌, [], length, is_some, OnOk};
ghost use Rattle.c_token.specs.Replacement.{beginning, body_of, define_limit};
ghost use Rattle.c_macro.specs.Views.{IsWithin};

use crate::expansion::expand;
use crate::macros::Macros;
use crate::output::{Invocation, Output};
use crate::tokens::{is_directive, line_length};
use crate::words::typed_kind;
use c_token::token::{Token, TokenKind};
use hls_base::refusal::Fail;
use std::alloc::Global;

/// The most `#define` lines.
pub const DEFINE_LIMIT: usize = 256;

/// What was read: the macros, whether `stdint.h` is included, how many `#define` lines there were, and what was put out.
#[derive(Drop)]
pub struct Reader<'a> {
    pub macros: Macros<'a>,
    pub included: bool,
    pub defines: usize,
    pub output: Output,
    ghost few_macros: { length macros ≤ defines },
    ghost few_defines: { defines ≤ define_limit },
}

impl<'a> Reader<'a> {
    ghost use Rattle.c_macro.specs.Steps.{reading_of, Steps, TakesToken};

    pub fn new(alloc: Global) -> Reader<'a>
        ensures reading { reading_of result ≡ beginning }
        ensures empty { result.output.tokens ≡ [] }
    {
        Reader {
            macros: Macros::new(alloc),
            included: false,
            defines: 0,
            output: Output::new(alloc),
        }
    }

    pub fn into_tokens(self) -> Vec<Token>
        ensures { result.items ≡ self.entry.output.tokens }
    {
        self.output.into_tokens()
    }

    fn names_macro(&self, kind: &TokenKind) -> bool
        ensures { result ≡ is_some (body_of self.now.macros kind.now) }
    {
        match kind {
            TokenKind::Word(word) => self.macros.body(word.items()).is_some(),
            _ => false,
        }
    }

    /// Takes the next directive or token, and gives the tokens behind it.
    pub fn take_part(&mut self, alloc: Global, left: &'a [Token]) -> Result<&'a [Token], Fail>
        requires some { 0 < length left.now }
        requires within { IsWithin self.old.output }
        ensures steps { Steps left.now result self.old self.new }
        ensures within { OnOk result (IsWithin self.new.output) }
    {
        let (front, rest) = left.split_at(1);
        if is_directive(&front[0]) {
            let (line, rest) = rest.split_at(line_length(rest));
            self.obey(line)?;
            Ok(rest)
        } else {
            self.take_token(alloc, front)?;
            Ok(rest)
        }
    }

    fn take_token(&mut self, alloc: Global, front: &'a [Token]) -> Result<(), Fail>
        requires one { length front.now ≡ 1 }
        requires within { IsWithin self.old.output }
        ensures token { TakesToken front.now result self.old self.new }
        ensures within { OnOk result (IsWithin self.new.output) }
    {
        let token = &front[0];
        if self.names_macro(&token.kind) {
            let word = Invocation {
                place: token.place,
                before: self.output.len(),
                included: self.included,
            };
            let mut hidden = [false; DEFINE_LIMIT];
            return expand(
                alloc,
                &self.macros,
                &mut hidden,
                word,
                front,
                &mut self.output,
            );
        }
        self.output.push(Token {
            kind: typed_kind(alloc, self.included, &token.kind)?,
            place: token.place,
            first: token.first,
            glued: token.glued,
        })
    }
}
