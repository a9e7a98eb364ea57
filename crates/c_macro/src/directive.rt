ghost use Rattle.std.specs.Prelude.{◌≡◌, option_map};
ghost use Rattle.c_token.specs.Replacement.{agrees, define, undefine, obey};

use crate::reader::{DEFINE_LIMIT, Reader};
use crate::tokens::{has_parameters, is_word, names_stdint, same_kinds};
use crate::words::may_be_defined;
use c_token::token::{Token, TokenKind};
use hls_base::refusal::{Fail, Refusal};

fn refuse(rule: u8, token: &Token) -> Fail
    ensures { result ≡ Fail.Refused (record { rule = rule; place = token.now.place }) }
{
    Fail::Refused(Refusal {
        rule,
        place: token.place,
    })
}

/// Whether a word that has these tokens, if any, may be given those.
fn agrees(old: Option<&[Token]>, body: &[Token]) -> bool
    ensures { result ≡ agrees (option_map (λ tokens. tokens.now) old.entry) body.now }
{
    match old {
        Some(old) => same_kinds(old, body),
        None => true,
    }
}

impl<'a> Reader<'a> {
    ghost use Rattle.c_macro.specs.Steps.{reading_of, Obeys};

    /// Obeys a directive, by the tokens behind its `#`.
    pub fn obey(&mut self, line: &'a [Token]) -> Result<(), Fail>
        ensures { Obeys (obey (reading_of self.old) line.now) result self.old self.new }
    {
        let Some((at, rest)) = line.split_first() else {
            return Ok(());
        };
        if is_word(b"include", &at.kind) && names_stdint(rest) {
            self.included = true;
            Ok(())
        } else if is_word(b"define", &at.kind) {
            self.define(at, rest)
        } else if is_word(b"undef", &at.kind) {
            self.undefine(at, rest)
        } else {
            Err(refuse(5, at))
        }
    }

    /// Obeys `#define`, by the tokens behind it.
    fn define(&mut self, at: &Token, rest: &'a [Token]) -> Result<(), Fail>
        ensures { Obeys (define (reading_of self.old) at.now rest.now) result self.old self.new }
    {
        let Some((token, body)) = rest.split_first() else {
            return Err(refuse(5, at));
        };
        let TokenKind::Word(word) = &token.kind else {
            return Err(refuse(5, at));
        };
        let old = self.macros.body(word.items());
        if !may_be_defined(word.items()) || has_parameters(body) || !agrees(old, body) {
            return Err(refuse(5, token));
        }
        if self.defines >= DEFINE_LIMIT {
            return Err(refuse(38, token));
        }
        if old.is_none() {
            self.macros.define(word.items(), body)?;
        }
        self.defines += 1;
        Ok(())
    }

    /// Obeys `#undef`, by the tokens behind it.
    fn undefine(&mut self, at: &Token, rest: &[Token]) -> Result<(), Fail>
        ensures { Obeys (undefine (reading_of self.old) at.now rest.now) result self.old self.new }
    {
        match rest {
            [
                Token {
                    kind: TokenKind::Word(word),
                    ..
                },
            ] => {
                self.macros.undefine(word.items());
                Ok(())
            }
            _ => Err(refuse(5, at)),
        }
    }
}
