ghost use Rattle.std.specs.Prelude.{◌≡◌, ◌≤◌, [], ◌∷◌, ◌++◌, length, None, OnOk, OnErr, MatchOption, option_map};
ghost use Rattle.c_token.specs.Replacement.{Table, find_word, without, body_of};
ghost use Rattle.c_macro.specs.Views.{visible, IsVisible};

use c_token::token::{Token, TokenKind};
use indexmap::IndexMap;
use std::alloc::{AllocFailed, Global};
use std::marker::Model;

/// The words that are defined, and the tokens that each stands for, in the order of their definitions.
#[derive(Drop)]
pub struct Macros<'a> {
    bodies: IndexMap<&'a [u8], &'a [Token]>,
}

impl<'a> Model for Macros<'a> {
    ghost use Rattle.c_token.specs.Replacement.{Table};
    ghost use Rattle.c_macro.specs.Tables.{table_of};

    ghost Value = { Table };

    ghost view = { λ m. table_of m.bodies.entries };
}

impl<'a> Macros<'a> {
    pub fn new(alloc: Global) -> Macros<'a>
        ensures { result ≡ [] }
    {
        Macros {
            bodies: IndexMap::new(alloc),
        }
    }

    /// The tokens that the word stands for.
    pub fn body(&self, word: &[u8]) -> Option<&'a [Token]>
        ensures { option_map (λ body. body.now) result ≡ find_word word.now self.now }
    {
        match self.bodies.get(word) {
            Some(body) => Some(*body),
            None => None,
        }
    }

    /// The number of the macro that the token names and its tokens, unless it is hidden.
    pub fn visible(&self, hidden: &[bool], kind: &TokenKind) -> Option<(usize, &'a [Token])>
        requires { length self.now ≤ length hidden.now }
        ensures { MatchOption result (body_of (visible hidden.now self.now) kind.now ≡ None) (λ found. IsVisible hidden.now self.now kind.now found.0 found.1.now) }
    {
        let TokenKind::Word(word) = kind else {
            return None;
        };
        let index = self.bodies.get_index_of(word.items())?;
        if hidden[index] {
            return None;
        }
        let (_, body) = self.bodies.get_index(index)?;
        Some((index, *body))
    }

    pub fn define(
        &mut self,
        word: &'a [u8],
        body: &'a [Token],
    ) -> Result<(), AllocFailed<(&'a [u8], &'a [Token])>>
        requires { find_word word.now self.old ≡ None }
        ensures defined { OnOk result (self.new ≡ self.old ++ (word.now, body.now) ∷ []) }
        ensures unchanged { OnErr result (self.new ≡ self.old) }
    {
        self.bodies.insert(word, body)?;
        Ok(())
    }

    pub fn undefine(&mut self, word: &[u8])
        ensures { self.new ≡ without word.now self.old }
    {
        self.bodies.shift_remove(word);
    }
}
