ghost use Rattle.std.specs.Prelude.{◌≡◌, ◌<◌, List, [], length, get_or, true, false, IfOk, MatchOption};
ghost use Rattle.c_token.specs.declared.token.Token.{Token};

use crate::steps::goal::{Raise, Take};
use c_token::token::Token;
use hls_base::place::Place;
use std::alloc::{AllocError, Global};

/// The most constructs that may hold a token.
pub const NESTING_LIMIT: u8 = 64;

/// How many constructs hold each token seen, up to the first token that is beyond a limit.
#[derive(Drop)]
pub struct Depths {
    nestings: Vec<u8>,
    beyond: bool,
}

impl Depths {
    ghost use Rattle.c_syntax.specs.Notes.{Noted, Shows, noting, raised, hold_from, hold_behind};

    pub fn new(alloc: Global) -> Depths
        ensures { Shows result.nestings.items result.beyond [] }
    {
        Depths {
            nestings: Vec::new(alloc),
            beyond: false,
        }
    }

    /// The place of the first token that is beyond a limit.
    pub fn place_beyond(&self, tokens: &[Token]) -> Option<Place>
        requires { self.now.beyond ≡ true → length self.now.nestings.items < length tokens.now }
        ensures { MatchOption result (self.now.beyond ≡ false)
            (λ place. (self.now.beyond ≡ true) × ((d : Token) → place ≡ (get_or tokens.now (length self.now.nestings.items) d).place)) }
    {
        if self.beyond {
            Some(tokens[self.nestings.len()].place)
        } else {
            None
        }
    }

    /// One more token, with what it says of those before.
    pub fn push(&mut self, take: Take) -> Result<(), AllocError>
        ensures { IfOk result (λ _. (noted : List Noted) → Shows self.old.nestings.items self.old.beyond noted → Shows self.new.nestings.items self.new.beyond (noting take noted)) }
    {
        self.raise_by(take.raise);
        if !self.beyond {
            if take.surplus || NESTING_LIMIT < take.nesting {
                self.beyond = true;
            } else {
                self.nestings.push(take.nesting)?;
            }
        }
        Ok(())
    }

    fn raise_by(&mut self, raise: Raise)
        ensures { (noted : List Noted) → Shows self.old.nestings.items self.old.beyond noted → Shows self.new.nestings.items self.new.beyond (raised raise noted) }
    {
        match raise {
            Raise::Nothing => {}
            Raise::From(first) => self.raise(first),
            Raise::Behind(first) => self.raise_behind(first),
            Raise::Both(first) => {
                self.raise_behind(first);
                self.raise(first);
            }
        }
    }

    /// One construct more holds the tokens behind this index.
    fn raise_behind(&mut self, first: usize)
        ensures { (noted : List Noted) → Shows self.old.nestings.items self.old.beyond noted → Shows self.new.nestings.items self.new.beyond (hold_behind first noted) }
    {
        if first < self.nestings.len() {
            self.raise(first + 1);
        }
    }

    /// One construct more holds the tokens from this index on.
    fn raise(&mut self, first: usize)
        ensures { (noted : List Noted) → Shows self.old.nestings.items self.old.beyond noted → Shows self.new.nestings.items self.new.beyond (hold_from first noted) }
    {
        let mut i = first;
        while i < self.nestings.len() {
            if self.nestings[i] < NESTING_LIMIT {
                self.nestings[i] += 1;
                i += 1;
            } else {
                self.nestings.truncate(i);
                self.beyond = true;
            }
        }
    }
}
