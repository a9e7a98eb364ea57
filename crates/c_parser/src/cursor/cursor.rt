ghost use Rattle.std.specs.Prelude.{List, ℕ, ◌≡◌, ◌<◌, MatchBool, [], ◌∷◌, Option, Some, None, MatchOption, IfOk, OnOk, length, Bool, true, false};
ghost use Rattle.hls_base.specs.declared.place.Place.{Place};
ghost use Rattle.c_token.specs.declared.punct.Punct.{Punct};
ghost use Rattle.c_tree.specs.declared.operator.Unary.{Unary};
ghost use Rattle.c_tree.specs.declared.operator.Binary.{Binary};
ghost use Rattle.c_tree.specs.Terminals.{Terminal, terminal_of, terminals, sign, word, is_keyword, prefix_of, assignment_of, bump_of};
ghost use Rattle.c_parser.specs.Cursor.Readings.{Found, Never, Anywhere, Sign, Word, Lacks, LacksWord, opens_paren};
ghost use Rattle.c_parser.specs.Cursor.Tokens.{joiner_of, joiner_level};
ghost use Rattle.c_parser.specs.Cursor.Types.{kind_word_of, starts_kind, KindSign, opens_cast};
ghost use Rattle.c_token.specs.declared.punct.Punct.TheVariants as p;
ghost use Rattle.c_parser.specs.Cursor.Tokens.{Name, separates};
ghost use Rattle.c_parser.specs.Cursor.Keywords.{lead, keyword_of};
ghost use Rattle.c_parser.specs.Cursor.Tokens.{opens_call};
ghost use Rattle.c_parser.specs.Cursor.Stops.{IfAbsent};

use crate::cursor::joiner::Joiner;
use crate::cursor::keyword::{Keyword, keyword_of};
use crate::cursor::operators::{assignment_of, bump_of, joiner_level, joiner_of, prefix_of};
use crate::cursor::stop::Stop;
use crate::cursor::types::{KindWord, kind_word_at};
use crate::cursor::words::is_keyword;
use c_token::punct::Punct;
use c_token::token::{Token, TokenKind};
use c_tree::operator::{Binary, Unary};
use hls_base::place::Place;
use hls_base::text::Text;
use std::marker::Model;

/// The tokens that are left.
#[derive(Drop)]
pub struct Cursor<'a> {
    rest: &'a [Token],
}

impl<'a> Model for Cursor<'a> {
    ghost use Rattle.std.specs.Prelude.{List};
    ghost use Rattle.c_tree.specs.Terminals.{Terminal, terminals};

    ghost Value = { List Terminal };

    ghost view = { λ c. terminals c.rest.now };
}

impl<'a> Cursor<'a> {
    pub fn new(tokens: &'a [Token]) -> Cursor<'a>
        ensures { result ≡ terminals tokens.now }
    {
        Cursor { rest: tokens }
    }

    /// The next token.
    pub fn peek(&self) -> Option<&'a Token>
        ensures { MatchOption result (self.now ≡ []) (λ t. (rest : List Terminal) × (self.now ≡ terminal_of t.now ∷ rest)) }
    {
        self.rest.first()
    }

    /// Takes the next token.
    pub fn next(&mut self) -> Option<&'a Token>
        ensures { MatchOption result ((self.old ≡ []) × (self.new ≡ [])) (λ t. self.old ≡ terminal_of t.now ∷ self.new) }
    {
        let (first, rest) = self.rest.split_first()?;
        self.rest = rest;
        Some(first)
    }

    /// The next token, if it is a sign.
    fn peek_sign(&self) -> Option<(Punct, Place)>
        ensures { MatchOption result ((p : Punct) → Lacks p self.now)
            (λ s. (rest : List Terminal) × (self.now ≡ sign s.0 s.1 ∷ rest)) }
    {
        let token = self.peek()?;
        match &token.kind {
            TokenKind::Punct(punct) => Some((*punct, token.place)),
            _ => None,
        }
    }

    /// Takes the sign, if it comes next.
    pub fn take(&mut self, wanted: Punct) -> Option<Place>
        ensures { MatchOption result ((self.new ≡ self.old) × Lacks wanted self.old)
            (λ at. self.old ≡ sign wanted at ∷ self.new) }
    {
        match self.peek_sign() {
            Some((punct, at)) if punct == wanted => {
                self.next();
                Some(at)
            }
            _ => None,
        }
    }

    /// Takes the sign, if it comes next, and says whether it did.
    pub fn eat(&mut self, wanted: Punct) -> bool
        ensures { MatchBool result ((at : Place) × (self.old ≡ sign wanted at ∷ self.new))
            ((self.new ≡ self.old) × Lacks wanted self.old) }
    {
        self.take(wanted).is_some()
    }

    /// Takes the sign, which has to come next.
    pub fn expect(&mut self, wanted: Punct) -> Result<Place, Stop>
        ensures found { IfOk result (λ at. Found (Sign wanted) Anywhere self.old at self.new) }
        ensures absent { IfAbsent result (Never (Sign wanted) Anywhere self.old) }
        ensures shorter { OnOk result (length self.new < length self.old) }
    {
        self.take(wanted).ok_or(Stop::Absent)
    }

    /// Whether `(` comes next.
    pub fn opens_paren(&self) -> bool
        ensures { result ≡ opens_paren self.now }
    {
        match self.peek() {
            Some(token) => matches!(&token.kind, TokenKind::Punct(Punct::LeftParen)),
            None => false,
        }
    }

    /// Takes the operator of this level that groups to the left, if one comes next.
    pub fn joiner(&mut self, level: u8) -> Option<(Joiner, Place)>
        ensures { MatchOption result ((self.new ≡ self.old) × ((p : Punct) (at : Place) (rest : List Terminal) (j : Joiner) → self.old ≡ sign p at ∷ rest → joiner_of p ≡ Some j → joiner_level j ≡ level → ⊥))
            (λ found. (p : Punct) × (self.old ≡ sign p found.1 ∷ self.new) × (joiner_of p ≡ Some found.0) × (joiner_level found.0 ≡ level)) }
    {
        let (punct, at) = self.peek_sign()?;
        let joiner = joiner_of(punct)?;
        if joiner_level(joiner) != level {
            return None;
        }
        self.next();
        Some((joiner, at))
    }

    /// Takes the sign that comes next, if it is an operator before its operand.
    pub fn prefix(&mut self) -> Option<(Unary, Place)>
        ensures { MatchOption result ((self.new ≡ self.old) × ((p : Punct) (at : Place) (rest : List Terminal) (op : Unary) → self.old ≡ sign p at ∷ rest → prefix_of p ≡ Some op → ⊥))
            (λ found. (p : Punct) × (self.old ≡ sign p found.1 ∷ self.new) × (prefix_of p ≡ Some found.0)) }
    {
        let (punct, at) = self.peek_sign()?;
        let op = prefix_of(punct)?;
        self.next();
        Some((op, at))
    }

    /// Takes `++` or `--`, if it comes next, and says whether it is `++`.
    pub fn bump(&mut self) -> Option<(bool, Place)>
        ensures { MatchOption result ((self.new ≡ self.old) × ((p : Punct) (at : Place) (rest : List Terminal) (up : Bool) → self.old ≡ sign p at ∷ rest → bump_of p ≡ Some up → ⊥))
            (λ found. (p : Punct) × (self.old ≡ sign p found.1 ∷ self.new) × (bump_of p ≡ Some found.0)) }
    {
        let (punct, at) = self.peek_sign()?;
        let up = bump_of(punct)?;
        self.next();
        Some((up, at))
    }

    /// Takes the assignment operator that comes next, with the operator that it applies first.
    pub fn assignment(&mut self) -> Option<(Option<Binary>, Place)>
        ensures { MatchOption result ((self.new ≡ self.old) × ((p : Punct) (at : Place) (rest : List Terminal) (op : Option Binary) → self.old ≡ sign p at ∷ rest → assignment_of p ≡ Some op → ⊥))
            (λ found. (p : Punct) × (self.old ≡ sign p found.1 ∷ self.new) × (assignment_of p ≡ Some found.0)) }
    {
        let (punct, at) = self.peek_sign()?;
        let op = assignment_of(punct)?;
        self.next();
        Some((op, at))
    }

    fn peek_kind_word(&self) -> Option<KindWord>
        ensures { MatchOption result (starts_kind self.now ≡ false) (λ w. (t : Terminal) × (rest : List Terminal) × (self.now ≡ t ∷ rest) × (kind_word_of t.kind ≡ Some w)) }
    {
        kind_word_at(&self.peek()?.kind)
    }

    /// Takes the next token, if it belongs to a type.
    pub fn kind_word(&mut self) -> Option<KindWord>
        ensures { MatchOption result ((self.new ≡ self.old) × (starts_kind self.old ≡ false)) (λ w. KindSign self.old w self.new) }
    {
        let word = self.peek_kind_word()?;
        self.next();
        Some(word)
    }

    /// Whether a token of a type comes next.
    pub fn starts_kind(&self) -> bool
        ensures { result ≡ starts_kind self.now }
    {
        self.peek_kind_word().is_some()
    }

    /// Takes `(`, if a token of a type comes behind it.
    pub fn cast(&mut self) -> Option<Place>
        ensures { MatchOption result ((self.new ≡ self.old) × (opens_cast self.old ≡ false)) (λ at. (self.old ≡ sign p.LeftParen at ∷ self.new) × (starts_kind self.new ≡ true)) }
    {
        let mut ahead = Cursor { rest: self.rest };
        let Some(at) = ahead.take(Punct::LeftParen) else {
            return None;
        };
        if !ahead.starts_kind() {
            return None;
        }
        self.rest = ahead.rest;
        Some(at)
    }

    /// Takes the word that comes next, if it is no keyword.
    pub fn name(&mut self) -> Option<(&'a Text, Place)>
        ensures { MatchOption result ((self.new ≡ self.old) × ((n : List ℕ × Place) (rest : List Terminal) → Name self.old n rest → ⊥)) (λ found. Name self.old (found.0.now, found.1) self.new) }
    {
        let token = self.peek()?;
        match &token.kind {
            TokenKind::Word(text) if !is_keyword(text.items()) => {
                self.next();
                Some((text, token.place))
            }
            _ => None,
        }
    }

    /// Whether a comma, a semicolon or a closing parenthesis comes next.
    pub fn is_separator(&self) -> bool
        ensures { result ≡ separates self.now }
    {
        match self.peek() {
            Some(token) => matches!(
                &token.kind,
                TokenKind::Punct(Punct::Comma | Punct::Semicolon | Punct::RightParen)
            ),
            None => false,
        }
    }

    /// Takes the keyword of a statement that comes next.
    pub fn keyword(&mut self) -> Option<(Keyword, Place)>
        ensures { MatchOption result ((self.new ≡ self.old) × (lead self.old ≡ None)) (λ found. (text : List ℕ) × (self.old ≡ word text found.1 ∷ self.new) × (keyword_of text ≡ Some found.0)) }
    {
        let token = self.peek()?;
        match &token.kind {
            TokenKind::Word(text) => {
                let keyword = keyword_of(text.items())?;
                self.next();
                Some((keyword, token.place))
            }
            _ => None,
        }
    }

    /// Takes this word, if it comes next.
    pub fn word(&mut self, wanted: &[u8]) -> Option<Place>
        ensures { MatchOption result ((self.new ≡ self.old) × LacksWord wanted.now self.old) (λ at. self.old ≡ word wanted.now at ∷ self.new) }
    {
        let token = self.peek()?;
        match &token.kind {
            TokenKind::Word(text) if text.is_same(wanted) => {
                self.next();
                Some(token.place)
            }
            _ => None,
        }
    }

    /// Takes this word, if it comes next, and says whether it did.
    pub fn eat_word(&mut self, wanted: &[u8]) -> bool
        ensures { MatchBool result ((at : Place) × (self.old ≡ word wanted.now at ∷ self.new)) ((self.new ≡ self.old) × LacksWord wanted.now self.old) }
    {
        self.word(wanted).is_some()
    }

    /// Takes this word, which has to come next.
    pub fn expect_word(&mut self, wanted: &[u8]) -> Result<Place, Stop>
        ensures found { IfOk result (λ at. Found (Word wanted.now) Anywhere self.old at self.new) }
        ensures absent { IfAbsent result (Never (Word wanted.now) Anywhere self.old) }
        ensures shorter { OnOk result (length self.new < length self.old) }
    {
        self.word(wanted).ok_or(Stop::Absent)
    }

    /// Whether `(` comes behind the next token.
    pub fn opens_call(&self) -> bool
        ensures { result ≡ opens_call self.now }
    {
        match self.rest.split_first() {
            Some((_, rest)) => Cursor { rest }.opens_paren(),
            None => false,
        }
    }
}
