ghost use Rattle.std.specs.Prelude.{◌≡◌, ◌+◌, ◌<◌, ◌≤◌, ◌^◌, length, take, drop, slice_index, true};
ghost use Rattle.c_token.specs.SourceText.{start_of, Standing, gap, line_end, after, fault, is_first, source_limit};
ghost use Rattle.hls_base.specs.TextPlaces.{next_place, place_after};
ghost use Rattle.c_lexer.specs.Views.{line_of};

use hls_base::place::{Place, TEXT_START, place_after};
use hls_base::refusal::{Fail, Refusal};
use std::marker::Model;

/// What stands on a line so far: no token, a `#` alone, `#` and `pragma`, or other tokens.
#[derive(Clone, Copy, PartialEq, Eq)]
pub enum Line {
    Empty,
    Hash,
    Pragma,
    Tokens,
}

/// The bytes that are left, and what is known of those before.
#[derive(Drop)]
pub struct Cursor<'a> {
    left: &'a [u8],
    place: Place,
    line: Line,
    glued: bool,
}

impl<'a> Model for Cursor<'a> {
    ghost use Rattle.std.specs.Prelude.{◌+◌, ◌<◌, ◌≤◌, ◌^◌, length};
    ghost use Rattle.c_token.specs.SourceText.{Standing};
    ghost use Rattle.c_lexer.specs.Views.{line_of};

    ghost Value = { Standing };

    ghost view = { λ c. record { left = c.left.now; place = c.place; line = line_of c.line; glued = c.glued } };

    ghost invariant = { λ c. (c.place.line + length c.left.now < 2 ^ 32) × (c.place.column + length c.left.now < 2 ^ 32) };
}

impl<'a> Cursor<'a> {
    pub fn new(source: &'a [u8]) -> Cursor<'a>
        requires { length source.now ≤ source_limit }
        ensures { result ≡ start_of source.now }
    {
        Cursor {
            left: source,
            place: TEXT_START,
            line: Line::Empty,
            glued: true,
        }
    }

    pub fn left(&self) -> &'a [u8]
        ensures { result.now ≡ self.now.left }
    {
        self.left
    }

    pub fn line(&self) -> Line
        ensures { line_of result ≡ self.now.line }
    {
        self.line
    }

    /// Whether no token stands on the line so far.
    pub fn is_first(&self) -> bool
        ensures { result ≡ is_first self.now.line }
    {
        self.line == Line::Empty
    }

    pub fn glued(&self) -> bool
        ensures { result ≡ self.now.glued }
    {
        self.glued
    }

    pub fn place(&self) -> Place
        ensures { result ≡ self.now.place }
    {
        self.place
    }

    /// Goes on behind the next n bytes.
    pub fn advance(&mut self, n: usize, line: Line, glued: bool)
        requires { n ≤ length self.old.left }
        ensures { self.new ≡ record { left = drop n self.old.left; place = place_after self.old.place (take n self.old.left); line = line_of line; glued = glued } }
    {
        let (text, left) = self.left.split_at(n);
        self.place = place_after(self.place, text);
        self.left = left;
        self.line = line;
        self.glued = glued;
    }
}
