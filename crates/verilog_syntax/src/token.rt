ghost use Rattle.std.specs.Prelude.{◌≡◌, MatchOption};
ghost use Rattle.rtl_core.specs.Valid.{reserved_words};
ghost use Rattle.std.specs.List.{All};
ghost use Rattle.std.specs.Prelude.{◌≢◌};
ghost use Rattle.verilog_syntax.specs.Signs.{keyword_text};

use hls_base::place::Place;

/// A reserved word of a module's text.
#[derive(Clone, Copy, PartialEq, Eq)]
pub enum Keyword {
    Module,
    Clock,
    Input,
    Output,
    Reg,
    Wire,
    Assign,
    Always,
    Posedge,
    If,
    Begin,
    End,
    Endmodule,
}

#[derive(Clone, Copy, PartialEq, Eq)]
pub enum Sign {
    LeftParen,
    RightParen,
    LeftBracket,
    RightBracket,
    LeftBrace,
    RightBrace,
    Semicolon,
    Comma,
    Colon,
    Question,
    Equal,
    At,
    Tilde,
    Plus,
    Minus,
    Star,
    Ampersand,
    Bar,
    Caret,
    EqualEqual,
    Less,
    LessEqual,
    ShiftLeft,
    ShiftRight,
}

/// What a token is. A name is no reserved word; a constant has its bits and its hexadecimal digits.
#[derive(Clone, Copy)]
pub enum Kind<'a> {
    Keyword(Keyword),
    Name(&'a [u8]),
    Number(&'a [u8]),
    Constant { bits: u8, digits: &'a [u8] },
    Sign(Sign),
}

#[derive(Clone, Copy)]
pub struct Token<'a> {
    pub kind: Kind<'a>,
    pub place: Place,
}

impl Keyword {
    pub fn text(self) -> &'static [u8]
        ensures { result.now ≡ keyword_text self }
    {
        match self {
            Keyword::Module => b"module",
            Keyword::Clock => b"clk",
            Keyword::Input => b"input",
            Keyword::Output => b"output",
            Keyword::Reg => b"reg",
            Keyword::Wire => b"wire",
            Keyword::Assign => b"assign",
            Keyword::Always => b"always",
            Keyword::Posedge => b"posedge",
            Keyword::If => b"if",
            Keyword::Begin => b"begin",
            Keyword::End => b"end",
            Keyword::Endmodule => b"endmodule",
        }
    }
}

const KEYWORDS: [Keyword; 13] = [
    Keyword::Module,
    Keyword::Clock,
    Keyword::Input,
    Keyword::Output,
    Keyword::Reg,
    Keyword::Wire,
    Keyword::Assign,
    Keyword::Always,
    Keyword::Posedge,
    Keyword::If,
    Keyword::Begin,
    Keyword::End,
    Keyword::Endmodule,
];

/// The reserved word that the text is, if it is one.
pub fn keyword_of(text: &[u8]) -> Option<Keyword>
    ensures { MatchOption result (All (λ word. word ≢ text.now) reserved_words) (λ k. keyword_text k ≡ text.now) }
{
    for keyword in KEYWORDS {
        if keyword.text() == text {
            return Some(keyword);
        }
    }
    None
}
