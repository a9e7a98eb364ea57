ghost use Rattle.std.specs.Prelude.{◌≡◌, bytes_eq, map};
ghost use Rattle.std.specs.Borrow.{Bor};
ghost use Rattle.std.specs.Prelude.{List, ℕ};
ghost use Rattle.c_token.specs.Replacement.{is_in};
ghost use Rattle.c_tree.specs.Kinds.{specifier_of};
ghost use Rattle.c_syntax.specs.Sorts.{keyword_of, sort_of_word, sort_of_sign, sort_of, begins_operand, begins_kind};

use c_token::punct::Punct;
use c_token::token::TokenKind;
use c_tree::specifier::Specifier;

/// What a token is for the grammar.
#[derive(Clone, Copy, PartialEq, Eq)]
pub enum Sort {
    /// a word that is no keyword
    Name,
    Number,
    Specifier(Specifier),
    /// one of the types of `stdint.h`
    TypeName,
    Const,
    Static,
    Inline,
    If,
    Else,
    Switch,
    Case,
    Default,
    While,
    Do,
    For,
    Break,
    Continue,
    Return,
    LeftParen,
    RightParen,
    LeftBracket,
    RightBracket,
    LeftBrace,
    RightBrace,
    Semicolon,
    Comma,
    Colon,
    Question,
    /// `~` or `!`
    Prefix,
    /// `+` or `-`, which stand before an operand or between two
    Sign,
    /// an operator that stands only between two operands
    Operator,
    /// `++` or `--`
    Bump,
    Equal,
    /// an assignment operator with an operator in it
    Assignment,
    /// a keyword that stands in no program
    Unsupported,
    /// a sign that stands in no program
    Other,
}

/// The keywords that stand in no program, C11 6.4.1.
const UNSUPPORTED: [&[u8]; 22] = [
    b"auto",
    b"double",
    b"enum",
    b"extern",
    b"float",
    b"goto",
    b"register",
    b"restrict",
    b"sizeof",
    b"struct",
    b"typedef",
    b"union",
    b"volatile",
    b"_Alignas",
    b"_Alignof",
    b"_Atomic",
    b"_Complex",
    b"_Generic",
    b"_Imaginary",
    b"_Noreturn",
    b"_Static_assert",
    b"_Thread_local",
];

fn is(text: &[u8], word: &[u8]) -> bool
    ensures { result ≡ bytes_eq text.now word.now }
{
    text == word
}

fn is_one_of(text: &[u8], words: &[&[u8]]) -> bool
    ensures { result ≡ is_in text.now (map (λ (w : Bor (List ℕ)). w.now) words.now) }
{
    for word in words {
        if is(text, word) {
            return true;
        }
    }
    false
}

fn specifier_of(text: &[u8]) -> Option<Specifier>
    ensures { result ≡ specifier_of text.now }
{
    if is(text, b"void") {
        Some(Specifier::Void)
    } else if is(text, b"_Bool") {
        Some(Specifier::Bool)
    } else if is(text, b"char") {
        Some(Specifier::Char)
    } else if is(text, b"short") {
        Some(Specifier::Short)
    } else if is(text, b"int") {
        Some(Specifier::Int)
    } else if is(text, b"long") {
        Some(Specifier::Long)
    } else if is(text, b"signed") {
        Some(Specifier::Signed)
    } else if is(text, b"unsigned") {
        Some(Specifier::Unsigned)
    } else {
        None
    }
}

fn keyword_of(text: &[u8]) -> Option<Sort>
    ensures { result ≡ keyword_of text.now }
{
    if is(text, b"const") {
        Some(Sort::Const)
    } else if is(text, b"static") {
        Some(Sort::Static)
    } else if is(text, b"inline") {
        Some(Sort::Inline)
    } else if is(text, b"if") {
        Some(Sort::If)
    } else if is(text, b"else") {
        Some(Sort::Else)
    } else if is(text, b"switch") {
        Some(Sort::Switch)
    } else if is(text, b"case") {
        Some(Sort::Case)
    } else if is(text, b"default") {
        Some(Sort::Default)
    } else if is(text, b"while") {
        Some(Sort::While)
    } else if is(text, b"do") {
        Some(Sort::Do)
    } else if is(text, b"for") {
        Some(Sort::For)
    } else if is(text, b"break") {
        Some(Sort::Break)
    } else if is(text, b"continue") {
        Some(Sort::Continue)
    } else if is(text, b"return") {
        Some(Sort::Return)
    } else {
        None
    }
}

fn sort_of_word(text: &[u8]) -> Sort
    ensures { result ≡ sort_of_word text.now }
{
    if let Some(specifier) = specifier_of(text) {
        return Sort::Specifier(specifier);
    }
    if let Some(keyword) = keyword_of(text) {
        return keyword;
    }
    if is_one_of(text, &UNSUPPORTED) {
        return Sort::Unsupported;
    }
    Sort::Name
}

fn sort_of_sign(punct: Punct) -> Sort
    ensures { result ≡ sort_of_sign punct }
{
    match punct {
        Punct::LeftParen => Sort::LeftParen,
        Punct::RightParen => Sort::RightParen,
        Punct::LeftBracket => Sort::LeftBracket,
        Punct::RightBracket => Sort::RightBracket,
        Punct::LeftBrace => Sort::LeftBrace,
        Punct::RightBrace => Sort::RightBrace,
        Punct::Semicolon => Sort::Semicolon,
        Punct::Comma => Sort::Comma,
        Punct::Colon => Sort::Colon,
        Punct::Question => Sort::Question,
        Punct::Tilde | Punct::Bang => Sort::Prefix,
        Punct::Plus | Punct::Minus => Sort::Sign,
        Punct::Star
        | Punct::Slash
        | Punct::Percent
        | Punct::Amp
        | Punct::Bar
        | Punct::Caret
        | Punct::Less
        | Punct::Greater
        | Punct::ShiftLeft
        | Punct::ShiftRight
        | Punct::LessEqual
        | Punct::GreaterEqual
        | Punct::EqualEqual
        | Punct::BangEqual
        | Punct::AmpAmp
        | Punct::BarBar => Sort::Operator,
        Punct::PlusPlus | Punct::MinusMinus => Sort::Bump,
        Punct::Equal => Sort::Equal,
        Punct::PlusEqual
        | Punct::MinusEqual
        | Punct::StarEqual
        | Punct::SlashEqual
        | Punct::PercentEqual
        | Punct::AmpEqual
        | Punct::BarEqual
        | Punct::CaretEqual
        | Punct::ShiftLeftEqual
        | Punct::ShiftRightEqual => Sort::Assignment,
        Punct::Dot | Punct::Ellipsis | Punct::Arrow | Punct::HashHash | Punct::Hash => Sort::Other,
    }
}

pub fn sort_of(kind: &TokenKind) -> Sort
    ensures { result ≡ sort_of kind.now }
{
    match kind {
        TokenKind::Word(text) => sort_of_word(text.items()),
        TokenKind::Number { .. } => Sort::Number,
        TokenKind::Punct(punct) => sort_of_sign(*punct),
        TokenKind::TypeWord(_) => Sort::TypeName,
    }
}

impl Sort {
    /// Whether an operand may begin with the token.
    pub fn begins_operand(self) -> bool
        ensures { result ≡ begins_operand self }
    {
        match self {
            Sort::Name | Sort::Number | Sort::LeftParen | Sort::Prefix | Sort::Sign | Sort::Bump =>
                true,
            _ => false,
        }
    }

    /// Whether a type that has values may begin with the token.
    pub fn begins_kind(self) -> bool
        ensures { result ≡ begins_kind self }
    {
        match self {
            Sort::Specifier(specifier) => specifier != Specifier::Void,
            Sort::TypeName | Sort::Const => true,
            _ => false,
        }
    }
}
