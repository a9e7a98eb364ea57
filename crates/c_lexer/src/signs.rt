ghost use Rattle.std.specs.Prelude.{◌≡◌};
ghost use Rattle.c_lexer.specs.Signs.{stands, IsLongestSign};

use c_token::punct::Punct;

/// The punctuators, the longest first.
const LONGEST_FIRST: [Punct; 48] = [
    Punct::Ellipsis,
    Punct::ShiftLeftEqual,
    Punct::ShiftRightEqual,
    Punct::Arrow,
    Punct::PlusPlus,
    Punct::MinusMinus,
    Punct::ShiftLeft,
    Punct::ShiftRight,
    Punct::LessEqual,
    Punct::GreaterEqual,
    Punct::EqualEqual,
    Punct::BangEqual,
    Punct::AmpAmp,
    Punct::BarBar,
    Punct::PlusEqual,
    Punct::MinusEqual,
    Punct::StarEqual,
    Punct::SlashEqual,
    Punct::PercentEqual,
    Punct::AmpEqual,
    Punct::BarEqual,
    Punct::CaretEqual,
    Punct::HashHash,
    Punct::LeftParen,
    Punct::RightParen,
    Punct::LeftBracket,
    Punct::RightBracket,
    Punct::LeftBrace,
    Punct::RightBrace,
    Punct::Semicolon,
    Punct::Comma,
    Punct::Colon,
    Punct::Question,
    Punct::Tilde,
    Punct::Bang,
    Punct::Plus,
    Punct::Minus,
    Punct::Star,
    Punct::Slash,
    Punct::Percent,
    Punct::Amp,
    Punct::Bar,
    Punct::Caret,
    Punct::Less,
    Punct::Greater,
    Punct::Equal,
    Punct::Dot,
    Punct::Hash,
];

fn stands(bytes: &[u8], is_first: bool, punct: Punct) -> bool
    ensures { result ≡ stands is_first bytes.now punct }
{
    bytes.starts_with(punct.spelling()) && (is_first || punct != Punct::Hash)
}

/// The longest punctuator that the bytes begin with, where `#` is one only as the first token of its line.
pub fn sign_at(bytes: &[u8], is_first: bool) -> Option<Punct>
    ensures { IsLongestSign is_first bytes.now result }
{
    for punct in LONGEST_FIRST {
        if stands(bytes, is_first, punct) {
            return Some(punct);
        }
    }
    None
}
