//! The keywords that begin a statement, C11 6.8.
ghost use Rattle.std.specs.Prelude.{◌≡◌, map};
ghost use Rattle.c_token.specs.Replacement.{find_word};
ghost use Rattle.c_parser.specs.Cursor.Keywords.{named_keyword, keyword_of};

#[derive(Clone, Copy, PartialEq, Eq)]
pub enum Keyword {
    If,
    Switch,
    Case,
    Default,
    While,
    Do,
    For,
    Break,
    Continue,
    Return,
}

const KEYWORDS: [(&[u8], Keyword); 10] = [
    (b"if", Keyword::If),
    (b"switch", Keyword::Switch),
    (b"case", Keyword::Case),
    (b"default", Keyword::Default),
    (b"while", Keyword::While),
    (b"do", Keyword::Do),
    (b"for", Keyword::For),
    (b"break", Keyword::Break),
    (b"continue", Keyword::Continue),
    (b"return", Keyword::Return),
];

fn keyword_in(table: &[(&[u8], Keyword)], text: &[u8]) -> Option<Keyword>
    ensures { result ≡ find_word text.now (map named_keyword table.now) }
{
    for (word, keyword) in table {
        if text == *word {
            return Some(*keyword);
        }
    }
    None
}

pub fn keyword_of(text: &[u8]) -> Option<Keyword>
    ensures { result ≡ keyword_of text.now }
{
    keyword_in(&KEYWORDS, text)
}
