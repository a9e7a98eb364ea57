//! Which words are keywords.
ghost use Rattle.std.specs.Prelude.{◌≡◌, List, ℕ, map};
ghost use Rattle.std.specs.Borrow.{Bor};
ghost use Rattle.c_token.specs.Replacement.{is_in};
ghost use Rattle.c_tree.specs.Terminals.{is_keyword};

const KEYWORDS: [&[u8]; 44] = [
    b"auto",
    b"break",
    b"case",
    b"char",
    b"const",
    b"continue",
    b"default",
    b"do",
    b"double",
    b"else",
    b"enum",
    b"extern",
    b"float",
    b"for",
    b"goto",
    b"if",
    b"inline",
    b"int",
    b"long",
    b"register",
    b"restrict",
    b"return",
    b"short",
    b"signed",
    b"sizeof",
    b"static",
    b"struct",
    b"switch",
    b"typedef",
    b"union",
    b"unsigned",
    b"void",
    b"volatile",
    b"while",
    b"_Alignas",
    b"_Alignof",
    b"_Atomic",
    b"_Bool",
    b"_Complex",
    b"_Generic",
    b"_Imaginary",
    b"_Noreturn",
    b"_Static_assert",
    b"_Thread_local",
];

pub fn is_keyword(text: &[u8]) -> bool
    ensures { result ≡ is_keyword text.now }
{
    is_one_of(&KEYWORDS, text)
}

fn is_one_of(words: &[&[u8]], text: &[u8]) -> bool
    ensures { result ≡ is_in text.now (map (λ (w : Bor (List ℕ)). w.now) words.now) }
{
    for word in words {
        if text == *word {
            return true;
        }
    }
    false
}
