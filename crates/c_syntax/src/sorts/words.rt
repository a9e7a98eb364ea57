ghost use Rattle.std.specs.Prelude.{◌≡◌};
ghost use Rattle.c_syntax.specs.Sorts.Words as spec;

use c_tree::specifier::Specifier;

/// The words of a type that were read, in any order. `Void` and `Named`, a type of `stdint.h`, take no further word.
#[derive(Clone, Copy)]
pub enum Words {
    Void,
    Named,
    Bool,
    Char { sign: Signedness },
    Short { sign: Signedness, int: bool },
    Int { sign: Signedness, int: bool },
    Long { sign: Signedness, int: bool },
    LongLong { sign: Signedness, int: bool },
}

/// Whether `signed` or `unsigned` was read.
#[derive(Clone, Copy)]
pub enum Signedness {
    Silent,
    Signed,
    Unsigned,
}

impl Words {
    /// The type that begins with this word.
    pub fn starting(specifier: Specifier) -> Words
        ensures { result ≡ spec.starting specifier }
    {
        let sign = Signedness::Silent;
        match specifier {
            Specifier::Void => Words::Void,
            Specifier::Bool => Words::Bool,
            Specifier::Char => Words::Char { sign },
            Specifier::Short => Words::Short { sign, int: false },
            Specifier::Int => Words::Int { sign, int: true },
            Specifier::Long => Words::Long { sign, int: false },
            Specifier::Signed => Words::Int {
                sign: Signedness::Signed,
                int: false,
            },
            Specifier::Unsigned => Words::Int {
                sign: Signedness::Unsigned,
                int: false,
            },
        }
    }

    /// The words with one more, if some type has them all.
    pub fn with(self, specifier: Specifier) -> Option<Words>
        ensures { result ≡ spec.with_word self specifier }
    {
        match specifier {
            Specifier::Void | Specifier::Bool => None,
            Specifier::Char => self.with_char(),
            Specifier::Short => self.with_short(),
            Specifier::Int => self.with_int(),
            Specifier::Long => self.with_long(),
            Specifier::Signed => self.with_sign(Signedness::Signed),
            Specifier::Unsigned => self.with_sign(Signedness::Unsigned),
        }
    }

    fn with_char(self) -> Option<Words>
        ensures { result ≡ spec.with_char self }
    {
        match self {
            Words::Int { sign, int: false } => Some(Words::Char { sign }),
            _ => None,
        }
    }

    fn with_short(self) -> Option<Words>
        ensures { result ≡ spec.with_short self }
    {
        match self {
            Words::Int { sign, int } => Some(Words::Short { sign, int }),
            _ => None,
        }
    }

    fn with_long(self) -> Option<Words>
        ensures { result ≡ spec.with_long self }
    {
        match self {
            Words::Int { sign, int } => Some(Words::Long { sign, int }),
            Words::Long { sign, int } => Some(Words::LongLong { sign, int }),
            _ => None,
        }
    }

    fn with_int(self) -> Option<Words>
        ensures { result ≡ spec.with_int self }
    {
        match self {
            Words::Short { sign, int: false } => Some(Words::Short { sign, int: true }),
            Words::Int { sign, int: false } => Some(Words::Int { sign, int: true }),
            Words::Long { sign, int: false } => Some(Words::Long { sign, int: true }),
            Words::LongLong { sign, int: false } => Some(Words::LongLong { sign, int: true }),
            _ => None,
        }
    }

    fn with_sign(self, sign: Signedness) -> Option<Words>
        ensures { result ≡ spec.with_sign self sign }
    {
        match self {
            Words::Char {
                sign: Signedness::Silent,
            } => Some(Words::Char { sign }),
            Words::Short {
                sign: Signedness::Silent,
                int,
            } => Some(Words::Short { sign, int }),
            Words::Int {
                sign: Signedness::Silent,
                int,
            } => Some(Words::Int { sign, int }),
            Words::Long {
                sign: Signedness::Silent,
                int,
            } => Some(Words::Long { sign, int }),
            Words::LongLong {
                sign: Signedness::Silent,
                int,
            } => Some(Words::LongLong { sign, int }),
            _ => None,
        }
    }
}
