//! Readers of the words and numbers of a graph's text.

ghost use Rattle.std.specs.Prelude.{IsTrue, List, ◌≡◌, ◌+◌, ◌*◌, ◌<◌, ◌≤◌, ◌⊎◌, ◌∷◌, ◌++◌, ℕ, false, MatchOption, length, drop};
ghost use Rattle.aig_text.specs.GraphText.{number_text};
ghost use Rattle.aig_text.specs.Reading as reading;
ghost use Rattle.aig_text.specs.Reading.{Reads, ReadsSome, ReadsFirst, ReadsDigits, AtMost, AnySize, Follows, IsShared, Saturates, is_digit};

use itoa::Buffer;
use std::alloc::{AllocError, AllocFailed};
use std::marker::Model;

/// Why a reader stops: no text continues at the next byte, or memory is out.
#[derive(Clone, Copy, PartialEq, Eq)]
pub enum Stop {
    Refused,
    Memory,
}

impl From<AllocError> for Stop {
    ghost use Rattle.std.specs.Prelude.{◌≡◌};
    ghost use Rattle.aig_text.specs.declared.cursor.Stop.TheVariants.{Memory};

    ghost from_gives = { λ _ e. e ≡ Memory };

    fn from(_e: AllocError) -> Stop {
        Stop::Memory
    }
}

impl<T: Drop> From<AllocFailed<T>> for Stop {
    ghost use Rattle.std.specs.Prelude.{◌≡◌};
    ghost use Rattle.aig_text.specs.declared.cursor.Stop.TheVariants.{Memory};

    ghost from_gives = { λ _ e. e ≡ Memory };

    fn from(_e: AllocFailed<T>) -> Stop {
        Stop::Memory
    }
}

/// How many bytes at the front the two share.
fn shared_length(a: &[u8], b: &[u8]) -> usize
    ensures shared { IsShared a.now b.now result }
    ensures high { result ≤ length b.now }
{
    let mut n = 0;
    while n < a.len() && n < b.len() && a[n] == b[n] {
        n += 1;
    }
    n
}

/// The number with one more digit, unless it is 0 or becomes too high.
fn lengthened(value: u64, digit: u64, high: u64) -> Option<u64>
    requires { digit < 10 }
    ensures { MatchOption result ((value ≡ 0) ⊎ (high < value * 10 + digit)) (λ v. (v ≡ value * 10 + digit) × (0 < value) × (v ≤ high)) }
{
    if value == 0 || high < digit || (high - digit) / 10 < value {
        None
    } else {
        Some(value * 10 + digit)
    }
}

/// The number with one more digit, at most `u64::MAX`.
fn saturated(value: u64, digit: u64) -> u64
    requires { digit < 10 }
    ensures { Saturates result (value * 10 + digit) }
{
    if (u64::MAX - digit) / 10 < value {
        u64::MAX
    } else {
        value * 10 + digit
    }
}

/// The bytes that are left. A clause sees the list of them.
#[derive(Drop)]
pub struct Cursor<'a> {
    left: &'a [u8],
}

impl<'a> Model for Cursor<'a> {
    ghost use Rattle.std.specs.Prelude.{List, ℕ};

    ghost Value = { List ℕ };

    ghost view = { λ c. c.left.now };
}

impl<'a> Cursor<'a> {
    pub fn new(bytes: &'a [u8]) -> Cursor<'a>
        ensures { result ≡ bytes.now }
    {
        Cursor { left: bytes }
    }

    pub fn left(&self) -> &'a [u8]
        ensures { result.now ≡ self.now }
    {
        self.left
    }

    /// Skips the next n bytes.
    pub fn advance(&mut self, n: usize)
        requires { n ≤ length self.old }
        ensures { self.new ≡ drop n self.old }
    {
        let (_, left) = self.left.split_at(n);
        self.left = left;
    }

    /// The value of the next byte, if it is a digit.
    fn next_digit(&self) -> Option<u64>
        ensures { MatchOption result (Follows is_digit self.now) (λ d. (d < 10) × ((rest : List ℕ) × (self.now ≡ (48 + d) ∷ rest))) }
    {
        let byte = *self.left.first()?;
        if b'0' <= byte && byte <= b'9' {
            Some(u64::from(byte - b'0'))
        } else {
            None
        }
    }

    /// Takes this word.
    pub fn word(&mut self, word: &[u8]) -> Result<(), Stop>
        ensures { Reads (reading.word word.now) result self.old self.new }
    {
        let n = shared_length(word, self.left);
        self.advance(n);
        if n < word.len() {
            return Err(Stop::Refused);
        }
        Ok(())
    }

    /// Takes exactly this number, and the byte behind it.
    pub fn exactly(&mut self, n: u32, end: u8) -> Result<(), Stop>
        ensures { Reads (reading.word (number_text end n)) result self.old self.new }
    {
        self.word(Buffer::new().format(n).as_bytes())?;
        self.word(&[end])
    }

    /// Takes the first digit of a number of any size.
    fn any_first_digit(&mut self) -> Result<u64, Stop>
        ensures { ReadsFirst AnySize result self.old self.new }
    {
        match self.next_digit() {
            Some(digit) => {
                self.advance(1);
                Ok(digit)
            }
            None => Err(Stop::Refused),
        }
    }

    /// Takes the first digit of a number that is not too high.
    fn first_digit(&mut self, high: u64) -> Result<u64, Stop>
        ensures { ReadsFirst (AtMost high) result self.old self.new }
    {
        match self.next_digit() {
            Some(digit) if digit <= high => {
                self.advance(1);
                Ok(digit)
            }
            _ => Err(Stop::Refused),
        }
    }

    /// Takes the digits of a number that is not too high.
    fn digits(&mut self, high: u64) -> Result<u64, Stop>
        ensures { ReadsDigits (AtMost high) (λ v n. v ≡ n) result self.old self.new }
    {
        let mut value = self.first_digit(high)?;
        while let Some(digit) = self.next_digit() {
            match lengthened(value, digit, high) {
                Some(longer) => value = longer,
                None => return Err(Stop::Refused),
            }
            self.advance(1);
        }
        Ok(value)
    }

    /// Takes the digits of a number of any size.
    fn any_digits(&mut self) -> Result<u64, Stop>
        ensures { ReadsDigits AnySize Saturates result self.old self.new }
    {
        let mut value = self.any_first_digit()?;
        while let Some(digit) = self.next_digit() {
            if value == 0 {
                return Err(Stop::Refused);
            }
            value = saturated(value, digit);
            self.advance(1);
        }
        Ok(value)
    }

    /// Takes a number that is not too high, and the byte behind it.
    pub fn number(&mut self, high: u32, end: u8) -> Result<u32, Stop>
        requires { is_digit end ≡ false }
        ensures { Reads (reading.number high end) result self.old self.new }
    {
        let n = self.digits(u64::from(high))?;
        self.word(&[end])?;
        Ok(n as u32)
    }

    /// Takes a number of any size, and the byte behind it. The answer is `u64::MAX` where the number is not below it.
    pub fn any_number(&mut self, end: u8) -> Result<u64, Stop>
        requires { is_digit end ≡ false }
        ensures { ReadsSome (reading.any_number end) Saturates result self.old self.new }
    {
        let n = self.any_digits()?;
        self.word(&[end])?;
        Ok(n)
    }
}
