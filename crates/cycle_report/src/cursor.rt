//! Readers of the words, numbers and names of a report.

ghost use Rattle.std.specs.List.{list_all};
ghost use Rattle.std.specs.Prelude.{IsTrue, List, ◌≡◌, ◌≢◌, ◌+◌, ◌*◌, ◌-◌, ◌<◌, ◌≤◌, ◌⊎◌, ◌∷◌, ℕ, IfOk, MatchOption, length, drop, take};
ghost use Rattle.cycle_report.specs.ReportForm.{is_digit, is_letter, is_word_byte};
ghost use Rattle.cycle_report.specs.Reading as reading;
ghost use Rattle.cycle_report.specs.Reading.{Reads, ReadsDigit, Follows, IsShared};

use hls_base::text::Text;
use std::alloc::{AllocError, AllocFailed, Global};
use std::marker::Model;

/// The most bytes that a name may have.
const NAME_LIMIT: usize = 64;

/// Why a reader stops: at the next byte no text goes on, or there is no memory.
#[derive(Clone, Copy, PartialEq, Eq)]
pub enum Stop {
    Refused,
    Memory,
}

impl From<AllocError> for Stop {
    ghost use Rattle.std.specs.Prelude.{◌≡◌};
    ghost use Rattle.cycle_report.specs.declared.cursor.Stop.TheVariants.{Memory};

    ghost from_gives = { λ _ e. e ≡ Memory };

    fn from(_e: AllocError) -> Stop {
        Stop::Memory
    }
}

impl<T: Drop> From<AllocFailed<T>> for Stop {
    ghost use Rattle.std.specs.Prelude.{◌≡◌};
    ghost use Rattle.cycle_report.specs.declared.cursor.Stop.TheVariants.{Memory};

    ghost from_gives = { λ _ e. e ≡ Memory };

    fn from(_e: AllocFailed<T>) -> Stop {
        Stop::Memory
    }
}

/// How many bytes at the front the two share.
pub fn shared_length(a: &[u8], b: &[u8]) -> usize
    ensures shared { IsShared a.now b.now result }
    ensures high { result ≤ length b.now }
{
    let mut n = 0;
    while n < a.len() && n < b.len() && a[n] == b[n] {
        n += 1;
    }
    n
}

/// How many bytes at the front are letters, digits or `_`, if not more than these.
fn run_length(bytes: &[u8], most: usize) -> usize
    ensures within { result ≤ length bytes.now }
    ensures most { result ≤ most }
    ensures run { IsTrue (list_all is_word_byte (take result bytes.now)) }
    ensures ends { (result ≡ most) ⊎ Follows is_word_byte (drop result bytes.now) }
{
    let mut n = 0;
    while n < most && n < bytes.len() && is_word_byte(bytes[n]) {
        n += 1;
    }
    n
}

fn is_letter(byte: u8) -> bool
    ensures { result ≡ is_letter byte }
{
    (b'A' <= byte && byte <= b'Z') || (b'a' <= byte && byte <= b'z') || byte == b'_'
}

fn is_word_byte(byte: u8) -> bool
    ensures { result ≡ is_word_byte byte }
{
    is_letter(byte) || (b'0' <= byte && byte <= b'9')
}

fn begins_with_letter(bytes: &[u8]) -> bool
    ensures { result ≡ reading.begins_with is_letter bytes.now }
{
    match bytes.first() {
        Some(byte) => is_letter(*byte),
        None => false,
    }
}

fn begins_with_word_byte(bytes: &[u8]) -> bool
    ensures { result ≡ reading.begins_with is_word_byte bytes.now }
{
    match bytes.first() {
        Some(byte) => is_word_byte(*byte),
        None => false,
    }
}

/// The number with one more digit, if none begins it that is 0 and it is not too high.
fn lengthened(value: u64, digit: u64, high: u64) -> Option<u64>
    requires { digit < 10 }
    ensures { MatchOption result ((value ≡ 0) ⊎ (high < value * 10 + digit)) (λ v. (v ≡ value * 10 + digit) × (0 < value) × (v ≤ high)) }
{
    if value == 0 || high < digit || (high - digit) / 10 < value {
        None
    } else {
        Some(value * 10 + digit)
    }
}

/// The bytes that are left. A clause sees the list of them.
#[derive(Drop)]
pub struct Cursor<'a> {
    left: &'a [u8],
}

impl<'a> Model for Cursor<'a> {
    ghost use Rattle.std.specs.List.{list_all};
    ghost use Rattle.std.specs.Prelude.{IsTrue, List, ℕ};

    ghost Value = { List ℕ };

    ghost view = { λ c. c.left.now };
}

impl<'a> Cursor<'a> {
    pub fn new(bytes: &'a [u8]) -> Cursor<'a>
        ensures { result ≡ bytes.now }
    {
        Cursor { left: bytes }
    }

    pub fn left(&self) -> &'a [u8]
        ensures { result.now ≡ self.now }
    {
        self.left
    }

    /// Goes on behind the next n bytes.
    pub fn advance(&mut self, n: usize)
        requires { n ≤ length self.old }
        ensures { self.new ≡ drop n self.old }
    {
        let (_, left) = self.left.split_at(n);
        self.left = left;
    }

    /// Whether the next byte is this one.
    pub fn is_at(&self, byte: u8) -> bool
        ensures { result ≡ reading.begins byte self.now }
    {
        match self.left.first() {
            Some(next) => *next == byte,
            None => false,
        }
    }

    /// The value of the next byte, if it is a digit.
    fn next_digit(&self) -> Option<u64>
        ensures { MatchOption result (Follows is_digit self.now) (λ d. (d < 10) × ((rest : List ℕ) × (self.now ≡ (48 + d) ∷ rest))) }
    {
        let byte = *self.left.first()?;
        if b'0' <= byte && byte <= b'9' {
            Some(u64::from(byte - b'0'))
        } else {
            None
        }
    }

    /// Takes this word.
    pub fn word(&mut self, word: &[u8]) -> Result<(), Stop>
        ensures { Reads (reading.word word.now) result self.old self.new }
    {
        let n = shared_length(word, self.left);
        self.advance(n);
        if n < word.len() {
            return Err(Stop::Refused);
        }
        Ok(())
    }

    /// Takes a name.
    pub fn name(&mut self, alloc: Global) -> Result<Text, Stop>
        ensures { Reads reading.name result self.old self.new }
    {
        let left = self.left();
        if !begins_with_letter(left) {
            return Err(Stop::Refused);
        }
        let n = run_length(left, NAME_LIMIT);
        self.advance(n);
        if begins_with_word_byte(self.left()) {
            return Err(Stop::Refused);
        }
        let (name, _) = left.split_at(n);
        Ok(Text::from_slice(alloc, name)?)
    }

    /// Takes the first digit of a number of this range.
    fn first_digit(&mut self, low: u64, high: u64) -> Result<u64, Stop>
        requires low { low ≤ 1 }
        requires high { low ≤ high }
        ensures { ReadsDigit low high result self.old self.new }
    {
        match self.next_digit() {
            Some(digit) if low <= digit && digit <= high => {
                self.advance(1);
                Ok(digit)
            }
            _ => Err(Stop::Refused),
        }
    }

    /// Takes a number of this range.
    pub fn number(&mut self, low: u64, high: u64) -> Result<u64, Stop>
        requires low { low ≤ 1 }
        requires high { low ≤ high }
        ensures { Reads (reading.number low high) result self.old self.new }
    {
        let mut value = self.first_digit(low, high)?;
        while let Some(digit) = self.next_digit() {
            match lengthened(value, digit, high) {
                Some(longer) => value = longer,
                None => return Err(Stop::Refused),
            }
            self.advance(1);
        }
        Ok(value)
    }

    /// Takes these words and a number of this range.
    pub fn count(&mut self, words: &[u8], low: u64, high: u64) -> Result<u64, Stop>
        requires low { low ≤ 1 }
        requires high { low ≤ high }
        ensures { Reads (reading.count words.now low high) result self.old self.new }
    {
        self.word(words)?;
        self.number(low, high)
    }

    /// Takes these words and a number from `low` to `high`.
    pub fn count_u8(&mut self, words: &[u8], low: u8, high: u8) -> Result<u8, Stop>
        requires low { low ≤ 1 }
        requires high { low ≤ high }
        ensures { Reads (reading.count words.now low high) result self.old self.new }
    {
        let n = self.count(words, u64::from(low), u64::from(high))?;
        Ok(n as u8)
    }

    /// Takes these words and a number from `low` to `high`.
    pub fn count_u32(&mut self, words: &[u8], low: u32, high: u32) -> Result<u32, Stop>
        requires low { low ≤ 1 }
        requires high { low ≤ high }
        ensures { Reads (reading.count words.now low high) result self.old self.new }
    {
        let n = self.count(words, u64::from(low), u64::from(high))?;
        Ok(n as u32)
    }
}
