//! The variables, and the lines in which the last values of operations stand.
ghost use Rattle.std.specs.Prelude.{◌≡◌, ◌≢◌, ◌+◌, ◌-◌, ◌<◌, ◌≤◌, ◌^◌, ℕ, min, length, get_or, slice_get, slice_set, Some};
ghost use Rattle.clock_machine.specs.Lines.Registers as spec;

use crate::lines::program::{Line, Read};
use crate::lines::words::{set_word, word_at};

/// `words` has the values of all lines, and `heads` the place in each line at which the next one goes.
#[derive(Drop)]
pub struct Registers {
    pub variables: Vec<u64>,
    pub words: Vec<u64>,
    pub heads: Vec<usize>,
}

/// The place in a line of the value that came so many values before the last one.
fn place_back(length: usize, head: usize, back: usize) -> usize
    ensures { head < length → back < length → result ≡ spec.place_back length head back }
{
    if back < head {
        head.saturating_sub(back).saturating_sub(1)
    } else {
        length.saturating_sub(back - head).saturating_sub(1)
    }
}

/// The place behind the head of a line, which is a ring.
fn head_behind(length: usize, head: usize) -> usize
    ensures { result ≡ spec.head_behind length head }
{
    let next = head.saturating_add(1);
    if next < length { next } else { 0 }
}

fn set_head(heads: &mut [usize], number: usize, head: usize)
    ensures { heads.new ≡ slice_set heads.old number head }
{
    if number < heads.len() {
        heads[number] = head;
    }
}

/// No line ends behind this.
pub fn extent(lines: &[Line]) -> usize
    ensures { (k : ℕ) (line : Line) → slice_get lines.now k ≡ Some line →
        min (line.first + line.length) (2 ^ 64 - 1) ≤ result }
{
    let mut most = 0usize;
    for line in lines {
        most = most.max(line.first.saturating_add(line.length));
    }
    most
}

fn zero_words(words: &mut [u64], count: usize)
    ensures { (i : ℕ) → i < count → get_or words.new i 0 ≡ 0 }
{
    for index in 0..count.min(words.len()) {
        words[index] = 0;
    }
}

fn zero_numbers(numbers: &mut [usize], count: usize)
    ensures { (i : ℕ) → i < count → get_or numbers.new i 0 ≡ 0 }
{
    for index in 0..count.min(numbers.len()) {
        numbers[index] = 0;
    }
}

impl Registers {
    fn head(&self, line: usize) -> usize
        ensures { result ≡ get_or self.now.heads.items line 0 }
    {
        if line < self.heads.len() {
            self.heads[line]
        } else {
            0
        }
    }

    fn value(&self, line: Line, number: usize, back: usize) -> u64
        ensures { spec.IsWithin self.now line number back → result ≡
            spec.value_back self.now.words.items line (get_or self.now.heads.items number 0) back }
    {
        let place = place_back(line.length, self.head(number), back);
        word_at(&self.words, line.first.saturating_add(place))
    }

    pub fn read(&self, lines: &[Line], read: Read) -> u64
        ensures { spec.ReadIsWithin self.now lines.now read → result ≡ spec.word_read self.now lines.now read }
    {
        match read {
            Read::Constant(word) => word,
            Read::Variable(variable) => word_at(&self.variables, variable),
            Read::Value { line, back } => {
                if line < lines.len() {
                    self.value(lines[line], line, back)
                } else {
                    0
                }
            }
        }
    }

    /// Puts a value into the line of an operation.
    pub fn push(&mut self, lines: &[Line], number: usize, word: u64)
        ensures last { (line : Line) → spec.IsLine self.old lines.now number line →
            spec.value_in self.new (Some line) number 0 ≡ word }
        ensures earlier { (line : Line) (back : ℕ) → spec.IsLine self.old lines.now number line → back + 1 < line.length →
            spec.value_in self.new (Some line) number (back + 1) ≡ spec.value_in self.old (Some line) number back }
        ensures others { (line other : Line) (k back : ℕ) → spec.IsLine self.old lines.now number line →
            k ≢ number → spec.AreApart line other → spec.IsWithin self.old other k back →
            spec.value_in self.new (Some other) k back ≡ spec.value_in self.old (Some other) k back }
        ensures lines { (line other : Line) (k : ℕ) → spec.IsLine self.old lines.now number line →
            spec.IsLine self.old lines.now k other → spec.IsLine self.new lines.now k other }
        ensures sizes { spec.SameSizes self.old self.new }
        ensures variables { self.new.variables ≡ self.old.variables }
    {
        if number < lines.len() {
            let line = lines[number];
            let head = self.head(number);
            set_word(&mut self.words, line.first.saturating_add(head), word);
            set_head(&mut self.heads, number, head_behind(line.length, head));
        }
    }

    /// All values in these lines are 0.
    pub fn reset(&mut self, lines: &[Line])
        ensures zero { (k back : ℕ) (line : Line) → slice_get lines.now k ≡ Some line →
            line.first + line.length < 2 ^ 64 → k < length lines.now → back < line.length →
            spec.value_in self.new (Some line) k back ≡ 0 }
        ensures heads { (k : ℕ) → k < length lines.now → get_or self.new.heads.items k 0 ≡ 0 }
        ensures sizes { spec.SameSizes self.old self.new }
        ensures variables { self.new.variables ≡ self.old.variables }
    {
        zero_words(&mut self.words, extent(lines));
        zero_numbers(&mut self.heads, lines.len());
    }
}
