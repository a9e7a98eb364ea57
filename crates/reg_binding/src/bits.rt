//! Numbers as bits of words.
ghost use Rattle.std.specs.Prelude.{◌≡◌, ◌≢◌, ◌==◌, ◌*◌, ◌<◌, ◌||◌, ◌&&◌, ◌/◌, not, ℕ, true, false, length, get_or, bit_or, replicate, IfOk};
ghost use Rattle.reg_binding.specs.Sets as spec;

use std::alloc::{AllocError, Global};

/// So many words without bits.
pub fn empty_words(alloc: Global, count: usize) -> Result<Vec<u64>, AllocError>
    ensures count { IfOk result (λ words. length words.items ≡ count) }
    ensures bits { IfOk result (λ words. (n : ℕ) → n / 64 < count → spec.has_bit words.items n ≡ false) }
{
    vec![in alloc; 0u64; count]
}

pub fn has_bit(words: &[u64], number: u32) -> bool
    ensures { result ≡ spec.has_bit words.now number }
{
    let index = (number / 64) as usize;
    if index < words.len() {
        (words[index] >> (number % 64)) & 1 == 1
    } else {
        false
    }
}

pub fn set_bit(words: &mut Vec<u64>, number: u32)
    ensures count { length words.new.items ≡ length words.old.items }
    ensures bits { (n : ℕ) → n < 64 * length words.old.items → spec.has_bit words.new.items n ≡ (spec.has_bit words.old.items n || (number == n)) }
{
    let index = (number / 64) as usize;
    if index < words.len() {
        words[index] |= 1u64 << (number % 64);
    }
}

pub fn clear_bit(words: &mut Vec<u64>, number: u32)
    ensures count { length words.new.items ≡ length words.old.items }
    ensures bits { (n : ℕ) → n < 64 * length words.old.items → spec.has_bit words.new.items n ≡ (spec.has_bit words.old.items n && not (number == n)) }
{
    let index = (number / 64) as usize;
    if index < words.len() {
        words[index] &= !(1u64 << (number % 64));
    }
}

/// Adds the bits of another word to the word at this place, and tells whether they are more than before.
fn add_word(words: &mut Vec<u64>, place: usize, other: u64) -> bool
    requires { place < length words.old.items }
    ensures count { length words.new.items ≡ length words.old.items }
    ensures here { get_or words.new.items place 0 ≡ bit_or (get_or words.old.items place 0) other }
    ensures others { (k : ℕ) → k ≢ place → get_or words.new.items k 0 ≡ get_or words.old.items k 0 }
    ensures same { result ≡ false → words.new ≡ words.old }
    ensures fewer { result ≡ true → spec.free_bits words.new.items < spec.free_bits words.old.items }
{
    let joined = words[place] | other;
    if joined <= words[place] {
        return false;
    }
    words[place] = joined;
    true
}

/// Adds the bits of other words, and tells whether they are more than before.
pub fn add_bits(words: &mut Vec<u64>, others: &[u64]) -> bool
    ensures count { length words.new.items ≡ length words.old.items }
    ensures bits { (n : ℕ) → n < 64 * length words.old.items → spec.has_bit words.new.items n ≡ (spec.has_bit words.old.items n || spec.has_bit others.now n) }
    ensures same { result ≡ false → words.new ≡ words.old }
    ensures fewer { result ≡ true → spec.free_bits words.new.items < spec.free_bits words.old.items }
{
    let mut more = false;
    for index in 0..words.len() {
        if index < others.len() && add_word(words, index, others[index]) {
            more = true;
        }
    }
    more
}
