//! The words of one memory, by address.
ghost use Rattle.std.specs.Prelude.{◌≡◌, ◌≤◌, ◌<◌, ◌+◌, ◌*◌, ◌^◌, ◌%◌, ℕ, map, get_or, slice_set, length, vec_len, IfOk, if◌then◌else◌, []};
ghost use Rattle.hls_base.specs.ArrayAddress as layout;
ghost use Rattle.ir_core.specs.Bodies.{address_of, is_within, with_word};
ghost use Rattle.ir_core.specs.FirstContents.{first_word, elements_or_none};
ghost use Rattle.flat_programs.specs.Memory.Filling.{filled};

use hls_base::refusal::impossible;
use hls_base::words::Words;
use ir_core::address::{address_bits, addresses, are_short, subscript_bits};
use ir_core::cfg::Memory;
use std::alloc::{AllocError, Global};

/// A memory, with the length of each dimension, the bits of each subscript, and the address of each element.
#[derive(Drop)]
pub struct Bank {
    lengths: Vec<usize>,
    bits: Vec<u32>,
    places: Vec<u64>,
    words: Vec<u64>,
    ghost rounded: { bits.items ≡ map layout.subscript_bits lengths.items },
    ghost small: { layout.address_bits lengths.items ≤ 32 },
    ghost placed: { places.items ≡ layout.addresses lengths.items },
    ghost whole: { vec_len words ≡ 2 ^ layout.address_bits lengths.items },
}

fn word_at(words: &[u64], index: usize) -> u64
    ensures { result ≡ get_or words.now index 0 }
{
    if index < words.len() { words[index] } else { 0 }
}

fn set_word(words: &mut [u64], index: usize, word: u64)
    ensures { words.new ≡ slice_set words.old index word }
{
    if index < words.len() {
        words[index] = word;
    }
}

fn low_bits(word: u64, bits: u32) -> u64
    requires { bits ≤ 16 }
    ensures { result ≡ word % 2 ^ bits }
{
    word & ((1u64 << bits) - 1)
}

/// A number with so many bits more.
fn joined(high: u64, low: u64, bits: u32) -> u64
    requires few { bits ≤ 16 }
    requires fits { high * 2 ^ bits + low < 2 ^ 64 }
    ensures { result ≡ high * 2 ^ bits + low }
{
    high * (1u64 << bits) + low
}

/// The address at these subscripts, of which the low bits count.
fn address_at(lengths: &[usize], bits: &[u32], subscripts: &[u64]) -> u64
    requires rounded { bits.now ≡ map layout.subscript_bits lengths.now }
    requires small { layout.address_bits lengths.now ≤ 32 }
    ensures { result ≡ address_of lengths.now subscripts.now }
{
    let mut address = 0u64;
    for (index, own) in bits.iter().enumerate() {
        let low = low_bits(word_at(subscripts, index), *own);
        address = joined(address, low, *own);
    }
    address
}

/// Whether each subscript is below the length of its dimension.
fn are_within(lengths: &[usize], subscripts: &[u64]) -> bool
    ensures { result ≡ is_within lengths.now subscripts.now }
{
    for (index, length) in lengths.iter().enumerate() {
        if index < subscripts.len() && subscripts[index] >= *length as u64 {
            return false;
        }
    }
    true
}

/// Puts elements at their places.
fn fill(words: &mut [u64], places: &[u64], elements: &[u64])
    ensures { words.new ≡ filled places.now elements.now words.old }
{
    for (index, word) in elements.iter().enumerate() {
        if index < places.len() {
            set_word(words, places[index] as usize, *word);
        }
    }
}

fn lengths_of(alloc: Global, dims: &[u32]) -> Result<Vec<usize>, AllocError>
    ensures { IfOk result (λ v. v.items ≡ dims.now) }
{
    let mut lengths = Vec::new(alloc);
    for length in dims {
        lengths.push(*length as usize)?;
    }
    Ok(lengths)
}

fn bits_of(alloc: Global, lengths: &[usize]) -> Result<Vec<u32>, AllocError>
    ensures { IfOk result (λ v. v.items ≡ map layout.subscript_bits lengths.now) }
{
    let mut bits = Vec::new(alloc);
    for length in lengths {
        bits.push(subscript_bits(*length))?;
    }
    Ok(bits)
}

/// Puts elements at their places, where there are any.
fn fill_known(words: &mut [u64], places: &[u64], elements: &Option<Words>)
    ensures { words.new ≡ filled places.now (elements_or_none elements.now) words.old }
{
    if let Some(elements) = elements {
        fill(words, places, elements.items());
    }
}

/// Puts elements at their places, where the host reaches them.
fn fill_given(words: &mut [u64], places: &[u64], host: bool, elements: &[u64])
    ensures { words.new ≡ filled places.now (if host then elements.now else []) words.old }
{
    if host {
        fill(words, places, elements);
    }
}

/// Puts all first contents of a memory at their places.
fn fill_all(words: &mut [u64], places: &[u64], memory: &Memory, given: &[u64])
    ensures { words.new ≡ filled places.now (if memory.now.host then given.now else [])
        (filled places.now (elements_or_none memory.now.initial)
        (filled places.now (elements_or_none memory.now.table) words.old)) }
{
    fill_known(words, places, &memory.table);
    fill_known(words, places, &memory.initial);
    fill_given(words, places, memory.host, given);
}

impl Bank {
    /// A memory as a run begins, where the host gives these elements.
    pub fn new(alloc: Global, memory: &Memory, given: &[u64]) -> Result<Bank, AllocError>
        ensures lengths { IfOk result (λ b. b.lengths.items ≡ memory.now.dims.items) }
        ensures words { IfOk result (λ b. (address : ℕ) →
            get_or b.words.items address 0 ≡ first_word memory.now given.now address) }
    {
        let lengths = lengths_of(alloc, &memory.dims)?;
        let depth = address_bits(&lengths);
        if depth > 32 || !are_short(&lengths) {
            return Err(impossible());
        }
        let bits = bits_of(alloc, &lengths)?;
        let places = addresses(alloc, &lengths)?;
        let mut words = vec![in alloc; 0u64; 1usize << depth]?;
        fill_all(&mut words, &places, memory, given);
        Ok(Bank {
            lengths,
            bits,
            places,
            words,
        })
    }

    pub fn is_in_range(&self, subscripts: &[u64]) -> bool
        ensures { result ≡ is_within self.now.lengths.items subscripts.now }
    {
        are_within(&self.lengths, subscripts)
    }

    pub fn load(&self, subscripts: &[u64]) -> u64
        ensures { result ≡ get_or self.now.words.items (address_of self.now.lengths.items subscripts.now) 0 }
    {
        let address = address_at(&self.lengths, &self.bits, subscripts);
        word_at(&self.words, address as usize)
    }

    pub fn store(&mut self, subscripts: &[u64], word: u64)
        ensures lengths { self.new.lengths.items ≡ self.old.lengths.items }
        ensures words { (address : ℕ) → get_or self.new.words.items address 0 ≡
            with_word (λ a. get_or self.old.words.items a 0)
            (address_of self.old.lengths.items subscripts.now) word address }
    {
        let address = address_at(&self.lengths, &self.bits, subscripts);
        set_word(&mut self.words, address as usize, word);
    }

    /// The element of this number, counted row by row.
    pub fn element(&self, index: u32) -> u64
        ensures { index < length (layout.addresses self.now.lengths.items) → result ≡
            get_or self.now.words.items (get_or (layout.addresses self.now.lengths.items) index 0) 0 }
    {
        let address = word_at(&self.places, index as usize);
        word_at(&self.words, address as usize)
    }
}
