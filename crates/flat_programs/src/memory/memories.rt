ghost use Rattle.std.specs.Prelude.{◌≡◌, ◌≤◌, ◌<◌, map, length, get_or, IfOk, []};
ghost use Rattle.ir_core.specs.Bodies.{address_of, is_within, with_element};
ghost use Rattle.ir_core.specs.FirstContents.{first_memories};
ghost use Rattle.hls_base.specs.ArrayAddress as layout;
ghost use Rattle.flat_programs.specs.Memory.Contents.{dims_in, dims_at, words_in, element_in};

use crate::memory::bank::Bank;
use hls_base::inputs::Inputs;
use hls_base::number::ArrayId;
use hls_base::words::Words;
use ir_core::cfg::Memory;
use std::alloc::{AllocError, Global};

/// The words of all memories of a program.
#[derive(Drop)]
pub struct Memories {
    banks: Vec<Bank>,
}

/// The elements that are given to the memory of this number.
fn given_to(arrays: &[Words], number: usize) -> &[u64]
    ensures { result.now ≡ get_or arrays.now number [] }
{
    match arrays.get(number) {
        Some(words) => words.items(),
        None => &[],
    }
}

impl Memories {
    /// The memories as a run begins with these inputs.
    pub fn new(alloc: Global, memories: &[Memory], inputs: &Inputs) -> Result<Memories, AllocError>
        ensures dims { IfOk result (λ m. dims_in m ≡ map (λ d. d.dims.items) memories.now) }
        ensures words { IfOk result (λ m. words_in m ≡ first_memories memories.now inputs.now.arrays) }
    {
        let arrays = inputs.arrays.items();
        let mut banks = Vec::new(alloc);
        for (number, memory) in memories.iter().enumerate() {
            banks.push(Bank::new(alloc, memory, given_to(arrays, number))?)?;
        }
        Ok(Memories { banks })
    }

    /// Whether each subscript is below the length of its dimension.
    pub fn is_in_range(&self, array: ArrayId, subscripts: &[u64]) -> bool
        ensures { result ≡ is_within (dims_at (dims_in self.now) array) subscripts.now }
    {
        let index = array.0 as usize;
        if index < self.banks.len() {
            self.banks[index].is_in_range(subscripts)
        } else {
            true
        }
    }

    pub fn load(&self, array: ArrayId, subscripts: &[u64]) -> u64
        ensures { result ≡
            words_in self.now array.0 (address_of (dims_at (dims_in self.now) array) subscripts.now) }
    {
        let index = array.0 as usize;
        if index < self.banks.len() {
            self.banks[index].load(subscripts)
        } else {
            0
        }
    }

    pub fn store(&mut self, array: ArrayId, subscripts: &[u64], word: u64)
        ensures dims { dims_in self.new ≡ dims_in self.old }
        ensures words { array.0 < length (dims_in self.old) → words_in self.new ≡ with_element array.0
            (address_of (dims_at (dims_in self.old) array) subscripts.now) word (words_in self.old) }
        ensures none { length (dims_in self.old) ≤ array.0 → self.new ≡ self.old }
    {
        let index = array.0 as usize;
        if index < self.banks.len() {
            self.banks[index].store(subscripts, word);
        }
    }

    /// The element of this number, counted row by row.
    pub fn element(&self, array: ArrayId, index: u32) -> u64
        ensures { index < length (layout.addresses (dims_at (dims_in self.now) array)) →
            result ≡ element_in self.now array index }
    {
        let number = array.0 as usize;
        if number < self.banks.len() {
            self.banks[number].element(index)
        } else {
            0
        }
    }
}
