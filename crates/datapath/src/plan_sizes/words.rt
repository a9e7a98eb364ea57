//! The words of a memory by their addresses.
ghost use Rattle.std.specs.Prelude.{◌≡◌, ◌≤◌, ◌<◌, ◌^◌, ℕ, IfOk, get_or, length, slice_set};
ghost use Rattle.hls_base.specs.ArrayAddress as address;
ghost use Rattle.ir_core.specs.AddressWords.{AreShort};
ghost use Rattle.ir_core.specs.FirstContents.{given_at};
ghost use Rattle.flat_programs.specs.Memory.Filling.{filled};

use hls_base::words::Words;
use ir_core::address::addresses;
use ir_core::cfg::Memory;
use std::alloc::{AllocError, Global};

fn lengths_of(alloc: Global, dims: &[u32]) -> Result<Vec<usize>, AllocError>
    ensures { IfOk result (λ v. v.items ≡ dims.now) }
{
    let mut lengths = Vec::with_capacity(alloc, dims.len())?;
    for length in dims {
        lengths.push(*length as usize)?;
    }
    Ok(lengths)
}

/// Puts a word at an address, if there is such a place.
fn set_word(words: &mut [u64], address: u64, word: u64)
    ensures { words.new ≡ slice_set words.old address word }
{
    let index = address as usize;
    if index < words.len() {
        words[index] = word;
    }
}

/// Puts elements at their places.
fn fill(words: &mut [u64], places: &[u64], elements: &[u64])
    ensures { words.new ≡ filled places.now elements.now words.old }
{
    for (index, word) in elements.iter().enumerate() {
        if index < places.len() {
            set_word(words, places[index], *word);
        }
    }
}

/// The words by their addresses, 0 where no element is.
pub fn words_by_address(
    alloc: Global,
    memory: &Memory,
    elements: &[u64],
    bits: u8,
) -> Result<Words, AllocError>
    ensures count { bits < 64 → IfOk result (λ words. length words ≡ 2 ^ bits) }
    ensures words { bits < 64 → AreShort memory.now.dims.items → address.address_bits memory.now.dims.items ≤ bits →
        IfOk result (λ words. (place : ℕ) → get_or words place 0 ≡ given_at (address.addresses memory.now.dims.items) elements.now place 0) }
{
    let lengths = lengths_of(alloc, &memory.dims)?;
    let places = addresses(alloc, &lengths)?;
    let depth = 1usize.checked_shl(bits as u32).unwrap_or(0);
    let mut words = vec![in alloc; 0u64; depth]?;
    fill(&mut words, &places, elements);
    Ok(Words::new(words))
}
