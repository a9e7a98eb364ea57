//! Whether the variables and memories of a program are valid.
ghost use Rattle.std.specs.Prelude.{◌≡◌, ◌&&◌, ◌-◌, ◌^◌, min, nat_le, nat_lt};
ghost use Rattle.std.specs.List.{list_all};
ghost use Rattle.hls_base.specs.ArrayAddress as address;
ghost use Rattle.program_validity.specs.Frames as spec;

use crate::widths::{are_widths, are_words, is_width, is_word};
use hls_base::number::{Kept, VarId};
use hls_base::words::Words;
use ir_core::address::subscript_bits;
use ir_core::cfg::{Frame, Memory};

fn are_variables(widths: &[u8], variables: &[VarId]) -> bool
    ensures { result ≡ spec.are_variables widths.now variables.now }
{
    for variable in variables {
        if variable.0 as usize >= widths.len() {
            return false;
        }
    }
    true
}

fn is_among(variable: VarId, variables: &[VarId]) -> bool
    ensures { result ≡ spec.is_among variable variables.now }
{
    for other in variables {
        if other.0 == variable.0 {
            return true;
        }
    }
    false
}

/// Each variable is looked for among those behind it; parameters are few.
fn are_different(variables: &[VarId]) -> bool
    ensures { result ≡ spec.are_different variables.now }
{
    for index in 0..variables.len() {
        if is_among(variables[index], &variables[index + 1..]) {
            return false;
        }
    }
    true
}

fn is_kept(frame: &Frame, kept: Kept) -> bool
    ensures { result ≡ spec.is_kept frame.now kept }
{
    let index = kept.variable.0 as usize;
    index < frame.variables.len()
        && is_word(frame.variables[index], kept.value)
        && !is_among(kept.variable, &frame.params)
}

fn is_kept_among(variable: VarId, kept: &[Kept]) -> bool
    ensures { result ≡ spec.is_kept_among variable kept.now }
{
    for other in kept {
        if other.variable.0 == variable.0 {
            return true;
        }
    }
    false
}

/// Each variable is looked for among those behind it; scalars of file scope are few.
fn keep_different(kept: &[Kept]) -> bool
    ensures { result ≡ spec.keep_different kept.now }
{
    for index in 0..kept.len() {
        if is_kept_among(kept[index].variable, &kept[index + 1..]) {
            return false;
        }
    }
    true
}

fn all_kept(frame: &Frame) -> bool
    ensures { result ≡ list_all (spec.is_kept frame.now) frame.now.kept.items }
{
    for kept in &frame.kept {
        if !is_kept(frame, *kept) {
            return false;
        }
    }
    true
}

fn are_kept(frame: &Frame) -> bool
    ensures { result ≡ spec.are_kept frame.now }
{
    all_kept(frame) && keep_different(&frame.kept)
}

fn are_lengths(dims: &[u32]) -> bool
    ensures { result ≡ list_all (λ len. nat_le 1 len && nat_le len 65536) dims.now }
{
    for length in dims {
        if *length < 1 || *length > 65536 {
            return false;
        }
    }
    true
}

/// Whether addresses have at most 16 bits.
fn are_addressed(dims: &[u32]) -> bool
    ensures { result ≡ nat_le (address.address_bits dims.now) 16 }
{
    let mut bits = 0;
    for length in dims {
        bits += subscript_bits(*length as usize);
        if bits > 16 {
            return false;
        }
    }
    true
}

fn are_dims(dims: &[u32]) -> bool
    ensures { result ≡ spec.are_dims dims.now }
{
    !dims.is_empty() && are_lengths(dims) && are_addressed(dims)
}

/// How many elements there are, or the greatest number.
fn element_count(dims: &[u32]) -> u64
    ensures { result ≡ min (address.element_count dims.now) (2 ^ 64 - 1) }
{
    let mut count: u64 = 1;
    for length in dims {
        count = count.saturating_mul(u64::from(*length));
    }
    count
}

fn are_elements(dims: &[u32], bits: u8, words: &[u64]) -> bool
    ensures { result ≡ spec.are_elements dims.now bits words.now }
{
    words.len() as u64 == element_count(dims) && are_words(bits, words)
}

fn are_elements_if(dims: &[u32], bits: u8, words: &Option<Words>) -> bool
    ensures { result ≡ spec.are_elements_if dims.now bits words.now }
{
    match words {
        Some(words) => are_elements(dims, bits, words.items()),
        None => true,
    }
}

fn has_one_origin(memory: &Memory) -> bool
    ensures { result ≡ spec.has_one_origin memory.now }
{
    let table = memory.table.is_some();
    let initial = memory.initial.is_some();
    !(memory.host && (table || initial)) && !(table && initial)
}

fn is_memory(memory: &Memory) -> bool
    ensures { result ≡ spec.is_memory memory.now }
{
    is_width(memory.bits)
        && are_dims(&memory.dims)
        && has_one_origin(memory)
        && are_elements_if(&memory.dims, memory.bits, &memory.table)
        && are_elements_if(&memory.dims, memory.bits, &memory.initial)
}

fn are_memories(memories: &[Memory]) -> bool
    ensures { result ≡ list_all spec.is_memory memories.now }
{
    for memory in memories {
        if !is_memory(memory) {
            return false;
        }
    }
    true
}

fn are_params(frame: &Frame) -> bool
    ensures { result ≡ spec.are_params frame.now }
{
    are_variables(&frame.variables, &frame.params) && are_different(&frame.params)
}

/// Whether there are fewer than 2^32.
pub fn are_few(count: usize) -> bool
    ensures { result ≡ nat_lt count (2 ^ 32) }
{
    count < 1 << 32
}

fn is_result_width(bits: u8) -> bool
    ensures { result ≡ spec.is_result_width bits }
{
    bits == 0 || is_width(bits)
}

/// Whether the variables and memories of a program are valid.
pub fn is_frame(frame: &Frame) -> bool
    ensures { result ≡ spec.is_frame frame.now }
{
    let few = are_few(frame.variables.len()) && are_few(frame.memories.len());
    let wide = are_widths(&frame.variables) && is_result_width(frame.ret);
    few && wide && are_params(frame) && are_kept(frame) && are_memories(&frame.memories)
}
