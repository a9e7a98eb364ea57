//! Where the elements of an array stand in its memory.
ghost use Rattle.std.specs.Prelude.{◌≡◌, ◌≤◌, ◌<◌, ◌%◌, ◌^◌, ◌+◌, ◌-◌, true, map, nat_lt, IfOk, OnOk, ◌++◌, if◌then◌else◌};
ghost use Rattle.hls_base.specs.ArrayAddress as address;
ghost use Rattle.ir_core.specs.AddressWords.{in_words, rows_at, AreShort};

use std::alloc::{AllocError, Global};

/// One where the power is below the length.
fn above(length: usize, power: usize) -> u32
    ensures value { result ≡ (if nat_lt power length then 1 else 0) }
    ensures bound { result ≤ 1 }
{
    u32::from(power < length)
}

/// The bits of a subscript of a dimension of 1 to 65,536: at least one.
pub fn subscript_bits(length: usize) -> u32
    ensures value { result ≡ address.subscript_bits length }
    ensures bound { result ≤ 16 }
{
    1 + above(length, 2)
        + above(length, 4)
        + above(length, 8)
        + above(length, 16)
        + above(length, 32)
        + above(length, 64)
        + above(length, 128)
        + above(length, 256)
        + above(length, 512)
        + above(length, 1024)
        + above(length, 2048)
        + above(length, 4096)
        + above(length, 8192)
        + above(length, 16384)
        + above(length, 32768)
}

/// How far apart the rows of an array stand whose rows have these dimensions, modulo 2^64.
fn row_size(lengths: &[usize]) -> u64
    ensures { result ≡ (2 ^ address.address_bits lengths.now) % 2 ^ 64 }
{
    match lengths.split_first() {
        None => 1,
        Some((length, inner)) => {
            let own: u64 = 1 << subscript_bits(*length);
            own.wrapping_mul(row_size(inner))
        }
    }
}

/// Adds the addresses of a row that begins at this one.
fn add_row(all: &mut Vec<u64>, start: u64, row: &[u64]) -> Result<(), AllocError>
    ensures { OnOk result (all.new.items ≡ all.old.items ++ map (λ low. (start + low) % 2 ^ 64) row.now) }
{
    for low in row {
        all.push(start.wrapping_add(*low))?;
    }
    Ok(())
}

/// The addresses of so many rows, which stand so far apart.
fn rows(alloc: Global, length: usize, size: u64, row: &[u64]) -> Result<Vec<u64>, AllocError>
    ensures { IfOk result (λ v. v.items ≡ rows_at 0 size row.now length) }
{
    let mut all = Vec::new(alloc);
    let mut start: u64 = 0;
    for _ in 0..length {
        add_row(&mut all, start, row)?;
        start = start.wrapping_add(size);
    }
    Ok(all)
}

/// The addresses of all elements, row by row, each modulo 2^64.
pub fn addresses(alloc: Global, lengths: &[usize]) -> Result<Vec<u64>, AllocError>
    ensures { IfOk result (λ v. v.items ≡ in_words (address.addresses lengths.now)) }
{
    match lengths.split_first() {
        None => vec![in alloc; 0; 1],
        Some((length, inner)) => {
            let row = addresses(alloc, inner)?;
            rows(alloc, *length, row_size(inner), &row)
        }
    }
}

/// The bits of the addresses of an array with dimensions of these lengths.
pub fn address_bits(lengths: &[usize]) -> u32
    ensures { result < 2 ^ 32 - 1 → result ≡ address.address_bits lengths.now }
{
    let mut bits: u32 = 0;
    for length in lengths {
        bits = bits.saturating_add(subscript_bits(*length));
    }
    bits
}

/// Whether each dimension has at most 65,536 places.
pub fn are_short(lengths: &[usize]) -> bool
    ensures { result ≡ true → AreShort lengths.now }
{
    for length in lengths {
        if *length > 65536 {
            return false;
        }
    }
    true
}
