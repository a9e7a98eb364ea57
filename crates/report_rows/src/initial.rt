//! The initial sequence after a reset.
ghost use Rattle.std.specs.Prelude.{◌≡◌, ◌<◌, ◌≤◌, ◌^◌};
ghost use Rattle.std.specs.List.{All};
ghost use Rattle.hls_base.specs.ArrayAddress.{subscript_bits, address_bits};
ghost use Rattle.report_rows.specs.Initial.{initial_cycles, filling, AreAddressed};

use ir_core::cfg::{Frame, Memory};

/// The powers of two that a subscript may need a further bit for.
const POWERS: [u32; 15] = [
    2, 4, 8, 16, 32, 64, 128, 256, 512, 1024, 2048, 4096, 8192, 16384, 32768,
];

/// The bits of a subscript of a dimension: enough for its length rounded up to a power of two, and at least one.
fn subscript_bits(length: u32) -> u32
    ensures value { result ≡ subscript_bits length }
    ensures small { result ≤ 16 }
{
    let powers = &POWERS;
    let mut bits = 1;
    for power in powers {
        if *power < length {
            bits += 1;
        }
    }
    bits
}

/// The bits of a memory's addresses.
fn address_bits(dims: &[u32]) -> u32
    ensures { address_bits dims.now < 32 → result ≡ address_bits dims.now }
{
    let mut bits: u32 = 0;
    for length in dims {
        bits = bits.saturating_add(subscript_bits(*length));
    }
    bits
}

/// The cycles in which a memory is filled: one for each of its addresses, where it has first contents.
fn filling(memory: &Memory) -> u32
    ensures { address_bits memory.now.dims.items < 32 → result ≡ filling memory.now }
{
    if memory.initial.is_none() {
        return 0;
    }
    2u32.checked_pow(address_bits(&memory.dims))
        .unwrap_or(u32::MAX)
}

/// How long the initial sequence takes: one cycle for each word of the largest array of file scope that is not const, and at least one where such an array or scalar is there.
pub fn initial_cycles(frame: &Frame) -> u32
    ensures { AreAddressed frame.now.memories.items → result ≡ initial_cycles frame.now }
{
    let mut cycles: u32 = if frame.kept.is_empty() { 0 } else { 1 };
    for memory in &frame.memories {
        cycles = cycles.max(filling(memory));
    }
    cycles
}
