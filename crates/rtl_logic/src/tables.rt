//! A word of a table, chosen by the bits of its address.
ghost use Rattle.std.specs.Prelude.{◌≡◌, ◌≤◌, ◌<◌, ◌+◌, ◌/◌, ◌^◌, ℕ, List, IfOk, length, map, get_or};
ghost use Rattle.std.specs.List.{All};
ghost use Rattle.rtl_core.specs.Netlist.{Netlist};
ghost use Rattle.rtl_core.specs.ClockStep.{widths};
ghost use Rattle.rtl_core.specs.Valid.{HasBits, IsBetween};
ghost use Rattle.rtl_logic.specs.Making.{circuit, IsSound, Makes};
ghost use Rattle.rtl_logic.specs.Levels.{no_atom, constant_of, Halves, IsLevel};

use crate::logic::Logic;
use crate::select::constant;
use rtl_core::design::Atom;
use std::alloc::{AllocError, Global};

fn constants(alloc: Global, bits: u8, words: &[u64]) -> Result<Vec<Atom>, AllocError>
    ensures few { length words.now < 2 ^ 64 }
    ensures level { IfOk result (λ level. level.items ≡ map (constant_of bits) words.now) }
{
    let mut level = Vec::with_capacity(alloc, words.len())?;
    for word in words {
        level.push(constant(bits, *word as u128))?;
    }
    Ok(level)
}

/// Picks one of each pair of neighbours.
fn picked(
    alloc: Global,
    logic: &mut Logic,
    test: Atom,
    level: &[Atom],
) -> Result<Vec<Atom>, AllocError>
    ensures { (n : ℕ) → IsSound (circuit logic.old) → IsBetween 1 128 n → HasBits (widths (circuit logic.old)) 1 test → All (HasBits (widths (circuit logic.old)) n) level.now
        → IfOk result (λ above. Halves (circuit logic.old) (circuit logic.new) n test level.now (length level.now / 2) above.items) }
{
    let mut above = Vec::with_capacity(alloc, level.len() / 2)?;
    for k in 0..level.len() / 2 {
        above.push(logic.pick(test, level[2 * k + 1], level[2 * k])?)?;
    }
    Ok(above)
}

/// One level more: the words that one more bit of the address leaves.
fn next_level(
    alloc: Global,
    logic: &mut Logic,
    addr: Atom,
    place: u8,
    level: &[Atom],
) -> Result<Vec<Atom>, AllocError>
    ensures { (d : Netlist) (depth bits : ℕ) (words : List ℕ) → IsBetween 1 64 bits → HasBits (widths d) depth addr → place < depth → depth ≤ 64
        → IsLevel d (circuit logic.old) depth bits addr words place level.now → IfOk result (λ above. IsLevel d (circuit logic.new) depth bits addr words (place + 1) above.items) }
{
    let test = logic.part(addr, place, place)?;
    picked(alloc, logic, test, level)
}

/// The words that all bits of the address leave.
fn chosen(
    alloc: Global,
    logic: &mut Logic,
    bits: u8,
    words: &[u64],
    addr: Atom,
) -> Result<Vec<Atom>, AllocError>
    ensures { (depth : ℕ) → IsSound (circuit logic.old) → IsBetween 1 64 bits → HasBits (widths (circuit logic.old)) depth addr → length words.now ≡ 2 ^ depth → All (λ w. w < 2 ^ bits) words.now
        → IfOk result (λ level. IsLevel (circuit logic.old) (circuit logic.new) depth bits addr words.now depth level.items) }
{
    let depth = logic.width(addr);
    let mut level = constants(alloc, bits, words)?;
    for place in 0..depth {
        level = next_level(alloc, logic, addr, place, &level)?;
    }
    Ok(level)
}

/// The first word, or 0.
fn first_word(bits: u8, level: &[Atom]) -> Atom
    ensures { 0 < length level.now → result ≡ get_or level.now 0 no_atom }
{
    if level.is_empty() {
        constant(bits, 0)
    } else {
        level[0]
    }
}

/// The word at an address of `depth` bits. There is a word for each address.
pub fn table_word(
    alloc: Global,
    logic: &mut Logic,
    bits: u8,
    words: &[u64],
    addr: Atom,
) -> Result<Atom, AllocError>
    ensures { (depth : ℕ) → IsSound (circuit logic.old) → IsBetween 1 64 bits → HasBits (widths (circuit logic.old)) depth addr → length words.now ≡ 2 ^ depth → All (λ w. w < 2 ^ bits) words.now
        → IfOk result (λ a. Makes (circuit logic.old) (circuit logic.new) bits a (λ v x. x ≡ get_or words.now (v addr) 0)) }
{
    let level = chosen(alloc, logic, bits, words, addr)?;
    Ok(first_word(bits, &level))
}
