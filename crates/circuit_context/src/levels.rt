//! Words of which one is chosen, bit by bit of its number.
ghost use Rattle.std.specs.Prelude.{◌≡◌, ℕ, Some, slice_get, IfOk};
ghost use Rattle.rtl_core.specs.ClockStep.{widths};
ghost use Rattle.rtl_core.specs.Netlist.{Netlist};
ghost use Rattle.rtl_core.specs.Valid.{HasBits};
ghost use Rattle.rtl_core.specs.declared.design.Atom.{Atom};
ghost use Rattle.rtl_logic.specs.Making.{circuit, IsSound, Makes};
ghost use Rattle.circuit_context.specs.Levels.{AreWords, IsWord, IsPicked, HalvesTo};

use rtl_core::design::Atom;
use rtl_logic::logic::Logic;
use rtl_logic::select::constant;
use std::alloc::{AllocError, Global};

/// The word at a place, if there is one.
fn word_at(level: &[Atom], place: usize) -> Option<Atom>
    ensures { result ≡ slice_get level.now place }
{
    level.get(place).copied()
}

/// The first word, or 0.
pub(crate) fn first_word(level: &[Atom]) -> Atom
    ensures first { (a : Atom) → slice_get level.now 0 ≡ Some a → result ≡ a }
    ensures fits { (d : Netlist) → AreWords d level.now → HasBits (widths d) 64 result }
{
    match word_at(level, 0) {
        Some(word) => word,
        None => constant(64, 0),
    }
}

/// The second of two words where the bit is 1, and else the first.
fn picked(
    logic: &mut Logic,
    test: Atom,
    first: Atom,
    second: Option<Atom>,
) -> Result<Atom, AllocError>
    ensures { IsSound (circuit logic.old) → HasBits (widths (circuit logic.old)) 1 test → IsWord (circuit logic.old) (Some first) → IsWord (circuit logic.old) second
        → IfOk result (λ a. Makes (circuit logic.old) (circuit logic.new) 64 a (IsPicked test (Some first) second)) }
{
    match second {
        Some(second) => logic.pick(test, second, first),
        None => Ok(first),
    }
}

/// The words that are left where a bit of their number is known.
pub(crate) fn halved(
    alloc: Global,
    logic: &mut Logic,
    test: Atom,
    level: &[Atom],
) -> Result<Vec<Atom>, AllocError>
    ensures { IsSound (circuit logic.old) → HasBits (widths (circuit logic.old)) 1 test → AreWords (circuit logic.old) level.now
        → IfOk result (λ half. HalvesTo (circuit logic.old) (circuit logic.new) test level.now half.items) }
{
    let mut half = Vec::new(alloc);
    for k in 0..level.len() / 2 + level.len() % 2 {
        let second = word_at(level, 2 * k + 1);
        half.push(picked(logic, test, level[2 * k], second)?)?;
    }
    Ok(half)
}
