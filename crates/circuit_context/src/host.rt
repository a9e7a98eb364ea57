//! The word that the host reads, and which array it named.
ghost use Rattle.std.specs.Prelude.{◌≡◌, ◌<◌, ◌≤◌, ◌+◌, ◌%◌, ◌^◌, ◌∷◌, [], ℕ, List, IfOk, OnOk, length};
ghost use Rattle.rtl_core.specs.Interface.{select_of};
ghost use Rattle.rtl_core.specs.Netlist.{Netlist};
ghost use Rattle.rtl_core.specs.Valid.{IsBetween};
ghost use Rattle.rtl_logic.specs.Making.{circuit};
ghost use Rattle.datapath.specs.Plans.{Plan};
ghost use Rattle.datapath.specs.Cycles.{Register, Named, Word, Cycle};
ghost use Rattle.datapath.specs.Circuits.{width};
ghost use Rattle.datapath.specs.CircuitWires.Carrying.{IsBegun, Carries, MakesCarrying};
ghost use Rattle.circuit_context.specs.declared.wanted.role.Role.TheVariants as role;
ghost use Rattle.circuit_context.specs.Wanted.Entries.{named_entries, always_entry};
ghost use Rattle.circuit_context.specs.Wanted.Logs.{Logs};
ghost use Rattle.circuit_context.specs.Contexts.{IsContext};
ghost use Rattle.circuit_context.specs.Elements.{MakesElement};
ghost use Rattle.circuit_context.specs.Levels.{MakesWords, MakesLevel};

use crate::context::Context;
use crate::levels::{first_word, halved};
use crate::wanted::log::Log;
use crate::wanted::role::{Role, Target};
use datapath::plan_sizes::pins::HOST_SELECT;
use datapath::plan_sizes::sizes::{bits_of, host_memories};
use hls_base::number::ArrayId;
use rtl_core::design::Atom;
use rtl_logic::logic::Logic;
use rtl_logic::select::constant;
use std::alloc::AllocError;

/// The word that port 0 of an array took last, in 64 bits.
fn word(of: &Context<'_>, logic: &mut Logic, array: u32) -> Result<Atom, AllocError>
    requires { array < length of.now.cfg.now.frame.memories.items }
    ensures { (p : Plan) (names : List Register) → IsContext p names of.now → IsBegun p names (circuit logic.old)
        → IfOk result (λ a. MakesCarrying p names (circuit logic.old) (circuit logic.new) 64 a (λ (c : Cycle). c.regs (Word array 0))) }
{
    let register = of.register(Role::Word {
        array: ArrayId(array),
        port: 0,
    })?;
    logic.resized(register, 64)
}

/// The words of the first so many arrays.
fn words(of: &Context<'_>, logic: &mut Logic, count: u32) -> Result<Vec<Atom>, AllocError>
    requires { count ≤ length of.now.cfg.now.frame.memories.items }
    ensures { (p : Plan) (names : List Register) → IsContext p names of.now → IsBegun p names (circuit logic.old)
        → IfOk result (λ level. MakesWords p names (circuit logic.old) (circuit logic.new) count level.items) }
{
    let mut level = Vec::new(of.alloc);
    for array in 0..count {
        level.push(word(of, logic, array)?)?;
    }
    Ok(level)
}

/// The words that are left where one more bit of the number that the host named is known.
fn with_bit(
    of: &Context<'_>,
    logic: &mut Logic,
    named: Atom,
    bit: u8,
    level: &[Atom],
) -> Result<Vec<Atom>, AllocError>
    ensures { (p : Plan) (names : List Register) (d : Netlist) (n : ℕ) → Carries p names (circuit logic.old) n named (λ (c : Cycle). c.regs Named)
        → bit < n → n ≤ 128 → MakesLevel p names d (circuit logic.old) bit level.now
        → IfOk result (λ half. MakesLevel p names d (circuit logic.new) (bit + 1) half.items) }
{
    let test = logic.part(named, bit, bit)?;
    halved(of.alloc, logic, test, level)
}

/// The words that are left where the number that the host named is known.
fn chosen(of: &Context<'_>, logic: &mut Logic, words: Vec<Atom>) -> Result<Vec<Atom>, AllocError>
    ensures { (p : Plan) (names : List Register) (d : Netlist) → IsContext p names of.now → MakesLevel p names d (circuit logic.old) 0 words.items
        → IfOk result (λ left. MakesLevel p names d (circuit logic.new) (width p Named) left.items) }
{
    let named = of.register(Role::Named)?;
    let mut level = words;
    for bit in 0..logic.width(named) {
        level = with_bit(of, logic, named, bit, &level)?;
    }
    Ok(level)
}

/// As many as can be numbered.
fn counted(count: usize) -> u32
    requires { count < 2 ^ 32 }
    ensures { result ≡ count }
{
    count as u32
}

/// What the host reads: the word that port 0 of the array named in the cycle before has taken.
pub fn element(of: &Context<'_>, logic: &mut Logic) -> Result<Atom, AllocError>
    ensures { (p : Plan) (names : List Register) → IsContext p names of.now → IsBegun p names (circuit logic.old)
        → IfOk result (λ a. MakesElement p names (circuit logic.old) (circuit logic.new) a) }
{
    let count = counted(host_memories(of.cfg));
    let words = words(of, logic, count)?;
    if count < 2 {
        return Ok(first_word(&words));
    }
    let left = chosen(of, logic, words)?;
    Ok(first_word(&left))
}

/// The low bits of the number that the host names.
fn selected(logic: &mut Logic, bits: u8) -> Result<Atom, AllocError>
    requires { IsBetween 1 64 bits }
    ensures { (p : Plan) (names : List Register) → IsBegun p names (circuit logic.old)
        → IfOk result (λ a. MakesCarrying p names (circuit logic.old) (circuit logic.new) bits a (λ (c : Cycle). select_of c.pins % 2 ^ bits)) }
{
    logic.resized(HOST_SELECT, bits)
}

/// Notes what the register takes in each cycle.
fn write_always(of: &Context<'_>, log: &mut Log, value: Atom) -> Result<(), AllocError>
    ensures { (p : Plan) (names : List Register) (d : Netlist) (taken : Cycle → ℕ) → IsContext p names of.now → IsBegun p names d
        → Carries p names d (width p Named) value taken
        → OnOk result (Logs p names d d log.old.pushes.items log.new.pushes.items (always_entry role.Named taken ∷ [])) }
{
    let _register = of.register(Role::Named)?;
    log.push(Target::Register(Role::Named), constant(1, 1), value)
}

/// The array that the host names, where it reaches more than one.
pub fn write_named(of: &Context<'_>, logic: &mut Logic, log: &mut Log) -> Result<(), AllocError>
    ensures { (p : Plan) (names : List Register) → IsContext p names of.now → IsBegun p names (circuit logic.old)
        → OnOk result (Logs p names (circuit logic.old) (circuit logic.new) log.old.pushes.items log.new.pushes.items (named_entries p)) }
{
    let count = host_memories(of.cfg);
    if count < 2 {
        return Ok(());
    }
    let value = selected(logic, bits_of(count as u64 - 1))?;
    write_always(of, log, value)
}
