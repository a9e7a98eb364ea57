//! What reaches a memory from outside of a run: the host, or the first contents.
ghost use Rattle.std.specs.Prelude.{◌≡◌, ◌<◌, ◌%◌, ◌^◌, ◌&&◌, ◌==◌, nat_lt, ℕ, IfOk, List, Some, false, true, not, slice_get};
ghost use Rattle.std.specs.List.{All};
ghost use Rattle.program_validity.specs.Frames.{is_memory};
ghost use Rattle.rtl_core.specs.Interface.{enable_of, write_of, select_of, address_of, data_of};
ghost use Rattle.rtl_core.specs.Valid.{IsBetween};
ghost use Rattle.rtl_logic.specs.Making.{circuit};
ghost use Rattle.datapath.specs.Plans.{Plan, array_at, array_of, depth};
ghost use Rattle.datapath.specs.Cycles.{Register, Cycle, Ready, Time, holds, starts};
ghost use Rattle.datapath.specs.Control.{time_bits};
ghost use Rattle.datapath.specs.Ports.{host_writes};
ghost use Rattle.datapath.specs.CircuitWires.Carrying.{IsBegun, MakesCarrying, MakesTelling};
ghost use Rattle.circuit_context.specs.Contexts.{IsContext};
ghost use Rattle.circuit_units.specs.Memories.Places.{IsPlace, MakesOutside, MakesAccess};

use crate::memories::places::{Outside, Place};
use crate::memories::tables::words_of;
use circuit_context::context::Context;
use circuit_context::wanted::role::Role;
use datapath::plan_sizes::pins::{
    HOST_ADDRESS, HOST_DATA, HOST_ENABLE, HOST_SELECT, HOST_WRITE, START,
};
use hls_base::number::ArrayId;
use ir_core::cfg::Memory;
use rtl_core::design::Atom;
use rtl_logic::logic::Logic;
use rtl_logic::select::constant;
use rtl_logic::tables::table_word;
use std::alloc::AllocError;

/// Whether the host names the array, one of the first 32.
fn is_named(logic: &mut Logic, array: ArrayId) -> Result<Atom, AllocError>
    ensures { (p : Plan) (names : List Register) → IsBegun p names (circuit logic.old)
        → IfOk result (λ a. MakesTelling p names (circuit logic.old) (circuit logic.new) a (λ (c : Cycle). select_of c.pins == array.0)) }
{
    if array.0 >= 32 {
        return Ok(constant(1, 0));
    }
    logic.equal(HOST_SELECT, constant(5, array.0 as u128))
}

/// Whether the host's address has no more than these bits.
fn is_within(logic: &mut Logic, depth: u8) -> Result<Atom, AllocError>
    ensures { (p : Plan) (names : List Register) → IsBegun p names (circuit logic.old) → IsBetween 1 16 depth
        → IfOk result (λ a. MakesTelling p names (circuit logic.old) (circuit logic.new) a (λ (c : Cycle). nat_lt (address_of c.pins) (2 ^ depth))) }
{
    if depth >= 16 {
        return Ok(constant(1, 1));
    }
    let high = logic.part(HOST_ADDRESS, 15, depth)?;
    logic.equal(high, constant(16 - depth, 0))
}

/// Whether the circuit waits and is not started.
fn waits(of: &Context<'_>, logic: &mut Logic) -> Result<Atom, AllocError>
    ensures { (p : Plan) (names : List Register) → IsContext p names of.now → IsBegun p names (circuit logic.old)
        → IfOk result (λ a. MakesTelling p names (circuit logic.old) (circuit logic.new) a (λ (c : Cycle). holds c Ready && not (starts c))) }
{
    let ready = of.bank.register(Role::Ready)?;
    let no_start = logic.not(START)?;
    logic.and(ready, no_start)
}

/// Whether the host names an element of the array.
fn names_element(logic: &mut Logic, place: Place) -> Result<Atom, AllocError>
    ensures { (p : Plan) (names : List Register) → IsBegun p names (circuit logic.old) → IsBetween 1 16 place.depth
        → IfOk result (λ a. MakesTelling p names (circuit logic.old) (circuit logic.new) a (λ (c : Cycle). (select_of c.pins == place.array.0) && nat_lt (address_of c.pins) (2 ^ place.depth))) }
{
    let named = is_named(logic, place.array)?;
    let within = is_within(logic, place.depth)?;
    logic.and(named, within)
}

/// Whether the host writes.
fn writes(logic: &mut Logic) -> Result<Atom, AllocError>
    ensures { (p : Plan) (names : List Register) → IsBegun p names (circuit logic.old)
        → IfOk result (λ a. MakesTelling p names (circuit logic.old) (circuit logic.new) a (λ (c : Cycle). (enable_of c.pins == 1) && (write_of c.pins == 1))) }
{
    logic.and(HOST_ENABLE, HOST_WRITE)
}

/// Whether the host writes an element.
fn host_writes(of: &Context<'_>, logic: &mut Logic, place: Place) -> Result<Atom, AllocError>
    ensures { (p : Plan) (names : List Register) → IsContext p names of.now → IsBegun p names (circuit logic.old) → IsPlace p place
        → IfOk result (λ a. MakesTelling p names (circuit logic.old) (circuit logic.new) a (λ (c : Cycle). host_writes p c place.array.0)) }
{
    let waits = waits(of, logic)?;
    let writes = writes(logic)?;
    let named = names_element(logic, place)?;
    let written = logic.and(writes, named)?;
    logic.and(waits, written)
}

/// The host's access to a memory: it writes where the circuit is ready, not started, and the memory and an address within it are named.
fn host_access(of: &Context<'_>, logic: &mut Logic, place: Place) -> Result<Outside, AllocError>
    ensures { (p : Plan) (names : List Register) → IsContext p names of.now → IsBegun p names (circuit logic.old) → IsPlace p place → (array_at p place.array.0).host ≡ true
        → IfOk result (λ o. MakesOutside p names (circuit logic.old) (circuit logic.new) place.array.0 o) }
{
    let enable = host_writes(of, logic, place)?;
    let addr = logic.resized(HOST_ADDRESS, place.depth)?;
    let value = logic.resized(HOST_DATA, place.bits)?;
    Ok(Outside {
        addr,
        value,
        enable,
    })
}

/// The low bits of the time.
fn low_time(of: &Context<'_>, logic: &mut Logic, bits: u8) -> Result<Atom, AllocError>
    ensures { (p : Plan) (names : List Register) → IsContext p names of.now → IsBegun p names (circuit logic.old) → 0 < time_bits p → IsBetween 1 128 bits
        → IfOk result (λ a. MakesCarrying p names (circuit logic.old) (circuit logic.new) bits a (λ (c : Cycle). c.regs Time % 2 ^ bits)) }
{
    let time = of.bank.register(Role::Time)?;
    logic.resized(time, bits)
}

/// A memory takes its first contents in the initial sequence, one word in each cycle.
fn first_access(
    of: &Context<'_>,
    logic: &mut Logic,
    memory: &Memory,
    place: Place,
    elements: &[u64],
) -> Result<Outside, AllocError>
    requires { All (λ w. w < 2 ^ memory.now.bits) elements.now }
    ensures { (p : Plan) (names : List Register) → IsContext p names of.now → IsBegun p names (circuit logic.old) → IsPlace p place
        → slice_get p.arrays place.array.0 ≡ Some (array_of memory.now) → (array_at p place.array.0).host ≡ false → (array_at p place.array.0).first ≡ Some elements.now
        → IfOk result (λ o. MakesOutside p names (circuit logic.old) (circuit logic.new) place.array.0 o) }
{
    let enable = of.bank.register(Role::Initial)?;
    let addr = low_time(of, logic, place.depth)?;
    let words = words_of(of.alloc, memory, place, elements)?;
    let value = table_word(of.alloc, logic, place.bits, words.items(), addr)?;
    Ok(Outside {
        addr,
        value,
        enable,
    })
}

/// The access from outside that a memory has, if it has one.
pub fn outside_access(
    of: &Context<'_>,
    logic: &mut Logic,
    memory: &Memory,
    place: Place,
) -> Result<Option<Outside>, AllocError>
    requires { is_memory memory.now ≡ true }
    ensures { (p : Plan) (names : List Register) → IsContext p names of.now → IsBegun p names (circuit logic.old) → IsPlace p place
        → slice_get p.arrays place.array.0 ≡ Some (array_of memory.now)
        → IfOk result (λ o. MakesAccess p names (circuit logic.old) (circuit logic.new) place.array.0 o) }
{
    if memory.host {
        return Ok(Some(host_access(of, logic, place)?));
    }
    match &memory.initial {
        Some(elements) => {
            let access = first_access(of, logic, memory, place, elements.items())?;
            Ok(Some(access))
        }
        None => Ok(None),
    }
}
