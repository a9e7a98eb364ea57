//! The registers of the words that are read.
ghost use Rattle.std.specs.Prelude.{◌≡◌, ◌<◌, ◌^◌, ℕ, IfOk, OnOk, List, length, map};
ghost use Rattle.rtl_core.specs.declared.design.Atom.{Atom};
ghost use Rattle.rtl_logic.specs.Making.{circuit};
ghost use Rattle.datapath.specs.Plans.{Plan};
ghost use Rattle.datapath.specs.Cycles.{Register};
ghost use Rattle.datapath.specs.Ports.{is_reading};
ghost use Rattle.datapath.specs.CircuitWires.Carrying.{Tells};
ghost use Rattle.circuit_units.specs.Memories.Places.{IsReady, IsPlace, ReadsWord, AreReadings, SetsWord, SetsWords, reading_at};

use crate::memories::places::Place;
use crate::memories::ports::bits_of;
use circuit_context::context::Context;
use circuit_context::wanted::log::Groups;
use circuit_context::wanted::role::{Role, Target};
use rtl_core::design::Atom;
use rtl_logic::logic::Logic;
use rtl_logic::select::constant;
use std::alloc::{AllocError, Global};

/// The word at a port's address, and the bit that tells whether it is read.
#[derive(Clone, Copy)]
pub struct Reading {
    pub word: Atom,
    pub when: Atom,
}

/// The register of a port takes the word where it is read, or 0 for a load that is not to be.
pub fn set_word(
    of: &Context<'_>,
    logic: &mut Logic,
    groups: &Groups,
    place: Place,
    read: Reading,
) -> Result<(), AllocError>
    ensures { (p : Plan) (names : List Register) (address : Atom) → IsReady p names of.now groups.now (circuit logic.old) → IsPlace p place
        → ReadsWord p names (circuit logic.old) place.array.0 address read.word → Tells p names (circuit logic.old) read.when (λ c. is_reading p c place.array.0 place.port)
        → OnOk result (SetsWord p names (circuit logic.old) (circuit logic.new) place.array.0 place.port address) }
{
    let (array, port) = (place.array, place.port);
    let register = of.bank.register(Role::Word { array, port })?;
    let bits = bits_of(of.alloc, groups.choices(Target::Refused { array, port }))?;
    let refused = logic.any(of.alloc, &bits)?;
    let next = logic.pick(refused, constant(place.bits, 0), read.word)?;
    logic.set(register, read.when, next);
    Ok(())
}

/// The words at a memory's ports, which are read where this bit is 1.
pub fn readings(alloc: Global, words: &[Atom], when: Atom) -> Result<Vec<Reading>, AllocError>
    ensures { IfOk result (λ reads. reads.items ≡ map (reading_at when) words.now) }
{
    let mut reads = Vec::with_capacity(alloc, words.len())?;
    for word in words {
        reads.push(Reading { word: *word, when })?;
    }
    Ok(reads)
}

/// How many words there are, where they can be numbered.
fn counted(reads: &[Reading]) -> u32
    requires { length reads.now < 2 ^ 32 }
    ensures { result ≡ length reads.now }
{
    reads.len() as u32
}

/// The registers of all ports of a memory.
pub fn set_words(
    of: &Context<'_>,
    logic: &mut Logic,
    groups: &Groups,
    first: Place,
    reads: &[Reading],
) -> Result<(), AllocError>
    requires { length reads.now < 2 ^ 32 }
    ensures { (p : Plan) (names : List Register) (addresses : List Atom) → IsReady p names of.now groups.now (circuit logic.old) → IsPlace p first
        → AreReadings p names (circuit logic.old) first.array.0 addresses reads.now → length addresses ≡ length reads.now
        → OnOk result (SetsWords p names (circuit logic.old) (circuit logic.new) first.array.0 addresses) }
{
    for port in 0..counted(reads) {
        let place = Place { port, ..first };
        set_word(of, logic, groups, place, reads[port as usize])?;
    }
    Ok(())
}
