//! The places of the results of operations, and the registers that hold them.
ghost use Rattle.std.specs.Prelude.{◌≡◌, ◌++◌, ◌∷◌, [], List, IfOk, OnOk};
ghost use Rattle.reg_binding.specs.declared.registers.Held.{Held};
ghost use Rattle.datapath.specs.Held.{IsHeldBy, holds_one};
ghost use Rattle.datapath.specs.Tables.{ArePlaces, HaveRegisters, AreShared};

use hls_base::number::{NodeId, OpId};
use hls_base::refusal::impossible;
use indexmap::IndexMap;
use reg_binding::registers::Held;
use std::alloc::{AllocError, Global};

/// A place of the chain of results of an operation.
#[derive(Clone, Copy, PartialEq, Eq, Hash)]
struct Place {
    node: NodeId,
    op: OpId,
    place: u32,
}

/// A register that holds places of a node.
#[derive(Clone, Copy, PartialEq, Eq, Hash)]
struct Holder {
    node: NodeId,
    register: u64,
}

/// The register of each place, and whether a register holds more than one place of a node.
#[derive(Drop)]
pub struct Places {
    registers: IndexMap<Place, u64>,
    shared: IndexMap<Holder, bool>,
}

/// The places that these rows tell of.
pub fn places_of(alloc: Global, held: &[Held]) -> Result<Places, AllocError>
    ensures { IfOk result (λ places. ArePlaces held.now places) }
{
    let mut places = Places {
        registers: IndexMap::new(alloc),
        shared: IndexMap::new(alloc),
    };
    for row in held {
        note_place(&mut places.registers, *row)?;
        note_holder(&mut places.shared, *row)?;
    }
    Ok(places)
}

/// The register of the row's place, unless a row before tells of this place.
fn note_place(registers: &mut IndexMap<Place, u64>, row: Held) -> Result<(), AllocError>
    ensures { (held : List Held) → HaveRegisters held registers.old.entries → OnOk result (HaveRegisters (held ++ row ∷ []) registers.new.entries) }
{
    let place = Place {
        node: row.node,
        op: row.op,
        place: row.place,
    };
    if registers.contains_key(&place) {
        return Ok(());
    }
    registers.insert(place, row.register)?;
    Ok(())
}

/// One place more for the row's register.
fn note_holder(shared: &mut IndexMap<Holder, bool>, row: Held) -> Result<(), AllocError>
    ensures { (held : List Held) → AreShared held shared.old.entries → OnOk result (AreShared (held ++ row ∷ []) shared.new.entries) }
{
    let holder = Holder {
        node: row.node,
        register: row.register,
    };
    let is_shared = shared.contains_key(&holder);
    shared.insert(holder, is_shared)?;
    Ok(())
}

impl Places {
    /// The number of the register that holds a place.
    pub fn register(&self, node: NodeId, op: OpId, place: u32) -> Result<u64, AllocError>
        ensures { (held : List Held) → ArePlaces held self.now → IfOk result (λ r. IsHeldBy held node.0 op.0 place r) }
    {
        match self.registers.get(&Place { node, op, place }) {
            Some(register) => Ok(*register),
            None => Err(impossible()),
        }
    }

    /// Whether the register holds no other place of the node.
    pub fn is_alone(&self, node: NodeId, register: u64) -> Result<bool, AllocError>
        ensures { (held : List Held) → ArePlaces held self.now → IfOk result (λ r. r ≡ holds_one held node.0 register) }
    {
        match self.shared.get(&Holder { node, register }) {
            Some(is_shared) => Ok(!*is_shared),
            None => Ok(true),
        }
    }
}
