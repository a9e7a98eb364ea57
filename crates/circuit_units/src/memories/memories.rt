//! The memories and tables.
ghost use Rattle.std.specs.Prelude.{◌≡◌, ◌<◌, ◌∷◌, [], ℕ, List, IfOk, OnOk, None, Some, true, length, map, slice_get};
ghost use Rattle.program_validity.specs.Frames.{is_memory};
ghost use Rattle.rtl_units.specs.Fragments.{grown, memory_with, port_wires, wires_from};
ghost use Rattle.rtl_logic.specs.Making.{circuit};
ghost use Rattle.datapath.specs.Plans.{Plan, array_at, array_of};
ghost use Rattle.datapath.specs.Cycles.{Register};
ghost use Rattle.datapath.specs.Netlists.{memory_of};
ghost use Rattle.datapath.specs.Ports.{is_reading};
ghost use Rattle.datapath.specs.CircuitWires.Carrying.{IsBegun, MakesTelling};
ghost use Rattle.circuit_context.specs.declared.wanted.log.Push.{Push};
ghost use Rattle.circuit_context.specs.declared.wanted.role.Target.{Target};
ghost use Rattle.circuit_context.specs.Wanted.Roles.{given, choices_of};
ghost use Rattle.circuit_context.specs.Wanted.Entries.{all_demands};
ghost use Rattle.circuit_context.specs.Wanted.Logs.{ArePushes};
ghost use Rattle.circuit_context.specs.Wanted.Driving.{AreDistinct};
ghost use Rattle.circuit_context.specs.Contexts.{IsContext};
ghost use Rattle.circuit_units.specs.Memories.{AddsMemories};
ghost use Rattle.circuit_units.specs.Memories.Places.{IsReady, IsPlace, AddsArray, TellsOnly, enable_of_only, wires_at};

use crate::memories::outside::outside_access;
use crate::memories::places::{Place, number_of, place_of};
use crate::memories::ports::make_ports;
use crate::memories::tables::{table_ports, words_of};
use crate::memories::words::{readings, set_words};
use circuit_context::context::Context;
use circuit_context::wanted::log::Groups;
use hls_base::number::ArrayId;
use ir_core::cfg::Memory;
use rtl_core::design::{Atom, Port};
use rtl_logic::logic::Logic;
use rtl_logic::select::constant;
use rtl_units::builder::{Fragment, Pins};
use std::alloc::{AllocError, Global};

/// The address and the stored word at a port.
#[derive(Clone, Copy)]
pub struct PortWires {
    pub address: Atom,
    pub stored: Atom,
}

/// The ports of each array.
#[derive(Drop)]
pub struct PortTable {
    pub ports: Vec<Vec<PortWires>>,
}

/// The address and value of each port.
fn wires_of(alloc: Global, ports: &[Port]) -> Result<Vec<PortWires>, AllocError>
    ensures { IfOk result (λ wires. wires.items ≡ map wires_at ports.now) }
{
    let mut wires = Vec::with_capacity(alloc, ports.len())?;
    for port in ports {
        wires.push(PortWires {
            address: port.addr,
            stored: port.value,
        })?;
    }
    Ok(wires)
}

/// Appends a memory with these ports, and gives the word at each port's address.
fn append_memory(
    alloc: Global,
    logic: &mut Logic,
    place: Place,
    ports: Vec<Port>,
) -> Result<Pins, AllocError>
    ensures grown { OnOk result (circuit logic.new ≡ grown (circuit logic.old) [] (memory_with place.bits place.depth ports.items ∷ []) (port_wires (length (circuit logic.old).mems) place.bits ports.items)) }
    ensures words { IfOk result (λ pins. pins.atoms.items ≡ wires_from (length (circuit logic.old).wires) (length ports.items)) }
{
    let fragment = Fragment::Store {
        bits: place.bits,
        depth_log: place.depth,
        ports,
    };
    logic.builder.add(alloc, fragment)
}

/// The bit that tells whether a port writes, of a memory with no other one.
fn only_enable(ports: &[Port]) -> Option<Atom>
    ensures { result ≡ enable_of_only ports.now }
{
    if ports.len() == 1 {
        Some(ports[0].enable)
    } else {
        None
    }
}

/// The bit that tells whether the words of a memory are read: not where its only port writes.
fn read_bit(logic: &mut Logic, enable: Option<Atom>) -> Result<Atom, AllocError>
    ensures { (p : Plan) (names : List Register) (a : ℕ) → IsBegun p names (circuit logic.old) → TellsOnly p names (circuit logic.old) a enable
        → IfOk result (λ when. MakesTelling p names (circuit logic.old) (circuit logic.new) when (λ c. is_reading p c a 0)) }
{
    match enable {
        Some(enable) => logic.not(enable),
        None => Ok(constant(1, 1)),
    }
}

/// Adds a memory.
fn add_memory(
    of: &Context<'_>,
    logic: &mut Logic,
    groups: &Groups,
    memory: &Memory,
    first: Place,
) -> Result<Vec<PortWires>, AllocError>
    requires there { first.array.0 < length of.now.cfg.now.frame.memories.items }
    requires valid { is_memory memory.now ≡ true }
    ensures { (p : Plan) (names : List Register) → IsReady p names of.now groups.now (circuit logic.old) → IsPlace p first
        → slice_get p.arrays first.array.0 ≡ Some (array_of memory.now) → (array_at p first.array.0).table ≡ None → length (circuit logic.old).mems ≡ memory_of p first.array.0
        → IfOk result (λ wires. AddsArray p names (circuit logic.old) (circuit logic.new) first.array.0 wires.items) }
{
    let outside = outside_access(of, logic, memory, first)?;
    let ports = make_ports(of, logic, groups, first, outside)?;
    let wires = wires_of(of.alloc, &ports)?;
    let enable = only_enable(&ports);
    let pins = append_memory(of.alloc, logic, first, ports)?;
    let when = read_bit(logic, enable)?;
    let reads = readings(of.alloc, &pins.atoms, when)?;
    set_words(of, logic, groups, first, &reads)?;
    Ok(wires)
}

/// Adds a table with these words.
fn add_table(
    of: &Context<'_>,
    logic: &mut Logic,
    groups: &Groups,
    memory: &Memory,
    first: Place,
    elements: &[u64],
) -> Result<Vec<PortWires>, AllocError>
    requires there { first.array.0 < length of.now.cfg.now.frame.memories.items }
    requires valid { is_memory memory.now ≡ true }
    requires table { memory.now.table ≡ Some elements.now }
    ensures { (p : Plan) (names : List Register) → IsReady p names of.now groups.now (circuit logic.old) → IsPlace p first
        → slice_get p.arrays first.array.0 ≡ Some (array_of memory.now) → length (circuit logic.old).mems ≡ memory_of p first.array.0
        → IfOk result (λ wires. AddsArray p names (circuit logic.old) (circuit logic.new) first.array.0 wires.items) }
{
    let words = words_of(of.alloc, memory, first, elements)?;
    table_ports(of, logic, groups, first, words.items())
}

/// Adds an array.
fn add_array(
    of: &Context<'_>,
    logic: &mut Logic,
    groups: &Groups,
    array: ArrayId,
) -> Result<Vec<PortWires>, AllocError>
    requires { array.0 < length of.now.cfg.now.frame.memories.items }
    ensures { (p : Plan) (names : List Register) → IsReady p names of.now groups.now (circuit logic.old) → length (circuit logic.old).mems ≡ memory_of p array.0
        → IfOk result (λ wires. AddsArray p names (circuit logic.old) (circuit logic.new) array.0 wires.items) }
{
    let memory = &of.cfg.frame.memories[array.0 as usize];
    let first = place_of(memory, array);
    match &memory.table {
        Some(elements) => add_table(of, logic, groups, memory, first, elements.items()),
        None => add_memory(of, logic, groups, memory, first),
    }
}

/// Adds all memories and tables, with what is wanted of their ports. There are none yet.
pub fn add_memories(
    of: &Context<'_>,
    logic: &mut Logic,
    groups: &Groups,
) -> Result<PortTable, AllocError>
    ensures { (p : Plan) (names : List Register) (pushes : List Push) → IsContext p names of.now → IsBegun p names (circuit logic.old) → AreDistinct names
        → (circuit logic.old).mems ≡ [] → ArePushes p names (circuit logic.old) pushes (all_demands p) → ((t : Target) → given groups.now t ≡ choices_of t pushes)
        → IfOk result (λ table. AddsMemories p names (circuit logic.old) (circuit logic.new) table) }
{
    let count = of.cfg.frame.memories.len();
    let mut ports = Vec::with_capacity(of.alloc, count)?;
    for place in 0..count {
        let array = number_of(place);
        ports.push(add_array(of, logic, groups, array)?)?;
    }
    Ok(PortTable { ports })
}
