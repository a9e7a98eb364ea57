//! The ports of memories.
ghost use Rattle.std.specs.Prelude.{◌≡◌, ◌<◌, ◌^◌, ◌&&◌, ◌||◌, ℕ, Bool, IfOk, List, Option, length, map, not};
ghost use Rattle.rtl_core.specs.Netlist.{Netlist};
ghost use Rattle.rtl_core.specs.Valid.{IsBetween};
ghost use Rattle.rtl_logic.specs.declared.select.Choice.{Choice};
ghost use Rattle.rtl_logic.specs.Making.{circuit};
ghost use Rattle.rtl_logic.specs.Choosing.{Write, is_any_wanted};
ghost use Rattle.datapath.specs.Plans.{Plan, array_at, depth};
ghost use Rattle.datapath.specs.Cycles.{Register, Cycle, resets};
ghost use Rattle.datapath.specs.Ports.{port_count, outside_address, outside_word, outside_writes};
ghost use Rattle.datapath.specs.CircuitWires.Carrying.{IsBegun, MakesTelling};
ghost use Rattle.circuit_units.specs.Memories.Places.{IsReady, IsPlace, AreChoices, IsOtherValue, TellsIfAny, MakesWanted, IsAccess, MakesPort, MakesPorts};

use crate::memories::places::{Outside, Place, ports_of};
use circuit_context::context::Context;
use circuit_context::wanted::log::Groups;
use circuit_context::wanted::role::Target;
use datapath::plan_sizes::pins::RESET;
use rtl_core::design::{Atom, Port};
use rtl_logic::logic::Logic;
use rtl_logic::select::Choice;
use std::alloc::{AllocError, Global};

/// The bits that say when the values are wanted.
pub fn bits_of(alloc: Global, choices: &[Choice]) -> Result<Vec<Atom>, AllocError>
    ensures { IfOk result (λ bits. bits.items ≡ map (λ (c : Choice). c.when) choices.now) }
{
    let mut bits = Vec::with_capacity(alloc, choices.len())?;
    for choice in choices {
        bits.push(choice.when)?;
    }
    Ok(bits)
}

/// The value that is wanted, else the other one, if there is one.
pub fn chosen(
    alloc: Global,
    logic: &mut Logic,
    bits: u8,
    choices: &[Choice],
    other: Option<Atom>,
) -> Result<Atom, AllocError>
    ensures { (p : Plan) (names : List Register) (writes : Cycle → List Write) (value : Cycle → Option ℕ) → IsBegun p names (circuit logic.old) → IsBetween 1 128 bits
        → AreChoices p names (circuit logic.old) bits choices.now writes → IsOtherValue p names (circuit logic.old) bits other value
        → IfOk result (λ a. MakesWanted p names (circuit logic.old) (circuit logic.new) bits a writes value) }
{
    match other {
        Some(other) => logic.selected_or(alloc, choices, other),
        None => logic.selected(alloc, bits, choices),
    }
}

/// Whether a value is written, which none is under reset.
fn enabled(
    alloc: Global,
    logic: &mut Logic,
    choices: &[Choice],
    outside: Option<Atom>,
) -> Result<Atom, AllocError>
    ensures { (p : Plan) (names : List Register) (bits : ℕ) (writes : Cycle → List Write) (other : Cycle → Bool) → IsBegun p names (circuit logic.old)
        → AreChoices p names (circuit logic.old) bits choices.now writes → TellsIfAny p names (circuit logic.old) outside other
        → IfOk result (λ a. MakesTelling p names (circuit logic.old) (circuit logic.new) a (λ c. (is_any_wanted (writes c) || other c) && not (resets c))) }
{
    let mut bits = bits_of(alloc, choices)?;
    if let Some(enable) = outside {
        bits.push(enable)?;
    }
    let enable = logic.any(alloc, &bits)?;
    let no_reset = logic.not(RESET)?;
    logic.and(enable, no_reset)
}

fn address_outside(outside: Option<Outside>) -> Option<Atom>
    ensures { (p : Plan) (names : List Register) (d : Netlist) (a n : ℕ) → IsAccess p names d a n outside → IsOtherValue p names d (depth p a) result (λ c. outside_address p c a n) }
{
    match outside {
        Some(access) => Some(access.addr),
        None => None,
    }
}

fn value_outside(outside: Option<Outside>) -> Option<Atom>
    ensures { (p : Plan) (names : List Register) (d : Netlist) (a n : ℕ) → IsAccess p names d a n outside → IsOtherValue p names d (array_at p a).bits result (λ c. outside_word p c a n) }
{
    match outside {
        Some(access) => Some(access.value),
        None => None,
    }
}

fn enable_outside(outside: Option<Outside>) -> Option<Atom>
    ensures { (p : Plan) (names : List Register) (d : Netlist) (a n : ℕ) → IsAccess p names d a n outside → TellsIfAny p names d result (λ c. outside_writes p c a n) }
{
    match outside {
        Some(access) => Some(access.enable),
        None => None,
    }
}

/// A port with the address and value that are wanted there.
fn make_port(
    of: &Context<'_>,
    logic: &mut Logic,
    groups: &Groups,
    place: Place,
    outside: Option<Outside>,
) -> Result<Port, AllocError>
    ensures { (p : Plan) (names : List Register) → IsReady p names of.now groups.now (circuit logic.old) → IsPlace p place
        → IsAccess p names (circuit logic.old) place.array.0 place.port outside
        → IfOk result (λ port. MakesPort p names (circuit logic.old) (circuit logic.new) place.array.0 place.port port) }
{
    let (array, port) = (place.array, place.port);
    let addresses = groups.choices(Target::Address { array, port });
    let values = groups.choices(Target::Stored { array, port });
    let addr = chosen(
        of.alloc,
        logic,
        place.depth,
        addresses,
        address_outside(outside),
    )?;
    let value = chosen(of.alloc, logic, place.bits, values, value_outside(outside))?;
    let enable = enabled(of.alloc, logic, values, enable_outside(outside))?;
    Ok(Port {
        addr,
        enable,
        value,
    })
}

/// The access from outside at a port: only the first port has one.
fn access_at(outside: Option<Outside>, port: u32) -> Option<Outside>
    ensures { (p : Plan) (names : List Register) (d : Netlist) (a : ℕ) → IsAccess p names d a 0 outside → IsAccess p names d a port result }
{
    if port == 0 { outside } else { None }
}

/// All ports of a memory.
pub fn make_ports(
    of: &Context<'_>,
    logic: &mut Logic,
    groups: &Groups,
    first: Place,
    outside: Option<Outside>,
) -> Result<Vec<Port>, AllocError>
    requires { first.array.0 < length of.now.cfg.now.frame.memories.items }
    ensures ports { (p : Plan) (names : List Register) → IsReady p names of.now groups.now (circuit logic.old) → IsPlace p first → IsAccess p names (circuit logic.old) first.array.0 0 outside
        → IfOk result (λ ports. MakesPorts p names (circuit logic.old) (circuit logic.new) first.array.0 ports.items) }
    ensures count { (p : Plan) (names : List Register) → IsReady p names of.now groups.now (circuit logic.old)
        → IfOk result (λ ports. length ports.items ≡ port_count p first.array.0) }
    ensures numbered { IfOk result (λ ports. length ports.items < 2 ^ 32) }
{
    let mut ports = Vec::new(of.alloc);
    for port in 0..ports_of(of, first.array) {
        let place = Place { port, ..first };
        ports.push(make_port(of, logic, groups, place, access_at(outside, port))?)?;
    }
    Ok(ports)
}
