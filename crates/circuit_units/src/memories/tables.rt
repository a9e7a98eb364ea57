//! Tables of constants, and the first contents of memories.
ghost use Rattle.std.specs.Prelude.{◌≡◌, ◌<◌, ◌^◌, ℕ, IfOk, List, None, Some, length, slice_get, is_some};
ghost use Rattle.std.specs.List.{All};
ghost use Rattle.ir_core.specs.FirstContents.{elements_or_none};
ghost use Rattle.rtl_logic.specs.Making.{circuit};
ghost use Rattle.datapath.specs.Plans.{Plan, array_at, array_of};
ghost use Rattle.datapath.specs.Cycles.{Register};
ghost use Rattle.datapath.specs.Ports.{port_count};
ghost use Rattle.circuit_units.specs.Memories.Places.{IsReady, IsPlace, IsInside, AreWordsOf, MakesTablePort, MakesTablePorts};

use crate::memories::memories::PortWires;
use crate::memories::places::{Place, ports_of};
use crate::memories::ports::chosen;
use crate::memories::words::{Reading, set_word};
use circuit_context::context::Context;
use circuit_context::wanted::log::Groups;
use circuit_context::wanted::role::Target;
use datapath::plan_sizes::words::words_by_address;
use hls_base::words::Words;
use ir_core::cfg::Memory;
use rtl_logic::logic::Logic;
use rtl_logic::select::constant;
use rtl_logic::tables::table_word;
use std::alloc::{AllocError, Global};

/// The words of an array by their addresses.
pub fn words_of(
    alloc: Global,
    memory: &Memory,
    place: Place,
    elements: &[u64],
) -> Result<Words, AllocError>
    requires { All (λ w. w < 2 ^ memory.now.bits) elements.now }
    ensures { (p : Plan) → IsPlace p place → slice_get p.arrays place.array.0 ≡ Some (array_of memory.now) → IfOk result (λ words. AreWordsOf p place.array.0 elements.now words) }
{
    words_by_address(alloc, memory, elements, place.depth)
}

/// A port of a table, at which nothing is stored.
fn table_port(
    of: &Context<'_>,
    logic: &mut Logic,
    groups: &Groups,
    place: Place,
    words: &[u64],
) -> Result<PortWires, AllocError>
    ensures { (p : Plan) (names : List Register) (elements : List ℕ) → IsReady p names of.now groups.now (circuit logic.old) → IsPlace p place → IsInside p place.array.0 place.port
        → (array_at p place.array.0).table ≡ Some elements → AreWordsOf p place.array.0 elements words.now
        → IfOk result (λ wires. MakesTablePort p names (circuit logic.old) (circuit logic.new) place.array.0 place.port wires) }
{
    let (array, port) = (place.array, place.port);
    let addresses = groups.choices(Target::Address { array, port });
    let address = chosen(of.alloc, logic, place.depth, addresses, None)?;
    let word = table_word(of.alloc, logic, place.bits, words, address)?;
    let when = constant(1, 1);
    set_word(of, logic, groups, place, Reading { word, when })?;
    let stored = constant(place.bits, 0);
    Ok(PortWires { address, stored })
}

/// All ports of a table.
pub fn table_ports(
    of: &Context<'_>,
    logic: &mut Logic,
    groups: &Groups,
    first: Place,
    words: &[u64],
) -> Result<Vec<PortWires>, AllocError>
    requires { first.array.0 < length of.now.cfg.now.frame.memories.items }
    ensures ports { (p : Plan) (names : List Register) (elements : List ℕ) → IsReady p names of.now groups.now (circuit logic.old) → IsPlace p first → ((n : ℕ) → IsInside p first.array.0 n)
        → (array_at p first.array.0).table ≡ Some elements → AreWordsOf p first.array.0 elements words.now
        → IfOk result (λ wires. MakesTablePorts p names (circuit logic.old) (circuit logic.new) first.array.0 wires.items) }
    ensures count { (p : Plan) (names : List Register) → IsReady p names of.now groups.now (circuit logic.old)
        → IfOk result (λ wires. length wires.items ≡ port_count p first.array.0) }
{
    let mut wires = Vec::new(of.alloc);
    for port in 0..ports_of(of, first.array) {
        let place = Place { port, ..first };
        wires.push(table_port(of, logic, groups, place, words)?)?;
    }
    Ok(wires)
}
