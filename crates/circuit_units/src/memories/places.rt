//! The ports of arrays.
ghost use Rattle.std.specs.Prelude.{◌<◌, ◌^◌, ◌≡◌, ℕ, List, Some, true, length, slice_get};
ghost use Rattle.program_validity.specs.Frames.{is_memory};
ghost use Rattle.datapath.specs.Plans.{Plan, array_of};
ghost use Rattle.datapath.specs.Cycles.{Register};
ghost use Rattle.datapath.specs.Ports.{port_count};
ghost use Rattle.circuit_context.specs.Contexts.{IsContext};
ghost use Rattle.circuit_units.specs.Memories.Places.{IsPlace};

use circuit_context::context::Context;
use datapath::plan_sizes::sizes::depth_log;
use hls_base::number::ArrayId;
use ir_core::cfg::Memory;
use rtl_core::design::Atom;

/// A port of an array, with the bits of the array's words and of its addresses.
#[derive(Clone, Copy)]
pub struct Place {
    pub array: ArrayId,
    pub port: u32,
    pub bits: u8,
    pub depth: u8,
}

/// The host's access to a memory, or that of the first contents: the address and value where no operation is at the port, and when the value is written.
#[derive(Clone, Copy)]
pub struct Outside {
    pub addr: Atom,
    pub value: Atom,
    pub enable: Atom,
}

/// The number of an array.
pub fn number_of(place: usize) -> ArrayId
    requires { place < 2 ^ 32 }
    ensures { result.0 ≡ place }
{
    ArrayId(place as u32)
}

/// The first port of an array.
pub fn place_of(memory: &Memory, array: ArrayId) -> Place
    requires { is_memory memory.now ≡ true }
    ensures place { (p : Plan) → slice_get p.arrays array.0 ≡ Some (array_of memory.now) → IsPlace p result }
    ensures array { result.array ≡ array }
{
    Place {
        array,
        port: 0,
        bits: memory.bits,
        depth: depth_log(memory),
    }
}

/// How many ports an array has.
pub fn ports_of(of: &Context<'_>, array: ArrayId) -> u32
    requires { array.0 < length of.now.cfg.now.frame.memories.items }
    ensures { (p : Plan) (names : List Register) → IsContext p names of.now → result ≡ port_count p array.0 }
{
    of.ports.counts[array.0 as usize]
}
