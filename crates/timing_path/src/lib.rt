//! The longest path of a circuit, by the delays of its wires. Called by the command `timing`.
#![tactic(auto)]

mod arrivals;
mod back;
mod delays;
pub mod laws;
mod operands;
#[cfg(test)]
mod tests;

ghost use Rattle.std.specs.Prelude.{IfOk};
ghost use Rattle.rtl_core.specs.Netlist.{netlist_of};
ghost use Rattle.rtl_core.specs.Valid.{IsValid};
ghost use Rattle.timing_path.specs.Paths.{IsLongest};

use crate::arrivals::{arrivals, latest};
use crate::back::wires_back;
use rtl_core::design::Design;
use std::alloc::{AllocError, Global};

/// A path of a circuit, and the sum of the delays of its wires.
#[derive(Drop)]
pub struct LongPath {
    pub delay: u128,
    /// The numbers of the wires, the first one first.
    pub wires: Vec<u64>,
}

/// The longest path of a valid circuit. It begins with a wire that has a delay; of several such paths it is the least when they are read from the back.
pub fn longest(alloc: Global, design: &Design) -> Result<LongPath, AllocError>
    requires valid { IsValid (netlist_of design.now) }
    ensures { IfOk result (λ path. IsLongest (netlist_of design.now) path.delay path.wires.items) }
{
    let times = arrivals(alloc, design)?;
    let delay = latest(&times);
    let mut wires = wires_back(alloc, design, &times, delay)?;
    wires.reverse();
    Ok(LongPath { delay, wires })
}
