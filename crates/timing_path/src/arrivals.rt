//! When the values of wires arrive: the greatest delay of a path that ends at each.
ghost use Rattle.std.specs.Prelude.{◌≡◌, ◌<◌, ℕ, IfOk, length, max};
ghost use Rattle.rtl_core.specs.Netlist.{netlist_of};
ghost use Rattle.rtl_core.specs.Valid.{IsValid};
ghost use Rattle.timing_path.specs.Paths.{IsWire, Names};
ghost use Rattle.timing_path.specs.Arrivals.{atom_time, net_time, AreTimes, IsLatest};

use crate::delays::net_delay;
use crate::operands::operands;
use rtl_core::design::{Atom, Design, Net};
use std::alloc::{AllocError, Global};

/// When the value of an atom arrives.
fn atom_time(times: &[u128], atom: Atom) -> u128
    requires { (j : ℕ) → IsWire atom j → j < length times.now }
    ensures { result ≡ atom_time times.now atom }
{
    match atom {
        Atom::Constant { .. } | Atom::Input(_) | Atom::Reg(_) => 0,
        Atom::Wire(k) => times[k as usize],
    }
}

/// When all that an expression reads has arrived.
fn net_time(times: &[u128], net: Net) -> u128
    requires { (j : ℕ) → Names net j → j < length times.now }
    ensures { result ≡ net_time times.now net }
{
    let (a, b, c) = operands(net);
    max(
        atom_time(times, a),
        max(atom_time(times, b), atom_time(times, c)),
    )
}

/// The later of two times.
fn max(left: u128, right: u128) -> u128
    ensures { result ≡ max left right }
{
    if left < right { right } else { left }
}

/// When the value of each wire arrives.
pub fn arrivals(alloc: Global, design: &Design) -> Result<Vec<u128>, AllocError>
    requires valid { IsValid (netlist_of design.now) }
    ensures count { IfOk result (λ times. length times.items ≡ length design.now.wires.items) }
    ensures times { IfOk result (λ times. AreTimes (netlist_of design.now) times.items) }
{
    let mut times = Vec::with_capacity(alloc, design.wires.len())?;
    for wire in &design.wires {
        let time = net_time(&times, wire.net) + u128::from(net_delay(design, wire.net));
        times.push(time)?;
    }
    Ok(times)
}

/// The last of the times, 0 if there is none.
pub fn latest(times: &[u128]) -> u128
    ensures { IsLatest times.now result }
{
    let mut latest = 0;
    for time in times {
        if latest < *time {
            latest = *time;
        }
    }
    latest
}
