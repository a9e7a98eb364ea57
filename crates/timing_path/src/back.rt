//! The way back from the wire whose value arrives last.
ghost use Rattle.std.specs.Prelude.{◌≡◌, ◌<◌, ◌-◌, ℕ, IfOk, length, slice_index};
ghost use Rattle.rtl_core.specs.Netlist.{netlist_of};
ghost use Rattle.rtl_core.specs.Valid.{IsValid};
ghost use Rattle.timing_path.specs.Paths.{IsWire, Names, net_of, delay_of};
ghost use Rattle.timing_path.specs.Arrivals.{AreTimes, IsLatest, IsLeastAt, LeadsBack, IsWayBack, Within, lesser};

use crate::delays::net_delay;
use crate::operands::operands;
use rtl_core::design::{Atom, Design, Net};
use std::alloc::{AllocError, Global};

/// The wire that an atom is, if its value arrives at this time.
fn atom_at(times: &[u128], atom: Atom, time: u128) -> Option<u64>
    requires { (j : ℕ) → IsWire atom j → j < length times.now }
    ensures { IsLeastAt (IsWire atom) times.now time result }
{
    match atom {
        Atom::Wire(k) if times[k as usize] == time => Some(k),
        _ => None,
    }
}

/// The lesser of two numbers that may be absent.
fn lesser(left: Option<u64>, right: Option<u64>) -> Option<u64>
    ensures { result ≡ lesser left right }
{
    match (left, right) {
        (Some(j), Some(k)) => Some(j.min(k)),
        (Some(j), None) => Some(j),
        (None, other) => other,
    }
}

/// The least wire that an expression names and whose value arrives at this time.
fn named_at(times: &[u128], net: Net, time: u128) -> Option<u64>
    requires { (j : ℕ) → Names net j → j < length times.now }
    ensures { IsLeastAt (Names net) times.now time result }
{
    let (a, b, c) = operands(net);
    lesser(
        atom_at(times, a, time),
        lesser(atom_at(times, b, time), atom_at(times, c, time)),
    )
}

/// The least wire whose value arrives at this time.
fn first_at(times: &[u128], time: u128) -> Option<u64>
    ensures { IsLeastAt (Within times.now) times.now time result }
{
    for (k, other) in times.iter().enumerate() {
        if *other == time {
            return Some(k as u64);
        }
    }
    None
}

/// The wire where the longest path ends, if it has a delay.
fn last_wire(times: &[u128], delay: u128) -> Option<u64>
    requires { IsLatest times.now delay }
    ensures { LeadsBack (Within times.now) times.now delay result }
{
    if delay == 0 {
        None
    } else {
        first_at(times, delay)
    }
}

/// The wire before this one on the longest path, if there is delay left.
fn wire_before(design: &Design, times: &[u128], wire: u64) -> Option<u64>
    requires valid { IsValid (netlist_of design.now) }
    requires count { length times.now ≡ length design.now.wires.items }
    requires times { AreTimes (netlist_of design.now) times.now }
    requires there { wire < length times.now }
    ensures { let d = netlist_of design.now in LeadsBack (Names (net_of d wire)) times.now (slice_index times.now wire - delay_of d wire) result }
{
    let net = design.wires[wire as usize].net;
    let left = times[wire as usize] - u128::from(net_delay(design, net));
    if left == 0 {
        None
    } else {
        named_at(times, net, left)
    }
}

/// The wires of the longest path, the last one first.
pub fn wires_back(
    alloc: Global,
    design: &Design,
    times: &[u128],
    delay: u128,
) -> Result<Vec<u64>, AllocError>
    requires valid { IsValid (netlist_of design.now) }
    requires count { length times.now ≡ length design.now.wires.items }
    requires times { AreTimes (netlist_of design.now) times.now }
    requires latest { IsLatest times.now delay }
    ensures { IfOk result (λ wires. IsWayBack (netlist_of design.now) times.now (Within times.now) delay wires.items) }
{
    let mut wires = Vec::new(alloc);
    let mut next = last_wire(times, delay);
    while let Some(wire) = next {
        wires.push(wire)?;
        next = wire_before(design, times, wire);
    }
    Ok(wires)
}
