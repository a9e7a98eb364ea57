//! The wires, registers and ports of a part, renamed for its place in a larger circuit. Called by `linking`.
ghost use Rattle.std.specs.Prelude.{◌≡◌, ◌+◌, ◌++◌, IfOk, OnOk, map, slice_index_or};
ghost use Rattle.std.specs.List.{All};
ghost use Rattle.chain_box.specs.StageEmbedding.Placing as spec;
ghost use Rattle.chain_link.specs.Places.{place_of};
ghost use Rattle.chain_link.specs.Bounds.{IsNear, NetIsNear, WireIsNear, RegisterIsNear, PortIsNear, OutputIsNear, SpotHasRoom};

use rtl_core::design::{Atom, Net, OutPin, Port, Reg, Wire};
use std::alloc::{AllocError, Global};

/// The place of a part: the atom for each of its inputs, and the numbers of its first register, memory and wire.
#[derive(Drop)]
pub struct Spot {
    pub inputs: Vec<Atom>,
    pub regs: u64,
    pub mems: u32,
    pub wires: u64,
}

fn input(inputs: &[Atom], k: u64) -> Atom
    ensures { result ≡ slice_index_or inputs.now k (Atom.Constant 1 0) }
{
    if k < inputs.len() as u64 {
        inputs[k as usize]
    } else {
        Atom::Constant { bits: 1, value: 0 }
    }
}

fn renamed(spot: &Spot, atom: Atom) -> Atom
    requires room { SpotHasRoom spot.now }
    requires near { IsNear atom }
    ensures { result ≡ spec.renamed (place_of spot.now) atom }
{
    match atom {
        Atom::Constant { bits, value } => Atom::Constant { bits, value },
        Atom::Input(k) => input(&spot.inputs, k),
        Atom::Reg(k) => Atom::Reg(spot.regs + k),
        Atom::Wire(k) => Atom::Wire(spot.wires + k),
    }
}

fn renamed_net(spot: &Spot, net: Net) -> Net
    requires room { SpotHasRoom spot.now }
    requires near { NetIsNear net }
    ensures { result ≡ spec.renamed_net (place_of spot.now) net }
{
    match net {
        Net::Copy(a) => Net::Copy(renamed(spot, a)),
        Net::Not(a) => Net::Not(renamed(spot, a)),
        Net::Two(op, a, b) => Net::Two(op, renamed(spot, a), renamed(spot, b)),
        Net::Pick(test, a, b) => {
            Net::Pick(renamed(spot, test), renamed(spot, a), renamed(spot, b))
        }
        Net::Join(high, low) => Net::Join(renamed(spot, high), renamed(spot, low)),
        Net::Part { of, high, low } => Net::Part {
            of: renamed(spot, of),
            high,
            low,
        },
        Net::Word { mem, addr } => Net::Word {
            mem: spot.mems + mem,
            addr: renamed(spot, addr),
        },
    }
}

fn renamed_wire(spot: &Spot, wire: Wire) -> Wire
    requires room { SpotHasRoom spot.now }
    requires near { WireIsNear wire }
    ensures { result ≡ spec.renamed_wire (place_of spot.now) wire }
{
    Wire {
        bits: wire.bits,
        net: renamed_net(spot, wire.net),
    }
}

/// Appends the wires of a part.
pub fn push_wires(all: &mut Vec<Wire>, wires: &[Wire], spot: &Spot) -> Result<(), AllocError>
    requires room { SpotHasRoom spot.now }
    requires near { All WireIsNear wires.now }
    ensures { OnOk result (all.new.items ≡ all.old.items ++ spec.renamed_wires (place_of spot.now) wires.now) }
{
    for wire in wires {
        all.push(renamed_wire(spot, *wire))?;
    }
    Ok(())
}

fn exit_wire(spot: &Spot, output: &OutPin) -> Wire
    requires room { SpotHasRoom spot.now }
    requires near { OutputIsNear output.now }
    ensures { result ≡ spec.renamed_wire (place_of spot.now) (spec.exit_wire output.now) }
{
    Wire {
        bits: output.bits,
        net: Net::Copy(renamed(spot, output.from)),
    }
}

/// Appends a wire for each output of a part.
pub fn push_exits(all: &mut Vec<Wire>, outputs: &[OutPin], spot: &Spot) -> Result<(), AllocError>
    requires room { SpotHasRoom spot.now }
    requires near { All OutputIsNear outputs.now }
    ensures { OnOk result (all.new.items ≡ all.old.items ++ spec.renamed_wires (place_of spot.now) (map spec.exit_wire outputs.now)) }
{
    for output in outputs {
        all.push(exit_wire(spot, output))?;
    }
    Ok(())
}

fn renamed_register(spot: &Spot, reg: Reg) -> Reg
    requires room { SpotHasRoom spot.now }
    requires near { RegisterIsNear reg }
    ensures { result ≡ spec.renamed_register (place_of spot.now) reg }
{
    Reg {
        bits: reg.bits,
        enable: renamed(spot, reg.enable),
        next: renamed(spot, reg.next),
    }
}

/// Appends the registers of a part.
pub fn push_registers(all: &mut Vec<Reg>, regs: &[Reg], spot: &Spot) -> Result<(), AllocError>
    requires room { SpotHasRoom spot.now }
    requires near { All RegisterIsNear regs.now }
    ensures { OnOk result (all.new.items ≡ all.old.items ++ map (spec.renamed_register (place_of spot.now)) regs.now) }
{
    for reg in regs {
        all.push(renamed_register(spot, *reg))?;
    }
    Ok(())
}

fn renamed_port(spot: &Spot, port: Port) -> Port
    requires room { SpotHasRoom spot.now }
    requires near { PortIsNear port }
    ensures { result ≡ spec.renamed_port (place_of spot.now) port }
{
    Port {
        addr: renamed(spot, port.addr),
        enable: renamed(spot, port.enable),
        value: renamed(spot, port.value),
    }
}

/// The ports of a memory of a part.
pub fn renamed_ports(alloc: Global, ports: &[Port], spot: &Spot) -> Result<Vec<Port>, AllocError>
    requires room { SpotHasRoom spot.now }
    requires near { All PortIsNear ports.now }
    ensures { IfOk result (λ v. v.items ≡ map (spec.renamed_port (place_of spot.now)) ports.now) }
{
    let mut all = Vec::with_capacity(alloc, ports.len())?;
    for port in ports {
        all.push(renamed_port(spot, *port))?;
    }
    Ok(all)
}
