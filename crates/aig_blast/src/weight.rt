//! How large the graph of a circuit gets, and whether the circuit is small enough for one.
ghost use Rattle.std.specs.Prelude.{◌≡◌, ◌≤◌, ◌*◌, ◌^◌, ℕ, IfErr, OnOk, length, map};
ghost use Rattle.std.specs.List.{All, sum_by};
ghost use Rattle.hls_base.specs.TextPlaces.{text_start};
ghost use Rattle.rtl_core.specs.declared.design.Pin.{Pin};
ghost use Rattle.rtl_core.specs.declared.design.Reg.{Reg};
ghost use Rattle.rtl_core.specs.declared.design.Mem.{Mem};
ghost use Rattle.rtl_core.specs.Netlist.{netlist_of, memory_of};
ghost use Rattle.rtl_core.specs.ClockStep.{bits_of, widths};
ghost use Rattle.rtl_core.specs.Valid.{HasBits, NetFits, MemoryFits, IsBetween, IsValid};
ghost use Rattle.aig_blast.specs.Weight.{memory_size, bit_count, pair_weight, wire_weight, ports_weight, weight, IsBlastFault, IsSmall};

use hls_base::place::Place;
use hls_base::refusal::Refusal;
use rtl_core::design::{Atom, Design, Mem, Net, Pair, Pin, Reg, Wire};

/// The most bits of inputs, registers and memories of a circuit that gets a graph.
const BIT_LIMIT: u128 = 65_536;

/// The greatest weight of a circuit that gets a graph.
const WEIGHT_LIMIT: u128 = 4_194_304;

/// The bits of inputs.
pub fn input_bits(inputs: &[Pin]) -> u128
    ensures value { result ≡ sum_by (λ (p : Pin). p.bits) inputs.now }
    ensures few { result ≤ 255 * length inputs.now }
{
    let mut bits = 0;
    for k in 0..inputs.len() {
        bits += u128::from(inputs[k].bits);
    }
    bits
}

/// The bits of registers.
pub fn register_bits(regs: &[Reg]) -> u128
    ensures value { result ≡ sum_by (λ (r : Reg). r.bits) regs.now }
    ensures few { result ≤ 255 * length regs.now }
{
    let mut bits = 0;
    for k in 0..regs.len() {
        bits += u128::from(regs[k].bits);
    }
    bits
}

/// The bits of a memory's words.
pub fn memory_size(mem: &Mem) -> u32
    requires bits { mem.now.bits ≤ 64 }
    requires depth { mem.now.depth_log ≤ 16 }
    ensures value { result ≡ memory_size (memory_of mem.now) }
    ensures few { result ≤ 4194304 }
{
    (1 << u32::from(mem.depth_log)) * u32::from(mem.bits)
}

/// The bits of the words of memories.
fn memory_bits(mems: &[Mem]) -> u128
    requires { All (λ (m : Mem). IsBetween 1 64 m.bits × IsBetween 1 16 m.depth_log) mems.now }
    ensures value { result ≡ sum_by memory_size (map memory_of mems.now) }
    ensures few { result ≤ 4194304 * length mems.now }
{
    let mut bits = 0;
    for k in 0..mems.len() {
        bits += u128::from(memory_size(&mems[k]));
    }
    bits
}

/// The bits of inputs, registers and memories.
pub fn bit_count(design: &Design) -> u128
    requires { IsValid (netlist_of design.now) }
    ensures { result ≡ bit_count (netlist_of design.now) }
{
    let inputs = input_bits(design.inputs.as_slice());
    let regs = register_bits(design.regs.as_slice());
    inputs + (regs + memory_bits(design.mems.as_slice()))
}

/// The width of an atom.
fn bits_of(design: &Design, atom: Atom) -> u8
    requires { (n : ℕ) × HasBits (widths (netlist_of design.now)) n atom }
    ensures { result ≡ bits_of (widths (netlist_of design.now)) atom }
{
    match atom {
        Atom::Constant { bits, .. } => bits,
        Atom::Input(k) => design.inputs[k as usize].bits,
        Atom::Reg(k) => design.regs[k as usize].bits,
        Atom::Wire(k) => design.wires[k as usize].bits,
    }
}

/// The weight of an operator on operands of these widths.
fn pair_weight(op: Pair, bits: u8, left: u8, right: u8) -> u32
    ensures value { result ≡ pair_weight op bits left right }
    ensures few { result ≤ 65025 }
{
    match op {
        Pair::Mul => u32::from(bits) * u32::from(bits),
        Pair::Left | Pair::Right => u32::from(bits) * u32::from(right),
        Pair::Add | Pair::Sub | Pair::And | Pair::Or | Pair::Xor | Pair::Equal | Pair::Below =>
            u32::from(left.max(right)),
    }
}

/// The weight of a wire.
fn wire_weight(design: &Design, wire: Wire) -> u32
    requires valid { All (MemoryFits (widths (netlist_of design.now))) (netlist_of design.now).mems }
    requires fits { NetFits (widths (netlist_of design.now)) (netlist_of design.now).mems wire.bits wire.net }
    ensures value { result ≡ wire_weight (netlist_of design.now) wire }
    ensures few { result ≤ 4194304 }
{
    match wire.net {
        Net::Copy(_) | Net::Not(_) | Net::Join(_, _) | Net::Part { .. } => 0,
        Net::Two(op, a, b) => pair_weight(op, wire.bits, bits_of(design, a), bits_of(design, b)),
        Net::Pick(test, a, b) => {
            let widest = bits_of(design, a).max(bits_of(design, b));
            u32::from(bits_of(design, test).max(widest))
        }
        Net::Word { mem, .. } => memory_size(&design.mems[mem as usize]),
    }
}

/// The weight of all wires.
fn wires_weight(design: &Design) -> u128
    requires { IsValid (netlist_of design.now) }
    ensures value { result ≡ sum_by (wire_weight (netlist_of design.now)) (netlist_of design.now).wires }
    ensures few { result ≤ 4194304 * length (netlist_of design.now).wires }
{
    let mut weight = 0;
    for k in 0..design.wires.len() {
        weight += u128::from(wire_weight(design, design.wires[k]));
    }
    weight
}

/// The weight of the ports of memories.
fn ports_weight(mems: &[Mem]) -> u128
    requires shapes { All (λ (m : Mem). IsBetween 1 64 m.bits × IsBetween 1 16 m.depth_log) mems.now }
    requires few { sum_by memory_size (map memory_of mems.now) ≤ 65536 }
    ensures value { result ≡ sum_by ports_weight (map memory_of mems.now) }
    ensures few { result ≤ 65536 * 2 ^ 64 }
{
    let mut weight = 0;
    for k in 0..mems.len() {
        let mem = &mems[k];
        weight += mem.ports.len() as u128 * u128::from(memory_size(mem));
    }
    weight
}

/// A refusal by this rule.
fn refusal(rule: u8) -> Refusal
    ensures rule { result.rule ≡ rule }
    ensures place { result.place ≡ text_start }
{
    Refusal {
        rule,
        place: Place {
            line: 1,
            column: 1,
            part: 0,
        },
    }
}

/// Rejects a circuit with too many bits (rule 70) or with too large a weight (rule 72).
pub fn check_size(design: &Design) -> Result<(), Refusal>
    requires { IsValid (netlist_of design.now) }
    ensures rejected { IfErr result (IsBlastFault (netlist_of design.now)) }
    ensures small { OnOk result (IsSmall (netlist_of design.now)) }
{
    if bit_count(design) > BIT_LIMIT {
        return Err(refusal(70));
    }
    let weight = wires_weight(design) + ports_weight(design.mems.as_slice());
    if weight > WEIGHT_LIMIT {
        return Err(refusal(72));
    }
    Ok(())
}
