//! The delays of wires.
ghost use Rattle.std.specs.Prelude.{◌≡◌, ◌≤◌, ℕ};
ghost use Rattle.rtl_core.specs.Netlist.{netlist_of};
ghost use Rattle.rtl_core.specs.ClockStep.{bits_of, widths};
ghost use Rattle.rtl_core.specs.Valid.{HasBits, OperandsFit, NetFits};
ghost use Rattle.timing_path.specs.Paths.{shift_delay, pair_delay, net_delay};

use rtl_core::design::{Atom, Design, Net, Pair};

/// The width of an atom.
fn bits_of(design: &Design, atom: Atom) -> u8
    requires { (n : ℕ) × HasBits (widths (netlist_of design.now)) n atom }
    ensures { result ≡ bits_of (widths (netlist_of design.now)) atom }
{
    match atom {
        Atom::Constant { bits, .. } => bits,
        Atom::Input(k) => design.inputs[k as usize].bits,
        Atom::Reg(k) => design.regs[k as usize].bits,
        Atom::Wire(k) => design.wires[k as usize].bits,
    }
}

/// The delay of a shift by this count.
fn shift_delay(design: &Design, count: Atom) -> u16
    requires { (n : ℕ) × HasBits (widths (netlist_of design.now)) n count }
    ensures value { result ≡ shift_delay (bits_of (widths (netlist_of design.now))) count }
    ensures few { result ≤ 510 }
{
    match count {
        Atom::Constant { .. } => 0,
        Atom::Input(_) | Atom::Reg(_) | Atom::Wire(_) => 2 * u16::from(bits_of(design, count)),
    }
}

/// The delay of an operator on two operands.
fn pair_delay(design: &Design, op: Pair, left: Atom, right: Atom) -> u16
    requires left { (n : ℕ) × HasBits (widths (netlist_of design.now)) n left }
    requires right { (n : ℕ) × HasBits (widths (netlist_of design.now)) n right }
    ensures value { result ≡ pair_delay (bits_of (widths (netlist_of design.now))) op left right }
    ensures few { result ≤ 510 }
{
    match op {
        Pair::And | Pair::Or | Pair::Xor => 1,
        Pair::Add | Pair::Sub | Pair::Equal | Pair::Below => u16::from(bits_of(design, left)),
        Pair::Mul => 2 * u16::from(bits_of(design, left)),
        Pair::Left | Pair::Right => shift_delay(design, right),
    }
}

/// The delay of a wire with this expression.
pub fn net_delay(design: &Design, net: Net) -> u16
    requires { (n : ℕ) × NetFits (widths (netlist_of design.now)) (netlist_of design.now).mems n net }
    ensures value { result ≡ net_delay (bits_of (widths (netlist_of design.now))) net }
    ensures few { result ≤ 510 }
{
    match net {
        Net::Copy(_) | Net::Part { .. } | Net::Join(_, _) => 0,
        Net::Not(_) => 1,
        Net::Pick(_, _, _) => 2,
        Net::Word { .. } => 8,
        Net::Two(op, left, right) => pair_delay(design, op, left, right),
    }
}
