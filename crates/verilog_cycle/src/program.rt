//! The expressions of wires in the form in which they are run.
ghost use Rattle.std.specs.Prelude.{◌≡◌, ◌≤◌, ◌<◌, ◌+◌, ◌^◌, ℕ, IfSome, IfOk, length};
ghost use Rattle.rtl_core.specs.Netlist.{netlist_of};
ghost use Rattle.rtl_core.specs.ClockStep.{widths};
ghost use Rattle.rtl_core.specs.Valid.{HasBits, NetFits, IsValid};
ghost use Rattle.verilog_cycle.specs.Program.{Reads, IsStep, IsInstruction, IsProgram};

use crate::expression::bits_of;
use rtl_core::design::{Atom, Design, Net, Pair, Wire};
use std::alloc::{AllocError, Global};

/// Where a value of at most 64 bits is read: a constant, or the number of a cell. The cells are the inputs, the registers and the wires, one behind the other.
#[derive(Clone, Copy, PartialEq, Eq)]
pub enum Source {
    Constant { bits: u8, value: u64 },
    Cell(usize),
}

/// An expression all of whose values have at most 64 bits, or `Wide`. A `Join` has its high part, its low part and the bits of the low part; a `Part` begins at its low bit.
#[derive(Clone, Copy, PartialEq, Eq)]
pub enum Step {
    Copy(Source),
    Not(Source),
    Two(Pair, Source, Source),
    Pick(Source, Source, Source),
    Join(Source, Source, u8),
    Part(Source, u8),
    Word(u32, Source),
    Wide,
}

/// The expression of a wire of so many bits.
#[derive(Clone, Copy, PartialEq, Eq)]
pub struct Instruction {
    pub bits: u8,
    pub step: Step,
}

/// Where a value of at most 64 bits is read.
fn source_of(design: &Design, atom: Atom) -> Option<Source>
    requires small { length design.now.inputs.items + (length design.now.regs.items + length design.now.wires.items) < 2 ^ 64 }
    requires bits { (n : ℕ) × HasBits (widths (netlist_of design.now)) n atom }
    ensures { IfSome result (Reads (netlist_of design.now) atom) }
{
    if bits_of(design, atom) > 64 {
        return None;
    }
    match atom {
        Atom::Constant { bits, value } => Some(Source::Constant {
            bits,
            value: value as u64,
        }),
        Atom::Input(k) => Some(Source::Cell(k as usize)),
        Atom::Reg(k) => Some(Source::Cell(design.inputs.len() + k as usize)),
        Atom::Wire(k) => Some(Source::Cell(design.inputs.len() + (design.regs.len() + k as usize))),
    }
}

fn join_of(design: &Design, high: Atom, low: Atom) -> Option<Step>
    requires small { length design.now.inputs.items + (length design.now.regs.items + length design.now.wires.items) < 2 ^ 64 }
    requires high { (n : ℕ) × HasBits (widths (netlist_of design.now)) n high }
    requires low { (n : ℕ) × HasBits (widths (netlist_of design.now)) n low }
    ensures { IfSome result (IsStep (netlist_of design.now) (Net.Join high low)) }
{
    let x = source_of(design, high)?;
    let y = source_of(design, low)?;
    Some(Step::Join(x, y, bits_of(design, low)))
}

fn two_of(design: &Design, op: Pair, a: Atom, b: Atom) -> Option<Step>
    requires small { length design.now.inputs.items + (length design.now.regs.items + length design.now.wires.items) < 2 ^ 64 }
    requires a { (n : ℕ) × HasBits (widths (netlist_of design.now)) n a }
    requires b { (n : ℕ) × HasBits (widths (netlist_of design.now)) n b }
    ensures { IfSome result (IsStep (netlist_of design.now) (Net.Two op a b)) }
{
    let x = source_of(design, a)?;
    let y = source_of(design, b)?;
    Some(Step::Two(op, x, y))
}

fn pick_of(design: &Design, test: Atom, a: Atom, b: Atom) -> Option<Step>
    requires small { length design.now.inputs.items + (length design.now.regs.items + length design.now.wires.items) < 2 ^ 64 }
    requires test { (n : ℕ) × HasBits (widths (netlist_of design.now)) n test }
    requires a { (n : ℕ) × HasBits (widths (netlist_of design.now)) n a }
    requires b { (n : ℕ) × HasBits (widths (netlist_of design.now)) n b }
    ensures { IfSome result (IsStep (netlist_of design.now) (Net.Pick test a b)) }
{
    let x = source_of(design, test)?;
    let y = source_of(design, a)?;
    let z = source_of(design, b)?;
    Some(Step::Pick(x, y, z))
}

/// The step of an expression, if all its operands have at most 64 bits.
fn step_of(design: &Design, bits: u8, net: Net) -> Option<Step>
    requires small { length design.now.inputs.items + (length design.now.regs.items + length design.now.wires.items) < 2 ^ 64 }
    requires fits { NetFits (widths (netlist_of design.now)) (netlist_of design.now).mems bits net }
    ensures { IfSome result (IsStep (netlist_of design.now) net) }
{
    match net {
        Net::Copy(a) => Some(Step::Copy(source_of(design, a)?)),
        Net::Not(a) => Some(Step::Not(source_of(design, a)?)),
        Net::Two(op, a, b) => two_of(design, op, a, b),
        Net::Pick(test, a, b) => pick_of(design, test, a, b),
        Net::Join(high, low) => join_of(design, high, low),
        Net::Part { of, low, .. } => Some(Step::Part(source_of(design, of)?, low)),
        Net::Word { mem, addr } => Some(Step::Word(mem, source_of(design, addr)?)),
    }
}

fn instruction_of(design: &Design, wire: &Wire) -> Instruction
    requires small { length design.now.inputs.items + (length design.now.regs.items + length design.now.wires.items) < 2 ^ 64 }
    requires fits { NetFits (widths (netlist_of design.now)) (netlist_of design.now).mems wire.now.bits wire.now.net }
    ensures { IsInstruction (netlist_of design.now) wire.now result }
{
    let bits = wire.bits;
    if bits > 64 {
        return Instruction {
            bits,
            step: Step::Wide,
        };
    }
    match step_of(design, bits, wire.net) {
        Some(step) => Instruction { bits, step },
        None => Instruction {
            bits,
            step: Step::Wide,
        },
    }
}

/// The instructions of a valid circuit's wires.
pub fn program_of(alloc: Global, design: &Design) -> Result<Vec<Instruction>, AllocError>
    requires valid { IsValid (netlist_of design.now) }
    requires small { length design.now.inputs.items + (length design.now.regs.items + length design.now.wires.items) < 2 ^ 64 }
    ensures { IfOk result (λ p. IsProgram (netlist_of design.now) p.items) }
{
    let mut program = Vec::with_capacity(alloc, design.wires.len())?;
    for k in 0..design.wires.len() {
        program.push(instruction_of(design, &design.wires[k]))?;
    }
    Ok(program)
}
