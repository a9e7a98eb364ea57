//! Clocking a circuit.
ghost use Rattle.std.specs.Prelude.{◌≡◌, ◌+◌, ◌<◌, ◌≤◌, ◌^◌, [], length, map, slice_index_or, replicate, IfOk, OnOk};
ghost use Rattle.std.specs.List.{All};
ghost use Rattle.rtl_core.specs.declared.design.Reg.{Reg};
ghost use Rattle.rtl_core.specs.declared.design.Mem.{Mem};
ghost use Rattle.rtl_core.specs.Netlist.{netlist_of, memory_of};
ghost use Rattle.rtl_core.specs.ClockStep.{stepped, outputs};
ghost use Rattle.rtl_core.specs.Valid.{IsValid, IsBetween};
ghost use Rattle.verilog_cycle.specs.Simulation.{modulo_widths, words_modulo, powered_words, powered_up, word_count, contents_count, reduced_pins};
ghost use Rattle.verilog_cycle.specs.Inside.{state_of, IsReady, Settled};
ghost use Rattle.verilog_cycle.specs.Program.{IsProgram};
ghost use Rattle.verilog_cycle.specs.Running.{AreCells, cells_of};

use crate::contents::Contents;
use crate::edge::clock_memories;
use crate::expression::show;
use crate::program::{Instruction, program_of};
use crate::run::{settle, take_values};
use crate::values::Values;
use crate::word::low_bits;
use rtl_core::design::{Design, Mem, Reg};
use std::alloc::{AllocError, Global};
use std::marker::Model;

/// A valid circuit with what its registers and memories hold. It takes its buffers when it is made.
#[derive(Drop)]
pub struct Sim {
    design: Design,
    program: Vec<Instruction>,
    cells: Vec<u64>,
    values: Values,
    mems: Vec<Contents>,
}

impl Model for Sim {
    ghost use Rattle.verilog_cycle.specs.Simulation.{Simulation};

    ghost Value = { Simulation };

    ghost use Rattle.rtl_core.specs.Netlist.{netlist_of};
    ghost use Rattle.verilog_cycle.specs.Inside.{state_of, IsReady};
    ghost use Rattle.verilog_cycle.specs.Program.{IsProgram};
    ghost use Rattle.verilog_cycle.specs.Running.{AreCells};

    ghost view = { λ s. record { netlist = netlist_of s.design; state = state_of s.values s.mems.items } };

    ghost invariant = { λ s. IsReady (netlist_of s.design) s.values s.mems.items × IsProgram (netlist_of s.design) s.program.items × AreCells s.values s.cells.items };
}

/// What registers hold after a power-up with these numbers.
fn powered_registers(alloc: Global, regs: &[Reg], numbers: &[u64]) -> Result<Vec<u64>, AllocError>
    requires widths { All (λ (r : Reg). IsBetween 1 64 r.bits) regs.now }
    requires count { length numbers.now ≡ length regs.now }
    ensures { IfOk result (λ v. v.items ≡ modulo_widths (map (λ (r : Reg). r.bits) regs.now) numbers.now) }
{
    let mut held = Vec::with_capacity(alloc, regs.len())?;
    for k in 0..regs.len() {
        held.push(low_bits(numbers[k], regs[k].bits))?;
    }
    Ok(held)
}

/// The words of a memory after a power-up with these numbers.
fn powered_memory(alloc: Global, bits: u8, numbers: &[u64]) -> Result<Contents, AllocError>
    requires some { 1 ≤ bits }
    requires within { bits ≤ 64 }
    ensures { IfOk result (λ c. c ≡ words_modulo bits numbers.now) }
{
    let mut words = Vec::with_capacity(alloc, numbers.len())?;
    for number in numbers {
        words.push(low_bits(*number, bits))?;
    }
    Ok(Contents::new(words))
}

/// The words of all memories after a power-up with these numbers.
fn powered_memories(
    alloc: Global,
    mems: &[Mem],
    numbers: &[u64],
) -> Result<Vec<Contents>, AllocError>
    requires bits { All (λ (m : Mem). IsBetween 1 64 m.bits) mems.now }
    requires depths { All (λ (m : Mem). IsBetween 1 16 m.depth_log) mems.now }
    requires count { length numbers.now ≡ word_count (map memory_of mems.now) }
    ensures { IfOk result (λ v. v.items ≡ powered_words (map memory_of mems.now) numbers.now) }
{
    let mut contents = Vec::with_capacity(alloc, mems.len())?;
    let mut start = 0;
    for mem in mems {
        let end = start + (1 << usize::from(mem.depth_log));
        contents.push(powered_memory(alloc, mem.bits, &numbers[start..end])?)?;
        start = end;
    }
    Ok(contents)
}

/// The values before the first cycle of a circuit whose registers hold these numbers.
fn values_before(alloc: Global, design: &Design, regs: Vec<u64>) -> Result<Values, AllocError>
    ensures { IfOk result (λ v. (v.pins.items ≡ replicate (length design.now.inputs.items) 0)
        × (v.regs.items ≡ regs.items)
        × (v.next.items ≡ replicate (length design.now.regs.items) 0)
        × (v.wires.items ≡ replicate (length design.now.wires.items) 0)) }
{
    let pins = vec![in alloc; 0; design.inputs.len()]?;
    let next = vec![in alloc; 0; design.regs.len()]?;
    let wires = vec![in alloc; 0; design.wires.len()]?;
    Ok(Values {
        pins,
        regs,
        next,
        wires,
    })
}

/// The cells before the first cycle of a circuit.
fn cells_before(alloc: Global, design: &Design) -> Result<Vec<u64>, AllocError>
    ensures cells { IfOk result (λ v. v.items ≡ replicate (length design.now.inputs.items + (length design.now.regs.items + length design.now.wires.items)) 0) }
    ensures small { OnOk result (length design.now.inputs.items + (length design.now.regs.items + length design.now.wires.items) < 2 ^ 64) }
{
    let behind = design.regs.len() + design.wires.len();
    match design.inputs.len().checked_add(behind) {
        Some(count) => vec![in alloc; 0; count],
        None => Err(AllocError),
    }
}

/// Takes the inputs of a cycle and gives the wires their values.
fn begin(
    design: &Design,
    program: &[Instruction],
    cells: &mut [u64],
    values: &mut Values,
    mems: &[Contents],
    pins: &[u64],
)
    requires program { IsProgram (netlist_of design.now) program.now }
    requires cells { AreCells values.old cells.old }
    requires ready { IsReady (netlist_of design.now) values.old mems.now }
    requires pins { length pins.now ≡ length design.now.inputs.items }
    ensures settled { Settled (netlist_of design.now) (state_of values.old mems.now) values.new (reduced_pins (netlist_of design.now) pins.now) }
    ensures cells { cells.new ≡ cells_of values.new }
{
    let inputs = design.inputs.as_slice();
    values.take_pins(inputs, pins);
    take_values(values, cells);
    settle(design, program, mems, values, cells);
}

/// Writes the outputs of a cycle and takes the edge.
fn clock_once(
    design: &Design,
    program: &[Instruction],
    cells: &mut [u64],
    values: &mut Values,
    mems: &mut [Contents],
    pins: &[u64],
    outs: &mut [u64],
)
    requires program { IsProgram (netlist_of design.now) program.now }
    requires cells { AreCells values.old cells.old }
    requires ready { IsReady (netlist_of design.now) values.old mems.old }
    requires pins { length pins.now ≡ length design.now.inputs.items }
    requires outs { length outs.old ≡ length design.now.outputs.items }
    ensures cells { AreCells values.new cells.new }
    ensures ready { IsReady (netlist_of design.now) values.new mems.new }
    ensures state { state_of values.new mems.new ≡ stepped (netlist_of design.now) (state_of values.old mems.old) (reduced_pins (netlist_of design.now) pins.now) }
    ensures outs { outs.new ≡ outputs (netlist_of design.now) (state_of values.old mems.old) (reduced_pins (netlist_of design.now) pins.now) }
{
    let outputs = design.outputs.as_slice();
    let regs = design.regs.as_slice();
    begin(design, program, cells, values, mems, pins);
    show(outputs, values, outs);
    clock_memories(design, values, mems);
    values.clock(regs);
}

impl Sim {
    /// A simulator after a power-up: one number for each register and then one for each word, memory by memory, each modulo its width.
    pub fn new(alloc: Global, design: Design, power_up: &[u64]) -> Result<Sim, AllocError>
        requires valid { IsValid (netlist_of design) }
        requires count { length power_up.now ≡ contents_count (netlist_of design) }
        ensures { IfOk result (λ s. s ≡ record { netlist = netlist_of design; state = powered_up (netlist_of design) power_up.now }) }
    {
        let count = design.regs.len();
        let regs = powered_registers(alloc, &design.regs, &power_up[..count])?;
        let mems = powered_memories(alloc, &design.mems, &power_up[count..])?;
        let values = values_before(alloc, &design, regs)?;
        let cells = cells_before(alloc, &design)?;
        let program = program_of(alloc, &design)?;
        Ok(Sim {
            design,
            program,
            cells,
            values,
            mems,
        })
    }

    /// Writes the outputs of a cycle with these inputs, each modulo its width, and takes the edge.
    pub fn clock(&mut self, pins: &[u64], outs: &mut [u64])
        requires pins { length pins.now ≡ length self.old.netlist.inputs }
        requires outs { length outs.old ≡ length self.old.netlist.outputs }
        ensures netlist { self.new.netlist ≡ self.old.netlist }
        ensures state { self.new.state ≡ stepped self.old.netlist self.old.state (reduced_pins self.old.netlist pins.now) }
        ensures outs { outs.new ≡ outputs self.old.netlist self.old.state (reduced_pins self.old.netlist pins.now) }
    {
        clock_once(
            &self.design,
            &self.program,
            &mut self.cells,
            &mut self.values,
            &mut self.mems,
            pins,
            outs,
        );
    }

    /// What the registers hold.
    pub fn registers(&self) -> &[u64]
        ensures { result.now ≡ self.now.state.regs }
    {
        self.values.regs.as_slice()
    }

    /// What the words of a memory hold.
    pub fn words(&self, memory: usize) -> &[u64]
        requires { memory < length self.now.state.mems }
        ensures { result.now ≡ slice_index_or self.now.state.mems memory [] }
    {
        self.mems[memory].words()
    }
}
