//! Runs the instructions of wires.
ghost use Rattle.std.specs.Prelude.{slice_set, ◌≡◌, ◌%◌, ◌++◌, take, drop, ◌≤◌, ◌<◌, ◌^◌, ◌*◌, ◌+◌, ◌==◌, if◌then◌else◌, [], length, slice_index_or};
ghost use Rattle.rtl_core.specs.Netlist.{netlist_of};
ghost use Rattle.rtl_core.specs.ClockStep.{net_value, wire_values, bits_of, widths, word_at, AreMemories};
ghost use Rattle.rtl_core.specs.Valid.{NetFits, IsValid};
ghost use Rattle.verilog_cycle.specs.Inside.{AreValues, value_in, state_of};
ghost use Rattle.verilog_cycle.specs.Program.{IsInstruction, IsProgram};
ghost use Rattle.verilog_cycle.specs.Running.{IsRead, CanRun, AreCells, cells_of, source_value, step_value};

use crate::arithmetic::low_bits as low_bits_of;
use crate::contents::Contents;
use crate::expression::net_value;
use crate::program::{Instruction, Source, Step};
use crate::values::Values;
use crate::word::{low_bits, ones, pair_value, shifted_left, shifted_right};
use rtl_core::design::{Design, Wire};

/// The value of a source.
fn read(cells: &[u64], source: Source) -> u64
    requires { IsRead cells.now source }
    ensures { result ≡ source_value cells.now source }
{
    match source {
        Source::Constant { value, .. } => value,
        Source::Cell(i) => cells[i],
    }
}

fn picked(cells: &[u64], test: Source, chosen: Source, other: Source) -> u64
    requires test { IsRead cells.now test }
    requires chosen { IsRead cells.now chosen }
    requires other { IsRead cells.now other }
    ensures { result ≡ (if source_value cells.now test == 1 then source_value cells.now chosen else source_value cells.now other) }
{
    if read(cells, test) == 1 {
        read(cells, chosen)
    } else {
        read(cells, other)
    }
}

/// The value of two parts of which the low one has so many bits.
fn joined(high: u64, low: u64, low_bits: u8) -> u64
    requires { high * 2 ^ low_bits + low < 2 ^ 64 }
    ensures { result ≡ high * 2 ^ low_bits + low }
{
    shifted_left(high, u64::from(low_bits)) + low
}

fn word_at(mems: &[Contents], mem: u32, address: u64) -> u64
    requires memory { mem < length mems.now }
    requires address { address < length (slice_index_or mems.now mem []) }
    ensures { result ≡ word_at mems.now mem address }
{
    mems[mem as usize].words()[address as usize]
}

/// The value of a step in so many bits.
fn step_value(mems: &[Contents], cells: &[u64], bits: u8, step: Step) -> u64
    requires some { 1 ≤ bits }
    requires within { bits ≤ 64 }
    requires runs { CanRun cells.now mems.now bits step }
    ensures { result ≡ step_value cells.now mems.now bits step }
{
    match step {
        Step::Copy(x) => read(cells, x),
        Step::Not(x) => ones(bits) - read(cells, x),
        Step::Two(op, x, y) => pair_value(op, bits, read(cells, x), read(cells, y)),
        Step::Pick(x, y, z) => picked(cells, x, y, z),
        Step::Join(x, y, low) => joined(read(cells, x), read(cells, y), low),
        Step::Part(x, low) => low_bits(shifted_right(read(cells, x), u64::from(low)), bits),
        Step::Word(mem, x) => word_at(mems, mem, read(cells, x)),
        Step::Wide => 0,
    }
}

/// The value of a wire by its instruction.
pub fn wire_value(
    design: &Design,
    mems: &[Contents],
    values: &Values,
    cells: &[u64],
    wire: &Wire,
    instruction: Instruction,
) -> u128
    requires values { AreValues (netlist_of design.now) values.now }
    requires words { AreMemories (netlist_of design.now).mems mems.now }
    requires some { 1 ≤ wire.now.bits }
    requires within { wire.now.bits ≤ 128 }
    requires fits { NetFits (widths (netlist_of design.now)) (netlist_of design.now).mems wire.now.bits wire.now.net }
    requires cells { cells.now ≡ cells_of values.now }
    requires is { IsInstruction (netlist_of design.now) wire.now instruction }
    ensures { result ≡ net_value (bits_of (widths (netlist_of design.now))) (value_in values.now) mems.now wire.now.bits wire.now.net }
{
    match instruction.step {
        Step::Wide => net_value(design, mems, values, *wire),
        step => u128::from(step_value(mems, cells, instruction.bits, step)),
    }
}

/// The low 64 bits.
fn low_word(value: u128) -> u64
    ensures { result ≡ value % 2 ^ 64 }
{
    low_bits_of(value, 64) as u64
}

fn set_cell(cells: &mut [u64], at: usize, word: u64)
    requires { at < length cells.old }
    ensures { cells.new ≡ slice_set cells.old at word }
{
    cells[at] = word;
}

/// Writes words into the cells from this one on.
fn put(cells: &mut [u64], at: usize, words: &[u64])
    requires { at + length words.now ≤ length cells.old }
    ensures { cells.new ≡ take at cells.old ++ (words.now ++ drop (at + length words.now) cells.old) }
{
    for k in 0..words.len() {
        cells[at + k] = words[k];
    }
}

/// Writes the inputs and the registers into their cells.
pub fn take_values(values: &Values, cells: &mut [u64])
    requires { AreCells values.now cells.old }
    ensures { cells.new ≡ cells_of values.now }
{
    let pins = values.pins.as_slice();
    let regs = values.regs.as_slice();
    put(cells, 0, pins);
    put(cells, pins.len(), regs);
}

/// Gives each wire its value in the cycle.
pub fn settle(
    design: &Design,
    program: &[Instruction],
    mems: &[Contents],
    values: &mut Values,
    cells: &mut [u64],
)
    requires valid { IsValid (netlist_of design.now) }
    requires program { IsProgram (netlist_of design.now) program.now }
    requires values { AreValues (netlist_of design.now) values.old }
    requires words { AreMemories (netlist_of design.now).mems mems.now }
    requires cells { cells.old ≡ cells_of values.old }
    ensures cells { cells.new ≡ cells_of values.new }
    ensures pins { values.new.pins.items ≡ values.old.pins.items }
    ensures regs { values.new.regs.items ≡ values.old.regs.items }
    ensures next { values.new.next.items ≡ values.old.next.items }
    ensures wires { values.new.wires.items ≡ wire_values (netlist_of design.now) (state_of values.old mems.now) values.old.pins.items }
{
    let count = cells.len();
    let first = count - design.wires.len();
    for k in 0..design.wires.len() {
        let value = wire_value(design, mems, values, cells, &design.wires[k], program[k]);
        values.wires[k] = value;
        set_cell(cells, first + k, low_word(value));
    }
}
