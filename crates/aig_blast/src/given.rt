//! The literals of the variables of a graph: inputs, registers and memory words.
ghost use Rattle.std.specs.Prelude.{◌≡◌, ◌≤◌, ◌+◌, IfOk, length, map, sum};
ghost use Rattle.std.specs.List.{All, sum_by};
ghost use Rattle.rtl_core.specs.declared.design.Pin.{Pin};
ghost use Rattle.rtl_core.specs.declared.design.Reg.{Reg};
ghost use Rattle.rtl_core.specs.declared.design.Mem.{Mem};
ghost use Rattle.rtl_core.specs.Netlist.{netlist_of, memory_of};
ghost use Rattle.rtl_core.specs.Valid.{IsBetween, IsValid};
ghost use Rattle.aig_blast.specs.Weight.{memory_size, bit_count};
ghost use Rattle.aig_blast.specs.Literals.{literals_from, joined, all_words, IsBank, AreBanks, AreGiven};

use crate::literals::{Bank, Literals};
use crate::weight::{input_bits, memory_size, register_bits};
use aig_graph::word::Word;
use rtl_core::design::{Design, Mem, Pin, Reg};
use std::alloc::{AllocError, Global};

/// The literals of so many variables from this one on.
fn fresh_word(alloc: Global, first: u32, bits: u32) -> Result<Vec<u32>, AllocError>
    requires { first + bits ≤ 65537 }
    ensures { IfOk result (λ ls. ls.items ≡ literals_from first bits) }
{
    let mut word = Vec::with_capacity(alloc, bits as usize)?;
    for i in 0..bits {
        word.push(2 * (first + i))?;
    }
    Ok(word)
}

/// Words of these widths, whose variables follow one another from this one on.
pub fn fresh_words(alloc: Global, first: u32, widths: &[u8]) -> Result<Vec<Word>, AllocError>
    requires { first + sum widths.now ≤ 65537 }
    ensures lengths { IfOk result (λ lss. map length lss.items ≡ widths.now) }
    ensures joined { IfOk result (λ lss. joined lss.items ≡ literals_from first (sum widths.now)) }
{
    let mut words = Vec::with_capacity(alloc, widths.len())?;
    let mut next = first;
    for k in 0..widths.len() {
        let bits = u32::from(widths[k]);
        let word = fresh_word(alloc, next, bits)?;
        words.push(Word::new(word))?;
        next += bits;
    }
    Ok(words)
}

/// The widths of inputs.
fn input_widths(alloc: Global, inputs: &[Pin]) -> Result<Vec<u8>, AllocError>
    ensures { IfOk result (λ widths. widths.items ≡ map (λ (p : Pin). p.bits) inputs.now) }
{
    let mut widths = Vec::with_capacity(alloc, inputs.len())?;
    for k in 0..inputs.len() {
        widths.push(inputs[k].bits)?;
    }
    Ok(widths)
}

/// The widths of registers.
fn register_widths(alloc: Global, regs: &[Reg]) -> Result<Vec<u8>, AllocError>
    ensures { IfOk result (λ widths. widths.items ≡ map (λ (r : Reg). r.bits) regs.now) }
{
    let mut widths = Vec::with_capacity(alloc, regs.len())?;
    for k in 0..regs.len() {
        widths.push(regs[k].bits)?;
    }
    Ok(widths)
}

/// The words of a memory, whose variables follow one another from this one on.
fn fresh_bank(alloc: Global, first: u32, mem: &Mem) -> Result<Bank, AllocError>
    requires depth { mem.now.depth_log ≤ 16 }
    requires few { first + memory_size (memory_of mem.now) ≤ 65537 }
    ensures bank { IfOk result (IsBank (memory_of mem.now)) }
    ensures joined { IfOk result (λ words. joined words ≡ literals_from first (memory_size (memory_of mem.now))) }
{
    let widths = vec![in alloc; mem.bits; 1 << usize::from(mem.depth_log)]?;
    let words = fresh_words(alloc, first, widths.as_slice())?;
    Ok(Bank::new(words))
}

/// The words of memories, whose variables follow one another from this one on.
fn fresh_banks(alloc: Global, first: u32, mems: &[Mem]) -> Result<Vec<Bank>, AllocError>
    requires shapes { All (λ (m : Mem). IsBetween 1 64 m.bits × IsBetween 1 16 m.depth_log) mems.now }
    requires few { first + sum_by memory_size (map memory_of mems.now) ≤ 65537 }
    ensures banks { IfOk result (λ banks. AreBanks (map memory_of mems.now) banks.items) }
    ensures joined { IfOk result (λ banks. joined (all_words banks.items) ≡ literals_from first (sum_by memory_size (map memory_of mems.now))) }
{
    let mut banks = Vec::with_capacity(alloc, mems.len())?;
    let mut next = first;
    for k in 0..mems.len() {
        let mem = &mems[k];
        let bank = fresh_bank(alloc, next, mem)?;
        banks.push(bank)?;
        next += memory_size(mem);
    }
    Ok(banks)
}

/// The literals of inputs, registers and memory words, before those of wires.
pub fn fresh_literals(alloc: Global, design: &Design) -> Result<Literals, AllocError>
    requires valid { IsValid (netlist_of design.now) }
    requires few { bit_count (netlist_of design.now) ≤ 65536 }
    ensures { IfOk result (AreGiven (netlist_of design.now)) }
{
    let widths = input_widths(alloc, design.inputs.as_slice())?;
    let inputs = fresh_words(alloc, 1, widths.as_slice())?;
    let registers = 1 + input_bits(design.inputs.as_slice()) as u32;
    let widths = register_widths(alloc, design.regs.as_slice())?;
    let regs = fresh_words(alloc, registers, widths.as_slice())?;
    let memories = registers + register_bits(design.regs.as_slice()) as u32;
    let mems = fresh_banks(alloc, memories, design.mems.as_slice())?;
    Ok(Literals {
        inputs,
        regs,
        mems,
        wires: Vec::new(alloc),
    })
}
