//! Readers of the lines behind a header.

ghost use Rattle.std.specs.Prelude.{ℕ, ◌+◌, ◌*◌, ◌<◌, ◌≤◌, ◌^◌, length};
ghost use Rattle.aig_text.specs.GraphText.{input_lines};
ghost use Rattle.aig_text.specs.Forms as forms;
ghost use Rattle.aig_text.specs.Reading.{Reads, ReadsAs, Saturates, word};

use crate::cursor::{Cursor, Stop};
use aig_graph::aig::Gate;
use std::alloc::Global;

/// Takes the lines of so many inputs.
pub fn inputs(cursor: &mut Cursor, count: u32) -> Result<(), Stop>
    requires { count < 2 ^ 31 }
    ensures { Reads (word (input_lines 1 count)) result cursor.old cursor.new }
{
    for k in 0..count {
        cursor.exactly(2 * (k + 1), b'\n')?;
    }
    Ok(())
}

/// Takes the line of the latch that is variable k.
fn latch(cursor: &mut Cursor, k: u32, high: u32) -> Result<u32, Stop>
    requires { k < 2 ^ 31 }
    ensures { Reads (forms.latch high k) result cursor.old cursor.new }
{
    cursor.exactly(2 * k, b' ')?;
    cursor.number(high, b'\n')
}

/// Takes the lines of so many latches, of which the first is variable `first`.
pub fn latches(
    alloc: Global,
    cursor: &mut Cursor,
    first: u32,
    count: u32,
    high: u32,
) -> Result<Vec<u32>, Stop>
    requires { first + count ≤ 2 ^ 31 }
    ensures { ReadsAs (forms.rows (forms.latch high) first count) (λ nexts. nexts.items) result cursor.old cursor.new }
{
    let mut nexts = Vec::new(alloc);
    for k in 0..count {
        let next = latch(cursor, first + k, high)?;
        nexts.push(next)?;
    }
    Ok(nexts)
}

/// Takes the lines of so many outputs; `u64::MAX` stands for any number from it on.
pub fn outputs(alloc: Global, cursor: &mut Cursor, count: u64, high: u32) -> Result<Vec<u32>, Stop>
    requires { length cursor.old < 2 ^ 64 }
    ensures { (n : ℕ) → Saturates count n → ReadsAs (forms.rows (forms.output high) 0 n) (λ literals. literals.items) result cursor.old cursor.new }
{
    let mut literals = Vec::new(alloc);
    for _ in 0..count {
        let literal = cursor.number(high, b'\n')?;
        literals.push(literal)?;
    }
    Ok(literals)
}

/// Takes the line of the gate that is variable k.
fn gate(cursor: &mut Cursor, k: u32) -> Result<Gate, Stop>
    requires low { 1 ≤ k }
    requires high { k < 2 ^ 31 }
    ensures { Reads (forms.gate k) result cursor.old cursor.new }
{
    cursor.exactly(2 * k, b' ')?;
    let left = cursor.number(2 * k - 1, b' ')?;
    let right = cursor.number(2 * k - 1, b'\n')?;
    Ok(Gate { left, right })
}

/// Takes the lines of so many gates, of which the first is variable `first`.
pub fn gates(alloc: Global, cursor: &mut Cursor, first: u32, count: u32) -> Result<Vec<Gate>, Stop>
    requires low { 1 ≤ first }
    requires high { first + count ≤ 2 ^ 31 }
    ensures { ReadsAs (forms.rows forms.gate first count) (λ gates. gates.items) result cursor.old cursor.new }
{
    let mut gates = Vec::new(alloc);
    for k in 0..count {
        let gate = gate(cursor, first + k)?;
        gates.push(gate)?;
    }
    Ok(gates)
}
