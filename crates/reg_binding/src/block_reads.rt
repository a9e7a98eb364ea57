//! The lives of the results of a block's operations.
ghost use Rattle.std.specs.Prelude.{◌≡◌, ◌<◌, ◌^◌, ◌++◌, ℕ, Option, None, length, slice_index_or, IfOk, OnOk};
ghost use Rattle.std.specs.List.{flat_map};
ghost use Rattle.reg_binding.specs.Sets.{has};
ghost use Rattle.reg_binding.specs.Lives as spec;
ghost use Rattle.reg_binding.specs.SmallTimes.{IsEarlyOp, IsEarlyBody};

use crate::life::{Life, Read, ready};
use crate::var_set::VarSet;
use hls_base::number::NodeId;
use ir_core::body::{Op, Operand, Out, Source};
use ir_core::cfg::{Block, End};
use ir_core::timed::Timed;
use ir_core::timing::result_bits;
use std::alloc::{AllocError, Global};

fn push_operand(operand: Operand, time: u64, reads: &mut Vec<Read>) -> Result<(), AllocError>
    ensures { OnOk result (reads.new.items ≡ reads.old.items ++ spec.operand_reads time operand) }
{
    if let Source::Result(op) = operand.value {
        reads.push(Read { op: op.0, time })?;
    }
    Ok(())
}

fn push_operands(operands: &[Operand], time: u64, reads: &mut Vec<Read>) -> Result<(), AllocError>
    ensures { OnOk result (reads.new.items ≡ reads.old.items ++ flat_map (spec.operand_reads time) operands.now) }
{
    for operand in operands {
        push_operand(*operand, time, reads)?;
    }
    Ok(())
}

fn push_op(op: &Op<Timed>, reads: &mut Vec<Read>) -> Result<(), AllocError>
    ensures { OnOk result (reads.new.items ≡ reads.old.items ++ spec.op_reads op.now) }
{
    let time = op.stamp.start;
    if let Some(guard) = op.guard {
        push_operand(guard, time, reads)?;
    }
    push_operands(op.args.as_slice(), time, reads)
}

/// Adds what the operations read.
fn push_ops(ops: &[Op<Timed>], reads: &mut Vec<Read>) -> Result<(), AllocError>
    ensures { OnOk result (reads.new.items ≡ reads.old.items ++ flat_map spec.op_reads ops.now) }
{
    for op in ops {
        push_op(op, reads)?;
    }
    Ok(())
}

fn push_cases(
    cases: &[(Operand, NodeId)],
    time: u64,
    reads: &mut Vec<Read>,
) -> Result<(), AllocError>
    ensures { OnOk result (reads.new.items ≡ reads.old.items ++ flat_map (spec.case_reads time) cases.now) }
{
    for case in cases {
        push_operand(case.0, time, reads)?;
    }
    Ok(())
}

/// Adds what the end of the block reads.
fn push_end(end: &End, time: u64, reads: &mut Vec<Read>) -> Result<(), AllocError>
    ensures { OnOk result (reads.new.items ≡ reads.old.items ++ spec.end_reads time end.now) }
{
    match end {
        End::Jump(_) | End::Return(None) => Ok(()),
        End::Branch { test, .. } => push_operand(*test, time, reads),
        End::Choose { cases, .. } => push_cases(cases, time, reads),
        End::Return(Some(value)) => push_operand(*value, time, reads),
    }
}

fn push_out(out: &Out, behind: &VarSet, time: u64, reads: &mut Vec<Read>) -> Result<(), AllocError>
    ensures { OnOk result (reads.new.items ≡ reads.old.items ++ spec.out_reads (has behind.now) time out.now) }
{
    if behind.contains(out.variable) {
        push_operand(out.value, time, reads)?;
    }
    Ok(())
}

/// Adds what variables that are live behind the block take over.
fn push_outs(
    outs: &[Out],
    behind: &VarSet,
    time: u64,
    reads: &mut Vec<Read>,
) -> Result<(), AllocError>
    ensures { OnOk result (reads.new.items ≡ reads.old.items ++ flat_map (spec.out_reads (has behind.now) time) outs.now) }
{
    for out in outs {
        push_out(out, behind, time, reads)?;
    }
    Ok(())
}

fn push_last(block: &Block<Timed>, behind: &VarSet, reads: &mut Vec<Read>) -> Result<(), AllocError>
    ensures { OnOk result (reads.new.items ≡ reads.old.items ++ spec.last_cycle_reads (has behind.now) block.now) }
{
    if 0 < block.length {
        let last = u64::from(block.length - 1);
        push_end(&block.end, last, reads)?;
        push_outs(&block.body.outs, behind, last, reads)?;
    }
    Ok(())
}

/// What is read when.
fn block_reads(
    alloc: Global,
    block: &Block<Timed>,
    behind: &VarSet,
) -> Result<Vec<Read>, AllocError>
    ensures { IfOk result (λ reads. reads.items ≡ spec.block_reads (has behind.now) block.now) }
{
    let mut reads = Vec::new(alloc);
    push_ops(&block.body.ops, &mut reads)?;
    push_last(block, behind, &mut reads)?;
    Ok(reads)
}

fn later(known: Option<u64>, time: u64) -> u64
    ensures { result ≡ spec.later known time }
{
    match known {
        Some(before) => before.max(time),
        None => time,
    }
}

fn no_reads(alloc: Global, count: usize) -> Result<Vec<Option<u64>>, AllocError>
    ensures count { IfOk result (λ last. length last.items ≡ count) }
    ensures none { IfOk result (λ last. (k : ℕ) → slice_index_or last.items k None ≡ None) }
{
    vec![in alloc; None; count]
}

/// The last read of each operation's result, if there is one.
pub fn last_reads(
    alloc: Global,
    count: usize,
    reads: &[Read],
) -> Result<Vec<Option<u64>>, AllocError>
    ensures count { IfOk result (λ last. length last.items ≡ count) }
    ensures last { IfOk result (λ last. (k : ℕ) → k < count → slice_index_or last.items k None ≡ spec.last_read reads.now k) }
{
    let mut last = no_reads(alloc, count)?;
    for read in reads {
        let number = read.op as usize;
        if number < last.len() {
            last[number] = Some(later(last[number], read.time));
        }
    }
    Ok(last)
}

/// Adds the life of a result, which begins where it is there and ends with its last read.
fn push_life(
    id: u32,
    op: &Op<Timed>,
    last: Option<u64>,
    lives: &mut Vec<Life>,
) -> Result<(), AllocError>
    requires { IsEarlyOp op.now }
    ensures { OnOk result (lives.new.items ≡ lives.old.items ++ spec.block_life id op.now last) }
{
    let Some(last) = last else {
        return Ok(());
    };
    let start = ready(op);
    if start <= last {
        lives.push(Life {
            first: start,
            op: id,
            place: 0,
            width: result_bits(op),
            start,
            length: last - start + 1,
            entry: 0,
        })?;
    }
    Ok(())
}

/// The lives of the results that are read while they are in a register.
pub fn block_lives(
    alloc: Global,
    block: &Block<Timed>,
    behind: &VarSet,
) -> Result<Vec<Life>, AllocError>
    requires { IsEarlyBody block.now.body }
    ensures { IfOk result (λ lives. lives.items ≡ spec.block_lives (has behind.now) block.now) }
{
    let ops = &block.body.ops;
    let reads = block_reads(alloc, block, behind)?;
    let last = last_reads(alloc, ops.len(), &reads)?;
    let mut lives = Vec::new(alloc);
    for number in 0..ops.len() {
        push_life(number as u32, &ops[number], last[number], &mut lives)?;
    }
    Ok(lives)
}
