//! The lives of the results of a loop's operations, in all places of their chains.
ghost use Rattle.std.specs.Prelude.{◌≡◌, ℕ, ◌+◌, ◌*◌, ◌^◌, ◌<◌, ◌≤◌, ◌++◌, None, map, option_to_list, IfOk, IfSome, OnOk};
ghost use Rattle.std.specs.List.{All, flat_map, range_with_len};
ghost use Rattle.reg_binding.specs.Sets.{has};
ghost use Rattle.reg_binding.specs.Lives as spec;
ghost use Rattle.reg_binding.specs.SmallTimes.{IsNear, IsNearOut, IsEarlyOp, IsEarlyBody, IsEarlyLoop};

use crate::block_reads::last_reads;
use crate::life::{Life, Read, ready};
use crate::var_set::VarSet;
use hls_base::number::VarId;
use ir_core::body::{Op, Operand, Out, Source};
use ir_core::cfg::Loop;
use ir_core::timed::Timed;
use ir_core::timing::result_bits;
use std::alloc::{AllocError, Global};

/// The operation whose result an operand names, of this iteration or an earlier one.
fn source_maker(outs: &[Out], value: Source) -> Option<u32>
    ensures { result ≡ spec.source_maker outs.now value }
{
    match value {
        Source::Constant(_) => None,
        Source::Result(op) => Some(op.0),
        Source::Variable(variable) => maker(outs, variable),
    }
}

fn result_or(known: Option<u32>, value: Source) -> Option<u32>
    ensures { result ≡ spec.result_or known value }
{
    match value {
        Source::Result(op) => Some(op.0),
        _ => known,
    }
}

/// The operation whose result a variable takes over.
fn maker(outs: &[Out], variable: VarId) -> Option<u32>
    ensures { result ≡ spec.maker_from None outs.now variable.0 }
{
    let mut known = None;
    for out in outs {
        if out.variable.0 == variable.0 {
            known = result_or(known, out.value.value);
        }
    }
    known
}

/// A time so many intervals later.
fn later_by(time: u64, distance: u32, ii: u32) -> u64
    requires { time + distance * ii < 2 ^ 64 }
    ensures { result ≡ time + distance * ii }
{
    time + u64::from(distance) * u64::from(ii)
}

fn push_operand(
    region: &Loop<Timed>,
    time: u64,
    operand: Operand,
    reads: &mut Vec<Read>,
) -> Result<(), AllocError>
    requires near { IsNear operand }
    requires early { time < 2 ^ 33 }
    ensures { OnOk result (reads.new.items ≡ reads.old.items ++ spec.iteration_reads region.now.body.outs.items region.now.ii time operand) }
{
    if let Some(op) = source_maker(&region.body.outs, operand.value) {
        let time = later_by(time, operand.distance, region.ii);
        reads.push(Read { op, time })?;
    }
    Ok(())
}

fn push_operands(
    region: &Loop<Timed>,
    time: u64,
    operands: &[Operand],
    reads: &mut Vec<Read>,
) -> Result<(), AllocError>
    requires near { All IsNear operands.now }
    requires early { time < 2 ^ 33 }
    ensures { OnOk result (reads.new.items ≡ reads.old.items ++ flat_map (spec.iteration_reads region.now.body.outs.items region.now.ii time) operands.now) }
{
    for operand in operands {
        push_operand(region, time, *operand, reads)?;
    }
    Ok(())
}

fn push_op(region: &Loop<Timed>, op: &Op<Timed>, reads: &mut Vec<Read>) -> Result<(), AllocError>
    requires { IsEarlyOp op.now }
    ensures { OnOk result (reads.new.items ≡ reads.old.items ++ spec.iteration_op_reads region.now.body.outs.items region.now.ii op.now) }
{
    let time = op.stamp.start;
    if let Some(guard) = op.guard {
        push_operand(region, time, guard, reads)?;
    }
    push_operands(region, time, op.args.as_slice(), reads)
}

fn push_ops(region: &Loop<Timed>, reads: &mut Vec<Read>) -> Result<(), AllocError>
    requires { IsEarlyBody region.now.body }
    ensures { OnOk result (reads.new.items ≡ reads.old.items ++ flat_map (spec.iteration_op_reads region.now.body.outs.items region.now.ii) region.now.body.ops.items) }
{
    for op in &region.body.ops {
        push_op(region, op, reads)?;
    }
    Ok(())
}

/// The time at which a test is known.
fn known(ops: &[Op<Timed>], value: Source) -> u64
    requires { All IsEarlyOp ops.now }
    ensures value { result ≡ spec.known ops.now value }
    ensures early { result < 2 ^ 33 }
{
    match value {
        Source::Result(op) if (op.0 as usize) < ops.len() => ready(&ops[op.0 as usize]),
        _ => 0,
    }
}

fn push_test(region: &Loop<Timed>, reads: &mut Vec<Read>) -> Result<(), AllocError>
    requires { IsEarlyBody region.now.body }
    ensures { OnOk result (reads.new.items ≡ reads.old.items ++ flat_map (spec.test_reads region.now) (option_to_list region.now.body.test)) }
{
    if let Some(test) = region.body.test {
        let time = known(&region.body.ops, test.value);
        push_operand(region, time, test, reads)?;
    }
    Ok(())
}

fn push_left(
    region: &Loop<Timed>,
    behind: &VarSet,
    time: u64,
    out: &Out,
    reads: &mut Vec<Read>,
) -> Result<(), AllocError>
    requires near { IsNearOut out.now }
    requires early { time < 2 ^ 33 }
    ensures { OnOk result (reads.new.items ≡ reads.old.items ++ spec.left_reads (has behind.now) region.now.body.outs.items region.now.ii time out.now) }
{
    if behind.contains(out.variable) {
        push_operand(region, time, out.value, reads)?;
    }
    Ok(())
}

fn push_outs(region: &Loop<Timed>, behind: &VarSet, reads: &mut Vec<Read>) -> Result<(), AllocError>
    requires { IsEarlyLoop region.now }
    ensures { OnOk result (reads.new.items ≡ reads.old.items ++ flat_map (spec.left_reads (has behind.now) region.now.body.outs.items region.now.ii (region.now.ii + region.now.exit)) region.now.body.outs.items) }
{
    let time = u64::from(region.ii) + u64::from(region.exit);
    for out in &region.body.outs {
        push_left(region, behind, time, out, reads)?;
    }
    Ok(())
}

/// What the iterations read when, counted from the beginning of the iteration that makes the value.
fn loop_reads(alloc: Global, region: &Loop<Timed>, behind: &VarSet) -> Result<Vec<Read>, AllocError>
    requires { IsEarlyLoop region.now }
    ensures { IfOk result (λ reads. reads.items ≡ spec.loop_reads (has behind.now) region.now) }
{
    let mut reads = Vec::new(alloc);
    push_ops(region, &mut reads)?;
    push_test(region, &mut reads)?;
    push_outs(region, behind, &mut reads)?;
    Ok(reads)
}

/// So many cycles after an iteration the next one begins.
pub fn period(region: &Loop<Timed>) -> u32
    ensures value { result ≡ spec.period region.now }
    ensures some { 0 < result }
{
    region.ii.max(1)
}

fn is_result(op: u32, value: Source) -> bool
    ensures { result ≡ spec.is_result op value }
{
    match value {
        Source::Result(made) => made.0 == op,
        _ => false,
    }
}

/// Whether a variable takes over the result of an operation.
fn is_taken_over(outs: &[Out], op: u32) -> bool
    ensures { result ≡ spec.is_taken_over outs.now op }
{
    for out in outs {
        if is_result(op, out.value.value) {
            return true;
        }
    }
    false
}

/// One place of the chain of a result that is there at a time and is read for the last time at another, both counted from the beginning of the iteration.
fn place_life(op: &Op<Timed>, id: u32, place: u32, period: u32, last: u64) -> Life
    requires early { IsEarlyOp op.now }
    requires reached { spec.ready op.now + place * period ≤ last }
    ensures { result ≡ spec.place_life period id op.now last place }
{
    let start = later_by(ready(op), place, period);
    let left = last.saturating_sub(start);
    let length = if left < u64::from(period) {
        left + 1
    } else {
        u64::from(period)
    };
    Life {
        first: start,
        op: id,
        place,
        width: result_bits(op),
        start,
        length,
        entry: 0,
    }
}

/// The same where a variable takes the result over, and has another value before the first iteration.
fn with_entry(life: Life, period: u32) -> Life
    requires { life.length ≤ period }
    ensures { result ≡ spec.with_entry period life }
{
    let period = u64::from(period);
    if life.place == 0 {
        let entry = life.start.saturating_sub(period - life.length).max(1);
        Life {
            first: 0,
            entry,
            ..life
        }
    } else {
        let start = life.start.saturating_sub(period);
        Life {
            first: start,
            start,
            ..life
        }
    }
}

fn chain_life(outs: &[Out], op: &Op<Timed>, id: u32, place: u32, period: u32, last: u64) -> Life
    requires early { IsEarlyOp op.now }
    requires some { 0 < period }
    requires reached { spec.ready op.now + place * period ≤ last }
    ensures { result ≡ spec.chain_life outs.now period id op.now last place }
{
    let life = place_life(op, id, place, period, last);
    if is_taken_over(outs, id) {
        with_entry(life, period)
    } else {
        life
    }
}

/// Adds the first places of a chain, so many.
fn push_places(
    outs: &[Out],
    op: &Op<Timed>,
    id: u32,
    count: u64,
    period: u32,
    last: u64,
    lives: &mut Vec<Life>,
) -> Result<(), AllocError>
    requires early { IsEarlyOp op.now }
    requires some { 0 < period }
    requires few { count ≤ 2 ^ 32 }
    requires reached { (place : ℕ) → place < count → spec.ready op.now + place * period ≤ last }
    ensures { OnOk result (lives.new.items ≡ lives.old.items ++ map (spec.chain_life outs.now period id op.now last) (range_with_len 0 count)) }
{
    for number in 0..count {
        lives.push(chain_life(outs, op, id, number as u32, period, last))?;
    }
    Ok(())
}

/// Adds the places through which the result of an operation passes up to its last read.
fn push_chain(
    region: &Loop<Timed>,
    op: &Op<Timed>,
    id: u32,
    last: Option<u64>,
    lives: &mut Vec<Life>,
) -> Result<(), AllocError>
    requires early { IsEarlyOp op.now }
    requires soon { IfSome last (λ time. time < 2 ^ 32 * spec.period region.now) }
    ensures { OnOk result (lives.new.items ≡ lives.old.items ++ spec.chain_lives region.now.body.outs.items (spec.period region.now) id op.now last) }
{
    let Some(last) = last else {
        return Ok(());
    };
    let start = ready(op);
    if last < start {
        return Ok(());
    }
    let period = period(region);
    let count = (last - start) / u64::from(period) + 1;
    push_places(&region.body.outs, op, id, count, period, last, lives)
}

/// The lives of the results that are read, in each place through which they pass.
pub fn loop_lives(
    alloc: Global,
    region: &Loop<Timed>,
    behind: &VarSet,
) -> Result<Vec<Life>, AllocError>
    requires { IsEarlyLoop region.now }
    ensures { IfOk result (λ lives. lives.items ≡ spec.loop_lives (has behind.now) region.now) }
{
    let ops = &region.body.ops;
    let reads = loop_reads(alloc, region, behind)?;
    let last = last_reads(alloc, ops.len(), &reads)?;
    let mut lives = Vec::new(alloc);
    for number in 0..ops.len() {
        push_chain(
            region,
            &ops[number],
            number as u32,
            last[number],
            &mut lives,
        )?;
    }
    Ok(lives)
}
