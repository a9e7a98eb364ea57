//! Where the operands of a body are read.
ghost use Rattle.std.specs.Prelude.{◌≡◌, ◌<◌, ◌≤◌, ◌+◌, ◌*◌, ◌^◌, ℕ, nat_lt, length, map, slice_get};
ghost use Rattle.std.specs.Option.{option_map};
ghost use Rattle.ir_core.specs.Bodies as bodies;
ghost use Rattle.clock_ir.specs.Flows as flows;
ghost use Rattle.dep_graph.specs.Dependences.{maker_by};
ghost use Rattle.clock_machine.specs.Lines.Reads as reads;
ghost use Rattle.clock_machine.specs.Lines.Reads.{AreEarly, read_at, read_of};
ghost use Rattle.clock_machine.specs.Lines.Regions.{IsOrderly, body_of};

use crate::lines::program::Read;
use dep_graph::counter::{maker, result_of};
use hls_base::number::OpId;
use ir_core::body::{Body, Op, Operand, Out, Source};
use ir_core::timed::Timed;
use ir_core::timing::{latency, result_bits};

/// A body with the time between its iterations; in a block that is its length.
#[derive(Drop)]
pub struct Region<'a> {
    pub widths: &'a [u8],
    pub body: &'a Body<Timed>,
    pub interval: u64,
}

/// The time from which the value of an operation is there.
pub fn ready_by(op: &Op<Timed>) -> u64
    ensures { op.now.stamp.start < 2 ^ 32 →
        result ≡ op.now.stamp.start + flows.latency (flows.timed_op op.now) }
{
    op.stamp
        .start
        .saturating_add(u64::from(latency(op.kind, op.bits)))
}

fn ready(ops: &[Op<Timed>], op: OpId) -> u64
    ensures { AreEarly ops.now → result ≡ flows.ready_in (slice_get (map flows.timed_op ops.now) op.0) }
{
    let index = op.0 as usize;
    if index < ops.len() {
        ready_by(&ops[index])
    } else {
        0
    }
}

/// The time of an iteration at which its test is known.
pub fn known(body: &Body<Timed>) -> u64
    ensures { (interval : ℕ) → AreEarly body.now.ops.items →
        result ≡ flows.known (flows.timed_body interval body.now) }
{
    match body.test {
        Some(test) => match result_of(test.value) {
            Some(op) => ready(&body.ops, op),
            None => 0,
        },
        None => 0,
    }
}

/// The place of a value that is there at some time among those of its operation, where it is read so many iterations later.
pub fn place(interval: u64, ready: u64, time: u64, distance: u64) -> u64
    ensures { 0 < interval → interval < 2 ^ 32 → distance ≤ 2 ^ 32 → time < 2 ^ 32 →
        result ≡ flows.place interval ready time distance }
{
    let until = time.saturating_add(distance.saturating_mul(interval));
    until
        .saturating_sub(ready)
        .checked_div(interval)
        .unwrap_or(0)
}

/// The operation that makes a value, read so many iterations later.
fn maker_at(outs: &[Out], distance: u64, value: Source) -> Option<OpId>
    ensures { result ≡ maker_by outs.now distance value }
{
    match value {
        Source::Constant(_) => None,
        Source::Variable(variable) => {
            if distance > 0 {
                maker(outs, variable)
            } else {
                None
            }
        }
        Source::Result(op) => Some(op),
    }
}

/// Where a value is read that no operation of the body makes.
fn read_from(value: Source) -> Read
    ensures { result ≡ reads.read_from value }
{
    match value {
        Source::Constant(word) => Read::Constant(word),
        Source::Variable(variable) => Read::Variable(variable.0 as usize),
        Source::Result(_) => Read::Constant(0),
    }
}

/// The width of a value; a constant has that of its operation.
fn bits_of(widths: &[u8], ops: &[Op<Timed>], value: Source, bits: u8) -> u8
    ensures { result ≡ bodies.operand_bits widths.now (map bodies.op_of ops.now) bits value }
{
    match value {
        Source::Constant(_) => bits,
        Source::Variable(variable) => {
            let index = variable.0 as usize;
            if index < widths.len() {
                widths[index]
            } else {
                bits
            }
        }
        Source::Result(op) => {
            let index = op.0 as usize;
            if index < ops.len() {
                result_bits(&ops[index])
            } else {
                bits
            }
        }
    }
}

impl Region<'_> {
    /// Where the value of an operation is read.
    fn made(&self, op: OpId, distance: u64, time: u64) -> Read
        ensures { IsOrderly self.now → distance ≤ 2 ^ 32 → time < 2 ^ 32 →
            result ≡ reads.read_made (nat_lt op.0 (length self.now.body.now.ops.items)) op.0
            (flows.place self.now.interval (flows.ready (body_of self.now) op) time distance) }
    {
        let index = op.0 as usize;
        if index < self.body.ops.len() {
            let there = ready_by(&self.body.ops[index]);
            Read::Value {
                line: index,
                back: place(self.interval, there, time, distance) as usize,
            }
        } else {
            Read::Constant(0)
        }
    }

    /// Where a value is read at this time, so many iterations later.
    pub fn read(&self, value: Source, distance: u64, time: u64) -> Read
        ensures { IsOrderly self.now → distance ≤ 2 ^ 32 → time < 2 ^ 32 →
            result ≡ read_at (body_of self.now) time distance value }
    {
        match maker_at(&self.body.outs, distance, value) {
            Some(op) => self.made(op, distance, time),
            None => read_from(value),
        }
    }

    pub fn operand(&self, operand: Operand, time: u64) -> Read
        ensures { IsOrderly self.now → time < 2 ^ 32 → result ≡ read_of (body_of self.now) time operand }
    {
        self.read(operand.value, u64::from(operand.distance), time)
    }

    /// An operand that may be there.
    pub fn operand_if(&self, operand: Option<Operand>, time: u64) -> Option<Read>
        ensures { IsOrderly self.now → time < 2 ^ 32 →
            result ≡ option_map (read_of (body_of self.now) time) operand }
    {
        match operand {
            Some(operand) => Some(self.operand(operand, time)),
            None => None,
        }
    }

    /// The width of the first argument.
    pub fn first_bits(&self, op: &Op<Timed>) -> u8
        ensures { result ≡ bodies.first_bits self.now.widths.now (map bodies.op_of self.now.body.now.ops.items)
            (bodies.op_of op.now) op.now.args.items }
    {
        match op.args.as_slice().first() {
            Some(operand) => bits_of(self.widths, &self.body.ops, operand.value, op.bits),
            None => op.bits,
        }
    }
}
