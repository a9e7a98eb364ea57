//! Whether the operations of a body start in time.
ghost use Rattle.std.specs.Prelude.{◌≡◌, nat_le};
ghost use Rattle.std.specs.List.{list_all};
ghost use Rattle.dep_graph.specs.Dependences as edges;
ghost use Rattle.program_validity.specs.Checks as spec;

use crate::well_timed::accesses::distances_between;
use dep_graph::access::{Meeting, is_store};
use dep_graph::counter::{maker, result_of};
use hls_base::number::{ArrayId, OpId};
use ir_core::body::{Body, Op, Operand, Out, Source};
use ir_core::cfg::Memory;
use ir_core::stamp::Stamp;
use ir_core::timed::Timed;
use ir_core::timing::{UnitClass, latency, occupancy, unit_class};

/// A body with the time between its iterations, if it is a loop's.
#[derive(Clone, Copy)]
pub struct Flow<'a> {
    pub body: &'a Body<Timed>,
    pub memories: &'a [Memory],
    pub interval: Option<u32>,
}

/// The operation that makes what an operand names.
fn maker_of(outs: &[Out], operand: Operand) -> Option<OpId>
    ensures { result ≡ edges.maker_of outs.now operand }
{
    match operand.value {
        Source::Constant(_) => None,
        Source::Variable(variable) => {
            if operand.distance > 0 {
                maker(outs, variable)
            } else {
                None
            }
        }
        Source::Result(op) => Some(op),
    }
}

/// The operation that makes the test of an iteration in this iteration.
pub fn test_maker(test: Option<Operand>) -> Option<OpId>
    ensures { result ≡ edges.test_maker test }
{
    match test {
        Some(operand) => result_of(operand.value),
        None => None,
    }
}

/// A word is there one cycle after its store.
fn gap(op: &Op<Timed>) -> u32
    ensures { result ≡ spec.gap op.now }
{
    if is_store(op.kind) { 1 } else { 0 }
}

fn same_array(one: Option<ArrayId>, other: Option<ArrayId>) -> bool
    ensures { result ≡ spec.same_array one other }
{
    match (one, other) {
        (Some(array), Some(another)) => array.0 == another.0,
        _ => false,
    }
}

fn one_class(one: UnitClass, other: UnitClass) -> bool
    ensures { result ≡ spec.one_class one other }
{
    match (one, other) {
        (UnitClass::Multiplier(bits), UnitClass::Multiplier(others)) => bits == others,
        (UnitClass::Divider(bits), UnitClass::Divider(others)) => bits == others,
        (UnitClass::Port(array), UnitClass::Port(another)) => array.0 == another.0,
        _ => false,
    }
}

fn same_class(one: Option<UnitClass>, other: Option<UnitClass>) -> bool
    ensures { result ≡ spec.same_class one other }
{
    match (one, other) {
        (Some(class), Some(another)) => one_class(class, another),
        _ => false,
    }
}

fn is_early(op: &Op<Timed>) -> bool
    ensures { result ≡ spec.is_early op.now }
{
    op.stamp.start < 4_294_967_296
}

impl Flow<'_> {
    /// Whether an operation, so many iterations further on, comes so many cycles behind another one. In a block only one iteration counts.
    fn waits(&self, from: Timed, later: Timed, cycles: u32, distance: u32) -> bool
        ensures { result ≡ spec.in_time self.now.interval from.start later.start cycles distance }
    {
        match self.interval {
            Some(interval) => from.fits(&later, cycles, distance, interval),
            None => distance > 0 || from.fits(&later, cycles, 0, 0),
        }
    }

    /// Whether the value of an operation is there in time.
    fn is_made(&self, maker: Option<OpId>, later: Timed, distance: u32) -> bool
        ensures { result ≡
            spec.made_in_time self.now.interval (spec.op_at self.now.body.now.ops.items maker) later.start distance }
    {
        let Some(op) = maker else {
            return true;
        };
        let index = op.0 as usize;
        if index >= self.body.ops.len() {
            return true;
        }
        let from = &self.body.ops[index];
        let cycles = latency(from.kind, from.bits);
        self.waits(from.stamp, later, cycles, distance)
    }

    /// Whether what an operand names is there in time.
    fn is_there(&self, operand: Operand, later: Timed) -> bool
        ensures { result ≡ spec.operand_in_time self.now.interval self.now.body.now later.start operand }
    {
        let maker = maker_of(&self.body.outs, operand);
        self.is_made(maker, later, operand.distance)
    }

    fn are_there(&self, operands: &[Operand], later: Timed) -> bool
        ensures { result ≡
            list_all (spec.operand_in_time self.now.interval self.now.body.now later.start) operands.now }
    {
        for operand in operands {
            if !self.is_there(*operand, later) {
                return false;
            }
        }
        true
    }

    fn data_is_there(&self, op: &Op<Timed>) -> bool
        ensures { result ≡ spec.data_in_time self.now.interval self.now.body.now op.now }
    {
        if !self.are_there(op.args.as_slice(), op.stamp) {
            return false;
        }
        match op.guard {
            Some(guard) => self.is_there(guard, op.stamp),
            None => true,
        }
    }

    /// Whether a store waits for the test.
    fn test_is_there(&self, op: &Op<Timed>) -> bool
        ensures { result ≡ spec.test_in_time self.now.interval self.now.body.now op.now }
    {
        !is_store(op.kind) || self.is_made(test_maker(self.body.test), op.stamp, 0)
    }

    /// Whether an access comes behind another one, so many iterations further on.
    fn comes_behind(&self, from: &Op<Timed>, to: &Op<Timed>, distance: u32) -> bool
        ensures { result ≡
            spec.in_time self.now.interval from.now.stamp.start to.now.stamp.start (spec.gap from.now) distance }
    {
        self.waits(from.stamp, to.stamp, gap(from), distance)
    }

    /// The same at a distance that may be negative, where nothing is waited for. One above 65,536 counts as this.
    fn keeps_distance(&self, from: &Op<Timed>, to: &Op<Timed>, before: bool, distance: i128) -> bool
        ensures { result ≡ spec.near_in_time self.now.interval from.now to.now before distance }
    {
        if distance > 0 {
            let near = distance.min(65_536) as u32;
            self.comes_behind(from, to, near)
        } else {
            distance < 0 || !before || self.comes_behind(from, to, 0)
        }
    }

    /// Whether the second access waits for the first one wherever it may meet it, in one iteration only if the first comes before.
    fn keeps_meeting(&self, from: &Op<Timed>, to: &Op<Timed>, before: bool) -> bool
        ensures { result ≡ spec.meeting_in_time self.now.interval from.now to.now before
            (spec.distances self.now.body.now from.now to.now) }
    {
        match distances_between(self.body, from, to) {
            Meeting::Never => true,
            Meeting::At(distance) => self.keeps_distance(from, to, before, distance),
            Meeting::Always => {
                (!before || self.comes_behind(from, to, 0)) && self.comes_behind(from, to, 1)
            }
        }
    }

    /// Whether two accesses, of which the first comes before, wait for each other.
    fn accesses_agree(&self, one: &Op<Timed>, other: &Op<Timed>) -> bool
        ensures { result ≡ spec.accesses_in_time self.now.interval self.now.body.now one.now other.now }
    {
        let some_store = is_store(one.kind) || is_store(other.kind);
        if same_array(one.array, other.array) && some_store {
            self.keeps_meeting(one, other, true) && self.keeps_meeting(other, one, false)
        } else {
            true
        }
    }

    /// Whether a unit is free again when the second operation starts, and when the first one of the next iteration does.
    fn take_turns(&self, first: &Op<Timed>, second: &Op<Timed>) -> bool
        ensures { result ≡ spec.take_turns self.now.interval first.now second.now }
    {
        let held = occupancy(first.kind, first.bits);
        let again = occupancy(second.kind, second.bits);
        self.waits(first.stamp, second.stamp, held, 0)
            && self.waits(second.stamp, first.stamp, again, 1)
    }

    fn units_agree(&self, one: &Op<Timed>, other: &Op<Timed>) -> bool
        ensures { result ≡ spec.units_in_time self.now.interval self.now.memories.now one.now other.now }
    {
        let class = unit_class(one, self.memories);
        let another = unit_class(other, self.memories);
        if same_class(class, another) && one.stamp.bound == other.stamp.bound {
            if one.stamp.start <= other.stamp.start {
                self.take_turns(one, other)
            } else {
                self.take_turns(other, one)
            }
        } else {
            true
        }
    }

    /// Whether a unit is free again for the same operation of the next iteration.
    fn is_free_again(&self, op: &Op<Timed>) -> bool
        ensures { result ≡ spec.free_again self.now.interval (spec.class_of self.now.memories.now op.now)
            (spec.held op.now) }
    {
        match (self.interval, unit_class(op, self.memories)) {
            (Some(interval), Some(_)) => occupancy(op.kind, op.bits) <= interval,
            _ => true,
        }
    }

    fn is_in_time(&self, op: &Op<Timed>) -> bool
        ensures { result ≡ spec.op_in_time self.now.interval self.now.memories.now self.now.body.now op.now }
    {
        is_early(op) && self.data_is_there(op) && self.test_is_there(op) && self.is_free_again(op)
    }

    fn agree(&self, one: &Op<Timed>, other: &Op<Timed>) -> bool
        ensures { result ≡
            spec.pair_in_time self.now.interval self.now.memories.now self.now.body.now one.now other.now }
    {
        self.accesses_agree(one, other) && self.units_agree(one, other)
    }

    /// Whether an operation agrees with those behind it.
    fn agrees_with(&self, op: &Op<Timed>, others: &[Op<Timed>]) -> bool
        ensures { result ≡ list_all
            (spec.pair_in_time self.now.interval self.now.memories.now self.now.body.now op.now) others.now }
    {
        for other in others {
            if !self.agree(op, other) {
                return false;
            }
        }
        true
    }

    pub fn is_well_timed(&self) -> bool
        ensures { result ≡ spec.body_in_time self.now.interval self.now.memories.now self.now.body.now }
    {
        let ops = self.body.ops.as_slice();
        for index in 0..ops.len() {
            let op = &ops[index];
            if !self.is_in_time(op) || !self.agrees_with(op, &ops[index + 1..]) {
                return false;
            }
        }
        true
    }
}
