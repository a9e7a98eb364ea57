//! Whether a program is well timed.
ghost use Rattle.std.specs.Prelude.{◌≡◌, ◌+◌, ◌↔◌, IsTrue};
ghost use Rattle.std.specs.List.{list_all};
ghost use Rattle.modulo_loop.specs.Rules as rules;
ghost use Rattle.clock_ir.specs.WellTimed.{IsWellTimed};
ghost use Rattle.program_validity.specs.Untimed.{untimed};
ghost use Rattle.program_validity.specs.Checks.{op_at};
ghost use Rattle.program_validity.specs.Nodes as spec;

use crate::well_timed::flow::{Flow, test_maker};
use dep_graph::access::is_store;
use dep_graph::counter::result_of;
use hls_base::number::{NodeId, OpId};
use ir_core::body::{Op, Operand, Out, Source};
use ir_core::cfg::{Block, Cfg, End, Loop, Memory, Node};
use ir_core::timed::Timed;
use ir_core::timing::latency;

/// The cycle from which the value of an operation is there.
fn ready(op: &Op<Timed>) -> u128
    ensures { result ≡ spec.ready op.now }
{
    u128::from(op.stamp.start) + u128::from(latency(op.kind, op.bits))
}

/// Whether the value of an operation, if there is one, is there by this time.
fn is_ready_by(ops: &[Op<Timed>], time: u64, maker: Option<OpId>) -> bool
    ensures { result ≡ spec.is_ready_by time (op_at ops.now maker) }
{
    match maker {
        Some(op) if (op.0 as usize) < ops.len() => ready(&ops[op.0 as usize]) <= u128::from(time),
        _ => true,
    }
}

fn are_ready_by(ops: &[Op<Timed>], time: u64) -> bool
    ensures { result ≡ list_all (λ op. spec.is_ready_by time (Some op)) ops.now }
{
    for op in ops {
        if ready(op) > u128::from(time) {
            return false;
        }
    }
    true
}

/// Whether what an operand names is there one cycle before the block of this length ends.
fn is_there(ops: &[Op<Timed>], length: u64, operand: Operand) -> bool
    ensures { result ≡ spec.is_there ops.now length operand }
{
    match operand.value {
        Source::Result(op) if (op.0 as usize) < ops.len() => {
            ready(&ops[op.0 as usize]) < u128::from(length)
        }
        _ => true,
    }
}

fn cases_are_there(ops: &[Op<Timed>], length: u64, cases: &[(Operand, NodeId)]) -> bool
    ensures { result ≡ list_all (λ c. spec.is_there ops.now length c.0) cases.now }
{
    for (test, _) in cases {
        if !is_there(ops, length, *test) {
            return false;
        }
    }
    true
}

fn end_is_in_time(ops: &[Op<Timed>], length: u64, end: &End) -> bool
    ensures { result ≡ spec.end_in_time ops.now length end.now }
{
    match end {
        End::Jump(_) => true,
        End::Branch { test, .. } => is_there(ops, length, *test),
        End::Choose { cases, .. } => cases_are_there(ops, length, cases),
        End::Return(Some(value)) => is_there(ops, length, *value),
        End::Return(None) => true,
    }
}

fn block_is_well_timed(memories: &[Memory], block: &Block<Timed>) -> bool
    ensures { result ≡ spec.block_in_time memories.now block.now }
{
    let flow = Flow {
        body: &block.body,
        memories,
        interval: None,
    };
    let length = u64::from(block.length);
    length >= 1
        && flow.is_well_timed()
        && are_ready_by(&block.body.ops, length)
        && end_is_in_time(&block.body.ops, length, &block.end)
}

/// Whether all stores have changed their words by this time.
fn are_stored(ops: &[Op<Timed>], time: u64) -> bool
    ensures { result ≡ list_all (spec.is_stored_before time) ops.now }
{
    for op in ops {
        if is_store(op.kind) && op.stamp.start >= time {
            return false;
        }
    }
    true
}

/// Whether all values that variables take over are there by this time.
fn outs_are_ready(ops: &[Op<Timed>], time: u64, outs: &[Out]) -> bool
    ensures { result ≡ list_all (spec.is_out_ready ops.now time) outs.now }
{
    for out in outs {
        if !is_ready_by(ops, time, result_of(out.value.value)) {
            return false;
        }
    }
    true
}

/// The operation whose result a variable takes over.
fn next_maker(variable: u32, outs: &[Out]) -> Option<OpId>
    ensures { result ≡ rules.maker variable outs.now }
{
    for out in outs {
        if out.variable.0 == variable {
            if let Some(op) = result_of(out.value.value) {
                return Some(op);
            }
        }
    }
    None
}

/// The operation whose result must be known before the next iteration begins.
fn known_first(outs: &[Out], test: Option<Operand>) -> Option<OpId>
    ensures { result ≡ rules.known_first outs.now test }
{
    let Some(test) = test else {
        return None;
    };
    match test.value {
        Source::Constant(_) => None,
        Source::Variable(variable) => next_maker(variable.0, outs),
        Source::Result(op) => Some(op),
    }
}

/// Whether the loop can be left at its exit: then its test is known, all stores of the last iteration that runs are done, and the values that variables take from it are there.
fn exit_is_in_time(region: &Loop<Timed>) -> bool
    ensures { result ≡ spec.exit_in_time region.now }
{
    let ops = region.body.ops.as_slice();
    let exit = u64::from(region.exit);
    let last = exit + u64::from(region.ii);
    is_ready_by(ops, exit, test_maker(region.body.test))
        && are_stored(ops, last)
        && outs_are_ready(ops, last, &region.body.outs)
}

fn loop_is_well_timed(memories: &[Memory], region: &Loop<Timed>) -> bool
    ensures { result ≡ spec.loop_in_time memories.now region.now }
{
    let flow = Flow {
        body: &region.body,
        memories,
        interval: Some(region.ii),
    };
    let known = known_first(&region.body.outs, region.body.test);
    region.ii >= 1
        && flow.is_well_timed()
        && is_ready_by(&region.body.ops, u64::from(region.ii), known)
        && exit_is_in_time(region)
}

fn nodes_are_well_timed(memories: &[Memory], nodes: &[Node<Timed>]) -> bool
    ensures { result ≡ list_all (spec.node_in_time memories.now) nodes.now }
{
    for node in nodes {
        let is_good = match node {
            Node::Plain(block) => block_is_well_timed(memories, block),
            Node::Looped(region) => loop_is_well_timed(memories, region),
        };
        if !is_good {
            return false;
        }
    }
    true
}

/// Whether the times of a program keep all that its operations wait for, and no unit is held twice in one cycle. Takes no memory.
pub fn well_timed(cfg: &Cfg<Timed>) -> bool
    ensures { IsTrue result ↔ IsWellTimed (untimed cfg.now) cfg.now }
{
    nodes_are_well_timed(&cfg.frame.memories, &cfg.nodes)
}
