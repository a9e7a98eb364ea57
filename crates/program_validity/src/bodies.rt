//! Whether the body of a block or of a loop is valid.
ghost use Rattle.std.specs.Prelude.{◌≡◌, [], take};
ghost use Rattle.std.specs.List.{list_all};
ghost use Rattle.ir_core.specs.TreeRuns.{tested};
ghost use Rattle.program_validity.specs.Bodies as spec;

use crate::frames::are_few;
use crate::operands::{is_operand, is_operand_if};
use crate::operations::is_operation;
use dep_graph::access::is_store;
use ir_core::body::{Body, Op, Operand, Out, Source};
use ir_core::cfg::Frame;
use ir_core::stamp::Stamp;

fn are_operations<S: Stamp>(frame: &Frame, carried: &[Out], ops: &[Op<S>]) -> bool
    ensures { result ≡ spec.are_operations frame.now carried.now [] ops.now }
{
    for index in 0..ops.len() {
        if !is_operation(frame, carried, &ops[..index], &ops[index]) {
            return false;
        }
    }
    true
}

fn is_out<S: Stamp>(frame: &Frame, carried: &[Out], ops: &[Op<S>], out: Out) -> bool
    ensures { result ≡ spec.is_out frame.now carried.now ops.now out }
{
    let index = out.variable.0 as usize;
    if index >= frame.variables.len() {
        return false;
    }
    let bits = frame.variables[index];
    is_operand(&frame.variables, carried, ops, bits, out.value)
}

fn are_outs<S: Stamp>(frame: &Frame, carried: &[Out], ops: &[Op<S>], outs: &[Out]) -> bool
    ensures { result ≡ list_all (spec.is_out frame.now carried.now ops.now) outs.now }
{
    for out in outs {
        if !is_out(frame, carried, ops, *out) {
            return false;
        }
    }
    true
}

fn is_body<S: Stamp>(frame: &Frame, carried: &[Out], body: &Body<S>) -> bool
    ensures { result ≡ spec.is_body frame.now carried.now body.now }
{
    are_few(body.ops.len())
        && are_operations(frame, carried, &body.ops)
        && are_outs(frame, carried, &body.ops, &body.outs)
}

/// Whether the body of a block is valid.
pub fn is_block_body<S: Stamp>(frame: &Frame, body: &Body<S>) -> bool
    ensures { result ≡ spec.is_block_body frame.now body.now }
{
    body.test.is_none() && is_body(frame, &[], body)
}

fn names_result(one: Source, other: Source) -> bool
    ensures { result ≡ spec.names_result one other }
{
    match (one, other) {
        (Source::Result(op), Source::Result(another)) => op.0 == another.0,
        _ => false,
    }
}

fn is_named_again(out: Out, outs: &[Out]) -> bool
    ensures { result ≡ spec.is_named_again out outs.now }
{
    for other in outs {
        if names_result(out.value.value, other.value.value) {
            return true;
        }
    }
    false
}

/// Each out is compared with those behind it; the variables that one loop sets are few.
fn name_different(outs: &[Out]) -> bool
    ensures { result ≡ spec.name_different outs.now }
{
    for index in 0..outs.len() {
        if is_named_again(outs[index], &outs[index + 1..]) {
            return false;
        }
    }
    true
}

fn are_results(outs: &[Out]) -> bool
    ensures { result ≡ list_all spec.is_result_out outs.now }
{
    for out in outs {
        if !matches!(out.value.value, Source::Result(_)) {
            return false;
        }
    }
    true
}

fn are_no_stores<S: Stamp>(ops: &[Op<S>]) -> bool
    ensures { result ≡ list_all spec.is_no_store ops.now }
{
    for op in ops {
        if is_store(op.kind) {
            return false;
        }
    }
    true
}

/// How many operations come before the test is known.
fn tested_behind(test: Option<Operand>) -> usize
    ensures { result ≡ tested test }
{
    match test {
        Some(operand) => match operand.value {
            Source::Result(op) => op.0 as usize + 1,
            _ => 0,
        },
        None => 0,
    }
}

fn stores_wait<S: Stamp>(body: &Body<S>) -> bool
    ensures { result ≡ spec.stores_wait body.now }
{
    let known = tested_behind(body.test).min(body.ops.len());
    are_no_stores(&body.ops[..known])
}

/// Whether the body of a loop is valid.
pub fn is_loop_body<S: Stamp>(frame: &Frame, body: &Body<S>) -> bool
    ensures { result ≡ spec.is_loop_body frame.now body.now }
{
    let outs = body.outs.as_slice();
    is_body(frame, outs, body)
        && is_operand_if(&frame.variables, outs, &body.ops, 1, body.test)
        && are_results(outs)
        && name_different(outs)
        && stores_wait(body)
}
