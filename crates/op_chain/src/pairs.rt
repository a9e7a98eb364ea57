//! Which operations of a body are a fusable pair. Called by choices.
ghost use Rattle.std.specs.Prelude.{◌≡◌, List, ◌<◌, Some, map, length, slice_get};
ghost use Rattle.std.specs.List.{list_any};
ghost use Rattle.ir_core.specs.declared.body.Operand.{Operand};
ghost use Rattle.ir_core.specs.Bodies.{OpTree, op_of};
ghost use Rattle.op_chain.specs.Reads as r;
ghost use Rattle.op_chain.specs.Pairs as p;
ghost use Rattle.op_chain.specs.Views as view;

use ir_core::body::{Op, OpKind, Operand, Simple, Source};
use ir_core::stamp::Untimed;

/// What the pairs of a body depend on: the period, how often the node reads each operation's result, and which results reach a subscript.
#[derive(Clone, Copy)]
pub struct Scope<'a> {
    pub period: u32,
    pub reads: &'a [u8],
    pub reaching: &'a [bool],
}

/// The operator of a kind that may be fused.
pub fn simple_of(kind: OpKind) -> Option<Simple>
    ensures { result ≡ p.simple_of kind }
{
    match kind {
        OpKind::Add => Some(Simple::Add),
        OpKind::Sub => Some(Simple::Sub),
        OpKind::And => Some(Simple::And),
        OpKind::Or => Some(Simple::Or),
        OpKind::Xor => Some(Simple::Xor),
        _ => None,
    }
}

fn delay(operator: Simple, bits: u8) -> u32
    ensures value { result ≡ p.delay operator bits }
    ensures small { result < 256 }
{
    match operator {
        Simple::Add | Simple::Sub => bits as u32,
        _ => 1,
    }
}

fn fit(period: u32, bits: u8, first: Option<Simple>, second: Option<Simple>) -> bool
    ensures { result ≡ p.fit period bits first second }
{
    match (first, second) {
        (Some(first), Some(second)) => delay(first, bits) + delay(second, bits) <= period,
        _ => false,
    }
}

fn are_alike(period: u32, one: &Op<Untimed>, two: &Op<Untimed>) -> bool
    ensures { result ≡ p.are_alike period (op_of one.now) (op_of two.now) }
{
    one.bits == two.bits
        && (one.guard.is_none() && two.guard.is_none())
        && fit(period, two.bits, simple_of(one.kind), simple_of(two.kind))
}

fn is_result_now(index: usize, operand: Operand) -> bool
    ensures { result ≡ r.is_result_now index operand }
{
    match operand.value {
        Source::Result(op) => op.0 as usize == index && operand.distance == 0,
        _ => false,
    }
}

fn has_result_now(index: usize, operands: &[Operand]) -> bool
    ensures { result ≡ list_any (r.is_result_now index) operands.now }
{
    for operand in operands {
        if is_result_now(index, *operand) {
            return true;
        }
    }
    false
}

fn is_read_by(reads: &[u8], index: usize, two: &Op<Untimed>) -> bool
    requires { index < length reads.now }
    ensures { (operands : List Operand) → view.ShowsReads reads.now operands → result ≡ p.is_read_by operands index (op_of two.now) }
{
    reads[index] == 1 && has_result_now(index, two.args.as_slice())
}

/// Whether operations u and v are a fusable pair.
pub fn is_pair(scope: Scope<'_>, ops: &[Op<Untimed>], u: usize, v: usize) -> bool
    requires first { u < length ops.now }
    requires second { v < length ops.now }
    requires reads { length scope.reads.now ≡ length ops.now }
    requires marks { length scope.reaching.now ≡ length ops.now }
    ensures { (s : p.Scope) (one two : OpTree) → view.ShowsScope scope.entry s (length ops.now) → slice_get (map op_of ops.now) u ≡ Some one → slice_get (map op_of ops.now) v ≡ Some two →
        result ≡ p.is_pair s u one v two }
{
    let one = &ops[u];
    let two = &ops[v];
    are_alike(scope.period, one, two)
        && (is_read_by(scope.reads, u, two) && (!scope.reaching[u] && !scope.reaching[v]))
}
