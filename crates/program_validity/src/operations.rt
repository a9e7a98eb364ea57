//! Whether an operation is valid behind those before it.
ghost use Rattle.std.specs.Prelude.{◌≡◌};
ghost use Rattle.program_validity.specs.Operations as spec;

use crate::operands::{
    are_subscripts, is_at, is_exactly, is_narrower, is_operand, is_operand_if, is_wider, width_of,
};
use crate::widths::is_width;
use dep_graph::access::is_store;
use ir_core::body::{Op, OpKind, Out};
use ir_core::cfg::{Frame, Memory};
use ir_core::stamp::Stamp;

/// Whether C may give the operation no value.
fn may_be_undefined(kind: OpKind, signed: bool) -> bool
    ensures { result ≡ spec.may_be_undefined kind signed }
{
    match kind {
        OpKind::Add | OpKind::Sub | OpKind::Mul | OpKind::Neg => signed,
        OpKind::Div | OpKind::Rem | OpKind::Shl | OpKind::Shr => true,
        OpKind::Load | OpKind::Store => true,
        _ => false,
    }
}

fn is_flagged<S: Stamp>(op: &Op<S>) -> bool
    ensures { result ≡ spec.is_flagged op.now }
{
    if may_be_undefined(op.kind, op.signed) {
        op.flag.is_some()
    } else {
        op.flag.is_none()
    }
}

fn is_width_of(kind: OpKind, bits: u8) -> bool
    ensures { result ≡ spec.is_width_of kind bits }
{
    match kind {
        OpKind::Mul | OpKind::Div | OpKind::Rem => bits == 32 || bits == 64,
        _ => is_width(bits),
    }
}

fn is_one<S: Stamp>(widths: &[u8], carried: &[Out], before: &[Op<S>], op: &Op<S>) -> bool
    ensures { result ≡ spec.is_one widths.now carried.now before.now op.now.bits op.now.args.items }
{
    match op.args.as_slice() {
        [operand] => is_operand(widths, carried, before, op.bits, *operand),
        _ => false,
    }
}

fn are_two<S: Stamp>(widths: &[u8], carried: &[Out], before: &[Op<S>], op: &Op<S>) -> bool
    ensures { result ≡ spec.are_two widths.now carried.now before.now op.now.bits op.now.args.items }
{
    match op.args.as_slice() {
        [left, right] => {
            is_operand(widths, carried, before, op.bits, *left)
                && is_operand(widths, carried, before, op.bits, *right)
        }
        _ => false,
    }
}

/// Three operands, of which the first one has a width of its own.
fn are_three<S: Stamp>(
    widths: &[u8],
    carried: &[Out],
    before: &[Op<S>],
    first: u8,
    op: &Op<S>,
) -> bool
    ensures { result ≡ spec.are_three widths.now carried.now before.now first op.now.bits op.now.args.items }
{
    match op.args.as_slice() {
        [x, y, z] => {
            is_operand(widths, carried, before, first, *x)
                && is_operand(widths, carried, before, op.bits, *y)
                && is_operand(widths, carried, before, op.bits, *z)
        }
        _ => false,
    }
}

/// Whether a conversion to this width is made of this width.
fn converts(kind: OpKind, bits: u8, width: Option<u8>) -> bool
    ensures { result ≡ spec.converts kind bits width }
{
    match kind {
        OpKind::Widen => is_narrower(bits, width),
        OpKind::Narrow => is_wider(bits, width),
        _ => is_exactly(bits, width),
    }
}

fn is_converted<S: Stamp>(widths: &[u8], carried: &[Out], before: &[Op<S>], op: &Op<S>) -> bool
    ensures { result ≡ spec.is_converted widths.now carried.now before.now op.now.kind op.now.bits op.now.args.items }
{
    match op.args.as_slice() {
        [operand] => {
            converts(op.kind, op.bits, width_of(widths, before, operand.value))
                && is_at(carried, *operand)
        }
        _ => false,
    }
}

fn computes<S: Stamp>(widths: &[u8], carried: &[Out], before: &[Op<S>], op: &Op<S>) -> bool
    ensures { result ≡ spec.computes widths.now carried.now before.now op.now.kind op.now.bits op.now.args.items }
{
    match op.kind {
        OpKind::Not | OpKind::Neg | OpKind::Copy => is_one(widths, carried, before, op),
        OpKind::Widen | OpKind::Narrow | OpKind::Truth => {
            is_converted(widths, carried, before, op)
        }
        OpKind::Select => are_three(widths, carried, before, 1, op),
        OpKind::Fused(_) => are_three(widths, carried, before, op.bits, op),
        _ => are_two(widths, carried, before, op),
    }
}

/// Whether a load has one subscript for each dimension, and the width of its elements.
fn loads<S: Stamp>(
    widths: &[u8],
    carried: &[Out],
    before: &[Op<S>],
    op: &Op<S>,
    memory: &Memory,
) -> bool
    ensures { result ≡ spec.loads widths.now carried.now before.now op.now memory.now }
{
    let args = op.args.as_slice();
    memory.bits == op.bits
        && args.len() == memory.dims.len()
        && are_subscripts(widths, carried, before, args)
}

/// Whether a store has the stored value behind its subscripts, and names no table.
fn stores<S: Stamp>(
    widths: &[u8],
    carried: &[Out],
    before: &[Op<S>],
    op: &Op<S>,
    memory: &Memory,
) -> bool
    ensures { result ≡ spec.stores widths.now carried.now before.now op.now memory.now }
{
    let args = op.args.as_slice();
    let count = memory.dims.len();
    if memory.bits != op.bits || memory.table.is_some() || args.len() != count + 1 {
        return false;
    }
    are_subscripts(widths, carried, before, &args[..count])
        && is_operand(widths, carried, before, op.bits, args[count])
}

fn accesses<S: Stamp>(frame: &Frame, carried: &[Out], before: &[Op<S>], op: &Op<S>) -> bool
    ensures { result ≡ spec.accesses frame.now carried.now before.now op.now }
{
    let Some(array) = op.array else {
        return false;
    };
    let index = array.0 as usize;
    if index >= frame.memories.len() {
        return false;
    }
    let memory = &frame.memories[index];
    if is_store(op.kind) {
        stores(&frame.variables, carried, before, op, memory)
    } else {
        loads(&frame.variables, carried, before, op, memory)
    }
}

fn acts<S: Stamp>(frame: &Frame, carried: &[Out], before: &[Op<S>], op: &Op<S>) -> bool
    ensures { result ≡ spec.acts frame.now carried.now before.now op.now op.now.kind }
{
    match op.kind {
        OpKind::Load | OpKind::Store => accesses(frame, carried, before, op),
        _ => op.array.is_none() && computes(&frame.variables, carried, before, op),
    }
}

/// Whether an operation of a body that carries these outs to its next iteration is valid behind these operations.
pub fn is_operation<S: Stamp>(frame: &Frame, carried: &[Out], before: &[Op<S>], op: &Op<S>) -> bool
    ensures { result ≡ spec.is_operation frame.now carried.now before.now op.now }
{
    is_width_of(op.kind, op.bits)
        && is_flagged(op)
        && is_operand_if(&frame.variables, carried, before, 1, op.guard)
        && acts(frame, carried, before, op)
}
