//! The body in which pairs of operations are fused. Called by fuse.
ghost use Rattle.std.specs.Prelude.{◌≡◌, ℕ, ◌<◌, ◌||◌, ◌++◌, take, drop, false, IfOk, OnOk, length, map, get_or, slice_get, Some, if◌then◌else◌};
ghost use Rattle.std.specs.Option.{option_map};
ghost use Rattle.ir_core.specs.Bodies.{op_of};
ghost use Rattle.op_chain.specs.Fusing as f;
ghost use Rattle.op_chain.specs.Views as view;

use crate::choices::Taking;
use hls_base::number::OpId;
use ir_core::body::{Op, OpKind, Operand, Out, Source};
use ir_core::stamp::Untimed;
use smallvec::SmallVec;
use std::alloc::{AllocError, Global};

/// The operations of the new body, and the new number of each old one. Nothing reads the number of a dropped operation.
#[derive(Drop)]
pub struct Rebuilt {
    pub ops: Vec<Op<Untimed>>,
    pub now: Vec<usize>,
}

fn moved_result(now: &[usize], op: OpId) -> OpId
    requires { view.IsCompact now.now }
    ensures { result.0 ≡ get_or now.now op.0 op.0 }
{
    let index = op.0 as usize;
    if index < now.len() {
        OpId(now[index] as u32)
    } else {
        op
    }
}

/// The operand with the new numbers of operations.
pub fn moved(now: &[usize], operand: Operand) -> Operand
    requires { view.IsCompact now.now }
    ensures { result ≡ f.moved now.now operand }
{
    match operand.value {
        Source::Result(op) => Operand {
            value: Source::Result(moved_result(now, op)),
            distance: operand.distance,
        },
        _ => operand,
    }
}

pub fn moved_optional(now: &[usize], operand: Option<Operand>) -> Option<Operand>
    requires { view.IsCompact now.now }
    ensures { result ≡ option_map (f.moved now.now) operand }
{
    match operand {
        Some(operand) => Some(moved(now, operand)),
        None => None,
    }
}

fn append_moved(
    args: &mut SmallVec<Operand, 4, Global>,
    now: &[usize],
    operands: &[Operand],
) -> Result<(), AllocError>
    requires { view.IsCompact now.now }
    ensures { OnOk result (args.new.items ≡ args.old.items ++ map (f.moved now.now) operands.now) }
{
    for operand in operands {
        args.push(moved(now, *operand))?;
    }
    Ok(())
}

fn moved_op(alloc: Global, now: &[usize], op: &Op<Untimed>) -> Result<Op<Untimed>, AllocError>
    requires { view.IsCompact now.now }
    ensures { IfOk result (λ made. op_of made ≡ f.moved_op now.now (op_of op.now)) }
{
    let mut args = SmallVec::new(alloc);
    append_moved(&mut args, now, op.args.as_slice())?;
    Ok(Op {
        kind: op.kind,
        signed: op.signed,
        bits: op.bits,
        args,
        array: op.array,
        guard: moved_optional(now, op.guard),
        flag: op.flag,
        stamp: Untimed,
    })
}

/// The argument of the second operation that is not the first one's result.
fn other_args(left: bool, args: &[Operand]) -> &[Operand]
    ensures { result.now ≡ (if left then drop 1 args.now else take 1 args.now) }
{
    let first = if args.is_empty() { 0 } else { 1 };
    if left { &args[first..] } else { &args[..first] }
}

/// Appends the moved arguments of operation `index`.
fn append_taken(
    args: &mut SmallVec<Operand, 4, Global>,
    now: &[usize],
    ops: &[Op<Untimed>],
    index: usize,
) -> Result<(), AllocError>
    requires { view.IsCompact now.now }
    ensures { OnOk result (args.new.items ≡ args.old.items ++ map (f.moved now.now) (f.args_of (slice_get (map op_of ops.now) index))) }
{
    if index < ops.len() {
        append_moved(args, now, ops[index].args.as_slice())?;
    }
    Ok(())
}

fn fused_op(
    alloc: Global,
    now: &[usize],
    ops: &[Op<Untimed>],
    two: &Op<Untimed>,
    taking: Taking,
) -> Result<Op<Untimed>, AllocError>
    requires { view.IsCompact now.now }
    ensures { IfOk result (λ made. op_of made ≡ f.fused_op (map op_of ops.now) now.now (op_of two.now) taking) }
{
    let mut args = SmallVec::new(alloc);
    append_taken(&mut args, now, ops, taking.op)?;
    append_moved(
        &mut args,
        now,
        other_args(taking.pairing.left, two.args.as_slice()),
    )?;
    Ok(Op {
        kind: OpKind::Fused(taking.pairing),
        signed: two.signed,
        bits: two.bits,
        args,
        array: None,
        guard: None,
        flag: None,
        stamp: Untimed,
    })
}

fn new_op(
    alloc: Global,
    now: &[usize],
    ops: &[Op<Untimed>],
    op: &Op<Untimed>,
    choice: Option<Taking>,
) -> Result<Op<Untimed>, AllocError>
    requires { view.IsCompact now.now }
    ensures { IfOk result (λ made. op_of made ≡ f.new_op (map op_of ops.now) now.now (op_of op.now) (Some choice)) }
{
    match choice {
        Some(taking) => fused_op(alloc, now, ops, op, taking),
        None => moved_op(alloc, now, op),
    }
}

fn mark_taken(taken: &mut [bool], choices: &[Option<Taking>])
    ensures count { length taken.new ≡ length taken.old }
    ensures taken { (u : ℕ) → u < length taken.old → get_or taken.new u false ≡ (get_or taken.old u false || f.is_taken choices.now u) }
{
    for choice in choices {
        if let Some(taking) = choice {
            let index = taking.op;
            if index < taken.len() {
                taken[index] = true;
            }
        }
    }
}

/// For each of `count` operations whether another one takes it in.
fn taken_of(
    alloc: Global,
    count: usize,
    choices: &[Option<Taking>],
) -> Result<Vec<bool>, AllocError>
    ensures count { IfOk result (λ taken. length taken.items ≡ count) }
    ensures taken { IfOk result (λ taken. (u : ℕ) → u < count → get_or taken.items u false ≡ f.is_taken choices.now u) }
{
    let mut taken = vec![in alloc; false; count]?;
    mark_taken(&mut taken, choices);
    Ok(taken)
}

/// The operations of the new body in order.
pub fn rebuild(
    alloc: Global,
    ops: &[Op<Untimed>],
    choices: &[Option<Taking>],
) -> Result<Rebuilt, AllocError>
    requires { length choices.now ≡ length ops.now }
    ensures compact { IfOk result (λ rebuilt. view.IsCompact rebuilt.now.items) }
    ensures made { IfOk result (λ rebuilt. view.made_of rebuilt ≡ f.made_by (map op_of ops.now) choices.now) }
{
    let taken = taken_of(alloc, ops.len(), choices)?;
    let mut rebuilt = Rebuilt {
        ops: Vec::new(alloc),
        now: Vec::new(alloc),
    };
    for (index, op) in ops.iter().enumerate() {
        let number = rebuilt.ops.len();
        if !taken[index] {
            let op = new_op(alloc, rebuilt.now.as_slice(), ops, op, choices[index])?;
            rebuilt.ops.push(op)?;
        }
        rebuilt.now.push(number)?;
    }
    Ok(rebuilt)
}

pub fn moved_outs(alloc: Global, now: &[usize], outs: &[Out]) -> Result<Vec<Out>, AllocError>
    requires { view.IsCompact now.now }
    ensures { IfOk result (λ done. done.items ≡ map (f.moved_out now.now) outs.now) }
{
    let mut done = Vec::new(alloc);
    for out in outs {
        done.push(Out {
            variable: out.variable,
            value: moved(now, out.value),
        })?;
    }
    Ok(done)
}
