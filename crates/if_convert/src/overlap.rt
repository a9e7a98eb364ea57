//! A loop of a block for its test and one for its body becomes one whose iterations may overlap.
ghost use Rattle.std.specs.Prelude.{◌≡◌, IfOk, map, not, ◌&&◌, false};
ghost use Rattle.std.specs.Option.{option_map};
ghost use Rattle.ir_core.specs.Bodies.{op_of};
ghost use Rattle.ir_core.specs.Trees.{sequence_of, side_of, shape_of, block_of, exit_of, loop};
ghost use Rattle.ir_core.specs.TreeRuns.{tested_by};
ghost use Rattle.passes.specs.Conversion.Merging.{is_only, test_of};
ghost use Rattle.passes.specs.Conversion.Overlapping as spec;
ghost use Rattle.if_convert.specs.Entries.{outs_of};

use crate::fork::{into_first, is_only_block, test_of};
use crate::joining::needs_guard;
use crate::merging::{Open, Scope};
use crate::outs::{Sets, is_set, outs_in};
use ir_core::body::{Body, Op, Operand, Out, Source};
use ir_core::stamp::Untimed;
use ir_core::tree::{BasicBlock, Sequence, Shape};
use smallvec::SmallVec;
use std::alloc::{AllocError, Global};

/// The parts of a loop.
#[derive(Drop)]
pub struct Parts {
    pub post: bool,
    pub test: Sequence,
    pub body: Sequence,
    pub step: Option<Sequence>,
}

// ---- which loops are overlapped

/// How many operations come before the test is known.
fn tested_by(test: Operand) -> usize
    ensures { result ≡ tested_by test.value }
{
    match test.value {
        Source::Result(op) => op.0 as usize + 1,
        _ => 0,
    }
}

fn none_needs_guard(ops: &[Op<Untimed>]) -> bool
    ensures { result ≡ spec.none_needs_guard (map op_of ops.now) }
{
    for op in ops {
        if needs_guard(op) {
            return false;
        }
    }
    true
}

fn is_test(block: &BasicBlock, test: Operand) -> bool
    ensures { result ≡ spec.is_test (block_of block.now) test }
{
    let behind = tested_by(test).min(block.ops.len());
    block.outs.is_empty() && none_needs_guard(&block.ops[behind..])
}

fn test_in(block: &BasicBlock) -> Option<Operand>
    ensures { result ≡ spec.test_if (block_of block.now) (test_of (exit_of block.now.exit)) }
{
    match test_of(&block.exit) {
        Some(test) => {
            if is_test(block, test) {
                Some(test)
            } else {
                None
            }
        }
        None => None,
    }
}

/// The test of a sequence of one block alone.
fn test_alone(sequence: &Sequence) -> Option<Operand>
    ensures { result ≡ spec.test_alone (sequence_of sequence.now) }
{
    if sequence.rest.is_empty() {
        test_in(&sequence.first)
    } else {
        None
    }
}

fn overlaps(parts: &Parts) -> bool
    ensures { result ≡ (not parts.now.post && (not (spec.is_there (side_of (option_map sequence_of parts.now.step))) && is_only (sequence_of parts.now.body))) }
{
    !parts.post && parts.step.is_none() && is_only_block(&parts.body)
}

/// The test of a loop that is overlapped.
fn overlapped_test(parts: &Parts) -> Option<Operand>
    ensures { result ≡ spec.overlapped_test parts.now.post (sequence_of parts.now.test) (sequence_of parts.now.body) (side_of (option_map sequence_of parts.now.step)) }
{
    if overlaps(parts) {
        test_alone(&parts.test)
    } else {
        None
    }
}

// ---- iterations

/// What a variable that the loop changes holds at first is what the iteration before left.
fn carried(sets: &Sets, operand: Operand) -> Operand
    ensures { result ≡ spec.carried (outs_of sets.now) operand }
{
    match operand.value {
        Source::Variable(variable) => {
            if is_set(sets, variable) {
                Operand {
                    distance: 1,
                    ..operand
                }
            } else {
                operand
            }
        }
        _ => operand,
    }
}

fn carried_args(
    alloc: Global,
    sets: &Sets,
    args: &[Operand],
) -> Result<SmallVec<Operand, 4, Global>, AllocError>
    ensures { IfOk result (λ done. done.items ≡ map (spec.carried (outs_of sets.now)) args.now) }
{
    let mut done = SmallVec::new(alloc);
    for arg in args {
        done.push(carried(sets, *arg))?;
    }
    Ok(done)
}

fn carried_op(alloc: Global, sets: &Sets, op: Op<Untimed>) -> Result<Op<Untimed>, AllocError>
    ensures { IfOk result (λ done. op_of done ≡ spec.carried_op (outs_of sets.now) (op_of op)) }
{
    let args = carried_args(alloc, sets, op.args.as_slice())?;
    let guard = match op.guard {
        Some(guard) => Some(carried(sets, guard)),
        None => None,
    };
    Ok(Op { args, guard, ..op })
}

fn carried_ops(
    alloc: Global,
    sets: &Sets,
    ops: Vec<Op<Untimed>>,
) -> Result<Vec<Op<Untimed>>, AllocError>
    ensures { IfOk result (λ done. map op_of done.items ≡ map (spec.carried_op (outs_of sets.now)) (map op_of ops.items)) }
{
    let mut done = Vec::new(alloc);
    for op in ops {
        done.push(carried_op(alloc, sets, op)?)?;
    }
    Ok(done)
}

fn carried_outs(alloc: Global, sets: &Sets, outs: &[Out]) -> Result<Vec<Out>, AllocError>
    ensures { IfOk result (λ done. done.items ≡ map (spec.carried_out (outs_of sets.now)) outs.now) }
{
    let mut done = Vec::new(alloc);
    for out in outs {
        done.push(Out {
            variable: out.variable,
            value: carried(sets, out.value),
        })?;
    }
    Ok(done)
}

impl Open {
    ghost use Rattle.std.specs.Prelude.{◌≡◌, IfOk};
    ghost use Rattle.ir_core.specs.Trees.{body_of};
    ghost use Rattle.passes.specs.Conversion.Overlapping as spec;
    ghost use Rattle.if_convert.specs.Blocks.{open_of};

    /// The block as an iteration with this test.
    fn iteration(self, alloc: Global, test: Operand) -> Result<Body<Untimed>, AllocError>
        ensures { IfOk result (λ body. body_of body ≡ spec.iteration test (open_of self)) }
    {
        let Open { ops, sets, .. } = self;
        let outs = outs_in(alloc, &sets)?;
        Ok(Body {
            ops: carried_ops(alloc, &sets, ops)?,
            outs: carried_outs(alloc, &sets, outs.as_slice())?,
            test: Some(carried(&sets, test)),
        })
    }
}

/// The loop's operations are those of the test and then those of the body.
fn overlapped(
    scope: Scope<'_>,
    test: Operand,
    head: BasicBlock,
    body: BasicBlock,
) -> Result<Shape, AllocError>
    ensures { IfOk result (λ shape. shape_of shape ≡ spec.overlapping scope.entry.variables.now test (block_of head) (block_of body)) }
{
    let point = body.point.copy(scope.alloc)?;
    let open = Open::new(scope.alloc, head)?;
    let open = open.join(scope, body)?;
    let body = open.iteration(scope.alloc, test)?;
    Ok(Shape::Overlapped { point, body })
}

fn boxed(alloc: Global, step: Option<Sequence>) -> Result<Option<Box<Sequence>>, AllocError>
    ensures { IfOk result (λ boxed. side_of (option_map (λ part. sequence_of part.value) boxed) ≡ side_of (option_map sequence_of step)) }
{
    match step {
        Some(step) => Ok(Some(Box::new(alloc, step)?)),
        None => Ok(None),
    }
}

/// A loop that stays.
fn kept(alloc: Global, parts: Parts) -> Result<Shape, AllocError>
    ensures { IfOk result (λ shape. shape_of shape ≡ loop parts.post (sequence_of parts.test) (sequence_of parts.body) (side_of (option_map sequence_of parts.step)) false) }
{
    let Parts {
        post,
        test,
        body,
        step,
    } = parts;
    Ok(Shape::Loop {
        post,
        test: Box::new(alloc, test)?,
        body: Box::new(alloc, body)?,
        step: boxed(alloc, step)?,
        eligible: false,
    })
}

/// The test of a loop that is overlapped, if it is to be and can be.
fn chosen_test(parts: &Parts, eligible: bool) -> Option<Operand>
    ensures { result ≡ spec.chosen_test eligible parts.now.post (sequence_of parts.now.test) (sequence_of parts.now.body) (side_of (option_map sequence_of parts.now.step)) }
{
    if eligible {
        overlapped_test(parts)
    } else {
        None
    }
}

/// A loop, which is overlapped if it is to be and can be.
pub fn converted_loop(scope: Scope<'_>, parts: Parts, eligible: bool) -> Result<Shape, AllocError>
    ensures { IfOk result (λ shape. shape_of shape ≡ spec.converted_loop scope.entry.variables.now eligible parts.post (sequence_of parts.test) (sequence_of parts.body) (side_of (option_map sequence_of parts.step))) }
{
    match chosen_test(&parts, eligible) {
        Some(test) => {
            let Parts {
                test: head,
                body,
                ..
            } = parts;
            overlapped(scope, test, into_first(head), into_first(body))
        }
        None => kept(scope.alloc, parts),
    }
}
