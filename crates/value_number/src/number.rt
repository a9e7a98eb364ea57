//! All blocks of a program.
ghost use Rattle.std.specs.Prelude.{◌≡◌, ◌||◌, IfOk, true, false, map};
ghost use Rattle.std.specs.Option.{option_map};
ghost use Rattle.ir_core.specs.Trees.{sequence_of, part_of, shape_of, block_of, part_row, side_of, arm_row};
ghost use Rattle.passes.specs.Numbering as n;
ghost use Rattle.value_number.specs.Views.{scope_of};
ghost use Rattle.value_number.specs.Settled.{is_sequence_settled, is_part_settled, is_shape_settled, is_block_settled, all_true, where_there};

use crate::block::{Scope, number_block};
use crate::boxes::{
    Held, SplitPart, SplitSequence, SplitShape, held_items, push_from, split_part, split_sequence,
    split_shape, whole_part, whole_sequence, whole_shape,
};
use ir_core::tree::{BasicBlock, BlockTree, Part, Sequence, Shape};
use std::alloc::{AllocError, Global};

/// The program in each block of which equal operations are one and operations on constants are computed. In a loop that may be overlapped two that each make an out stay two.
pub fn number(alloc: Global, tree: BlockTree) -> Result<BlockTree, AllocError>
    ensures frame { IfOk result (λ numbered. numbered.frame ≡ tree.frame) }
    ensures returned { IfOk result (λ numbered. numbered.result ≡ tree.result) }
    ensures numbered { IfOk result (λ numbered. sequence_of numbered.blocks ≡ n.numbered_sequence (record { widths = tree.frame.variables.items; apart = false }) (sequence_of tree.blocks)) }
    ensures settled { IfOk result (λ numbered. is_sequence_settled numbered.blocks ≡ true) }
{
    let BlockTree {
        frame,
        blocks,
        result,
    } = tree;
    let scope = Scope {
        alloc,
        variables: frame.variables.as_slice(),
        apart: false,
    };
    let blocks = Held::new(alloc, blocks)?;
    let blocks = number_sequence(scope, blocks)?;
    Ok(BlockTree {
        frame,
        blocks: blocks.into_inner(),
        result,
    })
}

#[inline(never)]
fn number_boxed(scope: Scope<'_>, block: Held<BasicBlock>) -> Result<Held<BasicBlock>, AllocError>
    ensures block { IfOk result (λ numbered. block_of numbered.value ≡ n.numbered_block (scope_of scope.entry) (block_of block.value)) }
    ensures settled { IfOk result (λ numbered. is_block_settled numbered.value ≡ true) }
{
    let block = number_block(scope, block.into_inner())?;
    Held::new(scope.alloc, block)
}

#[inline(never)]
#[tactic(auto, using(crate::proofs::Adding::adding))]
#[cycle(sequence)]
fn number_sequence(scope: Scope<'_>, sequence: Held<Sequence>) -> Result<Held<Sequence>, AllocError>
    ensures numbered { IfOk result (λ numbered. sequence_of numbered.value ≡ n.numbered_sequence (scope_of scope.entry) (sequence_of sequence.value)) }
    ensures settled { IfOk result (λ numbered. is_sequence_settled numbered.value ≡ true) }
{
    let SplitSequence { first, rest } = split_sequence(scope.alloc, sequence)?;
    let first = number_boxed(scope, first)?;
    let rest = number_parts(scope, rest)?;
    whole_sequence(scope.alloc, SplitSequence { first, rest })
}

#[inline(never)]
#[tactic(auto, using(crate::proofs::Adding::adding))]
#[cycle(sequence)]
fn number_parts(scope: Scope<'_>, parts: Vec<Part>) -> Result<Vec<Part>, AllocError>
    ensures numbered { IfOk result (λ numbered. part_row (map part_of numbered.items) ≡ n.numbered_parts (scope_of scope.entry) (part_row (map part_of parts.items))) }
    ensures settled { IfOk result (λ numbered. all_true (map is_part_settled numbered.items) ≡ true) }
{
    let mut done = Vec::new(scope.alloc);
    for part in held_items(scope.alloc, parts)? {
        let part = number_part(scope, part)?;
        push_from(&mut done, part)?;
    }
    Ok(done)
}

#[inline(never)]
#[tactic(auto, using(crate::proofs::Adding::adding))]
#[cycle(sequence)]
fn number_part(scope: Scope<'_>, part: Held<Part>) -> Result<Held<Part>, AllocError>
    ensures shape { IfOk result (λ numbered. shape_of numbered.value.shape ≡ n.numbered_shape (scope_of scope.entry) (shape_of part.value.shape)) }
    ensures after { IfOk result (λ numbered. block_of numbered.value.after ≡ n.numbered_block (scope_of scope.entry) (block_of part.value.after)) }
    ensures settled { IfOk result (λ numbered. is_part_settled numbered.value ≡ true) }
{
    let SplitPart { shape, after } = split_part(scope.alloc, part)?;
    let shape = number_shape(scope, shape)?;
    let after = number_boxed(scope, after)?;
    whole_part(scope.alloc, SplitPart { shape, after })
}

/// Whether two operations that each make an out stay two in a loop.
fn is_apart(scope: Scope<'_>, eligible: bool) -> bool
    ensures { result ≡ (scope.entry.apart || eligible) }
{
    scope.apart || eligible
}

#[inline(never)]
#[tactic(auto, using(crate::proofs::Adding::adding))]
#[cycle(sequence)]
fn number_shape(scope: Scope<'_>, shape: Held<Shape>) -> Result<Held<Shape>, AllocError>
    ensures numbered { IfOk result (λ numbered. shape_of numbered.value ≡ n.numbered_shape (scope_of scope.entry) (shape_of shape.value)) }
    ensures settled { IfOk result (λ numbered. is_shape_settled numbered.value ≡ true) }
{
    let alloc = scope.alloc;
    match split_shape(alloc, shape)? {
        SplitShape::Fork {
            yes,
            no,
            convertible,
        } => {
            let yes = number_side(scope, yes)?;
            let no = number_side(scope, no)?;
            whole_shape(
                alloc,
                SplitShape::Fork {
                    yes,
                    no,
                    convertible,
                },
            )
        }
        SplitShape::Loop {
            post,
            test,
            body,
            step,
            eligible,
        } => {
            let scope = Scope {
                apart: is_apart(scope, eligible),
                ..scope
            };
            let test = number_sequence(scope, test)?;
            let body = number_sequence(scope, body)?;
            let step = number_side(scope, step)?;
            whole_shape(
                alloc,
                SplitShape::Loop {
                    post,
                    test,
                    body,
                    step,
                    eligible,
                },
            )
        }
        SplitShape::Choose {
            dead,
            targets,
            other,
            arms,
        } => {
            let dead = number_parts(scope, dead)?;
            let arms = number_arms(scope, arms)?;
            whole_shape(
                alloc,
                SplitShape::Choose {
                    dead,
                    targets,
                    other,
                    arms,
                },
            )
        }
        SplitShape::Land(number) => whole_shape(alloc, SplitShape::Land(number)),
        SplitShape::Overlapped { point, body } => {
            whole_shape(alloc, SplitShape::Overlapped { point, body })
        }
    }
}

#[cycle(sequence)]
fn number_side(
    scope: Scope<'_>,
    side: Option<Held<Sequence>>,
) -> Result<Option<Held<Sequence>>, AllocError>
    ensures numbered { IfOk result (λ numbered. side_of (option_map (λ part. sequence_of part.value) numbered) ≡ n.numbered_side (scope_of scope.entry) (side_of (option_map (λ part. sequence_of part.value) side))) }
    ensures settled { IfOk result (λ numbered. where_there (option_map (λ part. is_sequence_settled part.value) numbered) ≡ true) }
{
    match side {
        Some(sequence) => Ok(Some(number_sequence(scope, sequence)?)),
        None => Ok(None),
    }
}

#[inline(never)]
#[tactic(auto, using(crate::proofs::Adding::adding))]
#[cycle(sequence)]
fn number_arms(scope: Scope<'_>, arms: Vec<Sequence>) -> Result<Vec<Sequence>, AllocError>
    ensures numbered { IfOk result (λ numbered. arm_row (map sequence_of numbered.items) ≡ n.numbered_arms (scope_of scope.entry) (arm_row (map sequence_of arms.items))) }
    ensures settled { IfOk result (λ numbered. all_true (map is_sequence_settled numbered.items) ≡ true) }
{
    let mut done = Vec::new(scope.alloc);
    for arm in held_items(scope.alloc, arms)? {
        let arm = number_sequence(scope, arm)?;
        push_from(&mut done, arm)?;
    }
    Ok(done)
}
