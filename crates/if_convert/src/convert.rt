//! All forks and loops of a program.
ghost use Rattle.std.specs.Prelude.{◌≡◌, ◌&&◌, IfOk, map};
ghost use Rattle.std.specs.Option.{option_map};
ghost use Rattle.ir_core.specs.Trees.{sequence_of, shape_of, block_of, part_of, part_row, PartTrees, side_of, arm_row};
ghost use Rattle.passes.specs.Conversion as spec;
ghost use Rattle.if_convert.specs.Blocks.{scope_of, last_of, before_last, behind_shape};

use crate::boxes::{
    Held, SplitPart, SplitSequence, SplitShape, held_items, push_from, split_part, split_sequence,
    split_shape, whole_shape,
};
use crate::line::Line;
use crate::merging::Scope;
use crate::steps::{Round, begin, begin_nowhere, close, converted_loop, go_on};
use ir_core::tree::{BlockTree, Part, Sequence, Shape};
use std::alloc::{AllocError, Global};

/// The program in which each convertible fork is merged into the block before it, and, with `loops`, each eligible loop is one whose iterations may overlap.
pub fn convert(alloc: Global, tree: BlockTree, loops: bool) -> Result<BlockTree, AllocError>
    ensures frame { IfOk result (λ converted. converted.frame ≡ tree.frame) }
    ensures returned { IfOk result (λ converted. converted.result ≡ tree.result) }
    ensures blocks { IfOk result (λ converted. sequence_of converted.blocks ≡ spec.converted_sequence (record { widths = tree.frame.variables.items; loops = loops }) (sequence_of tree.blocks)) }
{
    let BlockTree {
        frame,
        blocks,
        result,
    } = tree;
    let scope = Scope {
        alloc,
        variables: frame.variables.as_slice(),
        loops,
    };
    let blocks = Held::new(alloc, blocks)?;
    let blocks = convert_sequence(scope, blocks)?;
    Ok(BlockTree {
        frame,
        blocks: blocks.into_inner(),
        result,
    })
}

#[inline(never)]
#[cycle(sequence)]
fn convert_sequence(
    scope: Scope<'_>,
    sequence: Held<Sequence>,
) -> Result<Held<Sequence>, AllocError>
    ensures { IfOk result (λ converted. sequence_of converted.value ≡ spec.converted_sequence (scope_of scope.entry) (sequence_of sequence.value)) }
{
    let SplitSequence { first, rest } = split_sequence(scope.alloc, sequence)?;
    let line = begin(scope.alloc, first)?;
    convert_behind(scope, line, rest)
}

/// The parts behind a line.
#[inline(never)]
#[cycle(sequence)]
fn convert_behind(
    scope: Scope<'_>,
    line: Held<Line>,
    parts: Vec<Part>,
) -> Result<Held<Sequence>, AllocError>
    ensures { IfOk result (λ converted. sequence_of converted.value ≡ before_last line.value (spec.converted_behind (scope_of scope.entry) (last_of line.value) (part_row (map part_of parts.items)))) }
{
    let mut line = line;
    for part in held_items(scope.alloc, parts)? {
        line = convert_part(scope, line, part)?;
    }
    close(scope.alloc, line)
}

/// A part behind a line.
#[inline(never)]
#[cycle(sequence)]
fn convert_part(
    scope: Scope<'_>,
    line: Held<Line>,
    part: Held<Part>,
) -> Result<Held<Line>, AllocError>
    ensures { (more : PartTrees) → IfOk result (λ gone. before_last gone.value (spec.converted_behind (scope_of scope.entry) (last_of gone.value) more) ≡ before_last line.value (behind_shape (scope_of scope.entry) (last_of line.value) (spec.converted_shape (scope_of scope.entry) (shape_of part.value.shape)) (block_of part.value.after) more)) }
{
    let SplitPart { shape, after } = split_part(scope.alloc, part)?;
    let shape = convert_shape(scope, shape)?;
    go_on(scope, line, shape, after)
}

/// Whether an eligible loop is to be overlapped.
fn overlaps(scope: Scope<'_>, eligible: bool) -> bool
    ensures { result ≡ (eligible && scope.entry.loops) }
{
    eligible && scope.loops
}

#[inline(never)]
#[cycle(sequence)]
fn convert_shape(scope: Scope<'_>, shape: Held<Shape>) -> Result<Held<Shape>, AllocError>
    ensures { IfOk result (λ converted. shape_of converted.value ≡ spec.converted_shape (scope_of scope.entry) (shape_of shape.value)) }
{
    let alloc = scope.alloc;
    match split_shape(alloc, shape)? {
        SplitShape::Fork {
            yes,
            no,
            convertible,
        } => {
            let yes = convert_side(scope, yes)?;
            let no = convert_side(scope, no)?;
            whole_shape(
                alloc,
                SplitShape::Fork {
                    yes,
                    no,
                    convertible,
                },
            )
        }
        SplitShape::Loop {
            post,
            test,
            body,
            step,
            eligible,
        } => {
            let test = convert_sequence(scope, test)?;
            let body = convert_sequence(scope, body)?;
            let step = convert_side(scope, step)?;
            let round = Round { test, body, step };
            converted_loop(scope, post, round, overlaps(scope, eligible))
        }
        SplitShape::Choose {
            dead,
            targets,
            other,
            arms,
        } => {
            let dead = convert_dead(scope, dead)?;
            let arms = convert_arms(scope, arms)?;
            whole_shape(
                alloc,
                SplitShape::Choose {
                    dead,
                    targets,
                    other,
                    arms,
                },
            )
        }
        SplitShape::Land(number) => whole_shape(alloc, SplitShape::Land(number)),
        SplitShape::Overlapped { point, body } => {
            whole_shape(alloc, SplitShape::Overlapped { point, body })
        }
    }
}

#[cycle(sequence)]
fn convert_side(
    scope: Scope<'_>,
    side: Option<Held<Sequence>>,
) -> Result<Option<Held<Sequence>>, AllocError>
    ensures { IfOk result (λ converted. side_of (option_map (λ part. sequence_of part.value) converted) ≡ spec.converted_side (scope_of scope.entry) (side_of (option_map (λ part. sequence_of part.value) side))) }
{
    match side {
        Some(sequence) => Ok(Some(convert_sequence(scope, sequence)?)),
        None => Ok(None),
    }
}

/// What stands before the first arm of a switch.
#[inline(never)]
#[cycle(sequence)]
fn convert_dead(scope: Scope<'_>, dead: Vec<Part>) -> Result<Vec<Part>, AllocError>
    ensures { IfOk result (λ converted. part_row (map part_of converted.items) ≡ spec.converted_parts (scope_of scope.entry) (part_row (map part_of dead.items))) }
{
    let line = begin_nowhere(scope.alloc)?;
    let sequence = convert_behind(scope, line, dead)?;
    let SplitSequence { rest, .. } = split_sequence(scope.alloc, sequence)?;
    Ok(rest)
}

#[inline(never)]
#[cycle(sequence)]
fn convert_arms(scope: Scope<'_>, arms: Vec<Sequence>) -> Result<Vec<Sequence>, AllocError>
    ensures { IfOk result (λ converted. arm_row (map sequence_of converted.items) ≡ spec.converted_arms (scope_of scope.entry) (arm_row (map sequence_of arms.items))) }
{
    let mut done = Vec::new(scope.alloc);
    for arm in held_items(scope.alloc, arms)? {
        let arm = convert_sequence(scope, arm)?;
        push_from(&mut done, arm)?;
    }
    Ok(done)
}
