//! Which forks are merged into the block before them.
ghost use Rattle.std.specs.Prelude.{◌≡◌, ◌&&◌};
ghost use Rattle.std.specs.Option.{option_map};
ghost use Rattle.ir_core.specs.Trees.{sequence_of, side_of, shape_of, exit_of, block_of, fork};
ghost use Rattle.passes.specs.Conversion.Merging as spec;
ghost use Rattle.if_convert.specs.Blocks.{Finds};

use crate::merging::Branches;
use ir_core::body::Operand;
use ir_core::tree::{BasicBlock, Exit, Sequence, Shape};

/// A fork that is merged, or any other shape.
#[derive(Drop)]
pub enum Found {
    Branches(Branches),
    Shape(Shape),
}

/// Whether a sequence has one block alone, which leads on.
pub fn is_only_block(sequence: &Sequence) -> bool
    ensures { result ≡ spec.is_only (sequence_of sequence.now) }
{
    sequence.rest.is_empty() && matches!(sequence.first.exit, Exit::Next)
}

fn is_only_side(side: &Option<Sequence>) -> bool
    ensures { result ≡ spec.is_only_side (side_of (option_map sequence_of side.now)) }
{
    match side {
        Some(sequence) => is_only_block(sequence),
        None => true,
    }
}

/// The test by which a block ends.
pub fn test_of(exit: &Exit) -> Option<Operand>
    ensures { result ≡ spec.test_of (exit_of exit.now) }
{
    match exit {
        Exit::Branch(test) => Some(*test),
        _ => None,
    }
}

/// The first block of a sequence.
pub fn into_first(sequence: Sequence) -> BasicBlock
    ensures { block_of result ≡ spec.first_of (sequence_of sequence) }
{
    let Sequence { first, .. } = sequence;
    first
}

fn first_block(side: Option<Sequence>) -> Option<BasicBlock>
    ensures { option_map block_of result ≡ spec.first_block (side_of (option_map sequence_of side)) }
{
    match side {
        Some(Sequence { first, .. }) => Some(first),
        None => None,
    }
}

fn are_only(yes: &Option<Sequence>, no: &Option<Sequence>, convertible: bool) -> bool
    ensures { result ≡ (convertible && (spec.is_only_side (side_of (option_map sequence_of yes.now)) && spec.is_only_side (side_of (option_map sequence_of no.now)))) }
{
    convertible && is_only_side(yes) && is_only_side(no)
}

fn found_fork(
    test: Operand,
    yes: Option<Sequence>,
    no: Option<Sequence>,
    convertible: bool,
) -> Found
    ensures { Finds result (spec.forked test (side_of (option_map sequence_of yes)) (side_of (option_map sequence_of no)) convertible) (fork (side_of (option_map sequence_of yes)) (side_of (option_map sequence_of no)) convertible) }
{
    if are_only(&yes, &no, convertible) {
        Found::Branches(Branches {
            test,
            yes: first_block(yes),
            no: first_block(no),
        })
    } else {
        Found::Shape(Shape::Fork {
            yes,
            no,
            convertible,
        })
    }
}

/// What stands behind a block with this exit.
pub fn found_behind(exit: &Exit, shape: Shape) -> Found
    ensures { Finds result (spec.branches_of (exit_of exit.now) (shape_of shape)) (shape_of shape) }
{
    match test_of(exit) {
        Some(test) => match shape {
            Shape::Fork {
                yes,
                no,
                convertible,
            } => found_fork(test, yes, no, convertible),
            shape => Found::Shape(shape),
        },
        None => Found::Shape(shape),
    }
}
