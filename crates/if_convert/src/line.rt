//! A row of blocks with shapes between them, while it grows.
ghost use Rattle.std.specs.Prelude.{◌≡◌, IfOk, ◌∷◌, [], map};
ghost use Rattle.ir_core.specs.Trees.{sequence_of, shape_of, block_of, SequenceTree, sequence, PartTrees, no_part};
ghost use Rattle.passes.specs.Conversion.Merging.{joined, merged};
ghost use Rattle.passes.specs.Conversion.{part_before, converted_behind};
ghost use Rattle.if_convert.specs.Blocks.{open_of, branches_of, scope_of, last_of, before_last, behind_shape};

use crate::fork::{Found, found_behind};
use crate::merging::{Branches, Open, Scope};
use ir_core::tree::{BasicBlock, Exit, Part, Sequence, Shape};
use std::alloc::{AllocError, Global};

/// A block that is open, or one behind others and a shape.
#[derive(Drop)]
pub enum Line {
    Single(Open),
    Behind {
        first: BasicBlock,
        rest: Vec<Part>,
        shape: Shape,
        last: Open,
    },
}

impl Line {
    ghost use Rattle.std.specs.Prelude.{◌≡◌};
    ghost use Rattle.ir_core.specs.Trees.{exit_of};
    ghost use Rattle.if_convert.specs.Blocks.{last_of};

    /// How the open block is left.
    pub fn exit(&self) -> &Exit
        ensures { exit_of result.now ≡ (last_of self.now).exit }
    {
        match self {
            Line::Single(last) => &last.exit,
            Line::Behind { last, .. } => &last.exit,
        }
    }
}

/// Goes on by a shape and the block behind it.
fn extend_by(alloc: Global, line: Line, shape: Shape, last: Open) -> Result<Line, AllocError>
    ensures last { IfOk result (λ extended. last_of extended ≡ open_of last) }
    ensures before { (s : SequenceTree) → IfOk result (λ extended. before_last extended s ≡ before_last line (sequence (last_of line) (part_before (shape_of shape) s))) }
{
    match line {
        Line::Single(open) => Ok(Line::Behind {
            first: open.finish(alloc)?,
            rest: Vec::new(alloc),
            shape,
            last,
        }),
        Line::Behind {
            first,
            mut rest,
            shape: before,
            last: open,
        } => {
            let after = open.finish(alloc)?;
            rest.push(Part {
                shape: before,
                after,
            })?;
            Ok(Line::Behind {
                first,
                rest,
                shape,
                last,
            })
        }
    }
}

/// Merges a fork and the block behind it into the open block.
fn merged(
    scope: Scope<'_>,
    line: Line,
    branches: Branches,
    after: BasicBlock,
) -> Result<Line, AllocError>
    ensures last { IfOk result (λ gone. last_of gone ≡ joined scope.entry.variables.now (merged scope.entry.variables.now (last_of line) (branches_of branches)) (block_of after)) }
    ensures before { (s : SequenceTree) → IfOk result (λ gone. before_last gone s ≡ before_last line s) }
{
    match line {
        Line::Single(last) => {
            let last = last.merge(scope, branches)?;
            Ok(Line::Single(last.join(scope, after)?))
        }
        Line::Behind {
            first,
            rest,
            shape,
            last,
        } => {
            let last = last.merge(scope, branches)?;
            let last = last.join(scope, after)?;
            Ok(Line::Behind {
                first,
                rest,
                shape,
                last,
            })
        }
    }
}

/// Goes on by a converted shape and the block behind it.
pub fn go_on(
    scope: Scope<'_>,
    line: Line,
    shape: Shape,
    after: BasicBlock,
) -> Result<Line, AllocError>
    ensures { (more : PartTrees) → IfOk result (λ gone. before_last gone (converted_behind (scope_of scope.entry) (last_of gone) more) ≡ before_last line (behind_shape (scope_of scope.entry) (last_of line) (shape_of shape) (block_of after) more)) }
{
    match found_behind(line.exit(), shape) {
        Found::Branches(branches) => merged(scope, line, branches, after),
        Found::Shape(shape) => {
            let last = Open::new(scope.alloc, after)?;
            extend_by(scope.alloc, line, shape, last)
        }
    }
}

/// Closes the last block.
pub fn close(alloc: Global, line: Line) -> Result<Sequence, AllocError>
    ensures { IfOk result (λ closed. sequence_of closed ≡ before_last line (sequence (last_of line) no_part)) }
{
    match line {
        Line::Single(last) => Ok(Sequence {
            first: last.finish(alloc)?,
            rest: Vec::new(alloc),
        }),
        Line::Behind {
            first,
            mut rest,
            shape,
            last,
        } => {
            let after = last.finish(alloc)?;
            rest.push(Part { shape, after })?;
            Ok(Sequence { first, rest })
        }
    }
}
