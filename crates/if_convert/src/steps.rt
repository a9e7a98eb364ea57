//! The steps of the conversion that call none of it again, with what is large behind boxes: the conversion calls itself, and then needs little stack.
ghost use Rattle.std.specs.Prelude.{◌≡◌, IfOk};
ghost use Rattle.std.specs.Option.{option_map};
ghost use Rattle.ir_core.specs.Trees.{sequence_of, shape_of, block_of, side_of, SequenceTree, sequence, PartTrees, no_part, break_};
ghost use Rattle.passes.specs.Conversion.{converted_behind};
ghost use Rattle.passes.specs.Conversion.Merging.{opened};
ghost use Rattle.passes.specs.Conversion.Overlapping as spec;
ghost use Rattle.if_convert.specs.Blocks.{scope_of, last_of, before_last, behind_shape, open_of};

use crate::boxes::{Held, whole_side};
use crate::line::{self, Line};
use crate::merging::{Open, Scope};
use crate::overlap::{self, Parts};
use hls_base::place::{Path, Place};
use hls_base::point::{Point, PointKind};
use ir_core::tree::{BasicBlock, Exit, Sequence, Shape};
use std::alloc::{AllocError, Global};

/// The blocks of a loop.
#[derive(Drop)]
pub struct Round {
    pub test: Held<Sequence>,
    pub body: Held<Sequence>,
    pub step: Option<Held<Sequence>>,
}

fn boxed_line(alloc: Global, last: Open) -> Result<Held<Line>, AllocError>
    ensures last { IfOk result (λ line. last_of line.value ≡ open_of last) }
    ensures before { (s : SequenceTree) → IfOk result (λ line. before_last line.value s ≡ s) }
{
    Held::new(alloc, Line::Single(last))
}

/// A line of this block.
#[inline(never)]
pub fn begin(alloc: Global, first: Held<BasicBlock>) -> Result<Held<Line>, AllocError>
    ensures last { IfOk result (λ line. last_of line.value ≡ opened (block_of first.value)) }
    ensures before { (s : SequenceTree) → IfOk result (λ line. before_last line.value s ≡ s) }
{
    let open = Open::new(alloc, first.into_inner())?;
    boxed_line(alloc, open)
}

/// A line of a block that leads to nothing, to stand before parts that nothing leads to.
#[inline(never)]
pub fn begin_nowhere(alloc: Global) -> Result<Held<Line>, AllocError>
    ensures last { IfOk result (λ line. (last_of line.value).exit ≡ break_) }
    ensures before { (s : SequenceTree) → IfOk result (λ line. before_last line.value s ≡ s) }
{
    let open = nowhere(alloc)?;
    boxed_line(alloc, open)
}

/// A block that leads to nothing.
fn nowhere(alloc: Global) -> Result<Open, AllocError>
    ensures { IfOk result (λ opened. (open_of opened).exit ≡ break_) }
{
    let point = Point {
        path: Path::new(Vec::new(alloc)),
        at: Place {
            line: 0,
            column: 0,
            part: 0,
        },
        kind: PointKind::Begin,
    };
    Open::new(
        alloc,
        BasicBlock {
            point,
            ops: Vec::new(alloc),
            outs: Vec::new(alloc),
            exit: Exit::Break,
        },
    )
}

/// Goes on by a converted shape and the block behind it.
#[inline(never)]
pub fn go_on(
    scope: Scope<'_>,
    line: Held<Line>,
    shape: Held<Shape>,
    after: Held<BasicBlock>,
) -> Result<Held<Line>, AllocError>
    ensures { (more : PartTrees) → IfOk result (λ gone. before_last gone.value (converted_behind (scope_of scope.entry) (last_of gone.value) more) ≡ before_last line.value (behind_shape (scope_of scope.entry) (last_of line.value) (shape_of shape.value) (block_of after.value) more)) }
{
    let line = line.into_inner();
    let shape = shape.into_inner();
    let gone = line::go_on(scope, line, shape, after.into_inner())?;
    Held::new(scope.alloc, gone)
}

/// Closes the last block.
#[inline(never)]
pub fn close(alloc: Global, line: Held<Line>) -> Result<Held<Sequence>, AllocError>
    ensures { IfOk result (λ closed. sequence_of closed.value ≡ before_last line.value (sequence (last_of line.value) no_part)) }
{
    let blocks = line::close(alloc, line.into_inner())?;
    Held::new(alloc, blocks)
}

/// A loop, which is overlapped if it is to be and can be.
#[inline(never)]
pub fn converted_loop(
    scope: Scope<'_>,
    post: bool,
    round: Round,
    eligible: bool,
) -> Result<Held<Shape>, AllocError>
    ensures { IfOk result (λ shape. shape_of shape.value ≡ spec.converted_loop scope.entry.variables.now eligible post (sequence_of round.test.value) (sequence_of round.body.value) (side_of (option_map (λ blocks. sequence_of blocks.value) round.step))) }
{
    let Round { test, body, step } = round;
    let parts = Parts {
        post,
        test: test.into_inner(),
        body: body.into_inner(),
        step: whole_side(step),
    };
    let shape = overlap::converted_loop(scope, parts, eligible)?;
    Held::new(scope.alloc, shape)
}
