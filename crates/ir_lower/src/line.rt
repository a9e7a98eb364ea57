//! A sequence of blocks while it grows.
ghost use Rattle.std.specs.Prelude.{◌≡◌, IfOk};
ghost use Rattle.hls_base.specs.declared.point.Point.{Point};
ghost use Rattle.pieces.specs.Trees.{PieceTrees, then_};
ghost use Rattle.pieces.specs.View.{piece_of, pieces_of};
ghost use Rattle.ir_core.specs.Trees.{ExitTree, exit_of, block_of, shape_of, SequenceTree, sequence_of};
ghost use Rattle.passes.specs.Lowering.Blocks as spec;
ghost use Rattle.passes.specs.Lowering.{last, followed};
ghost use Rattle.ir_lower.specs.Lines.{behind};
ghost use Rattle.block_draft.specs.Drafts.{scope_of, open_at};

use crate::points::first_point;
use block_draft::draft::{Done, Draft};
use hls_base::number::{ArrayId, VarId};
use hls_base::place::Place;
use hls_base::point::Point;
use ir_core::tree::{BasicBlock, Exit, Part, Sequence, Shape};
use pieces::expanded::Expanded;
use pieces::piece::{Label, Piece};
use pieces::pure_expr::Pure;
use std::alloc::{AllocError, Global};
use std::mem;

/// The blocks of a sequence that are closed, and the shape behind the last of them.
#[derive(Drop)]
enum Closed {
    Nothing,
    Parts {
        first: BasicBlock,
        rest: Vec<Part>,
        shape: Shape,
    },
}

/// A sequence with a block that is open. Where the exit of this block is a jump, what follows in it is never reached.
#[derive(Drop)]
pub struct Line {
    closed: Closed,
    point: Point,
    draft: Draft,
    exit: Exit,
}

/// What a piece sets, if it is a setting.
fn add_set(expanded: &Expanded, draft: &mut Draft, piece: &Piece) -> Result<(), AllocError>
    ensures { (point : Point) (exit : ExitTree) (rest : PieceTrees) → IfOk result (λ u. spec.all_set (scope_of expanded.now) rest (open_at point exit draft.new) ≡ spec.all_set (scope_of expanded.now) (then_ (piece_of piece.now) rest) (open_at point exit draft.old)) }
{
    match piece {
        Piece::Set { variable, value } => draft.set(expanded, *variable, value),
        _ => Ok(()),
    }
}

fn set_all(expanded: &Expanded, draft: &mut Draft, pieces: &Vec<Piece>) -> Result<(), AllocError>
    ensures { (point : Point) (exit : ExitTree) → IfOk result (λ u. open_at point exit draft.new ≡ spec.all_set (scope_of expanded.now) (pieces_of pieces.now.items) (open_at point exit draft.old)) }
{
    for piece in pieces {
        add_set(expanded, draft, piece)?;
    }
    Ok(())
}

/// A branch that begins at no point has no block: what it sets is set before the fork.
fn set_before(expanded: &Expanded, draft: &mut Draft, branch: &Vec<Piece>) -> Result<(), AllocError>
    ensures { (point : Point) (exit : ExitTree) → IfOk result (λ u. open_at point exit draft.new ≡ spec.set_before (scope_of expanded.now) (pieces_of branch.now.items) (open_at point exit draft.old)) }
{
    if first_point(branch).is_some() {
        return Ok(());
    }
    set_all(expanded, draft, branch)
}

impl Line {
    ghost use Rattle.std.specs.Prelude.{◌≡◌, IfOk, if◌then◌else◌};
    ghost use Rattle.pieces.specs.View.{pure_of, pures_of, pieces_of};
    ghost use Rattle.ir_core.specs.Trees.{exit_of, break_, block_of, shape_of, SequenceTree, sequence_of};
    ghost use Rattle.passes.specs.Lowering.Blocks as spec;
    ghost use Rattle.passes.specs.Lowering.{Rest, last, followed};
    ghost use Rattle.block_draft.specs.Drafts.{scope_of};
    ghost use Rattle.ir_lower.specs.Lines.{open_of, behind, ended};

    fn at(alloc: Global, point: &Point) -> Result<Line, AllocError>
        ensures closed { (blocks : SequenceTree) → IfOk result (λ line. behind line.closed blocks ≡ blocks) }
        ensures open_ { IfOk result (λ line. open_of line ≡ spec.begun point.now) }
    {
        Ok(Line {
            closed: Closed::Nothing,
            point: point.copy(alloc)?,
            draft: Draft::new(alloc),
            exit: Exit::Next,
        })
    }

    /// A block that begins at this point.
    #[inline(never)]
    pub fn new(alloc: Global, point: &Point) -> Result<Box<Line>, AllocError>
        ensures { (rest : Rest) → IfOk result (λ line. ended line.value rest ≡ rest (spec.begun point.now)) }
    {
        let line = Line::at(alloc, point)?;
        Ok(Box::new(alloc, line)?)
    }

    /// A block that is never reached.
    #[inline(never)]
    pub fn dead(alloc: Global, point: &Point) -> Result<Box<Line>, AllocError>
        ensures { (rest : Rest) → IfOk result (λ line. ended line.value rest ≡ rest (record (spec.begun point.now) { exit = break_ })) }
    {
        let line = Line {
            closed: Closed::Nothing,
            point: point.copy(alloc)?,
            draft: Draft::new(alloc),
            exit: Exit::Break,
        };
        Ok(Box::new(alloc, line)?)
    }

    /// Whether control may come to the end of the block.
    pub fn is_live(&self) -> bool
        ensures { result ≡ spec.is_live (open_of self.now) }
    {
        matches!(self.exit, Exit::Next)
    }

    /// The block has this exit, if it had none.
    #[inline(never)]
    pub fn leave(&mut self, exit: Exit)
        ensures { (rest : Rest) → ended self.new rest ≡ ended self.old (λ b. rest (spec.with_exit (exit_of exit) b)) }
    {
        if self.is_live() {
            self.exit = exit;
        }
    }

    /// The variable holds the value from here on.
    #[inline(never)]
    pub fn set(
        &mut self,
        expanded: &Expanded,
        variable: VarId,
        value: &Pure,
    ) -> Result<(), AllocError>
        ensures { (rest : Rest) → IfOk result (λ u. ended self.new rest ≡ ended self.old (λ b. rest (if spec.is_live b then spec.set (scope_of expanded.now) variable (pure_of value.now) b else b))) }
    {
        if !self.is_live() {
            return Ok(());
        }
        self.draft.set(expanded, variable, value)?;
        Ok(())
    }

    /// The element holds the value from here on.
    #[inline(never)]
    pub fn put(
        &mut self,
        expanded: &Expanded,
        array: ArrayId,
        subscripts: &Vec<Pure>,
        value: &Pure,
        at: Place,
    ) -> Result<(), AllocError>
        ensures { (rest : Rest) → IfOk result (λ u. ended self.new rest ≡ ended self.old (λ b. rest (if spec.is_live b then spec.put (scope_of expanded.now) array (pures_of subscripts.now.items) (pure_of value.now) at b else b))) }
    {
        if !self.is_live() {
            return Ok(());
        }
        self.draft.put(expanded, array, subscripts, value, at)?;
        Ok(())
    }

    /// Ends the block by the test of a loop.
    #[inline(never)]
    pub fn end_by_test(&mut self, test: &Pure) -> Result<(), AllocError>
        ensures { (rest : Rest) → IfOk result (λ u. ended self.new rest ≡ ended self.old (λ b. rest (spec.ends_by_test (pure_of test.now) b))) }
    {
        if !self.is_live() {
            return Ok(());
        }
        let test = self.draft.condition(test)?;
        self.exit = Exit::Branch(test);
        Ok(())
    }

    /// Ends the block by the test of a fork with these branches.
    #[inline(never)]
    pub fn end_by_fork(
        &mut self,
        expanded: &Expanded,
        test: &Pure,
        yes: &Vec<Piece>,
        no: &Vec<Piece>,
    ) -> Result<(), AllocError>
        ensures { (rest : Rest) → IfOk result (λ u. ended self.new rest ≡ ended self.old (λ b. rest (spec.ends_by_fork (scope_of expanded.now) (pure_of test.now) (pieces_of yes.now.items) (pieces_of no.now.items) b))) }
    {
        if !self.is_live() {
            return Ok(());
        }
        let test = self.draft.condition(test)?;
        set_before(expanded, &mut self.draft, yes)?;
        set_before(expanded, &mut self.draft, no)?;
        self.exit = Exit::Branch(test);
        Ok(())
    }

    /// Ends the block by the cases of a switch.
    #[inline(never)]
    pub fn end_by_cases(&mut self, test: &Pure, labels: &[Label]) -> Result<(), AllocError>
        ensures { (rest : Rest) → IfOk result (λ u. ended self.new rest ≡ ended self.old (λ b. rest (spec.ends_by_cases (pure_of test.now) labels.now b))) }
    {
        if !self.is_live() {
            return Ok(());
        }
        let cases = self.draft.cases(test, labels)?;
        self.exit = Exit::Choose(cases);
        Ok(())
    }

    /// Goes on behind this shape with a block that begins at this point.
    #[inline(never)]
    pub fn then(
        &mut self,
        alloc: Global,
        shape: Box<Shape>,
        point: &Point,
    ) -> Result<(), AllocError>
        ensures { (rest : Rest) → IfOk result (λ u. ended self.new rest ≡ ended self.old (λ b. followed b (shape_of shape.value) (rest (spec.begun point.now)))) }
    {
        let next = Line::at(alloc, point)?;
        let Line {
            closed,
            point: before,
            draft,
            exit,
        } = mem::replace(self, next);
        let block = close_block(before, draft, exit)?;
        self.closed = with_block(alloc, closed, block, Box::into_inner(shape))?;
        Ok(())
    }

    /// Closes the block, which is the last.
    #[inline(never)]
    pub fn finish(alloc: Global, line: Box<Line>) -> Result<Box<Sequence>, AllocError>
        ensures { IfOk result (λ blocks. sequence_of blocks.value ≡ ended line.value last) }
    {
        let Line {
            closed,
            point,
            draft,
            exit,
        } = Box::into_inner(line);
        let block = close_block(point, draft, exit)?;
        let blocks = with_last(alloc, closed, block)?;
        Ok(Box::new(alloc, blocks)?)
    }
}

fn close_block(point: Point, draft: Draft, exit: Exit) -> Result<BasicBlock, AllocError>
    ensures { IfOk result (λ block. block_of block ≡ open_at point (exit_of exit) draft) }
{
    let mut draft = draft;
    let Done { ops, outs } = draft.close()?;
    Ok(BasicBlock {
        point,
        ops,
        outs,
        exit,
    })
}

/// Closes a block with a shape behind it.
fn with_block(
    alloc: Global,
    closed: Closed,
    block: BasicBlock,
    shape: Shape,
) -> Result<Closed, AllocError>
    ensures { (blocks : SequenceTree) → IfOk result (λ now. behind now blocks ≡ behind closed (followed (block_of block) (shape_of shape) blocks)) }
{
    match closed {
        Closed::Nothing => Ok(Closed::Parts {
            first: block,
            rest: Vec::new(alloc),
            shape,
        }),
        Closed::Parts {
            first,
            mut rest,
            shape: before,
        } => {
            rest.push(Part {
                shape: before,
                after: block,
            })?;
            Ok(Closed::Parts { first, rest, shape })
        }
    }
}

/// The last block of a sequence.
fn with_last(alloc: Global, closed: Closed, block: BasicBlock) -> Result<Sequence, AllocError>
    ensures { IfOk result (λ blocks. sequence_of blocks ≡ behind closed (last (block_of block))) }
{
    match closed {
        Closed::Nothing => Ok(Sequence {
            first: block,
            rest: Vec::new(alloc),
        }),
        Closed::Parts {
            first,
            mut rest,
            shape,
        } => {
            rest.push(Part {
                shape,
                after: block,
            })?;
            Ok(Sequence { first, rest })
        }
    }
}
