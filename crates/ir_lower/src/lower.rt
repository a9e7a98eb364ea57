//! From pieces to a tree of basic blocks.
ghost use Rattle.std.specs.Prelude.{◌≡◌, ◌+◌, IfOk, if◌then◌else◌, map};
ghost use Rattle.std.specs.Option.{option_map};
ghost use Rattle.pieces.specs.View.{pure_of, piece_of, pieces_of};
ghost use Rattle.pieces.specs.Program.{expanded_of};
ghost use Rattle.ir_core.specs.Trees.{sequence_of, side, side_of, ArmTrees, more_arms, part_of, part_row, arm_row, break_};
ghost use Rattle.passes.specs.Lowering.Shapes as shapes;
ghost use Rattle.passes.specs.Lowering.Blocks.{begun, ends_by_test};
ghost use Rattle.passes.specs.Lowering as spec;
ghost use Rattle.passes.specs.Lowering.{Rest, last, lowering, side_from, stepped, parts_of};
ghost use Rattle.block_draft.specs.Drafts.{scope_of};
ghost use Rattle.ir_lower.specs.Frames.{frame_view, frame_of};
ghost use Rattle.ir_lower.specs.Lines.{ended, ended_arms};
ghost use Rattle.ir_lower.specs.Points.{pointed};

use crate::arms::{Arms, Blocks, arm_begins, begins, other_target, targets};
use crate::copies::with_copies;
use crate::frame::frame_of;
use crate::line::Line;
use crate::points::{converts, first_point, may_overlap, own_step, point_of};
use crate::shape::{Round, Targets, fork, land, repeat, switch};
use hls_base::point::Point;
use hls_base::refusal::impossible;
use ir_core::tree::{BlockTree, Exit, LandId, Sequence};
use pieces::expanded::Expanded;
use pieces::piece::{Label, Piece};
use pieces::pure_expr::Pure;
use std::alloc::{AllocError, Global};

/// The tree of basic blocks of a program. Nothing is merged or left out in it: each place at which a block may begin has one.
pub fn lower(alloc: Global, expanded: &Expanded) -> Result<BlockTree, AllocError>
    ensures frame { IfOk result (λ t. frame_view t.frame ≡ frame_of expanded.now) }
    ensures returned { IfOk result (λ t. t.result ≡ expanded.now.result) }
    ensures blocks { IfOk result (λ t. side (sequence_of t.blocks) ≡ lowering (expanded_of expanded.now)) }
{
    let first = first_point(&expanded.pieces);
    match lower_side(alloc, expanded, &expanded.pieces, first)? {
        Some(blocks) => Ok(BlockTree {
            frame: frame_of(alloc, expanded)?,
            blocks: Box::into_inner(blocks),
            result: expanded.result,
        }),
        None => Err(impossible()),
    }
}

/// Pieces behind what the line has. What is never reached has its blocks, but makes no operation.
#[cycle(sequence)]
fn lower_all(
    alloc: Global,
    expanded: &Expanded,
    line: &mut Line,
    pieces: &Vec<Piece>,
) -> Result<(), AllocError>
    ensures { (rest : Rest) → IfOk result (λ u. ended line.new rest ≡ ended line.old (spec.lowered (scope_of expanded.now) (pieces_of pieces.now.items) rest)) }
{
    for piece in pieces {
        lower_piece(alloc, expanded, line, piece)?;
    }
    Ok(())
}

#[inline(never)]
#[cycle(sequence)]
fn lower_piece(
    alloc: Global,
    expanded: &Expanded,
    line: &mut Line,
    piece: &Piece,
) -> Result<(), AllocError>
    ensures { (rest : Rest) → IfOk result (λ u. ended line.new rest ≡ ended line.old (spec.lowered_piece (scope_of expanded.now) (piece_of piece.now) rest)) }
{
    match piece {
        Piece::Set { variable, value } => line.set(expanded, *variable, value),
        Piece::Put {
            array,
            subscripts,
            value,
            at,
        } => line.put(expanded, *array, subscripts, value, *at),
        Piece::Fork { .. } => lower_fork(alloc, expanded, line, piece),
        Piece::Repeat { .. } => lower_repeat(alloc, expanded, line, piece),
        Piece::Pick { .. } => lower_pick(alloc, expanded, line, piece),
        Piece::Break => {
            line.leave(Exit::Break);
            Ok(())
        }
        Piece::Next => {
            line.leave(Exit::Continue);
            Ok(())
        }
        Piece::Leave(call) => {
            line.leave(Exit::Leave(LandId(call.0)));
            Ok(())
        }
        Piece::Land(call, point) => {
            let shape = land(alloc, LandId(call.0))?;
            line.then(alloc, shape, point)
        },
        Piece::Mark(_) => Ok(()),
    }
}

#[inline(never)]
#[cycle(sequence)]
fn lower_fork(
    alloc: Global,
    expanded: &Expanded,
    line: &mut Line,
    piece: &Piece,
) -> Result<(), AllocError>
    ensures { (rest : Rest) → IfOk result (λ u. ended line.new rest ≡ ended line.old (spec.lowered_piece (scope_of expanded.now) (piece_of piece.now) rest)) }
{
    let Piece::Fork { test, yes, no, end } = piece else {
        return Err(impossible());
    };
    let convertible = converts(line.is_live(), piece);
    line.end_by_fork(expanded, test, yes, no)?;
    let yes = lower_side(alloc, expanded, yes, first_point(yes))?;
    let no = lower_side(alloc, expanded, no, first_point(no))?;
    let shape = fork(alloc, yes, no, convertible)?;
    line.then(alloc, shape, end)
}

/// The blocks of pieces that begin at this point, if there is one.
#[inline(never)]
#[cycle(sequence)]
fn lower_side(
    alloc: Global,
    expanded: &Expanded,
    pieces: &Vec<Piece>,
    first: Option<&Point>,
) -> Result<Option<Box<Sequence>>, AllocError>
    ensures { IfOk result (λ blocks. side_of (option_map (λ b. sequence_of b.value) blocks) ≡ side_from (λ b. spec.lowered (scope_of expanded.now) (pieces_of pieces.now.items) last b) (pointed first.entry)) }
{
    match first {
        Some(point) => {
            let mut line = Line::new(alloc, point)?;
            lower_all(alloc, expanded, &mut line, pieces)?;
            Ok(Some(Line::finish(alloc, line)?))
        }
        None => Ok(None),
    }
}

#[inline(never)]
#[cycle(sequence)]
fn lower_repeat(
    alloc: Global,
    expanded: &Expanded,
    line: &mut Line,
    piece: &Piece,
) -> Result<(), AllocError>
    ensures { (rest : Rest) → IfOk result (λ u. ended line.new rest ≡ ended line.old (spec.lowered_piece (scope_of expanded.now) (piece_of piece.now) rest)) }
{
    let Piece::Repeat {
        post,
        before,
        test,
        body,
        step,
        end,
        ..
    } = piece
    else {
        return Err(impossible());
    };
    let eligible = may_overlap(piece);
    let own = own_step(body, step);
    let start = first_point(body).unwrap_or(end);
    let test = lower_test(alloc, expanded, before, test, end)?;
    let mut inner = Line::new(alloc, start)?;
    lower_all(alloc, expanded, &mut inner, body)?;
    let body = lower_step(alloc, expanded, inner, step, own)?;
    let step = lower_side(alloc, expanded, step, own)?;
    let body = copied_if(alloc, expanded, eligible, body)?;
    let round = Round { test, body, step };
    let shape = repeat(alloc, *post, round, eligible)?;
    line.then(alloc, shape, end)
}

/// The body of a loop that may be overlapped has copies.
#[inline(never)]
fn copied_if(
    alloc: Global,
    expanded: &Expanded,
    eligible: bool,
    body: Box<Sequence>,
) -> Result<Box<Sequence>, AllocError>
    ensures { IfOk result (λ copied. sequence_of copied.value ≡ spec.with_copies eligible (scope_of expanded.now) (sequence_of body.value)) }
{
    if eligible {
        let copied = with_copies(alloc, expanded, Box::into_inner(body))?;
        Ok(Box::new(alloc, copied)?)
    } else {
        Ok(body)
    }
}

/// The blocks before a loop's test, which end by the test.
#[cycle(sequence)]
fn lower_test(
    alloc: Global,
    expanded: &Expanded,
    before: &Vec<Piece>,
    test: &Pure,
    end: &Point,
) -> Result<Box<Sequence>, AllocError>
    ensures { IfOk result (λ blocks. sequence_of blocks.value ≡ spec.lowered (scope_of expanded.now) (pieces_of before.now.items) (λ b. last (ends_by_test (pure_of test.now) b)) (begun (shapes.or_at end.now (shapes.first_point (pieces_of before.now.items))))) }
{
    let mut line = Line::new(alloc, first_point(before).unwrap_or(end))?;
    lower_all(alloc, expanded, &mut line, before)?;
    line.end_by_test(test)?;
    Line::finish(alloc, line)
}

/// The blocks of a loop's body, in the last of which its step goes on where it begins no block of its own.
#[cycle(sequence)]
fn lower_step(
    alloc: Global,
    expanded: &Expanded,
    line: Box<Line>,
    step: &Vec<Piece>,
    own: Option<&Point>,
) -> Result<Box<Sequence>, AllocError>
    ensures { IfOk result (λ blocks. sequence_of blocks.value ≡ ended line.value (λ b. stepped (λ b1. spec.lowered (scope_of expanded.now) (pieces_of step.now.items) last b1) (pointed own.entry) b)) }
{
    match own {
        Some(_) => Line::finish(alloc, line),
        None => {
            let mut line = line;
            lower_all(alloc, expanded, &mut line, step)?;
            Line::finish(alloc, line)
        }
    }
}

#[inline(never)]
#[cycle(sequence)]
fn lower_pick(
    alloc: Global,
    expanded: &Expanded,
    line: &mut Line,
    piece: &Piece,
) -> Result<(), AllocError>
    ensures { (rest : Rest) → IfOk result (λ u. ended line.new rest ≡ ended line.old (spec.lowered_piece (scope_of expanded.now) (piece_of piece.now) rest)) }
{
    let Piece::Pick {
        test,
        labels,
        body,
        end,
    } = piece
    else {
        return Err(impossible());
    };
    let labels = labels.as_slice();
    line.end_by_cases(test, labels)?;
    let blocks = lower_arms(alloc, expanded, labels, body, end)?;
    let targets = Targets {
        cases: targets(alloc, labels, body.len())?,
        other: other_target(alloc, labels, body.len())?,
    };
    let shape = switch(alloc, blocks, targets)?;
    line.then(alloc, shape, end)
}

/// The body of a switch.
#[cycle(sequence)]
fn lower_arms(
    alloc: Global,
    expanded: &Expanded,
    labels: &[Label],
    body: &Vec<Piece>,
    end: &Point,
) -> Result<Blocks, AllocError>
    ensures dead { IfOk result (λ blocks. part_row (map part_of blocks.dead.items) ≡ parts_of (spec.before_arm (scope_of expanded.now) labels.now 0 (pieces_of body.now.items) (record (begun end.now) { exit = break_ }))) }
    ensures arms { IfOk result (λ blocks. arm_row (map sequence_of blocks.arms.items) ≡ spec.arms (scope_of expanded.now) labels.now 0 (pieces_of body.now.items) end.now) }
{
    let named = arm_begins(alloc, labels, body.len())?;
    let mut arms = Arms::new(alloc, end)?;
    for i in 0..body.len() {
        arms = lower_in_arm(alloc, expanded, arms, begins(&named, i), &body[i], end)?;
    }
    arms.finish(alloc)
}

/// A piece of a switch's body, at which an arm may begin.
#[cycle(sequence)]
fn lower_in_arm(
    alloc: Global,
    expanded: &Expanded,
    arms: Arms,
    begins: bool,
    piece: &Piece,
    end: &Point,
) -> Result<Arms, AllocError>
    ensures { (rest : Rest) (more : ArmTrees) → IfOk result (λ now. ended_arms now rest more ≡ (if begins then ended_arms arms last (more_arms (spec.lowered_piece (scope_of expanded.now) (piece_of piece.now) rest (begun (shapes.or_at end.now (shapes.point_of (piece_of piece.now))))) more) else ended_arms arms (spec.lowered_piece (scope_of expanded.now) (piece_of piece.now) rest) more)) }
{
    let Arms { closed, mut line } = arms.begin(alloc, begins, point_of(piece).unwrap_or(end))?;
    lower_piece(alloc, expanded, &mut line, piece)?;
    Ok(Arms { closed, line })
}
