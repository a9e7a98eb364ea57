//! Steps that add one piece. A piece is large, so that each step is kept out of the functions that call themselves, which then need little stack.
ghost use Rattle.std.specs.Prelude.{◌≡◌, IfOk, map};
ghost use Rattle.hls_base.specs.Refusals.{IfRefused};
ghost use Rattle.hls_base.specs.declared.point.PointKind.TheVariants as point;
ghost use Rattle.pieces.specs.Trees as tree;
ghost use Rattle.pieces.specs.Trees.{piece_row};
ghost use Rattle.pieces.specs.View.{pure_of, piece_of};
ghost use Rattle.piece_making.specs.Calls.{call_of, point_in};
ghost use Rattle.piece_making.specs.Making.{emit};
ghost use Rattle.piece_making.specs.Stocks.{IsMade, IsTooHeavy, state_of, stock};
ghost use Rattle.c_expand.specs.Statements.{marked};

use crate::held::Held;
use hls_base::number::LoopId;
use hls_base::place::Place;
use hls_base::point::PointKind;
use hls_base::refusal::Fail;
use piece_making::frame::Frame;
use piece_making::work::Work;
use pieces::piece::{Label, Piece};

/// The branches of a fork.
#[derive(Drop)]
pub struct Branches {
    pub yes: Vec<Piece>,
    pub no: Vec<Piece>,
}

/// The body of a switch, and its labels.
#[derive(Drop)]
pub struct Cases {
    pub labels: Vec<Label>,
    pub body: Vec<Piece>,
}

/// The parts of a loop. `before` comes before its test.
#[derive(Drop)]
pub struct Turn {
    pub before: Vec<Piece>,
    pub test: Held,
    pub body: Vec<Piece>,
    pub step: Vec<Piece>,
}

/// The mark of a point of this call.
#[inline(never)]
pub fn mark(frame: &Frame, work: &mut Work, kind: PointKind, at: Place) -> Result<(), Fail>
    ensures made { IfOk result (λ v. IsMade (stock work.old) (stock work.new) v (marked (call_of frame.now) kind at (state_of (stock work.old)))) }
    ensures refused { IfRefused result (λ r. IsTooHeavy (stock work.old) r (marked (call_of frame.now) kind at (state_of (stock work.old)))) }
{
    let point = frame.point(kind, at)?;
    work.mark(point)
}

/// A fork whose operator stands here.
#[inline(never)]
pub fn emit_fork(
    frame: &Frame,
    work: &mut Work,
    test: Held,
    branches: Branches,
    at: Place,
) -> Result<(), Fail>
    ensures made { IfOk result (λ v. IsMade (stock work.old) (stock work.new) v (emit (tree.fork (pure_of test) (piece_row (map piece_of branches.yes.items)) (piece_row (map piece_of branches.no.items)) (point_in (call_of frame.now) point.End at)) (state_of (stock work.old)))) }
    ensures refused { IfRefused result (λ r. IsTooHeavy (stock work.old) r (emit (tree.fork (pure_of test) (piece_row (map piece_of branches.yes.items)) (piece_row (map piece_of branches.no.items)) (point_in (call_of frame.now) point.End at)) (state_of (stock work.old)))) }
{
    let end = frame.point(PointKind::End, at)?;
    let Branches { yes, no } = branches;
    let test = test.into_inner();
    work.emit(Piece::Fork { test, yes, no, end })
}

/// A switch.
#[inline(never)]
pub fn emit_pick(
    frame: &Frame,
    work: &mut Work,
    test: Held,
    cases: Cases,
    at: Place,
) -> Result<(), Fail>
    ensures made { IfOk result (λ v. IsMade (stock work.old) (stock work.new) v (emit (tree.pick (pure_of test) cases.labels.items (piece_row (map piece_of cases.body.items)) (point_in (call_of frame.now) point.End at)) (state_of (stock work.old)))) }
    ensures refused { IfRefused result (λ r. IsTooHeavy (stock work.old) r (emit (tree.pick (pure_of test) cases.labels.items (piece_row (map piece_of cases.body.items)) (point_in (call_of frame.now) point.End at)) (state_of (stock work.old)))) }
{
    let end = frame.point(PointKind::End, at)?;
    let Cases { labels, body } = cases;
    let test = test.into_inner();
    work.emit(Piece::Pick {
        test,
        labels,
        body,
        end,
    })
}

/// A loop. With `post` its body comes first.
#[inline(never)]
pub fn emit_repeat(
    frame: &Frame,
    work: &mut Work,
    id: LoopId,
    post: bool,
    turn: Turn,
    at: Place,
) -> Result<(), Fail>
    ensures made { IfOk result (λ v. IsMade (stock work.old) (stock work.new) v (emit (tree.repeat_ id post (piece_row (map piece_of turn.before.items)) (pure_of turn.test) (piece_row (map piece_of turn.body.items)) (piece_row (map piece_of turn.step.items)) (point_in (call_of frame.now) point.End at)) (state_of (stock work.old)))) }
    ensures refused { IfRefused result (λ r. IsTooHeavy (stock work.old) r (emit (tree.repeat_ id post (piece_row (map piece_of turn.before.items)) (pure_of turn.test) (piece_row (map piece_of turn.body.items)) (piece_row (map piece_of turn.step.items)) (point_in (call_of frame.now) point.End at)) (state_of (stock work.old)))) }
{
    let end = frame.point(PointKind::End, at)?;
    let Turn {
        before,
        test,
        body,
        step,
    } = turn;
    let test = test.into_inner();
    work.emit(Piece::Repeat {
        id,
        post,
        before,
        test,
        body,
        step,
        end,
    })
}

#[inline(never)]
pub fn emit_break(work: &mut Work) -> Result<(), Fail>
    ensures made { IfOk result (λ v. IsMade (stock work.old) (stock work.new) v (emit tree.break_ (state_of (stock work.old)))) }
    ensures refused { IfRefused result (λ r. IsTooHeavy (stock work.old) r (emit tree.break_ (state_of (stock work.old)))) }
{
    work.emit(Piece::Break)
}

#[inline(never)]
pub fn emit_next(work: &mut Work) -> Result<(), Fail>
    ensures made { IfOk result (λ v. IsMade (stock work.old) (stock work.new) v (emit tree.next_ (state_of (stock work.old)))) }
    ensures refused { IfRefused result (λ r. IsTooHeavy (stock work.old) r (emit tree.next_ (state_of (stock work.old)))) }
{
    work.emit(Piece::Next)
}
