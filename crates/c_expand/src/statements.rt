//! Statements.
ghost use Rattle.std.specs.Prelude.{◌≡◌, ◌&&◌, IfOk, map, [], true, false, Some};
ghost use Rattle.std.specs.Option.{option_map};
ghost use Rattle.hls_base.specs.Refusals.{IfRefused};
ghost use Rattle.pieces.specs.Resolved.Core.{stmt_row};
ghost use Rattle.pieces.specs.Resolved.CoreView.{core_of, core_stmt_of, core_else_of, core_else_part, core_action_of};
ghost use Rattle.pieces.specs.View.{pure_of, piece_of};
ghost use Rattle.piece_making.specs.Making.{inside};
ghost use Rattle.piece_making.specs.Calls.{call_of};
ghost use Rattle.piece_making.specs.Stocks.{IsMade, IsTooHeavy, state_of, stock};
ghost use Rattle.c_expand.specs.Callees.{callee_of, call_at};
ghost use Rattle.c_expand.specs.Loops.{loop_of, loop_tree, repeat_of, test_of, if_of};
ghost use Rattle.c_expand.specs.Statements.{statement, statements, other_branch, branch, labelled, switched, loop_body, stepped, tested, returned, result_set, actions, action, changed, valued};

use crate::declarations::declare;
use crate::emitting::{
    Branches, Cases, Turn, emit_break, emit_fork, emit_next, emit_pick, emit_repeat, mark,
};
use crate::expressions::{assignment, expression, step_by_one};
use crate::held::{Held, apply, bit, set};
use crate::here::{Here, deeper};
use crate::operators::{discard, is_call};
use hls_base::place::Place;
use hls_base::point::PointKind;
use hls_base::refusal::{Fail, impossible};
use piece_making::frame::Frame;
use piece_making::work::Work;
use pieces::piece::Piece;
use pieces::resolved::expression::CoreExpr;
use pieces::resolved::statement::{CoreAction, CoreElse, CoreStmt};

/// The statements of a block. `tail` tells whether the block is in a tail position.
#[inline(never)]
#[cycle(expansion)]
pub fn block(here: Here, work: &mut Work, body: &[CoreStmt], tail: bool) -> Result<(), Fail>
    ensures made { IfOk result (λ v. IsMade (stock work.old) (stock work.new) v (statements (callee_of here.entry) (call_at here.entry) (stmt_row (map core_stmt_of body.now)) tail (state_of (stock work.old)))) }
    ensures refused { IfRefused result (λ r. IsTooHeavy (stock work.old) r (statements (callee_of here.entry) (call_at here.entry) (stmt_row (map core_stmt_of body.now)) tail (state_of (stock work.old)))) }
{
    let depth = deeper(here.depth)?;
    let here = Here { depth, ..here };
    let count = body.len();
    for (i, stmt) in body.iter().enumerate() {
        let is_last = both(tail, count - i == 1);
        statement(here, work, stmt, is_last)?;
    }
    Ok(())
}

fn both(a: bool, b: bool) -> bool
    ensures { result ≡ (a && b) }
{
    a && b
}

#[inline(never)]
#[cycle(expansion)]
fn statement(here: Here, work: &mut Work, stmt: &CoreStmt, tail: bool) -> Result<(), Fail>
    ensures made { IfOk result (λ v. IsMade (stock work.old) (stock work.new) v (statement (callee_of here.entry) (call_at here.entry) (core_stmt_of stmt.now) tail (state_of (stock work.old)))) }
    ensures refused { IfRefused result (λ r. IsTooHeavy (stock work.old) r (statement (callee_of here.entry) (call_at here.entry) (core_stmt_of stmt.now) tail (state_of (stock work.old)))) }
{
    let depth = deeper(here.depth)?;
    let here = Here { depth, ..here };
    match stmt {
        CoreStmt::Block { body, .. } => block(here, work, body, tail),
        CoreStmt::Declare { object, init } => declare(here, work, *object, init),
        CoreStmt::Act(list) => actions(here, work, list),
        CoreStmt::If { test, yes, no, at } => {
            conditional(
                here,
                work,
                If {
                    test,
                    yes,
                    no,
                    at: *at,
                },
                tail,
            )
        }
        CoreStmt::Switch { test, body, at, .. } => switch(here, work, test, body, *at),
        CoreStmt::Case { value, body, at } => {
            label(here.frame, work, *value, *at)?;
            statement(here, work, body, false)
        }
        CoreStmt::While { test, body, at } => repeat(here, work, Loop::of_while(test, body, *at)),
        CoreStmt::Do { body, test, at } => repeat(here, work, Loop::of_do(test, body, *at)),
        CoreStmt::For {
            init,
            test,
            step,
            body,
            at,
            ..
        } => {
            block(here, work, init, false)?;
            repeat(here, work, Loop::of_for(test, step, body, *at))
        }
        CoreStmt::Break => emit_break(work),
        CoreStmt::Continue => emit_next(work),
        CoreStmt::Return(value) => returned(here, work, value, tail),
    }
}

/// The parts of an `if`.
#[derive(Clone, Copy)]
pub struct If<'s> {
    test: &'s CoreExpr,
    yes: &'s CoreStmt,
    no: &'s Option<CoreElse>,
    at: Place,
}

#[inline(never)]
#[cycle(expansion)]
fn conditional(here: Here, work: &mut Work, parts: If, tail: bool) -> Result<(), Fail>
    ensures made { IfOk result (λ v. IsMade (stock work.old) (stock work.new) v (statement (callee_of here.entry) (call_at here.entry) (if_of parts.entry) tail (state_of (stock work.old)))) }
    ensures refused { IfRefused result (λ r. IsTooHeavy (stock work.old) r (statement (callee_of here.entry) (call_at here.entry) (if_of parts.entry) tail (state_of (stock work.old)))) }
{
    let depth = deeper(here.depth)?;
    let here = Here { depth, ..here };
    let If { test, yes, no, at } = parts;
    let test = expression(here, work, test)?;
    let yes = branch(here, work, yes, tail, at)?;
    let no = second_branch(here, work, no, tail)?;
    emit_fork(here.frame, work, test, Branches { yes, no }, at)
}

/// A branch of an `if`.
#[inline(never)]
#[cycle(expansion)]
fn branch(
    here: Here,
    work: &mut Work,
    stmt: &CoreStmt,
    tail: bool,
    at: Place,
) -> Result<Vec<Piece>, Fail>
    ensures made { IfOk result (λ v. IsMade (stock work.old) (stock work.new) (record { value = tt; pieces = map piece_of v.items }) (branch (call_at here.entry) at (statement (callee_of here.entry) (call_at here.entry) (core_stmt_of stmt.now) tail) (state_of (stock work.old)))) }
    ensures refused { IfRefused result (λ r. IsTooHeavy (stock work.old) r (branch (call_at here.entry) at (statement (callee_of here.entry) (call_at here.entry) (core_stmt_of stmt.now) tail) (state_of (stock work.old)))) }
{
    let depth = deeper(here.depth)?;
    let here = Here { depth, ..here };
    let outer = work.begin(here.frame.context.alloc);
    mark(here.frame, work, PointKind::Arm, at)?;
    statement(here, work, stmt, tail)?;
    Ok(work.finish(outer))
}

#[cycle(expansion)]
fn second_branch(
    here: Here,
    work: &mut Work,
    no: &Option<CoreElse>,
    tail: bool,
) -> Result<Vec<Piece>, Fail>
    ensures made { IfOk result (λ v. IsMade (stock work.old) (stock work.new) (record { value = tt; pieces = map piece_of v.items }) (other_branch (callee_of here.entry) (call_at here.entry) (core_else_part (option_map core_else_of no.now)) tail (state_of (stock work.old)))) }
    ensures refused { IfRefused result (λ r. IsTooHeavy (stock work.old) r (other_branch (callee_of here.entry) (call_at here.entry) (core_else_part (option_map core_else_of no.now)) tail (state_of (stock work.old)))) }
{
    let depth = deeper(here.depth)?;
    let here = Here { depth, ..here };
    match no {
        None => Ok(Vec::new(here.frame.context.alloc)),
        Some(part) => branch(here, work, &part.body, tail, part.at),
    }
}

/// A label of the switch round it, and its mark.
#[inline(never)]
fn label(frame: &Frame, work: &mut Work, value: Option<u64>, at: Place) -> Result<(), Fail>
    ensures made { IfOk result (λ v. IsMade (stock work.old) (stock work.new) v (labelled (call_of frame.now) value at (state_of (stock work.old)))) }
    ensures refused { IfRefused result (λ r. IsTooHeavy (stock work.old) r (labelled (call_of frame.now) value at (state_of (stock work.old)))) }
{
    work.label(value)?;
    mark(frame, work, PointKind::Arm, at)
}

#[inline(never)]
#[cycle(expansion)]
fn switch(
    here: Here,
    work: &mut Work,
    test: &CoreExpr,
    body: &[CoreStmt],
    at: Place,
) -> Result<(), Fail>
    ensures made { IfOk result (λ v. IsMade (stock work.old) (stock work.new) v (switched (callee_of here.entry) (call_at here.entry) (core_of test.now) (statements (callee_of here.entry) (call_at here.entry) (stmt_row (map core_stmt_of body.now)) false) at (state_of (stock work.old)))) }
    ensures refused { IfRefused result (λ r. IsTooHeavy (stock work.old) r (switched (callee_of here.entry) (call_at here.entry) (core_of test.now) (statements (callee_of here.entry) (call_at here.entry) (stmt_row (map core_stmt_of body.now)) false) at (state_of (stock work.old)))) }
{
    let depth = deeper(here.depth)?;
    let here = Here { depth, ..here };
    let alloc = here.frame.context.alloc;
    let test = expression(here, work, test)?;
    let outer = work.begin(alloc);
    let outer_labels = work.begin_labels(alloc);
    block(here, work, body, false)?;
    let labels = work.finish_labels(outer_labels);
    let body = work.finish(outer);
    emit_pick(here.frame, work, test, Cases { labels, body }, at)
}

/// The parts of a loop. Without a test it has the number 1.
#[derive(Clone, Copy)]
pub struct Loop<'s> {
    post: bool,
    test: Option<&'s CoreExpr>,
    body: &'s CoreStmt,
    step: &'s [CoreAction],
    at: Place,
}

impl<'s> Loop<'s> {
    /// A `while`.
    fn of_while(test: &'s CoreExpr, body: &'s CoreStmt, at: Place) -> Loop<'s>
        ensures { loop_of result ≡ loop_tree false (Some (core_of test.now)) (core_stmt_of body.now) [] at }
    {
        Loop {
            post: false,
            test: Some(test),
            body,
            step: &[],
            at,
        }
    }

    /// A `do`.
    fn of_do(test: &'s CoreExpr, body: &'s CoreStmt, at: Place) -> Loop<'s>
        ensures { loop_of result ≡ loop_tree true (Some (core_of test.now)) (core_stmt_of body.now) [] at }
    {
        Loop {
            post: true,
            test: Some(test),
            body,
            step: &[],
            at,
        }
    }

    /// A `for` behind its first part.
    fn of_for(
        test: &'s Option<CoreExpr>,
        step: &'s [CoreAction],
        body: &'s CoreStmt,
        at: Place,
    ) -> Loop<'s>
        ensures { loop_of result ≡ loop_tree false (option_map core_of test.now) (core_stmt_of body.now) (map core_action_of step.now) at }
    {
        Loop {
            post: false,
            test: test.as_ref(),
            body,
            step,
            at,
        }
    }
}

#[inline(never)]
#[cycle(expansion)]
fn repeat(here: Here, work: &mut Work, parts: Loop) -> Result<(), Fail>
    ensures made { IfOk result (λ v. IsMade (stock work.old) (stock work.new) v (repeat_of (callee_of here.entry) (call_at here.entry) (loop_of parts.entry) (state_of (stock work.old)))) }
    ensures refused { IfRefused result (λ r. IsTooHeavy (stock work.old) r (repeat_of (callee_of here.entry) (call_at here.entry) (loop_of parts.entry) (state_of (stock work.old)))) }
{
    let depth = deeper(here.depth)?;
    let here = Here { depth, ..here };
    let Loop {
        post,
        test,
        body,
        step,
        at,
    } = parts;
    let alloc = here.frame.context.alloc;
    let id = work.next_loop()?;
    let outer = work.begin(alloc);
    mark(here.frame, work, PointKind::Test, at)?;
    let test = tested(here, work, test)?;
    let before = work.finish(outer);
    let body = loop_body(here, work, body, at)?;
    let step = step_of(here, work, step, at)?;
    let turn = Turn {
        before,
        test,
        body,
        step,
    };
    emit_repeat(here.frame, work, id, post, turn, at)
}

#[cycle(expansion)]
fn tested(here: Here, work: &mut Work, test: Option<&CoreExpr>) -> Result<Held, Fail>
    ensures made { IfOk result (λ v. IsMade (stock work.old) (stock work.new) (pure_of v) (tested (callee_of here.entry) (call_at here.entry) (test_of test.entry) (state_of (stock work.old)))) }
    ensures refused { IfRefused result (λ r. IsTooHeavy (stock work.old) r (tested (callee_of here.entry) (call_at here.entry) (test_of test.entry) (state_of (stock work.old)))) }
{
    let depth = deeper(here.depth)?;
    let here = Here { depth, ..here };
    match test {
        None => Ok(bit(here.frame.context.alloc, true)?),
        Some(test) => expression(here, work, test),
    }
}

/// The body of a loop, behind its mark.
#[inline(never)]
#[cycle(expansion)]
fn loop_body(here: Here, work: &mut Work, body: &CoreStmt, at: Place) -> Result<Vec<Piece>, Fail>
    ensures made { IfOk result (λ v. IsMade (stock work.old) (stock work.new) (record { value = tt; pieces = map piece_of v.items }) (loop_body (call_at here.entry) at (statement (callee_of here.entry) (call_at here.entry) (core_stmt_of body.now) false) (state_of (stock work.old)))) }
    ensures refused { IfRefused result (λ r. IsTooHeavy (stock work.old) r (loop_body (call_at here.entry) at (statement (callee_of here.entry) (call_at here.entry) (core_stmt_of body.now) false) (state_of (stock work.old)))) }
{
    let depth = deeper(here.depth)?;
    let here = Here { depth, ..here };
    let outer = work.begin(here.frame.context.alloc);
    mark(here.frame, work, PointKind::Body, at)?;
    statement(here, work, body, false)?;
    Ok(work.finish(outer))
}

/// The third part of a `for`, if there is one.
#[inline(never)]
#[cycle(expansion)]
fn step_of(here: Here, work: &mut Work, step: &[CoreAction], at: Place) -> Result<Vec<Piece>, Fail>
    ensures made { IfOk result (λ v. IsMade (stock work.old) (stock work.new) (record { value = tt; pieces = map piece_of v.items }) (inside (stepped (callee_of here.entry) (call_at here.entry) (map core_action_of step.now) at) (state_of (stock work.old)))) }
    ensures refused { IfRefused result (λ r. IsTooHeavy (stock work.old) r (inside (stepped (callee_of here.entry) (call_at here.entry) (map core_action_of step.now) at) (state_of (stock work.old)))) }
{
    let depth = deeper(here.depth)?;
    let here = Here { depth, ..here };
    let outer = work.begin(here.frame.context.alloc);
    stepped(here, work, step, at)?;
    Ok(work.finish(outer))
}

#[cycle(expansion)]
fn stepped(here: Here, work: &mut Work, step: &[CoreAction], at: Place) -> Result<(), Fail>
    ensures made { IfOk result (λ v. IsMade (stock work.old) (stock work.new) v (stepped (callee_of here.entry) (call_at here.entry) (map core_action_of step.now) at (state_of (stock work.old)))) }
    ensures refused { IfRefused result (λ r. IsTooHeavy (stock work.old) r (stepped (callee_of here.entry) (call_at here.entry) (map core_action_of step.now) at (state_of (stock work.old)))) }
{
    let depth = deeper(here.depth)?;
    let here = Here { depth, ..here };
    if step.is_empty() {
        return Ok(());
    }
    mark(here.frame, work, PointKind::Step, at)?;
    actions(here, work, step)
}

/// A return. In a tail position control goes on to the end of the call by itself.
#[inline(never)]
#[cycle(expansion)]
fn returned(here: Here, work: &mut Work, value: &Option<CoreExpr>, tail: bool) -> Result<(), Fail>
    ensures made { IfOk result (λ v. IsMade (stock work.old) (stock work.new) v (returned (callee_of here.entry) (call_at here.entry) (option_map core_of value.now) tail (state_of (stock work.old)))) }
    ensures refused { IfRefused result (λ r. IsTooHeavy (stock work.old) r (returned (callee_of here.entry) (call_at here.entry) (option_map core_of value.now) tail (state_of (stock work.old)))) }
{
    let depth = deeper(here.depth)?;
    let here = Here { depth, ..here };
    set_result(here, work, value)?;
    if tail {
        return Ok(());
    }
    work.emit(Piece::Leave(here.frame.call))
}

/// Sets the variable of the call's result.
#[cycle(expansion)]
fn set_result(here: Here, work: &mut Work, value: &Option<CoreExpr>) -> Result<(), Fail>
    ensures made { IfOk result (λ v. IsMade (stock work.old) (stock work.new) v (result_set (callee_of here.entry) (call_at here.entry) (option_map core_of value.now) (state_of (stock work.old)))) }
    ensures refused { IfRefused result (λ r. IsTooHeavy (stock work.old) r (result_set (callee_of here.entry) (call_at here.entry) (option_map core_of value.now) (state_of (stock work.old)))) }
{
    let depth = deeper(here.depth)?;
    let here = Here { depth, ..here };
    match value {
        None => Ok(()),
        Some(e) => {
            let value = expression(here, work, e)?;
            let result = here.frame.result.ok_or(impossible())?;
            set(work, result, value)
        }
    }
}

#[inline(never)]
#[cycle(expansion)]
fn actions(here: Here, work: &mut Work, list: &[CoreAction]) -> Result<(), Fail>
    ensures made { IfOk result (λ v. IsMade (stock work.old) (stock work.new) v (actions (callee_of here.entry) (call_at here.entry) (map core_action_of list.now) (state_of (stock work.old)))) }
    ensures refused { IfRefused result (λ r. IsTooHeavy (stock work.old) r (actions (callee_of here.entry) (call_at here.entry) (map core_action_of list.now) (state_of (stock work.old)))) }
{
    let depth = deeper(here.depth)?;
    let here = Here { depth, ..here };
    for one in list {
        action(here, work, one)?;
    }
    Ok(())
}

#[cycle(expansion)]
fn action(here: Here, work: &mut Work, one: &CoreAction) -> Result<(), Fail>
    ensures made { IfOk result (λ v. IsMade (stock work.old) (stock work.new) v (action (callee_of here.entry) (call_at here.entry) (core_action_of one.now) (state_of (stock work.old)))) }
    ensures refused { IfRefused result (λ r. IsTooHeavy (stock work.old) r (action (callee_of here.entry) (call_at here.entry) (core_action_of one.now) (state_of (stock work.old)))) }
{
    let depth = deeper(here.depth)?;
    let here = Here { depth, ..here };
    match one {
        CoreAction::Change(e) => changed(here, work, e),
        CoreAction::Value(e) => valued(here, work, e),
    }
}

/// An assignment, `++` or `--` that stands by itself.
#[cycle(expansion)]
fn changed(here: Here, work: &mut Work, e: &CoreExpr) -> Result<(), Fail>
    ensures made { IfOk result (λ v. IsMade (stock work.old) (stock work.new) v (changed (callee_of here.entry) (call_at here.entry) (core_of e.now) (state_of (stock work.old)))) }
    ensures refused { IfRefused result (λ r. IsTooHeavy (stock work.old) r (changed (callee_of here.entry) (call_at here.entry) (core_of e.now) (state_of (stock work.old)))) }
{
    let depth = deeper(here.depth)?;
    let here = Here { depth, ..here };
    match e {
        CoreExpr::Assign {
            target,
            op,
            value,
            at,
        } => {
            let change = assignment(here, work, target, *op, value, *at)?;
            let value = expression(here, work, value)?;
            apply(here.frame, work, change, value)
        }
        CoreExpr::Bump { target, up, at, .. } => {
            let change = step_by_one(here, work, target, *up, *at)?;
            let one = bit(here.frame.context.alloc, true)?;
            apply(here.frame, work, change, one)
        }
        _ => valued(here, work, e),
    }
}

/// Any other expression that stands by itself. Where it is no call, it is set into a variable of its own.
#[cycle(expansion)]
fn valued(here: Here, work: &mut Work, e: &CoreExpr) -> Result<(), Fail>
    ensures made { IfOk result (λ v. IsMade (stock work.old) (stock work.new) v (valued (callee_of here.entry) (call_at here.entry) (core_of e.now) (state_of (stock work.old)))) }
    ensures refused { IfRefused result (λ r. IsTooHeavy (stock work.old) r (valued (callee_of here.entry) (call_at here.entry) (core_of e.now) (state_of (stock work.old)))) }
{
    let depth = deeper(here.depth)?;
    let here = Here { depth, ..here };
    let value = expression(here, work, e)?;
    discard(work, is_call(e), value)
}
