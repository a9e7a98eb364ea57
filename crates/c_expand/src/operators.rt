//! Operators behind their first operand, and those whose operands may not be reached.
ghost use Rattle.std.specs.Prelude.{◌≡◌, IfOk, map};
ghost use Rattle.hls_base.specs.Refusals.{IfRefused};
ghost use Rattle.pieces.specs.Resolved.CoreView.{core_of};
ghost use Rattle.pieces.specs.View.{pure_of, piece_of};
ghost use Rattle.piece_making.specs.Acting.{either, effects};
ghost use Rattle.piece_making.specs.Calls.{call_of};
ghost use Rattle.piece_making.specs.Saving.{is_logical};
ghost use Rattle.piece_making.specs.Stocks.{IsMade, IsTooHeavy, state_of, stock};
ghost use Rattle.c_expand.specs.Callees.{callee_of, call_at};
ghost use Rattle.pieces.specs.Trees as tree;
ghost use Rattle.c_expand.specs.Chains.{link};
ghost use Rattle.c_expand.specs.InPlace.{operated_in_place, chosen_in_place, forked_behind};
ghost use Rattle.c_expand.specs.Expressions.{expression, operated, forked, chosen, arm, decided, same, to_bool, fork_of, is_call, may_be_unused, comma_left, discarded, set_unused, is_or};

use crate::emitting::mark;
use crate::expressions::expression;
use crate::held::{Held, HeldChange, assigned, binary, cast, choice, save, set, unary};
use crate::here::{Here, deeper};
use c_token::ctype::CType;
use c_tree::operator::{Binary, Unary};
use hls_base::number::VarId;
use hls_base::place::Place;
use hls_base::point::PointKind;
use hls_base::refusal::{Fail, impossible};
use piece_making::build::{Operator, bit, variable};
use piece_making::effects::{Effects, effects_of};
use piece_making::frame::{Context, Frame};
use piece_making::work::Work;
use pieces::piece::Piece;
use pieces::pure_kind::kind_of;
use pieces::resolved::expression::CoreExpr;
use std::alloc::Global;

/// An operator with all but the operand that a chain of operators goes on with. An assignment has the subscripts of its target, which are evaluated before.
#[derive(Drop)]
pub enum Step<'e> {
    Unary {
        op: Unary,
        kind: CType,
        at: Place,
    },
    Cast {
        to: CType,
    },
    Binary {
        operator: Operator,
        right: &'e CoreExpr,
    },
    Assign(HeldChange<'e>),
    Comma {
        left: &'e CoreExpr,
        right: &'e CoreExpr,
    },
}

/// An operator behind the operand that it goes on with.
#[inline(never)]
#[cycle(expansion)]
pub fn linked(here: Here, work: &mut Work, step: Step, part: Held) -> Result<Held, Fail>
    ensures made { IfOk result (λ v. IsMade (stock work.old) (stock work.new) (pure_of v) (link (callee_of here.entry) (call_at here.entry) step.entry (pure_of part) (state_of (stock work.old)))) }
    ensures refused { IfRefused result (λ r. IsTooHeavy (stock work.old) r (link (callee_of here.entry) (call_at here.entry) step.entry (pure_of part) (state_of (stock work.old)))) }
{
    let depth = deeper(here.depth)?;
    let here = Here { depth, ..here };
    let alloc = here.frame.context.alloc;
    match step {
        Step::Unary { op, kind, at } => unary_of(alloc, op, part, kind, at),
        Step::Cast { to } => cast_to(alloc, to, part),
        Step::Binary { operator, right } => operated(here, work, operator, part, right),
        Step::Assign(change) => assigned(here.frame, work, change, part),
        Step::Comma { left, right } => {
            let later = effects_of(right);
            comma_left(here.frame.context, work, left, part, later)?;
            expression(here, work, right)
        }
    }
}

#[inline(never)]
fn unary_of(alloc: Global, op: Unary, arg: Held, kind: CType, at: Place) -> Result<Held, Fail>
    ensures made { IfOk result (λ p. pure_of p ≡ tree.unary op (pure_of arg) kind at) }
    ensures refused { IfRefused result (λ r. ⊥) }
{
    Ok(unary(alloc, op, arg, kind, at)?)
}

#[inline(never)]
fn cast_to(alloc: Global, to: CType, arg: Held) -> Result<Held, Fail>
    ensures made { IfOk result (λ p. pure_of p ≡ tree.cast to (pure_of arg)) }
    ensures refused { IfRefused result (λ r. ⊥) }
{
    Ok(cast(alloc, to, arg)?)
}

/// The left operand of a comma. What it reads is saved where the right operand has effects, unless it is a call. Its value is not used.
#[inline(never)]
fn comma_left(
    context: &Context,
    work: &mut Work,
    left: &CoreExpr,
    value: Held,
    later: Effects,
) -> Result<(), Fail>
    ensures made { IfOk result (λ v. IsMade (stock work.old) (stock work.new) v (comma_left context.now.file_variables (core_of left.now) (pure_of value) later (state_of (stock work.old)))) }
    ensures refused { IfRefused result (λ r. IsTooHeavy (stock work.old) r (comma_left context.now.file_variables (core_of left.now) (pure_of value) later (state_of (stock work.old)))) }
{
    if is_call(left) {
        Ok(())
    } else {
        let value = save(context, work, value, later)?;
        discard(work, may_be_unused(left), value)
    }
}

pub fn is_call(e: &CoreExpr) -> bool
    ensures { result ≡ is_call (core_of e.now) }
{
    matches!(e, CoreExpr::Call { .. })
}

/// Whether an expression is a call, a comma or a change, whose value is let go where it is not used.
fn may_be_unused(e: &CoreExpr) -> bool
    ensures { result ≡ may_be_unused (core_of e.now) }
{
    matches!(
        e,
        CoreExpr::Call { .. }
            | CoreExpr::Assign { .. }
            | CoreExpr::Bump { .. }
            | CoreExpr::Comma { .. }
    )
}

/// A value that is not used. It is set into a variable of its own, unless it may be let go.
pub fn discard(work: &mut Work, is_let_go: bool, value: Held) -> Result<(), Fail>
    ensures made { IfOk result (λ v. IsMade (stock work.old) (stock work.new) v (discarded is_let_go (pure_of value) (state_of (stock work.old)))) }
    ensures refused { IfRefused result (λ r. IsTooHeavy (stock work.old) r (discarded is_let_go (pure_of value) (state_of (stock work.old)))) }
{
    if is_let_go {
        return Ok(());
    }
    set_unused(work, value)
}

/// A value that is not used is set into a variable of its own.
fn set_unused(work: &mut Work, value: Held) -> Result<(), Fail>
    ensures made { IfOk result (λ v. IsMade (stock work.old) (stock work.new) v (set_unused (pure_of value) (state_of (stock work.old)))) }
    ensures refused { IfRefused result (λ r. IsTooHeavy (stock work.old) r (set_unused (pure_of value) (state_of (stock work.old)))) }
{
    let value = value.into_inner();
    let kind = kind_of(&value);
    let _ = work.set_own(kind, value)?;
    Ok(())
}

/// A binary operator. `&&` and `||` become a fork where their right operand needs pieces of its own.
#[inline(never)]
#[cycle(expansion)]
fn operated(
    here: Here,
    work: &mut Work,
    operator: Operator,
    left: Held,
    right: &CoreExpr,
) -> Result<Held, Fail>
    ensures made { IfOk result (λ v. IsMade (stock work.old) (stock work.new) (pure_of v) (operated (call_at here.entry) operator.op operator.kind operator.at (pure_of left) (effects (core_of right.now)) (expression (callee_of here.entry) (call_at here.entry) (core_of right.now)) (state_of (stock work.old)))) }
    ensures refused { IfRefused result (λ r. IsTooHeavy (stock work.old) r (operated (call_at here.entry) operator.op operator.kind operator.at (pure_of left) (effects (core_of right.now)) (expression (callee_of here.entry) (call_at here.entry) (core_of right.now)) (state_of (stock work.old)))) }
{
    let depth = deeper(here.depth)?;
    let here = Here { depth, ..here };
    let context = here.frame.context;
    let later = effects_of(right);
    let left = save(context, work, left, later)?;
    if is_logical(operator.op) && later.is_some() {
        return forked(here, work, operator, left, right);
    }
    operated_in_place(here, work, operator, left, right)
}

/// A binary operator whose right operand is evaluated in place.
#[inline(never)]
#[cycle(expansion)]
fn operated_in_place(
    here: Here,
    work: &mut Work,
    operator: Operator,
    left: Held,
    right: &CoreExpr,
) -> Result<Held, Fail>
    ensures made { IfOk result (λ v. IsMade (stock work.old) (stock work.new) (pure_of v) (operated_in_place operator.op operator.kind operator.at (pure_of left) (expression (callee_of here.entry) (call_at here.entry) (core_of right.now)) (state_of (stock work.old)))) }
    ensures refused { IfRefused result (λ r. IsTooHeavy (stock work.old) r (operated_in_place operator.op operator.kind operator.at (pure_of left) (expression (callee_of here.entry) (call_at here.entry) (core_of right.now)) (state_of (stock work.old)))) }
{
    let depth = deeper(here.depth)?;
    let here = Here { depth, ..here };
    let right = expression(here, work, right)?;
    Ok(binary(here.frame.context.alloc, operator, left, right)?)
}

fn is_logical(op: Binary) -> bool
    ensures { result ≡ is_logical op }
{
    matches!(op, Binary::LogAnd | Binary::LogOr)
}

fn is_or(op: Binary) -> bool
    ensures { result ≡ is_or op }
{
    matches!(op, Binary::LogOr)
}

/// A `&&` or `||` whose right operand is evaluated in a branch.
#[inline(never)]
#[cycle(expansion)]
fn forked(
    here: Here,
    work: &mut Work,
    operator: Operator,
    test: Held,
    right: &CoreExpr,
) -> Result<Held, Fail>
    ensures made { IfOk result (λ v. IsMade (stock work.old) (stock work.new) (pure_of v) (forked (call_at here.entry) operator.op operator.kind operator.at (pure_of test) (expression (callee_of here.entry) (call_at here.entry) (core_of right.now)) (state_of (stock work.old)))) }
    ensures refused { IfRefused result (λ r. IsTooHeavy (stock work.old) r (forked (call_at here.entry) operator.op operator.kind operator.at (pure_of test) (expression (callee_of here.entry) (call_at here.entry) (core_of right.now)) (state_of (stock work.old)))) }
{
    let depth = deeper(here.depth)?;
    let here = Here { depth, ..here };
    let own = work.fresh(operator.kind)?;
    let pieces = truth_arm(here, work, own, right, operator.at)?;
    fork_behind(here.frame, work, operator, test, Reached { own, pieces })
}

/// The branch that evaluates the right operand of a `&&` or `||`, and the variable that it sets.
#[derive(Drop)]
struct Reached {
    own: VarId,
    pieces: Vec<Piece>,
}

/// A `&&` or `||` behind the branch that evaluates its right operand.
#[inline(never)]
fn fork_behind(
    frame: &Frame,
    work: &mut Work,
    operator: Operator,
    test: Held,
    reached: Reached,
) -> Result<Held, Fail>
    ensures made { IfOk result (λ v. IsMade (stock work.old) (stock work.new) (pure_of v) (forked_behind (call_of frame.now) operator.op operator.kind operator.at (pure_of test) (map piece_of reached.pieces.items) reached.own (state_of (stock work.old)))) }
    ensures refused { IfRefused result (λ r. IsTooHeavy (stock work.old) r (forked_behind (call_of frame.now) operator.op operator.kind operator.at (pure_of test) (map piece_of reached.pieces.items) reached.own (state_of (stock work.old)))) }
{
    let Operator { op, kind, at } = operator;
    let Reached {
        own,
        pieces: reached,
    } = reached;
    let is_or = is_or(op);
    let other = decided(frame, work, own, is_or)?;
    if is_or {
        let arms = Arms {
            yes: other,
            no: reached,
            own,
            kind,
            at,
        };
        fork(frame, work, test, arms)
    } else {
        let arms = Arms {
            yes: reached,
            no: other,
            own,
            kind,
            at,
        };
        fork(frame, work, test, arms)
    }
}

/// The arms of a fork that an operator becomes, and the variable that they set.
#[derive(Drop)]
struct Arms {
    yes: Vec<Piece>,
    no: Vec<Piece>,
    own: VarId,
    kind: CType,
    at: Place,
}

/// A fork of an operator. Its value stands in the variable that the arms set.
#[inline(never)]
fn fork(frame: &Frame, work: &mut Work, test: Held, arms: Arms) -> Result<Held, Fail>
    ensures made { IfOk result (λ v. IsMade (stock work.old) (stock work.new) (pure_of v) (fork_of (call_of frame.now) arms.at (pure_of test) (map piece_of arms.yes.items) (map piece_of arms.no.items) arms.own arms.kind (state_of (stock work.old)))) }
    ensures refused { IfRefused result (λ r. IsTooHeavy (stock work.old) r (fork_of (call_of frame.now) arms.at (pure_of test) (map piece_of arms.yes.items) (map piece_of arms.no.items) arms.own arms.kind (state_of (stock work.old)))) }
{
    let Arms {
        yes,
        no,
        own,
        kind,
        at,
    } = arms;
    let end = frame.point(PointKind::End, at)?;
    let test = test.into_inner();
    work.emit(Piece::Fork { test, yes, no, end })?;
    Ok(Held::new(frame.context.alloc, variable(own, kind))?)
}

/// The branch of a `&&` or `||` that sets the number 0 or 1.
#[inline(never)]
fn decided(frame: &Frame, work: &mut Work, own: VarId, is_one: bool) -> Result<Vec<Piece>, Fail>
    ensures made { IfOk result (λ v. IsMade (stock work.old) (stock work.new) (record { value = tt; pieces = map piece_of v.items }) (decided is_one own (state_of (stock work.old)))) }
    ensures refused { IfRefused result (λ r. IsTooHeavy (stock work.old) r (decided is_one own (state_of (stock work.old)))) }
{
    let outer = work.begin(frame.context.alloc);
    let number = bit(is_one);
    work.set(own, number)?;
    Ok(work.finish(outer))
}

/// A branch that sets this variable to whether the expression is not 0.
#[inline(never)]
#[cycle(expansion)]
fn truth_arm(
    here: Here,
    work: &mut Work,
    own: VarId,
    e: &CoreExpr,
    at: Place,
) -> Result<Vec<Piece>, Fail>
    ensures made { IfOk result (λ v. IsMade (stock work.old) (stock work.new) (record { value = tt; pieces = map piece_of v.items }) (arm (call_at here.entry) at (expression (callee_of here.entry) (call_at here.entry) (core_of e.now)) to_bool own (state_of (stock work.old)))) }
    ensures refused { IfRefused result (λ r. IsTooHeavy (stock work.old) r (arm (call_at here.entry) at (expression (callee_of here.entry) (call_at here.entry) (core_of e.now)) to_bool own (state_of (stock work.old)))) }
{
    let depth = deeper(here.depth)?;
    let here = Here { depth, ..here };
    let alloc = here.frame.context.alloc;
    let outer = work.begin(alloc);
    mark(here.frame, work, PointKind::Arm, at)?;
    let value = expression(here, work, e)?;
    let truth = cast(alloc, CType::Bool, value)?;
    set(work, own, truth)?;
    Ok(work.finish(outer))
}

/// A branch that sets this variable to the value of the expression.
#[inline(never)]
#[cycle(expansion)]
fn arm(here: Here, work: &mut Work, own: VarId, e: &CoreExpr, at: Place) -> Result<Vec<Piece>, Fail>
    ensures made { IfOk result (λ v. IsMade (stock work.old) (stock work.new) (record { value = tt; pieces = map piece_of v.items }) (arm (call_at here.entry) at (expression (callee_of here.entry) (call_at here.entry) (core_of e.now)) same own (state_of (stock work.old)))) }
    ensures refused { IfRefused result (λ r. IsTooHeavy (stock work.old) r (arm (call_at here.entry) at (expression (callee_of here.entry) (call_at here.entry) (core_of e.now)) same own (state_of (stock work.old)))) }
{
    let depth = deeper(here.depth)?;
    let here = Here { depth, ..here };
    let outer = work.begin(here.frame.context.alloc);
    mark(here.frame, work, PointKind::Arm, at)?;
    let value = expression(here, work, e)?;
    set(work, own, value)?;
    Ok(work.finish(outer))
}

/// The second and third operand of a `?:`.
#[derive(Clone, Copy)]
struct Choice<'e> {
    yes: &'e CoreExpr,
    no: &'e CoreExpr,
    kind: CType,
    at: Place,
    colon: Place,
}

/// A `?:`.
#[inline(never)]
#[cycle(expansion)]
pub fn chosen(here: Here, work: &mut Work, e: &CoreExpr) -> Result<Held, Fail>
    ensures made { IfOk result (λ v. IsMade (stock work.old) (stock work.new) (pure_of v) (expression (callee_of here.entry) (call_at here.entry) (core_of e.now) (state_of (stock work.old)))) }
    ensures refused { IfRefused result (λ r. IsTooHeavy (stock work.old) r (expression (callee_of here.entry) (call_at here.entry) (core_of e.now) (state_of (stock work.old)))) }
{
    let depth = deeper(here.depth)?;
    let here = Here { depth, ..here };
    let CoreExpr::Choice {
        test,
        yes,
        no,
        kind,
        at,
        colon,
    } = e
    else {
        return Err(Fail::from(impossible()));
    };
    let (kind, at, colon) = (*kind, *at, *colon);
    let test = expression(here, work, test)?;
    let operands = Choice {
        yes,
        no,
        kind,
        at,
        colon,
    };
    selected(here, work, test, operands)
}

/// A `?:` behind its test. It becomes a fork where its second or third operand needs pieces of its own.
#[inline(never)]
#[cycle(expansion)]
fn selected(here: Here, work: &mut Work, test: Held, operands: Choice) -> Result<Held, Fail>
    ensures made { IfOk result (λ v. IsMade (stock work.old) (stock work.new) (pure_of v) (chosen (call_at here.entry) operands.entry.kind operands.entry.at operands.entry.colon (pure_of test) (either (effects (core_of operands.entry.yes.now)) (effects (core_of operands.entry.no.now))) (expression (callee_of here.entry) (call_at here.entry) (core_of operands.entry.yes.now)) (expression (callee_of here.entry) (call_at here.entry) (core_of operands.entry.no.now)) (state_of (stock work.old)))) }
    ensures refused { IfRefused result (λ r. IsTooHeavy (stock work.old) r (chosen (call_at here.entry) operands.entry.kind operands.entry.at operands.entry.colon (pure_of test) (either (effects (core_of operands.entry.yes.now)) (effects (core_of operands.entry.no.now))) (expression (callee_of here.entry) (call_at here.entry) (core_of operands.entry.yes.now)) (expression (callee_of here.entry) (call_at here.entry) (core_of operands.entry.no.now)) (state_of (stock work.old)))) }
{
    let depth = deeper(here.depth)?;
    let here = Here { depth, ..here };
    let context = here.frame.context;
    let Choice {
        yes,
        no,
        kind,
        at,
        colon,
    } = operands;
    let second = effects_of(yes);
    let third = effects_of(no);
    let later = second.or(third);
    if !later.is_some() {
        return chosen_in_place(here, work, test, operands);
    }
    let test = save(context, work, test, later)?;
    let own = work.fresh(kind)?;
    let yes = arm(here, work, own, yes, at)?;
    let no = arm(here, work, own, no, colon)?;
    fork(
        here.frame,
        work,
        test,
        Arms {
            yes,
            no,
            own,
            kind,
            at,
        },
    )
}

/// A `?:` behind its test whose second and third operand are evaluated in place.
#[inline(never)]
#[cycle(expansion)]
fn chosen_in_place(here: Here, work: &mut Work, test: Held, operands: Choice) -> Result<Held, Fail>
    ensures made { IfOk result (λ v. IsMade (stock work.old) (stock work.new) (pure_of v) (chosen_in_place operands.entry.kind (pure_of test) (expression (callee_of here.entry) (call_at here.entry) (core_of operands.entry.yes.now)) (expression (callee_of here.entry) (call_at here.entry) (core_of operands.entry.no.now)) (state_of (stock work.old)))) }
    ensures refused { IfRefused result (λ r. IsTooHeavy (stock work.old) r (chosen_in_place operands.entry.kind (pure_of test) (expression (callee_of here.entry) (call_at here.entry) (core_of operands.entry.yes.now)) (expression (callee_of here.entry) (call_at here.entry) (core_of operands.entry.no.now)) (state_of (stock work.old)))) }
{
    let depth = deeper(here.depth)?;
    let here = Here { depth, ..here };
    let yes = expression(here, work, operands.yes)?;
    let no = expression(here, work, operands.no)?;
    let alloc = here.frame.context.alloc;
    Ok(choice(alloc, operands.kind, test, yes, no)?)
}
