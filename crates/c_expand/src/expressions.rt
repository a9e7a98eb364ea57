//! Expressions: the pieces that have to come before them, and the value that is left.
ghost use Rattle.std.specs.Prelude.{◌≡◌, ◌∷◌, ◌++◌, IfOk, map, []};
ghost use Rattle.std.specs.Option.{option_map};
ghost use Rattle.hls_base.specs.Refusals.{IfRefused};
ghost use Rattle.pieces.specs.Resolved.Core as core;
ghost use Rattle.pieces.specs.Resolved.Core.{row};
ghost use Rattle.pieces.specs.Resolved.CoreView.{core_of, core_target_of};
ghost use Rattle.pieces.specs.View.{pure_of};
ghost use Rattle.piece_making.specs.Acting.{no_effects, effects};
ghost use Rattle.piece_making.specs.Assigning.{change_of, step};
ghost use Rattle.piece_making.specs.Stocks.{IsMade, IsTooHeavy, state_of, stock};
ghost use Rattle.c_expand.specs.Callees.{callee_of, call_at};
ghost use Rattle.c_expand.specs.Chains.{links};
ghost use Rattle.c_expand.specs.Expressions.{expression, operands, targeted, value_or_zero};

use crate::calls::called;
use crate::chain::Chain;
use crate::held::{Held, HeldChange, HeldRow, bit, bump, element, number, save, scalar_at};
use crate::here::{Here, deeper};
use crate::operators::{Step, chosen, linked};
use c_token::ctype::CType;
use c_tree::operator::Binary;
use hls_base::place::Place;
use hls_base::refusal::{Fail, impossible};
use piece_making::assignments::Change;
use piece_making::build::Operator;
use piece_making::effects::{Effects, NO_EFFECTS, effects_of, effects_of_all};
use piece_making::work::Work;
use pieces::resolved::expression::{Cell, CoreExpr, CoreTarget};
use std::alloc::{AllocError, Global};

/// The value of an expression, behind the pieces that it needs. Operators are gone through in a loop, so that the depth of the recursion is bounded by how deep the source nests.
#[cycle(expansion)]
pub fn expression(here: Here, work: &mut Work, e: &CoreExpr) -> Result<Held, Fail>
    ensures made { IfOk result (λ v. IsMade (stock work.old) (stock work.new) (pure_of v) (expression (callee_of here.entry) (call_at here.entry) (core_of e.now) (state_of (stock work.old)))) }
    ensures refused { IfRefused result (λ r. IsTooHeavy (stock work.old) r (expression (callee_of here.entry) (call_at here.entry) (core_of e.now) (state_of (stock work.old)))) }
{
    let depth = deeper(here.depth)?;
    let here = Here { depth, ..here };
    let mut steps = Chain::new(here.frame.context.alloc);
    let mut part = e;
    'chain: loop {
        match part {
            CoreExpr::Unary { op, arg, kind, at } => {
                let (op, kind, at) = (*op, *kind, *at);
                steps.unary(op, kind, at)?;
                part = arg;
            }
            CoreExpr::Cast { to, arg } => {
                steps.cast(*to)?;
                part = arg;
            }
            CoreExpr::Binary {
                op,
                left,
                right,
                kind,
                at,
            } => {
                let operator = Operator {
                    op: *op,
                    kind: *kind,
                    at: *at,
                };
                steps.binary(operator, right)?;
                part = left;
            }
            CoreExpr::Assign {
                target,
                op,
                value,
                at,
            } => {
                let change = assignment(here, work, target, *op, value, *at)?;
                steps.assign(change)?;
                part = value;
            }
            CoreExpr::Comma { left, right } => {
                steps.comma(left, right)?;
                part = left;
            }
            _ => {
                let first = innermost(here, work, part)?;
                return joined(here, work, first, steps.into_inner());
            }
        }
    }
}

/// An expression at whose top no operator of a chain stands.
#[inline(never)]
#[cycle(expansion)]
fn innermost(here: Here, work: &mut Work, e: &CoreExpr) -> Result<Held, Fail>
    ensures made { IfOk result (λ v. IsMade (stock work.old) (stock work.new) (pure_of v) (expression (callee_of here.entry) (call_at here.entry) (core_of e.now) (state_of (stock work.old)))) }
    ensures refused { IfRefused result (λ r. IsTooHeavy (stock work.old) r (expression (callee_of here.entry) (call_at here.entry) (core_of e.now) (state_of (stock work.old)))) }
{
    let depth = deeper(here.depth)?;
    let here = Here { depth, ..here };
    match e {
        CoreExpr::Number { value, kind } => number(here.frame.context.alloc, *value, *kind),
        CoreExpr::Scalar { cell, kind, .. } => scalar_at(here.frame, *cell, *kind),
        CoreExpr::Element {
            array,
            subscripts,
            kind,
            at,
        } => element_of(here, work, *array, subscripts, *kind, *at),
        CoreExpr::Call {
            function,
            args,
            at,
            ..
        } => {
            let value = called(here, work, *function, args, *at)?;
            Ok(value_or_zero(here.frame.context.alloc, value)?)
        }
        CoreExpr::Choice { .. } => chosen(here, work, e),
        CoreExpr::Bump {
            target,
            up,
            post,
            at,
        } => {
            let change = step_by_one(here, work, target, *up, *at)?;
            bump(here.frame, work, change, *post)
        }
        _ => Err(Fail::from(impossible())),
    }
}

/// The value of a call that has one.
#[inline(never)]
fn value_or_zero(alloc: Global, value: Option<Held>) -> Result<Held, AllocError>
    ensures { IfOk result (λ v. pure_of v ≡ value_or_zero (option_map pure_of value)) }
{
    match value {
        Some(value) => Ok(value),
        None => bit(alloc, false),
    }
}

/// The operators of a chain, the last one first, around its first operand.
#[cycle(expansion)]
fn joined(here: Here, work: &mut Work, first: Held, steps: Vec<Step>) -> Result<Held, Fail>
    ensures made { IfOk result (λ v. IsMade (stock work.old) (stock work.new) (pure_of v) (links (callee_of here.entry) (call_at here.entry) steps.entry.items (pure_of first) (state_of (stock work.old)))) }
    ensures refused { IfRefused result (λ r. IsTooHeavy (stock work.old) r (links (callee_of here.entry) (call_at here.entry) steps.entry.items (pure_of first) (state_of (stock work.old)))) }
{
    let depth = deeper(here.depth)?;
    let here = Here { depth, ..here };
    let mut steps = steps;
    let mut part = first;
    while let Some(step) = steps.pop() {
        part = linked(here, work, step, part)?;
    }
    Ok(part)
}

/// An element that is read.
#[inline(never)]
#[cycle(expansion)]
fn element_of(
    here: Here,
    work: &mut Work,
    array: Cell,
    subscripts: &[CoreExpr],
    kind: CType,
    at: Place,
) -> Result<Held, Fail>
    ensures made { IfOk result (λ v. IsMade (stock work.old) (stock work.new) (pure_of v) (expression (callee_of here.entry) (call_at here.entry) (core.element array (row (map core_of subscripts.now)) kind at) (state_of (stock work.old)))) }
    ensures refused { IfRefused result (λ r. IsTooHeavy (stock work.old) r (expression (callee_of here.entry) (call_at here.entry) (core.element array (row (map core_of subscripts.now)) kind at) (state_of (stock work.old)))) }
{
    let depth = deeper(here.depth)?;
    let here = Here { depth, ..here };
    let subscripts = operands(here, work, subscripts, NO_EFFECTS)?;
    let array = here.frame.array(work, array)?;
    Ok(element(here.frame.context.alloc, array, subscripts, kind, at)?)
}

/// The target of an assignment of this value, whose subscripts are evaluated.
#[inline(never)]
#[cycle(expansion)]
pub fn assignment<'e>(
    here: Here,
    work: &mut Work,
    target: &'e CoreTarget,
    op: Option<Binary>,
    value: &CoreExpr,
    at: Place,
) -> Result<HeldChange<'e>, Fail>
    ensures made { IfOk result (λ v. IsMade (stock work.old) (stock work.new) (change_of v) (targeted (callee_of here.entry) (call_at here.entry) (core_target_of target.now) (effects (core_of value.now)) op at (state_of (stock work.old)))) }
    ensures refused { IfRefused result (λ r. IsTooHeavy (stock work.old) r (targeted (callee_of here.entry) (call_at here.entry) (core_target_of target.now) (effects (core_of value.now)) op at (state_of (stock work.old)))) }
{
    let depth = deeper(here.depth)?;
    let here = Here { depth, ..here };
    let later = effects_of(value);
    let subscripts = operands(here, work, &target.subscripts, later)?;
    let subscripts = subscripts.into_inner();
    Ok(HeldChange::new(Change {
        target,
        subscripts,
        op,
        at,
    }))
}

/// The target of a `++` or `--`, whose subscripts are evaluated.
#[inline(never)]
#[cycle(expansion)]
pub fn step_by_one<'e>(
    here: Here,
    work: &mut Work,
    target: &'e CoreTarget,
    up: bool,
    at: Place,
) -> Result<HeldChange<'e>, Fail>
    ensures made { IfOk result (λ v. IsMade (stock work.old) (stock work.new) (change_of v) (targeted (callee_of here.entry) (call_at here.entry) (core_target_of target.now) no_effects (step up) at (state_of (stock work.old)))) }
    ensures refused { IfRefused result (λ r. IsTooHeavy (stock work.old) r (targeted (callee_of here.entry) (call_at here.entry) (core_target_of target.now) no_effects (step up) at (state_of (stock work.old)))) }
{
    let depth = deeper(here.depth)?;
    let here = Here { depth, ..here };
    let subscripts = operands(here, work, &target.subscripts, NO_EFFECTS)?;
    let subscripts = subscripts.into_inner();
    Ok(HeldChange::new(Change::bump(target, subscripts, up, at)))
}

/// Operands from left to right. What each of them reads is saved where a later one, or what comes behind them, has effects.
#[inline(never)]
#[cycle(expansion)]
fn operands(here: Here, work: &mut Work, es: &[CoreExpr], behind: Effects) -> Result<HeldRow, Fail>
    ensures made { IfOk result (λ v. IsMade (stock work.old) (stock work.new) (map pure_of v.items) (operands (callee_of here.entry) (call_at here.entry) (row (map core_of es.now)) behind [] (state_of (stock work.old)))) }
    ensures refused { IfRefused result (λ r. IsTooHeavy (stock work.old) r (operands (callee_of here.entry) (call_at here.entry) (row (map core_of es.now)) behind [] (state_of (stock work.old)))) }
{
    let depth = deeper(here.depth)?;
    let here = Here { depth, ..here };
    let context = here.frame.context;
    let mut values = HeldRow::new(context.alloc);
    for (i, e) in es.iter().enumerate() {
        let value = expression(here, work, e)?;
        let rest = effects_of_all(&es[i + 1..]);
        let kept = save(context, work, value, rest.or(behind))?;
        values.push(kept)?;
    }
    Ok(values)
}
