//! Assignments, `++` and `--`.
ghost use Rattle.std.specs.Prelude.{◌≡◌, IfOk, map, if◌then◌else◌};
ghost use Rattle.hls_base.specs.Refusals.{IfRefused};
ghost use Rattle.pieces.specs.View.{pure_of, pures_of};
ghost use Rattle.piece_making.specs.Assigning.{change_of, new_value, target_read, store, apply, assigned, bumped, bumped_behind, step};
ghost use Rattle.piece_making.specs.Calls.{call_of};
ghost use Rattle.piece_making.specs.Stocks.{IsMade, IsTooHeavy, state_of, stock};

use crate::build::{Operator, binary, bit, element, variable};
use crate::frame::Frame;
use crate::work::Work;
use c_tree::operator::Binary;
use c_value::operate::binary_kind;
use hls_base::place::Place;
use hls_base::refusal::Fail;
use pieces::copy::copy_pures;
use pieces::pure_expr::Pure;
use pieces::pure_kind::kind_of;
use pieces::resolved::expression::CoreTarget;
use std::alloc::{AllocError, Global};

/// A change of a target with these subscripts, by an operator where there is one.
#[derive(Drop)]
pub struct Change<'e> {
    pub target: &'e CoreTarget,
    pub subscripts: Vec<Pure>,
    pub op: Option<Binary>,
    pub at: Place,
}

impl<'e> Change<'e> {
    /// `++` or `--`.
    pub fn bump(target: &'e CoreTarget, subscripts: Vec<Pure>, up: bool, at: Place) -> Change<'e>
        ensures target { result.target ≡ target.entry }
        ensures subscripts { result.subscripts ≡ subscripts }
        ensures op { result.op ≡ step up }
        ensures at { result.at ≡ at }
    {
        let op = Some(if up { Binary::Add } else { Binary::Sub });
        Change {
            target,
            subscripts,
            op,
            at,
        }
    }

    /// The value of the target.
    fn read(&self, frame: &Frame, work: &Work) -> Result<Pure, AllocError>
        ensures { IfOk result (λ p. pure_of p ≡ target_read (call_of frame.now) (change_of self.now) (state_of (stock work.now))) }
    {
        let CoreTarget { cell, kind, at, .. } = self.target;
        if self.subscripts.is_empty() {
            return frame.scalar(*cell, *kind);
        }
        let array = frame.array(work, *cell)?;
        let subscripts = copy_pures(frame.context.alloc, &self.subscripts)?;
        Ok(element(array, subscripts, *kind, *at))
    }

    /// What the operator, if there is one, makes of the target's old value and this one.
    fn result(&self, alloc: Global, left: Pure, value: Pure) -> Result<Pure, AllocError>
        ensures { IfOk result (λ p. pure_of p ≡ new_value (change_of self.now) (pure_of left) (pure_of value)) }
    {
        let Some(op) = self.op else {
            return Ok(value);
        };
        let kind = binary_kind(op, self.target.kind, kind_of(&value));
        let operator = Operator {
            op,
            kind,
            at: self.at,
        };
        binary(alloc, operator, left, value)
    }

    /// Sets the target.
    fn store(self, frame: &Frame, work: &mut Work, value: Pure) -> Result<(), Fail>
        ensures made { IfOk result (λ v. IsMade (stock work.old) (stock work.new) v (store (call_of frame.now) (change_of self.entry) (pure_of value) (state_of (stock work.old)))) }
        ensures refused { IfRefused result (λ r. IsTooHeavy (stock work.old) r (store (call_of frame.now) (change_of self.entry) (pure_of value) (state_of (stock work.old)))) }
    {
        let Change {
            target,
            subscripts,
            ..
        } = self;
        if subscripts.is_empty() {
            work.set(frame.variable(target.cell)?, value)
        } else {
            let array = frame.array(work, target.cell)?;
            work.put(array, subscripts, value, target.at)
        }
    }
}

/// A change whose value is not used, by this number.
pub fn apply(frame: &Frame, work: &mut Work, change: Change, by: Pure) -> Result<(), Fail>
    ensures made { IfOk result (λ v. IsMade (stock work.old) (stock work.new) v (apply (call_of frame.now) (change_of change.entry) (pure_of by) (state_of (stock work.old)))) }
    ensures refused { IfRefused result (λ r. IsTooHeavy (stock work.old) r (apply (call_of frame.now) (change_of change.entry) (pure_of by) (state_of (stock work.old)))) }
{
    let left = change.read(frame, work)?;
    let value = change.result(frame.context.alloc, left, by)?;
    change.store(frame, work, value)
}

/// An assignment inside an expression: its value stands in a variable of its own, which is then assigned.
pub fn assigned(frame: &Frame, work: &mut Work, change: Change, by: Pure) -> Result<Pure, Fail>
    ensures made { IfOk result (λ v. IsMade (stock work.old) (stock work.new) (pure_of v) (assigned (call_of frame.now) (change_of change.entry) (pure_of by) (state_of (stock work.old)))) }
    ensures refused { IfRefused result (λ r. IsTooHeavy (stock work.old) r (assigned (call_of frame.now) (change_of change.entry) (pure_of by) (state_of (stock work.old)))) }
{
    let kind = change.target.kind;
    let left = change.read(frame, work)?;
    let value = change.result(frame.context.alloc, left, by)?;
    let own = work.fresh(kind)?;
    work.set(own, value)?;
    let stored = variable(own, kind);
    change.store(frame, work, stored)?;
    Ok(variable(own, kind))
}

/// `++` or `--` inside an expression. Behind its target it has the value from before.
pub fn bumped(frame: &Frame, work: &mut Work, change: Change, post: bool) -> Result<Pure, Fail>
    ensures made { IfOk result (λ v. IsMade (stock work.old) (stock work.new) (pure_of v) (bumped (call_of frame.now) (change_of change.entry) post (state_of (stock work.old)))) }
    ensures refused { IfRefused result (λ r. IsTooHeavy (stock work.old) r (bumped (call_of frame.now) (change_of change.entry) post (state_of (stock work.old)))) }
{
    if post {
        bumped_behind(frame, work, change)
    } else {
        assigned(frame, work, change, bit(true))
    }
}

fn bumped_behind(frame: &Frame, work: &mut Work, change: Change) -> Result<Pure, Fail>
    ensures made { IfOk result (λ v. IsMade (stock work.old) (stock work.new) (pure_of v) (bumped_behind (call_of frame.now) (change_of change.entry) (state_of (stock work.old)))) }
    ensures refused { IfRefused result (λ r. IsTooHeavy (stock work.old) r (bumped_behind (call_of frame.now) (change_of change.entry) (state_of (stock work.old)))) }
{
    let kind = change.target.kind;
    let before = change.read(frame, work)?;
    let own = work.fresh(kind)?;
    work.set(own, before)?;
    let read = variable(own, kind);
    let one = bit(true);
    let value = change.result(frame.context.alloc, read, one)?;
    change.store(frame, work, value)?;
    Ok(variable(own, kind))
}
