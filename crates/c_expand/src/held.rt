//! Values of expressions in boxes, and the steps that make them. A function that calls itself while it has a value then needs little stack.
ghost use Rattle.std.specs.Prelude.{◌≡◌, IfOk, if◌then◌else◌};
ghost use Rattle.hls_base.specs.Refusals.{IfRefused};
ghost use Rattle.c_value.specs.Values.{int_type};
ghost use Rattle.pieces.specs.Trees as tree;
ghost use Rattle.pieces.specs.View.{pure_of, pures_of};
ghost use Rattle.piece_making.specs.Assigning.{change_of, apply, assigned, bumped};
ghost use Rattle.piece_making.specs.Calls.{call_of, scalar};
ghost use Rattle.piece_making.specs.Making.{emit};
ghost use Rattle.piece_making.specs.Saving.{save};
ghost use Rattle.piece_making.specs.Stocks.{IsMade, IsTooHeavy, state_of, stock};

use c_token::ctype::CType;
use c_tree::operator::Unary;
use hls_base::number::{ArrayId, VarId};
use hls_base::place::Place;
use hls_base::refusal::Fail;
use piece_making::assignments::Change;
use piece_making::build::Operator;
use piece_making::effects::Effects;
use piece_making::frame::{Context, Frame};
use piece_making::work::Work;
use piece_making::{assignments, build, saving};
use pieces::pure_expr::Pure;
use pieces::resolved::expression::Cell;
use std::alloc::{AllocError, Global};
use std::marker::Model;

/// A value in a box that is dropped by a call. The code that drops an expression has places for copies of its parts, which would be in the frame of each function that drops one.
pub struct Held {
    value: Box<Pure>,
}

impl Model for Held {
    ghost use Rattle.std.specs.Coded.{codes};
    ghost use Rattle.pieces.specs.contracts.pure_expr.Pure as pure_expr;
    ghost use Rattle.pieces.specs.declared.pure_expr.Pure.{Pure};

    ghost Value = { Pure };

    ghost coded = { Prim.hlevel (codes, pure_expr.the_row.coded) };

    ghost view = { λ held. held.value.value };
}

impl Drop for Held {
    #[inline(never)]
    fn drop(self) {
        let Held { value } = self;
        drop(value);
    }
}

impl Held {
    ghost use Rattle.std.specs.Prelude.{◌≡◌, IfOk};

    #[inline(never)]
    pub fn new(alloc: Global, value: Pure) -> Result<Held, AllocError>
        ensures { IfOk result (λ held. held ≡ value) }
    {
        let value = Box::new(alloc, value)?;
        Ok(Held { value })
    }

    pub fn into_inner(self) -> Pure
        ensures { result ≡ self }
    {
        let Held { value } = self;
        Box::into_inner(value)
    }
}

/// Values that are dropped by a call.
pub struct HeldRow {
    values: Vec<Pure>,
}

impl Model for HeldRow {
    ghost use Rattle.std.specs.Coded.{codes};
    ghost use Rattle.std.specs.declared.alloc.Global.{Global};
    ghost use Rattle.std.specs.declared.vec.Vec.{Vec};
    ghost use Rattle.pieces.specs.contracts.pure_expr.Pure as pure_expr;
    ghost use Rattle.pieces.specs.declared.pure_expr.Pure.{Pure};

    ghost Value = { Vec Pure Global };

    ghost coded = { Prim.hlevel (codes, pure_expr.the_row.coded) };

    ghost view = { λ row. row.values };
}

impl Drop for HeldRow {
    #[inline(never)]
    fn drop(self) {
        let HeldRow { values } = self;
        drop(values);
    }
}

impl HeldRow {
    ghost use Rattle.std.specs.Prelude.{◌≡◌, ◌++◌, ◌∷◌, [], OnOk};

    pub fn new(alloc: Global) -> HeldRow
        ensures { result.items ≡ [] }
    {
        HeldRow {
            values: Vec::new(alloc),
        }
    }

    #[inline(never)]
    pub fn push(&mut self, value: Held) -> Result<(), AllocError>
        ensures { OnOk result (self.new.items ≡ self.old.items ++ value ∷ []) }
    {
        self.values.push(value.into_inner())?;
        Ok(())
    }

    pub fn into_inner(self) -> Vec<Pure>
        ensures { result ≡ self }
    {
        let HeldRow { values } = self;
        values
    }
}

/// A change that is dropped by a call.
pub struct HeldChange<'e> {
    change: Change<'e>,
}

impl<'e> Model for HeldChange<'e> {
    ghost use Rattle.std.specs.Coded.{codes};
    ghost use Rattle.pieces.specs.contracts.pure_expr.Pure as pure_expr;
    ghost use Rattle.pieces.specs.contracts.resolved.expression.CoreExpr as expression;
    ghost use Rattle.pieces.specs.contracts.resolved.expression.CoreTarget as target;
    ghost use Rattle.piece_making.specs.declared.assignments.Change.{Change};

    ghost Value = { Change };

    ghost coded = { Prim.hlevel (codes, pure_expr.the_row.coded, expression.the_row.coded, target.the_row.coded) };

    ghost view = { λ held. held.change };
}

impl<'e> Drop for HeldChange<'e> {
    #[inline(never)]
    fn drop(self) {
        let HeldChange { change } = self;
        drop(change);
    }
}

impl<'e> HeldChange<'e> {
    ghost use Rattle.std.specs.Prelude.{◌≡◌};

    pub fn new(change: Change<'e>) -> HeldChange<'e>
        ensures { result ≡ change.entry }
    {
        HeldChange { change }
    }

    pub fn into_inner(self) -> Change<'e>
        ensures { result ≡ self.entry }
    {
        let HeldChange { change } = self;
        change
    }
}

/// An operand behind which the evaluation has these effects.
#[inline(never)]
pub fn save(context: &Context, work: &mut Work, operand: Held, later: Effects) -> Result<Held, Fail>
    ensures made { IfOk result (λ p. IsMade (stock work.old) (stock work.new) (pure_of p) (save context.now.file_variables (pure_of operand) later (state_of (stock work.old)))) }
    ensures refused { IfRefused result (λ r. IsTooHeavy (stock work.old) r (save context.now.file_variables (pure_of operand) later (state_of (stock work.old)))) }
{
    let value = saving::save(context, work, operand.into_inner(), later)?;
    Ok(Held::new(context.alloc, value)?)
}

#[inline(never)]
pub fn unary(
    alloc: Global,
    op: Unary,
    arg: Held,
    kind: CType,
    at: Place,
) -> Result<Held, AllocError>
    ensures { IfOk result (λ p. pure_of p ≡ tree.unary op (pure_of arg) kind at) }
{
    let value = build::unary(alloc, op, arg.into_inner(), kind, at)?;
    Held::new(alloc, value)
}

#[inline(never)]
pub fn cast(alloc: Global, to: CType, arg: Held) -> Result<Held, AllocError>
    ensures { IfOk result (λ p. pure_of p ≡ tree.cast to (pure_of arg)) }
{
    let value = build::cast(alloc, to, arg.into_inner())?;
    Held::new(alloc, value)
}

#[inline(never)]
pub fn binary(
    alloc: Global,
    operator: Operator,
    left: Held,
    right: Held,
) -> Result<Held, AllocError>
    ensures { IfOk result (λ p. pure_of p ≡ tree.binary operator.op (pure_of left) (pure_of right) operator.kind operator.at) }
{
    let value = build::binary(alloc, operator, left.into_inner(), right.into_inner())?;
    Held::new(alloc, value)
}

#[inline(never)]
pub fn choice(
    alloc: Global,
    kind: CType,
    test: Held,
    yes: Held,
    no: Held,
) -> Result<Held, AllocError>
    ensures { IfOk result (λ p. pure_of p ≡ tree.choice (pure_of test) (pure_of yes) (pure_of no) kind) }
{
    let value = build::choice(
        alloc,
        kind,
        test.into_inner(),
        yes.into_inner(),
        no.into_inner(),
    )?;
    Held::new(alloc, value)
}

/// The number 0 or 1, as an `int`.
#[inline(never)]
pub fn bit(alloc: Global, is_one: bool) -> Result<Held, AllocError>
    ensures { IfOk result (λ p. pure_of p ≡ tree.number (if is_one then 1 else 0) int_type) }
{
    Held::new(alloc, build::bit(is_one))
}

#[inline(never)]
pub fn number(alloc: Global, value: u64, kind: CType) -> Result<Held, Fail>
    ensures made { IfOk result (λ p. pure_of p ≡ tree.number value kind) }
    ensures refused { IfRefused result (λ r. ⊥) }
{
    Ok(Held::new(alloc, Pure::Number { value, kind })?)
}

/// A scalar that is read.
#[inline(never)]
pub fn scalar_at(frame: &Frame, cell: Cell, kind: CType) -> Result<Held, Fail>
    ensures made { IfOk result (λ v. pure_of v ≡ scalar (call_of frame.now) cell kind) }
    ensures refused { IfRefused result (λ r. ⊥) }
{
    let value = frame.scalar(cell, kind)?;
    Ok(Held::new(frame.context.alloc, value)?)
}

/// An element that is read.
#[inline(never)]
pub fn element(
    alloc: Global,
    array: ArrayId,
    subscripts: HeldRow,
    kind: CType,
    at: Place,
) -> Result<Held, AllocError>
    ensures { IfOk result (λ p. pure_of p ≡ tree.element array (pures_of subscripts.items) kind at) }
{
    let value = build::element(array, subscripts.into_inner(), kind, at);
    Held::new(alloc, value)
}

/// Sets a variable.
#[inline(never)]
pub fn set(work: &mut Work, variable: VarId, value: Held) -> Result<(), Fail>
    ensures made { IfOk result (λ u. IsMade (stock work.old) (stock work.new) u (emit (tree.set variable (pure_of value)) (state_of (stock work.old)))) }
    ensures refused { IfRefused result (λ r. IsTooHeavy (stock work.old) r (emit (tree.set variable (pure_of value)) (state_of (stock work.old)))) }
{
    work.set(variable, value.into_inner())
}

/// An assignment that stands by itself.
#[inline(never)]
pub fn apply(frame: &Frame, work: &mut Work, change: HeldChange, by: Held) -> Result<(), Fail>
    ensures made { IfOk result (λ v. IsMade (stock work.old) (stock work.new) v (apply (call_of frame.now) (change_of change.entry) (pure_of by) (state_of (stock work.old)))) }
    ensures refused { IfRefused result (λ r. IsTooHeavy (stock work.old) r (apply (call_of frame.now) (change_of change.entry) (pure_of by) (state_of (stock work.old)))) }
{
    assignments::apply(frame, work, change.into_inner(), by.into_inner())
}

/// An assignment inside an expression.
#[inline(never)]
pub fn assigned(frame: &Frame, work: &mut Work, change: HeldChange, by: Held) -> Result<Held, Fail>
    ensures made { IfOk result (λ v. IsMade (stock work.old) (stock work.new) (pure_of v) (assigned (call_of frame.now) (change_of change.entry) (pure_of by) (state_of (stock work.old)))) }
    ensures refused { IfRefused result (λ r. IsTooHeavy (stock work.old) r (assigned (call_of frame.now) (change_of change.entry) (pure_of by) (state_of (stock work.old)))) }
{
    let value = assignments::assigned(frame, work, change.into_inner(), by.into_inner())?;
    Ok(Held::new(frame.context.alloc, value)?)
}

/// `++` or `--` inside an expression.
#[inline(never)]
pub fn bump(frame: &Frame, work: &mut Work, change: HeldChange, post: bool) -> Result<Held, Fail>
    ensures made { IfOk result (λ v. IsMade (stock work.old) (stock work.new) (pure_of v) (bumped (call_of frame.now) (change_of change.entry) post (state_of (stock work.old)))) }
    ensures refused { IfRefused result (λ r. IsTooHeavy (stock work.old) r (bumped (call_of frame.now) (change_of change.entry) post (state_of (stock work.old)))) }
{
    let value = assignments::bumped(frame, work, change.into_inner(), post)?;
    Ok(Held::new(frame.context.alloc, value)?)
}
