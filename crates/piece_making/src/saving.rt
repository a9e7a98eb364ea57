//! Values that are read before something changes them.
ghost use Rattle.std.specs.Prelude.{◌≡◌, [], map, IfOk, if◌then◌else◌};
ghost use Rattle.hls_base.specs.Refusals.{IfRefused};
ghost use Rattle.pieces.specs.Trees as tree;
ghost use Rattle.pieces.specs.View.{pure_of, pures_of};
ghost use Rattle.piece_making.specs.Making.{gives, set_own};
ghost use Rattle.piece_making.specs.Saving.{has_element, may_skip_element, saved, all_saved, save};
ghost use Rattle.piece_making.specs.Stocks.{IsMade, IsTooHeavy, state_of, stock};

use crate::build::{Operator, binary, cast, choice, element, unary, variable};
use crate::effects::Effects;
use crate::frame::Context;
use crate::work::Work;
use c_token::ctype::CType;
use c_tree::operator::Binary;
use hls_base::number::VarId;
use hls_base::refusal::Fail;
use pieces::pure_expr::Pure;
use std::alloc::Global;

/// Where values are saved: before calls, or before changes alone. The first `file_variables` variables are those of file scope.
#[derive(Clone, Copy)]
pub struct Saver {
    pub alloc: Global,
    pub file_variables: u32,
    pub calls: bool,
}

/// An operand behind which the evaluation has these effects. Its elements, from left to right, are set into variables of their own, and so are scalars of file scope before a call. A `&&`, `||` or `?:` that reads an element in an operand that may not be reached is set as a whole, behind its first operand.
pub fn save(context: &Context, work: &mut Work, operand: Pure, later: Effects) -> Result<Pure, Fail>
    ensures made { IfOk result (λ p. IsMade (stock work.old) (stock work.new) (pure_of p) (save context.now.file_variables (pure_of operand) later (state_of (stock work.old)))) }
    ensures refused { IfRefused result (λ r. IsTooHeavy (stock work.old) r (save context.now.file_variables (pure_of operand) later (state_of (stock work.old)))) }
{
    if later.spoil_elements() {
        let saver = Saver {
            alloc: context.alloc,
            file_variables: context.file_variables,
            calls: later.calls,
        };
        saved(saver, work, operand)
    } else {
        Ok(operand)
    }
}

/// An expression with what it reads set into variables.
#[cycle(saving)]
fn saved(saver: Saver, work: &mut Work, pure: Pure) -> Result<Pure, Fail>
    ensures made { IfOk result (λ p. IsMade (stock work.old) (stock work.new) (pure_of p) (saved saver.file_variables saver.calls (pure_of pure) (state_of (stock work.old)))) }
    ensures refused { IfRefused result (λ r. IsTooHeavy (stock work.old) r (saved saver.file_variables saver.calls (pure_of pure) (state_of (stock work.old)))) }
{
    let whole = may_skip_element(&pure);
    match pure {
        Pure::Number { value, kind } => Ok(Pure::Number { value, kind }),
        Pure::Variable(own, kind) => saved_variable(saver, work, own, kind),
        Pure::Element {
            array,
            subscripts,
            kind,
            at,
        } => {
            let given = all_saved(saver, work, subscripts)?;
            let read = element(array, given, kind, at);
            work.set_own(kind, read)
        }
        Pure::Unary { op, arg, kind, at } => {
            let arg = saved_operand(saver, work, arg)?;
            Ok(unary(saver.alloc, op, arg, kind, at)?)
        }
        Pure::Binary {
            op,
            left,
            right,
            kind,
            at,
        } => {
            let left = saved_operand(saver, work, left)?;
            let right = saved_unless(saver, work, whole, right)?;
            let value = binary(saver.alloc, Operator { op, kind, at }, left, right)?;
            set_if(work, whole, kind, value)
        }
        Pure::Choice {
            test,
            yes,
            no,
            kind,
        } => {
            let test = saved_operand(saver, work, test)?;
            let yes = saved_unless(saver, work, whole, yes)?;
            let no = saved_unless(saver, work, whole, no)?;
            let value = choice(saver.alloc, kind, test, yes, no)?;
            set_if(work, whole, kind, value)
        }
        Pure::Cast { to, arg } => {
            let arg = saved_operand(saver, work, arg)?;
            Ok(cast(saver.alloc, to, arg)?)
        }
    }
}

/// An operand that may not be reached. It stays as it is in an operator that is set as a whole.
#[cycle(saving)]
fn saved_unless(
    saver: Saver,
    work: &mut Work,
    stays: bool,
    operand: Box<Pure>,
) -> Result<Pure, Fail>
    ensures made { IfOk result (λ p. IsMade (stock work.old) (stock work.new) (pure_of p) (if stays then gives (pure_of operand.value) (state_of (stock work.old)) else saved saver.file_variables saver.calls (pure_of operand.value) (state_of (stock work.old)))) }
    ensures refused { IfRefused result (λ r. IsTooHeavy (stock work.old) r (if stays then gives (pure_of operand.value) (state_of (stock work.old)) else saved saver.file_variables saver.calls (pure_of operand.value) (state_of (stock work.old)))) }
{
    let operand = Box::into_inner(operand);
    if stays {
        Ok(operand)
    } else {
        saved(saver, work, operand)
    }
}

/// An operator that is set as a whole, or one that stays in the expression.
fn set_if(work: &mut Work, whole: bool, kind: CType, value: Pure) -> Result<Pure, Fail>
    ensures made { IfOk result (λ p. IsMade (stock work.old) (stock work.new) (pure_of p) (if whole then set_own kind (pure_of value) (state_of (stock work.old)) else gives (pure_of value) (state_of (stock work.old)))) }
    ensures refused { IfRefused result (λ r. IsTooHeavy (stock work.old) r (if whole then set_own kind (pure_of value) (state_of (stock work.old)) else gives (pure_of value) (state_of (stock work.old)))) }
{
    if whole {
        work.set_own(kind, value)
    } else {
        Ok(value)
    }
}

/// A scalar of file scope is set before a call.
fn saved_variable(saver: Saver, work: &mut Work, own: VarId, kind: CType) -> Result<Pure, Fail>
    ensures made { IfOk result (λ p. IsMade (stock work.old) (stock work.new) (pure_of p) (saved saver.file_variables saver.calls (tree.variable own kind) (state_of (stock work.old)))) }
    ensures refused { IfRefused result (λ r. IsTooHeavy (stock work.old) r (saved saver.file_variables saver.calls (tree.variable own kind) (state_of (stock work.old)))) }
{
    let read = variable(own, kind);
    if saver.calls && own.0 < saver.file_variables {
        work.set_own(kind, read)
    } else {
        Ok(read)
    }
}

#[cycle(saving)]
fn saved_operand(saver: Saver, work: &mut Work, operand: Box<Pure>) -> Result<Pure, Fail>
    ensures made { IfOk result (λ p. IsMade (stock work.old) (stock work.new) (pure_of p) (saved saver.file_variables saver.calls (pure_of operand.value) (state_of (stock work.old)))) }
    ensures refused { IfRefused result (λ r. IsTooHeavy (stock work.old) r (saved saver.file_variables saver.calls (pure_of operand.value) (state_of (stock work.old)))) }
{
    saved(saver, work, Box::into_inner(operand))
}

#[cycle(saving)]
fn all_saved(saver: Saver, work: &mut Work, pures: Vec<Pure>) -> Result<Vec<Pure>, Fail>
    ensures made { IfOk result (λ ps. IsMade (stock work.old) (stock work.new) (map pure_of ps.items) (all_saved saver.file_variables saver.calls (pures_of pures.items) [] (state_of (stock work.old)))) }
    ensures refused { IfRefused result (λ r. IsTooHeavy (stock work.old) r (all_saved saver.file_variables saver.calls (pures_of pures.items) [] (state_of (stock work.old)))) }
{
    let mut all = Vec::new(saver.alloc);
    for pure in pures {
        all.push(saved(saver, work, pure)?)?;
    }
    Ok(all)
}

/// Whether an expression is a `&&`, `||` or `?:` that reads an element in an operand that may not be reached.
fn may_skip_element(pure: &Pure) -> bool
    ensures { result ≡ may_skip_element (pure_of pure.now) }
{
    match pure {
        Pure::Binary { op, right, .. } => {
            matches!(op, Binary::LogAnd | Binary::LogOr) && has_element(right)
        }
        Pure::Choice { yes, no, .. } => has_element(yes) || has_element(no),
        _ => false,
    }
}

/// Whether an expression reads an element.
fn has_element(pure: &Pure) -> bool
    ensures { result ≡ has_element (pure_of pure.now) }
{
    match pure {
        Pure::Number { .. } | Pure::Variable(..) => false,
        Pure::Element { .. } => true,
        Pure::Unary { arg, .. } | Pure::Cast { arg, .. } => has_element(arg),
        Pure::Binary { left, right, .. } => has_element(left) || has_element(right),
        Pure::Choice { test, yes, no, .. } => {
            has_element(test) || has_element(yes) || has_element(no)
        }
    }
}
