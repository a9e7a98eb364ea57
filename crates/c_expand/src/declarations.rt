//! Declarations that are reached.
ghost use Rattle.std.specs.Prelude.{◌≡◌, ◌≤◌, IfOk, map};
ghost use Rattle.std.specs.Option.{option_map};
ghost use Rattle.hls_base.specs.Refusals.{IfRefused};
ghost use Rattle.hls_base.specs.ArrayAddress.{element_count};
ghost use Rattle.pieces.specs.Resolved.CoreView.{core_of, core_init_of};
ghost use Rattle.pieces.specs.View.{pure_of, pures_of};
ghost use Rattle.piece_making.specs.Stocks.{IsMade, IsTooHeavy, state_of, stock};
ghost use Rattle.c_expand.specs.Callees.{callee_of, call_at};
ghost use Rattle.c_expand.specs.Statements.{declare, scalar_declared, initialised, filled, item_value, subscripts_at, at_least_one};

use crate::expressions::expression;
use crate::held::{Held, bit, set};
use crate::here::{Here, deeper};
use c_value::kind::INT;
use hls_base::number::{ArrayId, VarId};
use hls_base::refusal::{Fail, impossible};
use piece_making::frame::Home;
use piece_making::objects::local_array;
use piece_making::work::Work;
use pieces::pure_expr::Pure;
use pieces::resolved::expression::CoreExpr;
use pieces::resolved::statement::CoreInit;
use std::alloc::{AllocError, Global};

/// A declaration that is reached.
#[inline(never)]
#[cycle(expansion)]
pub fn declare(here: Here, work: &mut Work, object: u32, init: &CoreInit) -> Result<(), Fail>
    ensures made { IfOk result (λ v. IsMade (stock work.old) (stock work.new) v (declare (callee_of here.entry) (call_at here.entry) object (core_init_of init.now) (state_of (stock work.old)))) }
    ensures refused { IfRefused result (λ r. IsTooHeavy (stock work.old) r (declare (callee_of here.entry) (call_at here.entry) object (core_init_of init.now) (state_of (stock work.old)))) }
{
    let depth = deeper(here.depth)?;
    let here = Here { depth, ..here };
    match here.frame.local(object)? {
        Home::Variable(variable) => declare_scalar(here, work, variable, init),
        Home::Local(slot) => {
            let object = here.frame.object(object)?;
            let array = local_array(here.frame.context.alloc, work, object)?;
            work.note_array(slot, array);
            initialise(here, work, array, &object.lengths, init)
        }
        Home::Array(_) | Home::Constant(_) => Ok(()),
    }
}

/// A scalar. Without an initialiser it makes no piece, and weighs 1.
#[cycle(expansion)]
fn declare_scalar(here: Here, work: &mut Work, own: VarId, init: &CoreInit) -> Result<(), Fail>
    ensures made { IfOk result (λ v. IsMade (stock work.old) (stock work.new) v (scalar_declared (callee_of here.entry) (call_at here.entry) own (core_init_of init.now) (state_of (stock work.old)))) }
    ensures refused { IfRefused result (λ r. IsTooHeavy (stock work.old) r (scalar_declared (callee_of here.entry) (call_at here.entry) own (core_init_of init.now) (state_of (stock work.old)))) }
{
    let depth = deeper(here.depth)?;
    let here = Here { depth, ..here };
    match init {
        CoreInit::Unwritten => work.charge(1),
        CoreInit::Scalar(e) => {
            let value = expression(here, work, e)?;
            set(work, own, value)
        }
        CoreInit::Elements(_) => Ok(()),
    }
}

/// The initialiser of an array of these lengths.
#[cycle(expansion)]
fn initialise(
    here: Here,
    work: &mut Work,
    array: ArrayId,
    lengths: &[u32],
    init: &CoreInit,
) -> Result<(), Fail>
    ensures made { IfOk result (λ v. IsMade (stock work.old) (stock work.new) v (initialised (callee_of here.entry) (call_at here.entry) array lengths.now (core_init_of init.now) (state_of (stock work.old)))) }
    ensures refused { IfRefused result (λ r. IsTooHeavy (stock work.old) r (initialised (callee_of here.entry) (call_at here.entry) array lengths.now (core_init_of init.now) (state_of (stock work.old)))) }
{
    let depth = deeper(here.depth)?;
    let here = Here { depth, ..here };
    match init {
        CoreInit::Elements(items) => fill(here, work, array, lengths, items),
        CoreInit::Unwritten | CoreInit::Scalar(_) => Ok(()),
    }
}

/// Writes the elements of an array, row by row.
#[inline(never)]
#[cycle(expansion)]
fn fill(
    here: Here,
    work: &mut Work,
    array: ArrayId,
    lengths: &[u32],
    items: &[Option<CoreExpr>],
) -> Result<(), Fail>
    ensures made { IfOk result (λ v. IsMade (stock work.old) (stock work.new) v (filled (callee_of here.entry) (call_at here.entry) array lengths.now 0 (map (option_map core_of) items.now) (state_of (stock work.old)))) }
    ensures refused { IfRefused result (λ r. IsTooHeavy (stock work.old) r (filled (callee_of here.entry) (call_at here.entry) array lengths.now 0 (map (option_map core_of) items.now) (state_of (stock work.old)))) }
{
    let depth = deeper(here.depth)?;
    let here = Here { depth, ..here };
    let alloc = here.frame.context.alloc;
    let at = here.frame.function.at;
    for (i, item) in items.iter().enumerate() {
        let value = item_value(here, work, item)?;
        let subscripts = subscripts_at(alloc, lengths, i as u64)?;
        work.put(array, subscripts, value.into_inner(), at)?;
    }
    Ok(())
}

/// The value of an item. A missing one is 0.
#[cycle(expansion)]
fn item_value(here: Here, work: &mut Work, item: &Option<CoreExpr>) -> Result<Held, Fail>
    ensures made { IfOk result (λ v. IsMade (stock work.old) (stock work.new) (pure_of v) (item_value (callee_of here.entry) (call_at here.entry) (option_map core_of item.now) (state_of (stock work.old)))) }
    ensures refused { IfRefused result (λ r. IsTooHeavy (stock work.old) r (item_value (callee_of here.entry) (call_at here.entry) (option_map core_of item.now) (state_of (stock work.old)))) }
{
    let depth = deeper(here.depth)?;
    let here = Here { depth, ..here };
    match item {
        None => Ok(bit(here.frame.context.alloc, false)?),
        Some(e) => expression(here, work, e),
    }
}

/// The subscripts of the element with this number, row by row.
fn subscripts_at(alloc: Global, lengths: &[u32], number: u64) -> Result<Vec<Pure>, AllocError>
    ensures { IfOk result (λ v. pures_of v.items ≡ subscripts_at lengths.now number) }
{
    let mut subscripts = Vec::new(alloc);
    for (i, length) in lengths.iter().enumerate() {
        let inner = element_count(&lengths[i + 1..])?;
        let length = u64::from(*length).max(1);
        let value = number / inner % length;
        subscripts.push(Pure::Number { value, kind: INT })?;
    }
    Ok(subscripts)
}

/// How many elements an array of these lengths has. There are fewer than 2^64.
fn element_count(lengths: &[u32]) -> Result<u64, AllocError>
    ensures value { IfOk result (λ n. n ≡ element_count (map at_least_one lengths.now)) }
    ensures positive { IfOk result (λ n. 1 ≤ n) }
{
    let mut count: u64 = 1;
    for length in lengths {
        let length = u64::from(*length).max(1);
        count = count.checked_mul(length).ok_or(impossible())?;
    }
    Ok(count)
}
