//! Loads that start together, counted by array.
ghost use Rattle.std.specs.Prelude.{◌≡◌, ◌+◌, ◌%◌, ◌^◌, ◌<◌, ◌&&◌, ◌||◌, ◌∷◌, ◌++◌, [], if◌then◌else◌, length, unwrap_or, List, IfOk, OnOk};
ghost use Rattle.ir_core.specs.declared.body.Op.{Op};
ghost use Rattle.ir_core.specs.declared.timed.Timed.{Timed};
ghost use Rattle.indexmap.specs.IndexMap.{get};
ghost use Rattle.datapath.specs.Ports.{changed_with, is_load, is_store};
ghost use Rattle.circuit_context.specs.Counting.{accessed_by, count_at, moment_eq, port_if, tables_in, AreStores, Counts};

use crate::stores::{StoreUnits, first_unit};
use hls_base::number::ArrayId;
use indexmap::IndexMap;
use ir_core::body::{Op, OpKind};
use ir_core::cfg::Memory;
use ir_core::timed::Timed;
use std::alloc::AllocError;

/// An array, and a time within the span of a node.
#[derive(Clone, Copy, PartialEq, Eq, Hash)]
pub struct Moment {
    pub array: ArrayId,
    pub time: u64,
}

/// How many loads of an array start together.
pub type Loads = IndexMap<Moment, u32>;

fn is_loading(kind: OpKind) -> bool
    ensures { result ≡ is_load kind }
{
    match kind {
        OpKind::Load => true,
        _ => false,
    }
}

/// Whether the operation reads or writes an array.
pub fn is_access(kind: OpKind) -> bool
    ensures { result ≡ (is_load kind || is_store kind) }
{
    match kind {
        OpKind::Load | OpKind::Store => true,
        _ => false,
    }
}

/// The array of an operation that is an access.
pub fn accessed(op: &Op<Timed>) -> Option<ArrayId>
    ensures { result ≡ accessed_by op.now }
{
    if is_access(op.kind) { op.array } else { None }
}

fn counted(loads: &Loads, moment: Moment) -> u32
    ensures { result ≡ count_at loads.now moment }
{
    loads.get(&moment).copied().unwrap_or(0)
}

/// One more load at this moment.
fn note(loads: &mut Loads, moment: Moment) -> Result<(), AllocError>
    requires { count_at loads.old moment + 1 < 2 ^ 32 }
    ensures { OnOk result ((m : Moment) → count_at loads.new m ≡ (if moment_eq moment m then count_at loads.old moment + 1 else count_at loads.old m)) }
{
    let more = counted(loads, moment) + 1;
    loads.insert(moment, more)?;
    Ok(())
}

/// One more operation.
fn note_if(loads: &mut Loads, moment: Moment, kind: OpKind) -> Result<(), AllocError>
    requires { count_at loads.old moment + 1 < 2 ^ 32 }
    ensures { OnOk result ((m : Moment) → count_at loads.new m ≡ (if is_load kind && moment_eq moment m then count_at loads.old moment + 1 else count_at loads.old m)) }
{
    if is_loading(kind) {
        note(loads, moment)?;
    }
    Ok(())
}

/// Whether an array is a table.
fn is_table(memories: &[Memory], array: ArrayId) -> bool
    ensures { result ≡ tables_in memories.now array.0 }
{
    let number = array.0 as usize;
    number < memories.len() && memories[number].table.is_some()
}

/// Two numbers change places, of which one is 0.
fn changed(number: u32, given: u32) -> u32
    ensures { result ≡ changed_with number given }
{
    if given == number {
        0
    } else if given == 0 {
        number
    } else {
        given
    }
}

/// The port of an access: tables have one for each load at this moment, and the first store to a memory has port 0.
fn port_at(
    memories: &[Memory],
    loads: &Loads,
    stores: &StoreUnits,
    moment: Moment,
    bound: u32,
) -> u32
    ensures { result ≡ (if tables_in memories.now moment.array.0 then count_at loads.now moment else changed_with (unwrap_or (get moment_eq stores.now moment) 0) bound) }
{
    if is_table(memories, moment.array) {
        counted(loads, moment)
    } else {
        changed(first_unit(stores, moment), bound)
    }
}

/// The port of the next operation, 0 where it is no access.
pub fn port_of(
    memories: &[Memory],
    loads: &mut Loads,
    stores: &StoreUnits,
    op: &Op<Timed>,
    span: u64,
) -> Result<u32, AllocError>
    requires span { 0 < span }
    requires few { (m : Moment) → count_at loads.old m + 1 < 2 ^ 32 }
    ensures port { (all before : List (Op Timed)) → AreStores span all stores.now → Counts span before loads.old → IfOk result (λ n. n ≡ port_if (tables_in memories.now) span all before op.now) }
    ensures counts { (before : List (Op Timed)) → Counts span before loads.old → OnOk result (Counts span (before ++ op.now ∷ []) loads.new) }
{
    let Some(array) = accessed(op) else {
        return Ok(0);
    };
    let time = op.stamp.start % span;
    let moment = Moment { array, time };
    let port = port_at(memories, loads, stores, moment, op.stamp.bound);
    note_if(loads, moment, op.kind)?;
    Ok(port)
}
