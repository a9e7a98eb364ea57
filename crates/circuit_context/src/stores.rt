//! Stores that start together: the unit of the first of them.
ghost use Rattle.std.specs.Prelude.{◌≡◌, ◌<◌, ◌∷◌, ◌++◌, [], List, IfOk, OnOk, unwrap_or};
ghost use Rattle.ir_core.specs.declared.body.Op.{Op};
ghost use Rattle.ir_core.specs.declared.timed.Timed.{Timed};
ghost use Rattle.indexmap.specs.IndexMap.{get};
ghost use Rattle.datapath.specs.Ports.{is_store};
ghost use Rattle.circuit_context.specs.Counting.{array_if, moment_eq, noted_first, AreStores};

use crate::loads::Moment;
use hls_base::number::ArrayId;
use indexmap::IndexMap;
use ir_core::body::{Op, OpKind};
use ir_core::timed::Timed;
use std::alloc::{AllocError, Global};

/// The unit of the first store of each moment.
pub type StoreUnits = IndexMap<Moment, u32>;

fn is_storing(kind: OpKind) -> bool
    ensures { result ≡ is_store kind }
{
    match kind {
        OpKind::Store => true,
        _ => false,
    }
}

/// The array of an operation that is a store.
fn stored_to(op: &Op<Timed>) -> Option<ArrayId>
    ensures { result ≡ array_if (is_store op.now.kind) op.now.array }
{
    if is_storing(op.kind) { op.array } else { None }
}

/// Notes the unit of a store, unless one is noted at its moment.
fn note_first(stores: &mut StoreUnits, moment: Moment, unit: u32) -> Result<(), AllocError>
    ensures { OnOk result ((m : Moment) → get moment_eq stores.new m ≡ noted_first (get moment_eq stores.old m) (moment_eq moment m) unit) }
{
    if stores.get(&moment).is_none() {
        stores.insert(moment, unit)?;
    }
    Ok(())
}

/// One more operation.
fn note(stores: &mut StoreUnits, op: &Op<Timed>, span: u64) -> Result<(), AllocError>
    requires { 0 < span }
    ensures { (before : List (Op Timed)) → AreStores span before stores.old → OnOk result (AreStores span (before ++ op.now ∷ []) stores.new) }
{
    let Some(array) = stored_to(op) else {
        return Ok(());
    };
    let time = op.stamp.start % span;
    note_first(stores, Moment { array, time }, op.stamp.bound)
}

/// The units of the first stores among the operations of a node whose time begins again after so many cycles.
pub fn stores_of(alloc: Global, ops: &[Op<Timed>], span: u64) -> Result<StoreUnits, AllocError>
    requires { 0 < span }
    ensures { IfOk result (AreStores span ops.now) }
{
    let mut stores = IndexMap::new(alloc);
    for op in ops {
        note(&mut stores, op, span)?;
    }
    Ok(stores)
}

/// The unit of the first store at a moment, 0 where there is none.
pub fn first_unit(stores: &StoreUnits, moment: Moment) -> u32
    ensures { result ≡ unwrap_or (get moment_eq stores.now moment) 0 }
{
    stores.get(&moment).copied().unwrap_or(0)
}
