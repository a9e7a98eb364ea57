//! Which operations use multipliers and dividers.
ghost use Rattle.std.specs.Prelude.{◌≡◌, ◌++◌, IfOk, OnOk, map};
ghost use Rattle.std.specs.List.{flat_map};
ghost use Rattle.circuit_units.specs.Units.Uses.{uses_in, all_uses, has_signed, AreUnits};

use circuit_context::wanted::role::{SharedUnit, UnitKind};
use indexmap::IndexSet;
use ir_core::body::{Op, OpKind};
use ir_core::cfg::{Cfg, Node};
use ir_core::timed::Timed;
use std::alloc::{AllocError, Global};

/// That an operation uses a unit, and whether with signs.
#[derive(Clone, Copy)]
pub struct UnitUse {
    pub unit: SharedUnit,
    pub signed: bool,
}

/// The use of a unit of this kind by an operation.
fn use_by(kind: UnitKind, op: &Op<Timed>) -> UnitUse
    ensures { result ≡ record { unit = record { kind = kind; bits = op.now.bits; number = op.now.stamp.bound }; signed = op.now.signed } }
{
    let unit = SharedUnit {
        kind,
        bits: op.bits,
        number: op.stamp.bound,
    };
    UnitUse {
        unit,
        signed: op.signed,
    }
}

/// Notes the unit that an operation uses.
fn add_use(uses: &mut Vec<UnitUse>, op: &Op<Timed>) -> Result<(), AllocError>
    ensures { OnOk result (uses.new.items ≡ uses.old.items ++ uses_in op.now) }
{
    match op.kind {
        OpKind::Mul => uses.push(use_by(UnitKind::Multiplier, op))?,
        OpKind::Div | OpKind::Rem => uses.push(use_by(UnitKind::Divider, op))?,
        _ => {}
    }
    Ok(())
}

fn add_uses(uses: &mut Vec<UnitUse>, ops: &[Op<Timed>]) -> Result<(), AllocError>
    ensures { OnOk result (uses.new.items ≡ uses.old.items ++ flat_map uses_in ops.now) }
{
    for op in ops {
        add_use(uses, op)?;
    }
    Ok(())
}

/// The uses of units by a program's operations, in order.
pub fn uses_of(alloc: Global, cfg: &Cfg<Timed>) -> Result<Vec<UnitUse>, AllocError>
    ensures { IfOk result (λ uses. uses.items ≡ all_uses cfg.now) }
{
    let mut uses = Vec::new(alloc);
    for node in &cfg.nodes {
        match node {
            Node::Plain(block) => add_uses(&mut uses, &block.body.ops)?,
            Node::Looped(region) => add_uses(&mut uses, &region.body.ops)?,
        }
    }
    Ok(uses)
}

/// The units that are used, each once.
pub fn units_of(alloc: Global, uses: &[UnitUse]) -> Result<IndexSet<SharedUnit>, AllocError>
    ensures { IfOk result (λ units. AreUnits uses.now units.keys) }
{
    let mut units = IndexSet::new(alloc);
    for each in uses {
        units.insert(each.unit)?;
    }
    Ok(units)
}

/// Whether the unit is used with signs.
pub fn has_signs(uses: &[UnitUse], unit: SharedUnit) -> bool
    ensures { result ≡ has_signed unit uses.now }
{
    for each in uses {
        if each.signed && each.unit == unit {
            return true;
        }
    }
    false
}
