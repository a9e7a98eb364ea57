//! What the variables hold in a block that is open.
ghost use Rattle.std.specs.Prelude.{◌≡◌, ◌++◌, IfOk};
ghost use Rattle.std.specs.Map.{lookup};
ghost use Rattle.block_draft.specs.Settings.{var_eq, settled, IsLatest, placed, own_if};

use crate::operations::entry_value;
use hls_base::number::VarId;
use indexmap::IndexMap;
use ir_core::body::{Operand, Out};
use std::alloc::{AllocError, Global};
use std::marker::Model;

/// Where a variable was set last, and to what.
#[derive(Clone, Copy, PartialEq, Eq)]
pub struct Latest {
    place: usize,
    value: Operand,
}

/// `sets` lists what the variables were set to, in order.
#[derive(Drop)]
pub struct Outs {
    alloc: Global,
    sets: Vec<Out>,
    latest: IndexMap<VarId, Latest>,
}

impl Model for Outs {
    ghost use Rattle.std.specs.Prelude.{List};
    ghost use Rattle.ir_core.specs.declared.body.Out.{Out};
    ghost use Rattle.block_draft.specs.Settings.{settled, IsLatest};

    ghost Value = { List Out };

    ghost view = { λ o. settled o.sets.items };

    ghost invariant = { λ o. IsLatest o.sets.items o.latest.entries };
}

impl Outs {
    ghost use Rattle.std.specs.Prelude.{◌≡◌, [], IfOk};
    ghost use Rattle.passes.specs.Lowering.Outs as spec;

    /// Nothing is set.
    pub fn new(alloc: Global) -> Outs
        ensures { result ≡ [] }
    {
        Outs {
            alloc,
            sets: Vec::new(alloc),
            latest: IndexMap::new(alloc),
        }
    }

    /// What the variable holds now.
    pub fn read(&self, variable: VarId) -> Operand
        ensures { result ≡ spec.held self.now variable }
    {
        match self.latest.get(&variable) {
            Some(latest) => latest.value,
            None => entry_value(variable),
        }
    }

    /// The variable holds this operand from now on.
    pub fn set(self, variable: VarId, value: Operand) -> Result<Outs, AllocError>
        ensures { IfOk result (λ outs. outs ≡ spec.with_out self variable value) }
    {
        if self.read(variable) == value {
            return Ok(self);
        }
        let Outs {
            alloc,
            mut sets,
            mut latest,
        } = self;
        let place = sets.len();
        sets.push(Out { variable, value })?;
        latest.insert(variable, Latest { place, value })?;
        Ok(Outs {
            alloc,
            sets,
            latest,
        })
    }

    /// What each variable holds that holds something else than at first, in the order in which they were set last.
    pub fn list(self) -> Result<Vec<Out>, AllocError>
        ensures { IfOk result (λ outs. outs.items ≡ self) }
    {
        let Outs {
            alloc,
            sets,
            latest,
        } = self;
        listed(alloc, sets.as_slice(), &latest)
    }
}

/// Whether the variable was set last at this place.
fn is_latest(latest: &IndexMap<VarId, Latest>, place: usize, variable: VarId) -> bool
    ensures { result ≡ placed place (lookup (var_eq variable) latest.now.entries) }
{
    match latest.get(&variable) {
        Some(latest) => latest.place == place,
        None => false,
    }
}

fn add_last(outs: &mut Vec<Out>, is_last: bool, set: Out) -> Result<(), AllocError>
    ensures { IfOk result (λ u. outs.new.items ≡ outs.old.items ++ own_if is_last set) }
{
    if is_last && set.value != entry_value(set.variable) {
        outs.push(set)?;
    }
    Ok(())
}

fn listed(
    alloc: Global,
    sets: &[Out],
    latest: &IndexMap<VarId, Latest>,
) -> Result<Vec<Out>, AllocError>
    requires { IsLatest sets.now latest.now.entries }
    ensures { IfOk result (λ outs. outs.items ≡ settled sets.now) }
{
    let mut outs = Vec::new(alloc);
    for place in 0..sets.len() {
        let set = sets[place];
        add_last(&mut outs, is_latest(latest, place, set.variable), set)?;
    }
    Ok(outs)
}
