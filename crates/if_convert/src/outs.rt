//! What the variables hold that a block sets.
ghost use Rattle.std.specs.Prelude.{◌≡◌, IfOk, OnOk};
ghost use Rattle.passes.specs.Conversion.Outs as spec;
ghost use Rattle.if_convert.specs.Entries.{outs_of};

use hls_base::number::VarId;
use indexmap::IndexMap;
use ir_core::body::{Operand, Out, Source};
use std::alloc::{AllocError, Global};

/// What each variable holds that was set, in the order in which they were set first.
pub type Sets = IndexMap<VarId, Operand>;

/// What the variable holds where the block is entered.
fn entry_value(variable: VarId) -> Operand
    ensures { result ≡ spec.entry_value variable }
{
    Operand {
        value: Source::Variable(variable),
        distance: 0,
    }
}

/// What the variable holds behind these, where it holds this operand before them.
pub fn held_or(sets: &Sets, variable: VarId, before: Operand) -> Operand
    ensures { result ≡ spec.held_or (outs_of sets.now) variable before }
{
    match sets.get(&variable) {
        Some(operand) => *operand,
        None => before,
    }
}

/// What the variable holds, where it may have been set.
pub fn held(sets: &Sets, variable: VarId) -> Operand
    ensures { result ≡ spec.held (outs_of sets.now) variable }
{
    held_or(sets, variable, entry_value(variable))
}

pub fn is_set(sets: &Sets, variable: VarId) -> bool
    ensures { result ≡ spec.is_set (outs_of sets.now) variable }
{
    sets.get(&variable).is_some()
}

/// The variable holds this operand from now on.
pub fn set(sets: &mut Sets, variable: VarId, value: Operand) -> Result<(), AllocError>
    ensures { OnOk result (outs_of sets.new ≡ spec.with_out (outs_of sets.old) variable value) }
{
    sets.insert(variable, value)?;
    Ok(())
}

pub fn set_all(sets: &mut Sets, outs: &[Out]) -> Result<(), AllocError>
    ensures { OnOk result (outs_of sets.new ≡ spec.with_outs (outs_of sets.old) outs.now) }
{
    for out in outs {
        set(sets, out.variable, out.value)?;
    }
    Ok(())
}

/// What is set, in order.
pub fn outs_in(alloc: Global, sets: &Sets) -> Result<Vec<Out>, AllocError>
    ensures { IfOk result (λ outs. outs.items ≡ outs_of sets.now) }
{
    let mut outs = Vec::new(alloc);
    for (variable, value) in sets {
        outs.push(Out {
            variable: *variable,
            value: *value,
        })?;
    }
    Ok(outs)
}
