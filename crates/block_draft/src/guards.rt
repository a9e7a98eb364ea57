//! Guards: bits that say whether control comes to an operation, where it may not.
ghost use Rattle.std.specs.Prelude.{◌≡◌, [], ◌∷◌, IfOk};
ghost use Rattle.passes.specs.Lowering.Guards as spec;
ghost use Rattle.block_draft.specs.Views.{ops_of, guard_of, guards_of, made, guarded_of};

use crate::operations::{Operations, plain};
use ir_core::body::{OpKind, Operand};
use std::alloc::AllocError;
use std::mem;

/// When control reaches an operand: where the test is 1, or where it is 0. `made` is the bit that says so, under the guards outside too, once an operation needs it.
#[derive(Clone, Copy, PartialEq, Eq)]
pub struct Guard {
    test: Operand,
    holds: bool,
    made: Option<Operand>,
}

/// Guards of an operand, the outermost first.
pub type Guards = Vec<Guard>;

/// From here on control may not come, but where the test is as told.
pub fn add_guard(guards: &mut Guards, test: Operand, holds: bool) -> Result<(), AllocError>
    ensures { IfOk result (λ u. guards_of guards.new.items ≡ spec.only_where test holds (guards_of guards.old.items)) }
{
    guards.push(Guard {
        test,
        holds,
        made: None,
    })?;
    Ok(())
}

/// Takes the innermost guard away.
pub fn drop_guard(guards: &mut Guards)
    ensures { guards_of guards.new.items ≡ spec.outside (guards_of guards.old.items) }
{
    let _guard = guards.pop();
}

/// The bit of a guard by itself.
fn own_bit(ops: &mut Operations, guard: Guard) -> Result<Operand, AllocError>
    ensures { IfOk result (λ x. made ops.new x ≡ spec.own_bit (ops_of ops.old) (guard_of guard)) }
{
    if guard.holds {
        Ok(guard.test)
    } else {
        ops.operation(plain(OpKind::Not, 1), &[guard.test])
    }
}

/// The bit of a guard under the one outside, if there is one.
fn bit_under(
    ops: &mut Operations,
    outer: Option<Operand>,
    own: Operand,
) -> Result<Operand, AllocError>
    ensures { IfOk result (λ x. made ops.new x ≡ spec.under outer (made ops.old own)) }
{
    match outer {
        None => Ok(own),
        Some(outer) => ops.operation(plain(OpKind::And, 1), &[outer, own]),
    }
}

fn bit_of(ops: &mut Operations, outer: Option<Operand>, guard: Guard) -> Result<Operand, AllocError>
    ensures { IfOk result (λ x. made ops.new x ≡ spec.bit_of (ops_of ops.old) outer (guard_of guard) guard.made) }
{
    match guard.made {
        Some(made) => Ok(made),
        None => {
            let own = own_bit(ops, guard)?;
            bit_under(ops, outer, own)
        }
    }
}

/// The bit that says whether control comes here, where it may not. All guards get their bits.
pub fn guard_bit(ops: &mut Operations, guards: &mut Guards) -> Result<Option<Operand>, AllocError>
    ensures { IfOk result (λ bit. guarded_of ops.new guards.new.items bit ≡ spec.guarded (ops_of ops.old) (guards_of guards.old.items)) }
{
    let before = mem::replace(guards, Vec::new(ops.alloc()));
    let mut outer = None;
    for guard in before {
        let bit = bit_of(ops, outer, guard)?;
        guards.push(Guard {
            test: guard.test,
            holds: guard.holds,
            made: Some(bit),
        })?;
        outer = Some(bit);
    }
    Ok(outer)
}
