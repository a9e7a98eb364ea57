//! What was gathered of a target.
ghost use Rattle.std.specs.Prelude.{◌≡◌, List, IfOk, map};
ghost use Rattle.rtl_logic.specs.Making.{circuit};
ghost use Rattle.datapath.specs.Plans.{Plan};
ghost use Rattle.datapath.specs.Cycles.{Register};
ghost use Rattle.datapath.specs.CircuitWires.Carrying.{IsBegun, MakesTelling};
ghost use Rattle.circuit_context.specs.declared.wanted.log.Push.{Push};
ghost use Rattle.circuit_context.specs.Wanted.Roles.{given, choices_of};
ghost use Rattle.circuit_context.specs.Wanted.Entries.{Entry};
ghost use Rattle.circuit_context.specs.Wanted.Logs.{ArePushes};
ghost use Rattle.circuit_control.specs.Gathered.{is_asked};

use circuit_context::wanted::log::Groups;
use circuit_context::wanted::role::Target;
use rtl_core::design::Atom;
use rtl_logic::logic::Logic;
use rtl_logic::select::Choice;
use std::alloc::{AllocError, Global};

/// The bits that tell when each of the choices is wanted.
fn bits_of(alloc: Global, choices: &[Choice]) -> Result<Vec<Atom>, AllocError>
    ensures { IfOk result (λ bits. bits.items ≡ map (λ (choice : Choice). choice.when) choices.now) }
{
    let mut bits = Vec::with_capacity(alloc, choices.len())?;
    for choice in choices {
        bits.push(choice.when)?;
    }
    Ok(bits)
}

/// Whether something is wanted of a target.
pub(crate) fn is_wanted(
    alloc: Global,
    logic: &mut Logic,
    groups: &Groups,
    target: Target,
) -> Result<Atom, AllocError>
    ensures { (p : Plan) (names : List Register) (pushes : List Push) (entries : List Entry) → IsBegun p names (circuit logic.old)
        → ArePushes p names (circuit logic.old) pushes entries → given groups.now target ≡ choices_of target pushes
        → IfOk result (λ a. MakesTelling p names (circuit logic.old) (circuit logic.new) a (is_asked target entries)) }
{
    let bits = bits_of(alloc, groups.choices(target))?;
    logic.any(alloc, &bits)
}
