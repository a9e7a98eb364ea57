//! What registers are to take, and where control goes.
ghost use Rattle.std.specs.Prelude.{ℕ, Bool, List, [], ◌∷◌, OnOk};
ghost use Rattle.rtl_core.specs.Netlist.{Netlist};
ghost use Rattle.rtl_logic.specs.Making.{circuit};
ghost use Rattle.rtl_logic.specs.Choosing.{where_};
ghost use Rattle.datapath.specs.Plans.{Plan};
ghost use Rattle.datapath.specs.Cycles.{Register, Cycle};
ghost use Rattle.datapath.specs.CircuitWires.Carrying.{IsBegun, Tells};
ghost use Rattle.circuit_context.specs.Wanted.Entries.{register_entry, bit_entry};
ghost use Rattle.circuit_context.specs.Wanted.Logs.{CarriesSome, Logs};
ghost use Rattle.circuit_context.specs.Contexts.{IsContext};

use circuit_context::context::Context;
use circuit_context::operands::with_width;
use circuit_context::wanted::log::Log;
use circuit_context::wanted::role::{Role, Target};
use hls_base::number::NodeId;
use rtl_core::design::Atom;
use rtl_logic::logic::Logic;
use rtl_logic::select::{Choice, constant};
use std::alloc::AllocError;

/// Notes that a register is to take a value.
pub fn take(
    of: &Context<'_>,
    logic: &Logic,
    log: &mut Log,
    role: Role,
    choice: Choice,
) -> Result<(), AllocError>
    ensures { (p : Plan) (names : List Register) (wanted : Cycle → Bool) (value : Cycle → ℕ) → IsContext p names of.now → IsBegun p names (circuit logic.now)
        → Tells p names (circuit logic.now) choice.when wanted → CarriesSome p names (circuit logic.now) choice.value value
        → OnOk result (Logs p names (circuit logic.now) (circuit logic.now) log.old.pushes.items log.new.pushes.items (register_entry role (λ c. where_ (wanted c) (value c)) ∷ [])) }
{
    let register = of.bank.register(role)?;
    let value = with_width(logic, choice.value, logic.width(register))?;
    log.push(Target::Register(role), choice.when, value)
}

/// Notes that a node is entered.
pub fn enter(log: &mut Log, node: NodeId, when: Atom) -> Result<(), AllocError>
    ensures { (p : Plan) (names : List Register) (d : Netlist) (holds_ : Cycle → Bool) → IsBegun p names d → Tells p names d when holds_
        → OnOk result (Logs p names d d log.old.pushes.items log.new.pushes.items (bit_entry (Target.Entered node) holds_ ∷ [])) }
{
    log.push(Target::Entered(node), when, constant(1, 1))
}

/// Notes that the run ends.
pub fn finish(log: &mut Log, when: Atom) -> Result<(), AllocError>
    ensures { (p : Plan) (names : List Register) (d : Netlist) (holds_ : Cycle → Bool) → IsBegun p names d → Tells p names d when holds_
        → OnOk result (Logs p names d d log.old.pushes.items log.new.pushes.items (bit_entry Target.Ended holds_ ∷ [])) }
{
    log.push(Target::Ended, when, constant(1, 1))
}
