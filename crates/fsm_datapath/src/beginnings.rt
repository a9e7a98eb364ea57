//! The first values of variables.
ghost use Rattle.std.specs.Prelude.{◌≡◌, ◌<◌, ◌≤◌, ◌+◌, ◌^◌, List, map, IfOk, OnOk, [], ◌∷◌, true};
ghost use Rattle.std.specs.List.{enumerate_from, list_all};
ghost use Rattle.rtl_core.specs.Netlist.{Netlist};
ghost use Rattle.program_validity.specs.Frames.{is_kept};
ghost use Rattle.rtl_logic.specs.Making.{circuit};
ghost use Rattle.datapath.specs.Plans.{Plan};
ghost use Rattle.datapath.specs.Cycles.{Register};
ghost use Rattle.datapath.specs.Control.{is_taken};
ghost use Rattle.datapath.specs.CircuitWires.Carrying.{IsBegun, Tells, MakesTelling};
ghost use Rattle.circuit_context.specs.Wanted.Logs.{CarriesSome, Logs};
ghost use Rattle.circuit_context.specs.Wanted.Entries.{all_beginnings, parameter_entry, kept_entry};
ghost use Rattle.circuit_context.specs.Contexts.{IsContext};

use crate::pushes::{enter, take};
use circuit_context::context::Context;
use circuit_context::wanted::log::Log;
use circuit_context::wanted::role::Role;
use datapath::plan_sizes::pins::{FIRST_ARGUMENT, START};
use hls_base::number::{Kept, VarId};
use rtl_core::design::Atom;
use rtl_logic::logic::Logic;
use rtl_logic::select::{Choice, constant};
use std::alloc::AllocError;

/// The bit of a start that is taken.
fn taken(of: &Context<'_>, logic: &mut Logic) -> Result<Atom, AllocError>
    ensures { (p : Plan) (names : List Register) → IsContext p names of.now → IsBegun p names (circuit logic.old)
        → IfOk result (λ a. MakesTelling p names (circuit logic.old) (circuit logic.new) a is_taken) }
{
    let ready = of.bank.register(Role::Ready)?;
    logic.and(ready, START)
}

/// The input with this number among the arguments.
fn argument(number: usize) -> Atom
    requires { number < 2 ^ 63 }
    ensures { result ≡ Atom.Input (7 + number) }
{
    Atom::Input(FIRST_ARGUMENT + number as u64)
}

/// Arguments at the start.
fn write_arguments(
    of: &Context<'_>,
    logic: &Logic,
    log: &mut Log,
    taken: Atom,
    variables: &[VarId],
) -> Result<(), AllocError>
    ensures { (p : Plan) (names : List Register) → IsContext p names of.now → IsBegun p names (circuit logic.now) → variables.now ≡ p.parameters → Tells p names (circuit logic.now) taken is_taken
        → OnOk result (Logs p names (circuit logic.now) (circuit logic.now) log.old.pushes.items log.new.pushes.items (map parameter_entry (enumerate_from 0 p.parameters))) }
{
    for number in 0..variables.len() {
        let value = argument(number);
        let choice = Choice { when: taken, value };
        take(of, logic, log, Role::Variable(variables[number]), choice)?;
    }
    Ok(())
}

/// A number of so many bits.
fn number_in_bits(bits: u8, number: u64) -> Atom
    requires some { 1 ≤ bits }
    requires few { bits ≤ 64 }
    requires fits { number < 2 ^ bits }
    ensures { (p : Plan) (names : List Register) (d : Netlist) → CarriesSome p names d result (λ c. number) }
{
    constant(bits, number as u128)
}

/// The first value of a kept variable, in the initial sequence.
fn write_first(of: &Context<'_>, logic: &Logic, log: &mut Log, kept: Kept) -> Result<(), AllocError>
    requires { is_kept of.now.cfg.now.frame kept ≡ true }
    ensures { (p : Plan) (names : List Register) → IsContext p names of.now → IsBegun p names (circuit logic.now)
        → OnOk result (Logs p names (circuit logic.now) (circuit logic.now) log.old.pushes.items log.new.pushes.items (kept_entry kept ∷ [])) }
{
    let when = of.bank.register(Role::Initial)?;
    let role = Role::Variable(kept.variable);
    let bits = of.cfg.frame.variables[kept.variable.0 as usize];
    let value = number_in_bits(bits, kept.value);
    take(of, logic, log, role, Choice { when, value })
}

/// The first values of kept variables.
fn write_kept(
    of: &Context<'_>,
    logic: &Logic,
    log: &mut Log,
    all: &[Kept],
) -> Result<(), AllocError>
    requires { list_all (is_kept of.now.cfg.now.frame) all.now ≡ true }
    ensures { (p : Plan) (names : List Register) → IsContext p names of.now → IsBegun p names (circuit logic.now)
        → OnOk result (Logs p names (circuit logic.now) (circuit logic.now) log.old.pushes.items log.new.pushes.items (map kept_entry all.now)) }
{
    for kept in all {
        write_first(of, logic, log, *kept)?;
    }
    Ok(())
}

/// Arguments at the start, and the first values of kept variables in the initial sequence. A start enters the first node.
pub fn write_beginnings(
    of: &Context<'_>,
    logic: &mut Logic,
    log: &mut Log,
) -> Result<(), AllocError>
    ensures { (p : Plan) (names : List Register) → IsContext p names of.now → IsBegun p names (circuit logic.old)
        → OnOk result (Logs p names (circuit logic.old) (circuit logic.new) log.old.pushes.items log.new.pushes.items (all_beginnings p)) }
{
    let taken = taken(of, logic)?;
    enter(log, of.cfg.first, taken)?;
    write_arguments(of, logic, log, taken, &of.cfg.frame.params)?;
    write_kept(of, logic, log, &of.cfg.frame.kept)
}
