//! The parts of a circuit, one after another.
ghost use Rattle.std.specs.Prelude.{◌≡◌, List, IfOk, OnOk, [], map};
ghost use Rattle.reg_binding.specs.Liveness.{IsLiveness, flow_of};
ghost use Rattle.rtl_logic.specs.Making.{circuit};
ghost use Rattle.datapath.specs.Plans.{Plan};
ghost use Rattle.datapath.specs.Cycles.{Register};
ghost use Rattle.datapath.specs.CircuitWires.Carrying.{IsBegun};
ghost use Rattle.circuit_context.specs.Wanted.Roles.{named};
ghost use Rattle.circuit_context.specs.Wanted.Entries.{moves_of, all_entries, all_roles};
ghost use Rattle.circuit_context.specs.Wanted.Logs.{Logs};
ghost use Rattle.circuit_context.specs.Bank.Banks.{names_of};
ghost use Rattle.circuit_context.specs.Programs.{IsBuildable};
ghost use Rattle.circuit_context.specs.Contexts.{IsContext};
ghost use Rattle.circuit_units.specs.Demands.Computed.{AreComputed};
ghost use Rattle.circuit_units.specs.Units.{HasAnswers};
ghost use Rattle.circuit_control.specs.Drives.{AreIdle};
ghost use Rattle.fsm_datapath.specs.Making.{HasContext, CanCompute, HasParts, HasMoves};

use crate::beginnings::write_beginnings;
use crate::ends::write_ends;
use crate::places::write_places;
use crate::sources::Sources;
use circuit_context::bank::bank::allot;
use circuit_context::context::Context;
use circuit_context::host::write_named;
use circuit_context::ports::ports_of;
use circuit_context::wanted::log::Log;
use circuit_control::control::write_control;
use circuit_control::drives::drive_registers;
use circuit_control::exits::write_exits;
use circuit_control::loops::write_loops;
use circuit_control::savings::savings::variables_read;
use circuit_units::demands::demands::{Computed, collect};
use circuit_units::memories::memories::{PortTable, add_memories};
use circuit_units::units::units::{UnitTable, add_units};
use datapath::places::places_of;
use ir_core::cfg::Cfg;
use ir_core::numbers::numbers_are_small;
use ir_core::timed::Timed;
use reg_binding::live::Live;
use reg_binding::registers::Registers;
use rtl_logic::logic::Logic;
use std::alloc::{AllocError, Global};

/// The registers of the circuit, and what is known of the program.
pub fn context_of<'a>(
    alloc: Global,
    logic: &mut Logic,
    cfg: &'a Cfg<Timed>,
    registers: &'a Registers,
    live: Live,
) -> Result<Context<'a>, AllocError>
    requires live { IsLiveness (flow_of cfg.now) live }
    requires buildable { IsBuildable cfg.now }
    ensures { IfOk result (λ of. HasContext of cfg.now live registers.now (circuit logic.old) (circuit logic.new)) }
{
    numbers_are_small(cfg);
    let ports = ports_of(alloc, cfg)?;
    let bank = allot(alloc, logic, cfg, registers, &ports.counts)?;
    let read = variables_read(alloc, cfg, &live)?;
    let places = places_of(alloc, &registers.held)?;
    Ok(Context {
        alloc,
        cfg,
        registers,
        bank,
        places,
        ports,
        read,
        live,
    })
}

/// What computes: the wires of operations, the shared units, and the ports of memories and tables.
#[derive(Drop)]
pub struct Parts {
    pub computed: Computed,
    pub units: UnitTable,
    pub ports: PortTable,
}

/// Adds all that computes.
pub fn add_parts(of: &Context<'_>, logic: &mut Logic) -> Result<Parts, AllocError>
    ensures { (p : Plan) → CanCompute p of.now (circuit logic.old) → IfOk result (λ parts. HasParts p of.now.bank (circuit logic.old) (circuit logic.new) parts) }
{
    let mut demands = Log::new(of.alloc);
    let computed = collect(of, logic, &mut demands)?;
    let groups = demands.groups(of.alloc)?;
    let units = add_units(of, logic, &groups)?;
    let ports = add_memories(of, logic, &groups)?;
    Ok(Parts {
        computed,
        units,
        ports,
    })
}

/// Logs where control goes, and what registers take but for those of loops and the controller.
fn write_moves(
    of: &Context<'_>,
    logic: &mut Logic,
    log: &mut Log,
    parts: &Parts,
) -> Result<(), AllocError>
    ensures { (p : Plan) (names : List Register) → IsContext p names of.now → IsBegun p names (circuit logic.old)
        → AreComputed p names (circuit logic.old) parts.now.computed → HasAnswers p names (circuit logic.old) parts.now.units
        → OnOk result (Logs p names (circuit logic.old) (circuit logic.new) log.old.pushes.items log.new.pushes.items (moves_of p)) }
{
    let sources = Sources {
        computed: &parts.computed,
        units: &parts.units,
    };
    write_exits(of, logic, log)?;
    write_beginnings(of, logic, log)?;
    write_places(of, logic, log, &sources)?;
    write_ends(of, logic, log, &sources)
}

/// Logs what all registers take.
fn write_all(
    of: &Context<'_>,
    logic: &mut Logic,
    log: &mut Log,
    parts: &Parts,
) -> Result<(), AllocError>
    ensures { (p : Plan) (names : List Register) → log.old.pushes.items ≡ [] → IsContext p names of.now → IsBegun p names (circuit logic.old)
        → names_of of.now.bank ≡ map named (all_roles p of.now.bank.gates of.now.bank.stages)
        → AreComputed p names (circuit logic.old) parts.now.computed → HasAnswers p names (circuit logic.old) parts.now.units
        → OnOk result (Logs p names (circuit logic.old) (circuit logic.new) [] log.new.pushes.items (all_entries p of.now.bank.gates of.now.bank.stages)) }
{
    write_moves(of, logic, log, parts)?;
    let groups = log.groups(of.alloc)?;
    write_loops(of, logic, log, &groups)?;
    write_control(of, logic, log, &groups)?;
    write_named(of, logic, log)
}

/// Gives all registers their next values.
pub fn add_moves(of: &Context<'_>, logic: &mut Logic, parts: &Parts) -> Result<(), AllocError>
    ensures { (p : Plan) (names : List Register) → IsContext p names of.now → IsBegun p names (circuit logic.old)
        → names_of of.now.bank ≡ map named (all_roles p of.now.bank.gates of.now.bank.stages) → AreIdle p of.now.bank.roles.keys (circuit logic.old)
        → AreComputed p names (circuit logic.old) parts.now.computed → HasAnswers p names (circuit logic.old) parts.now.units
        → OnOk result (HasMoves p names of.now.bank (circuit logic.old) (circuit logic.new)) }
{
    let mut log = Log::new(of.alloc);
    write_all(of, logic, &mut log, parts)?;
    let groups = log.groups(of.alloc)?;
    drive_registers(of.alloc, logic, &of.bank, &groups)
}
