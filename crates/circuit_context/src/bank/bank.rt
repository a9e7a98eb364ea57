//! The registers of a circuit, each for one thing.
ghost use Rattle.std.specs.Prelude.{◌≡◌, ◌<◌, ◌^◌, ◌∷◌, ◌++◌, [], length, map, IfOk, OnOk};
ghost use Rattle.datapath.specs.Plans.{Plan};
ghost use Rattle.rtl_logic.specs.Making.{circuit};
ghost use Rattle.datapath.specs.CircuitWires.Carrying.{IsBegun, IsRegister};
ghost use Rattle.circuit_context.specs.Wanted.Roles.{named};
ghost use Rattle.circuit_context.specs.Wanted.Driving.{AreDistinct};
ghost use Rattle.circuit_context.specs.Bank.Banks.{names_of, HasShortStart, IsPlanOf, ArePortCounts, IsAllotted};
ghost use Rattle.circuit_context.specs.Bank.Slots.{AreRegistered};

use crate::bank::lines::lines_for;
use crate::bank::slots::{Slot, slots_of};
use crate::wanted::role::Role;
use hls_base::refusal::impossible;
use indexmap::IndexSet;
use ir_core::cfg::Cfg;
use ir_core::timed::Timed;
use reg_binding::registers::Registers;
use rtl_core::design::Atom;
use rtl_logic::logic::Logic;
use std::alloc::{AllocError, Global};

/// What each register is for; registers are numbered in this order.
#[derive(Drop)]
pub struct Bank {
    pub roles: IndexSet<Role>,
    /// How many gates and how many stages the loops share.
    pub gates: u64,
    pub stages: u64,
}

impl Bank {
    /// The register for this.
    pub fn register(&self, role: Role) -> Result<Atom, AllocError>
        ensures { IfOk result (λ a. IsRegister (names_of self.now) a (named role)) }
    {
        match self.roles.get_index_of(&role) {
            Some(number) => Ok(Atom::Reg(number as u64)),
            None => Err(impossible()),
        }
    }
}

/// Adds a role that is not there.
fn add(roles: &mut IndexSet<Role>, role: Role) -> Result<(), AllocError>
    ensures keys { OnOk result (roles.new.keys ≡ roles.old.keys ++ role ∷ []) }
    ensures distinct { AreDistinct (map named roles.old.keys) → OnOk result (AreDistinct (map named roles.new.keys)) }
{
    if roles.insert(role)? {
        Ok(())
    } else {
        Err(impossible())
    }
}

/// Appends registers. Each keeps what it has.
fn register_all(
    alloc: Global,
    logic: &mut Logic,
    slots: &[Slot],
) -> Result<IndexSet<Role>, AllocError>
    ensures { IfOk result (λ roles. AreRegistered (circuit logic.old) (circuit logic.new) slots.now roles.keys) }
{
    let mut roles = IndexSet::new(alloc);
    for slot in slots {
        add(&mut roles, slot.role)?;
        let _register = logic.register(slot.bits)?;
    }
    Ok(roles)
}

/// Appends the registers of a program, but for those of shared units. Each keeps what it has.
pub fn allot(
    alloc: Global,
    logic: &mut Logic,
    cfg: &Cfg<Timed>,
    registers: &Registers,
    ports: &[u32],
) -> Result<Bank, AllocError>
    requires nodes { length cfg.now.nodes.items < 2 ^ 32 }
    requires variables { length cfg.now.frame.variables.items < 2 ^ 32 }
    requires arrays { length cfg.now.frame.memories.items < 2 ^ 32 }
    requires ports { length ports.now ≡ length cfg.now.frame.memories.items }
    requires start { HasShortStart cfg.now }
    ensures { (p : Plan) → IsPlanOf p cfg.now registers.now → ArePortCounts p ports.now → IsBegun p [] (circuit logic.old)
        → IfOk result (λ bank. IsAllotted p (circuit logic.old) (circuit logic.new) bank) }
{
    let lines = lines_for(cfg, registers);
    let slots = slots_of(alloc, cfg, registers, ports, lines)?;
    let roles = register_all(alloc, logic, &slots)?;
    Ok(Bank {
        roles,
        gates: lines.gates,
        stages: lines.stages,
    })
}
