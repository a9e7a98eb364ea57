//! Each register of a bank takes what is wanted of it.
ghost use Rattle.std.specs.Prelude.{◌≡◌, ◌++◌, List, OnOk};
ghost use Rattle.rtl_logic.specs.Making.{circuit};
ghost use Rattle.datapath.specs.Plans.{Plan};
ghost use Rattle.datapath.specs.Cycles.{Register};
ghost use Rattle.datapath.specs.CircuitWires.Carrying.{IsBegun};
ghost use Rattle.circuit_context.specs.declared.wanted.log.Push.{Push};
ghost use Rattle.circuit_context.specs.declared.wanted.role.Target.{Target};
ghost use Rattle.circuit_context.specs.Wanted.Roles.{given, choices_of};
ghost use Rattle.circuit_context.specs.Wanted.Entries.{Entry};
ghost use Rattle.circuit_context.specs.Wanted.Logs.{ArePushes};
ghost use Rattle.circuit_context.specs.Bank.Banks.{names_of};
ghost use Rattle.circuit_control.specs.Drives.{WantAsWritten, AreIdle, DrivesRegisters, CanDrive, DrivesOne, CanDriveRole, DrivesRole};

use circuit_context::bank::bank::Bank;
use circuit_context::wanted::log::Groups;
use circuit_context::wanted::role::{Role, Target};
use hls_base::refusal::impossible;
use rtl_core::design::Atom;
use rtl_logic::logic::Logic;
use rtl_logic::select::Choice;
use std::alloc::{AllocError, Global};

/// A register takes what is wanted of it, and keeps what it has where nothing is.
fn drive(
    alloc: Global,
    logic: &mut Logic,
    number: u64,
    choices: &[Choice],
) -> Result<(), AllocError>
    ensures { (p : Plan) (names : List Register) (r : Register) → CanDrive p names (circuit logic.old) number r choices.now
        → OnOk result (DrivesOne p names (circuit logic.old) (circuit logic.new) number r) }
{
    let register = Atom::Reg(number);
    let bits = logic.width(register);
    if bits == 0 || bits > 64 {
        return Err(impossible());
    }
    if let Some(choice) = logic.select(alloc, choices)? {
        logic.set(register, choice.when, choice.value);
    }
    Ok(())
}

/// The register of a role takes what is wanted of it, unless it takes the word of a port.
fn drive_role(
    alloc: Global,
    logic: &mut Logic,
    number: u64,
    role: Role,
    groups: &Groups,
) -> Result<(), AllocError>
    ensures { (p : Plan) (names : List Register) (pushes : List Push) (entries : List Entry) → CanDriveRole p names (circuit logic.old) number role pushes entries
        → ((t : Target) → given groups.now t ≡ choices_of t pushes)
        → OnOk result (DrivesRole p names (circuit logic.old) (circuit logic.new) number role) }
{
    if let Role::Word { .. } = role {
        return Ok(());
    }
    drive(alloc, logic, number, groups.choices(Target::Register(role)))
}

/// Each register of the bank takes what is wanted of it, but for those of words, which are set where the memories are made.
pub fn drive_registers(
    alloc: Global,
    logic: &mut Logic,
    bank: &Bank,
    groups: &Groups,
) -> Result<(), AllocError>
    ensures { (p : Plan) (more : List Register) (pushes : List Push) (entries : List Entry) → IsBegun p (names_of bank.now ++ more) (circuit logic.old)
        → ArePushes p (names_of bank.now ++ more) (circuit logic.old) pushes entries → ((t : Target) → given groups.now t ≡ choices_of t pushes)
        → WantAsWritten p bank.now.roles.keys entries → AreIdle p bank.now.roles.keys (circuit logic.old)
        → OnOk result (DrivesRegisters p (names_of bank.now ++ more) bank.now.roles.keys (circuit logic.old) (circuit logic.new)) }
{
    for number in 0..bank.roles.len() {
        if let Some(role) = bank.roles.get_index(number) {
            drive_role(alloc, logic, number as u64, *role, groups)?;
        }
    }
    Ok(())
}
