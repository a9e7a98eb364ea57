//! Numbers as constants, and what registers hold.
ghost use Rattle.std.specs.Prelude.{◌≡◌, ◌<◌, ◌==◌, ◌^◌, ℕ, List, IfOk};
ghost use Rattle.rtl_core.specs.declared.design.Atom.TheVariants as atom;
ghost use Rattle.rtl_core.specs.Netlist.{Netlist};
ghost use Rattle.rtl_core.specs.Valid.{IsBetween};
ghost use Rattle.rtl_logic.specs.Making.{circuit};
ghost use Rattle.datapath.specs.Plans.{Plan};
ghost use Rattle.datapath.specs.Cycles.{Register, Cycle};
ghost use Rattle.datapath.specs.CircuitWires.Carrying.{IsRegister, IsBegun, Tells, MakesTelling};

use hls_base::refusal::impossible;
use rtl_core::design::Atom;
use rtl_logic::logic::Logic;
use rtl_logic::select::constant;
use std::alloc::AllocError;

/// The number as a constant of so many bits, where it has no more.
pub fn number(bits: u8, value: u64) -> Result<Atom, AllocError>
    ensures is { IfOk result (λ a. a ≡ atom.Constant bits value) }
    ensures between { IfOk result (λ a. IsBetween 1 64 bits) }
    ensures fits { IfOk result (λ a. value < 2 ^ bits) }
{
    if bits == 0 || bits > 64 || (value as u128) >> bits as u32 != 0 {
        return Err(impossible());
    }
    Ok(constant(bits, value as u128))
}

/// A bit that is the same in every cycle.
pub fn constant_bit(value: bool) -> Atom
    ensures { (p : Plan) (names : List Register) (d : Netlist) → Tells p names d result (λ (c : Cycle). value) }
{
    constant(1, if value { 1 } else { 0 })
}

/// Whether a register holds this number.
pub fn holds_number(logic: &mut Logic, register: Atom, value: u64) -> Result<Atom, AllocError>
    ensures { (p : Plan) (names : List Register) (r : Register) → IsRegister names register r → IsBegun p names (circuit logic.old)
        → IfOk result (λ a. MakesTelling p names (circuit logic.old) (circuit logic.new) a (λ (c : Cycle). c.regs r == value)) }
{
    let bits = logic.width(register);
    let number = number(bits, value)?;
    logic.equal(register, number)
}
