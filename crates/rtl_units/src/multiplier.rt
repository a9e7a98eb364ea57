ghost use Rattle.std.specs.Prelude.{◌≡◌, ◌+◌, IfOk, OnOk, [], length};
ghost use Rattle.rtl_units.specs.Fragments.{multiplier_registers, multiplier_wires};

use crate::draft::{Draft, always};
use rtl_core::design::{Atom, Net, Pair};
use std::alloc::AllocError;

/// Both operands are taken at one edge, and their product at the next.
pub fn multiplier(draft: &mut Draft, bits: u8, left: Atom, right: Atom) -> Result<Atom, AllocError>
    requires no_regs { draft.old.regs.items ≡ [] }
    requires no_wires { draft.old.wires.items ≡ [] }
    ensures atom { IfOk result (λ a. a ≡ Atom.Reg (draft.old.first_reg + 2)) }
    ensures regs { OnOk result (draft.new.regs.items ≡ multiplier_registers draft.old.next_wire bits left right) }
    ensures wires { OnOk result (draft.new.wires.items ≡ multiplier_wires draft.old.first_reg bits) }
{
    let net = Net::Two(Pair::Mul, draft.reg(0), draft.reg(1));
    let product = draft.wire(bits, net)?;
    draft.register(bits, always(), left)?;
    draft.register(bits, always(), right)?;
    draft.register(bits, always(), product)?;
    Ok(draft.reg(2))
}
