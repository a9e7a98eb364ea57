ghost use Rattle.std.specs.Prelude.{◌≡◌, ◌<◌, ◌+◌, ◌^◌, IfOk, OnOk, OnErr, [], ◌∷◌, ◌++◌, length};
ghost use Rattle.rtl_units.specs.Fragments.{wire_of, register_of, one_bit};

use rtl_core::design::{Atom, Design, Net, Reg, Wire};
use std::alloc::{AllocError, Global};

/// Registers and wires that are to be appended to a design with so many of them.
#[derive(Drop)]
pub struct Draft {
    first_reg: u64,
    next_wire: u64,
    pub regs: Vec<Reg>,
    pub wires: Vec<Wire>,
    ghost small: { first_reg < 2 ^ 63 },
}

impl Draft {
    pub fn new(alloc: Global, design: &Design) -> Draft
        ensures first_reg { result.first_reg ≡ length design.now.regs.items }
        ensures next_wire { result.next_wire ≡ length design.now.wires.items }
        ensures regs { result.regs.items ≡ [] }
        ensures wires { result.wires.items ≡ [] }
    {
        Draft {
            first_reg: design.regs.len() as u64,
            next_wire: design.wires.len() as u64,
            regs: Vec::new(alloc),
            wires: Vec::new(alloc),
        }
    }

    /// The register that stands so many places after the first new one.
    pub fn reg(&self, place: u8) -> Atom
        ensures { result ≡ Atom.Reg (self.now.first_reg + place) }
    {
        Atom::Reg(self.first_reg + place as u64)
    }

    pub fn wire(&mut self, bits: u8, net: Net) -> Result<Atom, AllocError>
        ensures atom { IfOk result (λ a. a ≡ Atom.Wire self.old.next_wire) }
        ensures wires { OnOk result (self.new.wires.items ≡ self.old.wires.items ++ wire_of bits net ∷ []) }
        ensures regs { self.new.regs.items ≡ self.old.regs.items }
        ensures first_reg { self.new.first_reg ≡ self.old.first_reg }
        ensures next_wire { OnOk result (self.new.next_wire ≡ self.old.next_wire + 1) }
    {
        let number = self.next_wire;
        let next = number.checked_add(1).ok_or(AllocError)?;
        self.wires.push(Wire { bits, net })?;
        self.next_wire = next;
        Ok(Atom::Wire(number))
    }

    pub fn register(&mut self, bits: u8, enable: Atom, next: Atom) -> Result<(), AllocError>
        ensures regs { OnOk result (self.new.regs.items ≡ self.old.regs.items ++ register_of bits enable next ∷ []) }
        ensures wires { self.new.wires.items ≡ self.old.wires.items }
        ensures first_reg { self.new.first_reg ≡ self.old.first_reg }
        ensures next_wire { self.new.next_wire ≡ self.old.next_wire }
    {
        self.regs.push(Reg { bits, enable, next })?;
        Ok(())
    }
}

/// One bit that is always 1.
pub fn always() -> Atom
    ensures { result ≡ one_bit }
{
    Atom::Constant { bits: 1, value: 1 }
}

pub fn zero(bits: u8) -> Atom
    ensures { result ≡ Atom.Constant bits 0 }
{
    Atom::Constant { bits, value: 0 }
}
