ghost use Rattle.std.specs.Prelude.{◌≡◌, ◌≤◌, ◌<◌, ◌^◌, ◌==◌, if◌then◌else◌, length, map};
ghost use Rattle.std.specs.List.{All};
ghost use Rattle.rtl_core.specs.declared.design.Pin.{Pin};
ghost use Rattle.rtl_core.specs.declared.design.Reg.{Reg};
ghost use Rattle.rtl_core.specs.ClockStep.{clocked_registers};
ghost use Rattle.rtl_core.specs.Valid.{IsBetween};
ghost use Rattle.verilog_cycle.specs.Simulation.{modulo_widths};
ghost use Rattle.verilog_cycle.specs.Inside.{IsThere, IsWord, value_in};

use crate::word::low_bits;
use rtl_core::design::{Atom, Pin, Reg};

/// The values of inputs, registers and wires in a cycle, and of the registers in the next one.
#[derive(Drop)]
pub struct Values {
    pub pins: Vec<u64>,
    pub regs: Vec<u64>,
    pub next: Vec<u64>,
    pub wires: Vec<u128>,
}

impl Values {
    pub fn value(&self, atom: Atom) -> u128
        requires { IsThere self.now atom }
        ensures { result ≡ value_in self.now atom }
    {
        match atom {
            Atom::Constant { value, .. } => value,
            Atom::Input(k) => u128::from(self.pins[k as usize]),
            Atom::Reg(k) => u128::from(self.regs[k as usize]),
            Atom::Wire(k) => self.wires[k as usize],
        }
    }

    pub fn word(&self, atom: Atom) -> u64
        requires { IsWord self.now atom }
        ensures { result ≡ value_in self.now atom }
    {
        self.value(atom) as u64
    }

    /// Takes the inputs of a cycle.
    pub fn take_pins(&mut self, inputs: &[Pin], pins: &[u64])
        requires widths { All (λ (p : Pin). IsBetween 1 64 p.bits) inputs.now }
        requires room { length self.old.pins.items ≡ length inputs.now }
        requires count { length pins.now ≡ length inputs.now }
        ensures pins { self.new.pins.items ≡ modulo_widths (map (λ (p : Pin). p.bits) inputs.now) pins.now }
        ensures regs { self.new.regs.items ≡ self.old.regs.items }
        ensures next { self.new.next.items ≡ self.old.next.items }
        ensures wires { self.new.wires.items ≡ self.old.wires.items }
    {
        for k in 0..inputs.len() {
            self.pins[k] = low_bits(pins[k], inputs[k].bits);
        }
    }

    /// What a register holds after the edge.
    fn next_value(&self, reg: Reg, held: u64) -> u64
        requires enable { IsThere self.now reg.enable }
        requires next { IsWord self.now reg.next }
        ensures { result ≡ (if value_in self.now reg.enable == 1 then value_in self.now reg.next else held) }
    {
        if self.value(reg.enable) == 1 {
            self.word(reg.next)
        } else {
            held
        }
    }

    /// Finds what the registers hold after the edge.
    fn find_next(&mut self, regs: &[Reg])
        requires enables { All (λ (r : Reg). IsThere self.old r.enable) regs.now }
        requires words { All (λ (r : Reg). IsWord self.old r.next) regs.now }
        requires held { length self.old.regs.items ≡ length regs.now }
        requires room { length self.old.next.items ≡ length regs.now }
        ensures pins { self.new.pins.items ≡ self.old.pins.items }
        ensures regs { self.new.regs.items ≡ self.old.regs.items }
        ensures next { self.new.next.items ≡ clocked_registers (value_in self.old) regs.now self.old.regs.items }
        ensures wires { self.new.wires.items ≡ self.old.wires.items }
    {
        for k in 0..regs.len() {
            self.next[k] = self.next_value(regs[k], self.regs[k]);
        }
    }

    /// Clocks the registers, all from the values before the edge.
    pub fn clock(&mut self, regs: &[Reg])
        requires enables { All (λ (r : Reg). IsThere self.old r.enable) regs.now }
        requires words { All (λ (r : Reg). IsWord self.old r.next) regs.now }
        requires held { length self.old.regs.items ≡ length regs.now }
        requires room { length self.old.next.items ≡ length regs.now }
        ensures pins { self.new.pins.items ≡ self.old.pins.items }
        ensures regs { self.new.regs.items ≡ clocked_registers (value_in self.old) regs.now self.old.regs.items }
        ensures next { self.new.next.items ≡ self.old.regs.items }
        ensures wires { self.new.wires.items ≡ self.old.wires.items }
    {
        self.find_next(regs);
        std::mem::swap(&mut self.regs, &mut self.next);
    }
}
