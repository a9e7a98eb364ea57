ghost use Rattle.std.specs.Prelude.{◌≡◌, ◌+◌, ◌++◌, ◌∷◌, [], map, slice_index, slice_get, slice_set, length, IfOk, IfSome, OnOk};
ghost use Rattle.std.specs.Option.{option_map};
ghost use Rattle.rtl_core.specs.declared.design.Pin.{Pin};
ghost use Rattle.rtl_core.specs.declared.design.Reg.{Reg};
ghost use Rattle.rtl_core.specs.declared.design.Wire.{Wire};
ghost use Rattle.rtl_core.specs.ClockStep.{bits_of, widths, wire_widths};
ghost use Rattle.rtl_units.specs.Fragments.{empty, wire_of, register_of};
ghost use Rattle.rtl_logic.specs.Making.{circuit, net_in, next_in, next_or, with_next, with_next_at, AddsWire};

use crate::fold::constant;
use crate::key::{NetKey, net_key};
use hls_base::text::Text;
use rtl_core::design::{Atom, Net, Pin, Reg, Wire};
use rtl_units::builder::Builder;
use std::alloc::{AllocError, Global};
use std::collections::BTreeMap;

/// A circuit under construction, and the number of a wire for each expression that was made here.
#[derive(Drop)]
pub struct Logic {
    pub builder: Builder,
    made: BTreeMap<(u8, NetKey), u64>,
}

fn input_bits(inputs: &[Pin], number: u64) -> u8
    ensures { result ≡ slice_index (map (λ (p : Pin). p.bits) inputs.now) number }
{
    let k = number as usize;
    if k < inputs.len() { inputs[k].bits } else { 0 }
}

fn register_bits(regs: &[Reg], number: u64) -> u8
    ensures { result ≡ slice_index (map (λ (r : Reg). r.bits) regs.now) number }
{
    let k = number as usize;
    if k < regs.len() { regs[k].bits } else { 0 }
}

fn wire_bits(wires: &[Wire], number: u64) -> u8
    ensures { result ≡ slice_index (wire_widths wires.now) number }
{
    let k = number as usize;
    if k < wires.len() { wires[k].bits } else { 0 }
}

/// The expression of the wire with this number.
fn net_at(wires: &[Wire], number: u64) -> Option<Net>
    ensures { result ≡ option_map (λ (w : Wire). w.net) (slice_get wires.now number) }
{
    let k = number as usize;
    if k < wires.len() {
        Some(wires[k].net)
    } else {
        None
    }
}

impl Logic {
    /// A circuit with nothing but a name.
    pub fn new(alloc: Global, name: Text) -> Logic
        ensures { circuit result ≡ empty name }
    {
        Logic {
            builder: Builder::new(alloc, name),
            made: BTreeMap::new(alloc),
        }
    }

    /// The bits of an atom, 0 where it names nothing.
    pub fn width(&self, atom: Atom) -> u8
        ensures { result ≡ bits_of (widths (circuit self.now)) atom }
    {
        let design = &self.builder.design;
        match atom {
            Atom::Constant { bits, .. } => bits,
            Atom::Input(k) => input_bits(&design.inputs, k),
            Atom::Reg(k) => register_bits(&design.regs, k),
            Atom::Wire(k) => wire_bits(&design.wires, k),
        }
    }

    /// The expression of an atom that is a wire.
    pub fn net_of(&self, atom: Atom) -> Option<Net>
        ensures { result ≡ net_in (circuit self.now) atom }
    {
        match atom {
            Atom::Wire(k) => net_at(&self.builder.design.wires, k),
            _ => None,
        }
    }

    /// The number of a wire that was made before and is this one.
    fn earlier(&self, wire: Wire) -> Option<u64>
        ensures { IfSome result (λ k. slice_get (circuit self.now).wires k ≡ Some wire) }
    {
        let number = *self.made.get(&(wire.bits, net_key(wire.net)))?;
        let k = number as usize;
        let wires = &self.builder.design.wires;
        if k < wires.len() && wires[k] == wire {
            Some(number)
        } else {
            None
        }
    }

    /// The wire with this expression.
    pub fn wire(&mut self, bits: u8, net: Net) -> Result<Atom, AllocError>
        ensures { IfOk result (AddsWire (circuit self.old) (circuit self.new) (wire_of bits net)) }
    {
        let wire = Wire { bits, net };
        if let Some(number) = self.earlier(wire) {
            return Ok(Atom::Wire(number));
        }
        let number = self.builder.design.wires.len() as u64;
        self.builder.design.wires.push(wire)?;
        self.made.insert((bits, net_key(net)), number)?;
        Ok(Atom::Wire(number))
    }

    /// A new register, which keeps what it has.
    pub fn register(&mut self, bits: u8) -> Result<Atom, AllocError>
        ensures register { IfOk result (λ a. a ≡ Atom.Reg (length (circuit self.old).regs)) }
        ensures appended { OnOk result (circuit self.new ≡ record (circuit self.old) { regs = (circuit self.old).regs ++ register_of bits (Atom.Constant 1 0) (Atom.Constant bits 0) ∷ [] }) }
    {
        let number = self.builder.design.regs.len() as u64;
        let reg = Reg {
            bits,
            enable: constant(1, 0),
            next: constant(bits, 0),
        };
        self.builder.design.regs.push(reg)?;
        Ok(Atom::Reg(number))
    }

    /// Gives a register its next value and when to take it.
    pub fn set(&mut self, register: Atom, enable: Atom, next: Atom)
        ensures { circuit self.new ≡ with_next (circuit self.old) register enable next }
    {
        if let Atom::Reg(k) = register {
            set_next(&mut self.builder.design.regs, k, enable, next);
        }
    }

    /// What a register takes next.
    pub fn next_of(&self, register: Atom) -> Atom
        ensures { result ≡ next_in (circuit self.now) register }
    {
        match register {
            Atom::Reg(k) => next_at(&self.builder.design.regs, k, register),
            _ => register,
        }
    }
}

fn set_next(regs: &mut [Reg], number: u64, enable: Atom, next: Atom)
    ensures { regs.new ≡ with_next_at number enable next regs.old }
{
    let k = number as usize;
    if k < regs.len() {
        let bits = regs[k].bits;
        regs[k] = Reg { bits, enable, next };
    }
}

/// What the register with this number takes next, or the other atom where there is none.
fn next_at(regs: &[Reg], number: u64, other: Atom) -> Atom
    ensures { result ≡ next_or other (slice_get regs.now number) }
{
    let k = number as usize;
    if k < regs.len() { regs[k].next } else { other }
}
