ghost use Rattle.std.specs.Prelude.{◌≡◌, ℕ, ◌^◌, ◌==◌, ◌||◌, ◌&&◌, nat_lt, min, map, IfOk, OnOk};
ghost use Rattle.verilog_syntax.specs.ModuleViews.{operand_view, value_view, net_view, name_view, write_view, drive_view};
ghost use Rattle.verilog_read.specs.NameTable.{scope_in};
ghost use Rattle.verilog_read.specs.Faults.{same_atom, is_port_of, is_port_drive, port_addresses, is_in_range, may_have, may_agree, pair_fits, may_add_up, join_fits, is_part, part_fits, is_same_depth, address_fits, word_fits, net_fits};
ghost use Rattle.verilog_read.specs.AddressSets.{address_of, addresses_in};
ghost use Rattle.rtl_core.specs.declared.design.Atom.{Atom};

use crate::names::{Entry, Meaning, Names, Sort};
use crate::number::constant_value;
use indexmap::IndexSet;
use rtl_core::design::{Atom, Pair};
use std::alloc::{AllocError, Global};
use verilog_syntax::module::{Drive, Expression, Name, Operand, Value, Write};
use verilog_syntax::number::number_value;

#[derive(Clone, Copy, PartialEq, Eq, Hash)]
pub enum Address {
    Constant(u8, u128),
    Input(u64),
    Reg(u64),
    Wire(u64),
}

/// The number of a memory and the address of one of its ports.
#[derive(Clone, Copy, PartialEq, Eq, Hash)]
pub struct PortAddress {
    pub memory: u64,
    pub address: Address,
}

fn address_of(atom: Atom) -> Address
    ensures { result ≡ address_of atom }
{
    match atom {
        Atom::Constant { bits, value } => Address::Constant(bits, value),
        Atom::Input(k) => Address::Input(k),
        Atom::Reg(k) => Address::Reg(k),
        Atom::Wire(k) => Address::Wire(k),
    }
}

/// The addresses of the ports of the memories.
#[derive(Drop)]
pub struct Addresses {
    pub known: IndexSet<PortAddress>,
}

impl Addresses {
    pub fn contains(&self, memory: u64, atom: Atom) -> bool
        ensures { result ≡ addresses_in self.now memory atom }
    {
        self.known.contains(&PortAddress {
            memory,
            address: address_of(atom),
        })
    }

    fn insert(&mut self, memory: u64, atom: Atom) -> Result<(), AllocError>
        ensures { OnOk result ((k : ℕ) (a : Atom) → addresses_in self.new k a ≡ (addresses_in self.old k a || ((k == memory) && same_atom a atom))) }
    {
        self.known.insert(PortAddress {
            memory,
            address: address_of(atom),
        })?;
        Ok(())
    }

    fn add(&mut self, names: &Names, port: Write) -> Result<(), AllocError>
        ensures { OnOk result ((k : ℕ) (a : Atom) → addresses_in self.new k a ≡ (addresses_in self.old k a || is_port_of (scope_in names.now) k a (write_view port.entry))) }
    {
        if let Some(entry) = names.find_sort(port.memory.text, Sort::Memory) {
            if let Some(meaning) = names.meaning(port.address.value) {
                self.insert(entry.number, meaning.atom)?;
            }
        }
        Ok(())
    }

    fn add_drive(&mut self, names: &Names, drive: Drive) -> Result<(), AllocError>
        ensures { OnOk result ((k : ℕ) (a : Atom) → addresses_in self.new k a ≡ (addresses_in self.old k a || is_port_drive (scope_in names.now) k a (drive_view drive.entry))) }
    {
        match drive {
            Drive::First(port) => self.add(names, port),
            Drive::Further(port) => self.add(names, port),
            Drive::Register { .. } => Ok(()),
        }
    }
}

pub fn addresses_of(alloc: Global, names: &Names, drives: &[Drive]) -> Result<Addresses, AllocError>
    ensures { IfOk result (λ all. (k : ℕ) (a : Atom) → addresses_in all k a ≡ port_addresses (scope_in names.now) (map drive_view drives.now) k a) }
{
    let mut all = Addresses {
        known: IndexSet::new(alloc),
    };
    for drive in drives {
        all.add_drive(names, *drive)?;
    }
    Ok(all)
}

fn is_below_power(value: u128, bits: u8) -> bool
    ensures { result ≡ nat_lt value (2 ^ min bits 128) }
{
    bits >= 128 || value < 1 << bits
}

/// Whether an operand that is a constant is below 2 to the power of its bits.
pub fn is_in_range(operand: Operand) -> bool
    ensures { result ≡ is_in_range (operand_view operand.entry).operand }
{
    match operand.value {
        Value::Named(_) => true,
        Value::Fixed { bits, digits } => match constant_value(digits) {
            Some(value) => is_below_power(value, bits),
            None => false,
        },
    }
}

/// Whether an operand has so many bits, as far as its width is known.
pub fn may_have(names: &Names, operand: Operand, bits: u8) -> bool
    ensures { result ≡ may_have (scope_in names.now) (operand_view operand.entry).operand bits }
{
    match names.meaning(operand.value) {
        Some(meaning) => meaning.bits == bits && is_in_range(operand),
        None => true,
    }
}

fn may_agree(names: &Names, left: Operand, right: Operand) -> bool
    ensures { result ≡ may_agree (scope_in names.now) (operand_view left.entry).operand (operand_view right.entry).operand }
{
    let is_same = match (names.meaning(left.value), names.meaning(right.value)) {
        (Some(a), Some(b)) => a.bits == b.bits,
        _ => true,
    };
    (is_same && is_in_range(left)) && is_in_range(right)
}

fn pair_fits(names: &Names, bits: u8, op: Pair, left: Operand, right: Operand) -> bool
    ensures { result ≡ pair_fits (scope_in names.now) bits op (operand_view left.entry).operand (operand_view right.entry).operand }
{
    match op {
        Pair::Equal | Pair::Below => bits == 1 && may_agree(names, left, right),
        Pair::Left | Pair::Right => may_have(names, left, bits) && is_in_range(right),
        _ => may_have(names, left, bits) && may_have(names, right, bits),
    }
}

/// Whether these widths, where they are known, can add up to so many bits.
fn may_add_up(bits: u8, high: Option<Meaning>, low: Option<Meaning>) -> bool
    ensures { result ≡ may_add_up bits high low }
{
    match (high, low) {
        (Some(a), Some(b)) => u16::from(bits) == u16::from(a.bits) + u16::from(b.bits),
        (Some(a), None) => a.bits < bits,
        (None, Some(b)) => b.bits < bits,
        (None, None) => 1 < bits,
    }
}

fn join_fits(names: &Names, bits: u8, high: Operand, low: Operand) -> bool
    ensures { result ≡ join_fits (scope_in names.now) bits (operand_view high.entry).operand (operand_view low.entry).operand }
{
    (may_add_up(bits, names.meaning(high.value), names.meaning(low.value)) && is_in_range(high))
        && is_in_range(low)
}

/// Whether the bits from `high` down to `low` are among so many, and make up so many.
fn is_part(wide: u8, bits: u8, high: &[u8], low: &[u8]) -> bool
    ensures { result ≡ is_part wide bits high.now low.now }
{
    let high = number_value(high);
    let low = number_value(low);
    (high < u32::from(wide) && low <= high) && u32::from(bits) + low == high + 1
}

fn part_fits(names: &Names, bits: u8, name: Name, high: &[u8], low: &[u8]) -> bool
    ensures { result ≡ part_fits (scope_in names.now) bits (name_view name.entry).text high.now low.now }
{
    match names.named(name.text) {
        Some(meaning) => is_part(meaning.bits, bits, high, low),
        None => true,
    }
}

fn address_fits(names: &Names, addresses: &Addresses, entry: Entry, address: Operand) -> bool
    ensures { result ≡ address_fits (scope_in names.now) (addresses_in addresses.now) entry (operand_view address.entry).operand }
{
    match names.meaning(address.value) {
        Some(meaning) => {
            (is_depth(entry.depth, meaning.bits) && is_in_range(address))
                && addresses.contains(entry.number, meaning.atom)
        }
        None => true,
    }
}

fn is_depth(depth: Option<u8>, bits: u8) -> bool
    ensures { result ≡ is_same_depth depth bits }
{
    match depth {
        Some(k) => k == bits,
        None => false,
    }
}

fn word_fits(names: &Names, addresses: &Addresses, bits: u8, memory: Name, address: Operand) -> bool
    ensures { result ≡ word_fits (scope_in names.now) (addresses_in addresses.now) bits (name_view memory.entry).text (operand_view address.entry).operand }
{
    match names.find_sort(memory.text, Sort::Memory) {
        Some(entry) => entry.bits == bits && address_fits(names, addresses, entry, address),
        None => true,
    }
}

/// Whether the expression has so many bits, as far as the widths of its names are known.
pub fn net_fits(names: &Names, addresses: &Addresses, bits: u8, net: Expression) -> bool
    ensures { result ≡ net_fits (scope_in names.now) (addresses_in addresses.now) bits (net_view net.entry) }
{
    match net {
        Expression::Alone(a) | Expression::Inverted(a) => may_have(names, a, bits),
        Expression::Between(op, a, b) => pair_fits(names, bits, op, a, b),
        Expression::Chosen(test, a, b) => {
            (may_have(names, test, 1) && may_have(names, a, bits)) && may_have(names, b, bits)
        }
        Expression::Joined(high, low) => join_fits(names, bits, high, low),
        Expression::Slice(name, high, low) => part_fits(names, bits, name, high, low),
        Expression::WordOf(memory, address) => word_fits(names, addresses, bits, memory, address),
    }
}
