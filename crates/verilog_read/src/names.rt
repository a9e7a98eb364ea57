ghost use Rattle.std.specs.Prelude.{◌≡◌, List, ℕ, IfOk, OnOk, is_some, not, None, Some};
ghost use Rattle.verilog_syntax.specs.ModuleViews.{value_view, operand_view, name_view, net_view, declared_view, memory_view, wire_view, assign_view, write_view, drive_view, module_view};
ghost use Rattle.verilog_read.specs.NameTable.{scope_in};
ghost use Rattle.verilog_read.specs.Scope.{same_sort, find_sort, named, meaning, atom_in, with_entry};

use crate::number::constant_value;
use indexmap::IndexMap;
use rtl_core::design::Atom;
use std::alloc::{AllocError, Global};
use verilog_syntax::module::Value;

#[derive(Clone, Copy, PartialEq, Eq)]
pub enum Sort {
    Input,
    Output,
    Register,
    Memory,
    Wire,
}

fn is_same_sort(left: Sort, right: Sort) -> bool
    ensures { result ≡ same_sort left right }
{
    left == right
}

/// What a name stands for: its number among those of its sort, and its width, which is 129 where it is above 128. A memory with a depth that is allowed has the depth's logarithm.
#[derive(Clone, Copy)]
pub struct Entry {
    pub sort: Sort,
    pub number: u64,
    pub bits: u8,
    pub depth: Option<u8>,
}

/// What an operand stands for, and its width.
#[derive(Clone, Copy)]
pub struct Meaning {
    pub atom: Atom,
    pub bits: u8,
}

/// What each name stands for, which is its first declaration.
#[derive(Drop)]
pub struct Names<'a> {
    pub entries: IndexMap<&'a [u8], Entry>,
}

impl<'a> Names<'a> {
    pub fn new(alloc: Global) -> Names<'a>
        ensures { (q : List ℕ) → scope_in result q ≡ None }
    {
        Names {
            entries: IndexMap::new(alloc),
        }
    }

    pub fn find(&self, name: &[u8]) -> Option<Entry>
        ensures { result ≡ scope_in self.now name.now }
    {
        self.entries.get(name).copied()
    }

    /// Whether the name is new. It then stands for this.
    pub fn declare(&mut self, name: &'a [u8], entry: Entry) -> Result<bool, AllocError>
        ensures is_new { IfOk result (λ is_new. is_new ≡ not (is_some (scope_in self.old name.entry.now))) }
        ensures scope { OnOk result ((q : List ℕ) → scope_in self.new q ≡ with_entry (scope_in self.old) name.entry.now entry q) }
    {
        if self.find(name).is_some() {
            return Ok(false);
        }
        self.entries.insert(name, entry)?;
        Ok(true)
    }

    pub fn find_sort(&self, name: &[u8], sort: Sort) -> Option<Entry>
        ensures { result ≡ find_sort (scope_in self.now) name.now sort }
    {
        let entry = self.find(name)?;
        if is_same_sort(entry.sort, sort) {
            Some(entry)
        } else {
            None
        }
    }

    /// What a name stands for among the inputs, registers and wires.
    pub fn named(&self, name: &[u8]) -> Option<Meaning>
        ensures { result ≡ named (scope_in self.now) name.now }
    {
        let entry = self.find(name)?;
        let atom = match entry.sort {
            Sort::Input => Atom::Input(entry.number),
            Sort::Register => Atom::Reg(entry.number),
            Sort::Wire => Atom::Wire(entry.number),
            Sort::Output | Sort::Memory => return None,
        };
        Some(Meaning {
            atom,
            bits: entry.bits,
        })
    }

    pub fn meaning(&self, value: Value) -> Option<Meaning>
        ensures { result ≡ meaning (scope_in self.now) (value_view value.entry) }
    {
        match value {
            Value::Named(name) => self.named(name),
            Value::Fixed { bits, digits } => Some(Meaning {
                atom: Atom::Constant {
                    bits,
                    value: constant_value(digits).unwrap_or(u128::MAX),
                },
                bits,
            }),
        }
    }

    /// The atom of an operand, or a constant where its name stands for none.
    pub fn atom(&self, value: Value) -> Atom
        ensures { result ≡ atom_in (scope_in self.now) (value_view value.entry) }
    {
        match self.meaning(value) {
            Some(meaning) => meaning.atom,
            None => Atom::Constant { bits: 1, value: 0 },
        }
    }
}
