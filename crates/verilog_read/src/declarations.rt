ghost use Rattle.std.specs.Prelude.{◌≡◌, List, ℕ, ◌++◌, map, drop, IfOk, OnOk};
ghost use Rattle.verilog_syntax.specs.ModuleViews.{declared_view, memory_view, wire_view, name_view, module_view};
ghost use Rattle.verilog_read.specs.NameTable.{scope_in};
ghost use Rattle.verilog_read.specs.Scope.{declared_from, memories_from, wires_from, declarations, first_of};
ghost use Rattle.verilog_read.specs.Earliest.{noted};
ghost use Rattle.verilog_read.specs.Faults.{allowed, declared_faults, no_scope, is_turn, turn_faults, lacking_faults, header_faults};
ghost use Rattle.verilog_read.specs.DeclarationViews.{declaration_view, declaration_views};

use crate::fault::FirstFault;
use crate::names::{Entry, Names, Sort};
use crate::number::{bits_of, depth_of};
use std::alloc::{AllocError, Global};
use verilog_syntax::module::{Declared, DeclaredMemory, DeclaredWire, Module, Name};

#[derive(Clone, Copy)]
pub struct Declaration<'a> {
    pub name: Name<'a>,
    pub entry: Entry,
}

fn add_declared<'a>(
    all: &mut Vec<Declaration<'a>>,
    sort: Sort,
    declared: &[Declared<'a>],
) -> Result<(), AllocError>
    ensures { OnOk result (declaration_views all.new.items ≡ declaration_views all.old.items ++ declared_from sort 0 (map declared_view declared.now)) }
{
    for i in 0..declared.len() {
        let x = declared[i];
        let entry = Entry {
            sort,
            number: i as u64,
            bits: bits_of(x.high),
            depth: None,
        };
        all.push(Declaration {
            name: x.name,
            entry,
        })?;
    }
    Ok(())
}

fn add_memories<'a>(
    all: &mut Vec<Declaration<'a>>,
    declared: &[DeclaredMemory<'a>],
) -> Result<(), AllocError>
    ensures { OnOk result (declaration_views all.new.items ≡ declaration_views all.old.items ++ memories_from 0 (map memory_view declared.now)) }
{
    for i in 0..declared.len() {
        let x = declared[i];
        let entry = Entry {
            sort: Sort::Memory,
            number: i as u64,
            bits: bits_of(x.high),
            depth: depth_of(x.last),
        };
        all.push(Declaration {
            name: x.name,
            entry,
        })?;
    }
    Ok(())
}

fn add_wires<'a>(
    all: &mut Vec<Declaration<'a>>,
    declared: &[DeclaredWire<'a>],
) -> Result<(), AllocError>
    ensures { OnOk result (declaration_views all.new.items ≡ declaration_views all.old.items ++ wires_from 0 (map wire_view declared.now)) }
{
    for i in 0..declared.len() {
        let x = declared[i];
        let entry = Entry {
            sort: Sort::Wire,
            number: i as u64,
            bits: bits_of(x.high),
            depth: None,
        };
        all.push(Declaration {
            name: x.name,
            entry,
        })?;
    }
    Ok(())
}

/// All declarations of a module, in order.
pub fn declarations<'a>(
    alloc: Global,
    module: &Module<'a>,
) -> Result<Vec<Declaration<'a>>, AllocError>
    ensures { IfOk result (λ all. declaration_views all.items ≡ declarations (module_view module.now)) }
{
    let mut all = Vec::new(alloc);
    add_declared(&mut all, Sort::Input, &module.inputs)?;
    add_declared(&mut all, Sort::Output, &module.outputs)?;
    add_declared(&mut all, Sort::Register, &module.regs)?;
    add_memories(&mut all, &module.mems)?;
    add_wires(&mut all, &module.wires)?;
    Ok(all)
}

/// Whether the width is one that its sort allows, and a memory's depth too.
fn is_allowed(entry: Entry) -> bool
    ensures { result ≡ allowed entry.sort entry.bits entry.depth }
{
    match entry.sort {
        Sort::Wire => 1 <= entry.bits && entry.bits <= 128,
        Sort::Memory => 1 <= entry.bits && entry.bits <= 64 && entry.depth.is_some(),
        _ => 1 <= entry.bits && entry.bits <= 64,
    }
}

/// What the names stand for. A name that is declared again is a fault, and so are a width and a depth that are not allowed.
pub fn names_of<'a>(
    alloc: Global,
    all: &[Declaration<'a>],
    first: &mut FirstFault,
) -> Result<Names<'a>, AllocError>
    ensures scope { IfOk result (λ names. (q : List ℕ) → scope_in names q ≡ first_of (declaration_views all.now) q) }
    ensures faults { IfOk result (λ names. first.new.found ≡ noted first.old.found (declared_faults no_scope (declaration_views all.now))) }
{
    let mut names = Names::new(alloc);
    for declaration in all {
        let name = declaration.name;
        let is_new = names.declare(name.text, declaration.entry)?;
        first.require(is_new, 52, name.place);
        first.require(is_allowed(declaration.entry), 53, name.place);
    }
    Ok(names)
}

/// Whether the name is that of the pin of this number.
fn is_turn(pins: &[Declaration], i: usize, name: &[u8]) -> bool
    ensures { result ≡ is_turn (map declaration_view (drop i pins.now)) name.now }
{
    i < pins.len() && pins[i].name.text == name
}

/// The header has the names of these pins in their order.
fn check_turns(header: &[Name], pins: &[Declaration], first: &mut FirstFault)
    ensures { first.new.found ≡ noted first.old.found (turn_faults (map name_view header.now) (declaration_views pins.now)) }
{
    for i in 0..header.len() {
        let name = header[i];
        first.require(is_turn(pins, i, name.text), 52, name.place);
    }
}

fn check_lacking(header: &[Name], pins: &[Declaration], first: &mut FirstFault)
    ensures { first.new.found ≡ noted first.old.found (lacking_faults (map name_view header.now) (declaration_views pins.now)) }
{
    for i in 0..pins.len() {
        first.require(i < header.len(), 52, pins[i].name.place);
    }
}

pub fn check_header(header: &[Name], pins: &[Declaration], first: &mut FirstFault)
    ensures { first.new.found ≡ noted first.old.found (header_faults (map name_view header.now) (declaration_views pins.now)) }
{
    check_turns(header, pins, first);
    check_lacking(header, pins, first);
}
