ghost use Rattle.std.specs.Prelude.{◌≡◌, ◌++◌, [], is_some, map, IfOk};
ghost use Rattle.verilog_syntax.specs.ModuleViews.{operand_view, value_view, net_view, name_view, wire_view, assign_view, write_view, drive_view, declared_view, memory_view, module_view};
ghost use Rattle.rtl_core.specs.ModuleSyntax.{Named};
ghost use Rattle.verilog_read.specs.NameTable.{scope_in};
ghost use Rattle.verilog_read.specs.AddressSets.{addresses_in};
ghost use Rattle.verilog_read.specs.Earliest.{noted};
ghost use Rattle.verilog_read.specs.Faults.{known_faults, bits_faults, atom_before, is_before, wire_faults_one, source_faults, memory_faults, net_faults, wire_faults, is_free, slot, free_slots, filled, filled_by, target_faults, output_of, assign_faults, after_assigns, depth_faults, memory_of, port_faults, write_faults, begin_faults, register_of, drive_faults_one, after_drive, drive_faults, after_drives, never_faults, declared_names, memory_names, slot_faults, assignment_faults, output_slots, driven};

use crate::drives::check_drives;
use crate::fault::FirstFault;
use crate::names::{Entry, Names, Sort};
use crate::number::bits_of;
use crate::widths::{Addresses, may_have, net_fits};
use rtl_core::design::Atom;
use std::alloc::{AllocError, Global};
use verilog_syntax::module::{
    Assign, Declared, DeclaredMemory, DeclaredWire, Drive, Expression, Module, Name, Operand,
    Value, Write,
};

pub fn check_operand(names: &Names, operand: Operand, first: &mut FirstFault)
    ensures { first.new.found ≡ noted first.old.found (known_faults (scope_in names.now) (operand_view operand.entry)) }
{
    first.require(names.meaning(operand.value).is_some(), 52, operand.place);
}

/// An operand that has so many bits.
pub fn check_bits(names: &Names, operand: Operand, bits: u8, first: &mut FirstFault)
    ensures { first.new.found ≡ noted first.old.found (bits_faults (scope_in names.now) (operand_view operand.entry) bits) }
{
    check_operand(names, operand, first);
    first.require(may_have(names, operand, bits), 53, operand.place);
}

fn is_atom_before(atom: Atom, wire: u64) -> bool
    ensures { result ≡ atom_before wire atom }
{
    match atom {
        Atom::Wire(k) => k < wire,
        _ => true,
    }
}

/// Whether what the operand stands for stands before this wire.
fn is_before(names: &Names, value: Value, wire: u64) -> bool
    ensures { result ≡ is_before (scope_in names.now) (value_view value.entry) wire }
{
    match names.meaning(value) {
        Some(meaning) => is_atom_before(meaning.atom, wire),
        None => true,
    }
}

/// An operand in the net of this wire.
fn check_source(names: &Names, operand: Operand, wire: u64, first: &mut FirstFault)
    ensures { first.new.found ≡ noted first.old.found (source_faults (scope_in names.now) wire (operand_view operand.entry)) }
{
    check_operand(names, operand, first);
    first.require(is_before(names, operand.value, wire), 55, operand.place);
}

fn check_memory(names: &Names, name: Name, first: &mut FirstFault)
    ensures { first.new.found ≡ noted first.old.found (memory_faults (scope_in names.now) (name_view name.entry)) }
{
    first.require(
        names.find_sort(name.text, Sort::Memory).is_some(),
        52,
        name.place,
    );
}

fn check_two(names: &Names, a: Operand, b: Operand, wire: u64, first: &mut FirstFault)
    ensures { first.new.found ≡ noted first.old.found (source_faults (scope_in names.now) wire (operand_view a.entry) ++ source_faults (scope_in names.now) wire (operand_view b.entry)) }
{
    check_source(names, a, wire, first);
    check_source(names, b, wire, first);
}

fn check_word(names: &Names, memory: Name, a: Operand, wire: u64, first: &mut FirstFault)
    ensures { first.new.found ≡ noted first.old.found (memory_faults (scope_in names.now) (name_view memory.entry) ++ source_faults (scope_in names.now) wire (operand_view a.entry)) }
{
    check_memory(names, memory, first);
    check_source(names, a, wire, first);
}

fn check_three(names: &Names, a: Operand, b: Operand, c: Operand, wire: u64, first: &mut FirstFault)
    ensures { first.new.found ≡ noted first.old.found (source_faults (scope_in names.now) wire (operand_view a.entry) ++ (source_faults (scope_in names.now) wire (operand_view b.entry) ++ source_faults (scope_in names.now) wire (operand_view c.entry))) }
{
    check_source(names, a, wire, first);
    check_two(names, b, c, wire, first);
}

/// The operand that a name is.
fn named<'a>(name: Name<'a>) -> Operand<'a>
    ensures { operand_view result ≡ record { operand = Named (name_view name.entry).text; place = (name_view name.entry).place } }
{
    Operand {
        value: Value::Named(name.text),
        place: name.place,
    }
}

fn check_names(names: &Names, net: Expression, wire: u64, first: &mut FirstFault)
    ensures { first.new.found ≡ noted first.old.found (net_faults (scope_in names.now) wire (net_view net.entry)) }
{
    match net {
        Expression::Alone(a) => check_source(names, a, wire, first),
        Expression::Inverted(a) => check_source(names, a, wire, first),
        Expression::Between(_, a, b) => check_two(names, a, b, wire, first),
        Expression::Joined(a, b) => check_two(names, a, b, wire, first),
        Expression::Chosen(a, b, c) => check_three(names, a, b, c, wire, first),
        Expression::Slice(name, _, _) => check_source(names, named(name), wire, first),
        Expression::WordOf(memory, a) => check_word(names, memory, a, wire, first),
    }
}

fn check_wire(
    names: &Names,
    addresses: &Addresses,
    x: DeclaredWire,
    wire: u64,
    first: &mut FirstFault,
)
    ensures { first.new.found ≡ noted first.old.found (wire_faults_one (scope_in names.now) (addresses_in addresses.now) wire (wire_view x.entry)) }
{
    check_names(names, x.net, wire, first);
    first.require(
        net_fits(names, addresses, bits_of(x.high), x.net),
        53,
        x.place,
    );
}

pub fn check_wires(
    names: &Names,
    addresses: &Addresses,
    wires: &[DeclaredWire],
    first: &mut FirstFault,
)
    ensures { first.new.found ≡ noted first.old.found (wire_faults (scope_in names.now) (addresses_in addresses.now) 0 (map wire_view wires.now)) }
{
    for i in 0..wires.len() {
        check_wire(names, addresses, wires[i], i as u64, first);
    }
}

/// Whether nothing has assigned the one of this number.
pub fn is_free(slots: &[Option<usize>], k: u64) -> bool
    ensures { result ≡ is_free slots.now k }
{
    k >= slots.len() as u64 || slots[k as usize].is_none()
}

/// Notes the first that assigns the one of this number.
fn fill(slots: &mut [Option<usize>], k: u64, by: usize)
    ensures { slots.new ≡ filled slots.old k by }
{
    if k < slots.len() as u64 && slots[k as usize].is_none() {
        slots[k as usize] = Some(by);
    }
}

pub fn fill_by(slots: &mut [Option<usize>], target: Option<Entry>, by: usize)
    ensures { slots.new ≡ filled_by slots.old target by }
{
    if let Some(entry) = target {
        fill(slots, entry.number, by);
    }
}

/// A target that this operand is assigned to.
pub fn check_target(
    names: &Names,
    slots: &[Option<usize>],
    name: Name,
    operand: Operand,
    target: Option<Entry>,
    first: &mut FirstFault,
)
    ensures { first.new.found ≡ noted first.old.found (target_faults (scope_in names.now) slots.now (name_view name.entry) (operand_view operand.entry) target) }
{
    match target {
        Some(entry) => {
            first.require(may_have(names, operand, entry.bits), 53, operand.place);
            first.require(is_free(slots, entry.number), 54, name.place);
        }
        None => first.require(false, 52, name.place),
    }
}

fn check_assign(
    names: &Names,
    x: Assign,
    by: usize,
    outputs: &mut [Option<usize>],
    first: &mut FirstFault,
)
    ensures faults { let scope = scope_in names.now in let a = assign_view x.entry in first.new.found ≡ noted first.old.found (known_faults scope a.from ++ target_faults scope outputs.old a.name a.from (output_of scope a)) }
    ensures slots { outputs.new ≡ filled_by outputs.old (output_of (scope_in names.now) (assign_view x.entry)) by }
{
    check_operand(names, x.from, first);
    let target = names.find_sort(x.name.text, Sort::Output);
    check_target(names, outputs, x.name, x.from, target, first);
    fill_by(outputs, target, by);
}

pub fn check_assigns(
    names: &Names,
    assigns: &[Assign],
    outputs: &mut [Option<usize>],
    first: &mut FirstFault,
)
    ensures faults { first.new.found ≡ noted first.old.found (assign_faults (scope_in names.now) outputs.old 0 (map assign_view assigns.now)) }
    ensures slots { outputs.new ≡ after_assigns (scope_in names.now) outputs.old 0 (map assign_view assigns.now) }
{
    for i in 0..assigns.len() {
        check_assign(names, assigns[i], i, outputs, first);
    }
}

fn is_assigned(slots: &[Option<usize>], k: usize) -> bool
    ensures { result ≡ is_some (slot slots.now k) }
{
    k < slots.len() && slots[k].is_some()
}

/// Each of the declared outputs or registers is assigned.
fn check_never(slots: &[Option<usize>], declared: &[Declared], first: &mut FirstFault)
    ensures { first.new.found ≡ noted first.old.found (never_faults slots.now 0 (declared_names (map declared_view declared.now))) }
{
    for i in 0..declared.len() {
        first.require(is_assigned(slots, i), 54, declared[i].name.place);
    }
}

/// Each of the memories has a port.
fn check_never_written(slots: &[Option<usize>], memories: &[DeclaredMemory], first: &mut FirstFault)
    ensures { first.new.found ≡ noted first.old.found (never_faults slots.now 0 (memory_names (map memory_view memories.now))) }
{
    for i in 0..memories.len() {
        first.require(is_assigned(slots, i), 54, memories[i].name.place);
    }
}

/// So many, none of which is assigned.
fn empty_slots(alloc: Global, count: usize) -> Result<Vec<Option<usize>>, AllocError>
    ensures { IfOk result (λ slots. slots.items ≡ free_slots count) }
{
    let mut slots = Vec::new(alloc);
    let mut made = 0;
    while made < count {
        slots.push(None)?;
        made += 1;
    }
    Ok(slots)
}

/// By which assignment each output and each register is assigned, and with which edge each memory's block begins.
#[derive(Drop)]
pub struct Assigned {
    pub outputs: Vec<Option<usize>>,
    pub regs: Vec<Option<usize>>,
    pub blocks: Vec<Option<usize>>,
}

fn check_module_assigns(
    names: &Names,
    module: &Module,
    outputs: &mut [Option<usize>],
    first: &mut FirstFault,
)
    ensures faults { first.new.found ≡ noted first.old.found (assign_faults (scope_in names.now) outputs.old 0 (module_view module.now).assigns) }
    ensures slots { outputs.new ≡ after_assigns (scope_in names.now) outputs.old 0 (module_view module.now).assigns }
{
    check_assigns(names, &module.assigns, outputs, first);
}

fn check_module_drives(
    names: &Names,
    module: &Module,
    regs: &mut [Option<usize>],
    ports: &mut [Option<usize>],
    blocks: &mut [Option<usize>],
    first: &mut FirstFault,
)
    ensures faults { first.new.found ≡ noted first.old.found (drive_faults (scope_in names.now) (record { regs = regs.old; ports = ports.old; blocks = blocks.old; block = [] }) 0 (module_view module.now).drives) }
    ensures regs { regs.new ≡ (after_drives (scope_in names.now) (record { regs = regs.old; ports = ports.old; blocks = blocks.old; block = [] }) 0 (module_view module.now).drives).regs }
    ensures ports { ports.new ≡ (after_drives (scope_in names.now) (record { regs = regs.old; ports = ports.old; blocks = blocks.old; block = [] }) 0 (module_view module.now).drives).ports }
    ensures blocks { blocks.new ≡ (after_drives (scope_in names.now) (record { regs = regs.old; ports = ports.old; blocks = blocks.old; block = [] }) 0 (module_view module.now).drives).blocks }
{
    check_drives(names, &module.drives, regs, ports, blocks, first);
}

fn check_all_assigned(
    module: &Module,
    outputs: &[Option<usize>],
    regs: &[Option<usize>],
    ports: &[Option<usize>],
    first: &mut FirstFault,
)
    ensures { let m = module_view module.now in first.new.found ≡ noted first.old.found (never_faults outputs.now 0 (declared_names m.outputs) ++ (never_faults regs.now 0 (declared_names m.regs) ++ never_faults ports.now 0 (memory_names m.mems))) }
{
    check_never(outputs, &module.outputs, first);
    check_never(regs, &module.regs, first);
    check_never_written(ports, &module.mems, first);
}

fn check_slots(
    names: &Names,
    module: &Module,
    outputs: &mut [Option<usize>],
    regs: &mut [Option<usize>],
    ports: &mut [Option<usize>],
    blocks: &mut [Option<usize>],
    first: &mut FirstFault,
)
    ensures faults { first.new.found ≡ noted first.old.found (slot_faults (scope_in names.now) (module_view module.now) outputs.old (record { regs = regs.old; ports = ports.old; blocks = blocks.old; block = [] })) }
    ensures outputs { outputs.new ≡ after_assigns (scope_in names.now) outputs.old 0 (module_view module.now).assigns }
    ensures regs { regs.new ≡ (after_drives (scope_in names.now) (record { regs = regs.old; ports = ports.old; blocks = blocks.old; block = [] }) 0 (module_view module.now).drives).regs }
    ensures blocks { blocks.new ≡ (after_drives (scope_in names.now) (record { regs = regs.old; ports = ports.old; blocks = blocks.old; block = [] }) 0 (module_view module.now).drives).blocks }
{
    check_module_assigns(names, module, outputs, first);
    check_module_drives(names, module, regs, ports, blocks, first);
    check_all_assigned(module, outputs, regs, ports, first);
}

pub fn check_assignments(
    alloc: Global,
    names: &Names,
    module: &Module,
    first: &mut FirstFault,
) -> Result<Assigned, AllocError>
    ensures faults { IfOk result (λ a. first.new.found ≡ noted first.old.found (assignment_faults (scope_in names.now) (module_view module.now))) }
    ensures outputs { IfOk result (λ a. a.outputs.items ≡ output_slots (scope_in names.now) (module_view module.now)) }
    ensures regs { IfOk result (λ a. a.regs.items ≡ (driven (scope_in names.now) (module_view module.now)).regs) }
    ensures blocks { IfOk result (λ a. a.blocks.items ≡ (driven (scope_in names.now) (module_view module.now)).blocks) }
{
    let mut outputs = empty_slots(alloc, module.outputs.len())?;
    let mut regs = empty_slots(alloc, module.regs.len())?;
    let mut ports = empty_slots(alloc, module.mems.len())?;
    let mut blocks = empty_slots(alloc, module.mems.len())?;
    check_slots(
        names,
        module,
        &mut outputs,
        &mut regs,
        &mut ports,
        &mut blocks,
        first,
    );
    Ok(Assigned {
        outputs,
        regs,
        blocks,
    })
}
