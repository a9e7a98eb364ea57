//! What happens at an edge: registers are set, and ports write.
ghost use Rattle.std.specs.Prelude.{◌≡◌, ℕ, List, [], Option, ◌++◌, map, bytes_eq};
ghost use Rattle.verilog_syntax.specs.ModuleViews.{operand_view, name_view, write_view, drive_view};
ghost use Rattle.verilog_read.specs.NameTable.{scope_in};
ghost use Rattle.verilog_read.specs.Earliest.{noted};
ghost use Rattle.verilog_read.specs.Faults.{bits_faults, known_faults, target_faults, filled_by, depth_faults, memory_of, port_faults, write_faults, begin_faults, register_of, unless, drive_faults, after_drives, drive_faults_one, after_drive};

use crate::checks::{check_bits, check_operand, check_target, fill_by, is_free};
use crate::fault::FirstFault;
use crate::names::{Entry, Names, Sort};
use crate::widths::may_have;
use verilog_syntax::module::{Drive, Name, Operand, Write};

fn check_depth(names: &Names, address: Operand, depth: Option<u8>, first: &mut FirstFault)
    ensures { first.new.found ≡ noted first.old.found (depth_faults (scope_in names.now) (operand_view address.entry) depth) }
{
    if let Some(k) = depth {
        first.require(may_have(names, address, k), 53, address.place);
    }
}

fn check_port(names: &Names, x: Write, memory: Option<Entry>, first: &mut FirstFault)
    ensures { first.new.found ≡ noted first.old.found (port_faults (scope_in names.now) (write_view x.entry) memory) }
{
    match memory {
        Some(entry) => {
            check_depth(names, x.address, entry.depth, first);
            first.require(may_have(names, x.value, entry.bits), 53, x.value.place);
        }
        None => first.require(false, 52, x.memory.place),
    }
}

fn check_operands(names: &Names, x: Write, first: &mut FirstFault)
    ensures { let scope = scope_in names.now in let w = write_view x.entry in
        first.new.found ≡ noted first.old.found (bits_faults scope w.enable 1 ++ (known_faults scope w.address ++ known_faults scope w.value)) }
{
    check_bits(names, x.enable, 1, first);
    check_operand(names, x.address, first);
    check_operand(names, x.value, first);
}

fn check_write(names: &Names, x: Write, memory: Option<Entry>, first: &mut FirstFault)
    ensures { let scope = scope_in names.now in let w = write_view x.entry in
        first.new.found ≡ noted first.old.found ((bits_faults scope w.enable 1 ++ (known_faults scope w.address ++ known_faults scope w.value)) ++ port_faults scope w memory) }
{
    check_operands(names, x, first);
    check_port(names, x, memory, first);
}

fn check_begin(blocks: &[Option<usize>], name: Name, memory: Option<Entry>, first: &mut FirstFault)
    ensures { first.new.found ≡ noted first.old.found (begin_faults blocks.now (name_view name.entry) memory) }
{
    if let Some(entry) = memory {
        first.require(is_free(blocks, entry.number), 54, name.place);
    }
}

fn check_register(
    names: &Names,
    enable: Operand,
    name: Name,
    next: Operand,
    regs: &[Option<usize>],
    first: &mut FirstFault,
)
    ensures { let scope = scope_in names.now in
        first.new.found ≡ noted first.old.found (bits_faults scope (operand_view enable.entry) 1 ++ (known_faults scope (operand_view next.entry) ++ target_faults scope regs.now (name_view name.entry) (operand_view next.entry) (register_of scope (name_view name.entry)))) }
{
    check_bits(names, enable, 1, first);
    check_operand(names, next, first);
    let target = names.find_sort(name.text, Sort::Register);
    check_target(names, regs, name, next, target, first);
}

fn check_first(names: &Names, x: Write, blocks: &[Option<usize>], first: &mut FirstFault)
    ensures { let scope = scope_in names.now in let w = write_view x.entry in
        first.new.found ≡ noted first.old.found (write_faults scope w ++ begin_faults blocks.now w.memory (memory_of scope w.memory)) }
{
    let memory = names.find_sort(x.memory.text, Sort::Memory);
    check_write(names, x, memory, first);
    check_begin(blocks, x.memory, memory, first);
}

fn check_further(names: &Names, x: Write, block: &[u8], first: &mut FirstFault)
    ensures { let scope = scope_in names.now in let w = write_view x.entry in
        first.new.found ≡ noted first.old.found (write_faults scope w ++ unless (bytes_eq w.memory.text block.now) 54 w.memory.place) }
{
    let memory = names.find_sort(x.memory.text, Sort::Memory);
    check_write(names, x, memory, first);
    first.require(x.memory.text == block, 54, x.memory.place);
}

fn check_drive(
    names: &Names,
    drive: Drive,
    regs: &[Option<usize>],
    blocks: &[Option<usize>],
    block: &[u8],
    first: &mut FirstFault,
)
    ensures { (ports : List (Option ℕ)) → first.new.found ≡ noted first.old.found (drive_faults_one (scope_in names.now) (record { regs = regs.now; ports = ports; blocks = blocks.now; block = block.now }) (drive_view drive.entry)) }
{
    match drive {
        Drive::Register { enable, name, next } => {
            check_register(names, enable, name, next, regs, first)
        }
        Drive::First(x) => check_first(names, x, blocks, first),
        Drive::Further(x) => check_further(names, x, block, first),
    }
}

/// Notes what an edge assigns. The name of the memory whose block is open behind it is answered.
fn note_drive<'a>(
    names: &Names,
    drive: Drive<'a>,
    by: usize,
    regs: &mut [Option<usize>],
    ports: &mut [Option<usize>],
    blocks: &mut [Option<usize>],
    block: &'a [u8],
) -> &'a [u8]
    ensures { record { regs = regs.new; ports = ports.new; blocks = blocks.new; block = result.now } ≡ after_drive (scope_in names.now) (record { regs = regs.old; ports = ports.old; blocks = blocks.old; block = block.now }) by (drive_view drive.entry) }
{
    match drive {
        Drive::Register { name, .. } => {
            fill_by(regs, names.find_sort(name.text, Sort::Register), by);
            block
        }
        Drive::First(x) => {
            let memory = names.find_sort(x.memory.text, Sort::Memory);
            fill_by(ports, memory, by);
            fill_by(blocks, memory, by);
            x.memory.text
        }
        Drive::Further(x) => {
            fill_by(ports, names.find_sort(x.memory.text, Sort::Memory), by);
            block
        }
    }
}

pub fn check_drives(
    names: &Names,
    drives: &[Drive],
    regs: &mut [Option<usize>],
    ports: &mut [Option<usize>],
    blocks: &mut [Option<usize>],
    first: &mut FirstFault,
)
    ensures faults { first.new.found ≡ noted first.old.found (drive_faults (scope_in names.now) (record { regs = regs.old; ports = ports.old; blocks = blocks.old; block = [] }) 0 (map drive_view drives.now)) }
    ensures regs { regs.new ≡ (after_drives (scope_in names.now) (record { regs = regs.old; ports = ports.old; blocks = blocks.old; block = [] }) 0 (map drive_view drives.now)).regs }
    ensures ports { ports.new ≡ (after_drives (scope_in names.now) (record { regs = regs.old; ports = ports.old; blocks = blocks.old; block = [] }) 0 (map drive_view drives.now)).ports }
    ensures blocks { blocks.new ≡ (after_drives (scope_in names.now) (record { regs = regs.old; ports = ports.old; blocks = blocks.old; block = [] }) 0 (map drive_view drives.now)).blocks }
{
    let mut block: &[u8] = b"";
    for i in 0..drives.len() {
        let drive = drives[i];
        check_drive(names, drive, regs, blocks, block, first);
        block = note_drive(names, drive, i, regs, ports, blocks, block);
    }
}
