ghost use Rattle.std.specs.Prelude.{◌≡◌, List, map, min, drop, IfOk};
ghost use Rattle.rtl_core.specs.Netlist.{netlist_of, memory_of as netlist_memory};
ghost use Rattle.rtl_core.specs.declared.design.Port.{Port};
ghost use Rattle.verilog_syntax.specs.ModuleViews.{net_view, name_view, value_view, declared_view, memory_view, wire_view, assign_view, write_view, drive_view, module_view};
ghost use Rattle.verilog_read.specs.NameTable.{scope_in};
ghost use Rattle.verilog_read.specs.Numbers.{declared_bits};
ghost use Rattle.verilog_read.specs.Scope.{atom_in};
ghost use Rattle.verilog_read.specs.Faults.{slot};
ghost use Rattle.verilog_read.specs.Circuit.{nothing, small, memory_number, net_of, wire_of, input_of, source, outputs_from, register_from, register_by, regs_from, port_of, further_ports, block_ports, first_port, further_port, ports_by, mems_from, circuit_with};

use crate::checks::Assigned;
use crate::names::{Names, Sort};
use crate::number::{bits_of, depth_of};
use hls_base::text::Text;
use rtl_core::design::{Atom, Design, Mem, Net, OutPin, Pin, Port, Reg, Wire};
use std::alloc::{AllocError, Global};
use verilog_syntax::module::{
    Assign, Declared, DeclaredMemory, DeclaredWire, Drive, Expression, Module, Name, Operand,
    Value, Write,
};
use verilog_syntax::number::number_value;

/// What stands where nothing is assigned.
const NOTHING: Atom = Atom::Constant { bits: 1, value: 0 };

fn memory_number(names: &Names, memory: Name) -> u32
    ensures { result ≡ memory_number (scope_in names.now) (name_view memory.entry) }
{
    match names.find_sort(memory.text, Sort::Memory) {
        Some(entry) => entry.number.min(0xffff_ffff) as u32,
        None => 0,
    }
}

fn small(digits: &[u8]) -> u8
    ensures { result ≡ small digits.now }
{
    number_value(digits).min(255) as u8
}

fn net_of(names: &Names, net: Expression) -> Net
    ensures { result ≡ net_of (scope_in names.now) (net_view net.entry) }
{
    match net {
        Expression::Alone(a) => Net::Copy(names.atom(a.value)),
        Expression::Inverted(a) => Net::Not(names.atom(a.value)),
        Expression::Between(op, a, b) => Net::Two(op, names.atom(a.value), names.atom(b.value)),
        Expression::Chosen(a, b, c) => Net::Pick(
            names.atom(a.value),
            names.atom(b.value),
            names.atom(c.value),
        ),
        Expression::Joined(a, b) => Net::Join(names.atom(a.value), names.atom(b.value)),
        Expression::Slice(name, high, low) => Net::Part {
            of: names.atom(Value::Named(name.text)),
            high: small(high),
            low: small(low),
        },
        Expression::WordOf(memory, a) => Net::Word {
            mem: memory_number(names, memory),
            addr: names.atom(a.value),
        },
    }
}

fn inputs_of(alloc: Global, inputs: &[Declared]) -> Result<Vec<Pin>, AllocError>
    ensures { IfOk result (λ pins. pins.items ≡ map input_of (map declared_view inputs.now)) }
{
    let mut pins = Vec::new(alloc);
    for x in inputs {
        pins.push(Pin {
            name: Text::from_slice(alloc, x.name.text)?,
            bits: bits_of(x.high),
        })?;
    }
    Ok(pins)
}

fn slot(slots: &[Option<usize>], k: usize) -> Option<usize>
    ensures { result ≡ slot slots.now k }
{
    if k < slots.len() { slots[k] } else { None }
}

fn source(names: &Names, assigns: &[Assign], by: Option<usize>) -> Atom
    ensures { result ≡ source (scope_in names.now) (map assign_view assigns.now) by }
{
    match by {
        Some(i) if i < assigns.len() => names.atom(assigns[i].from.value),
        _ => NOTHING,
    }
}

fn outputs_of(
    alloc: Global,
    names: &Names,
    outputs: &[Declared],
    assigns: &[Assign],
    slots: &[Option<usize>],
) -> Result<Vec<OutPin>, AllocError>
    ensures { IfOk result (λ pins. pins.items ≡ outputs_from (scope_in names.now) (map assign_view assigns.now) slots.now 0 (map declared_view outputs.now)) }
{
    let mut pins = Vec::new(alloc);
    for i in 0..outputs.len() {
        let x = outputs[i];
        pins.push(OutPin {
            name: Text::from_slice(alloc, x.name.text)?,
            bits: bits_of(x.high),
            from: source(names, assigns, slot(slots, i)),
        })?;
    }
    Ok(pins)
}

fn register_from(names: &Names, bits: u8, drive: Drive) -> Reg
    ensures { result ≡ register_from (scope_in names.now) bits (drive_view drive.entry) }
{
    match drive {
        Drive::Register { enable, next, .. } => Reg {
            bits,
            enable: names.atom(enable.value),
            next: names.atom(next.value),
        },
        Drive::First(_) | Drive::Further(_) => Reg {
            bits,
            enable: NOTHING,
            next: NOTHING,
        },
    }
}

fn register_by(names: &Names, drives: &[Drive], bits: u8, by: Option<usize>) -> Reg
    ensures { result ≡ register_by (scope_in names.now) (map drive_view drives.now) bits by }
{
    match by {
        Some(i) if i < drives.len() => register_from(names, bits, drives[i]),
        _ => Reg {
            bits,
            enable: NOTHING,
            next: NOTHING,
        },
    }
}

fn regs_of(
    alloc: Global,
    names: &Names,
    regs: &[Declared],
    drives: &[Drive],
    slots: &[Option<usize>],
) -> Result<Vec<Reg>, AllocError>
    ensures { IfOk result (λ all. all.items ≡ regs_from (scope_in names.now) (map drive_view drives.now) slots.now 0 (map declared_view regs.now)) }
{
    let mut all = Vec::new(alloc);
    for i in 0..regs.len() {
        let x = regs[i];
        all.push(register_by(names, drives, bits_of(x.high), slot(slots, i)))?;
    }
    Ok(all)
}

fn port_of(names: &Names, x: Write) -> Port
    ensures { result ≡ port_of (scope_in names.now) (write_view x.entry) }
{
    Port {
        addr: names.atom(x.address.value),
        enable: names.atom(x.enable.value),
        value: names.atom(x.value.value),
    }
}

fn first_port(names: &Names, drive: Drive) -> Option<Port>
    ensures { result ≡ first_port (scope_in names.now) (drive_view drive.entry) }
{
    match drive {
        Drive::First(x) => Some(port_of(names, x)),
        _ => None,
    }
}

fn further_port(names: &Names, drive: Drive) -> Option<Port>
    ensures { result ≡ further_port (scope_in names.now) (drive_view drive.entry) }
{
    match drive {
        Drive::Further(x) => Some(port_of(names, x)),
        _ => None,
    }
}

/// The ports of the block that begins with the edge of this number.
fn block_ports(
    alloc: Global,
    names: &Names,
    drives: &[Drive],
    start: usize,
) -> Result<Vec<Port>, AllocError>
    ensures { IfOk result (λ ports. ports.items ≡ block_ports (scope_in names.now) (drop start (map drive_view drives.now))) }
{
    let mut ports = Vec::new(alloc);
    if start >= drives.len() {
        return Ok(ports);
    }
    match first_port(names, drives[start]) {
        Some(port) => ports.push(port)?,
        None => return Ok(ports),
    }
    let mut i = start + 1;
    while i < drives.len() {
        match further_port(names, drives[i]) {
            Some(port) => ports.push(port)?,
            None => return Ok(ports),
        }
        i += 1;
    }
    Ok(ports)
}

fn ports_by(
    alloc: Global,
    names: &Names,
    drives: &[Drive],
    by: Option<usize>,
) -> Result<Vec<Port>, AllocError>
    ensures { IfOk result (λ ports. ports.items ≡ ports_by (scope_in names.now) (map drive_view drives.now) by) }
{
    match by {
        Some(i) => block_ports(alloc, names, drives, i),
        None => Ok(Vec::new(alloc)),
    }
}

fn mems_of(
    alloc: Global,
    names: &Names,
    mems: &[DeclaredMemory],
    drives: &[Drive],
    slots: &[Option<usize>],
) -> Result<Vec<Mem>, AllocError>
    ensures { IfOk result (λ all. map netlist_memory all.items ≡ mems_from (scope_in names.now) (map drive_view drives.now) slots.now 0 (map memory_view mems.now)) }
{
    let mut all = Vec::new(alloc);
    for i in 0..mems.len() {
        let x = mems[i];
        all.push(Mem {
            bits: bits_of(x.high),
            depth_log: depth_of(x.last).unwrap_or(0),
            ports: ports_by(alloc, names, drives, slot(slots, i))?,
        })?;
    }
    Ok(all)
}

fn wires_of(alloc: Global, names: &Names, wires: &[DeclaredWire]) -> Result<Vec<Wire>, AllocError>
    ensures { IfOk result (λ all. all.items ≡ map (wire_of (scope_in names.now)) (map wire_view wires.now)) }
{
    let mut all = Vec::new(alloc);
    for x in wires {
        all.push(Wire {
            bits: bits_of(x.high),
            net: net_of(names, x.net),
        })?;
    }
    Ok(all)
}

/// The circuit of a module without a fault.
pub fn circuit_of(
    alloc: Global,
    names: &Names,
    module: &Module,
    assigned: &Assigned,
) -> Result<Design, AllocError>
    ensures { IfOk result (λ d. netlist_of d ≡ circuit_with (scope_in names.now) (module_view module.now) assigned.now.outputs.items assigned.now.regs.items assigned.now.blocks.items) }
{
    Ok(Design {
        name: Text::from_slice(alloc, module.name.text)?,
        inputs: inputs_of(alloc, &module.inputs)?,
        outputs: outputs_of(
            alloc,
            names,
            &module.outputs,
            &module.assigns,
            &assigned.outputs,
        )?,
        regs: regs_of(alloc, names, &module.regs, &module.drives, &assigned.regs)?,
        mems: mems_of(alloc, names, &module.mems, &module.drives, &assigned.blocks)?,
        wires: wires_of(alloc, names, &module.wires)?,
    })
}
