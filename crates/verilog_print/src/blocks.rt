ghost use Rattle.std.specs.Prelude.{◌≡◌, ◌++◌, OnOk, map};
ghost use Rattle.std.specs.List.{flat_map};
ghost use Rattle.rtl_core.specs.Netlist.{memory_of};
ghost use Rattle.verilog_print.specs.PrintedSyntax.{numbered, operand_of, register_block, write_of, ports_block, memory_blocks};
ghost use Rattle.verilog_print.specs.PrintedText.{test_text, write_text, block_text, always_text};

use crate::expressions::{push_numbered, push_operand};
use rtl_core::design::{Atom, Mem, Pin, Port, Reg};
use std::alloc::AllocError;

fn push_test(out: &mut Vec<u8>, pins: &[Pin], enable: Atom) -> Result<(), AllocError>
    ensures { OnOk result (out.new.items ≡ out.old.items ++ test_text (operand_of pins.now enable)) }
{
    out.extend_from_slice(b"if (")?;
    push_operand(out, pins, enable)?;
    out.extend_from_slice(b") ")
}

fn push_register_set(out: &mut Vec<u8>, pins: &[Pin], k: u64, reg: Reg) -> Result<(), AllocError>
    ensures { OnOk result (out.new.items ≡ out.old.items ++ block_text (register_block pins.now k reg)) }
{
    push_test(out, pins, reg.enable)?;
    push_numbered(out, b'r', k)?;
    out.extend_from_slice(b" <= ")?;
    push_operand(out, pins, reg.next)?;
    out.extend_from_slice(b";\n")
}

fn push_register_block(out: &mut Vec<u8>, pins: &[Pin], k: u64, reg: Reg) -> Result<(), AllocError>
    ensures { OnOk result (out.new.items ≡ out.old.items ++ always_text (register_block pins.now k reg)) }
{
    out.extend_from_slice(b"always @(posedge clk) ")?;
    push_register_set(out, pins, k, reg)
}

/// Appends the blocks of the registers.
pub fn push_register_blocks(out: &mut Vec<u8>, pins: &[Pin], regs: &[Reg]) -> Result<(), AllocError>
    ensures { OnOk result (out.new.items ≡ out.old.items ++ flat_map always_text (numbered (register_block pins.now) 0 regs.now)) }
{
    for (k, reg) in regs.iter().enumerate() {
        push_register_block(out, pins, k as u64, *reg)?;
    }
    Ok(())
}

fn push_write(out: &mut Vec<u8>, pins: &[Pin], k: u64, port: Port) -> Result<(), AllocError>
    ensures { OnOk result (out.new.items ≡ out.old.items ++ write_text (write_of pins.now k port)) }
{
    push_test(out, pins, port.enable)?;
    push_numbered(out, b'm', k)?;
    out.extend_from_slice(b"[")?;
    push_operand(out, pins, port.addr)?;
    out.extend_from_slice(b"] <= ")?;
    push_operand(out, pins, port.value)?;
    out.extend_from_slice(b"; ")
}

fn push_writes(out: &mut Vec<u8>, pins: &[Pin], k: u64, ports: &[Port]) -> Result<(), AllocError>
    ensures { OnOk result (out.new.items ≡ out.old.items ++ flat_map write_text (map (write_of pins.now k) ports.now)) }
{
    for port in ports {
        push_write(out, pins, k, *port)?;
    }
    Ok(())
}

fn push_ports_block(
    out: &mut Vec<u8>,
    pins: &[Pin],
    k: u64,
    ports: &[Port],
) -> Result<(), AllocError>
    ensures { OnOk result (out.new.items ≡ out.old.items ++ flat_map always_text (ports_block pins.now k ports.now)) }
{
    if ports.is_empty() {
        return Ok(());
    }
    out.extend_from_slice(b"always @(posedge clk) begin ")?;
    push_writes(out, pins, k, ports)?;
    out.extend_from_slice(b"end\n")
}

/// Appends the blocks of the memories, each on one line.
pub fn push_memory_blocks(out: &mut Vec<u8>, pins: &[Pin], mems: &[Mem]) -> Result<(), AllocError>
    ensures { OnOk result (out.new.items ≡ out.old.items ++ flat_map always_text (memory_blocks pins.now 0 (map memory_of mems.now))) }
{
    for (k, mem) in mems.iter().enumerate() {
        push_ports_block(out, pins, k as u64, mem.ports.as_slice())?;
    }
    Ok(())
}
