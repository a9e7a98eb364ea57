ghost use Rattle.std.specs.Prelude.{◌≡◌, ◌≤◌, ◌++◌, OnOk, map, codes};
ghost use Rattle.std.specs.List.{All, flat_map};
ghost use Rattle.rtl_core.specs.declared.design.Pin.{Pin};
ghost use Rattle.rtl_core.specs.declared.design.OutPin.{OutPin};
ghost use Rattle.rtl_core.specs.declared.design.Mem.{Mem};
ghost use Rattle.rtl_core.specs.Netlist.{memory_of};
ghost use Rattle.verilog_print.specs.PrintedSyntax.{high_bit, numbered, input_of, output_of, register_of, memory_at, wire_of, assign_of};
ghost use Rattle.verilog_print.specs.PrintedText.{header_text, declared_text, memory_text, wire_text, assign_text};

use crate::expressions::{push_decimal, push_expression, push_numbered, push_operand};
use rtl_core::design::{Mem, OutPin, Pin, Reg, Wire};
use std::alloc::AllocError;

/// Appends the names of inputs to the header.
pub fn push_input_names(out: &mut Vec<u8>, pins: &[Pin]) -> Result<(), AllocError>
    ensures { OnOk result (out.new.items ≡ out.old.items ++ flat_map header_text (map (λ (p : Pin). p.name) pins.now)) }
{
    for pin in pins {
        out.extend_from_slice(b", ")?;
        out.extend_from_slice(pin.name.items())?;
    }
    Ok(())
}

/// Appends the names of outputs to the header.
pub fn push_output_names(out: &mut Vec<u8>, outputs: &[OutPin]) -> Result<(), AllocError>
    ensures { OnOk result (out.new.items ≡ out.old.items ++ flat_map header_text (map (λ (o : OutPin). o.name) outputs.now)) }
{
    for output in outputs {
        out.extend_from_slice(b", ")?;
        out.extend_from_slice(output.name.items())?;
    }
    Ok(())
}

/// Appends ` [high:0] ` for so many bits.
fn push_range(out: &mut Vec<u8>, bits: u8) -> Result<(), AllocError>
    ensures { OnOk result (out.new.items ≡ out.old.items ++ (codes " [" ++ (high_bit bits ++ codes ":0] "))) }
{
    out.extend_from_slice(b" [")?;
    push_decimal(out, bits.saturating_sub(1) as u64)?;
    out.extend_from_slice(b":0] ")
}

/// Appends the declarations of the inputs.
pub fn push_inputs(out: &mut Vec<u8>, pins: &[Pin]) -> Result<(), AllocError>
    ensures { OnOk result (out.new.items ≡ out.old.items ++ flat_map (declared_text (codes "input")) (map input_of pins.now)) }
{
    for pin in pins {
        out.extend_from_slice(b"input")?;
        push_range(out, pin.bits)?;
        out.extend_from_slice(pin.name.items())?;
        out.extend_from_slice(b";\n")?;
    }
    Ok(())
}

/// Appends the declarations of the outputs.
pub fn push_outputs(out: &mut Vec<u8>, outputs: &[OutPin]) -> Result<(), AllocError>
    ensures { OnOk result (out.new.items ≡ out.old.items ++ flat_map (declared_text (codes "output")) (map output_of outputs.now)) }
{
    for output in outputs {
        out.extend_from_slice(b"output")?;
        push_range(out, output.bits)?;
        out.extend_from_slice(output.name.items())?;
        out.extend_from_slice(b";\n")?;
    }
    Ok(())
}

/// Appends the declarations of the registers.
pub fn push_registers(out: &mut Vec<u8>, regs: &[Reg]) -> Result<(), AllocError>
    ensures { OnOk result (out.new.items ≡ out.old.items ++ flat_map (declared_text (codes "reg")) (numbered register_of 0 regs.now)) }
{
    for (k, reg) in regs.iter().enumerate() {
        out.extend_from_slice(b"reg")?;
        push_range(out, reg.bits)?;
        push_numbered(out, b'r', k as u64)?;
        out.extend_from_slice(b";\n")?;
    }
    Ok(())
}

fn push_memory(out: &mut Vec<u8>, k: u64, mem: &Mem) -> Result<(), AllocError>
    requires { mem.now.depth_log ≤ 16 }
    ensures { OnOk result (out.new.items ≡ out.old.items ++ memory_text (memory_at k (memory_of mem.now))) }
{
    out.extend_from_slice(b"reg")?;
    push_range(out, mem.bits)?;
    push_numbered(out, b'm', k)?;
    out.extend_from_slice(b" [0:")?;
    push_decimal(out, (1u64 << mem.depth_log) - 1)?;
    out.extend_from_slice(b"];\n")
}

/// Appends the declarations of the memories.
pub fn push_memories(out: &mut Vec<u8>, mems: &[Mem]) -> Result<(), AllocError>
    requires { All (λ (m : Mem). m.depth_log ≤ 16) mems.now }
    ensures { OnOk result (out.new.items ≡ out.old.items ++ flat_map memory_text (numbered memory_at 0 (map memory_of mems.now))) }
{
    for (k, mem) in mems.iter().enumerate() {
        push_memory(out, k as u64, mem)?;
    }
    Ok(())
}

fn push_wire(out: &mut Vec<u8>, pins: &[Pin], k: u64, wire: Wire) -> Result<(), AllocError>
    ensures { OnOk result (out.new.items ≡ out.old.items ++ wire_text (wire_of pins.now k wire)) }
{
    out.extend_from_slice(b"wire")?;
    push_range(out, wire.bits)?;
    push_numbered(out, b'w', k)?;
    out.extend_from_slice(b" = ")?;
    push_expression(out, pins, wire.net)?;
    out.extend_from_slice(b";\n")
}

/// Appends the declarations of the wires.
pub fn push_wires(out: &mut Vec<u8>, pins: &[Pin], wires: &[Wire]) -> Result<(), AllocError>
    ensures { OnOk result (out.new.items ≡ out.old.items ++ flat_map wire_text (numbered (wire_of pins.now) 0 wires.now)) }
{
    for (k, wire) in wires.iter().enumerate() {
        push_wire(out, pins, k as u64, *wire)?;
    }
    Ok(())
}

/// Appends the assignments of the outputs.
pub fn push_assigns(out: &mut Vec<u8>, pins: &[Pin], outputs: &[OutPin]) -> Result<(), AllocError>
    ensures { OnOk result (out.new.items ≡ out.old.items ++ flat_map assign_text (map (assign_of pins.now) outputs.now)) }
{
    for output in outputs {
        out.extend_from_slice(b"assign ")?;
        out.extend_from_slice(output.name.items())?;
        out.extend_from_slice(b" = ")?;
        push_operand(out, pins, output.from)?;
        out.extend_from_slice(b";\n")?;
    }
    Ok(())
}
