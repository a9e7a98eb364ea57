ghost use Rattle.std.specs.Prelude.{◌≡◌, ◌≤◌, ◌++◌, OnOk, IfOk, map, codes};
ghost use Rattle.std.specs.List.{All, flat_map};
ghost use Rattle.rtl_core.specs.declared.design.Mem.{Mem};
ghost use Rattle.rtl_core.specs.Netlist.{netlist_of};
ghost use Rattle.rtl_core.specs.Valid.{IsValid, pin_names};
ghost use Rattle.rtl_core.specs.ModuleText.{IsModuleText};
ghost use Rattle.verilog_print.specs.PrintableNames.{HasPrintableNames};
ghost use Rattle.verilog_print.specs.PrintedSyntax.{syntax_of};
ghost use Rattle.verilog_print.specs.PrintedText.{header_text, declared_text, memory_text, wire_text, assign_text, always_text, module_text};

use crate::blocks::{push_memory_blocks, push_register_blocks};
use crate::declarations::{
    push_assigns, push_input_names, push_inputs, push_memories, push_output_names, push_outputs,
    push_registers, push_wires,
};
use hls_base::text::Text;
use rtl_core::design::Design;
use std::alloc::{AllocError, Global};

fn push_names(out: &mut Vec<u8>, design: &Design) -> Result<(), AllocError>
    ensures { OnOk result (out.new.items ≡ out.old.items ++ flat_map header_text (pin_names (netlist_of design.now))) }
{
    push_input_names(out, design.inputs.as_slice())?;
    push_output_names(out, design.outputs.as_slice())
}

fn push_header(out: &mut Vec<u8>, design: &Design) -> Result<(), AllocError>
    ensures { OnOk result (out.new.items ≡ out.old.items ++ (codes "module " ++ (design.now.name ++ (codes " (clk" ++ (flat_map header_text (pin_names (netlist_of design.now)) ++ codes ");\ninput clk;\n"))))) }
{
    out.extend_from_slice(b"module ")?;
    out.extend_from_slice(design.name.items())?;
    out.extend_from_slice(b" (clk")?;
    push_names(out, design)?;
    out.extend_from_slice(b");\ninput clk;\n")
}

fn push_pins(out: &mut Vec<u8>, design: &Design) -> Result<(), AllocError>
    ensures { let s = syntax_of (netlist_of design.now) in OnOk result (out.new.items ≡ out.old.items ++ (flat_map (declared_text (codes "input")) s.inputs ++ flat_map (declared_text (codes "output")) s.outputs)) }
{
    push_inputs(out, design.inputs.as_slice())?;
    push_outputs(out, design.outputs.as_slice())
}

fn push_values(out: &mut Vec<u8>, design: &Design) -> Result<(), AllocError>
    requires { All (λ (m : Mem). m.depth_log ≤ 16) design.now.mems.items }
    ensures { let s = syntax_of (netlist_of design.now) in OnOk result (out.new.items ≡ out.old.items ++ (flat_map (declared_text (codes "reg")) s.regs ++ (flat_map memory_text s.mems ++ flat_map wire_text s.wires))) }
{
    push_registers(out, design.regs.as_slice())?;
    push_memories(out, design.mems.as_slice())?;
    push_wires(out, design.inputs.as_slice(), design.wires.as_slice())
}

fn push_blocks(out: &mut Vec<u8>, design: &Design) -> Result<(), AllocError>
    ensures { OnOk result (out.new.items ≡ out.old.items ++ flat_map always_text (syntax_of (netlist_of design.now)).blocks) }
{
    push_register_blocks(out, design.inputs.as_slice(), design.regs.as_slice())?;
    push_memory_blocks(out, design.inputs.as_slice(), design.mems.as_slice())
}

fn push_actions(out: &mut Vec<u8>, design: &Design) -> Result<(), AllocError>
    ensures { let s = syntax_of (netlist_of design.now) in OnOk result (out.new.items ≡ out.old.items ++ (flat_map assign_text s.assigns ++ flat_map always_text s.blocks)) }
{
    push_assigns(out, design.inputs.as_slice(), design.outputs.as_slice())?;
    push_blocks(out, design)
}

/// The text of a circuit: each item on a line, without comments.
pub fn print(alloc: Global, design: &Design) -> Result<Text, AllocError>
    requires valid { IsValid (netlist_of design.now) }
    requires names { HasPrintableNames (netlist_of design.now) }
    ensures text { IfOk result (λ t. t ≡ module_text (netlist_of design.now)) }
    ensures circuit { IfOk result (λ t. IsModuleText t (netlist_of design.now)) }
{
    let mut out = Vec::new(alloc);
    push_header(&mut out, design)?;
    push_pins(&mut out, design)?;
    push_values(&mut out, design)?;
    push_actions(&mut out, design)?;
    out.extend_from_slice(b"endmodule\n")?;
    Ok(Text::new(out))
}
