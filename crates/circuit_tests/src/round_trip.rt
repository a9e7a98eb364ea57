//! Circuits that are printed and read again.
ghost use Rattle.std.specs.Prelude.{◌≡◌, ◌<◌, IsTrue, IfOk, length};
ghost use Rattle.std.specs.List.{All};
ghost use Rattle.hls_base.specs.Refusals.{IfRefused};
ghost use Rattle.rtl_core.specs.Netlist.{netlist_of};
ghost use Rattle.rtl_core.specs.Valid.{IsValid};
ghost use Rattle.verilog_print.specs.PrintableNames.{IsNumbered, HasPrintableNames};
ghost use Rattle.verilog_print.specs.PrintedText.{module_text};
ghost use Rattle.verilog_syntax.specs.TextSyntax.{limit};

use crate::reading::COUNTER;
use hls_base::refusal::Fail;
use rtl_core::design::{Atom, Design, Net, OutPin, Pin};
use std::alloc::Global;
use std::test::Fail as TestFail;
use verilog_print::printer::print;
use verilog_read::read;

/// Whether no digit stands behind the first byte, as in the names of registers, memories and wires.
fn is_free(name: &[u8]) -> bool
    ensures { IsTrue result → ¬ IsNumbered name.now }
{
    match name {
        [_, second, ..] => !matches!(second, b'0'..=b'9'),
        _ => true,
    }
}

fn inputs_are_free(pins: &[Pin]) -> bool
    ensures { IsTrue result → All (λ (p : Pin). ¬ IsNumbered p.name) pins.now }
{
    for pin in pins {
        if !is_free(pin.name.items()) {
            return false;
        }
    }
    true
}

fn outputs_are_free(pins: &[OutPin]) -> bool
    ensures { IsTrue result → All (λ (o : OutPin). ¬ IsNumbered o.name) pins.now }
{
    for pin in pins {
        if !is_free(pin.name.items()) {
            return false;
        }
    }
    true
}

fn has_printable_names(design: &Design) -> bool
    ensures { IsTrue result → HasPrintableNames (netlist_of design.now) }
{
    inputs_are_free(design.inputs.as_slice()) && outputs_are_free(design.outputs.as_slice())
}

/// What is printed for a circuit and read again: the circuit, unless its text is too long.
fn printed_and_read(alloc: Global, design: &Design) -> Result<Design, Fail>
    requires valid { IsValid (netlist_of design.now) }
    requires names { HasPrintableNames (netlist_of design.now) }
    ensures same { IfOk result (λ d. netlist_of d ≡ netlist_of design.now) }
    ensures refused { IfRefused result (λ r. limit < length (module_text (netlist_of design.now))) }
{
    let text = print(alloc, design)?;
    read(alloc, text.items())
}

#[test]
fn the_counter_again(rt: HostRuntime) -> Result<(), TestFail> {
    let first = read(rt.alloc(), COUNTER)?;
    assert!(rt; has_printable_names(&first));
    let second = printed_and_read(rt.alloc(), &first)?;
    assert!(rt; second.name.is_same(b"t"));
    assert_eq!(rt; second.wires.as_slice(), first.wires.as_slice());
    assert_eq!(rt; second.regs.as_slice(), first.regs.as_slice());
    assert_eq!(rt; second.outputs.len(), 1);
    assert_eq!(rt; second.outputs[0].from, Atom::Reg(0));
    Ok(())
}

/// A memory with two ports, a constant of 128 bits, and most kinds of expressions.
#[test]
fn a_machine_again(rt: HostRuntime) -> Result<(), TestFail> {
    let text: &[u8] =
        b"module u (clk, a, t, y, z);\ninput clk;\ninput [7:0] a;\ninput [0:0] t;\noutput [7:0] y;\noutput [0:0] z;\nreg [7:0] r0;\nreg [7:0] m0 [0:3];\nwire [1:0] w0 = a[3:2];\nwire [7:0] w1 = m0[w0];\nwire [7:0] w2 = t ? w1 : r0;\nwire [7:0] w3 = w2 >> w0;\nwire [15:0] w4 = {w3, r0};\nwire [127:0] w5 = 128'h80000000000000000000000000000abc;\nwire [0:0] w6 = w5 < 128'h0;\nwire [7:0] w7 = ~w3;\nassign y = w7;\nassign z = w6;\nalways @(posedge clk) if (t) r0 <= w2;\nalways @(posedge clk) begin if (t) m0[w0] <= a; if (1'h1) m0[2'h1] <= r0; end\nendmodule\n";
    let first = read(rt.alloc(), text)?;
    assert!(rt; has_printable_names(&first));
    let second = printed_and_read(rt.alloc(), &first)?;
    let wide = Atom::Constant {
        bits: 128,
        value: (1 << 127) + 0xabc,
    };
    assert_eq!(rt; second.wires.len(), 8);
    assert_eq!(rt; second.wires[5].net, Net::Copy(wide));
    assert_eq!(rt; second.wires.as_slice(), first.wires.as_slice());
    assert_eq!(rt; second.regs.as_slice(), first.regs.as_slice());
    assert_eq!(rt; first.mems.len(), 1);
    assert_eq!(rt; second.mems.len(), 1);
    assert_eq!(rt; second.mems[0].depth_log, 2);
    assert_eq!(rt;
        second.mems[0].ports.as_slice(),
        first.mems[0].ports.as_slice()
    );
    assert_eq!(rt; second.outputs.len(), 2);
    assert_eq!(rt; second.outputs[1].from, Atom::Wire(6));
    Ok(())
}

/// A table of four constants, read by an address of two bits, in a text with comments, other names and blocks in another order.
#[test]
fn a_table_again(rt: HostRuntime) -> Result<(), TestFail> {
    let text: &[u8] =
        b"// a table\nmodule table (clk, at, word, sum);\ninput clk;\ninput [1:0] at;\noutput [31:0] word;\noutput [31:0] sum;\nreg [31:0] kept;\nreg [31:0] total;\nwire [0:0] low = at[0:0];\nwire [0:0] high = at[1:1];\nwire [31:0] even = low ? 32'hffff0000 : 32'h00000001;\nwire [31:0] odd = low ? 32'h80000000 : 32'h7fffffff;\nwire [31:0] found = high ? odd : even; /* the word */\nwire [31:0] next = total * found;\nwire [0:0] same = found == kept;\nassign sum = total;\nassign word = kept;\nalways @(posedge clk) if (same) total <= next;\nalways @(posedge clk) if (1'h1) kept <= found;\nendmodule\n";
    let first = read(rt.alloc(), text)?;
    assert!(rt; has_printable_names(&first));
    let second = printed_and_read(rt.alloc(), &first)?;
    assert!(rt; second.name.is_same(b"table"));
    assert_eq!(rt; second.inputs.len(), 1);
    assert_eq!(rt; second.outputs.len(), 2);
    assert!(rt; second.inputs[0].name.is_same(b"at"));
    assert_eq!(rt; second.wires.as_slice(), first.wires.as_slice());
    assert_eq!(rt; second.regs.as_slice(), first.regs.as_slice());
    assert_eq!(rt; second.outputs[0].from, Atom::Reg(0));
    assert_eq!(rt; second.outputs[1].from, Atom::Reg(1));
    Ok(())
}
