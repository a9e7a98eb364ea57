ghost use Rattle.std.specs.Prelude.{◌≡◌, IfOk};
ghost use Rattle.rtl_core.specs.Netlist.{netlist_of, memory_of};
ghost use Rattle.verilog_print.specs.Examples.{counter, machine, store};

use hls_base::text::Text;
use rtl_core::design::{Atom, Design, Mem, Net, OutPin, Pair, Pin, Port, Reg, Wire};
use std::alloc::{AllocError, Global};
use std::test::Fail;
use verilog_print::printer::print;

const ONE: Atom = Atom::Constant { bits: 1, value: 1 };

/// A register of 4 bits that adds its input.
fn counter_design(alloc: Global) -> Result<Design, AllocError>
    ensures { IfOk result (λ d. netlist_of d ≡ counter) }
{
    let a = Text::from_slice(alloc, b"a")?;
    let y = Text::from_slice(alloc, b"y")?;
    let name = Text::from_slice(alloc, b"t")?;
    let inputs = vec![in alloc; Pin { name: a, bits: 4 }]?;
    let outputs = vec![in alloc;
        OutPin {
            name: y,
            bits: 4,
            from: Atom::Reg(0)
        },
    ]?;
    let regs = vec![in alloc;
        Reg {
            bits: 4,
            enable: ONE,
            next: Atom::Wire(0)
        },
    ]?;
    let wires = vec![in alloc;
        Wire {
            bits: 4,
            net: Net::Two(Pair::Add, Atom::Reg(0), Atom::Input(0))
        },
    ]?;
    Ok(Design {
        name,
        inputs,
        outputs,
        regs,
        mems: Vec::new(alloc),
        wires,
    })
}

#[test]
fn a_counter(rt: HostRuntime) -> Result<(), Fail> {
    let design = counter_design(rt.alloc())?;
    let text = print(rt.alloc(), &design)?;
    let lines: &[u8] =
        b"module t (clk, a, y);\ninput clk;\ninput [3:0] a;\noutput [3:0] y;\nreg [3:0] r0;\nwire [3:0] w0 = r0 + a;\nassign y = r0;\nalways @(posedge clk) if (1'h1) r0 <= w0;\nendmodule\n";
    assert_eq!(rt; text.items(), lines);
    Ok(())
}

fn machine_wires(alloc: Global) -> Result<Vec<Wire>, AllocError>
    ensures { IfOk result (λ ws. ws.items ≡ machine.wires) }
{
    let wide = Atom::Constant {
        bits: 128,
        value: (1 << 127) + 0xabc,
    };
    let nothing = Atom::Constant {
        bits: 128,
        value: 0,
    };
    let wires = vec![in alloc;
        Wire {
            bits: 2,
            net: Net::Part {
                of: Atom::Input(0),
                high: 3,
                low: 2
            }
        },
        Wire {
            bits: 8,
            net: Net::Word {
                mem: 0,
                addr: Atom::Wire(0)
            }
        },
        Wire {
            bits: 8,
            net: Net::Pick(Atom::Input(1), Atom::Wire(1), Atom::Reg(0))
        },
        Wire {
            bits: 8,
            net: Net::Two(Pair::Right, Atom::Wire(2), Atom::Wire(0))
        },
        Wire {
            bits: 16,
            net: Net::Join(Atom::Wire(3), Atom::Reg(0))
        },
        Wire {
            bits: 128,
            net: Net::Copy(wide)
        },
        Wire {
            bits: 1,
            net: Net::Two(Pair::Below, Atom::Wire(5), nothing)
        },
        Wire {
            bits: 8,
            net: Net::Not(Atom::Wire(3))
        },
    ]?;
    Ok(wires)
}

/// A memory with two ports.
fn store_memory(alloc: Global) -> Result<Mem, AllocError>
    ensures { IfOk result (λ m. memory_of m ≡ store) }
{
    let one = Atom::Constant { bits: 2, value: 1 };
    let ports = vec![in alloc;
        Port {
            addr: Atom::Wire(0),
            enable: Atom::Input(1),
            value: Atom::Input(0)
        },
        Port {
            addr: one,
            enable: ONE,
            value: Atom::Reg(0)
        },
    ]?;
    Ok(Mem {
        bits: 8,
        depth_log: 2,
        ports,
    })
}

/// A memory and most kinds of expressions.
fn machine_design(alloc: Global) -> Result<Design, AllocError>
    ensures { IfOk result (λ d. netlist_of d ≡ machine) }
{
    let a = Text::from_slice(alloc, b"a")?;
    let t = Text::from_slice(alloc, b"t")?;
    let y = Text::from_slice(alloc, b"y")?;
    let z = Text::from_slice(alloc, b"z")?;
    let name = Text::from_slice(alloc, b"u")?;
    let inputs = vec![in alloc; Pin { name: a, bits: 8 }, Pin { name: t, bits: 1 }]?;
    let outputs = vec![in alloc;
        OutPin {
            name: y,
            bits: 8,
            from: Atom::Wire(7)
        },
        OutPin {
            name: z,
            bits: 1,
            from: Atom::Wire(6)
        },
    ]?;
    let regs = vec![in alloc;
        Reg {
            bits: 8,
            enable: Atom::Input(1),
            next: Atom::Wire(2)
        },
    ]?;
    let store = store_memory(alloc)?;
    let mems = vec![in alloc; store]?;
    let wires = machine_wires(alloc)?;
    Ok(Design {
        name,
        inputs,
        outputs,
        regs,
        mems,
        wires,
    })
}

#[test]
fn a_machine(rt: HostRuntime) -> Result<(), Fail> {
    let design = machine_design(rt.alloc())?;
    let text = print(rt.alloc(), &design)?;
    let lines: &[u8] =
        b"module u (clk, a, t, y, z);\ninput clk;\ninput [7:0] a;\ninput [0:0] t;\noutput [7:0] y;\noutput [0:0] z;\nreg [7:0] r0;\nreg [7:0] m0 [0:3];\nwire [1:0] w0 = a[3:2];\nwire [7:0] w1 = m0[w0];\nwire [7:0] w2 = t ? w1 : r0;\nwire [7:0] w3 = w2 >> w0;\nwire [15:0] w4 = {w3, r0};\nwire [127:0] w5 = 128'h80000000000000000000000000000abc;\nwire [0:0] w6 = w5 < 128'h0;\nwire [7:0] w7 = ~w3;\nassign y = w7;\nassign z = w6;\nalways @(posedge clk) if (t) r0 <= w2;\nalways @(posedge clk) begin if (t) m0[w0] <= a; if (1'h1) m0[2'h1] <= r0; end\nendmodule\n";
    assert_eq!(rt; text.items(), lines);
    Ok(())
}
