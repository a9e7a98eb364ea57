ghost use Rattle.std.specs.Prelude.{◌≡◌, IfOk};
ghost use Rattle.rtl_core.specs.Netlist.{netlist_of};
ghost use Rattle.verilog_cycle.specs.Examples.{accumulator as the_accumulator, two_ports as the_two_ports};

use hls_base::text::Text;
use rtl_core::design::{Atom, Design, Mem, Net, OutPin, Pair, Pin, Port, Reg, Wire};
use std::alloc::{AllocError, Global};
use std::test::Fail;
use verilog_cycle::sim::Sim;

const ONE: Atom = Atom::Constant { bits: 1, value: 1 };

fn accumulator(alloc: Global) -> Result<Design, AllocError>
    ensures { IfOk result (λ d. netlist_of d ≡ the_accumulator) }
{
    let input = Pin {
        name: Text::from_slice(alloc, b"a")?,
        bits: 4,
    };
    let output = OutPin {
        name: Text::from_slice(alloc, b"y")?,
        bits: 4,
        from: Atom::Reg(0),
    };
    let sum = Net::Two(Pair::Add, Atom::Reg(0), Atom::Input(0));
    Ok(Design {
        name: Text::from_slice(alloc, b"t")?,
        inputs: vec![in alloc; input]?,
        outputs: vec![in alloc; output]?,
        regs: vec![in alloc;
            Reg {
                bits: 4,
                enable: ONE,
                next: Atom::Wire(0)
            },
        ]?,
        mems: Vec::new(alloc),
        wires: vec![in alloc; Wire { bits: 4, net: sum }]?,
    })
}

fn two_ports(alloc: Global) -> Result<Design, AllocError>
    ensures { IfOk result (λ d. netlist_of d ≡ the_two_ports) }
{
    let input = Pin {
        name: Text::from_slice(alloc, b"a")?,
        bits: 8,
    };
    let output = OutPin {
        name: Text::from_slice(alloc, b"y")?,
        bits: 8,
        from: Atom::Wire(1),
    };
    let ports = vec![in alloc;
        Port {
            addr: ONE,
            enable: ONE,
            value: Atom::Input(0)
        },
        Port {
            addr: ONE,
            enable: ONE,
            value: Atom::Wire(0)
        },
    ]?;
    let inverted = Wire {
        bits: 8,
        net: Net::Not(Atom::Input(0)),
    };
    let word = Wire {
        bits: 8,
        net: Net::Word { mem: 0, addr: ONE },
    };
    Ok(Design {
        name: Text::from_slice(alloc, b"t")?,
        inputs: vec![in alloc; input]?,
        outputs: vec![in alloc; output]?,
        regs: Vec::new(alloc),
        mems: vec![in alloc;
            Mem {
                bits: 8,
                depth_log: 1,
                ports
            },
        ]?,
        wires: vec![in alloc; inverted, word]?,
    })
}

#[test]
fn adds_modulo_sixteen(rt: HostRuntime) -> Result<(), Fail> {
    let design = accumulator(rt.alloc())?;
    if !design.valid() {
        return Err(Fail::from("the circuit is valid"));
    }
    let mut sim = Sim::new(rt.alloc(), design, &[5])?;
    for shown in [5, 8, 11, 14, 1] {
        let mut outs = [0];
        sim.clock(&[3 + 16], &mut outs);
        assert_eq!(rt; outs[0], shown);
    }
    assert_eq!(rt; sim.registers(), [4].as_slice());
    Ok(())
}

#[test]
fn later_port_writes(rt: HostRuntime) -> Result<(), Fail> {
    let design = two_ports(rt.alloc())?;
    if !design.valid() {
        return Err(Fail::from("the circuit is valid"));
    }
    let mut sim = Sim::new(rt.alloc(), design, &[1, 2])?;
    for (sent, shown) in [(0x0f, 2), (0x33, 0xf0), (0, 0xcc)] {
        let mut outs = [0];
        sim.clock(&[sent], &mut outs);
        assert_eq!(rt; outs[0], shown);
    }
    Ok(())
}
