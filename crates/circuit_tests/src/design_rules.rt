use hls_base::text::Text;
use rtl_core::design::{Atom, Design, Mem, Net, OutPin, Pair, Pin, Port, Reg, Wire};
use std::alloc::Global;
use std::test::Fail;

const ONE: Atom = Atom::Constant { bits: 1, value: 1 };

/// A register of 4 bits that adds its input.
fn counter(alloc: Global) -> Result<Design, Fail> {
    Ok(Design {
        name: Text::from_slice(alloc, b"t")?,
        inputs: vec![in alloc; pin(alloc, b"a", 4)?]?,
        outputs: vec![in alloc; output(alloc, b"y", 4, Atom::Reg(0))?]?,
        regs: vec![in alloc;
            Reg {
                bits: 4,
                enable: ONE,
                next: Atom::Wire(0)
            },
        ]?,
        mems: Vec::new(alloc),
        wires: vec![in alloc;
            Wire {
                bits: 4,
                net: Net::Two(Pair::Add, Atom::Reg(0), Atom::Input(0))
            },
        ]?,
    })
}

fn pin(alloc: Global, name: &[u8], bits: u8) -> Result<Pin, Fail> {
    Ok(Pin {
        name: Text::from_slice(alloc, name)?,
        bits,
    })
}

fn output(alloc: Global, name: &[u8], bits: u8, from: Atom) -> Result<OutPin, Fail> {
    Ok(OutPin {
        name: Text::from_slice(alloc, name)?,
        bits,
        from,
    })
}

/// A memory of words of 4 bits with one port, whose address has 2 bits.
fn memory(alloc: Global, depth_log: u8) -> Result<Mem, Fail> {
    let addr = Atom::Constant { bits: 2, value: 3 };
    let port = Port {
        addr,
        enable: ONE,
        value: Atom::Input(0),
    };
    Ok(Mem {
        bits: 4,
        depth_log,
        ports: vec![in alloc; port]?,
    })
}

/// Whether the counter with one wire more is valid.
fn takes_wire(alloc: Global, bits: u8, net: Net) -> Result<bool, Fail> {
    let mut design = counter(alloc)?;
    design.mems.push(memory(alloc, 2)?)?;
    design.wires.push(Wire { bits, net })?;
    Ok(design.valid())
}

#[test]
fn wires(rt: HostRuntime) -> Result<(), Fail> {
    let reg = Atom::Reg(0);
    let wire = Atom::Wire(0);
    let address = Atom::Constant { bits: 2, value: 3 };
    let right = [
        (4, Net::Copy(wire)),
        (
            128,
            Net::Copy(Atom::Constant {
                bits: 128,
                value: u128::MAX,
            }),
        ),
        (1, Net::Two(Pair::Below, reg, wire)),
        (4, Net::Two(Pair::Left, reg, ONE)),
        (6, Net::Join(address, reg)),
        (
            3,
            Net::Part {
                of: reg,
                high: 3,
                low: 1,
            },
        ),
        (
            4,
            Net::Word {
                mem: 0,
                addr: address,
            },
        ),
    ];
    for (bits, net) in right {
        assert!(rt; takes_wire(rt.alloc(), bits, net)?, "{net:?}");
    }
    let wrong = [
        (0, Net::Copy(wire)),
        (4, Net::Copy(Atom::Wire(1))),
        (4, Net::Copy(Atom::Input(1))),
        (4, Net::Copy(Atom::Constant { bits: 4, value: 16 })),
        (4, Net::Two(Pair::Equal, reg, wire)),
        (1, Net::Two(Pair::Left, reg, ONE)),
        (4, Net::Pick(reg, wire, wire)),
        (
            1,
            Net::Part {
                of: address,
                high: 1,
                low: 1,
            },
        ),
        (
            1,
            Net::Part {
                of: reg,
                high: 4,
                low: 4,
            },
        ),
        (
            4,
            Net::Word {
                mem: 0,
                addr: Atom::Constant { bits: 2, value: 2 },
            },
        ),
        (
            4,
            Net::Word {
                mem: 1,
                addr: address,
            },
        ),
    ];
    for (bits, net) in wrong {
        assert!(rt; !takes_wire(rt.alloc(), bits, net)?, "{net:?}");
    }
    Ok(())
}

#[test]
fn names(rt: HostRuntime) -> Result<(), Fail> {
    let names: [(&[u8], bool); 6] = [
        (b"b_1", true),
        (b"y", false),
        (b"a", false),
        (b"wire", false),
        (b"1b", false),
        (b"", false),
    ];
    for (name, is_right) in names {
        let mut design = counter(rt.alloc())?;
        design.inputs.push(pin(rt.alloc(), name, 1)?)?;
        assert_eq!(rt; design.valid(), is_right, "{name:?}");
    }
    Ok(())
}

#[test]
fn memories(rt: HostRuntime) -> Result<(), Fail> {
    for (depth_log, is_right) in [(0, false), (2, true), (17, false)] {
        let mut design = counter(rt.alloc())?;
        design.mems.push(memory(rt.alloc(), depth_log)?)?;
        assert_eq!(rt; design.valid(), is_right, "{depth_log}");
    }
    let mut without_port = counter(rt.alloc())?;
    without_port.mems.push(Mem {
        bits: 4,
        depth_log: 2,
        ports: Vec::new(rt.alloc()),
    })?;
    assert!(rt; !without_port.valid());
    Ok(())
}

#[test]
fn registers_and_outputs(rt: HostRuntime) -> Result<(), Fail> {
    let mut wide_enable = counter(rt.alloc())?;
    wide_enable.regs.push(Reg {
        bits: 4,
        enable: Atom::Reg(0),
        next: Atom::Reg(0),
    })?;
    assert!(rt; !wide_enable.valid());
    let mut narrow_output = counter(rt.alloc())?;
    narrow_output
        .outputs
        .push(output(rt.alloc(), b"z", 3, Atom::Reg(0))?)?;
    assert!(rt; !narrow_output.valid());
    Ok(())
}

#[test]
fn units(rt: HostRuntime) -> Result<(), Fail> {
    let mut design = counter(rt.alloc())?;
    let word = Atom::Constant { bits: 32, value: 7 };
    design.wires.push(Wire {
        bits: 32,
        net: Net::Two(Pair::Mul, word, word),
    })?;
    design.wires.push(Wire {
        bits: 32,
        net: Net::Two(Pair::Sub, word, word),
    })?;
    let longer = Atom::Constant { bits: 33, value: 7 };
    design.wires.push(Wire {
        bits: 33,
        net: Net::Two(Pair::Sub, longer, longer),
    })?;
    assert!(rt; design.valid());
    assert_eq!(rt; design.multipliers(32), 1);
    assert_eq!(rt; design.multipliers(64), 0);
    assert_eq!(rt; design.dividers(32), 1);
    Ok(())
}
