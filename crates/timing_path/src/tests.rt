use crate::{LongPath, longest};
use hls_base::text::Text;
use rtl_core::design::{Atom, Design, Mem, Net, OutPin, Pair, Pin, Port, Reg, Wire};
use std::alloc::{AllocError, Global};
use std::test::Fail;

const ONE: Atom = Atom::Constant { bits: 1, value: 1 };

const ADDRESS: Atom = Atom::Constant { bits: 2, value: 3 };

const REG: Atom = Atom::Reg(0);

const INPUT: Atom = Atom::Input(0);

/// A circuit with these wires, a register and an input of 4 bits, and a memory of 4 words of 4 bits.
fn design(alloc: Global, wires: Vec<Wire>, next: Atom) -> Result<Design, AllocError> {
    let input = Pin {
        name: Text::from_slice(alloc, b"a")?,
        bits: 4,
    };
    let output = OutPin {
        name: Text::from_slice(alloc, b"y")?,
        bits: 4,
        from: REG,
    };
    let reg = Reg {
        bits: 4,
        enable: ONE,
        next,
    };
    let port = Port {
        addr: ADDRESS,
        enable: ONE,
        value: REG,
    };
    let mem = Mem {
        bits: 4,
        depth_log: 2,
        ports: vec![in alloc; port]?,
    };
    Ok(Design {
        name: Text::from_slice(alloc, b"t")?,
        inputs: vec![in alloc; input]?,
        outputs: vec![in alloc; output]?,
        regs: vec![in alloc; reg]?,
        mems: vec![in alloc; mem]?,
        wires,
    })
}

fn longest_of(alloc: Global, wires: Vec<Wire>, next: Atom) -> Result<LongPath, Fail> {
    let design = design(alloc, wires, next)?;
    if !design.valid() {
        return Err(Fail::from("the circuit is valid"));
    }
    Ok(longest(alloc, &design)?)
}

fn wire(bits: u8, net: Net) -> Wire {
    Wire { bits, net }
}

#[test]
fn the_sum_of_an_accumulator(rt: HostRuntime) -> Result<(), Fail> {
    let alloc = rt.alloc();
    let sum = wire(4, Net::Two(Pair::Add, REG, INPUT));
    let path = longest_of(alloc, vec![in alloc; sum]?, Atom::Wire(0))?;
    assert_eq!(rt; path.delay, 4);
    assert_eq!(rt; path.wires.as_slice(), [0].as_slice());
    Ok(())
}

#[test]
fn copies_have_no_delay(rt: HostRuntime) -> Result<(), Fail> {
    let alloc = rt.alloc();
    let wires = vec![in alloc; wire(4, Net::Copy(REG)), wire(4, Net::Copy(Atom::Wire(0)))]?;
    let path = longest_of(alloc, wires, Atom::Wire(1))?;
    assert_eq!(rt; path.delay, 0);
    assert!(rt; path.wires.is_empty());
    Ok(())
}

#[test]
fn the_least_of_equal_paths(rt: HostRuntime) -> Result<(), Fail> {
    let alloc = rt.alloc();
    let wires = vec![in alloc;
        wire(4, Net::Not(REG)),
        wire(4, Net::Not(INPUT)),
        wire(4, Net::Two(Pair::And, Atom::Wire(1), Atom::Wire(0))),
        wire(4, Net::Two(Pair::Or, Atom::Wire(0), Atom::Wire(1))),
        wire(4, Net::Copy(Atom::Wire(2))),
    ]?;
    let path = longest_of(alloc, wires, Atom::Wire(4))?;
    assert_eq!(rt; path.delay, 2);
    assert_eq!(rt; path.wires.as_slice(), [0, 2].as_slice());
    Ok(())
}

#[test]
fn no_copy_comes_first(rt: HostRuntime) -> Result<(), Fail> {
    let alloc = rt.alloc();
    let wires = vec![in alloc;
        wire(4, Net::Copy(REG)),
        wire(4, Net::Two(Pair::Add, Atom::Wire(0), INPUT)),
        wire(4, Net::Copy(Atom::Wire(1))),
        wire(4, Net::Pick(ONE, INPUT, Atom::Wire(2))),
    ]?;
    let path = longest_of(alloc, wires, Atom::Wire(3))?;
    assert_eq!(rt; path.delay, 6);
    assert_eq!(rt; path.wires.as_slice(), [1, 2, 3].as_slice());
    Ok(())
}

#[test]
fn delays(rt: HostRuntime) -> Result<(), Fail> {
    let alloc = rt.alloc();
    let table = [
        (4, Net::Copy(REG), 0),
        (8, Net::Join(REG, INPUT), 0),
        (
            2,
            Net::Part {
                of: REG,
                high: 2,
                low: 1,
            },
            0,
        ),
        (4, Net::Not(REG), 1),
        (4, Net::Pick(ONE, REG, INPUT), 2),
        (
            4,
            Net::Word {
                mem: 0,
                addr: ADDRESS,
            },
            8,
        ),
        (4, Net::Two(Pair::Add, REG, INPUT), 4),
        (4, Net::Two(Pair::Sub, REG, INPUT), 4),
        (4, Net::Two(Pair::Mul, REG, INPUT), 8),
        (4, Net::Two(Pair::And, REG, INPUT), 1),
        (4, Net::Two(Pair::Or, REG, INPUT), 1),
        (4, Net::Two(Pair::Xor, REG, INPUT), 1),
        (1, Net::Two(Pair::Equal, REG, INPUT), 4),
        (1, Net::Two(Pair::Below, REG, INPUT), 4),
        (4, Net::Two(Pair::Left, REG, ADDRESS), 0),
        (4, Net::Two(Pair::Left, REG, INPUT), 8),
        (4, Net::Two(Pair::Right, REG, ADDRESS), 0),
        (1, Net::Two(Pair::Right, ONE, INPUT), 8),
    ];
    for (bits, net, delay) in table {
        let path = longest_of(alloc, vec![in alloc; wire(bits, net)]?, REG)?;
        assert_eq!(rt; path.delay, delay, "{net:?}");
    }
    Ok(())
}
