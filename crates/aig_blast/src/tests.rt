use crate::blast::blast;
use aig_graph::aig::Aig;
use hls_base::refusal::Fail;
use hls_base::text::Text;
use rtl_core::design::{Atom, Design, Mem, Net, OutPin, Pair, Pin, Port, Reg, Wire};
use std::alloc::{AllocError, Global};
use std::test::Fail as TestFail;

const ONE: Atom = Atom::Constant { bits: 1, value: 1 };

const ADDRESS: Atom = Atom::Constant { bits: 2, value: 3 };

const REG: Atom = Atom::Reg(0);

const INPUT: Atom = Atom::Input(0);

const WIDE: Atom = Atom::Constant {
    bits: 128,
    value: 0,
};

fn wire(bits: u8, net: Net) -> Wire {
    Wire { bits, net }
}

/// A circuit with these wires and memories, an input and a register of 4 bits, and an output of so many bits.
fn design(
    alloc: Global,
    wires: Vec<Wire>,
    mems: Vec<Mem>,
    next: Atom,
    (bits, from): (u8, Atom),
) -> Result<Design, AllocError> {
    let input = Pin {
        name: Text::from_slice(alloc, b"a")?,
        bits: 4,
    };
    let output = OutPin {
        name: Text::from_slice(alloc, b"y")?,
        bits,
        from,
    };
    let reg = Reg {
        bits: 4,
        enable: ONE,
        next,
    };
    Ok(Design {
        name: Text::from_slice(alloc, b"t")?,
        inputs: vec![in alloc; input]?,
        outputs: vec![in alloc; output]?,
        regs: vec![in alloc; reg]?,
        mems,
        wires,
    })
}

/// A memory of 4 words of 4 bits whose last word takes the register.
fn memory(alloc: Global) -> Result<Mem, AllocError> {
    let port = Port {
        addr: ADDRESS,
        enable: ONE,
        value: REG,
    };
    Ok(Mem {
        bits: 4,
        depth_log: 2,
        ports: vec![in alloc; port]?,
    })
}

fn graph_of(alloc: Global, design: &Design) -> Result<Aig, TestFail> {
    if !design.valid() {
        return Err(TestFail::from("the circuit is valid"));
    }
    Ok(blast(alloc, design)?)
}

/// The rule by which a circuit is rejected, or 0.
fn rule(alloc: Global, design: &Design) -> Result<u8, TestFail> {
    if !design.valid() {
        return Err(TestFail::from("the circuit is valid"));
    }
    match blast(alloc, design) {
        Ok(_) => Ok(0),
        Err(Fail::Refused(refusal)) => Ok(refusal.rule),
        Err(Fail::Memory) => Ok(255),
    }
}

/// The value of a literal, from those of the variables.
fn literal_value(values: &[bool], literal: u32) -> bool {
    let value = match values.get((literal / 2) as usize) {
        Some(value) => *value,
        None => false,
    };
    value != (literal % 2 == 1)
}

/// The values of all variables.
fn variables(
    alloc: Global,
    graph: &Aig,
    inputs: &[bool],
    latches: &[bool],
) -> Result<Vec<bool>, AllocError> {
    let mut values = vec![in alloc; false]?;
    values.extend_from_slice(inputs)?;
    values.extend_from_slice(latches)?;
    for gate in &graph.ands {
        let value = literal_value(&values, gate.left) && literal_value(&values, gate.right);
        values.push(value)?;
    }
    Ok(values)
}

fn literal_values(
    alloc: Global,
    values: &[bool],
    literals: &[u32],
) -> Result<Vec<bool>, AllocError> {
    let mut bits = Vec::with_capacity(alloc, literals.len())?;
    for literal in literals {
        bits.push(literal_value(values, *literal))?;
    }
    Ok(bits)
}

/// The lowest bits of a number.
fn bits_of(alloc: Global, count: u32, number: u64) -> Result<Vec<bool>, AllocError> {
    let mut bits = Vec::new(alloc);
    let mut rest = number;
    for _i in 0..count {
        bits.push(rest % 2 == 1)?;
        rest /= 2;
    }
    Ok(bits)
}

fn number_of(bits: &[bool]) -> u64 {
    let mut number = 0;
    let mut place: u64 = 1;
    for bit in bits {
        if *bit {
            number |= place;
        }
        place = place.wrapping_mul(2);
    }
    number
}

#[test]
fn an_accumulator(rt: HostRuntime) -> Result<(), TestFail> {
    let alloc = rt.alloc();
    let wires = vec![in alloc; wire(4, Net::Two(Pair::Add, REG, INPUT))]?;
    let design = design(alloc, wires, Vec::new(alloc), Atom::Wire(0), (4, REG))?;
    let graph = graph_of(alloc, &design)?;
    assert_eq!(rt; graph.inputs, 4);
    assert_eq!(rt; graph.latches.len(), 4);
    let inputs = bits_of(alloc, 4, 3)?;
    let mut latches = bits_of(alloc, 4, 5)?;
    for shown in [5, 8, 11] {
        let values = variables(alloc, &graph, &inputs, &latches)?;
        let outputs = literal_values(alloc, &values, &graph.outputs)?;
        assert_eq!(rt; number_of(&outputs), shown);
        latches = literal_values(alloc, &values, &graph.latches)?;
    }
    Ok(())
}

/// What a wire shows where the register holds 10, the input is 3, and the words are 1, 2, 3 and 4.
fn shown(alloc: Global, bits: u8, net: Net) -> Result<u64, TestFail> {
    let wires = vec![in alloc; wire(bits, net)]?;
    let mems = vec![in alloc; memory(alloc)?]?;
    let design = design(alloc, wires, mems, INPUT, (bits, Atom::Wire(0)))?;
    let graph = graph_of(alloc, &design)?;
    let inputs = bits_of(alloc, 4, 3)?;
    let latches = bits_of(alloc, 20, 0x4321a)?;
    let values = variables(alloc, &graph, &inputs, &latches)?;
    let outputs = literal_values(alloc, &values, &graph.outputs)?;
    Ok(number_of(&outputs))
}

#[test]
fn wires(rt: HostRuntime) -> Result<(), TestFail> {
    let alloc = rt.alloc();
    let part = Net::Part {
        of: REG,
        high: 3,
        low: 1,
    };
    let word = Net::Word {
        mem: 0,
        addr: ADDRESS,
    };
    let table = [
        (4, Net::Copy(REG), 10),
        (4, Net::Not(REG), 5),
        (4, Net::Pick(ONE, REG, INPUT), 10),
        (8, Net::Join(REG, INPUT), 163),
        (3, part, 5),
        (4, word, 4),
    ];
    for (bits, net, value) in table {
        assert_eq!(rt; shown(alloc, bits, net)?, value);
    }
    Ok(())
}

#[test]
fn operators(rt: HostRuntime) -> Result<(), TestFail> {
    let alloc = rt.alloc();
    let table = [
        (4, Net::Two(Pair::Add, REG, INPUT), 13),
        (4, Net::Two(Pair::Sub, INPUT, REG), 9),
        (4, Net::Two(Pair::Mul, REG, INPUT), 14),
        (4, Net::Two(Pair::And, REG, INPUT), 2),
        (4, Net::Two(Pair::Or, REG, INPUT), 11),
        (4, Net::Two(Pair::Xor, REG, INPUT), 9),
        (1, Net::Two(Pair::Equal, REG, REG), 1),
        (1, Net::Two(Pair::Below, INPUT, REG), 1),
        (4, Net::Two(Pair::Left, INPUT, ADDRESS), 8),
        (4, Net::Two(Pair::Right, REG, INPUT), 1),
    ];
    for (bits, net, value) in table {
        assert_eq!(rt; shown(alloc, bits, net)?, value);
    }
    Ok(())
}

#[test]
fn a_word_after_an_edge(rt: HostRuntime) -> Result<(), TestFail> {
    let alloc = rt.alloc();
    let word = Net::Word {
        mem: 0,
        addr: ADDRESS,
    };
    let wires = vec![in alloc; wire(4, word)]?;
    let mems = vec![in alloc; memory(alloc)?]?;
    let design = design(alloc, wires, mems, INPUT, (4, Atom::Wire(0)))?;
    let graph = graph_of(alloc, &design)?;
    assert_eq!(rt; graph.latches.len(), 20);
    let inputs = bits_of(alloc, 4, 3)?;
    let mut latches = bits_of(alloc, 20, 0x4321a)?;
    for shown in [4, 10, 3] {
        let values = variables(alloc, &graph, &inputs, &latches)?;
        let outputs = literal_values(alloc, &values, &graph.outputs)?;
        assert_eq!(rt; number_of(&outputs), shown);
        latches = literal_values(alloc, &values, &graph.latches)?;
    }
    Ok(())
}

#[test]
fn too_many_bits(rt: HostRuntime) -> Result<(), TestFail> {
    let alloc = rt.alloc();
    let port = Port {
        addr: Atom::Constant { bits: 12, value: 0 },
        enable: ONE,
        value: Atom::Constant { bits: 32, value: 0 },
    };
    let memory = Mem {
        bits: 32,
        depth_log: 12,
        ports: vec![in alloc; port]?,
    };
    let mems = vec![in alloc; memory]?;
    let design = design(alloc, Vec::new(alloc), mems, INPUT, (4, REG))?;
    assert_eq!(rt; rule(alloc, &design)?, 70);
    Ok(())
}

/// The rule by which a circuit with so many products of 128 bits is rejected, or 0.
fn products(alloc: Global, count: usize) -> Result<u8, TestFail> {
    let wires = vec![in alloc; wire(128, Net::Two(Pair::Mul, WIDE, WIDE)); count]?;
    let design = design(alloc, wires, Vec::new(alloc), INPUT, (4, REG))?;
    rule(alloc, &design)
}

#[test]
fn too_large_a_weight(rt: HostRuntime) -> Result<(), TestFail> {
    let alloc = rt.alloc();
    assert_eq!(rt; products(alloc, 256)?, 0);
    assert_eq!(rt; products(alloc, 257)?, 72);
    Ok(())
}
