use hls_base::place::Place;
use hls_base::refusal::{Fail, Refusal};
use rtl_core::design::{Atom, Net, Pair};
use std::alloc::Global;
use std::test::Fail as TestFail;
use verilog_read::read;

pub const COUNTER: &[u8] =
    b"module t (clk, a, y);\ninput clk;\ninput [3:0] a;\noutput [3:0] y;\nreg [3:0] r0;\nwire [3:0] w0 = r0 + a;\nassign y = r0;\nalways @(posedge clk) if (1'h1) r0 <= w0;\nendmodule\n";

const LINES: [&[u8]; 9] = [
    b"module t (clk, a, y);\n",
    b"input clk;\n",
    b"input [3:0] a;\n",
    b"output [3:0] y;\n",
    b"reg [3:0] r0;\n",
    b"wire [3:0] w0 = r0 + a;\n",
    b"assign y = r0;\n",
    b"always @(posedge clk) if (1'h1) r0 <= w0;\n",
    b"endmodule\n",
];

/// The rule and the place, or rule 0 for the text of a circuit.
fn first_fault(alloc: Global, text: &[u8]) -> Result<(u8, u32, u32), TestFail> {
    match read(alloc, text) {
        Ok(_) => Ok((0, 0, 0)),
        Err(Fail::Refused(refusal)) => {
            Ok((refusal.rule, refusal.place.line, refusal.place.column))
        }
        Err(Fail::Memory) => Ok((255, 0, 0)),
    }
}

/// The first fault of the counter with another text in place of the lines from one on up to another, which are counted from 0.
fn edited(alloc: Global, from: usize, to: usize, line: &[u8]) -> Result<(u8, u32, u32), TestFail> {
    let mut text = Vec::new(alloc);
    for i in 0..LINES.len() {
        if i == from {
            text.extend_from_slice(line)?;
        }
        if i < from || to <= i {
            text.extend_from_slice(LINES[i])?;
        }
    }
    first_fault(alloc, &text)
}

#[test]
fn the_counter(rt: HostRuntime) -> Result<(), TestFail> {
    let design = read(rt.alloc(), COUNTER)?;
    assert!(rt; design.valid());
    assert!(rt; design.name.is_same(b"t"));
    assert_eq!(rt; design.regs.len(), 1);
    assert_eq!(rt; design.wires.len(), 1);
    assert_eq!(rt; design.wires[0].bits, 4);
    assert_eq!(rt;
        design.wires[0].net,
        Net::Two(Pair::Add, Atom::Reg(0), Atom::Input(0))
    );
    assert_eq!(rt; design.regs[0].enable, Atom::Constant { bits: 1, value: 1 });
    assert_eq!(rt; design.regs[0].next, Atom::Wire(0));
    assert_eq!(rt; design.outputs.len(), 1);
    assert_eq!(rt; design.outputs[0].from, Atom::Reg(0));
    Ok(())
}

#[test]
fn damaged_counters(rt: HostRuntime) -> Result<(), TestFail> {
    let alloc = rt.alloc();
    assert_eq!(rt; edited(alloc, 8, 9, b"endmod")?, (51, 9, 1));
    assert_eq!(rt;
        edited(alloc, 5, 6, b"wire [2:0] w0 = r0 + a;\n")?,
        (53, 6, 17)
    );
    assert_eq!(rt;
        edited(alloc, 8, 8, b"always @(posedge clk) if (1'h1) r0 <= w0;\n")?,
        (54, 9, 33)
    );
    assert_eq!(rt; edited(alloc, 5, 6, b"")?, (52, 7, 39));
    assert_eq!(rt;
        edited(alloc, 5, 6, b"wire [3:0] w0 = w0 + a;\n")?,
        (55, 6, 17)
    );
    assert_eq!(rt;
        edited(alloc, 5, 6, b"wire [3:0] w0 = r0 >>> a;\n")?,
        (50, 6, 22)
    );
    assert_eq!(rt; edited(alloc, 6, 7, b"")?, (54, 4, 14));
    assert_eq!(rt; first_fault(alloc, b"")?, (51, 1, 1));
    Ok(())
}

/// The reserved words, the constant and the sign of two bytes of the counter: the line, and the columns of the first byte and of the one behind the last. A front that ends inside one of them is refused there.
const WHOLE: [(u32, u32, u32); 16] = [
    (1, 1, 7),
    (1, 11, 14),
    (2, 1, 6),
    (2, 7, 10),
    (3, 1, 6),
    (4, 1, 7),
    (5, 1, 4),
    (6, 1, 5),
    (7, 1, 7),
    (8, 1, 7),
    (8, 10, 17),
    (8, 18, 21),
    (8, 23, 25),
    (8, 27, 31),
    (8, 36, 38),
    (9, 1, 10),
];

/// The place just behind a front of the counter.
fn end_of(front: &[u8]) -> (u32, u32) {
    let mut line = 1u32;
    let mut column = 1u32;
    for byte in front {
        if *byte == b'\n' {
            line = line.saturating_add(1);
            column = 1;
        } else {
            column = column.saturating_add(1);
        }
    }
    (line, column)
}

/// Where a front of the counter that ends there is refused.
fn refused_at(line: u32, column: u32) -> (u32, u32) {
    let mut at = (line, column);
    for (row, first, behind) in WHOLE {
        if row == line && first < column && column < behind {
            at = (line, first);
        }
    }
    at
}

/// Every proper front of the text is refused by rule 51 where no text of a module goes on, but the one that lacks only the last LF.
#[test]
fn fronts(rt: HostRuntime) -> Result<(), TestFail> {
    let whole = COUNTER.len();
    for n in 0..COUNTER.len() {
        let (front, _) = COUNTER.split_at(n);
        let (line, column) = end_of(front);
        let (row, place) = refused_at(line, column);
        let answer = first_fault(rt.alloc(), front)?;
        if n + 1 == whole {
            assert_eq!(rt; answer, (0, 0, 0));
        } else {
            assert_eq!(rt; answer, (51, row, place), "{n}");
        }
    }
    Ok(())
}

#[test]
fn points(rt: HostRuntime) -> Result<(), TestFail> {
    let alloc = rt.alloc();
    assert_eq!(rt;
        edited(alloc, 5, 6, b"wire [3:0] w0 = r0 + 4'h10;\n")?,
        (53, 6, 17)
    );
    assert_eq!(rt;
        edited(alloc, 5, 6, b"wire [3:0] w0 = r0 + 04'h0F;\n")?,
        (0, 0, 0)
    );
    assert_eq!(rt;
        edited(alloc, 5, 6, b"wire [3:0] w0 = 129'h0;\n")?,
        (51, 6, 17)
    );
    assert_eq!(rt;
        edited(alloc, 5, 6, b"wire [00:0] w0 = 1'h1;\n")?,
        (53, 8, 39)
    );
    assert_eq!(rt; edited(alloc, 5, 6, b"wire [3:00] w0 = r0;\n")?, (51, 6, 9));
    assert_eq!(rt;
        edited(alloc, 5, 6, b"wire [99999999999999999999:0] w0 = r0;\n")?,
        (53, 6, 31)
    );
    assert_eq!(rt;
        edited(alloc, 5, 6, b"wire [3:0] w0 = clk;\n")?,
        (51, 6, 17)
    );
    assert_eq!(rt;
        edited(alloc, 5, 6, b"/* wire [3:0] w0 = r0;\n")?,
        (50, 6, 1)
    );
    assert_eq!(rt;
        edited(alloc, 5, 6, b"// none\n/**/wire [3:0] w0=r0+a;\n")?,
        (0, 0, 0)
    );
    assert_eq!(rt; edited(alloc, 4, 5, b"reg [3:0] r0 [0:2];\n")?, (53, 5, 11));
    assert_eq!(rt;
        edited(alloc, 4, 5, b"reg [3:0] m0 [0:3];\nreg [3:0] r0;\n")?,
        (51, 6, 13)
    );
    assert_eq!(rt;
        edited(alloc, 0, 1, b"module t (clk, y, a);\n")?,
        (52, 1, 16)
    );
    assert_eq!(rt; edited(alloc, 0, 1, b"module t (clk, a);\n")?, (52, 4, 14));
    assert_eq!(rt; edited(alloc, 8, 9, b"endmodule x\n")?, (51, 9, 11));
    Ok(())
}

/// A memory with two ports, and one with an address that is no port's.
#[test]
fn memories(rt: HostRuntime) -> Result<(), TestFail> {
    let alloc = rt.alloc();
    let memory: &[u8] =
        b"reg [3:0] r0;\nreg [3:0] m0 [0:3];\nwire [1:0] x0 = a[1:0];\nwire [3:0] x1 = m0[x0];\n";
    let block: &[u8] =
        b"always @(posedge clk) begin if (1'h1) m0[x0] <= a; if (1'h0) m0[2'h1] <= r0; end\nendmodule\n";
    let mut text = Vec::new(alloc);
    for line in LINES[..4].iter() {
        text.extend_from_slice(line)?;
    }
    text.extend_from_slice(memory)?;
    for line in LINES[5..8].iter() {
        text.extend_from_slice(line)?;
    }
    text.extend_from_slice(block)?;
    let design = read(alloc, &text)?;
    assert!(rt; design.valid());
    assert_eq!(rt; design.mems.len(), 1);
    assert_eq!(rt; design.mems[0].ports.len(), 2);
    assert_eq!(rt; design.mems[0].depth_log, 2);
    Ok(())
}

#[test]
fn a_text_above_the_limit(rt: HostRuntime) -> Result<(), TestFail> {
    let mut text = Vec::new(rt.alloc());
    for _ in 0..67_108_865u32 {
        text.push(b' ')?;
    }
    let refusal = Refusal {
        rule: 56,
        place: Place {
            line: 1,
            column: 1,
            part: 0,
        },
    };
    assert!(rt; read(rt.alloc(), &text).err() == Some(Fail::Refused(refusal)));
    Ok(())
}
