use crate::blast::blast;
use crate::link::{link, too_many_stages};
use crate::outcome::Outcome;
use crate::timing::timing;
use std::alloc::{AllocError, Global};
use std::test::Fail;

/// Adds its input to its register in each cycle.
const ACCUMULATOR: &[u8] =
    b"module t (clk, a, y);\ninput clk;\ninput [3:0] a;\noutput [3:0] y;\nreg [3:0] r0;\nwire [3:0] w0 = r0 + a;\nassign y = r0;\nalways @(posedge clk) if (1'h1) r0 <= w0;\nendmodule\n";

const CUT_SHORT: &[u8] =
    b"module t (clk, a, y);\ninput clk;\ninput [3:0] a;\noutput [3:0] y;\nreg [3:0] r0;\nwire [3:0] w0 = r0 + a;\nassign y = r0;\nalways @(posedge clk) if (1'h1) r0 <= w0;\nendmod";

/// Has the pins of a stage, and is done at once with its argument.
const STAGE: &[u8] =
    b"module s (clk, reset, start, h_en, h_we, h_sel, h_addr, h_wdata, arg_0, ready, done, h_rdata, ret);\ninput clk;\ninput [0:0] reset;\ninput [0:0] start;\ninput [0:0] h_en;\ninput [0:0] h_we;\ninput [4:0] h_sel;\ninput [15:0] h_addr;\ninput [63:0] h_wdata;\ninput [31:0] arg_0;\noutput [0:0] ready;\noutput [0:0] done;\noutput [63:0] h_rdata;\noutput [31:0] ret;\nassign ready = 1'h1;\nassign done = 1'h1;\nassign h_rdata = 64'h0;\nassign ret = arg_0;\nendmodule\n";

fn is_rejected(outcome: &Outcome, line: &[u8]) -> bool {
    outcome.status == 8 && outcome.line.is_same(line) && outcome.written.is_none()
}

fn is_written(outcome: &Outcome, line: &[u8], start: &[u8]) -> bool {
    match &outcome.written {
        Some(text) => {
            outcome.status == 0 && outcome.line.is_same(line) && text.items().starts_with(start)
        }
        None => false,
    }
}

fn two_texts(alloc: Global, first: &[u8], second: &[u8]) -> Result<Vec<Vec<u8>>, AllocError> {
    let mut texts = Vec::new(alloc);
    texts.push(Vec::from_slice(alloc, first)?)?;
    texts.push(Vec::from_slice(alloc, second)?)?;
    Ok(texts)
}

#[test]
fn times(rt: HostRuntime) -> Result<(), Fail> {
    let outcome = timing(rt.alloc(), ACCUMULATOR)?;
    assert_eq!(rt; outcome.status, 0);
    assert!(rt; outcome.line.is_same(b"delay 4 path 0\n"));
    assert!(rt; outcome.written.is_none());
    let outcome = timing(rt.alloc(), CUT_SHORT)?;
    assert!(rt; is_rejected(&outcome, b"module rule 51 at 9:1\n"));
    Ok(())
}

#[test]
fn blasts(rt: HostRuntime) -> Result<(), Fail> {
    let outcome = blast(rt.alloc(), ACCUMULATOR)?;
    assert!(rt; is_written(&outcome, b"blasted inputs 4 latches 4\n", b"aag "));
    let outcome = blast(rt.alloc(), CUT_SHORT)?;
    assert!(rt; is_rejected(&outcome, b"module rule 51 at 9:1\n"));
    Ok(())
}

#[test]
fn links(rt: HostRuntime) -> Result<(), Fail> {
    let alloc = rt.alloc();
    let stages = two_texts(alloc, STAGE, STAGE)?;
    let outcome = link(alloc, &stages, 2)?;
    assert!(rt;
        is_written(
            &outcome,
            b"linked 2 stages\n",
            b"module hls_chain (clk, reset, in_valid"
        )
    );
    let alone = vec![in alloc; Vec::from_slice(alloc, ACCUMULATOR)?]?;
    let outcome = link(alloc, &alone, 2)?;
    assert!(rt; is_rejected(&outcome, b"module rule 83 at 1:1\n"));
    Ok(())
}

#[test]
fn links_no_rejected_text(rt: HostRuntime) -> Result<(), Fail> {
    let alloc = rt.alloc();
    let stages = two_texts(alloc, CUT_SHORT, b"")?;
    let outcome = link(alloc, &stages, 2)?;
    assert!(rt; is_rejected(&outcome, b"module rule 51 at 9:1\n"));
    let outcome = too_many_stages(alloc)?;
    assert!(rt; is_rejected(&outcome, b"module rule 82 at 1:1\n"));
    Ok(())
}
