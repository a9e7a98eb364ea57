use crate::print::print;
use crate::read::read;
use aig_graph::aig::Gate;
use hls_base::refusal::Fail;
use std::alloc::Global;
use std::test::Fail as TestFail;

const ONE_GATE: &[u8] = b"aag 3 2 0 1 1\n2\n4\n6\n6 4 2\n";

const NAMED: &[u8] = b"aag 2 1 1 1 0\n2\n4 3\n5\ni0 a\nl0 b\no0 \xff\nc\nmade by hand\n\x00";

/// The rule and the place, or rule 0 for the text of a graph.
fn fault(alloc: Global, text: &[u8]) -> (u8, u32, u32) {
    match read(alloc, text) {
        Ok(_) => (0, 0, 0),
        Err(Fail::Refused(refusal)) => (refusal.rule, refusal.place.line, refusal.place.column),
        Err(Fail::Memory) => (255, 0, 0),
    }
}

#[test]
fn one_gate(rt: HostRuntime) -> Result<(), TestFail> {
    let alloc = rt.alloc();
    let graph = read(alloc, ONE_GATE)?;
    assert_eq!(rt; graph.inputs, 2);
    assert!(rt; graph.latches.is_empty());
    assert_eq!(rt; graph.outputs.as_slice(), [6].as_slice());
    assert_eq!(rt;
        graph.ands.as_slice(),
        [Gate { left: 4, right: 2 }].as_slice()
    );
    let text = print(alloc, &graph)?;
    assert!(rt; text.is_same(ONE_GATE));
    Ok(())
}

#[test]
fn symbols_and_a_comment(rt: HostRuntime) -> Result<(), TestFail> {
    let alloc = rt.alloc();
    let graph = read(alloc, NAMED)?;
    assert_eq!(rt; graph.inputs, 1);
    assert_eq!(rt; graph.latches.as_slice(), [3].as_slice());
    assert_eq!(rt; graph.outputs.as_slice(), [5].as_slice());
    assert!(rt; graph.ands.is_empty());
    let text = print(alloc, &graph)?;
    assert!(rt; text.is_same(b"aag 2 1 1 1 0\n2\n4 3\n5\n"));
    Ok(())
}

#[test]
fn refusals(rt: HostRuntime) -> Result<(), TestFail> {
    let alloc = rt.alloc();
    assert_eq!(rt; fault(alloc, b"aag 3 2 0 1\n"), (71, 1, 12));
    assert_eq!(rt; fault(alloc, b""), (71, 1, 1));
    assert_eq!(rt; fault(alloc, b"aag 3 2 0 1 2\n"), (71, 1, 13));
    assert_eq!(rt; fault(alloc, b"aag 03"), (71, 1, 6));
    assert_eq!(rt; fault(alloc, b"aag 2147483648"), (71, 1, 14));
    assert_eq!(rt;
        fault(alloc, b"aag 0 0 0 99999999999999999999999 0\n2"),
        (71, 2, 1)
    );
    assert_eq!(rt; fault(alloc, b"aag 1 0 1 0 0\n2 3 0\n"), (71, 2, 4));
    assert_eq!(rt; fault(alloc, b"aag 1 0 0 0 1\n2 2 0\n"), (71, 2, 3));
    assert_eq!(rt; fault(alloc, b"aag 1 0 0 0 1\n2 1 0"), (71, 2, 6));
    assert_eq!(rt; fault(alloc, b"aag 0 0 0 0 0\ni0"), (71, 2, 3));
    assert_eq!(rt; fault(alloc, b"aag 0 0 0 0 0\nc"), (71, 2, 2));
    assert_eq!(rt; fault(alloc, b"aag 0 0 0 0 0\nx"), (71, 2, 1));
    Ok(())
}
