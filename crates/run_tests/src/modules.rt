//! The commands on modules: their lines, statuses and files.
use crate::desk::{Desk, Left};
use std::alloc::Global;
use std::test::Fail;

/// A register of 4 bits to which an input is added in each cycle.
const ACCUMULATOR: &[u8] =
    b"module t (clk, a, y);\ninput clk;\ninput [3:0] a;\noutput [3:0] y;\nreg [3:0] r0;\nwire [3:0] w0 = r0 + a;\nassign y = r0;\nalways @(posedge clk) if (1'h1) r0 <= w0;\nendmodule\n";

const CHAIN: &[u8] =
    b"module hls_chain (clk, reset, in_valid, in_data, out_take, in_room, out_valid, out_data);\n";

const NEXT: &[u8] = b"int f(int a){return a+1;}";

const TWICE: &[u8] = b"int g(int a){return a*2;}";

const LONG: &[u8] = b"long h(long a){return a;}";

const TABLE: &[u8] = b"int m(int i){int t[2]={4,5}; return t[i&1];}";

const ARRAY: &[u8] = b"int s(int a[4096]){return a[0];}";

/// The files after the modules of four functions were made.
fn modules(alloc: Global) -> Result<Left, Fail> {
    let files = [
        ("t.v", ACCUMULATOR),
        ("f.c", NEXT),
        ("g.c", TWICE),
        ("h.c", LONG),
        ("m.c", TABLE),
        ("s.c", ARRAY),
        ("cut.v", b"module t (clk"),
    ];
    let desk = Desk::with(&files);
    let mut left = desk.run(alloc, "synth f.c f.v f.rep --top f")?;
    for line in [
        "synth g.c g.v g.rep --top g",
        "synth h.c h.v h.rep --top h",
        "synth m.c m.v m.rep --top m",
        "synth s.c s.v s.rep --top s",
    ] {
        left = left.then(alloc, line)?;
        if left.status != 0 {
            return Err("a module and a report".into());
        }
    }
    Ok(left)
}

#[test]
fn times_modules(rt: HostRuntime) -> Result<(), Fail> {
    let left = modules(rt.alloc())?.then(rt.alloc(), "timing t.v")?;
    assert_eq!(rt; left.status, 0);
    assert_eq!(rt; left.out.written(), b"delay 4 path 0\n".as_slice());
    assert!(rt; left.shelf.get("t.v") == Some(ACCUMULATOR));
    let left = left.then(rt.alloc(), "timing cut.v")?;
    assert_eq!(rt; left.status, 8);
    assert_eq!(rt; left.out.written(), b"module rule 51 at 1:14\n".as_slice());
    let left = left.then(rt.alloc(), "timing u.v")?;
    assert_eq!(rt; left.status, 3);
    assert_eq!(rt; left.out.written(), b"fault\n".as_slice());
    Ok(())
}

#[test]
fn blasts_modules(rt: HostRuntime) -> Result<(), Fail> {
    let left = modules(rt.alloc())?.then(rt.alloc(), "blast t.v t.aag")?;
    assert_eq!(rt; left.status, 0);
    assert_eq!(rt;
        left.out.written(),
        b"blasted inputs 4 latches 4\n".as_slice()
    );
    assert!(rt;
        left.shelf
            .get("t.aag")
            .is_some_and(|text| text.starts_with(b"aag "))
    );
    let left = left.then(rt.alloc(), "blast s.v s.aag")?;
    assert_eq!(rt; left.status, 8);
    assert_eq!(rt; left.out.written(), b"module rule 70 at 1:1\n".as_slice());
    assert!(rt; left.shelf.get("s.aag").is_none());
    Ok(())
}

#[test]
fn links_modules(rt: HostRuntime) -> Result<(), Fail> {
    let left = modules(rt.alloc())?.then(rt.alloc(), "link c.v 2 f.v g.v")?;
    assert_eq!(rt; left.status, 0);
    assert_eq!(rt; left.out.written(), b"linked 2 stages\n".as_slice());
    assert!(rt;
        left.shelf
            .get("c.v")
            .is_some_and(|text| text.starts_with(CHAIN))
    );
    let left = left.then(rt.alloc(), "timing c.v")?;
    assert_eq!(rt; left.status, 0);
    Ok(())
}

#[test]
fn refuses_stages(rt: HostRuntime) -> Result<(), Fail> {
    let rows: [(&str, &[u8]); 6] = [
        ("link c.v 2 t.v", b"module rule 83 at 1:1\n"),
        ("link c.v 2 s.v", b"module rule 83 at 1:1\n"),
        ("link c.v 2 f.v h.v", b"module rule 80 at 2:1\n"),
        ("link c.v 1024 m.v", b"module rule 81 at 1:1\n"),
        ("link c.v 2 t.v cut.v", b"module rule 51 at 1:14\n"),
        (
            "link c.v 2 1 2 3 4 5 6 7 8 9 10 11 12 13 14 15 16 17",
            b"module rule 82 at 1:1\n",
        ),
    ];
    let mut left = modules(rt.alloc())?;
    for (line, answer) in rows {
        left = left.then(rt.alloc(), line)?;
        assert_eq!(rt; left.status, 8);
        assert_eq!(rt; left.out.written(), answer);
        assert!(rt; left.shelf.get("c.v").is_none());
    }
    Ok(())
}

#[test]
fn tells_how_they_are_used(rt: HostRuntime) -> Result<(), Fail> {
    for line in [
        "timing",
        "timing t.v t.v",
        "blast t.v t.v",
        "link c.v 2",
        "link c.v 0 t.v",
        "link c.v 1025 t.v",
        "link t.v 2 t.v",
    ] {
        let left = Desk::with(&[("t.v", ACCUMULATOR)]).run(rt.alloc(), line)?;
        assert_eq!(rt; left.status, 2);
        assert!(rt; left.shelf.get("t.v") == Some(ACCUMULATOR));
        assert!(rt; left.shelf.get("c.v").is_none());
    }
    Ok(())
}
