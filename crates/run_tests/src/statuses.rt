//! The files and the lines of each status.
use crate::desk::Desk;
use std::alloc::Global;
use std::test::Fail;

const SUM: &[u8] = b"unsigned f(unsigned a,\n unsigned b) { return b+a; }\n";

const REPORT: &[u8] =
    b"hls-report 1\ntop f\nsettings mul 1 div 1 ports 1 plain 0\nbase 1\ncost 2 begin 1:10 -\nunits mul32 0 mul64 0 div32 0 div64 0\nregisters 8\nend\n";

const LOOP: &[u8] = b"int f(int n){int s=0; for(int i=0;i<n;i++) s=s+i; return s;}";

const SYNTH: &str = "synth s.c s.v s.rep --top f";

const COSIM: &str = "cosim s.c s.v s.rep s.run --top f --points 1000000 --cycles 100000";

#[test]
fn writes_module_and_report(rt: HostRuntime) -> Result<(), Fail> {
    let left = Desk::with(&[("s.c", SUM), ("other", b"stays")]).run(rt.alloc(), SYNTH)?;
    assert_eq!(rt; left.status, 0);
    assert_eq!(rt; left.out.written(), b"made hls_f\n".as_slice());
    assert!(rt; left.shelf.get("s.rep") == Some(REPORT));
    let module: &[u8] =
        b"module hls_f (clk, reset, start, h_en, h_we, h_sel, h_addr, h_wdata, arg_0, arg_1, ready, done, h_rdata, ret);\n";
    assert!(rt;
        left.shelf
            .get("s.v")
            .is_some_and(|text| text.starts_with(module))
    );
    assert!(rt; left.shelf.get("s.c") == Some(SUM));
    assert!(rt; left.shelf.get("other") == Some(b"stays"));
    Ok(())
}

#[test]
fn refuses_a_source(rt: HostRuntime) -> Result<(), Fail> {
    let source: &[u8] =
        b"int c(void);int a(void){return c();}int b(void){return a();}int c(void){int b=0;return b();}";
    let before: &[u8] = b"before";
    let files = [("s.c", source), ("s.v", before)];
    let desk = Desk::with(&files);
    let left = desk.run(rt.alloc(), "synth s.c s.v s.rep --top a")?;
    assert_eq!(rt; left.status, 1);
    assert_eq!(rt; left.out.written(), b"rule 9 at 1:88\n".as_slice());
    assert!(rt; left.shelf.get("s.v") == Some(b"before"));
    assert!(rt; left.shelf.get("s.rep").is_none());
    Ok(())
}

#[test]
fn tells_how_it_is_used(rt: HostRuntime) -> Result<(), Fail> {
    for line in ["", "synth s.c s.v", "synth s.c s.c s.rep --top f", "soak x"] {
        let left = Desk::with(&[("s.c", SUM)]).run(rt.alloc(), line)?;
        assert_eq!(rt; left.status, 2);
        assert_eq!(rt;
            left.out.written(),
            b"usage: hls COMMAND ARGUMENTS\n".as_slice()
        );
        assert!(rt; left.shelf.get("s.rep").is_none());
    }
    Ok(())
}

#[test]
fn stops_for_faults(rt: HostRuntime) -> Result<(), Fail> {
    let missing = Desk::with(&[("t.c", SUM)]).run(rt.alloc(), SYNTH)?;
    assert_eq!(rt; missing.status, 3);
    assert_eq!(rt; missing.out.written(), b"fault\n".as_slice());
    let report = Desk {
        files: &[("s.c", SUM)],
        shelf_fails: &[1],
        sink_fails: &[],
    };
    let left = report.run(rt.alloc(), SYNTH)?;
    assert_eq!(rt; left.status, 3);
    assert_eq!(rt; left.out.written(), b"fault\n".as_slice());
    assert!(rt; left.shelf.get("s.v").is_none());
    assert!(rt;
        left.shelf
            .get("s.rep")
            .is_none_or(|text| REPORT.starts_with(text))
    );
    let module = Desk {
        files: &[("s.c", SUM)],
        shelf_fails: &[2],
        sink_fails: &[],
    };
    let left = module.run(rt.alloc(), SYNTH)?;
    assert_eq!(rt; left.status, 3);
    assert!(rt; left.shelf.get("s.rep") == Some(REPORT));
    Ok(())
}

/// The status and the lines of a comparison of the loop with its own module and report, on this run file.
fn compared(alloc: Global, run: &[u8], words: &str) -> Result<(u8, Vec<u8>), Fail> {
    let files = [("s.c", LOOP), ("s.run", run)];
    let desk = Desk::with(&files);
    let left = desk.run(alloc, SYNTH)?;
    let left = left.then(alloc, words)?;
    Ok((left.status, Vec::from_slice(alloc, left.out.written())?))
}

#[test]
fn compares(rt: HostRuntime) -> Result<(), Fail> {
    let few = "cosim s.c s.v s.rep s.run --top f --points 3 --cycles 9";
    let short = "cosim s.c s.v s.rep s.run --top f --points 99 --cycles 9";
    let other = "cosim s.c s.v s.c s.run --top f --points 9 --cycles 9";
    let rows: [(&str, &[u8], u8, &[u8]); 7] = [
        (
            COSIM,
            b"n = 10\n",
            0,
            b"c ret 45\nformula 16\nclock 16\nverilog 16\nagree\n",
        ),
        (
            COSIM,
            b"n = -5\n",
            0,
            b"c ret 0\nformula 6\nclock 6\nverilog 6\nagree\n",
        ),
        (few, b"n = 10\n", 6, b"running c 3\n"),
        (short, b"n = 10\n", 6, b"running verilog 9\n"),
        (COSIM, b"n = 1\nn = 2\n", 7, b"run line 2\n"),
        (COSIM, b"n = 65537\n", 9, b"undefined Overflow at 1:47\n"),
        (other, b"n = 10\n", 2, b"usage: hls COMMAND ARGUMENTS\n"),
    ];
    for (words, run, status, lines) in rows {
        let (ended, put) = compared(rt.alloc(), run, words)?;
        assert_eq!(rt; ended, status);
        assert_eq!(rt; put.as_slice(), lines);
    }
    Ok(())
}

#[test]
fn tells_other_texts_apart(rt: HostRuntime) -> Result<(), Fail> {
    let late: &[u8] =
        b"hls-report 1\ntop f\nsettings mul 1 div 1 ports 1 plain 0\nbase 2\ncost 2 begin 1:10 -\nunits mul32 0 mul64 0 div32 0 div64 0\nregisters 4\nend\n";
    let other_top: &[u8] =
        b"hls-report 1\ntop g\nsettings mul 1 div 1 ports 1 plain 0\nbase 1\nunits mul32 0 mul64 0 div32 0 div64 0\nregisters 4\nend\n";
    let inputs: &[u8] = b"a = 4294967295\nb = 1\n";
    let files = [
        ("s.c", SUM),
        ("s.run", inputs),
        ("late", late),
        ("other", other_top),
        ("copy", inputs),
    ];
    let rows: [(&str, u8, &[u8]); 4] = [
        ("late", 5, b"differ verilog cycles 4 3\n"),
        ("other", 8, b"report rule 61 at 2:5\n"),
        ("s.run", 8, b"report rule 60 at 1:1\n"),
        (
            "s.rep",
            0,
            b"c ret 0\nformula 3\nclock 3\nverilog 3\nagree\n",
        ),
    ];
    for (report, status, lines) in rows {
        let desk = Desk::with(&files);
        let left = desk.run(rt.alloc(), SYNTH)?;
        let mut words = String::new(rt.alloc());
        words.push_str("cosim s.c s.v ")?;
        words.push_str(report)?;
        words.push_str(" copy --top f --points 9 --cycles 9")?;
        let left = left.then(rt.alloc(), words.as_str())?;
        assert_eq!(rt; left.status, status);
        assert_eq!(rt; left.out.written(), lines);
    }
    Ok(())
}
