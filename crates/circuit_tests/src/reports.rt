ghost use Rattle.std.specs.Prelude.{IfOk, ◌≡◌, false};
ghost use Rattle.cycle_report.specs.PlainReport.{plain_of};
ghost use Rattle.cycle_report.specs.ReportForm.{HasForm};

use cycle_report::print::print;
use cycle_report::read::read;
use cycle_report::report::{Cost, Edge4, Formula, LoopRow, MemoryRow, Report};
use hls_base::place::{Path, Place};
use hls_base::point::{Point, PointKind, Tally};
use hls_base::refusal::Fail as Failure;
use hls_base::settings::Settings;
use hls_base::text::Text;
use std::alloc::{AllocError, AllocFailed, Global};
use std::test::Fail;

fn place(line: u32, column: u32, part: u32) -> Place {
    Place { line, column, part }
}

fn point(alloc: Global, column: u32, kind: PointKind) -> Point
    ensures { result.kind ≡ kind }
{
    Point {
        path: Path::new(Vec::new(alloc)),
        at: place(1, column, 0),
        kind,
    }
}

fn settings(top: Text, period: u32) -> Settings
    ensures { result ≡ record { top = top; mul = 1; div = 1; ports = 1; plain = false; period = period } }
{
    Settings {
        top,
        mul: 1,
        div: 1,
        ports: 1,
        plain: false,
        period,
    }
}

/// The report of `unsigned f(unsigned a,unsigned b){return a+b;}`.
fn sum_report(alloc: Global) -> Result<Report, Fail>
    ensures { IfOk result (λ r. HasForm (plain_of r)) }
{
    let top = Text::from_slice(alloc, b"f")?;
    let mut rows = Vec::new(alloc);
    rows.push(Cost {
        point: point(alloc, 10, PointKind::Begin),
        cost: 2,
    })?;
    Ok(Report {
        settings: settings(top, 0),
        formula: Formula { base: 1, rows },
        init: 0,
        loops: Vec::new(alloc),
        mul32: 0,
        mul64: 0,
        div32: 0,
        div64: 0,
        memories: Vec::new(alloc),
        registers: 7,
    })
}

/// The report of `int f(int n){int s=0; for(int i=0;i<n;i++) s=s+i; return s;}`.
fn loop_report(alloc: Global) -> Result<Report, Fail>
    ensures { IfOk result (λ r. HasForm (plain_of r)) }
{
    let top = Text::from_slice(alloc, b"f")?;
    let mut rows = Vec::new(alloc);
    rows.push(Cost {
        point: point(alloc, 5, PointKind::Begin),
        cost: 1,
    })?;
    rows.push(Cost {
        point: point(alloc, 23, PointKind::Body),
        cost: 1,
    })?;
    rows.push(Cost {
        point: point(alloc, 23, PointKind::End),
        cost: 4,
    })?;
    let mut loops = Vec::new(alloc);
    loops.push(LoopRow {
        point: point(alloc, 23, PointKind::Body),
        ii: 1,
        exit: 1,
        cycle: Vec::new(alloc),
    })?;
    Ok(Report {
        settings: settings(top, 0),
        formula: Formula { base: 1, rows },
        init: 0,
        loops,
        mul32: 0,
        mul64: 0,
        div32: 0,
        div64: 0,
        memories: Vec::new(alloc),
        registers: 12,
    })
}

/// A report with every kind of line.
fn full_report(alloc: Global) -> Result<Report, Fail>
    ensures { IfOk result (λ r. HasForm (plain_of r)) }
{
    let top = Text::from_slice(alloc, b"f")?;
    let name = Text::from_slice(alloc, b"a_1")?;
    let mut calls = Vec::new(alloc);
    calls.push(place(20, 9, 0))?;
    calls.push(place(3, 7, 2))?;
    let mut rows = Vec::new(alloc);
    rows.push(Cost {
        point: Point {
            path: Path::new(calls),
            at: place(1, 5, 12),
            kind: PointKind::Arm,
        },
        cost: u64::MAX,
    })?;
    let mut cycle = Vec::new(alloc);
    cycle.push(Edge4 {
        from: 5,
        to: 6,
        latency: 2,
        distance: 1,
    })?;
    cycle.push(Edge4 {
        from: 6,
        to: 5,
        latency: 1,
        distance: 0,
    })?;
    let mut loops = Vec::new(alloc);
    loops.push(LoopRow {
        point: point(alloc, 23, PointKind::Body),
        ii: 4,
        exit: 1,
        cycle,
    })?;
    let mut memories = Vec::new(alloc);
    memories.push(MemoryRow {
        name,
        bits: 32,
        depth: 16,
        ports: 2,
    })?;
    Ok(Report {
        settings: settings(top, 64),
        formula: Formula { base: 1, rows },
        init: 16,
        loops,
        mul32: 1,
        mul64: 2,
        div32: 3,
        div64: 4,
        memories,
        registers: 0,
    })
}

#[test]
fn prints_reports(rt: HostRuntime) -> Result<(), Fail> {
    let sum = print(rt.alloc(), &sum_report(rt.alloc())?)?;
    assert_eq!(rt;
        sum.items(),
        b"hls-report 1\ntop f\nsettings mul 1 div 1 ports 1 plain 0\nbase 1\ncost 2 begin 1:10 -\nunits mul32 0 mul64 0 div32 0 div64 0\nregisters 7\nend\n".as_slice()
    );
    let looped = print(rt.alloc(), &loop_report(rt.alloc())?)?;
    assert_eq!(rt;
        looped.items(),
        b"hls-report 1\ntop f\nsettings mul 1 div 1 ports 1 plain 0\nbase 1\ncost 1 begin 1:5 -\ncost 1 body 1:23 -\ncost 4 end 1:23 -\nloop 1:23 - ii 1 exit 1\nunits mul32 0 mul64 0 div32 0 div64 0\nregisters 12\nend\n".as_slice()
    );
    let full = print(rt.alloc(), &full_report(rt.alloc())?)?;
    assert_eq!(rt;
        full.items(),
        b"hls-report 1\ntop f\nsettings mul 1 div 1 ports 1 plain 0 period 64\nbase 1\ninit 16\ncost 18446744073709551615 arm 1:5.12 20:9,3:7.2\nloop 1:23 - ii 4 exit 1\nedge 5 6 2 1\nedge 6 5 1 0\nunits mul32 1 mul64 2 div32 3 div64 4\nmemory a_1 bits 32 depth 16 ports 2\nregisters 0\nend\n".as_slice()
    );
    Ok(())
}

#[test]
fn counts_cycles(rt: HostRuntime) -> Result<(), Fail> {
    let mut rows = Vec::new(rt.alloc());
    rows.push(Cost {
        point: point(rt.alloc(), 10, PointKind::Begin),
        cost: 2,
    })?;
    let formula = Formula { base: 1, rows };
    let mut counts = Vec::new(rt.alloc());
    counts.push((point(rt.alloc(), 10, PointKind::Begin), 1u64))?;
    let tally = Tally::new(counts);
    assert_eq!(rt; formula.cycles(&tally), Some(3));
    Ok(())
}

/// Where the text is refused under rule 60, 0:0 where it is a report, and 9:0 where there is another answer.
fn refused_at(alloc: Global, text: &[u8]) -> (u32, u32) {
    match read(alloc, text) {
        Ok(_) => (0, 0),
        Err(Failure::Refused(why)) if why.rule == 60 && why.place.part == 0 => {
            (why.place.line, why.place.column)
        }
        Err(_) => (9, 0),
    }
}

#[test]
fn reads_what_it_prints(rt: HostRuntime) -> Result<(), Fail> {
    let alloc = rt.alloc();
    let text = print(alloc, &full_report(alloc)?)?;
    match read(alloc, text.items()) {
        Ok(report) => {
            assert_eq!(rt; report.settings.period, 64);
            assert_eq!(rt; report.formula.base, 1);
            assert_eq!(rt; report.init, 16);
            assert_eq!(rt; report.formula.rows.len(), 1);
            assert_eq!(rt; report.loops.len(), 1);
            assert_eq!(rt; report.memories.len(), 1);
            assert_eq!(rt; report.div64, 4);
            assert_eq!(rt; report.registers, 0);
        }
        Err(_) => assert!(rt; false),
    }
    Ok(())
}

/// Whether each front of the text that is not the whole is refused just behind its last byte.
fn is_refused_at_each_end(alloc: Global, text: &[u8]) -> bool {
    let mut line = 1u32;
    let mut column = 1u32;
    for n in 0..text.len() {
        let (front, _) = text.split_at(n);
        if refused_at(alloc, front) != (line, column) {
            return false;
        }
        if text[n] == b'\n' {
            line = line.wrapping_add(1);
            column = 1;
        } else {
            column = column.wrapping_add(1);
        }
    }
    true
}

#[test]
fn refuses_every_front_of_a_report(rt: HostRuntime) -> Result<(), Fail> {
    let alloc = rt.alloc();
    let text = print(alloc, &loop_report(alloc)?)?;
    assert!(rt; is_refused_at_each_end(alloc, text.items()));
    let text = print(alloc, &full_report(alloc)?)?;
    assert!(rt; is_refused_at_each_end(alloc, text.items()));
    let (_, rest) = text.items().split_at(13);
    assert_eq!(rt; refused_at(alloc, rest), (1, 1));
    Ok(())
}

#[test]
fn refuses_at_the_first_byte_that_goes_nowhere(rt: HostRuntime) {
    let alloc = rt.alloc();
    assert_eq!(rt; refused_at(alloc, b""), (1, 1));
    assert_eq!(rt; refused_at(alloc, b"hls-report 2"), (1, 12));
    assert_eq!(rt; refused_at(alloc, b"hls-report 1\ntop 1"), (2, 5));
    assert_eq!(rt; refused_at(alloc, b"hls-report 1\ntop f\r"), (2, 6));
    assert_eq!(rt;
        refused_at(alloc, b"hls-report 1\ntop f\nsettings mul 9"),
        (3, 14)
    );
    assert_eq!(rt;
        refused_at(alloc, b"hls-report 1\ntop f\nsettings mul 0"),
        (3, 14)
    );
    assert_eq!(rt;
        refused_at(alloc, b"hls-report 1\ntop f\nsettings mul 10"),
        (3, 15)
    );
    assert_eq!(rt;
        refused_at(alloc, b"hls-report 1\ntop f\nsettings mul 8 div 5"),
        (3, 20)
    );
    assert_eq!(rt;
        refused_at(alloc, b"hls-report 1\ntop f\nsettings mul 8 div 4 ports 3"),
        (3, 28)
    );
    assert_eq!(rt;
        refused_at(
            alloc,
            b"hls-report 1\ntop f\nsettings mul 8 div 4 ports 2 plain 2"
        ),
        (3, 36)
    );
    assert_eq!(rt;
        refused_at(
            alloc,
            b"hls-report 1\ntop f\nsettings mul 8 div 4 ports 2 plain 0 period 0"
        ),
        (3, 45)
    );
    assert_eq!(rt;
        refused_at(
            alloc,
            b"hls-report 1\ntop f\nsettings mul 8 div 4 ports 2 plain 0 period 1001"
        ),
        (3, 48)
    );
}

#[test]
fn refuses_numbers_that_do_not_fit(rt: HostRuntime) {
    let alloc = rt.alloc();
    assert_eq!(rt;
        refused_at(
            alloc,
            b"hls-report 1\ntop f\nsettings mul 1 div 1 ports 1 plain 0\nbase 01"
        ),
        (4, 7)
    );
    assert_eq!(rt;
        refused_at(
            alloc,
            b"hls-report 1\ntop f\nsettings mul 1 div 1 ports 1 plain 0\nbase 18446744073709551616"
        ),
        (4, 25)
    );
    assert_eq!(rt;
        refused_at(
            alloc,
            b"hls-report 1\ntop f\nsettings mul 1 div 1 ports 1 plain 0\nbase 1\ninit 0"
        ),
        (5, 6)
    );
    assert_eq!(rt;
        refused_at(
            alloc,
            b"hls-report 1\ntop f\nsettings mul 1 div 1 ports 1 plain 0\nbase 1\ncost 1 begin 1:5.0"
        ),
        (5, 18)
    );
    assert_eq!(rt;
        refused_at(
            alloc,
            b"hls-report 1\ntop f\nsettings mul 1 div 1 ports 1 plain 0\nbase 1\ncost 1 bed"
        ),
        (5, 10)
    );
    assert_eq!(rt;
        refused_at(
            alloc,
            b"hls-report 1\ntop f\nsettings mul 1 div 1 ports 1 plain 0\nbase 1\nedge 0 1 1 0"
        ),
        (5, 1)
    );
    assert_eq!(rt;
        refused_at(
            alloc,
            b"hls-report 1\ntop f\nsettings mul 1 div 1 ports 1 plain 0\nbase 1\nloop 1:23 - ii 1 exit 4294967296"
        ),
        (5, 32)
    );
}

#[test]
fn takes_names_of_64_letters(rt: HostRuntime) {
    let alloc = rt.alloc();
    assert_eq!(rt;
        refused_at(
            alloc,
            b"hls-report 1\ntop abcdefghijklmnopqrstuvwxyz_ABCDEFGHIJKLMNOPQRSTUVWXYZ_0123456789\n"
        ),
        (3, 1)
    );
    assert_eq!(rt;
        refused_at(
            alloc,
            b"hls-report 1\ntop abcdefghijklmnopqrstuvwxyz_ABCDEFGHIJKLMNOPQRSTUVWXYZ_0123456789a"
        ),
        (2, 69)
    );
}

#[test]
fn refuses_too_long_a_text_at_its_head(rt: HostRuntime) -> Result<(), Fail> {
    let alloc = rt.alloc();
    let text = vec![in alloc; b'h'; 16_777_217]?;
    assert_eq!(rt; refused_at(alloc, &text), (1, 1));
    let text = vec![in alloc; b'h'; 16_777_216]?;
    assert_eq!(rt; refused_at(alloc, &text), (1, 2));
    Ok(())
}
