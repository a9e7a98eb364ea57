//! Readers of the lines of a report.

ghost use Rattle.std.specs.Prelude.{map};
ghost use Rattle.cycle_report.specs.PlainReport.{loop_of};
ghost use Rattle.cycle_report.specs.Forms as forms;
ghost use Rattle.cycle_report.specs.Reading.{Reads, ReadsAs, many};

use crate::cursor::{Cursor, Stop, shared_length};
use crate::print::kind_text;
use crate::report::{Cost, Edge4, LoopRow, MemoryRow};
use hls_base::place::{Path, Place};
use hls_base::point::{Point, PointKind};
use std::alloc::Global;

/// A number that is printed only where it is not 0.
fn part(cursor: &mut Cursor) -> Result<u32, Stop>
    ensures { Reads forms.part result cursor.old cursor.new }
{
    if !cursor.is_at(b'.') {
        return Ok(0);
    }
    cursor.count_u32(b".", 1, u32::MAX)
}

fn place(cursor: &mut Cursor) -> Result<Place, Stop>
    ensures { Reads forms.place result cursor.old cursor.new }
{
    let line = cursor.count_u32(b"", 0, u32::MAX)?;
    let column = cursor.count_u32(b":", 0, u32::MAX)?;
    let part = part(cursor)?;
    Ok(Place { line, column, part })
}

fn further_place(cursor: &mut Cursor) -> Result<Place, Stop>
    ensures { Reads forms.further result cursor.old cursor.new }
{
    cursor.word(b",")?;
    place(cursor)
}

fn path(alloc: Global, cursor: &mut Cursor) -> Result<Path, Stop>
    ensures { Reads forms.path result cursor.old cursor.new }
{
    let mut places = Vec::new(alloc);
    if cursor.is_at(b'-') {
        cursor.word(b"-")?;
        return Ok(Path::new(places));
    }
    let first = place(cursor)?;
    places.push(first)?;
    'places: while cursor.is_at(b',') {
        let next = further_place(cursor)?;
        places.push(next)?;
    }
    Ok(Path::new(places))
}

/// A place, and the path that leads to it.
fn site(alloc: Global, cursor: &mut Cursor) -> Result<(Place, Path), Stop>
    ensures { Reads forms.site result cursor.old cursor.new }
{
    let at = place(cursor)?;
    cursor.word(b" ")?;
    let path = path(alloc, cursor)?;
    Ok((at, path))
}

/// The kinds of points.
const KINDS: [PointKind; 6] = [
    PointKind::Begin,
    PointKind::Test,
    PointKind::Body,
    PointKind::Step,
    PointKind::End,
    PointKind::Arm,
];

fn kind(cursor: &mut Cursor) -> Result<PointKind, Stop>
    ensures { Reads forms.kind result cursor.old cursor.new }
{
    let mut most = 0;
    for kind in KINDS {
        let word = kind_text(kind);
        let n = shared_length(word, cursor.left());
        if n == word.len() {
            cursor.advance(n);
            return Ok(kind);
        }
        most = usize::max(most, n);
    }
    cursor.advance(most);
    Err(Stop::Refused)
}

fn cost(alloc: Global, cursor: &mut Cursor) -> Result<Cost, Stop>
    ensures { Reads forms.cost result cursor.old cursor.new }
{
    let cost = cursor.count(b"cost ", 0, u64::MAX)?;
    cursor.word(b" ")?;
    let kind = kind(cursor)?;
    cursor.word(b" ")?;
    let (at, path) = site(alloc, cursor)?;
    cursor.word(b"\n")?;
    let point = Point { path, at, kind };
    Ok(Cost { point, cost })
}

pub fn costs(alloc: Global, cursor: &mut Cursor) -> Result<Vec<Cost>, Stop>
    ensures { ReadsAs (many 99 forms.cost) (λ rows. rows.items) result cursor.old cursor.new }
{
    let mut rows = Vec::new(alloc);
    'rows: while cursor.is_at(b'c') {
        let row = cost(alloc, cursor)?;
        rows.push(row)?;
    }
    Ok(rows)
}

fn edge(cursor: &mut Cursor) -> Result<Edge4, Stop>
    ensures { Reads forms.edge result cursor.old cursor.new }
{
    let from = cursor.count_u32(b"edge ", 0, u32::MAX)?;
    let to = cursor.count_u32(b" ", 0, u32::MAX)?;
    let latency = cursor.count_u32(b" ", 0, u32::MAX)?;
    let distance = cursor.count_u32(b" ", 0, u32::MAX)?;
    cursor.word(b"\n")?;
    Ok(Edge4 {
        from,
        to,
        latency,
        distance,
    })
}

fn edges(alloc: Global, cursor: &mut Cursor) -> Result<Vec<Edge4>, Stop>
    ensures { ReadsAs (many 101 forms.edge) (λ rows. rows.items) result cursor.old cursor.new }
{
    let mut rows = Vec::new(alloc);
    'rows: while cursor.is_at(b'e') {
        let row = edge(cursor)?;
        rows.push(row)?;
    }
    Ok(rows)
}

/// A loop line, and the lines of its cycle behind it.
fn loop_row(alloc: Global, cursor: &mut Cursor) -> Result<LoopRow, Stop>
    ensures { ReadsAs forms.loop loop_of result cursor.old cursor.new }
{
    cursor.word(b"loop ")?;
    let (at, path) = site(alloc, cursor)?;
    let ii = cursor.count_u32(b" ii ", 0, u32::MAX)?;
    let exit = cursor.count_u32(b" exit ", 0, u32::MAX)?;
    cursor.word(b"\n")?;
    let cycle = edges(alloc, cursor)?;
    let kind = PointKind::Body;
    let point = Point { path, at, kind };
    Ok(LoopRow {
        point,
        ii,
        exit,
        cycle,
    })
}

pub fn loops(alloc: Global, cursor: &mut Cursor) -> Result<Vec<LoopRow>, Stop>
    ensures { ReadsAs (many 108 forms.loop) (λ rows. map loop_of rows.items) result cursor.old cursor.new }
{
    let mut rows = Vec::new(alloc);
    'rows: while cursor.is_at(b'l') {
        let row = loop_row(alloc, cursor)?;
        rows.push(row)?;
    }
    Ok(rows)
}

fn memory(alloc: Global, cursor: &mut Cursor) -> Result<MemoryRow, Stop>
    ensures { Reads forms.memory result cursor.old cursor.new }
{
    cursor.word(b"memory ")?;
    let name = cursor.name(alloc)?;
    let bits = cursor.count_u8(b" bits ", 0, u8::MAX)?;
    let depth = cursor.count_u32(b" depth ", 0, u32::MAX)?;
    let ports = cursor.count_u8(b" ports ", 0, u8::MAX)?;
    cursor.word(b"\n")?;
    Ok(MemoryRow {
        name,
        bits,
        depth,
        ports,
    })
}

pub fn memories(alloc: Global, cursor: &mut Cursor) -> Result<Vec<MemoryRow>, Stop>
    ensures { ReadsAs (many 109 forms.memory) (λ rows. rows.items) result cursor.old cursor.new }
{
    let mut rows = Vec::new(alloc);
    'rows: while cursor.is_at(b'm') {
        let row = memory(alloc, cursor)?;
        rows.push(row)?;
    }
    Ok(rows)
}
