//! Reads a report from its text.

ghost use Rattle.std.specs.Prelude.{IfOk, length, ◌≡◌, ◌≤◌, ◌<◌, ◌^◌};
ghost use Rattle.hls_base.specs.Refusals.{IfRefused};
ghost use Rattle.cycle_report.specs.PlainReport.{PlainReport, plain_of};
ghost use Rattle.cycle_report.specs.ReportForm as form;
ghost use Rattle.cycle_report.specs.ReportForm.{IsReport, IsRefusedAs};
ghost use Rattle.cycle_report.specs.Forms as forms;
ghost use Rattle.cycle_report.specs.Reading.{Reads, ReadsAs};
ghost use Rattle.cycle_report.specs.Views.{units_of_counts, ReadsWhole};

use crate::cursor::{Cursor, Stop};
use crate::lines::{costs, loops, memories};
use crate::report::{Formula, Report};
use hls_base::place::{Place, TEXT_START, place_after};
use hls_base::refusal::{Fail, Refusal};
use hls_base::settings::Settings;
use std::alloc::Global;

/// The most bytes that a report may have.
const LARGEST_REPORT: usize = 16_777_216;

/// How many units of each width there are.
#[derive(Drop)]
struct UnitCounts {
    mul32: u32,
    mul64: u32,
    div32: u32,
    div64: u32,
}

/// The report of which the bytes are the text, or under rule 60 the first byte at which no report goes on.
pub fn read(alloc: Global, bytes: &[u8]) -> Result<Report, Fail>
    ensures read { IfOk result (λ r. IsReport bytes.now (plain_of r)) }
    ensures small { IfOk result (λ r. length bytes.now ≤ form.largest_report) }
    ensures only { IfOk result (λ r. (other : PlainReport) → IsReport bytes.now other → other ≡ plain_of r) }
    ensures refused { IfRefused result (IsRefusedAs bytes.now) }
{
    if bytes.len() > LARGEST_REPORT {
        return Err(refusal(TEXT_START));
    }
    let mut cursor = Cursor::new(bytes);
    match whole(alloc, &mut cursor) {
        Ok(report) => Ok(report),
        Err(Stop::Refused) => {
            let (front, _) = bytes.split_at(bytes.len() - cursor.left().len());
            Err(refusal(place_after(TEXT_START, front)))
        }
        Err(Stop::Memory) => Err(Fail::Memory),
    }
}

fn refusal(place: Place) -> Fail
    ensures { result ≡ Fail.Refused (record { rule = 60; place = place }) }
{
    Fail::Refused(Refusal { rule: 60, place })
}

/// Takes a report, with nothing behind it.
fn whole(alloc: Global, cursor: &mut Cursor) -> Result<Report, Stop>
    ensures { ReadsWhole result cursor.old cursor.new }
{
    let report = report(alloc, cursor)?;
    if !cursor.left().is_empty() {
        return Err(Stop::Refused);
    }
    Ok(report)
}

fn report(alloc: Global, cursor: &mut Cursor) -> Result<Report, Stop>
    ensures { ReadsAs forms.report plain_of result cursor.old cursor.new }
{
    let (settings, base) = head(alloc, cursor)?;
    let init = init(cursor)?;
    let rows = costs(alloc, cursor)?;
    let loops = loops(alloc, cursor)?;
    let units = units(cursor)?;
    let memories = memories(alloc, cursor)?;
    let registers = last(cursor)?;
    Ok(Report {
        settings,
        formula: Formula { base, rows },
        init,
        loops,
        mul32: units.mul32,
        mul64: units.mul64,
        div32: units.div32,
        div64: units.div64,
        memories,
        registers,
    })
}

/// The settings and the base.
fn head(alloc: Global, cursor: &mut Cursor) -> Result<(Settings, u64), Stop>
    ensures { Reads forms.head result cursor.old cursor.new }
{
    cursor.word(b"hls-report 1\ntop ")?;
    let top = cursor.name(alloc)?;
    let mul = cursor.count_u8(b"\nsettings mul ", 1, 8)?;
    let div = cursor.count_u8(b" div ", 1, 4)?;
    let ports = cursor.count_u8(b" ports ", 1, 2)?;
    let plain = plain(cursor)?;
    let period = period(cursor)?;
    let base = cursor.count(b"\nbase ", 0, u64::MAX)?;
    cursor.word(b"\n")?;
    let settings = Settings {
        top,
        mul,
        div,
        ports,
        plain,
        period,
    };
    Ok((settings, base))
}

fn plain(cursor: &mut Cursor) -> Result<bool, Stop>
    ensures { Reads forms.plain result cursor.old cursor.new }
{
    let flag = cursor.count_u8(b" plain ", 0, 1)?;
    Ok(flag == 1)
}

/// The period, or 0 where none is written.
fn period(cursor: &mut Cursor) -> Result<u32, Stop>
    ensures { Reads forms.period result cursor.old cursor.new }
{
    if !cursor.is_at(b' ') {
        return Ok(0);
    }
    cursor.count_u32(b" period ", 1, 1000)
}

/// The cycles of the initial sequence, or 0 where none are written.
fn init(cursor: &mut Cursor) -> Result<u32, Stop>
    ensures { Reads forms.init result cursor.old cursor.new }
{
    if !cursor.is_at(b'i') {
        return Ok(0);
    }
    let init = cursor.count_u32(b"init ", 1, u32::MAX)?;
    cursor.word(b"\n")?;
    Ok(init)
}

fn units(cursor: &mut Cursor) -> Result<UnitCounts, Stop>
    ensures { ReadsAs forms.units units_of_counts result cursor.old cursor.new }
{
    let mul32 = cursor.count_u32(b"units mul32 ", 0, u32::MAX)?;
    let mul64 = cursor.count_u32(b" mul64 ", 0, u32::MAX)?;
    let div32 = cursor.count_u32(b" div32 ", 0, u32::MAX)?;
    let div64 = cursor.count_u32(b" div64 ", 0, u32::MAX)?;
    cursor.word(b"\n")?;
    Ok(UnitCounts {
        mul32,
        mul64,
        div32,
        div64,
    })
}

/// The number of registers.
fn last(cursor: &mut Cursor) -> Result<u64, Stop>
    ensures { Reads forms.last result cursor.old cursor.new }
{
    let registers = cursor.count(b"registers ", 0, u64::MAX)?;
    cursor.word(b"\nend\n")?;
    Ok(registers)
}
