//! Which reports have a text.
ghost use Rattle.std.specs.Prelude.{◌≡◌, ◌↔◌, Bool, ◌&&◌, nat_le, IsTrue, map};
ghost use Rattle.std.specs.List.{All, list_all};
ghost use Rattle.hls_base.specs.declared.point.PointKind.TheVariants.{Body};
ghost use Rattle.cycle_report.specs.declared.report.LoopRow.{LoopRow};
ghost use Rattle.cycle_report.specs.declared.report.MemoryRow.{MemoryRow};
ghost use Rattle.cycle_report.specs.PlainReport.{plain_of};
ghost use Rattle.cycle_report.specs.ReportForm.{is_digit, is_letter, is_word_byte, is_name, IsName, IsSettings, HasForm};

use cycle_report::report::{LoopRow, MemoryRow, Report};
use hls_base::point::PointKind;

fn is_digit(byte: u8) -> bool
    ensures { result ≡ is_digit byte }
{
    48 <= byte && byte <= 57
}

fn is_letter(byte: u8) -> bool
    ensures { result ≡ is_letter byte }
{
    (65 <= byte && byte <= 90) || (97 <= byte && byte <= 122) || byte == 95
}

fn is_word_byte(byte: u8) -> bool
    ensures { result ≡ is_word_byte byte }
{
    is_letter(byte) || is_digit(byte)
}

fn are_word_bytes(bytes: &[u8]) -> bool
    ensures { result ≡ list_all is_word_byte bytes.now }
{
    for byte in bytes {
        if !is_word_byte(*byte) {
            return false;
        }
    }
    true
}

fn is_name(name: &[u8]) -> bool
    ensures { result ≡ is_name name.now }
{
    match name.split_first() {
        Some((first, rest)) => is_letter(*first) && are_word_bytes(rest) && rest.len() <= 63,
        None => false,
    }
}

/// Whether all points are those of loops' bodies.
fn stand_at_bodies(loops: &[LoopRow]) -> bool
    ensures { IsTrue result ↔ All (λ (l : LoopRow). l.point.kind ≡ Body) loops.now }
{
    loops
        .iter()
        .all(|row| matches!(row.point.kind, PointKind::Body))
}

fn have_names(memories: &[MemoryRow]) -> bool
    ensures { IsTrue result ↔ All (λ (m : MemoryRow). IsName m.name) memories.now }
{
    memories.iter().all(|memory| is_name(memory.name.items()))
}

/// Whether the names and loop points of a report are those of a text.
#[tactic(auto, using(crate::proofs::Forms::plain_bodies, crate::proofs::Forms::bodies_plain))]
pub fn has_form(report: &Report) -> bool
    requires { IsName report.now.settings.top → IsSettings report.now.settings }
    ensures { IsTrue result ↔ HasForm (plain_of report.now) }
{
    is_name(report.settings.top.items())
        && stand_at_bodies(&report.loops)
        && have_names(&report.memories)
}
