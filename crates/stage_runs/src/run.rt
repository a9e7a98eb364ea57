//! The work of the program `stages`, over words, files and an output.
ghost use Rattle.std.specs.Prelude.{◌≡◌, map, IfOk};
ghost use Rattle.std.specs.Option.{IfSome};
ghost use Rattle.std.specs.String.{string_bytes};
ghost use Rattle.stage_runs.specs.Asking.{plain_of, IsAsked, IsGiven, IsAgreement, AgreesOn};

use crate::lines::{Answer, told, told_fault};
use crate::runs::stage_runs;
use crate::stage::{StageFault, StageInputs};
use hls_base::outside::{Shelf, ShelfError, Sink, SinkError};
use hls_base::text::Text;
use std::alloc::{AllocError, Global};

/// How many bytes of a source are read: one more than the largest source has.
const SOURCE_BYTES: u32 = 65_537;

/// How many bytes of a run file are read: one more than the largest has.
const RUN_BYTES: u32 = 16_777_217;

/// How many points the run in C may pass.
const POINTS: u64 = 1_000_000_000;

const USAGE: &[u8] = b"usage: stages SRC TOP RUN [plain]\n";

/// What the words ask for.
#[derive(Clone, Copy)]
struct Asked<'a> {
    source: &'a str,
    top: &'a str,
    run: &'a str,
    plain: bool,
}

/// Whether no loop is to be overlapped, by the words behind the names.
fn plain_of(words: &[String]) -> Option<bool>
    ensures { result ≡ plain_of (map string_bytes words.now) }
{
    if words.is_empty() {
        Some(false)
    } else if words.len() == 1 && words[0].as_str() == "plain" {
        Some(true)
    } else {
        None
    }
}

/// A source, its top function and its run file, and perhaps that no loop is to be overlapped.
fn read_words(words: &[String]) -> Option<Asked<'_>>
    ensures { IfSome result (λ a. IsAsked (map string_bytes words.now) a.source.now a.top.now a.run.now a.plain) }
{
    if words.len() < 3 {
        return None;
    }
    let source = words[0].as_str();
    let top = words[1].as_str();
    let run = words[2].as_str();
    let plain = plain_of(&words[3..])?;
    Some(Asked {
        source,
        top,
        run,
        plain,
    })
}

fn read_files<F: Shelf>(
    alloc: Global,
    asked: &Asked,
    shelf: &mut F,
) -> Result<StageInputs, ShelfError>
    ensures given { IfOk result (IsGiven (F.files shelf.old) asked.now.source.now asked.now.top.now asked.now.run.now asked.now.plain) }
    ensures files { F.files shelf.new ≡ F.files shelf.old }
{
    let source = shelf.read(alloc, asked.source, SOURCE_BYTES)?;
    let run = shelf.read(alloc, asked.run, RUN_BYTES)?;
    Ok(StageInputs {
        source: Text::new(source),
        top: Text::from_slice(alloc, asked.top.as_bytes())?,
        run: Text::new(run),
        plain: asked.plain,
        points: POINTS,
    })
}

fn compared(alloc: Global, given: &StageInputs) -> Result<Answer, AllocError>
    ensures { IfOk result (λ a. a.status ≡ 0 → IsAgreement given.now) }
{
    match stage_runs(alloc, given) {
        Ok(runs) => told(alloc, &runs),
        Err(fault) => told_fault(alloc, fault),
    }
}

/// The answer to words.
fn answer<F: Shelf>(alloc: Global, words: &[String], shelf: &mut F) -> Result<Answer, ShelfError>
    ensures agrees { IfOk result (λ a. a.status ≡ 0 → AgreesOn (map string_bytes words.now) (F.files shelf.old)) }
    ensures files { F.files shelf.new ≡ F.files shelf.old }
{
    match read_words(words) {
        Some(asked) => {
            let given = read_files(alloc, &asked, shelf)?;
            let compared = compared(alloc, &given)?;
            Ok(compared)
        }
        None => Ok(Answer {
            status: 2,
            lines: Vec::from_slice(alloc, USAGE)?,
        }),
    }
}

/// Puts the lines, and answers the status, or 3 or 4 where they cannot be put.
fn finish<K: Sink>(status: u8, lines: &[u8], out: &mut K) -> u8
    ensures { result ≡ 0 → status ≡ 0 }
{
    match out.put(lines) {
        Ok(()) => status,
        Err(SinkError::Failed) => 3,
        Err(SinkError::Memory) => 4,
    }
}

/// Compares the stages of the program that the words name with its run in C, and answers the status with which the program ends: 0 where they agree, 5 where one differs, 1 where the source is refused, 7 where the run file is, 6 where the run in C does not end, 2 for other words, 3 where a file or the output failed, and 4 where there was no memory.
pub fn run<F: Shelf, K: Sink>(alloc: Global, words: &[String], shelf: &mut F, out: &mut K) -> u8
    ensures agrees { result ≡ 0 → AgreesOn (map string_bytes words.now) (F.files shelf.old) }
    ensures files { F.files shelf.new ≡ F.files shelf.old }
{
    match answer(alloc, words, shelf) {
        Ok(answer) => finish(answer.status, &answer.lines, out),
        Err(ShelfError::Failed) => finish(3, b"fault\n", out),
        Err(ShelfError::Memory) => finish(4, b"memory\n", out),
    }
}
