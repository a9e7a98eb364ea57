//! The answer of a command: a status, and the lines that are put.
ghost use Rattle.std.specs.Prelude.{◌≡◌, ◌≤◌, ◌⊎◌, List, ℕ, Option, map};
ghost use Rattle.std.specs.String.{string_bytes};
ghost use Rattle.hls_base.specs.Outside.{Files, HasRisen, NeverFalls, WhereTold, PutsPrefix};
ghost use Rattle.command_words.specs.CommandViews.{synth_view, cosim_view, blast_view, link_view, HasRange, HasLimits, NamesThreeFiles, IsLinkable};
ghost use Rattle.hls_cli.specs.Ends.{seen, Ends, IsFinish};
ghost use Rattle.hls_cli.specs.Lines.{fault_line, memory_line};
ghost use Rattle.hls_cli.specs.Words.{IsSynth, IsCosim, IsSoak, IsTimingOf, IsBlastOf, IsLinkOf};
ghost use Rattle.hls_cli.specs.SynthRun.{outside, RanToModule, RanToRefusal, RanToUsage, RanToVerdict, RanToOutcome, IsCutOff, HasFault};
ghost use Rattle.hls_cli.specs.Completeness.{IsComplete};

use crate::lines::{FAULT, MEMORY, USAGE};
use crate::work::{work_cosim, work_soak, work_synth};
use command_words::command::{Blast, Command, Cosim, Link, Synth};
use command_words::reading::read_words;
use hls_base::outside::{Shelf, ShelfError, Sink, SinkError};
use module_commands::work::{work_blast, work_link, work_timing};
use std::alloc::Global;

/// Does what the words say, and answers the status with which the program ends: 0 where it is done, 1 where the source is refused, 2 where the words are no command, 3 where a file or the output failed, 4 where there was no memory. A comparison ends with 5 where two levels differ, 6 where one does not end within its limit, 7 where the run file is refused, 8 where the module or the report is, and 9 where the run in C has no meaning.
pub fn run<F: Shelf, K: Sink>(alloc: Global, words: &[String], shelf: &mut F, out: &mut K) -> u8
    ensures status { result ≤ 9 }
    ensures made { result ≡ 0 → RanToModule (map string_bytes words.now) (outside (F.files shelf.old) (F.files shelf.new) (K.written out.old) (K.written out.new))
        ⊎ (RanToVerdict (map string_bytes words.now) 0 (outside (F.files shelf.old) (F.files shelf.new) (K.written out.old) (K.written out.new))
        ⊎ RanToOutcome (map string_bytes words.now) 0 (outside (F.files shelf.old) (F.files shelf.new) (K.written out.old) (K.written out.new))) }
    ensures refused { result ≡ 1 → RanToRefusal (map string_bytes words.now) (outside (F.files shelf.old) (F.files shelf.new) (K.written out.old) (K.written out.new))
        ⊎ RanToVerdict (map string_bytes words.now) 1 (outside (F.files shelf.old) (F.files shelf.new) (K.written out.old) (K.written out.new)) }
    ensures usage { result ≡ 2 → RanToUsage (map string_bytes words.now) (outside (F.files shelf.old) (F.files shelf.new) (K.written out.old) (K.written out.new)) }
    ensures compared { 5 ≤ result → RanToVerdict (map string_bytes words.now) result (outside (F.files shelf.old) (F.files shelf.new) (K.written out.old) (K.written out.new))
        ⊎ RanToOutcome (map string_bytes words.now) result (outside (F.files shelf.old) (F.files shelf.new) (K.written out.old) (K.written out.new)) }

    // A fault of the outside, and want of memory, cut the run off.
    ensures fault { result ≡ 3 → HasFault (map string_bytes words.now) (F.files shelf.old) (F.faults shelf.old) (F.faults shelf.new) (K.faults out.old) (K.faults out.new) }
    ensures after_fault { result ≡ 3 → IsCutOff (map string_bytes words.now) fault_line (outside (F.files shelf.old) (F.files shelf.new) (K.written out.old) (K.written out.new)) }
    ensures after_memory { result ≡ 4 → IsCutOff (map string_bytes words.now) memory_line (outside (F.files shelf.old) (F.files shelf.new) (K.written out.old) (K.written out.new)) }

    // A source that is accepted is compiled, files that agree with it are found to agree, a number is soaked, and modules that can be are timed, blasted and linked, unless a fault or want of memory comes.
    ensures complete { IsComplete (map string_bytes words.now) (F.files shelf.old) → (¬ HasRisen (F.faults shelf.old) (F.faults shelf.new)) → (¬ HasRisen (K.faults out.old) (K.faults out.new)) → (result ≡ 0) ⊎ (result ≡ 4) }
{
    answer(alloc, words, shelf, out)
}

fn answer<F: Shelf, K: Sink>(alloc: Global, words: &[String], shelf: &mut F, out: &mut K) -> u8
    ensures { Ends (map string_bytes words.now) (seen (F.files shelf.old) (F.faults shelf.old) (K.written out.old) (K.faults out.old)) (seen (F.files shelf.new) (F.faults shelf.new) (K.written out.new) (K.faults out.new)) result }
{
    match read_words(alloc, words) {
        Ok(Some(Command::Synth(command))) => run_synth(alloc, &command, shelf, out),
        Ok(Some(Command::Cosim(command))) => run_cosim(alloc, &command, shelf, out),
        Ok(Some(Command::Soak(number))) => run_soak(alloc, number, out),
        Ok(Some(Command::Timing(module_file))) => run_timing(alloc, module_file, shelf, out),
        Ok(Some(Command::Blast(command))) => run_blast(alloc, &command, shelf, out),
        Ok(Some(Command::Link(command))) => run_link(alloc, &command, shelf, out),
        Ok(None) => finish(2, USAGE, out),
        Err(_) => stop_for_memory(out),
    }
}

fn run_synth<F: Shelf, K: Sink>(alloc: Global, command: &Synth, shelf: &mut F, out: &mut K) -> u8
    requires range { HasRange (synth_view command.now) }
    requires files { NamesThreeFiles (synth_view command.now) }
    ensures { (words : List (List ℕ)) → IsSynth words (synth_view command.now) →
        Ends words (seen (F.files shelf.old) (F.faults shelf.old) (K.written out.old) (K.faults out.old)) (seen (F.files shelf.new) (F.faults shelf.new) (K.written out.new) (K.faults out.new)) result }
{
    match work_synth(alloc, command, shelf) {
        Ok(answer) => finish(answer.status, answer.lines.items(), out),
        Err(ShelfError::Failed) => stop_for_fault(out),
        Err(ShelfError::Memory) => stop_for_memory(out),
    }
}

fn run_cosim<F: Shelf, K: Sink>(alloc: Global, command: &Cosim, shelf: &mut F, out: &mut K) -> u8
    requires { HasLimits (cosim_view command.now) }
    ensures { (words : List (List ℕ)) → IsCosim words (cosim_view command.now) →
        Ends words (seen (F.files shelf.old) (F.faults shelf.old) (K.written out.old) (K.faults out.old)) (seen (F.files shelf.new) (F.faults shelf.new) (K.written out.new) (K.faults out.new)) result }
{
    match work_cosim(alloc, command, shelf) {
        Ok(answer) => finish(answer.status, answer.lines.items(), out),
        Err(ShelfError::Failed) => stop_for_fault(out),
        Err(ShelfError::Memory) => stop_for_memory(out),
    }
}

fn run_soak<K: Sink>(alloc: Global, number: u64, out: &mut K) -> u8
    ensures { (words : List (List ℕ)) (files : Option Files) (faults : ℕ) → IsSoak words number →
        Ends words (seen files faults (K.written out.old) (K.faults out.old)) (seen files faults (K.written out.new) (K.faults out.new)) result }
{
    match work_soak(alloc, number) {
        Ok(answer) => finish(answer.status, answer.lines.items(), out),
        Err(_) => stop_for_memory(out),
    }
}

fn run_timing<F: Shelf, K: Sink>(alloc: Global, module_file: &str, shelf: &mut F, out: &mut K) -> u8
    ensures { (words : List (List ℕ)) → IsTimingOf words module_file.now →
        Ends words (seen (F.files shelf.old) (F.faults shelf.old) (K.written out.old) (K.faults out.old)) (seen (F.files shelf.new) (F.faults shelf.new) (K.written out.new) (K.faults out.new)) result }
{
    match work_timing(alloc, module_file, shelf) {
        Ok(outcome) => finish(outcome.status, outcome.line.items(), out),
        Err(ShelfError::Failed) => stop_for_fault(out),
        Err(ShelfError::Memory) => stop_for_memory(out),
    }
}

fn run_blast<F: Shelf, K: Sink>(alloc: Global, command: &Blast, shelf: &mut F, out: &mut K) -> u8
    ensures { (words : List (List ℕ)) → IsBlastOf words (blast_view command.now) →
        Ends words (seen (F.files shelf.old) (F.faults shelf.old) (K.written out.old) (K.faults out.old)) (seen (F.files shelf.new) (F.faults shelf.new) (K.written out.new) (K.faults out.new)) result }
{
    match work_blast(alloc, command, shelf) {
        Ok(outcome) => finish(outcome.status, outcome.line.items(), out),
        Err(ShelfError::Failed) => stop_for_fault(out),
        Err(ShelfError::Memory) => stop_for_memory(out),
    }
}

fn run_link<F: Shelf, K: Sink>(alloc: Global, command: &Link, shelf: &mut F, out: &mut K) -> u8
    requires { IsLinkable (link_view command.now) }
    ensures { (words : List (List ℕ)) → IsLinkOf words (link_view command.now) →
        Ends words (seen (F.files shelf.old) (F.faults shelf.old) (K.written out.old) (K.faults out.old)) (seen (F.files shelf.new) (F.faults shelf.new) (K.written out.new) (K.faults out.new)) result }
{
    match work_link(alloc, command, shelf) {
        Ok(outcome) => finish(outcome.status, outcome.line.items(), out),
        Err(ShelfError::Failed) => stop_for_fault(out),
        Err(ShelfError::Memory) => stop_for_memory(out),
    }
}

// Puts the lines, and answers the status. Where the lines cannot be put the answer is 3 or 4.
fn finish<K: Sink>(status: u8, line: &[u8], out: &mut K) -> u8
    ensures { IsFinish status line.now (K.written out.old) (K.written out.new) (K.faults out.old) (K.faults out.new) result }
{
    match out.put(line) {
        Ok(()) => status,
        Err(SinkError::Failed) => stop_for_fault(out),
        Err(SinkError::Memory) => stop_for_memory(out),
    }
}

// Tries to say that a file or the output failed.
fn stop_for_fault<K: Sink>(out: &mut K) -> u8
    ensures status { result ≡ 3 }
    ensures line { WhereTold (PutsPrefix fault_line) (K.written out.old) (K.written out.new) }
    ensures count { NeverFalls (K.faults out.old) (K.faults out.new) }
{
    let _ = out.put(FAULT);
    3
}

// Tries to say that there was no memory.
fn stop_for_memory<K: Sink>(out: &mut K) -> u8
    ensures status { result ≡ 4 }
    ensures line { WhereTold (PutsPrefix memory_line) (K.written out.old) (K.written out.new) }
{
    let _ = out.put(MEMORY);
    4
}
