//! The work of a command: it reads, compiles and writes, and puts nothing.
ghost use Rattle.std.specs.Prelude.{◌≡◌, ◌≤◌, ◌⊎◌, IfOk, OnOk, OnErr, IsErrOf};
ghost use Rattle.hls_base.specs.Outside.{HasRisen, NeverFalls, WhereTold, IsAbsent};
ghost use Rattle.hls_base.specs.Refusals.{IfRefused};
ghost use Rattle.hls_flow.specs.FirstFault.{IsFirstFault};
ghost use Rattle.hls_flow.specs.Synthesis.{IsSynthesis};
ghost use Rattle.hls_flow.specs.Verdicts.{greatest_points};
ghost use Rattle.command_words.specs.CommandViews.{synth_view, cosim_view, HasRange, HasLimits, NamesThreeFiles};
ghost use Rattle.hls_cli.specs.Words.{settings_of};
ghost use Rattle.hls_cli.specs.Comparisons.{IsGiven, IsCosimAnswer, IsCosimWork, IsSoakWork};
ghost use Rattle.hls_cli.specs.Lines as line;
ghost use Rattle.hls_cli.specs.SynthRun.{IsStopped};
ghost use Rattle.hls_cli.specs.Work.{AreWritten, AreCutShort, IsSynthWork, IsVerdictStatus};

use crate::lines::{made_line, refusal_line, soak_line};
use crate::verdict_lines::{verdict_lines, verdict_status};
use command_words::command::{Cosim, Synth};
use hls_base::outside::{Shelf, ShelfError};
use hls_base::refusal::{Fail, Refusal};
use hls_base::settings::Settings;
use hls_base::text::Text;
use hls_flow::cosim::cosim;
use hls_flow::soak::soak;
use hls_flow::synth::{Made, synth};
use hls_flow::verdict::CosimInputs;
use std::alloc::{AllocError, Global};

/// How many bytes of a source are read: one more than the largest source has.
const SOURCE_BYTES: u32 = 65_537;

/// How many bytes of a module are read: one more than the largest has.
const MODULE_BYTES: u32 = 67_108_865;

/// How many bytes of a report or a run file are read: one more than the largest has.
const TEXT_BYTES: u32 = 16_777_217;

/// The status of what the work gave, and the lines that say it.
#[derive(Drop)]
pub struct Answer {
    pub status: u8,
    pub lines: Text,
}

/// The settings that a command asks for.
fn settings_of(alloc: Global, command: &Synth) -> Result<Settings, AllocError>
    ensures { IfOk result (λ s. s ≡ settings_of (synth_view command.now)) }
{
    Ok(Settings {
        top: Text::from_slice(alloc, command.top.as_bytes())?,
        mul: command.mul,
        div: command.div,
        ports: command.ports,
        plain: command.plain,
        period: command.period,
    })
}

fn compile(alloc: Global, command: &Synth, source: &[u8]) -> Result<Made, Fail>
    requires { HasRange (synth_view command.now) }
    ensures made { IfOk result (λ m. IsSynthesis source.now (settings_of (synth_view command.now)) m.module m.report) }
    ensures refused { IfRefused result (IsFirstFault source.now command.now.top.now) }
{
    let settings = settings_of(alloc, command)?;
    synth(alloc, source, &settings)
}

fn write_files<F: Shelf>(command: &Synth, made: &Made, shelf: &mut F) -> Result<(), ShelfError>
    ensures written { OnOk result (WhereTold (AreWritten (synth_view command.now) made.now.module made.now.report) (F.files shelf.old) (F.files shelf.new)) }
    ensures cut_short { OnErr result (WhereTold (AreCutShort (synth_view command.now) made.now.module made.now.report) (F.files shelf.old) (F.files shelf.new)) }
    ensures failed { IsErrOf result ShelfError.Failed → HasRisen (F.faults shelf.old) (F.faults shelf.new) }
    ensures count { NeverFalls (F.faults shelf.old) (F.faults shelf.new) }
{
    shelf.write(command.report, made.report.items())?;
    shelf.write(command.module_file, made.module.items())
}

/// Compiles the source, and writes the report and then the module.
pub fn work_synth<F: Shelf>(
    alloc: Global,
    command: &Synth,
    shelf: &mut F,
) -> Result<Answer, ShelfError>
    requires range { HasRange (synth_view command.now) }
    requires files { NamesThreeFiles (synth_view command.now) }
    ensures answer { IfOk result (IsSynthWork (synth_view command.now) (F.files shelf.old) (F.files shelf.new)) }
    ensures stopped { OnErr result (WhereTold (IsStopped (synth_view command.now)) (F.files shelf.old) (F.files shelf.new)) }
    ensures failed { IsErrOf result ShelfError.Failed →
        HasRisen (F.faults shelf.old) (F.faults shelf.new) ⊎ IsAbsent (F.files shelf.old) command.now.source.now }
    ensures count { NeverFalls (F.faults shelf.old) (F.faults shelf.new) }
{
    let source = shelf.read(alloc, command.source, SOURCE_BYTES)?;
    match compile(alloc, command, source.as_slice()) {
        Ok(made) => {
            let lines = made_line(alloc, command)?;
            write_files(command, &made, shelf)?;
            Ok(Answer { status: 0, lines })
        }
        Err(Fail::Refused(refusal)) => Ok(refused(alloc, refusal)?),
        Err(Fail::Memory) => Err(ShelfError::Memory),
    }
}

/// The answer to a source that is refused.
fn refused(alloc: Global, refusal: Refusal) -> Result<Answer, AllocError>
    ensures status { IfOk result (λ a. a.status ≡ 1) }
    ensures lines { IfOk result (λ a. a.lines ≡ line.refusal_line refusal) }
{
    Ok(Answer {
        status: 1,
        lines: refusal_line(alloc, refusal)?,
    })
}

/// Reads the files of a comparison.
fn read_files<F: Shelf>(
    alloc: Global,
    command: &Cosim,
    shelf: &mut F,
) -> Result<CosimInputs, ShelfError>
    ensures given { IfOk result (IsGiven (cosim_view command.now) (F.files shelf.old)) }
    ensures files { F.files shelf.new ≡ F.files shelf.old }
    ensures failed { IsErrOf result ShelfError.Failed →
        HasRisen (F.faults shelf.old) (F.faults shelf.new) ⊎ (IsAbsent (F.files shelf.old) command.now.source.now ⊎ (IsAbsent (F.files shelf.old) command.now.module_file.now ⊎ (IsAbsent (F.files shelf.old) command.now.report.now ⊎ IsAbsent (F.files shelf.old) command.now.run.now))) }
    ensures count { NeverFalls (F.faults shelf.old) (F.faults shelf.new) }
{
    let source = shelf.read(alloc, command.source, SOURCE_BYTES)?;
    let module_bytes = shelf.read(alloc, command.module_file, MODULE_BYTES)?;
    let report = shelf.read(alloc, command.report, TEXT_BYTES)?;
    let run = shelf.read(alloc, command.run, TEXT_BYTES)?;
    Ok(CosimInputs {
        source: Text::new(source),
        module: Text::new(module_bytes),
        report: Text::new(report),
        run: Text::new(run),
        top: Text::from_slice(alloc, command.top.as_bytes())?,
        points: command.points,
        cycles: command.cycles,
    })
}

/// What a comparison says of what was read.
fn compared(alloc: Global, given: &CosimInputs) -> Result<Answer, ShelfError>
    requires { given.now.points ≤ greatest_points }
    ensures answer { IfOk result (λ a. IsCosimAnswer given.now a.status a.lines) }
    ensures status { IfOk result (λ a. IsVerdictStatus a.status) }
    ensures memory { IsErrOf result ShelfError.Failed → ⊥ }
{
    match cosim(alloc, given) {
        Ok(verdict) => Ok(Answer {
            status: verdict_status(&verdict),
            lines: Text::new(verdict_lines(alloc, &verdict)?),
        }),
        Err(Fail::Refused(refusal)) => Ok(refused(alloc, refusal)?),
        Err(Fail::Memory) => Err(ShelfError::Memory),
    }
}

/// Compares the levels of a program.
pub fn work_cosim<F: Shelf>(
    alloc: Global,
    command: &Cosim,
    shelf: &mut F,
) -> Result<Answer, ShelfError>
    requires { HasLimits (cosim_view command.now) }
    ensures answer { IfOk result (λ a. IsCosimWork (cosim_view command.now) (F.files shelf.old) a.status a.lines) }
    ensures files { F.files shelf.new ≡ F.files shelf.old }
    ensures status { IfOk result (λ a. IsVerdictStatus a.status) }
    ensures failed { IsErrOf result ShelfError.Failed →
        HasRisen (F.faults shelf.old) (F.faults shelf.new) ⊎ (IsAbsent (F.files shelf.old) command.now.source.now ⊎ (IsAbsent (F.files shelf.old) command.now.module_file.now ⊎ (IsAbsent (F.files shelf.old) command.now.report.now ⊎ IsAbsent (F.files shelf.old) command.now.run.now))) }
    ensures count { NeverFalls (F.faults shelf.old) (F.faults shelf.new) }
{
    let given = read_files(alloc, command, shelf)?;
    compared(alloc, &given)
}

/// Makes a program from a number, and compares its levels.
pub fn work_soak(alloc: Global, number: u64) -> Result<Answer, AllocError>
    ensures answer { IfOk result (λ a. IsSoakWork number a.status a.lines) }
    ensures status { IfOk result (λ a. a.status ≡ 0) }
{
    let summary = soak(alloc, number)?;
    Ok(Answer {
        status: 0,
        lines: soak_line(alloc, number, summary)?,
    })
}
