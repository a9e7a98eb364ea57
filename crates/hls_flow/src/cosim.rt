ghost use Rattle.std.specs.Prelude.{◌≡◌, ◌<◌, ◌≤◌, ◌^◌, length, slice_get, Some, IfOk};
ghost use Rattle.hls_base.specs.Refusals.{IfRefused};
ghost use Rattle.hls_base.specs.declared.refusal.Refusal.{Refusal};
ghost use Rattle.c_tree.specs.Tree as tree;
ghost use Rattle.c_tree.specs.View.{program_of, function_of};
ghost use Rattle.c_elaborate.specs.Programs.{program_elaborated};
ghost use Rattle.c_expand.specs.Expansion.{expansion, expanded_weight};
ghost use Rattle.pieces.specs.Program.{expanded_of};
ghost use Rattle.cycle_report.specs.FormulaValue.{cycles};
ghost use Rattle.cosim_levels.specs.Pins.FunctionPins.{interface_of, plain};
ghost use Rattle.cosim_levels.specs.Verdicts.{verdict_of, IfStopped};
ghost use Rattle.cosim_levels.specs.Levels.{IsWaiting};
ghost use Rattle.source_answers.specs.SourceRuns.{IsFaultless};
ghost use Rattle.hls_flow.specs.FirstFault.{IsFirstFault};
ghost use Rattle.hls_flow.specs.Ending.{HasEnded};
ghost use Rattle.hls_flow.specs.Verdicts.{greatest_points, AreFiles, IsVerdictOn, IsVerdict, inputs_of};
ghost use Rattle.hls_flow.specs.Comparing.{files_of, AreCompared, IsAgreement};

use crate::files::{Read, read_files};
use crate::machines::clocked_steps;
use crate::top::top_of;
use crate::verdict::CosimInputs;
use c_meaning::checks::Checked;
use c_meaning::outcome::Final;
use c_tree::function::Function;
use checked_source::read::read_checked;
use compile_steps::steps::expanded;
use cosim_levels::compared::{agreeing, differing};
use cosim_levels::difference::first_difference;
use cosim_levels::levels::{c_level, module_level, short_cycles};
use cosim_levels::verdict::{Difference, Stop, Verdict};
use hls_base::inputs::Inputs;
use hls_base::refusal::Fail;
use hls_base::settings::Settings;
use pieces::expanded::Expanded;
use promises::compile::compile_expanded;
use promises::ended_machines::clocked_runs_end_in_time;
use std::alloc::{AllocError, Global};

/// What a program is compiled with and run on, and the cycles that its report gives for the run.
#[derive(Drop)]
struct Counted {
    settings: Settings,
    inputs: Inputs,
    cycles: u128,
}

/// That, and where the module differs first from the run in C.
#[derive(Drop)]
struct Compared {
    counted: Counted,
    difference: Option<Difference>,
}

/// Runs the module, and compares it with the run in C.
fn compare_module(
    alloc: Global,
    given: &CosimInputs,
    function: &Function,
    read: Read,
    ended: &Final,
) -> Result<Compared, Stop>
    requires interface { plain read.interface ≡ interface_of (function_of function.now) }
    requires files { AreFiles given.now (function_of function.now) (files_of read) }
    requires scalars { length read.inputs.scalars ≡ length read.interface.scalars.items }
    requires cycles { cycles (files_of read).report.base (files_of read).report.rows ended.now.tally < 2 ^ 127 }
    ensures settings { IfOk result (λ c. c.counted.settings ≡ (files_of read).report.settings) }
    ensures inputs { IfOk result (λ c. c.counted.inputs ≡ inputs_of (files_of read)) }
    ensures compared { IfOk result (λ c. AreCompared given.now (function_of function.now) (files_of read) ended.now c.counted.cycles c.difference) }
    ensures waiting { IfStopped result (IsWaiting (files_of read).circuit (interface_of (function_of function.now)) (files_of read).scalars (files_of read).arrays given.now.cycles) }
{
    let Read {
        interface,
        report,
        design,
        inputs,
    } = read;
    let shown = module_level(alloc, design, &interface, &inputs, given.cycles)?;
    let cycles = short_cycles(&report.formula, &ended.tally);
    let difference = first_difference(alloc, function, ended, cycles, &shown)?;
    Ok(Compared {
        counted: Counted {
            settings: report.settings,
            inputs,
            cycles,
        },
        difference,
    })
}

/// The verdict where no number differs: the clocked machine is run too, and its steps are told.
fn agreement(
    alloc: Global,
    function: &Function,
    expanded: &Expanded,
    counted: &Counted,
    ended: &Final,
) -> Result<Verdict, AllocError>
    requires { HasEnded (expanded_of expanded.now) counted.now.inputs ended.now }
    ensures { IfOk result (λ v. IsAgreement (expanded_of expanded.now) counted.now.settings counted.now.inputs (function_of function.now) ended.now counted.now.cycles (verdict_of v)) }
{
    let compiled = compile_expanded(alloc, expanded, &counted.settings)?;
    clocked_runs_end_in_time();
    let clock = clocked_steps(alloc, &compiled.timed, &counted.inputs)?;
    agreeing(alloc, function, ended, counted.cycles, u128::from(clock))
}

/// Runs all levels of a program with this top function.
fn compare(
    alloc: Global,
    given: &CosimInputs,
    checked: &Checked,
    function: &Function,
    expanded: &Expanded,
) -> Result<Verdict, Stop>
    requires points { given.now.points ≤ greatest_points }
    requires expanded { expanded_of expanded.now ≡ expansion (program_elaborated (program_of checked.now.program) checked.now.top) }
    requires source { IsFaultless given.now.source (program_of checked.now.program) checked.now.top given.now.top }
    requires within { expanded_weight (program_elaborated (program_of checked.now.program) checked.now.top) ≤ 8192 }
    requires item { slice_get (program_of checked.now.program).items checked.now.top ≡ Some (tree.function (function_of function.now)) }
    ensures ran { IfOk result (λ v. IsVerdictOn given.now (program_of checked.now.program) checked.now.top (function_of function.now) (verdict_of v)) }
    ensures stopped { IfStopped result (IsVerdictOn given.now (program_of checked.now.program) checked.now.top (function_of function.now)) }
{
    let read = read_files(alloc, given, function)?;
    let ended = c_level(alloc, checked, &read.inputs, given.points)?;
    let Compared {
        counted,
        difference,
    } = compare_module(alloc, given, function, read, &ended)?;
    match difference {
        Some(difference) => Ok(differing(difference)),
        None => Ok(agreement(alloc, function, expanded, &counted, &ended)?),
    }
}

/// Compares the levels of a program: its run in C, its module driven through its pins, with the cycles that the formula of its report gives, and its clocked blocks. It is refused where the source is.
pub fn cosim(alloc: Global, given: &CosimInputs) -> Result<Verdict, Fail>
    requires { given.now.points ≤ greatest_points }
    ensures verdict { IfOk result (λ v. IsVerdict given.now (verdict_of v)) }
    ensures refused { IfRefused result (IsFirstFault given.now.source given.now.top) }
    ensures once { IfRefused result (λ r. (q : Refusal) → IsFirstFault given.now.source given.now.top q → q ≡ r) }
{
    let checked = read_checked(alloc, given.source.items(), &given.top)?;
    let expanded = expanded(alloc, &checked)?;
    match compare(alloc, given, &checked, top_of(&checked), &expanded) {
        Ok(verdict) => Ok(verdict),
        Err(Stop::Answer(verdict)) => Ok(verdict),
        Err(Stop::Memory) => Err(Fail::Memory),
    }
}
