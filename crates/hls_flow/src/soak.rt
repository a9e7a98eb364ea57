ghost use Rattle.std.specs.Prelude.{◌≡◌, Some, IfOk, IfSome, IsTrue};
ghost use Rattle.c_tree.specs.View.{program_of, function_of};
ghost use Rattle.c_meaning.specs.FittingInputs.{inputs_fit};
ghost use Rattle.rtl_core.specs.Netlist.{netlist_of};
ghost use Rattle.cycle_report.specs.PlainReport.{plain_of};
ghost use Rattle.driven_circuits.specs.Driven.{AgreesWithC};
ghost use Rattle.compile_steps.specs.LongRuns.{RunsAreLong};
ghost use Rattle.hls_flow.specs.Ending.{RunsEndInTime};
ghost use Rattle.hls_flow.specs.SoakRun.{soak_settings, IsCompiled, IsAgreedRun, IsSoakRun};

use crate::machines::clocked_steps;
use crate::scheduled::scheduled;
use crate::top::top_of;
use c_machine::state::inputs::inputs_fit;
use c_meaning::checks::Checked;
use c_meaning::outcome::Final;
use c_tree::function::Function;
use checked_source::read::read_checked;
use compile_steps::steps::expanded;
use cosim_levels::difference::first_difference;
use cosim_levels::levels::{c_level, module_level, short_cycles};
use cosim_levels::pins::interface::interface_of;
use cosim_levels::program::soak_program;
use cosim_levels::verdict::Stop;
use hls_base::inputs::Inputs;
use hls_base::refusal::{Fail, impossible};
use hls_base::settings::Settings;
use hls_base::text::Text;
use promises::compile::Compiled;
use promises::ended_machines::clocked_runs_end_in_time;
use std::alloc::{AllocError, Global};

/// What a made program comes to: how many of its lines multiply, the cycles of its run, and its result.
#[derive(Clone, Copy, PartialEq, Eq)]
pub struct Summary {
    pub muls: u32,
    pub cycles: u128,
    pub ret: u32,
}

/// How many points a run of the program may pass, and how many cycles a wait may take.
const LIMIT: u64 = 1_000_000;

fn settings(alloc: Global) -> Result<Settings, AllocError>
    ensures { IfOk result (λ s. s ≡ soak_settings) }
{
    Ok(Settings {
        top: Text::from_slice(alloc, b"f")?,
        mul: 1,
        div: 1,
        ports: 1,
        plain: false,
        period: 0,
    })
}

/// The program without faults, and what it is compiled to, whose clocked runs end where the runs in C do.
fn compiled(alloc: Global, source: &[u8]) -> Result<(Checked, Compiled), Fail>
    ensures timely { IfOk result (λ made. RunsEndInTime (program_of made.0.program) made.0.top made.1.timed) }
    ensures made { IfOk result (λ made. IsCompiled source.now (program_of made.0.program) made.0.top (plain_of made.1.report) (netlist_of made.1.design)) }
{
    let settings = settings(alloc)?;
    let checked = read_checked(alloc, source, &settings.top)?;
    let expanded = expanded(alloc, &checked)?;
    let compiled = scheduled(alloc, &expanded, &settings)?;
    clocked_runs_end_in_time();
    Ok((checked, compiled))
}

/// The end of a run and its cycles, where the clocked machine takes as many.
fn counted(ended: Final, cycles: u128, clock: u64) -> Option<(Final, u128)>
    ensures { IfSome result (λ run. (run.0 ≡ ended) × (run.1 ≡ cycles)) }
{
    if u128::from(clock) == cycles {
        Some((ended, cycles))
    } else {
        None
    }
}

/// Runs all levels. Where they agree, what the run in C ends with and its cycles are those of each.
fn run_levels(
    alloc: Global,
    checked: &Checked,
    function: &Function,
    compiled: Compiled,
    inputs: &Inputs,
) -> Result<Option<(Final, u128)>, Stop>
    requires agrees { AgreesWithC (program_of checked.now.program) checked.now.top (function_of function.now) (plain_of compiled.report) (netlist_of compiled.design) }
    requires long { RunsAreLong (program_of checked.now.program) checked.now.top (plain_of compiled.report) }
    requires timely { RunsEndInTime (program_of checked.now.program) checked.now.top compiled.timed }
    requires fit { IsTrue (inputs_fit (function_of function.now).params inputs.now.scalars inputs.now.arrays) }
    ensures { IfOk result (λ o. IfSome o (λ run. IsAgreedRun (program_of checked.now.program) checked.now.top (function_of function.now) inputs.now.scalars inputs.now.arrays (plain_of compiled.report) (netlist_of compiled.design) run.0 run.1)) }
{
    let Compiled {
        timed,
        design,
        report,
        ..
    } = compiled;
    let interface = interface_of(alloc, function)?;
    let ended = c_level(alloc, checked, inputs, LIMIT)?;
    let shown = module_level(alloc, design, &interface, inputs, LIMIT)?;
    let cycles = short_cycles(&report.formula, &ended.tally);
    let difference = first_difference(alloc, function, &ended, cycles, &shown)?;
    if difference.is_some() {
        return Ok(None);
    }
    let clock = clocked_steps(alloc, &timed, inputs)?;
    Ok(counted(ended, cycles, clock))
}

/// What is told of a run with this result, which has 32 bits.
fn told(muls: u32, cycles: u128, ret: Option<u64>) -> Option<Summary>
    ensures counts { IfSome result (λ s. (s.muls ≡ muls) × (s.cycles ≡ cycles)) }
    ensures returned { IfSome result (λ s. ret ≡ Some s.ret) }
{
    match ret {
        Some(word) if word <= u64::from(u32::MAX) => Some(Summary {
            muls,
            cycles,
            ret: word as u32,
        }),
        _ => None,
    }
}

/// What is told of the program of a number, where it is accepted, and its levels end and agree.
fn summary_of(alloc: Global, number: u64) -> Result<Option<Summary>, AllocError>
    ensures { IfOk result (λ o. IfSome o (IsSoakRun number)) }
{
    let program = soak_program(alloc, number)?;
    let Ok((checked, compiled)) = compiled(alloc, program.text.items()) else {
        return Ok(None);
    };
    let function = top_of(&checked);
    if !inputs_fit(alloc, &function.params, &program.inputs)? {
        return Ok(None);
    }
    let Ok(Some((ended, cycles))) = run_levels(alloc, &checked, function, compiled, &program.inputs)
    else {
        return Ok(None);
    };
    Ok(told(program.muls, cycles, ended.ret))
}

/// Makes a program from a number, compiles it, and compares its levels. Such a program is never refused, and its levels agree.
pub fn soak(alloc: Global, number: u64) -> Result<Summary, AllocError>
    ensures { IfOk result (IsSoakRun number) }
{
    match summary_of(alloc, number)? {
        Some(summary) => Ok(summary),
        None => Err(impossible()),
    }
}
