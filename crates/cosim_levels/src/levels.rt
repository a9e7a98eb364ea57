//! The levels of a program: its run in C, and that of its module.
ghost use Rattle.std.specs.Prelude.{◌≡◌, ◌<◌, ◌^◌, length, Some, IfOk};
ghost use Rattle.c_tree.specs.View.{program_of};
ghost use Rattle.c_meaning.specs.Run.{c_run, first_contents};
ghost use Rattle.c_interpreter.specs.Execution.Progress.{outcome_of};
ghost use Rattle.rtl_core.specs.Netlist.{netlist_of};
ghost use Rattle.rtl_core.specs.Valid.{IsValid};
ghost use Rattle.rtl_core.specs.Interface.{HasPins};
ghost use Rattle.cycle_report.specs.FormulaValue.{cycles};
ghost use Rattle.cosim_levels.specs.Pins.FunctionPins.{plain};
ghost use Rattle.cosim_levels.specs.Pins.ModuleRun.{module_run};
ghost use Rattle.cosim_levels.specs.Verdicts.{IfStopped};
ghost use Rattle.cosim_levels.specs.Levels.{EndsWith, IsUnended, IsWaiting};

use crate::pins::drive::{Shown, drive};
use crate::pins::interface::Interface;
use crate::verdict::{Level, Stop, Verdict};
use c_interpreter::execution::run::start;
use c_meaning::checks::Checked;
use c_meaning::outcome::{Final, Outcome};
use cycle_report::report::Formula;
use hls_base::inputs::Inputs;
use hls_base::point::Tally;
use hls_base::refusal::impossible;
use rtl_core::design::Design;
use std::alloc::{AllocError, Global};

/// What the run of the program comes to within so many points.
fn outcome_within(
    alloc: Global,
    checked: &Checked,
    inputs: &Inputs,
    points: u64,
) -> Result<Outcome, AllocError>
    ensures { IfOk result (λ o. o ≡ outcome_of (c_run (program_of checked.now.program) checked.now.top (first_contents (program_of checked.now.program)) inputs.now.scalars inputs.now.arrays points)) }
{
    let mut run = start(alloc, checked, inputs)?;
    run.go(alloc, points)
}

/// What the run of the program ends with, of so many points at most.
pub fn c_level(
    alloc: Global,
    checked: &Checked,
    inputs: &Inputs,
    points: u64,
) -> Result<Final, Stop>
    ensures ended { IfOk result (EndsWith (c_run (program_of checked.now.program) checked.now.top (first_contents (program_of checked.now.program)) inputs.now.scalars inputs.now.arrays points)) }
    ensures unended { IfStopped result (IsUnended (c_run (program_of checked.now.program) checked.now.top (first_contents (program_of checked.now.program)) inputs.now.scalars inputs.now.arrays points) points) }
{
    match outcome_within(alloc, checked, inputs, points)? {
        Outcome::Ended(ended) => Ok(ended),
        Outcome::Running => Err(Stop::Answer(Verdict::Waiting {
            level: Level::C,
            limit: points,
        })),
        Outcome::Undefined(rule, at) => Err(Stop::Answer(Verdict::Undefined(rule, at))),
    }
}

/// What the run of the module shows, where each wait takes so many cycles at most.
pub fn module_level(
    alloc: Global,
    design: Design,
    interface: &Interface,
    inputs: &Inputs,
    cycles: u64,
) -> Result<Shown, Stop>
    requires valid { IsValid (netlist_of design) }
    requires pins { HasPins (netlist_of design) (plain interface.now) }
    requires scalars { length inputs.now.scalars ≡ length interface.now.scalars.items }
    ensures shown { IfOk result (λ s. module_run (netlist_of design) (plain interface.now) inputs.now.scalars inputs.now.arrays cycles ≡ Some s) }
    ensures waiting { IfStopped result (IsWaiting (netlist_of design) (plain interface.now) inputs.now.scalars inputs.now.arrays cycles) }
{
    match drive(alloc, design, interface, inputs, cycles)? {
        Some(shown) => Ok(shown),
        None => Err(Stop::Answer(Verdict::Waiting {
            level: Level::Verilog,
            limit: cycles,
        })),
    }
}

/// The cycles that a formula gives for a run, where they have 128 bits.
pub fn short_cycles(formula: &Formula, tally: &Tally) -> u128
    requires { cycles formula.now.base formula.now.rows.items tally.now < 2 ^ 128 }
    ensures { result ≡ cycles formula.now.base formula.now.rows.items tally.now }
{
    match formula.cycles(tally) {
        Some(cycles) => cycles,
        None => unreachable!(),
    }
}

/// The cycles that a formula gives for a run.
pub fn cycles_of(formula: &Formula, tally: &Tally) -> Result<u128, AllocError>
    ensures { IfOk result (λ n. n ≡ cycles formula.now.base formula.now.rows.items tally.now) }
{
    match formula.cycles(tally) {
        Some(cycles) => Ok(cycles),
        None => Err(impossible()),
    }
}
