//! A flat program is run to its end, and what the machine shows then.
ghost use Rattle.std.specs.Prelude.{◌≡◌, ◌+◌, ◌≤◌, ◌<◌, length, map, IfOk, OnOk};
ghost use Rattle.hls_base.specs.Tallies.{count_in};
ghost use Rattle.ir_core.specs.FirstContents.{first_words};
ghost use Rattle.cycle_report.specs.FormulaValue.{cycles};
ghost use Rattle.program_validity.specs.Programs.{is_valid};
ghost use Rattle.flat_programs.specs.Machine.Rest.{IsWhole, rest};
ghost use Rattle.flat_programs.specs.Machine.States.{words_of};
ghost use Rattle.stage_runs.specs.Points.{HasPassed, node_points};
ghost use Rattle.stage_runs.specs.Stages.{AreElements, AreArrays, IsToldOf, step_costs};

use crate::points::point_counts;
use crate::stage::{Stage, StageName};
use crate::steps::tallied_steps;
use c_machine::state::meter::Meter;
use c_meaning::laws::tallies_count;
use c_meaning::outcome::Final;
use flat_programs::machine::machine::SeqMachine;
use hls_base::inputs::Inputs;
use hls_base::number::ArrayId;
use hls_base::refusal::impossible;
use hls_base::words::{Arrays, Words};
use ir_core::cfg::Cfg;
use ir_core::machine::{Halt, Machine};
use ir_core::stamp::Untimed;
use program_validity::program::valid;
use std::alloc::{AllocError, Global};

/// One step, whose point is counted.
fn pass_counted(
    alloc: Global,
    machine: &mut SeqMachine,
    meter: &mut Meter,
) -> Result<(), AllocError>
    requires { 0 < meter.old.left }
    ensures passes { OnOk result (IsWhole machine.old.cfg.now →
        HasPassed 1 (rest machine.old.cfg.now machine.old.state) (rest machine.new.cfg.now machine.new.state) meter.old.counts meter.new.counts) }
    ensures left { OnOk result (meter.old.left ≤ meter.new.left + 1) }
    ensures program { machine.new.cfg.now ≡ machine.old.cfg.now }
{
    if let Some(point) = machine.pass() {
        meter.count(alloc, point.path.items(), point.at, point.kind)?;
    }
    Ok(())
}

/// How a machine halted. Nothing is run.
fn halt_of(machine: &mut SeqMachine) -> Halt
    ensures halt { result ≡ machine.new.state.halt }
    ensures same { machine.new ≡ machine.old }
{
    machine.run(0)
}

/// Goes on to the end, and counts the steps and the points.
fn run_to_end(alloc: Global, machine: &mut SeqMachine, meter: &mut Meter) -> Result<u64, AllocError>
    requires { 18446744073709551615 ≤ meter.old.left }
    ensures passes { IfOk result (λ steps. IsWhole machine.old.cfg.now →
        HasPassed steps (rest machine.old.cfg.now machine.old.state) (rest machine.new.cfg.now machine.new.state) meter.old.counts meter.new.counts) }
    ensures program { machine.new.cfg.now ≡ machine.old.cfg.now }
{
    for steps in 0..u64::MAX {
        pass_counted(alloc, machine, meter)?;
        if halt_of(machine) != Halt::Running {
            return Ok(steps + 1);
        }
    }
    Ok(u64::MAX)
}

fn narrow(number: usize) -> Result<u32, AllocError>
    ensures { IfOk result (λ n. n ≡ number) }
{
    match u32::try_from(number) {
        Ok(number) => Ok(number),
        Err(_) => Err(impossible()),
    }
}

/// The first elements of an array, so many of them.
fn elements(
    alloc: Global,
    machine: &SeqMachine,
    array: u32,
    count: u32,
) -> Result<Words, AllocError>
    ensures words { IfOk result (AreElements machine.now.cfg.now (words_of machine.now.state) array) }
    ensures count { IfOk result (λ w. length w ≡ count) }
{
    let mut words = Vec::new(alloc);
    for index in 0..count {
        words.push(machine.element(ArrayId(array), index))?;
    }
    Ok(Words::new(words))
}

/// The elements of the arrays of the host, as many of each as were given.
fn all_elements(alloc: Global, machine: &SeqMachine, given: &[Words]) -> Result<Arrays, AllocError>
    ensures words { IfOk result (AreArrays machine.now.cfg.now (words_of machine.now.state)) }
    ensures counts { IfOk result (λ a. map length a ≡ map length given.now) }
{
    let mut arrays = Vec::new(alloc);
    for k in 0..given.len() {
        let count = narrow(given[k].items().len())?;
        arrays.push(elements(alloc, machine, narrow(k)?, count)?)?;
    }
    Ok(Arrays::new(arrays))
}

/// Runs a stage's flat program to its end, beside the end of the run in C.
pub fn run_stage(
    alloc: Global,
    name: StageName,
    cfg: &Cfg<Untimed>,
    inputs: &Inputs,
    ended: &Final,
) -> Result<Stage, AllocError>
    ensures told { IfOk result (λ s. IsWhole cfg.now → IsToldOf cfg.now inputs.now s) }
    ensures counts { IfOk result (λ s. map length s.arrays ≡ map length inputs.now.arrays) }
    ensures name { IfOk result (λ s. s.name ≡ name) }
    ensures valid { IfOk result (λ s. s.valid ≡ is_valid cfg.now) }
    ensures tallied { IfOk result (λ s. s.tallied ≡ cycles 0 (step_costs cfg.now.nodes.items) ended.now.tally) }
    ensures points { IfOk result (λ s. map (λ p. p.point) s.points.items ≡ node_points cfg.now.nodes.items) }
    ensures in_c { IfOk result (λ s.
        map (λ p. p.in_c) s.points.items ≡ map (count_in ended.now.tally) (node_points cfg.now.nodes.items)) }
{
    let mut machine = SeqMachine::new(alloc, cfg, inputs)?;
    let mut meter = Meter::new(alloc);
    meter.allow(u64::MAX);
    let steps = run_to_end(alloc, &mut machine, &mut meter)?;
    let halt = halt_of(&mut machine);
    machine.halts_as_the_run();
    machine.passes_as_the_run();
    tallies_count();
    let tally = meter.tally(alloc)?;
    Ok(Stage {
        name,
        valid: valid(cfg),
        halt,
        ret: machine.ret(),
        arrays: all_elements(alloc, &machine, inputs.arrays.items())?,
        steps,
        tallied: tallied_steps(alloc, &cfg.nodes, &ended.tally)?,
        points: point_counts(alloc, &cfg.nodes, &tally, &ended.tally)?,
    })
}
