//! The points of a run.
ghost use Rattle.std.specs.Prelude.{◌≡◌, ◌+◌, ◌<◌, ◌≤◌, OnOk, OnErr};
ghost use Rattle.c_machine.specs.Moves.{point_passed};
ghost use Rattle.c_machine.specs.Frames as f;
ghost use Rattle.c_machine.specs.Sound.{Sound};
ghost use Rattle.c_machine.specs.Shape.{Shaped};
ghost use Rattle.c_machine.specs.Following.{keeps_following, is_done};
ghost use Rattle.c_meaning.specs.Points.{count_point};
ghost use Rattle.c_machine.specs.Waiting.Shown.{step_of};
ghost use Rattle.c_moves.specs.Machines.{configuration_of};

use crate::step::run_on;
use c_machine::waiting::frame::{Control, Spot, Step};
use c_moves::machine::Machine;
use std::alloc::{AllocError, Global};

#[tactic(auto, using(crate::proofs::MachineRules::keeping))]
/// Passes the point before which control stands.
fn pass<'p>(
    machine: &mut Machine<'p>,
    alloc: Global,
    spot: Spot,
    step: Step<'p>,
) -> Result<(), AllocError>
    requires left { 0 < machine.old.meter.left }
    requires before { (configuration_of machine.old).control ≡ f.before spot.kind spot.at (step_of step) }
    requires sound { Sound (configuration_of machine.old) }
    requires shaped { Shaped (configuration_of machine.old) }
    ensures left { OnOk result (machine.new.meter.left + 1 ≡ machine.old.meter.left) }
    ensures total { machine.new.meter.left + machine.new.meter.passed ≡ machine.old.meter.left + machine.old.meter.passed }
    ensures more { machine.old.meter.passed ≤ machine.new.meter.passed }
    ensures follows { keeps_following (configuration_of machine.old) (configuration_of machine.new) }
    ensures sound { Sound (configuration_of machine.new) }
    ensures shaped { Shaped (configuration_of machine.new) }
{
    count(machine, alloc, spot, step)
}

fn count<'p>(
    machine: &mut Machine<'p>,
    alloc: Global,
    spot: Spot,
    step: Step<'p>,
) -> Result<(), AllocError>
    requires { 0 < machine.old.meter.left }
    ensures ok { OnOk result (configuration_of machine.new ≡ record (point_passed (step_of step.entry) (configuration_of machine.old)) { meter = machine.new.meter }) }
    ensures left { OnOk result (machine.new.meter.left + 1 ≡ machine.old.meter.left) }
    ensures passed { OnOk result (machine.new.meter.passed ≡ machine.old.meter.passed + 1) }
    ensures counts { OnOk result (machine.new.meter.counts ≡ count_point (record { path = (configuration_of machine.old).held.environment.path; at = spot.at; kind = spot.kind }) machine.old.meter.counts) }
    ensures err { OnErr result (configuration_of machine.new ≡ configuration_of machine.old) }
{
    let path = machine.scopes.path();
    machine.meter.count(alloc, path, spot.at, spot.kind)?;
    machine.go(step);
    Ok(())
}

#[tactic(auto, using(crate::proofs::MachineRules::keeping))]
/// Goes on until no more points may be passed, or to the end of the run.
pub fn run(machine: &mut Machine<'_>, alloc: Global) -> Result<(), AllocError>
    requires sound { Sound (configuration_of machine.old) }
    requires shaped { Shaped (configuration_of machine.old) }
    ensures total { machine.new.meter.left + machine.new.meter.passed ≡ machine.old.meter.left + machine.old.meter.passed }
    ensures more { machine.old.meter.passed ≤ machine.new.meter.passed }
    ensures follows { keeps_following (configuration_of machine.old) (configuration_of machine.new) }
    ensures sound { Sound (configuration_of machine.new) }
    ensures shaped { Shaped (configuration_of machine.new) }
    ensures done { OnOk result (is_done (configuration_of machine.new).control machine.new.meter.left) }
{
    run_on(machine, alloc)?;
    while machine.meter.left() > 0 {
        let Control::Going(Some(spot), step) = machine.control else {
            return Ok(());
        };
        pass(machine, alloc, spot, step)?;
        run_on(machine, alloc)?;
    }
    Ok(())
}
