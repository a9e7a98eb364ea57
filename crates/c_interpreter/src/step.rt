//! The steps of a machine.
ghost use Rattle.std.specs.Prelude.{◌≡◌, ℕ, OnOk, OnErr};
ghost use Rattle.c_machine.specs.Frames as f;
ghost use Rattle.c_machine.specs.Moves.{stepped, given_value, given_end};
ghost use Rattle.c_machine.specs.Rest.{rest_of};
ghost use Rattle.c_machine.specs.Sound.{within, Sound};
ghost use Rattle.c_machine.specs.Shape.{Shaped};
ghost use Rattle.c_machine.specs.Waiting.Shown.{step_of, is_resting};
ghost use Rattle.c_machine.specs.Waiting.Stacks.{stack_of};
ghost use Rattle.c_moves.specs.Machines.{configuration_of};

use crate::behind::{end, resume};
use c_machine::state::store::forget;
use c_machine::waiting::frame::{Control, Frame, Step};
use c_meaning::value::{Completion, Value};
use c_moves::machine::Machine;
use std::alloc::{AllocError, Global};

fn give(machine: &mut Machine<'_>, alloc: Global, v: Value) -> Result<(), AllocError>
    requires { within machine.old.meter.passed (stack_of machine.old.stack) }
    ensures ok { OnOk result (configuration_of machine.new ≡ given_value (stack_of machine.old.stack) v (configuration_of machine.old)) }
    ensures err { OnErr result (configuration_of machine.new ≡ configuration_of machine.old) }
{
    match machine.stack.top() {
        Some(Frame::OnValue(frame)) => resume(machine, alloc, frame, v),
        _ => {
            machine.stop();
            Ok(())
        }
    }
}

fn complete(machine: &mut Machine<'_>, alloc: Global, r: Completion) -> Result<(), AllocError>
    requires { within machine.old.meter.passed (stack_of machine.old.stack) }
    ensures ok { OnOk result (configuration_of machine.new ≡ given_end (stack_of machine.old.stack) r (configuration_of machine.old)) }
    ensures err { OnErr result (configuration_of machine.new ≡ configuration_of machine.old) }
{
    match machine.stack.top() {
        Some(Frame::OnEnd(frame)) => end(machine, alloc, frame, r),
        _ => {
            machine.stop();
            Ok(())
        }
    }
}

fn forget_object(machine: &mut Machine<'_>, alloc: Global, object: usize) -> Result<(), AllocError>
    ensures ok { OnOk result (configuration_of machine.new ≡ stepped (f.forget object) (configuration_of machine.old)) }
    ensures err { OnErr result (configuration_of machine.new ≡ configuration_of machine.old) }
{
    forget(alloc, &mut machine.objects, object)?;
    machine.go(Step::Complete(Completion::Normal));
    Ok(())
}

/// Does one step.
pub fn advance<'p>(
    machine: &mut Machine<'p>,
    alloc: Global,
    step: Step<'p>,
) -> Result<(), AllocError>
    requires { within machine.old.meter.passed (stack_of machine.old.stack) }
    ensures ok { OnOk result (configuration_of machine.new ≡ stepped (step_of step.entry) (configuration_of machine.old)) }
    ensures err { OnErr result (configuration_of machine.new ≡ configuration_of machine.old) }
{
    match step {
        Step::Evaluate { used, e } => machine.evaluate(alloc, used, e),
        Step::Give(v) => give(machine, alloc, v),
        Step::Execute { tail, stmt } => machine.execute(alloc, tail, stmt),
        Step::Complete(r) => complete(machine, alloc, r),
        Step::Subscripts(others, purpose) => machine.next_subscript(others, purpose),
        Step::Arguments(call) => machine.next_argument(alloc, call),
        Step::Act(actions) => machine.next_action(alloc, actions),
        Step::Initialise(i) => machine.initialise(alloc, i),
        Step::Forget(object) => forget_object(machine, alloc, object),
        Step::Block { tail, body } => machine.begin_block(alloc, tail, body),
        Step::Jump(x, body) => machine.jump(alloc, x, body),
        Step::Finish(number) => {
            machine.finish(number);
            Ok(())
        }
    }
}

#[tactic(auto, using(crate::proofs::MachineRules::running))]
/// Goes on up to the next point, or to the end of the run.
pub fn run_on(machine: &mut Machine<'_>, alloc: Global) -> Result<(), AllocError>
    requires sound { Sound (configuration_of machine.old) }
    requires shaped { Shaped (configuration_of machine.old) }
    ensures rest { (left : ℕ) → rest_of left (configuration_of machine.new) ≡ rest_of left (configuration_of machine.old) }
    ensures sound { Sound (configuration_of machine.new) }
    ensures shaped { Shaped (configuration_of machine.new) }
    ensures meter { machine.new.meter ≡ machine.old.meter }
    ensures done { OnOk result (is_resting (configuration_of machine.new).control) }
{
    while let Control::Going(None, step) = machine.control {
        advance(machine, alloc, step)?;
    }
    Ok(())
}
