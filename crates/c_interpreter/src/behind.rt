//! Values and ends for the frames that wait for them.
ghost use Rattle.std.specs.Prelude.{◌≡◌, ◌<◌, length, true, Some, OnOk, OnErr};
ghost use Rattle.c_tree.specs.View.{tree_of, trees_of, stmts_of};
ghost use Rattle.c_machine.specs.Frames as f;
ghost use Rattle.c_machine.specs.Moves.{resumed, ended, going, popped};
ghost use Rattle.c_machine.specs.Sound.{value_fits, end_fits};
ghost use Rattle.c_machine.specs.Waiting.Shown.{value_frame_of, end_frame_of, use_of, first_of};
ghost use Rattle.c_machine.specs.Waiting.Stacks.{stack_of};
ghost use Rattle.c_moves.specs.Machines.{configuration_of};

use c_machine::state::operator::{cast, operated, truth, unary};
use c_machine::waiting::frame::{Call, EndFrame, Frame, Stage, Step, Use, ValueFrame};
use c_meaning::value::{Argument, Completion, Value};
use c_moves::machine::Machine;
use c_moves::machine::looping::round_of;
use c_tree::expression::Expr;
use c_tree::statement::Stmt;
use hls_base::place::Place;
use std::alloc::{AllocError, Global};

/// Gives a value to the uppermost frame, which waits for it.
pub fn resume<'p>(
    machine: &mut Machine<'p>,
    alloc: Global,
    frame: ValueFrame<'p>,
    x: Value,
) -> Result<(), AllocError>
    requires top { 0 < length (stack_of machine.old.stack) }
    requires fits { value_fits machine.old.meter.passed (value_frame_of frame) }
    ensures ok { OnOk result (configuration_of machine.new ≡ resumed (value_frame_of frame.entry) x (popped (configuration_of machine.old))) }
    ensures err { OnErr result (configuration_of machine.new ≡ configuration_of machine.old) }
{
    match frame {
        ValueFrame::Unary { op, at } => machine.conclude_top(unary(op, x, at)),
        ValueFrame::Left { op, right, at } => machine.join(op, x, right, at),
        ValueFrame::Right { op, x: first, at } => machine.conclude_top(operated(op, first, x, at)),
        ValueFrame::Reached { fork, at } => machine.leave_operand(fork, at, truth(x)),
        ValueFrame::Choice(choice) => machine.pick_operand(alloc, choice, x)?,
        ValueFrame::Chosen { fork, at, kind } => machine.leave_operand(fork, at, cast(kind, x)),
        ValueFrame::Cast(kind) => machine.go_on(Step::Give(cast(kind, x))),
        ValueFrame::Comma(right) => evaluate_next(machine, right),
        ValueFrame::Subscript(others, purpose) => add_subscript(
            machine, alloc, x, others, purpose,
        )?,
        ValueFrame::AssignedTo(assignment) => machine.assign_element(assignment, x),
        ValueFrame::Argument(call) => add_argument(machine, alloc, x, call)?,
        ValueFrame::Acting(others) => machine.go_on(Step::Act(others)),
        ValueFrame::Initial { object, element } => machine.initialise_element(object, element, x),
        ValueFrame::IfTest(branches) => machine.branch(branches, x.number != 0)?,
        ValueFrame::SwitchTest { body, at } => enter_switch(machine, x, body, at),
        ValueFrame::LoopTest(looping, spent) => machine.behind_test(looping, spent, x.number != 0)?,
        ValueFrame::Returning { tail } => leave_function(machine, tail, x),
    }
    Ok(())
}

fn evaluate_next<'p>(machine: &mut Machine<'p>, e: &'p Expr)
    ensures { configuration_of machine.new ≡ going (f.evaluate true (tree_of e.now)) (popped (configuration_of machine.old)) }
{
    machine.go_on(Step::Evaluate { used: true, e });
}

fn add_subscript<'p>(
    machine: &mut Machine<'p>,
    alloc: Global,
    x: Value,
    others: &'p [Expr],
    purpose: Use<'p>,
) -> Result<(), AllocError>
    ensures ok { OnOk result (configuration_of machine.new ≡ resumed (f.subscript (trees_of others.now) (use_of purpose.entry)) x (popped (configuration_of machine.old))) }
    ensures err { OnErr result (configuration_of machine.new ≡ configuration_of machine.old) }
{
    machine.numbers.add(alloc, x.number)?;
    machine.go_on(Step::Subscripts(others, purpose));
    Ok(())
}

fn add_argument<'p>(
    machine: &mut Machine<'p>,
    alloc: Global,
    x: Value,
    call: Call<'p>,
) -> Result<(), AllocError>
    ensures ok { OnOk result (configuration_of machine.new ≡ resumed (f.argument (trees_of call.entry.others.now) call.entry.callee.now call.entry.used call.entry.at) x (popped (configuration_of machine.old))) }
    ensures err { OnErr result (configuration_of machine.new ≡ configuration_of machine.old) }
{
    machine.given.add(alloc, Argument::Number(x.number))?;
    machine.go_on(Step::Arguments(call));
    Ok(())
}

/// Jumps into the body of a switch, whose frame takes the place of the uppermost.
fn enter_switch<'p>(machine: &mut Machine<'p>, x: Value, body: &'p [Stmt], at: Place)
    requires { 0 < length (stack_of machine.old.stack) }
    ensures { configuration_of machine.new ≡ resumed (f.switch_test (stmts_of body.now) at) x (popped (configuration_of machine.old)) }
{
    machine
        .stack
        .replace(Frame::OnEnd(EndFrame::BehindSwitch(at)));
    machine.go(Step::Jump(x, body));
}

fn leave_function(machine: &mut Machine<'_>, tail: bool, x: Value)
    ensures { configuration_of machine.new ≡ resumed (f.returning tail) x (popped (configuration_of machine.old)) }
{
    let number = Some(machine.result_number(x.number));
    machine.go_on(Step::Complete(Completion::Returned { number, tail }));
}

/// Tells the uppermost frame that what it waits for ends so.
pub fn end<'p>(
    machine: &mut Machine<'p>,
    alloc: Global,
    frame: EndFrame<'p>,
    r: Completion,
) -> Result<(), AllocError>
    requires top { first_of (stack_of machine.old.stack) ≡ Some (f.on_end (end_frame_of frame)) }
    requires fits { end_fits machine.old.meter.passed (end_frame_of frame) }
    ensures ok { OnOk result (configuration_of machine.new ≡ ended (end_frame_of frame.entry) r (popped (configuration_of machine.old))) }
    ensures err { OnErr result (configuration_of machine.new ≡ configuration_of machine.old) }
{
    match frame {
        EndFrame::Rows(rows) => machine.next_row(alloc, rows)?,
        EndFrame::Declaring(others) => machine.next_object(alloc, others)?,
        EndFrame::Items {
            tail,
            others,
            count,
        } => machine.next_item(tail, others, count, r),
        EndFrame::BehindIf(at) => {
            machine.scopes.leave();
            machine.leave_if(at, r);
        }
        EndFrame::BehindSwitch(at) => machine.leave_switch(at, r),
        EndFrame::Leaving => {
            machine.scopes.leave();
            machine.go_on(Step::Complete(r));
        }
        EndFrame::Looping(Stage::First, looping, _) => {
            let spent = machine.meter.passed();
            machine.next_round(looping, spent)?;
        }
        EndFrame::Looping(Stage::Body, looping, spent) => {
            machine.behind_body(looping, spent, round_of(r));
        }
        EndFrame::Looping(Stage::Step, looping, spent) => machine.round_again(looping, spent)?,
        EndFrame::Calling {
            caller,
            function,
            count,
        } => machine.leave_call(caller, function, count, r),
    }
    Ok(())
}
