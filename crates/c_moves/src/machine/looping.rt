//! Loops.
ghost use Rattle.std.specs.Prelude.{◌≡◌};
ghost use Rattle.std.specs.Option.{option_map, option_copied};
ghost use Rattle.c_tree.specs.View.{tree_of};
ghost use Rattle.c_meaning.specs.Statement.{round_of};
ghost use Rattle.c_machine.specs.Waiting.Shown.{step_of, test_step};

use crate::machine::Machine;
use c_machine::waiting::frame::{EndFrame, Frame, Loop, Rounds, Stage, Step, ValueFrame};
use c_meaning::value::{Completion, Round, Value};
use c_tree::expression::Expr;
use c_value::kind::INT;
use hls_base::point::PointKind;
use std::alloc::AllocError;

/// What comes after an iteration whose body ends so.
pub fn round_of(r: Completion) -> Round
    ensures { result ≡ round_of r }
{
    match r {
        Completion::Normal | Completion::Continued => Round::Again,
        Completion::Broke => Round::Over,
        Completion::Returned { number, .. } => Round::Out(number),
    }
}

/// The test of an iteration; one that is missing holds.
fn test_step(test: Option<&Expr>) -> Step<'_>
    ensures { step_of result ≡ test_step (option_map tree_of (option_copied test.entry)) }
{
    match test {
        Some(e) => Step::Evaluate { used: true, e },
        None => Step::Give(Value {
            kind: INT,
            number: 1,
        }),
    }
}

impl<'p> Machine<'p> {
    ghost use Rattle.std.specs.Prelude.{◌≡◌, ◌<◌, ◌+◌, length, OnOk, OnErr, false};
    ghost use Rattle.hls_base.specs.declared.point.PointKind.TheVariants as point;
    ghost use Rattle.c_tree.specs.View.{stmt_of};
    ghost use Rattle.c_machine.specs.Frames as f;
    ghost use Rattle.c_machine.specs.Moves.{at_point, pushed, popped, left_scope, round_begun, loop_over, tested, stepping, body_left};
    ghost use Rattle.c_machine.specs.Waiting.Shown.{loop_of, step_of};
    ghost use Rattle.c_machine.specs.Waiting.Stacks.{stack_of};
    ghost use Rattle.c_moves.specs.Machines.{configuration_of};

    /// An iteration begins; so much is spent before it.
    pub fn begin_round(&mut self, looping: Loop<'p>, spent: u64) -> Result<(), AllocError>
        ensures ok { OnOk result (configuration_of self.new ≡ round_begun (loop_of looping.entry) spent (configuration_of self.old)) }
        ensures err { OnErr result (configuration_of self.new ≡ configuration_of self.old) }
    {
        match looping.rounds {
            Rounds::TestFirst { test, .. } => {
                self.stack
                    .push(Frame::OnValue(ValueFrame::LoopTest(looping, spent)))?;
                self.go_behind(PointKind::Test, looping.at, test_step(test));
            }
            Rounds::TestLast { .. } => {
                self.open_scope(EndFrame::Looping(Stage::Body, looping, spent))?;
                self.run_body(looping);
            }
        }
        Ok(())
    }

    /// The same, where the frame of the iteration before it is the uppermost.
    pub fn next_round(&mut self, looping: Loop<'p>, spent: u64) -> Result<(), AllocError>
        requires { 0 < length (stack_of self.old.stack) }
        ensures ok { OnOk result (configuration_of self.new ≡ round_begun (loop_of looping.entry) spent (popped (configuration_of self.old))) }
        ensures err { OnErr result (configuration_of self.new ≡ configuration_of self.old) }
    {
        match looping.rounds {
            Rounds::TestFirst { test, .. } => self.test_again(looping, spent, test_step(test)),
            Rounds::TestLast { .. } => {
                self.open_scope_then(EndFrame::Looping(Stage::Body, looping, spent))?;
                self.run_body(looping);
            }
        }
        Ok(())
    }

    fn run_body(&mut self, looping: Loop<'p>)
        ensures { configuration_of self.new ≡ at_point point.Body looping.entry.at (f.execute false (stmt_of looping.entry.body.now.value)) (configuration_of self.old) }
    {
        let step = Step::Execute {
            tail: false,
            stmt: looping.body,
        };
        self.go_behind(PointKind::Body, looping.at, step);
    }

    /// The loop is over, whose frame is the uppermost.
    fn end_loop(&mut self, looping: Loop<'p>)
        ensures { configuration_of self.new ≡ loop_over (loop_of looping.entry) (popped (configuration_of self.old)) }
    {
        self.stack.pop();
        let step = Step::Complete(Completion::Normal);
        self.go_behind(PointKind::End, looping.at, step);
    }

    /// An iteration behind its test.
    pub fn behind_test(
        &mut self,
        looping: Loop<'p>,
        spent: u64,
        holds: bool,
    ) -> Result<(), AllocError>
        requires top { 0 < length (stack_of self.old.stack) }
        requires spent { spent < self.old.meter.passed }
        ensures ok { OnOk result (configuration_of self.new ≡ tested (loop_of looping.entry) spent holds (popped (configuration_of self.old))) }
        ensures err { OnErr result (configuration_of self.new ≡ configuration_of self.old) }
    {
        if !holds {
            self.end_loop(looping);
            return Ok(());
        }
        match looping.rounds {
            Rounds::TestFirst { .. } => {
                self.open_scope_then(EndFrame::Looping(Stage::Body, looping, spent))?;
                self.run_body(looping);
                Ok(())
            }
            Rounds::TestLast { .. } => self.round_again(looping, spent),
        }
    }

    /// Another iteration behind this one, which passed a point.
    pub fn round_again(&mut self, looping: Loop<'p>, spent: u64) -> Result<(), AllocError>
        requires top { 0 < length (stack_of self.old.stack) }
        requires spent { spent < self.old.meter.passed }
        ensures ok { OnOk result (configuration_of self.new ≡ round_begun (loop_of looping.entry) (spent + 1) (popped (configuration_of self.old))) }
        ensures err { OnErr result (configuration_of self.new ≡ configuration_of self.old) }
    {
        let passed = self.meter.passed();
        prove!(spent < passed);
        self.next_round(looping, spent + 1)
    }

    /// An iteration behind its body, whose names are still in scope.
    pub fn behind_body(&mut self, looping: Loop<'p>, spent: u64, r: Round)
        requires top { 0 < length (stack_of self.old.stack) }
        requires spent { spent < self.old.meter.passed }
        ensures { configuration_of self.new ≡ body_left (loop_of looping.entry) spent r (left_scope (popped (configuration_of self.old))) }
    {
        self.scopes.leave();
        match r {
            Round::Again => self.begin_step(looping, spent),
            Round::Over => self.end_loop(looping),
            Round::Out(number) => self.go_on(Step::Complete(Completion::Returned {
                number,
                tail: false,
            })),
        }
    }

    /// The step of an iteration, or its test behind the body.
    fn begin_step(&mut self, looping: Loop<'p>, spent: u64)
        requires top { 0 < length (stack_of self.old.stack) }
        requires spent { spent < self.old.meter.passed }
        ensures { configuration_of self.new ≡ stepping (loop_of looping.entry) spent (popped (configuration_of self.old)) }
    {
        let passed = self.meter.passed();
        prove!(spent < passed);
        match looping.rounds {
            Rounds::TestFirst { test, step } => {
                if step.is_empty() {
                    self.test_again(looping, spent + 1, test_step(test));
                } else {
                    self.stack.replace(Frame::OnEnd(EndFrame::Looping(
                        Stage::Step,
                        looping,
                        spent,
                    )));
                    self.go_behind(PointKind::Step, looping.at, Step::Act(step));
                }
            }
            Rounds::TestLast { test } => self.test_again(looping, spent, test_step(Some(test))),
        }
    }

    fn test_again(&mut self, looping: Loop<'p>, spent: u64, step: Step<'p>)
        requires { 0 < length (stack_of self.old.stack) }
        ensures { configuration_of self.new ≡ at_point point.Test looping.entry.at (step_of step.entry) (pushed (f.on_value (f.loop_test (loop_of looping.entry) spent)) (popped (configuration_of self.old))) }
    {
        self.stack
            .replace(Frame::OnValue(ValueFrame::LoopTest(looping, spent)));
        self.go_behind(PointKind::Test, looping.at, step);
    }
}
