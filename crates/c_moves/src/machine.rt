//! A machine that runs programs step by step, with a stack of its own.
pub mod block;
pub mod call;
pub mod declaration;
pub mod expression;
pub mod listed;
pub mod looping;
pub mod operand;
pub mod start;
pub mod statement;
pub mod switch;

use c_machine::state::lists::Lists;
use c_machine::state::meter::Meter;
use c_machine::state::scopes::Scopes;
use c_machine::waiting::frame::{Control, EndFrame, Frame, Spot, Step, ValueFrame};
use c_machine::waiting::stack::Stack;
use c_meaning::object::Object;
use c_meaning::value::{Argument, Undefined, Value};
use c_tree::expression::Expr;
use c_tree::program::Item;
use hls_base::place::Place;
use hls_base::point::PointKind;
use std::alloc::AllocError;

/// A program that runs: what it does next and what waits behind that; the environments; the numbers of subscripts and the arguments of calls that are under way; and the objects, of which those whose lifetime began last stand last.
#[derive(Drop)]
pub struct Machine<'p> {
    pub items: &'p [Item],
    pub control: Control<'p>,
    pub stack: Stack<'p>,
    pub scopes: Scopes,
    pub numbers: Lists<i128>,
    pub given: Lists<Argument>,
    pub objects: Vec<Object>,
    pub meter: Meter,
}

impl<'p> Machine<'p> {
    ghost use Rattle.std.specs.Prelude.{◌≡◌, ◌<◌, length, true, OnOk, OnErr};
    ghost use Rattle.c_tree.specs.View.{tree_of};
    ghost use Rattle.c_machine.specs.Frames as f;
    ghost use Rattle.c_machine.specs.Moves.{going, at_point, at_fork, concluded, pushed, popped, scoped, still, stuck};
    ghost use Rattle.c_machine.specs.State.Objects.{ran_of};
    ghost use Rattle.c_machine.specs.Waiting.Shown.{step_of, value_frame_of, end_frame_of};
    ghost use Rattle.c_machine.specs.Waiting.Stacks.{stack_of};
    ghost use Rattle.c_moves.specs.Machines.{configuration_of};

    /// Lets a step follow at once.
    pub fn go(&mut self, step: Step<'p>)
        ensures { configuration_of self.new ≡ going (step_of step.entry) (configuration_of self.old) }
    {
        self.control = Control::Going(None, step);
    }

    /// Lets a step follow behind a point.
    pub fn go_behind(&mut self, kind: PointKind, at: Place, step: Step<'p>)
        ensures { configuration_of self.new ≡ at_point kind at (step_of step.entry) (configuration_of self.old) }
    {
        self.control = Control::Going(Some(Spot { kind, at }), step);
    }

    /// The same, where an operator passes points.
    pub fn go_at_fork(&mut self, fork: bool, kind: PointKind, at: Place, step: Step<'p>)
        ensures { configuration_of self.new ≡ at_fork fork kind at (step_of step.entry) (configuration_of self.old) }
    {
        if fork {
            self.go_behind(kind, at, step);
        } else {
            self.go(step);
        }
    }

    /// Nothing goes on from here.
    pub fn stop(&mut self)
        ensures { configuration_of self.new ≡ stuck (configuration_of self.old) }
    {
        self.control = Control::Stuck;
    }

    /// Gives the value of an operation, whose behaviour may be undefined.
    pub fn conclude(&mut self, outcome: Result<Value, Undefined>)
        ensures { configuration_of self.new ≡ concluded (ran_of outcome (still (configuration_of self.old))).outcome (configuration_of self.old) }
    {
        self.control = match outcome {
            Ok(v) => Control::Going(None, Step::Give(v)),
            Err(u) => Control::Undefined(u.rule, u.at),
        };
    }

    /// Evaluates an expression, for whose value this frame waits.
    pub fn evaluate_for(
        &mut self,
        frame: ValueFrame<'p>,
        used: bool,
        e: &'p Expr,
    ) -> Result<(), AllocError>
        ensures ok { OnOk result (configuration_of self.new ≡ going (f.evaluate used (tree_of e.now)) (pushed (f.on_value (value_frame_of frame.entry)) (configuration_of self.old))) }
        ensures err { OnErr result (configuration_of self.new ≡ configuration_of self.old) }
    {
        self.stack.push(Frame::OnValue(frame))?;
        self.go(Step::Evaluate { used, e });
        Ok(())
    }

    /// The same, where this frame takes the place of the uppermost.
    pub fn evaluate_then(&mut self, frame: ValueFrame<'p>, e: &'p Expr)
        requires { 0 < length (stack_of self.old.stack) }
        ensures { configuration_of self.new ≡ going (f.evaluate true (tree_of e.now)) (pushed (f.on_value (value_frame_of frame.entry)) (popped (configuration_of self.old))) }
    {
        self.stack.replace(Frame::OnValue(frame));
        self.go(Step::Evaluate { used: true, e });
    }

    /// A step follows in the place of the uppermost frame.
    pub fn go_on(&mut self, step: Step<'p>)
        ensures { configuration_of self.new ≡ going (step_of step.entry) (popped (configuration_of self.old)) }
    {
        self.stack.pop();
        self.go(step);
    }

    /// An operation is done for which the uppermost frame waited.
    pub fn conclude_top(&mut self, outcome: Result<Value, Undefined>)
        ensures { configuration_of self.new ≡ concluded (ran_of outcome (still (configuration_of self.old))).outcome (popped (configuration_of self.old)) }
    {
        self.stack.pop();
        self.conclude(outcome);
    }

    /// Begins a part whose names end with it, with this frame behind it.
    pub fn open_scope(&mut self, frame: EndFrame<'p>) -> Result<(), AllocError>
        ensures ok { OnOk result (configuration_of self.new ≡ scoped (end_frame_of frame.entry) (configuration_of self.old)) }
        ensures err { OnErr result (configuration_of self.new ≡ configuration_of self.old) }
    {
        self.stack.push(Frame::OnEnd(frame))?;
        let opened = self.scopes.open();
        if opened.is_err() {
            self.stack.pop();
        }
        opened
    }

    /// The same, where this frame takes the place of the uppermost.
    pub fn open_scope_then(&mut self, frame: EndFrame<'p>) -> Result<(), AllocError>
        requires { 0 < length (stack_of self.old.stack) }
        ensures ok { OnOk result (configuration_of self.new ≡ scoped (end_frame_of frame.entry) (popped (configuration_of self.old))) }
        ensures err { OnErr result (configuration_of self.new ≡ configuration_of self.old) }
    {
        self.scopes.open()?;
        self.stack.replace(Frame::OnEnd(frame));
        Ok(())
    }
}
