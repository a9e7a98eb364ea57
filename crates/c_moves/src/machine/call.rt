//! Calls.
ghost use Rattle.std.specs.Prelude.{◌≡◌, ◌++◌, ◌<◌, OnOk};
ghost use Rattle.c_tree.specs.View.{function_of};
ghost use Rattle.c_machine.specs.Waiting.Shown.{is_used};

use crate::machine::Machine;
use c_machine::waiting::binding::{bind_all, body_items};
use c_machine::waiting::frame::{Call, Caller, Control, EndFrame, Frame, Step};
use c_machine::waiting::tree::function_named;
use c_meaning::object::Object;
use c_meaning::value::{Completion, Value};
use c_tree::function::Function;
use c_value::kind::INT;
use hls_base::place::Place;
use hls_base::point::PointKind;
use hls_base::refusal::UbRule;
use std::alloc::{AllocError, Global};

/// Whether the result of a call is used.
fn is_used(caller: Caller) -> bool
    ensures { result ≡ is_used caller }
{
    match caller {
        Caller::Expression { used } => used,
        Caller::Nowhere => true,
    }
}

impl<'p> Machine<'p> {
    ghost use Rattle.std.specs.Prelude.{◌≡◌, ◌++◌, ◌∷◌, [], Some, OnOk, OnErr};
    ghost use Rattle.c_tree.specs.Tree as tree;
    ghost use Rattle.c_tree.specs.View.{function_of};
    ghost use Rattle.c_machine.specs.Frames as frames;
    ghost use Rattle.c_machine.specs.Moves.{next_argument, call_begun, function_entered, call_left, finished, here, holding};
    ghost use Rattle.c_machine.specs.Frames.{given_closed};
    ghost use Rattle.c_machine.specs.State.Lists.{latest};
    ghost use Rattle.c_machine.specs.Waiting.Shown.{calling_of, first_of, is_used};
    ghost use Rattle.c_machine.specs.Waiting.Stacks.{stack_of};
    ghost use Rattle.c_moves.specs.Machines.{configuration_of};

    /// Calls a function, whose arguments are evaluated.
    pub fn call(&mut self, alloc: Global, call: Call<'p>) -> Result<(), AllocError>
        ensures ok { OnOk result (configuration_of self.new ≡ next_argument tree.none call.entry.callee.now call.entry.used call.entry.at (configuration_of self.old)) }
        ensures err { OnErr result (configuration_of self.new ≡ configuration_of self.old) }
    {
        match function_named(self.items, call.callee.items()) {
            Some(f) => self.begin_call(alloc, f, call.used, call.at),
            None => {
                self.given.close();
                self.go(Step::Give(Value {
                    kind: INT,
                    number: 0,
                }));
                Ok(())
            }
        }
    }

    fn begin_call(
        &mut self,
        alloc: Global,
        f: &'p Function,
        used: bool,
        at: Place,
    ) -> Result<(), AllocError>
        ensures ok { OnOk result (configuration_of self.new ≡ call_begun (frames.called_by used (function_of f.now)) (function_of f.now) (latest (configuration_of self.old).held.given) ((here (configuration_of self.old)).path ++ at ∷ []) (holding (given_closed (configuration_of self.old).held) (configuration_of self.old))) }
        ensures err { OnErr result (configuration_of self.new ≡ configuration_of self.old) }
    {
        let frame = EndFrame::Calling {
            caller: Caller::Expression { used },
            function: f,
            count: self.objects.len(),
        };
        self.stack.push(Frame::OnEnd(frame))?;
        let bound = self.enter_function(alloc, f, at);
        if bound.is_err() {
            self.stack.pop();
            return bound;
        }
        self.given.close();
        let step = Step::Block {
            tail: true,
            body: body_items(f),
        };
        self.go_behind(PointKind::Begin, f.at, step);
        Ok(())
    }

    #[tactic(auto, using(c_machine::proofs::WaitingLemmas::BoundParameters::binding))]
    /// The environment and the parameters of a call.
    fn enter_function(
        &mut self,
        alloc: Global,
        f: &'p Function,
        at: Place,
    ) -> Result<(), AllocError>
        ensures ok { OnOk result (configuration_of self.new ≡ function_entered (function_of f.now) (latest (configuration_of self.old).held.given) ((here (configuration_of self.old)).path ++ at ∷ []) (configuration_of self.old)) }
        ensures err { OnErr result (configuration_of self.new ≡ configuration_of self.old) }
    {
        self.scopes.call(at, f.result)?;
        let bound = bind_all(
            alloc,
            &f.params,
            self.given.last(),
            &mut self.scopes,
            self.objects.as_slice(),
        );
        let entered = match bound {
            Ok(mut made) => self.objects.append(&mut made),
            Err(e) => Err(e),
        };
        if entered.is_err() {
            self.scopes.leave();
        }
        entered
    }

    /// The end of a call, whose frame is the uppermost.
    pub fn leave_call(&mut self, caller: Caller, f: &'p Function, count: usize, r: Completion)
        requires { first_of (stack_of self.old.stack) ≡ Some (frames.on_end (calling_of caller (function_of f.now) count)) }
        ensures { configuration_of self.new ≡ call_left (is_used caller) (function_of f.now) count r (configuration_of self.old) }
    {
        let used = is_used(caller);
        let number = match r {
            Completion::Returned { number, .. } => number,
            _ if used && f.result.is_some() => {
                self.control = Control::Undefined(UbRule::NoReturn, f.at);
                return;
            }
            _ => None,
        };
        self.objects.truncate(count);
        self.go_behind(PointKind::End, f.at, Step::Finish(number));
    }

    /// Returns to where a function was called.
    pub fn finish(&mut self, number: Option<i128>)
        ensures { configuration_of self.new ≡ finished (stack_of self.old.stack) number (configuration_of self.old) }
    {
        match self.stack.top() {
            Some(
                Frame::OnEnd(
                    EndFrame::Calling {
                        caller,
                        function,
                        ..
                    },
                ),
            ) => match caller {
                Caller::Nowhere => self.control = Control::Ended(number),
                Caller::Expression { .. } => {
                    self.scopes.leave();
                    self.go_on(Step::Give(Value {
                        kind: function.result.unwrap_or(INT),
                        number: number.unwrap_or(0),
                    }));
                }
            },
            _ => self.stop(),
        }
    }
}
