//! Subscripts, arguments and actions, one after another.
use crate::machine::Machine;
use c_machine::state::operator::bumped;
use c_machine::state::store::{is_array, read};
use c_machine::waiting::frame::{Assignment, Call, Frame, Step, Use, ValueFrame};
use c_meaning::value::{Argument, Completion};
use c_tree::action::Action;
use c_tree::expression::{Expr, Target};
use c_tree::operator::Binary;
use hls_base::place::Place;
use hls_base::text::Text;
use std::alloc::{AllocError, Global};

impl<'p> Machine<'p> {
    ghost use Rattle.std.specs.Prelude.{◌≡◌, OnOk, OnErr, map, false};
    ghost use Rattle.c_tree.specs.View.{tree_of, trees_of, action_of, target_of};
    ghost use Rattle.c_tree.specs.Tree as tree;
    ghost use Rattle.c_machine.specs.Frames as f;
    ghost use Rattle.c_meaning.specs.Expression.{array_given};
    ghost use Rattle.c_meaning.specs.Statement.{action_tree};
    ghost use Rattle.c_machine.specs.Moves.{evaluated, used_for, next_subscript, next_argument, next_action, here, still};
    ghost use Rattle.c_machine.specs.Waiting.Shown.{use_of};
    ghost use Rattle.c_moves.specs.Machines.{configuration_of};

    /// Does what subscripts were evaluated for.
    fn use_subscripts(&mut self, purpose: Use<'p>) -> Result<(), AllocError>
        ensures ok { OnOk result (configuration_of self.new ≡ used_for (use_of purpose.entry) (configuration_of self.old)) }
        ensures err { OnErr result (configuration_of self.new ≡ configuration_of self.old) }
    {
        match purpose {
            Use::Reading { array, at } => {
                self.read_element(array, at);
                Ok(())
            }
            Use::Assigning(assignment, value) => {
                self.evaluate_for(ValueFrame::AssignedTo(assignment), true, value)
            }
            Use::Bumping {
                name,
                up,
                post,
                place,
                at,
            } => {
                self.bump_element(name, up, post, place, at);
                Ok(())
            }
        }
    }

    fn read_element(&mut self, array: &Text, at: Place)
        ensures { configuration_of self.new ≡ used_for (f.reading array.now at) (configuration_of self.old) }
    {
        let object = self.scopes.find(array.items());
        let found = read(self.objects.as_slice(), object, self.numbers.last(), at);
        self.numbers.close();
        self.conclude(found);
    }

    fn bump_element(&mut self, name: &Text, up: bool, post: bool, place: Place, at: Place)
        ensures { configuration_of self.new ≡ used_for (f.bumping name.now up post place at) (configuration_of self.old) }
    {
        let object = self.scopes.find(name.items());
        let subscripts = self.numbers.last();
        let outcome = bumped(&mut self.objects, up, post, object, subscripts, place, at);
        self.numbers.close();
        self.conclude(outcome);
    }

    /// Evaluates the next subscript, or uses them where none is left.
    pub fn next_subscript(&mut self, others: &'p [Expr], purpose: Use<'p>) -> Result<(), AllocError>
        ensures ok { OnOk result (configuration_of self.new ≡ next_subscript (trees_of others.now) (use_of purpose.entry) (configuration_of self.old)) }
        ensures err { OnErr result (configuration_of self.new ≡ configuration_of self.old) }
    {
        match others.split_first() {
            None => self.use_subscripts(purpose),
            Some((first, rest)) => {
                self.evaluate_for(ValueFrame::Subscript(rest, purpose), true, first)
            }
        }
    }

    /// The array whose name an argument is.
    fn array_given(&self, e: &Expr) -> Option<usize>
        ensures { result ≡ array_given (here (configuration_of self.now)) (still (configuration_of self.now)) (tree_of e.now) }
    {
        match e {
            Expr::Name { name, .. } => {
                let object = self.scopes.find(name.items());
                if is_array(self.objects.as_slice(), object) {
                    Some(object)
                } else {
                    None
                }
            }
            _ => None,
        }
    }

    /// Evaluates the next argument, or calls the function where none is left.
    pub fn next_argument(&mut self, alloc: Global, call: Call<'p>) -> Result<(), AllocError>
        ensures ok { OnOk result (configuration_of self.new ≡ next_argument (trees_of call.entry.others.now) call.entry.callee.now call.entry.used call.entry.at (configuration_of self.old)) }
        ensures err { OnErr result (configuration_of self.new ≡ configuration_of self.old) }
    {
        match call.others.split_first() {
            None => self.call(alloc, call),
            Some((first, others)) => self.begin_argument(alloc, first, Call { others, ..call }),
        }
    }

    fn begin_argument(
        &mut self,
        alloc: Global,
        first: &'p Expr,
        call: Call<'p>,
    ) -> Result<(), AllocError>
        ensures ok { OnOk result (configuration_of self.new ≡ next_argument (tree.more (tree_of first.now) (trees_of call.entry.others.now)) call.entry.callee.now call.entry.used call.entry.at (configuration_of self.old)) }
        ensures err { OnErr result (configuration_of self.new ≡ configuration_of self.old) }
    {
        match self.array_given(first) {
            Some(object) => {
                self.given.add(alloc, Argument::Array(object))?;
                self.go(Step::Arguments(call));
                Ok(())
            }
            None => self.evaluate_for(ValueFrame::Argument(call), true, first),
        }
    }

    /// Begins the next action, if one is left.
    pub fn next_action(&mut self, alloc: Global, actions: &'p [Action]) -> Result<(), AllocError>
        ensures ok { OnOk result (configuration_of self.new ≡ next_action (map action_of actions.now) (configuration_of self.old)) }
        ensures err { OnErr result (configuration_of self.new ≡ configuration_of self.old) }
    {
        match actions.split_first() {
            None => {
                self.go(Step::Complete(Completion::Normal));
                Ok(())
            }
            Some((action, others)) => {
                self.stack.push(Frame::OnValue(ValueFrame::Acting(others)))?;
                let begun = self.act(alloc, action);
                if begun.is_err() {
                    self.stack.pop();
                }
                begun
            }
        }
    }

    fn act(&mut self, alloc: Global, action: &'p Action) -> Result<(), AllocError>
        ensures ok { OnOk result (configuration_of self.new ≡ evaluated false (action_tree (action_of action.now)) (configuration_of self.old)) }
        ensures err { OnErr result (configuration_of self.new ≡ configuration_of self.old) }
    {
        match action {
            Action::Assign {
                target,
                op,
                value,
                at,
            } => self.assign(alloc, target, *op, value, *at),
            Action::Bump { target, up, at } => self.bump(alloc, target, *up, false, *at),
            Action::Value(value) => self.evaluate(alloc, false, value),
        }
    }

    /// Begins an assignment with its subscripts.
    pub fn assign(
        &mut self,
        alloc: Global,
        target: &'p Target,
        op: Option<Binary>,
        value: &'p Expr,
        at: Place,
    ) -> Result<(), AllocError>
        ensures ok { OnOk result (configuration_of self.new ≡ evaluated false (tree.assign (target_of target.now) op (tree_of value.now) at) (configuration_of self.old)) }
        ensures err { OnErr result (configuration_of self.new ≡ configuration_of self.old) }
    {
        self.numbers.open(alloc)?;
        let assignment = Assignment {
            name: &target.name,
            op,
            place: target.at,
            at,
        };
        let purpose = Use::Assigning(assignment, value);
        self.go(Step::Subscripts(&target.subscripts, purpose));
        Ok(())
    }

    /// Begins `++` or `--` with its subscripts.
    pub fn bump(
        &mut self,
        alloc: Global,
        target: &'p Target,
        up: bool,
        post: bool,
        at: Place,
    ) -> Result<(), AllocError>
        ensures ok { OnOk result (configuration_of self.new ≡ evaluated false (tree.bump (target_of target.now) up post at) (configuration_of self.old)) }
        ensures err { OnErr result (configuration_of self.new ≡ configuration_of self.old) }
    {
        self.numbers.open(alloc)?;
        let purpose = Use::Bumping {
            name: &target.name,
            up,
            post,
            place: target.at,
            at,
        };
        self.go(Step::Subscripts(&target.subscripts, purpose));
        Ok(())
    }
}
