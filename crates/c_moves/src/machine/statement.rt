//! Statements.
use crate::machine::Machine;
use c_machine::waiting::frame::{Branches, EndFrame, Frame, Loop, Rounds, Stage, Step, ValueFrame};
use c_machine::waiting::objects::first_objects;
use c_meaning::value::Completion;
use c_tree::expression::Expr;
use c_tree::object::Object;
use c_tree::statement::{Else, Stmt};
use c_value::convert::convert;
use hls_base::place::Place;
use hls_base::point::PointKind;
use std::alloc::{AllocError, Global};

impl<'p> Machine<'p> {
    ghost use Rattle.std.specs.Prelude.{◌≡◌, ◌<◌, length, map, false, OnOk, OnErr};
    ghost use Rattle.std.specs.Option.{option_map, option_copied};
    ghost use Rattle.c_tree.specs.View.{object_of, stmt_of, stmts_of, tree_of, else_of, else_part, first_part};
    ghost use Rattle.c_tree.specs.Tree as tree;
    ghost use Rattle.c_machine.specs.Frames as f;
    ghost use Rattle.c_meaning.specs.Store.{declared_first};
    ghost use Rattle.c_meaning.specs.Statement.{converted_result};
    ghost use Rattle.c_machine.specs.Moves.{executed, first_begun, block_entered, return_begun, round_begun, branched, if_left, switch_left, at_point, scoped, popped, here};
    ghost use Rattle.hls_base.specs.declared.point.PointKind.TheVariants as point;
    ghost use Rattle.c_machine.specs.Waiting.Shown.{loop_of, loop_with};
    ghost use Rattle.c_machine.specs.Waiting.Stacks.{stack_of};
    ghost use Rattle.c_moves.specs.Machines.{configuration_of};

    /// Begins a statement. The flag says whether it is in a tail position.
    pub fn execute(&mut self, alloc: Global, tail: bool, stmt: &'p Stmt) -> Result<(), AllocError>
        ensures ok { OnOk result (configuration_of self.new ≡ executed tail (stmt_of stmt.now) (configuration_of self.old)) }
        ensures err { OnErr result (configuration_of self.new ≡ configuration_of self.old) }
    {
        match stmt {
            Stmt::Block(body) => self.go(Step::Block { tail, body }),
            Stmt::Declare(objects) => self.begin_declaration(objects)?,
            Stmt::Act(actions) => self.go(Step::Act(actions)),
            Stmt::If { test, yes, no, at } => self.begin_if(tail, test, yes, no.as_ref(), *at)?,
            Stmt::Switch { test, body, at } => self.begin_switch(test, body, *at)?,
            Stmt::Case { body, at, .. } => self.begin_case(body, *at)?,
            Stmt::While { test, body, at } => self.begin_while(test, body, *at)?,
            Stmt::Do { body, test, at } => self.begin_loop(Rounds::TestLast { test }, body, *at)?,
            Stmt::For {
                init,
                test,
                step,
                body,
                at,
            } => {
                let init = match init {
                    Some(part) => Some(&**part),
                    None => None,
                };
                let test = test.as_ref();
                let rounds = Rounds::TestFirst { test, step };
                self.begin_for(alloc, init, rounds, body, *at)?;
            }
            Stmt::Break(_) => self.go(Step::Complete(Completion::Broke)),
            Stmt::Continue(_) => self.go(Step::Complete(Completion::Continued)),
            Stmt::Return { value, .. } => self.begin_return(tail, value.as_ref())?,
        }
        Ok(())
    }

    fn begin_declaration(&mut self, objects: &'p [Object]) -> Result<(), AllocError>
        ensures ok { OnOk result (configuration_of self.new ≡ executed false (tree.declare (map object_of objects.now)) (configuration_of self.old)) }
        ensures err { OnErr result (configuration_of self.new ≡ configuration_of self.old) }
    {
        self.stack.push(Frame::OnEnd(EndFrame::Declaring(objects)))?;
        self.go(Step::Complete(Completion::Normal));
        Ok(())
    }

    fn begin_if(
        &mut self,
        tail: bool,
        test: &'p Expr,
        body: &'p Box<Stmt>,
        other: Option<&'p Else>,
        at: Place,
    ) -> Result<(), AllocError>
        ensures ok { OnOk result (configuration_of self.new ≡ executed tail (tree.if_ (tree_of test.now) (stmt_of body.now.value) (else_part (option_map else_of (option_copied other.entry))) at) (configuration_of self.old)) }
        ensures err { OnErr result (configuration_of self.new ≡ configuration_of self.old) }
    {
        let branches = Branches {
            tail,
            body,
            other,
            at,
        };
        self.evaluate_for(ValueFrame::IfTest(branches), true, test)
    }

    fn begin_switch(
        &mut self,
        test: &'p Expr,
        body: &'p [Stmt],
        at: Place,
    ) -> Result<(), AllocError>
        ensures ok { OnOk result (configuration_of self.new ≡ executed false (tree.switch_ (tree_of test.now) (stmts_of body.now) at) (configuration_of self.old)) }
        ensures err { OnErr result (configuration_of self.new ≡ configuration_of self.old) }
    {
        self.evaluate_for(ValueFrame::SwitchTest { body, at }, true, test)
    }

    /// Control comes to a label.
    fn begin_case(&mut self, body: &'p Stmt, at: Place) -> Result<(), AllocError>
        ensures ok { OnOk result (configuration_of self.new ≡ at_point point.Arm at (f.execute false (stmt_of body.now)) (scoped f.leaving (configuration_of self.old))) }
        ensures err { OnErr result (configuration_of self.new ≡ configuration_of self.old) }
    {
        self.open_scope(EndFrame::Leaving)?;
        let step = Step::Execute {
            tail: false,
            stmt: body,
        };
        self.go_behind(PointKind::Arm, at, step);
        Ok(())
    }

    fn begin_while(
        &mut self,
        test: &'p Expr,
        body: &'p Box<Stmt>,
        at: Place,
    ) -> Result<(), AllocError>
        ensures ok { OnOk result (configuration_of self.new ≡ executed false (tree.while_ (tree_of test.now) (stmt_of body.now.value) at) (configuration_of self.old)) }
        ensures err { OnErr result (configuration_of self.new ≡ configuration_of self.old) }
    {
        let rounds = Rounds::TestFirst {
            test: Some(test),
            step: &[],
        };
        self.begin_loop(rounds, body, at)
    }

    fn begin_loop(
        &mut self,
        rounds: Rounds<'p>,
        body: &'p Box<Stmt>,
        at: Place,
    ) -> Result<(), AllocError>
        ensures ok { OnOk result (configuration_of self.new ≡ round_begun (loop_with rounds.entry (stmt_of body.now.value) at) self.old.meter.passed (configuration_of self.old)) }
        ensures err { OnErr result (configuration_of self.new ≡ configuration_of self.old) }
    {
        let spent = self.meter.passed();
        self.begin_round(Loop { rounds, body, at }, spent)
    }

    fn begin_for(
        &mut self,
        alloc: Global,
        init: Option<&'p Stmt>,
        rounds: Rounds<'p>,
        body: &'p Box<Stmt>,
        at: Place,
    ) -> Result<(), AllocError>
        ensures ok { OnOk result (configuration_of self.new ≡ first_begun (first_part (option_map stmt_of (option_copied init.entry))) (loop_with rounds.entry (stmt_of body.now.value) at) (block_entered (declared_first (first_part (option_map stmt_of (option_copied init.entry)))) (f.items false tree.no_stmt) (configuration_of self.old))) }
        ensures err { OnErr result (configuration_of self.new ≡ configuration_of self.old) }
    {
        let made = first_objects(alloc, init)?;
        let count = self.objects.len();
        let frame = EndFrame::Items {
            tail: false,
            others: &[],
            count,
        };
        self.enter_block(made, frame)?;
        let begun = self.begin_first(init, Loop { rounds, body, at });
        if begun.is_err() {
            self.stack.pop();
            self.leave_block(count);
        }
        begun
    }

    fn begin_first(&mut self, init: Option<&'p Stmt>, looping: Loop<'p>) -> Result<(), AllocError>
        ensures ok { OnOk result (configuration_of self.new ≡ first_begun (first_part (option_map stmt_of (option_copied init.entry))) (loop_of looping.entry) (configuration_of self.old)) }
        ensures err { OnErr result (configuration_of self.new ≡ configuration_of self.old) }
    {
        let spent = self.meter.passed();
        match init {
            None => self.begin_round(looping, spent),
            Some(part) => {
                let frame = EndFrame::Looping(Stage::First, looping, spent);
                self.stack.push(Frame::OnEnd(frame))?;
                self.go(Step::Execute {
                    tail: false,
                    stmt: part,
                });
                Ok(())
            }
        }
    }

    fn begin_return(&mut self, tail: bool, value: Option<&'p Expr>) -> Result<(), AllocError>
        ensures ok { OnOk result (configuration_of self.new ≡ return_begun tail (option_map tree_of (option_copied value.entry)) (configuration_of self.old)) }
        ensures err { OnErr result (configuration_of self.new ≡ configuration_of self.old) }
    {
        match value {
            Some(e) => self.evaluate_for(ValueFrame::Returning { tail }, true, e),
            None => {
                self.go(Step::Complete(Completion::Returned { number: None, tail }));
                Ok(())
            }
        }
    }

    /// The branch of an `if` that its test chooses.
    pub fn branch(&mut self, branches: Branches<'p>, holds: bool) -> Result<(), AllocError>
        requires { 0 < length (stack_of self.old.stack) }
        ensures ok { OnOk result (configuration_of self.new ≡ branched branches.entry.tail holds (stmt_of branches.entry.body.now.value) (else_part (option_map else_of (option_copied branches.entry.other))) branches.entry.at (popped (configuration_of self.old))) }
        ensures err { OnErr result (configuration_of self.new ≡ configuration_of self.old) }
    {
        let Branches {
            tail,
            body,
            other,
            at,
        } = branches;
        if holds {
            return self.begin_branch(tail, at, body, at);
        }
        match other {
            Some(second) => self.begin_branch(tail, second.at, &second.body, at),
            None => {
                self.stack.pop();
                let step = Step::Complete(Completion::Normal);
                self.go_behind(PointKind::End, at, step);
                Ok(())
            }
        }
    }

    fn begin_branch(
        &mut self,
        tail: bool,
        arm: Place,
        body: &'p Stmt,
        at: Place,
    ) -> Result<(), AllocError>
        requires { 0 < length (stack_of self.old.stack) }
        ensures ok { OnOk result (configuration_of self.new ≡ at_point point.Arm arm (f.execute tail (stmt_of body.now)) (scoped (f.behind_if at) (popped (configuration_of self.old)))) }
        ensures err { OnErr result (configuration_of self.new ≡ configuration_of self.old) }
    {
        self.open_scope_then(EndFrame::BehindIf(at))?;
        self.go_behind(PointKind::Arm, arm, Step::Execute { tail, stmt: body });
        Ok(())
    }

    /// Control is behind an `if` whose branch ends so.
    pub fn leave_if(&mut self, at: Place, r: Completion)
        ensures { configuration_of self.new ≡ if_left at r (popped (configuration_of self.old)) }
    {
        self.stack.pop();
        match r {
            Completion::Normal | Completion::Returned { tail: true, .. } => {
                self.go_behind(PointKind::End, at, Step::Complete(r));
            }
            _ => self.go(Step::Complete(r)),
        }
    }

    /// Control is behind a switch whose body ends so.
    pub fn leave_switch(&mut self, at: Place, r: Completion)
        ensures { configuration_of self.new ≡ switch_left at r (popped (configuration_of self.old)) }
    {
        self.stack.pop();
        match r {
            Completion::Normal | Completion::Broke => {
                let step = Step::Complete(Completion::Normal);
                self.go_behind(PointKind::End, at, step);
            }
            _ => self.go(Step::Complete(r)),
        }
    }

    /// The number that a return gives, in the type of the function's result.
    pub fn result_number(&self, number: i128) -> i128
        ensures { result ≡ converted_result (here (configuration_of self.now)).result number }
    {
        match self.scopes.result_kind() {
            Some(kind) => convert(kind, number),
            None => number,
        }
    }
}
