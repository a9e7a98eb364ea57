//! Operators behind an operand.
use crate::machine::Machine;
use c_machine::state::operator::assigned;
use c_machine::state::store::{kind_of, write};
use c_machine::waiting::chain::{Operator, around};
use c_machine::waiting::frame::{Assignment, Choice, Frame, Step, ValueFrame};
use c_machine::waiting::tree::{acts, result_kind};
use c_meaning::value::{Completion, Value};
use c_token::ctype::CType;
use c_tree::expression::Expr;
use c_tree::operator::Binary;
use c_value::convert::convert;
use c_value::kind::{INT, common};
use c_value::operate::unary_kind;
use hls_base::place::Place;
use hls_base::point::PointKind;
use hls_base::text::Text;
use std::alloc::{AllocError, Global};

impl<'p> Machine<'p> {
    ghost use Rattle.std.specs.Prelude.{◌≡◌, ◌<◌, ◌||◌, length, IfOk, OnOk, OnErr};
    ghost use Rattle.c_tree.specs.View.{tree_of};
    ghost use Rattle.c_meaning.specs.Expression as e;
    ghost use Rattle.c_machine.specs.Frames as f;
    ghost use Rattle.c_machine.specs.Moves.{resumed, joined, reached, not_reached, picked, chosen, kind_here, popped, at_fork, here, still};
    ghost use Rattle.hls_base.specs.declared.point.PointKind.TheVariants as point;
    ghost use Rattle.c_meaning.specs.Store.{kind_of_object, object_named};
    ghost use Rattle.c_machine.specs.Waiting.Stacks.{stack_of};
    ghost use Rattle.c_moves.specs.Machines.{configuration_of};

    /// An operator behind its first operand.
    pub fn join(&mut self, op: Binary, x: Value, right: &'p Expr, at: Place)
        requires { 0 < length (stack_of self.old.stack) }
        ensures { configuration_of self.new ≡ joined op x (tree_of right.now) at (popped (configuration_of self.old)) }
    {
        match op {
            Binary::LogAnd if x.number == 0 => self.skip_operand(acts(right), false, at),
            Binary::LogOr if x.number != 0 => self.skip_operand(acts(right), true, at),
            Binary::LogAnd | Binary::LogOr => self.reach_operand(right, at),
            _ => self.evaluate_then(ValueFrame::Right { op, x, at }, right),
        }
    }

    /// The second operand of `&&` or `||` is evaluated.
    fn reach_operand(&mut self, right: &'p Expr, at: Place)
        requires { 0 < length (stack_of self.old.stack) }
        ensures { configuration_of self.new ≡ reached (e.acts (tree_of right.now)) (tree_of right.now) at (popped (configuration_of self.old)) }
    {
        let fork = acts(right);
        self.stack
            .replace(Frame::OnValue(ValueFrame::Reached { fork, at }));
        let step = Step::Evaluate {
            used: true,
            e: right,
        };
        self.go_at_fork(fork, PointKind::Arm, at, step);
    }

    /// It is not evaluated.
    fn skip_operand(&mut self, fork: bool, decided: bool, at: Place)
        ensures { configuration_of self.new ≡ not_reached fork decided at (popped (configuration_of self.old)) }
    {
        self.stack.pop();
        let step = Step::Give(Value {
            kind: INT,
            number: i128::from(decided),
        });
        self.go_at_fork(fork, PointKind::End, at, step);
    }

    /// The operand of `?:` that its test chooses is evaluated.
    pub fn pick_operand(
        &mut self,
        alloc: Global,
        choice: Choice<'p>,
        x: Value,
    ) -> Result<(), AllocError>
        requires { 0 < length (stack_of self.old.stack) }
        ensures ok { OnOk result (configuration_of self.new ≡ picked (tree_of choice.entry.first.now) (tree_of choice.entry.second.now) choice.entry.at choice.entry.colon x (popped (configuration_of self.old))) }
        ensures err { OnErr result (configuration_of self.new ≡ configuration_of self.old) }
    {
        let Choice {
            first,
            second,
            at,
            colon,
        } = choice;
        let kind = common(
            self.kind_here(alloc, first)?,
            self.kind_here(alloc, second)?,
        );
        let fork = acts(first) || acts(second);
        if x.number != 0 {
            self.choose_operand(fork, at, at, kind, first);
        } else {
            self.choose_operand(fork, colon, at, kind, second);
        }
        Ok(())
    }

    fn choose_operand(&mut self, fork: bool, arm: Place, at: Place, kind: CType, operand: &'p Expr)
        requires { 0 < length (stack_of self.old.stack) }
        ensures { configuration_of self.new ≡ chosen fork arm at kind (tree_of operand.now) (popped (configuration_of self.old)) }
    {
        self.stack
            .replace(Frame::OnValue(ValueFrame::Chosen { fork, at, kind }));
        let step = Step::Evaluate {
            used: true,
            e: operand,
        };
        self.go_at_fork(fork, PointKind::Arm, arm, step);
    }

    /// The second operand of `&&` or `||`, or the chosen one of `?:`, is evaluated.
    pub fn leave_operand(&mut self, fork: bool, at: Place, v: Value)
        ensures { configuration_of self.new ≡ at_fork fork point.End at (f.give v) (popped (configuration_of self.old)) }
    {
        self.stack.pop();
        self.go_at_fork(fork, PointKind::End, at, Step::Give(v));
    }

    /// The type of an expression.
    ///
    /// Operators of one chain are gone through in a loop, so that the depth of the recursion is bounded by how deep the source nests.
    fn kind_here(&self, alloc: Global, e: &Expr) -> Result<CType, AllocError>
        ensures { IfOk result (λ kind. kind ≡ kind_here (configuration_of self.now) (tree_of e.now)) }
    {
        let mut operators = Vec::new(alloc);
        let mut part = e;
        'chain: loop {
            let kind = match part {
                Expr::Binary {
                    op,
                    left,
                    right,
                    ..
                } => {
                    let right = self.kind_here(alloc, right)?;
                    operators.push(Operator { op: *op, right })?;
                    part = left;
                    continue 'chain;
                }
                Expr::Comma { right, .. } => {
                    part = right;
                    continue 'chain;
                }
                Expr::Number { kind, .. } => *kind,
                Expr::Name { name, .. } => self.kind_of_name(name),
                Expr::Index { array, .. } => self.kind_of_name(array),
                Expr::Call { callee, .. } => result_kind(self.items, callee.items()),
                Expr::Unary { op, arg, .. } => unary_kind(*op, self.kind_here(alloc, arg)?),
                Expr::Choice { yes, no, .. } => {
                    common(self.kind_here(alloc, yes)?, self.kind_here(alloc, no)?)
                }
                Expr::Cast { to, .. } => *to,
                Expr::Assign { target, .. } | Expr::Bump { target, .. } => {
                    self.kind_of_name(&target.name)
                }
            };
            return Ok(around(operators, kind));
        }
    }

    fn kind_of_name(&self, name: &Text) -> CType
        ensures { result ≡ kind_of_object (still (configuration_of self.now)) (object_named (here (configuration_of self.now)) name.now) }
    {
        kind_of(self.objects.as_slice(), self.scopes.find(name.items()))
    }

    /// An assignment, behind its value.
    pub fn assign_element(&mut self, assignment: Assignment<'p>, x: Value)
        ensures { configuration_of self.new ≡ resumed (f.assigned_to assignment.entry.name.now assignment.entry.op assignment.entry.place assignment.entry.at) x (popped (configuration_of self.old)) }
    {
        let Assignment {
            name,
            op,
            place,
            at,
        } = assignment;
        let object = self.scopes.find(name.items());
        let subscripts = self.numbers.last();
        let outcome = assigned(&mut self.objects, op, object, subscripts, place, x, at);
        self.numbers.close();
        self.conclude_top(outcome);
    }

    /// An element of an initialiser, behind its value.
    pub fn initialise_element(&mut self, object: usize, element: usize, x: Value)
        ensures { configuration_of self.new ≡ resumed (f.initial object element) x (popped (configuration_of self.old)) }
    {
        let number = convert(kind_of(self.objects.as_slice(), object), x.number);
        write(&mut self.objects, object, element, number);
        self.go_on(Step::Complete(Completion::Normal));
    }
}
