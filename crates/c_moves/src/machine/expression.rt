//! Expressions.
use crate::machine::Machine;
use c_machine::state::store::read;
use c_machine::waiting::frame::{Call, Choice, Step, Use, ValueFrame};
use c_meaning::value::Value;
use c_token::ctype::CType;
use c_tree::expression::Expr;
use c_tree::operator::Binary;
use hls_base::place::Place;
use hls_base::text::Text;
use std::alloc::{AllocError, Global};

impl<'p> Machine<'p> {
    ghost use Rattle.std.specs.Prelude.{◌≡◌, IsTrue, false, pos, OnOk, OnErr};
    ghost use Rattle.c_tree.specs.View.{tree_of, trees_of};
    ghost use Rattle.c_tree.specs.Tree as tree;
    ghost use Rattle.c_meaning.specs.Expression as meaning;
    ghost use Rattle.c_machine.specs.Frames as f;
    ghost use Rattle.c_machine.specs.Moves.{evaluated, is_change, going};
    ghost use Rattle.c_moves.specs.Machines.{configuration_of};

    /// Begins to evaluate an expression. The flag says whether its value is used.
    pub fn evaluate(&mut self, alloc: Global, used: bool, e: &'p Expr) -> Result<(), AllocError>
        ensures ok { OnOk result (configuration_of self.new ≡ evaluated used (tree_of e.now) (configuration_of self.old)) }
        ensures err { OnErr result (configuration_of self.new ≡ configuration_of self.old) }
    {
        match e {
            Expr::Number { value, kind, .. } => self.give_number(*value, *kind),
            Expr::Name { name, at } => self.read_name(name, *at),
            Expr::Index {
                array,
                subscripts,
                at,
            } => self.begin_index(alloc, array, subscripts, *at)?,
            Expr::Call { callee, args, at } => self.begin_arguments(
                alloc, callee, args, used, *at,
            )?,
            Expr::Unary { op, arg, at } => {
                self.evaluate_for(ValueFrame::Unary { op: *op, at: *at }, true, arg)?;
            }
            Expr::Binary {
                op,
                left,
                right,
                at,
            } => self.begin_binary(*op, left, right, *at)?,
            Expr::Choice {
                test,
                yes,
                no,
                at,
                colon,
            } => self.begin_choice(test, yes, no, *at, *colon)?,
            Expr::Cast { to, arg, .. } => self.evaluate_for(ValueFrame::Cast(*to), true, arg)?,
            Expr::Comma { left, right, .. } => {
                self.evaluate_for(ValueFrame::Comma(right), false, left)?;
            }
            Expr::Assign { .. } | Expr::Bump { .. } => self.begin_change(alloc, e)?,
        }
        Ok(())
    }

    fn give_number(&mut self, n: u64, kind: CType)
        ensures { configuration_of self.new ≡ going (f.give (meaning.value kind (pos n))) (configuration_of self.old) }
    {
        let number = i128::from(n);
        self.go(Step::Give(Value { kind, number }));
    }

    fn read_name(&mut self, name: &Text, at: Place)
        ensures { configuration_of self.new ≡ evaluated false (tree.name name.now at) (configuration_of self.old) }
    {
        let object = self.scopes.find(name.items());
        let found = read(self.objects.as_slice(), object, &[], at);
        self.conclude(found);
    }

    /// Begins to read an element with its subscripts.
    fn begin_index(
        &mut self,
        alloc: Global,
        array: &'p Text,
        subscripts: &'p [Expr],
        at: Place,
    ) -> Result<(), AllocError>
        ensures ok { OnOk result (configuration_of self.new ≡ evaluated false (tree.index array.now (trees_of subscripts.now) at) (configuration_of self.old)) }
        ensures err { OnErr result (configuration_of self.new ≡ configuration_of self.old) }
    {
        self.numbers.open(alloc)?;
        self.go(Step::Subscripts(subscripts, Use::Reading { array, at }));
        Ok(())
    }

    /// Begins a call with its arguments.
    fn begin_arguments(
        &mut self,
        alloc: Global,
        callee: &'p Text,
        args: &'p [Expr],
        used: bool,
        at: Place,
    ) -> Result<(), AllocError>
        ensures ok { OnOk result (configuration_of self.new ≡ evaluated used (tree.call callee.now (trees_of args.now) at) (configuration_of self.old)) }
        ensures err { OnErr result (configuration_of self.new ≡ configuration_of self.old) }
    {
        self.given.open(alloc)?;
        self.go(Step::Arguments(Call {
            others: args,
            callee,
            used,
            at,
        }));
        Ok(())
    }

    /// Begins an expression that changes an object.
    fn begin_change(&mut self, alloc: Global, e: &'p Expr) -> Result<(), AllocError>
        requires { IsTrue (is_change (tree_of e.now)) }
        ensures ok { OnOk result (configuration_of self.new ≡ evaluated false (tree_of e.now) (configuration_of self.old)) }
        ensures err { OnErr result (configuration_of self.new ≡ configuration_of self.old) }
    {
        match e {
            Expr::Assign {
                target,
                op,
                value,
                at,
            } => self.assign(alloc, target, *op, value, *at),
            Expr::Bump {
                target,
                up,
                post,
                at,
            } => self.bump(alloc, target, *up, *post, *at),
            _ => unreachable!(),
        }
    }

    fn begin_binary(
        &mut self,
        op: Binary,
        left: &'p Expr,
        right: &'p Expr,
        at: Place,
    ) -> Result<(), AllocError>
        ensures ok { OnOk result (configuration_of self.new ≡ evaluated false (tree.binary op (tree_of left.now) (tree_of right.now) at) (configuration_of self.old)) }
        ensures err { OnErr result (configuration_of self.new ≡ configuration_of self.old) }
    {
        self.evaluate_for(ValueFrame::Left { op, right, at }, true, left)
    }

    fn begin_choice(
        &mut self,
        test: &'p Expr,
        first: &'p Expr,
        second: &'p Expr,
        at: Place,
        colon: Place,
    ) -> Result<(), AllocError>
        ensures ok { OnOk result (configuration_of self.new ≡ evaluated false (tree.choice (tree_of test.now) (tree_of first.now) (tree_of second.now) at colon) (configuration_of self.old)) }
        ensures err { OnErr result (configuration_of self.new ≡ configuration_of self.old) }
    {
        let choice = Choice {
            first,
            second,
            at,
            colon,
        };
        self.evaluate_for(ValueFrame::Choice(choice), true, test)
    }
}
