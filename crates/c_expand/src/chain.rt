//! The operators of a chain, each added by a call, so that the function that goes through the chain has no places for them.
ghost use Rattle.c_expand.specs.declared.operators.Step.TheVariants as st;

use crate::held::HeldChange;
use crate::operators::Step;
use c_token::ctype::CType;
use c_tree::operator::Unary;
use hls_base::place::Place;
use piece_making::build::Operator;
use pieces::resolved::expression::CoreExpr;
use std::alloc::{AllocError, Global};
use std::marker::Model;

/// The operators of a chain that were gone through, the outermost first.
pub struct Chain<'e> {
    steps: Vec<Step<'e>>,
}

impl<'e> Model for Chain<'e> {
    ghost use Rattle.std.specs.Coded.{codes};
    ghost use Rattle.std.specs.declared.alloc.Global.{Global};
    ghost use Rattle.std.specs.declared.vec.Vec.{Vec};
    ghost use Rattle.pieces.specs.contracts.pure_expr.Pure as pure_expr;
    ghost use Rattle.pieces.specs.contracts.resolved.expression.CoreExpr as expression;
    ghost use Rattle.pieces.specs.contracts.resolved.expression.CoreTarget as target;
    ghost use Rattle.c_expand.specs.declared.operators.Step.{Step};

    ghost Value = { Vec Step Global };

    ghost coded = { Prim.hlevel (codes, pure_expr.the_row.coded, expression.the_row.coded, target.the_row.coded) };

    ghost view = { λ chain. chain.steps };
}

impl<'e> Drop for Chain<'e> {
    #[inline(never)]
    fn drop(self) {
        let Chain { steps } = self;
        drop(steps);
    }
}

impl<'e> Chain<'e> {
    ghost use Rattle.std.specs.Prelude.{◌≡◌, ◌++◌, ◌∷◌, [], OnOk};

    pub fn new(alloc: Global) -> Chain<'e>
        ensures { result.items ≡ [] }
    {
        Chain {
            steps: Vec::new(alloc),
        }
    }

    #[inline(never)]
    pub fn unary(&mut self, op: Unary, kind: CType, at: Place) -> Result<(), AllocError>
        ensures { OnOk result (self.new.items ≡ self.old.items ++ st.Unary op kind at ∷ []) }
    {
        self.steps.push(Step::Unary { op, kind, at })?;
        Ok(())
    }

    #[inline(never)]
    pub fn cast(&mut self, to: CType) -> Result<(), AllocError>
        ensures { OnOk result (self.new.items ≡ self.old.items ++ st.Cast to ∷ []) }
    {
        self.steps.push(Step::Cast { to })?;
        Ok(())
    }

    #[inline(never)]
    pub fn binary(&mut self, operator: Operator, right: &'e CoreExpr) -> Result<(), AllocError>
        ensures { OnOk result (self.new.items ≡ self.old.items ++ st.Binary operator right.entry ∷ []) }
    {
        self.steps.push(Step::Binary { operator, right })?;
        Ok(())
    }

    #[inline(never)]
    pub fn assign(&mut self, change: HeldChange<'e>) -> Result<(), AllocError>
        ensures { OnOk result (self.new.items ≡ self.old.items ++ st.Assign change.entry ∷ []) }
    {
        self.steps.push(Step::Assign(change))?;
        Ok(())
    }

    #[inline(never)]
    pub fn comma(&mut self, left: &'e CoreExpr, right: &'e CoreExpr) -> Result<(), AllocError>
        ensures { OnOk result (self.new.items ≡ self.old.items ++ st.Comma left.entry right.entry ∷ []) }
    {
        self.steps.push(Step::Comma { left, right })?;
        Ok(())
    }

    pub fn into_inner(self) -> Vec<Step<'e>>
        ensures { result ≡ self.entry }
    {
        let Chain { steps } = self;
        steps
    }
}
