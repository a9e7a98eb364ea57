//! What pieces without control of their own add to the block that is open, and the tests that end it.
ghost use Rattle.std.specs.Prelude.{◌≡◌, [], List, IfOk};
ghost use Rattle.ir_core.specs.Bodies.{OpTree};
ghost use Rattle.passes.specs.Lowering.Blocks.{Cases};
ghost use Rattle.pieces.specs.View.{pure_of, pures_of};
ghost use Rattle.passes.specs.Lowering.Blocks as spec;
ghost use Rattle.passes.specs.Lowering.Expressions.{emitted, emitted_all};
ghost use Rattle.block_draft.specs.Views.{ops_of, made};
ghost use Rattle.block_draft.specs.Drafts.{scope_of, cases_of, stored_in, with_earlier};

use crate::expression::{emit, emit_all};
use crate::operations::{Operations, constant, plain};
use crate::outs::Outs;
use c_token::ctype::CType;
use c_value::kind::{INT, promoted, width};
use hls_base::number::{ArrayId, VarId};
use hls_base::place::Place;
use ir_core::body::{Op, OpKind, Operand, Out};
use ir_core::stamp::Untimed;
use pieces::expanded::Expanded;
use pieces::piece::Label;
use pieces::pure_expr::Pure;
use pieces::pure_kind::kind_of;
use std::alloc::{AllocError, Global};
use std::mem;

/// The operations of a block that is open, and what its variables hold.
#[derive(Drop)]
pub struct Draft {
    ops: Operations,
    outs: Outs,
}

/// What of a draft is left as the block is closed.
#[derive(Drop)]
pub struct Done {
    pub ops: Vec<Op<Untimed>>,
    pub outs: Vec<Out>,
}

fn variable_kind(expanded: &Expanded, variable: VarId) -> CType
    ensures { result ≡ spec.variable_type (scope_of expanded.now) variable }
{
    let index = variable.0 as usize;
    if index < expanded.variables.len() {
        expanded.variables[index]
    } else {
        INT
    }
}

fn element_kind(expanded: &Expanded, array: ArrayId) -> CType
    ensures { result ≡ spec.element_type (scope_of expanded.now) array }
{
    let index = array.0 as usize;
    if index < expanded.arrays.len() {
        expanded.arrays[index].kind
    } else {
        INT
    }
}

/// The value of an expression, as one of this type.
fn emit_as(
    ops: &mut Operations,
    outs: &Outs,
    value: &Pure,
    kind: CType,
) -> Result<Operand, AllocError>
    ensures { IfOk result (λ x. made ops.new x ≡ spec.given_as kind (emitted outs.now (pure_of value.now) (ops_of ops.old) [])) }
{
    let mut guards = Vec::new(ops.alloc());
    let given = emit(ops, &mut guards, outs, value)?;
    ops.converted(given, kind)
}

/// The test of a fork or a loop.
fn emit_test(ops: &mut Operations, outs: &Outs, test: &Pure) -> Result<Operand, AllocError>
    ensures { IfOk result (λ x. made ops.new x ≡ spec.given_tested (emitted outs.now (pure_of test.now) (ops_of ops.old) [])) }
{
    let mut guards = Vec::new(ops.alloc());
    let given = emit(ops, &mut guards, outs, test)?;
    ops.condition(given)
}

/// A value that is stored in an element.
fn emit_store(
    ops: &mut Operations,
    outs: &Outs,
    array: ArrayId,
    subscripts: &Vec<Pure>,
    value: &Pure,
    kind: CType,
    at: Place,
) -> Result<Operand, AllocError>
    ensures { IfOk result (λ x. made ops.new x ≡ stored_in outs.now array kind (pures_of subscripts.now.items) (pure_of value.now) at (ops_of ops.old)) }
{
    let mut guards = Vec::new(ops.alloc());
    let mut args = emit_all(ops, &mut guards, outs, subscripts)?;
    let given = emit(ops, &mut guards, outs, value)?;
    args.push(ops.converted(given, kind)?)?;
    let form = plain(OpKind::Store, width(kind));
    ops.flagged(form, args, Some(array), at, None)
}

/// The value of a switch's test, promoted to this type.
fn emit_promoted(
    ops: &mut Operations,
    outs: &Outs,
    test: &Pure,
    kind: CType,
) -> Result<Operand, AllocError>
    ensures { IfOk result (λ x. made ops.new x ≡ spec.promoted_given kind (emitted outs.now (pure_of test.now) (ops_of ops.old) [])) }
{
    let mut guards = Vec::new(ops.alloc());
    let given = emit(ops, &mut guards, outs, test)?;
    ops.balanced(given, kind)
}

/// For each label with a value whether the operand has it.
fn emit_cases(
    ops: &mut Operations,
    kind: CType,
    value: Operand,
    labels: &[Label],
) -> Result<Vec<Operand>, AllocError>
    ensures { IfOk result (λ cases. cases_of ops.new cases.items ≡ spec.cases kind value labels.now (ops_of ops.old)) }
{
    let mut cases = Vec::new(ops.alloc());
    for label in labels {
        add_case(ops, &mut cases, kind, value, label.value)?;
    }
    Ok(cases)
}

/// Whether the operand has the value of a label, if it has one.
fn add_case(
    ops: &mut Operations,
    cases: &mut Vec<Operand>,
    kind: CType,
    value: Operand,
    label: Option<u64>,
) -> Result<(), AllocError>
    ensures { (rest : List OpTree → Cases) → IfOk result (λ u. with_earlier cases.new.items (rest (ops_of ops.new)) ≡ with_earlier cases.old.items (spec.case_or kind value (ops_of ops.old) label rest)) }
{
    match label {
        Some(word) => {
            let form = plain(OpKind::Eq, width(kind));
            cases.push(ops.operation(form, &[value, constant(word)])?)?;
            Ok(())
        }
        None => Ok(()),
    }
}

impl Draft {
    ghost use Rattle.std.specs.Prelude.{◌≡◌, [], IfOk, map};
    ghost use Rattle.hls_base.specs.declared.point.Point.{Point};
    ghost use Rattle.pieces.specs.View.{pure_of, pures_of};
    ghost use Rattle.ir_core.specs.Bodies.{op_of};
    ghost use Rattle.ir_core.specs.Trees.{ExitTree};
    ghost use Rattle.passes.specs.Lowering.Blocks as spec;
    ghost use Rattle.block_draft.specs.Views.{ops_of, made};
    ghost use Rattle.block_draft.specs.Drafts.{scope_of, cases_of, contents, nothing, open_at, switched_cases};

    /// An empty block.
    pub fn new(alloc: Global) -> Draft
        ensures { contents result ≡ nothing }
    {
        Draft {
            ops: Operations::new(alloc),
            outs: Outs::new(alloc),
        }
    }

    pub fn alloc(&self) -> Global {
        self.ops.alloc()
    }

    /// The variable holds the value, as one of its type.
    pub fn set(
        &mut self,
        expanded: &Expanded,
        variable: VarId,
        value: &Pure,
    ) -> Result<(), AllocError>
        ensures { (point : Point) (exit : ExitTree) → IfOk result (λ u. open_at point exit self.new ≡ spec.set (scope_of expanded.now) variable (pure_of value.now) (open_at point exit self.old)) }
    {
        let kind = variable_kind(expanded, variable);
        let operand = emit_as(&mut self.ops, &self.outs, value, kind)?;
        if (variable.0 as usize) < expanded.variables.len() {
            let outs = mem::replace(&mut self.outs, Outs::new(self.ops.alloc()));
            self.outs = outs.set(variable, operand)?;
        }
        Ok(())
    }

    /// The element takes the value, as one of its type.
    pub fn put(
        &mut self,
        expanded: &Expanded,
        array: ArrayId,
        subscripts: &Vec<Pure>,
        value: &Pure,
        at: Place,
    ) -> Result<(), AllocError>
        ensures { (point : Point) (exit : ExitTree) → IfOk result (λ u. open_at point exit self.new ≡ spec.put (scope_of expanded.now) array (pures_of subscripts.now.items) (pure_of value.now) at (open_at point exit self.old)) }
    {
        let kind = element_kind(expanded, array);
        emit_store(
            &mut self.ops,
            &self.outs,
            array,
            subscripts,
            value,
            kind,
            at,
        )?;
        Ok(())
    }

    /// The test of a fork or a loop.
    pub fn condition(&mut self, test: &Pure) -> Result<Operand, AllocError>
        ensures test { (point : Point) (exit : ExitTree) → IfOk result (λ x. made self.new.ops x ≡ spec.condition (pure_of test.now) (open_at point exit self.old)) }
        ensures outs { self.new.outs ≡ self.old.outs }
    {
        emit_test(&mut self.ops, &self.outs, test)
    }

    /// For each label with a value whether the promoted test has it.
    pub fn cases(&mut self, test: &Pure, labels: &[Label]) -> Result<Vec<Operand>, AllocError>
        ensures cases { IfOk result (λ cases. cases_of self.new.ops cases.items ≡ switched_cases (pure_of test.now) labels.now self.old.outs (ops_of self.old.ops)) }
        ensures outs { self.new.outs ≡ self.old.outs }
    {
        let kind = promoted(kind_of(test));
        let value = emit_promoted(&mut self.ops, &self.outs, test, kind)?;
        emit_cases(&mut self.ops, kind, value, labels)
    }

    /// Ends the block. The next one begins.
    pub fn close(&mut self) -> Result<Done, AllocError>
        ensures ops { IfOk result (λ done. map op_of done.ops.items ≡ ops_of self.old.ops) }
        ensures outs { IfOk result (λ done. done.outs.items ≡ self.old.outs) }
        ensures fresh { contents self.new ≡ nothing }
    {
        let ops = self.ops.take();
        let outs = mem::replace(&mut self.outs, Outs::new(self.ops.alloc()));
        Ok(Done {
            ops,
            outs: outs.list()?,
        })
    }
}
