//! Labels and jumps.
ghost use Rattle.std.specs.Prelude.{◌≡◌, ◌++◌, ◌||◌, [], OnOk, IfOk};
ghost use Rattle.std.specs.Option.{option_map};
ghost use Rattle.c_tree.specs.View.{tree_of, stmt_of, stmts_of};
ghost use Rattle.c_meaning.specs.Checks.Faults.{least};
ghost use Rattle.c_meaning.specs.Checks.Faults as order;
ghost use Rattle.c_meaning.specs.Checks.Labels.{outside_faults, repeated_faults};
ghost use Rattle.c_meaning.specs.Checks.Labels as spec;
ghost use Rattle.c_names.specs.Labels.Written.{label_view, around_view};
ghost use Rattle.c_names.specs.Labels.Noted.{is_noted};
ghost use Rattle.c_names.specs.declared.labels.Label.{Label};

use crate::declarations::faults::{fault_if, lesser};
use crate::declarations::lengths::has_value;
use c_token::ctype::CType;
use c_tree::expression::Expr;
use c_tree::statement::Stmt;
use c_value::constant::{Constant, constant_value};
use c_value::convert::convert;
use hls_base::place::Place;
use hls_base::refusal::Refusal;
use indexmap::IndexSet;
use std::alloc::{AllocError, Global};
use std::marker::Model;

/// What a statement stands in: a function that returns this, a loop or a switch, a loop, and whether directly in the block of a switch.
#[derive(Clone, Copy, PartialEq, Eq)]
pub struct Around {
    pub returns: Option<CType>,
    pub breaks: bool,
    pub continues: bool,
    pub labels: bool,
}

impl Around {
    pub fn in_function(returns: Option<CType>) -> Around
        ensures { around_view result ≡ spec.in_function returns }
    {
        Around {
            returns,
            breaks: false,
            continues: false,
            labels: false,
        }
    }

    pub fn in_part(self) -> Around
        ensures { around_view result ≡ spec.in_part (around_view self) }
    {
        Around {
            returns: self.returns,
            breaks: self.breaks,
            continues: self.continues,
            labels: false,
        }
    }

    pub fn in_loop(self) -> Around
        ensures { around_view result ≡ spec.in_loop (around_view self) }
    {
        Around {
            returns: self.returns,
            breaks: true,
            continues: true,
            labels: false,
        }
    }

    pub fn in_switch(self) -> Around
        ensures { around_view result ≡ spec.in_switch (around_view self) }
    {
        Around {
            returns: self.returns,
            breaks: true,
            continues: self.continues,
            labels: true,
        }
    }
}

/// The fault of a return with or without a value.
pub fn return_fault(returns: Option<CType>, has_value: bool, at: Place) -> Option<Refusal>
    ensures { result ≡ least (order.fault_if (spec.is_mismatched returns has_value) 14 at) }
{
    fault_if(returns.is_some() != has_value, 14, at)
}

/// The fault of a jump or a label that stands where it may not.
pub fn outside_fault(inside: bool, at: Place) -> Option<Refusal>
    ensures { result ≡ least (outside_faults inside at) }
{
    fault_if(!inside, 15, at)
}

/// Whether the value of a case is no constant with a value.
pub fn has_no_value(value: &Option<Expr>) -> bool
    ensures { result ≡ spec.has_no_value (option_map tree_of value.now) }
{
    match value {
        None => false,
        Some(e) => !has_value(e),
    }
}

/// What a label asks for: a number, the default, or nothing where its value is at fault.
#[derive(Clone, Copy, PartialEq, Eq, Hash)]
pub enum Label {
    Case(i128),
    Default,
    Faulty,
}

/// A label and its keyword's place.
#[derive(Drop)]
pub struct LabelAt {
    label: Label,
    at: Place,
}

impl Model for LabelAt {
    ghost use Rattle.c_meaning.specs.Checks.Labels.{LabelAt};
    ghost use Rattle.c_names.specs.Labels.Written.{label_at_view};

    ghost Value = { LabelAt };

    ghost view = { λ l. label_at_view l.label l.at };
}

/// What a label of a switch over this type asks for.
fn label_of(kind: CType, value: &Option<Expr>) -> Label
    ensures { label_view result ≡ spec.label_of kind (option_map tree_of value.now) }
{
    match value {
        None => Label::Default,
        Some(e) => match constant_value(e) {
            Constant::Number { number, .. } => Label::Case(convert(kind, number)),
            _ => Label::Faulty,
        },
    }
}

/// Adds the labels of a statement, and of the statement that they label.
fn add_labels(kind: CType, stmt: &Stmt, labels: &mut Vec<LabelAt>) -> Result<(), AllocError>
    ensures { OnOk result (labels.new.items ≡ labels.old.items ++ spec.labels_of kind (stmt_of stmt.now)) }
{
    match stmt {
        Stmt::Case { value, body, at } => {
            let label = label_of(kind, value);
            labels.push(LabelAt { label, at: *at })?;
            add_labels(kind, body, labels)?;
            Ok(())
        }
        Stmt::Block(_)
        | Stmt::Declare(_)
        | Stmt::Act(_)
        | Stmt::If { .. }
        | Stmt::Switch { .. }
        | Stmt::While { .. }
        | Stmt::Do { .. }
        | Stmt::For { .. }
        | Stmt::Break(_)
        | Stmt::Continue(_)
        | Stmt::Return { .. } => Ok(()),
    }
}

/// The labels of a switch over this type.
fn block_labels(alloc: Global, kind: CType, body: &[Stmt]) -> Result<Vec<LabelAt>, AllocError>
    ensures { IfOk result (λ ls. ls.items ≡ spec.block_labels kind (stmts_of body.now)) }
{
    let mut labels = Vec::new(alloc);
    for stmt in body {
        add_labels(kind, stmt, &mut labels)?;
    }
    Ok(labels)
}

/// Whether a label like this one was noted. The next time it was.
fn note(noted: &mut IndexSet<Label>, label: Label) -> Result<bool, AllocError>
    ensures found { IfOk result (λ r. r ≡ is_noted noted.old.keys label) }
    ensures noted { OnOk result ((other : Label) → is_noted noted.new.keys other ≡ (is_noted noted.old.keys other || spec.same_label (label_view other) (label_view label))) }
{
    if let Label::Faulty = label {
        return Ok(false);
    }
    let is_new = noted.insert(label)?;
    Ok(!is_new)
}

/// The least label that is the same as one before it.
fn least_repeated(alloc: Global, labels: &[LabelAt]) -> Result<Option<Refusal>, AllocError>
    ensures { IfOk result (λ r. r ≡ least (repeated_faults [] labels.now)) }
{
    let mut noted = IndexSet::new(alloc);
    let mut worst = None;
    for i in 0..labels.len() {
        let here = &labels[i];
        let repeated = note(&mut noted, here.label)?;
        worst = lesser(worst, fault_if(repeated, 16, here.at));
    }
    Ok(worst)
}

/// The least label of a switch over this type that is the same as one before it.
pub fn repeated_fault(
    alloc: Global,
    kind: CType,
    body: &[Stmt],
) -> Result<Option<Refusal>, AllocError>
    ensures { IfOk result (λ r. r ≡ least (repeated_faults [] (spec.block_labels kind (stmts_of body.now)))) }
{
    let labels = block_labels(alloc, kind, body)?;
    least_repeated(alloc, &labels)
}
