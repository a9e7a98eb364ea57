//! The faults of declarations and statements.
ghost use Rattle.std.specs.Prelude.{◌≡◌, ◌++◌, [], map, true, false, length, List, OnOk, IfOk};
ghost use Rattle.std.specs.Option.{option_map};
ghost use Rattle.c_tree.specs.View.{tree_of, object_of, stmt_of, stmts_of, else_of, else_part, first_part, action_of};
ghost use Rattle.c_tree.specs.Tree as tree;
ghost use Rattle.c_value.specs.Values.{promoted as spec_promoted};
ghost use Rattle.c_meaning.specs.Checks.Faults as order;
ghost use Rattle.c_meaning.specs.Checks.Faults.{least};
ghost use Rattle.c_meaning.specs.Checks.Expressions.{expression_faults, optional_faults};
ghost use Rattle.c_meaning.specs.Checks.Names.{Declared};
ghost use Rattle.c_meaning.specs.Checks.Names.{kind_of as spec_kind_of};
ghost use Rattle.c_meaning.specs.Checks.Labels as labels;
ghost use Rattle.c_meaning.specs.Checks.Statements.{with_object, with_objects, names_behind, names_in_for, statement_faults, block_faults, else_faults, first_faults};
ghost use Rattle.c_meaning.specs.Checks.Statements as spec;
ghost use Rattle.c_names.specs.Labels.Written.{around_view};
ghost use Rattle.c_names.specs.Declarations.Extended.{Extends};

use crate::kinds::kind_of;
use crate::parts::{
    actions_fault, lengths_fault, optional_fault, optional_init_fault, value_fault,
};
use c_names::declarations::faults::{fault_if, lesser};
use c_names::declarations::lengths::form_of;
use c_names::declarations::names::{Declared, Scopes, Sense};
use c_names::labels::{Around, has_no_value, outside_fault, repeated_fault, return_fault};
use c_tree::action::Action;
use c_tree::expression::Expr;
use c_tree::object::Object;
use c_tree::statement::{Else, Stmt};
use c_value::kind::promoted;
use hls_base::place::Place;
use hls_base::refusal::Refusal;
use hls_base::text::Text;
use std::alloc::{AllocError, Global};

/// The least fault of an object in a scope that began with so many names, and its declaration.
#[tactic(auto, using(c_names::proofs::DeclarationsLemmas::Least::least_append))]
fn object_fault(
    alloc: Global,
    bodies: &[Text],
    at_file: bool,
    start: usize,
    names: &mut Scopes,
    o: &Object,
) -> Result<Option<Refusal>, AllocError>
    ensures fault { IfOk result (λ r. r ≡ least (spec.object_faults bodies.now at_file start names.old (object_of o.now))) }
    ensures names { OnOk result (names.new ≡ with_object (object_of o.now) names.old) }
{
    let repeated = fault_if(names.is_declared_since(start, &o.name), 8, o.at);
    let form = form_of(alloc, at_file, o)?;
    let lengths = lengths_fault(alloc, bodies, names, &o.lengths)?;
    let name = o.name.copy(alloc)?;
    let sense = Sense::Object(form.shape);
    names.declare(alloc, Declared { name, sense })?;
    let init = optional_init_fault(alloc, bodies, names, &o.init)?;
    Ok(lesser(repeated, lesser(form.fault, lesser(lengths, init))))
}

/// The least fault of objects in a scope that began with so many names, and their declarations.
pub fn objects_fault(
    alloc: Global,
    bodies: &[Text],
    at_file: bool,
    start: usize,
    names: &mut Scopes,
    objects: &[Object],
) -> Result<Option<Refusal>, AllocError>
    ensures fault { IfOk result (λ r. r ≡ least (spec.objects_faults bodies.now at_file start names.old (map object_of objects.now))) }
    ensures names { OnOk result (names.new ≡ with_objects (map object_of objects.now) names.old) }
{
    let mut worst = None;
    for object in objects {
        let here = object_fault(alloc, bodies, at_file, start, names, object)?;
        worst = lesser(worst, here);
    }
    Ok(worst)
}

/// The least fault of a statement in a scope that began with so many names, and its declarations.
#[cycle(statements)]
#[tactic(auto, using(crate::proofs::StatementFaults::block_parts, crate::proofs::StatementFaults::declare_parts, crate::proofs::StatementFaults::act_parts, crate::proofs::StatementFaults::if_parts, crate::proofs::StatementFaults::switch_parts, crate::proofs::StatementFaults::case_parts, crate::proofs::StatementFaults::while_parts, crate::proofs::StatementFaults::do_parts, crate::proofs::StatementFaults::for_parts, crate::proofs::StatementFaults::break_parts, crate::proofs::StatementFaults::continue_parts, crate::proofs::StatementFaults::return_parts))]
fn statement(
    alloc: Global,
    bodies: &[Text],
    around: Around,
    start: usize,
    names: &mut Scopes,
    stmt: &Stmt,
) -> Result<Option<Refusal>, AllocError>
    ensures fault { IfOk result (λ r. r ≡ least (statement_faults bodies.now (around_view around) start names.old (stmt_of stmt.now))) }
    ensures names { OnOk result (names.new ≡ names_behind names.old (stmt_of stmt.now)) }
{
    match stmt {
        Stmt::Block(body) => inner_block(alloc, bodies, around.in_part(), names, body),
        Stmt::Declare(objects) => objects_fault(alloc, bodies, false, start, names, objects),
        Stmt::Act(actions) => actions_fault(alloc, bodies, names, actions),
        Stmt::If { test, yes, no, .. } => {
            let test = value_fault(alloc, bodies, names, test)?;
            let yes = inner(alloc, bodies, around.in_part(), names, yes)?;
            let no = else_fault(alloc, bodies, around.in_part(), names, no)?;
            Ok(lesser(test, lesser(yes, no)))
        }
        Stmt::Switch { body, test, .. } => switch_fault(alloc, bodies, around, names, body, test),
        Stmt::Case { value, body, at } => {
            let outside = outside_fault(around.labels, *at);
            let open = fault_if(has_no_value(value), 17, *at);
            let value = optional_fault(alloc, bodies, names, value)?;
            let inside = statement(alloc, bodies, around, start, names, body)?;
            Ok(lesser(outside, lesser(open, lesser(value, inside))))
        }
        Stmt::While { body, test, .. } => while_fault(alloc, bodies, around, names, body, test),
        Stmt::Do { body, test, .. } => do_fault(alloc, bodies, around, names, body, test),
        Stmt::For {
            init,
            test,
            step,
            body,
            ..
        } => {
            let outer = names.len();
            let first = first_fault(alloc, bodies, around.in_part(), outer, names, init)?;
            let test = optional_fault(alloc, bodies, names, test)?;
            let step = actions_fault(alloc, bodies, names, step)?;
            let inside = inner(alloc, bodies, around.in_loop(), names, body)?;
            names.forget(outer);
            Ok(lesser(first, lesser(test, lesser(step, inside))))
        }
        Stmt::Break(at) => Ok(outside_fault(around.breaks, *at)),
        Stmt::Continue(at) => Ok(outside_fault(around.continues, *at)),
        Stmt::Return { value, at } => returned_fault(alloc, bodies, around, names, value, *at),
    }
}

/// A `return`, and the value that it gives.
fn returned_fault(
    alloc: Global,
    bodies: &[Text],
    around: Around,
    names: &Scopes,
    value: &Option<Expr>,
    at: Place,
) -> Result<Option<Refusal>, AllocError>
    ensures { IfOk result (λ r. r ≡ order.lesser (least (labels.return_faults (around_view around).result (option_map tree_of value.now) at)) (least (optional_faults bodies.now names.now (option_map tree_of value.now)))) }
{
    let mismatched = return_fault(around.returns, value.is_some(), at);
    let value = optional_fault(alloc, bodies, names, value)?;
    Ok(lesser(mismatched, value))
}

/// The body of a `switch`, with its labels, and the value that it tests.
#[cycle(statements)]
fn switch_fault(
    alloc: Global,
    bodies: &[Text],
    around: Around,
    names: &mut Scopes,
    body: &[Stmt],
    test: &Expr,
) -> Result<Option<Refusal>, AllocError>
    ensures fault { IfOk result (λ r. r ≡ order.lesser (least (expression_faults true bodies.now names.old (tree_of test.now))) (order.lesser (least (labels.repeated_faults [] (labels.block_labels (spec_promoted (spec_kind_of names.old (tree_of test.now))) (stmts_of body.now)))) (least (block_faults bodies.now (labels.in_switch (around_view around)) (length names.old) names.old (stmts_of body.now))))) }
    ensures names { OnOk result (names.new ≡ names.old) }
{
    let kind = promoted(kind_of(names, test));
    let test = value_fault(alloc, bodies, names, test)?;
    let repeated = repeated_fault(alloc, kind, body)?;
    let inside = inner_block(alloc, bodies, around.in_switch(), names, body)?;
    Ok(lesser(test, lesser(repeated, inside)))
}

/// The body of a `while`, behind its test.
#[cycle(statements)]
fn while_fault(
    alloc: Global,
    bodies: &[Text],
    around: Around,
    names: &mut Scopes,
    body: &Stmt,
    test: &Expr,
) -> Result<Option<Refusal>, AllocError>
    ensures fault { IfOk result (λ r. r ≡ order.lesser (least (expression_faults true bodies.now names.old (tree_of test.now))) (least (statement_faults bodies.now (labels.in_loop (around_view around)) (length names.old) names.old (stmt_of body.now)))) }
    ensures names { OnOk result (names.new ≡ names.old) }
{
    let test = value_fault(alloc, bodies, names, test)?;
    let inside = inner(alloc, bodies, around.in_loop(), names, body)?;
    Ok(lesser(test, inside))
}

/// The body of a `do`, before its test.
#[cycle(statements)]
fn do_fault(
    alloc: Global,
    bodies: &[Text],
    around: Around,
    names: &mut Scopes,
    body: &Stmt,
    test: &Expr,
) -> Result<Option<Refusal>, AllocError>
    ensures fault { IfOk result (λ r. r ≡ order.lesser (least (statement_faults bodies.now (labels.in_loop (around_view around)) (length names.old) names.old (stmt_of body.now))) (least (expression_faults true bodies.now names.old (tree_of test.now)))) }
    ensures names { OnOk result (names.new ≡ names.old) }
{
    let inside = inner(alloc, bodies, around.in_loop(), names, body)?;
    let test = value_fault(alloc, bodies, names, test)?;
    Ok(lesser(inside, test))
}

/// A statement that is a scope of its own.
#[cycle(statements)]
fn inner(
    alloc: Global,
    bodies: &[Text],
    around: Around,
    names: &mut Scopes,
    stmt: &Stmt,
) -> Result<Option<Refusal>, AllocError>
    ensures fault { IfOk result (λ r. r ≡ least (statement_faults bodies.now (around_view around) (length names.old) names.old (stmt_of stmt.now))) }
    ensures names { OnOk result (names.new ≡ names.old) }
{
    let start = names.len();
    let fault = statement(alloc, bodies, around, start, names, stmt)?;
    names.forget(start);
    Ok(fault)
}

/// A block that is a scope of its own.
#[cycle(statements)]
fn inner_block(
    alloc: Global,
    bodies: &[Text],
    around: Around,
    names: &mut Scopes,
    body: &[Stmt],
) -> Result<Option<Refusal>, AllocError>
    ensures fault { IfOk result (λ r. r ≡ least (block_faults bodies.now (around_view around) (length names.old) names.old (stmts_of body.now))) }
    ensures names { OnOk result (names.new ≡ names.old) }
{
    let start = names.len();
    let fault = block(alloc, bodies, around, start, names, body)?;
    names.forget(start);
    Ok(fault)
}

/// The least fault of statements in a scope that began with so many names, and their declarations.
#[cycle(statements)]
pub fn block(
    alloc: Global,
    bodies: &[Text],
    around: Around,
    start: usize,
    names: &mut Scopes,
    body: &[Stmt],
) -> Result<Option<Refusal>, AllocError>
    ensures fault { IfOk result (λ r. r ≡ least (block_faults bodies.now (around_view around) start names.old (stmts_of body.now))) }
    ensures names { OnOk result (Extends names.old names.new) }
{
    let mut worst = None;
    for stmt in body {
        let here = statement(alloc, bodies, around, start, names, stmt)?;
        worst = lesser(worst, here);
    }
    Ok(worst)
}

/// The second branch of an `if`.
#[cycle(statements)]
fn else_fault(
    alloc: Global,
    bodies: &[Text],
    around: Around,
    names: &mut Scopes,
    branch: &Option<Else>,
) -> Result<Option<Refusal>, AllocError>
    ensures fault { IfOk result (λ r. r ≡ least (else_faults bodies.now (around_view around) (length names.old) names.old (else_part (option_map else_of branch.now)))) }
    ensures names { OnOk result (names.new ≡ names.old) }
{
    match branch {
        None => Ok(None),
        Some(branch) => {
            let fault = inner(alloc, bodies, around, names, &branch.body)?;
            Ok(fault)
        }
    }
}

/// The first part of a `for`, in the scope of the `for`.
#[cycle(statements)]
fn first_fault(
    alloc: Global,
    bodies: &[Text],
    around: Around,
    start: usize,
    names: &mut Scopes,
    init: &Option<Box<Stmt>>,
) -> Result<Option<Refusal>, AllocError>
    ensures fault { IfOk result (λ r. r ≡ least (first_faults bodies.now (around_view around) start names.old (first_part (option_map (λ s. stmt_of s.value) init.now)))) }
    ensures names { OnOk result (names.new ≡ names_in_for names.old (first_part (option_map (λ s. stmt_of s.value) init.now))) }
{
    match init {
        None => Ok(None),
        Some(part) => {
            let fault = statement(alloc, bodies, around, start, names, part)?;
            Ok(fault)
        }
    }
}
