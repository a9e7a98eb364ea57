//! Expressions with their names resolved.
ghost use Rattle.std.specs.Prelude.{◌≡◌, map, true, IfOk};
ghost use Rattle.std.specs.Option.{option_map};
ghost use Rattle.c_tree.specs.Tree as tree;
ghost use Rattle.c_tree.specs.View.{tree_of, trees_of, target_of, action_of};
ghost use Rattle.pieces.specs.Resolved.Core as core;
ghost use Rattle.pieces.specs.Resolved.Core.{row, argument_row};
ghost use Rattle.pieces.specs.Resolved.CoreView.{core_of, core_target_of, core_argument_of, core_action_of};
ghost use Rattle.c_elaborate.specs.Names as known;
ghost use Rattle.c_elaborate.specs.Expressions.{elaborated, target_elaborated, all_elaborated, arguments_elaborated, argument_elaborated, action_elaborated, choice_of};
ghost use Rattle.c_elaborate.specs.Expressions as spec;
ghost use Rattle.c_elaborate.specs.Chains.{is_innermost};

use crate::chains::{Step, assign, joined};
use crate::functions::{Signature, function_named};
use crate::kinds::kind_of;
use crate::names::{Scopes, object_named};
use c_tree::action::Action;
use c_tree::expression::{Expr, Target};
use c_value::kind::common;
use hls_base::place::Place;
use hls_base::text::Text;
use pieces::resolved::expression::{Argument, CoreExpr, CoreTarget};
use pieces::resolved::statement::CoreAction;
use std::alloc::{AllocError, Global};

/// An expression. Operators of one chain are gone through in a loop, so that the depth of the recursion is bounded by how deep the source nests.
#[cycle(expression)]
pub fn expression(
    alloc: Global,
    functions: &[Signature],
    names: &Scopes,
    e: &Expr,
) -> Result<CoreExpr, AllocError>
    ensures { IfOk result (λ it. core_of it ≡ elaborated functions.now names.now (tree_of e.now)) }
{
    let mut steps = Vec::new(alloc);
    let mut part = e;
    'chain: loop {
        match part {
            Expr::Unary { op, arg, at } => {
                steps.push(Step::Unary { op: *op, at: *at })?;
                part = arg;
            }
            Expr::Cast { to, arg, .. } => {
                steps.push(Step::Cast { to: *to })?;
                part = arg;
            }
            Expr::Binary {
                op,
                left,
                right,
                at,
            } => {
                let right = expression(alloc, functions, names, right)?;
                steps.push(Step::Binary {
                    op: *op,
                    right,
                    at: *at,
                })?;
                part = left;
            }
            Expr::Assign {
                target,
                op,
                value,
                at,
            } => {
                let target = assigned(alloc, functions, names, target)?;
                steps.push(Step::Assign {
                    target,
                    op: *op,
                    at: *at,
                })?;
                part = value;
            }
            Expr::Comma { left, right, .. } => {
                let right = expression(alloc, functions, names, right)?;
                steps.push(Step::Comma { right })?;
                part = left;
            }
            _ => return joined(alloc, innermost(alloc, functions, names, part)?, steps),
        }
    }
}

/// The part of a chain that none of its operators is at the top of.
#[inline(never)]
#[cycle(expression)]
fn innermost(
    alloc: Global,
    functions: &[Signature],
    names: &Scopes,
    e: &Expr,
) -> Result<CoreExpr, AllocError>
    requires { is_innermost (tree_of e.now) ≡ true }
    ensures { IfOk result (λ it. core_of it ≡ elaborated functions.now names.now (tree_of e.now)) }
{
    match e {
        Expr::Number { value, kind, .. } => Ok(CoreExpr::Number {
            value: *value,
            kind: *kind,
        }),
        Expr::Name { name, at } => scalar(names, name, *at),
        Expr::Index {
            array,
            subscripts,
            at,
        } => element(alloc, functions, names, array, subscripts, *at),
        Expr::Call { callee, args, at } => call(alloc, functions, names, callee, args, *at),
        Expr::Choice {
            test,
            yes,
            no,
            at,
            colon,
        } => {
            let test = expression(alloc, functions, names, test)?;
            let yes = expression(alloc, functions, names, yes)?;
            let no = expression(alloc, functions, names, no)?;
            choice(alloc, test, yes, no, *at, *colon)
        }
        Expr::Bump {
            target,
            up,
            post,
            at,
        } => {
            let target = assigned(alloc, functions, names, target)?;
            Ok(CoreExpr::Bump {
                target,
                up: *up,
                post: *post,
                at: *at,
            })
        }
        Expr::Binary { .. }
        | Expr::Comma { .. }
        | Expr::Assign { .. }
        | Expr::Unary { .. }
        | Expr::Cast { .. } => unreachable!(),
    }
}

/// A scalar that is read.
fn scalar(names: &Scopes, name: &Text, at: Place) -> Result<CoreExpr, AllocError>
    ensures { IfOk result (λ it. core_of it ≡ spec.scalar_of (known.object_named names.now name.now) at) }
{
    let object = object_named(names, name);
    Ok(CoreExpr::Scalar {
        cell: object.cell,
        kind: object.kind,
        at,
    })
}

/// An element that is read.
#[inline(never)]
#[cycle(expression)]
fn element(
    alloc: Global,
    functions: &[Signature],
    names: &Scopes,
    array: &Text,
    subscripts: &[Expr],
    at: Place,
) -> Result<CoreExpr, AllocError>
    ensures { IfOk result (λ it. core_of it ≡ elaborated functions.now names.now (tree.index array.now (trees_of subscripts.now) at)) }
{
    let object = object_named(names, array);
    let subscripts = all(alloc, functions, names, subscripts)?;
    Ok(CoreExpr::Element {
        array: object.cell,
        subscripts,
        kind: object.kind,
        at,
    })
}

#[inline(never)]
#[cycle(expression)]
fn call(
    alloc: Global,
    functions: &[Signature],
    names: &Scopes,
    callee: &Text,
    args: &[Expr],
    at: Place,
) -> Result<CoreExpr, AllocError>
    ensures { IfOk result (λ it. core_of it ≡ elaborated functions.now names.now (tree.call callee.now (trees_of args.now) at)) }
{
    let called = function_named(functions, callee)?;
    let args = arguments(alloc, functions, names, args)?;
    Ok(CoreExpr::Call {
        function: called.number,
        args,
        kind: called.result,
        at,
    })
}

fn choice(
    alloc: Global,
    test: CoreExpr,
    yes: CoreExpr,
    no: CoreExpr,
    at: Place,
    colon: Place,
) -> Result<CoreExpr, AllocError>
    ensures { IfOk result (λ it. core_of it ≡ choice_of (core_of test) (core_of yes) (core_of no) at colon) }
{
    let kind = common(kind_of(&yes), kind_of(&no));
    let test = Box::new(alloc, test)?;
    let yes = Box::new(alloc, yes)?;
    let no = Box::new(alloc, no)?;
    Ok(CoreExpr::Choice {
        test,
        yes,
        no,
        kind,
        at,
        colon,
    })
}

/// What is assigned.
#[inline(never)]
#[cycle(expression)]
pub fn assigned(
    alloc: Global,
    functions: &[Signature],
    names: &Scopes,
    target: &Target,
) -> Result<CoreTarget, AllocError>
    ensures { IfOk result (λ it. core_target_of it ≡ target_elaborated functions.now names.now (target_of target.now)) }
{
    let object = object_named(names, &target.name);
    let subscripts = all(alloc, functions, names, &target.subscripts)?;
    Ok(CoreTarget {
        cell: object.cell,
        subscripts,
        kind: object.kind,
        at: target.at,
    })
}

#[inline(never)]
#[cycle(expression)]
fn all(
    alloc: Global,
    functions: &[Signature],
    names: &Scopes,
    es: &[Expr],
) -> Result<Vec<CoreExpr>, AllocError>
    ensures { IfOk result (λ list. row (map core_of list.items) ≡ all_elaborated functions.now names.now (trees_of es.now)) }
{
    let mut list = Vec::new(alloc);
    for e in es {
        list.push(expression(alloc, functions, names, e)?)?;
    }
    Ok(list)
}

#[inline(never)]
#[cycle(expression)]
fn arguments(
    alloc: Global,
    functions: &[Signature],
    names: &Scopes,
    args: &[Expr],
) -> Result<Vec<Argument>, AllocError>
    ensures { IfOk result (λ list. argument_row (map core_argument_of list.items) ≡ arguments_elaborated functions.now names.now (trees_of args.now)) }
{
    let mut list = Vec::new(alloc);
    for arg in args {
        list.push(argument(alloc, functions, names, arg)?)?;
    }
    Ok(list)
}

/// The name of an array stands for the array.
#[cycle(expression)]
fn argument(
    alloc: Global,
    functions: &[Signature],
    names: &Scopes,
    arg: &Expr,
) -> Result<Argument, AllocError>
    ensures { IfOk result (λ it. core_argument_of it ≡ argument_elaborated functions.now names.now (tree_of arg.now)) }
{
    if let Expr::Name { name, .. } = arg {
        let object = object_named(names, name);
        if object.is_array {
            return Ok(Argument::Array(object.cell));
        }
    }
    Ok(Argument::Value(expression(alloc, functions, names, arg)?))
}

/// An expression whose value is not used.
fn action(
    alloc: Global,
    functions: &[Signature],
    names: &Scopes,
    action: &Action,
) -> Result<CoreAction, AllocError>
    ensures { IfOk result (λ it. core_action_of it ≡ action_elaborated functions.now names.now (action_of action.now)) }
{
    match action {
        Action::Assign {
            target,
            op,
            value,
            at,
        } => {
            let target = assigned(alloc, functions, names, target)?;
            let value = expression(alloc, functions, names, value)?;
            let change = assign(alloc, target, *op, value, *at)?;
            Ok(CoreAction::Change(change))
        }
        Action::Bump { target, up, at } => {
            let target = assigned(alloc, functions, names, target)?;
            let up = *up;
            Ok(CoreAction::Change(CoreExpr::Bump {
                target,
                up,
                post: false,
                at: *at,
            }))
        }
        Action::Value(value) => {
            let value = expression(alloc, functions, names, value)?;
            Ok(CoreAction::Value(value))
        }
    }
}

pub fn actions(
    alloc: Global,
    functions: &[Signature],
    names: &Scopes,
    actions: &[Action],
) -> Result<Vec<CoreAction>, AllocError>
    ensures { IfOk result (λ list. map core_action_of list.items ≡ map (λ a. action_elaborated functions.now names.now (action_of a)) actions.now) }
{
    let mut list = Vec::new(alloc);
    for a in actions {
        list.push(action(alloc, functions, names, a)?)?;
    }
    Ok(list)
}

pub fn optional(
    alloc: Global,
    functions: &[Signature],
    names: &Scopes,
    e: &Option<Expr>,
) -> Result<Option<CoreExpr>, AllocError>
    ensures { IfOk result (λ it. option_map core_of it ≡ option_map (elaborated functions.now names.now) (option_map tree_of e.now)) }
{
    match e {
        None => Ok(None),
        Some(e) => Ok(Some(expression(alloc, functions, names, e)?)),
    }
}
