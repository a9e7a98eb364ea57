//! The faults of expressions.
ghost use Rattle.std.specs.Prelude.{◌≡◌, ◌++◌, [], drop, IfOk, true, if◌then◌else◌};
ghost use Rattle.c_tree.specs.View.{tree_of, trees_of, target_of};
ghost use Rattle.c_meaning.specs.Checks.Faults.{least};
ghost use Rattle.c_meaning.specs.Checks.Conflicts as conflicts;
ghost use Rattle.c_meaning.specs.Checks.Conflicts.{accesses, all_accesses, target_accesses, conflicts_among, conflicts_inside};
ghost use Rattle.c_meaning.specs.Checks.Names.{sense_of, use_faults, target_faults};
ghost use Rattle.c_meaning.specs.Checks.Names.{count as spec_count};
ghost use Rattle.c_meaning.specs.Checks.Expressions.{expression_faults, changed_faults, operand_faults};
ghost use Rattle.c_meaning.specs.Checks.Expressions as spec;
ghost use Rattle.c_types.specs.Chains.{is_innermost};
ghost use Rattle.c_tree.specs.Tree as tree;

use crate::calls::{call_fault, count, is_array, name_given_fault, params_of, void_fault};
use crate::steps::{Changed, Judged, Step, assigned, chosen, joined};
use c_names::conflicts::accesses::{Accesses, change_of, read_of};
use c_names::conflicts::conflicts::{between, conflict_inside};
use c_names::declarations::faults::lesser;
use c_names::declarations::names::{Scopes, Shape, target_fault, use_fault};
use c_tree::expression::{Expr, Target};
use hls_base::place::Place;
use hls_base::refusal::Refusal;
use hls_base::text::Text;
use std::alloc::{AllocError, Global};

/// What was found of subscripts or arguments: the least fault inside them, the least conflict between them, and all their accesses.
#[derive(Drop)]
struct Operands {
    fault: Option<Refusal>,
    conflict: Option<Refusal>,
    accesses: Accesses,
}

/// The least fault of an expression, and its accesses. `bodies` names the functions with a body. A value that is not used may be a call without a result.
///
/// Operators of one chain are gone through in a loop, so that the depth of the recursion is bounded by how deep the source nests.
#[cycle(expression)]
#[tactic(auto, using(crate::proofs::ExpressionFaults::choice_faults, crate::proofs::ExpressionFaults::choice_accesses))]
pub fn expression(
    alloc: Global,
    bodies: &[Text],
    names: &Scopes,
    mut used: bool,
    e: &Expr,
) -> Result<Judged, AllocError>
    ensures fault { IfOk result (λ j. j.fault ≡ least (expression_faults used bodies.now names.now (tree_of e.now))) }
    ensures accesses { IfOk result (λ j. j.accesses ≡ accesses names.now (tree_of e.now)) }
{
    let mut steps = Vec::new(alloc);
    let mut part = e;
    'chain: loop {
        match part {
            Expr::Binary {
                op,
                left,
                right,
                ..
            } => {
                let right = expression(alloc, bodies, names, true, right)?;
                steps.push(Step::Binary { op: *op, right })?;
                used = true;
                part = left;
            }
            Expr::Comma { left, right, .. } => {
                let right = expression(alloc, bodies, names, true, right)?;
                steps.push(Step::Comma { right })?;
                used = false;
                part = left;
            }
            Expr::Assign {
                target,
                value,
                at,
                ..
            } => {
                let target = change(alloc, bodies, names, target, *at)?;
                steps.push(Step::Assign(target))?;
                used = true;
                part = value;
            }
            Expr::Unary { arg, .. } | Expr::Cast { arg, .. } => {
                used = true;
                part = arg;
            }
            _ => return joined(alloc, innermost(alloc, bodies, names, used, part)?, steps),
        }
    }
}

/// The part of a chain that none of its operators is at the top of.
#[inline(never)]
#[cycle(expression)]
#[tactic(auto, using(crate::proofs::ExpressionFaults::choice_faults, crate::proofs::ExpressionFaults::choice_accesses))]
fn innermost(
    alloc: Global,
    bodies: &[Text],
    names: &Scopes,
    used: bool,
    e: &Expr,
) -> Result<Judged, AllocError>
    requires { is_innermost (tree_of e.now) ≡ true }
    ensures fault { IfOk result (λ j. j.fault ≡ least (expression_faults used bodies.now names.now (tree_of e.now))) }
    ensures accesses { IfOk result (λ j. j.accesses ≡ accesses names.now (tree_of e.now)) }
{
    match e {
        Expr::Number { .. } => Ok(number(alloc)),
        Expr::Name { name, at } => named(alloc, names, name, *at),
        Expr::Index {
            array,
            subscripts,
            at,
        } => element(alloc, bodies, names, array, subscripts, *at),
        Expr::Call { callee, args, at } => call(alloc, bodies, names, used, callee, args, *at),
        Expr::Choice { test, yes, no, .. } => {
            let test = expression(alloc, bodies, names, true, test)?;
            let yes = expression(alloc, bodies, names, true, yes)?;
            let no = expression(alloc, bodies, names, true, no)?;
            chosen(alloc, test, yes, no)
        }
        Expr::Bump { target, at, .. } => changed(
            alloc,
            bodies,
            names,
            target,
            *at,
            &Accesses::new(alloc),
        ),
        Expr::Binary { .. }
        | Expr::Comma { .. }
        | Expr::Assign { .. }
        | Expr::Unary { .. }
        | Expr::Cast { .. } => unreachable!(),
    }
}

fn number(alloc: Global) -> Judged
    ensures fault { result.fault ≡ None }
    ensures accesses { result.accesses ≡ [] }
{
    Judged {
        fault: None,
        accesses: Accesses::new(alloc),
    }
}

/// A name that is read.
#[inline(never)]
fn named(alloc: Global, names: &Scopes, name: &Text, at: Place) -> Result<Judged, AllocError>
    ensures fault { IfOk result (λ j. j.fault ≡ least (use_faults (sense_of name.now names.now) 0 at)) }
    ensures accesses { IfOk result (λ j. j.accesses ≡ conflicts.read_of names.now name.now 0) }
{
    let accesses = read_of(alloc, names, name, 0)?;
    let fault = use_fault(names, name, 0, at);
    Ok(Judged { fault, accesses })
}

/// An element that is read.
#[inline(never)]
#[cycle(expression)]
#[tactic(auto, using(c_names::proofs::DeclarationsLemmas::Least::least_append))]
fn element(
    alloc: Global,
    bodies: &[Text],
    names: &Scopes,
    array: &Text,
    subscripts: &[Expr],
    at: Place,
) -> Result<Judged, AllocError>
    ensures fault { IfOk result (λ j. j.fault ≡ least (expression_faults true bodies.now names.now (tree.index array.now (trees_of subscripts.now) at))) }
    ensures accesses { IfOk result (λ j. j.accesses ≡ accesses names.now (tree.index array.now (trees_of subscripts.now) at)) }
{
    let inner = all_operands(alloc, bodies, names, &[], subscripts)?;
    let number = count(subscripts);
    let own = read_of(alloc, names, array, number)?;
    let used = use_fault(names, array, number, at);
    let inside = conflict_inside(&own, &inner.accesses);
    let fault = lesser(used, lesser(inner.conflict, lesser(inside, inner.fault)));
    let accesses = own.followed_by(alloc, inner.accesses)?;
    Ok(Judged { fault, accesses })
}

#[inline(never)]
#[cycle(expression)]
#[tactic(auto, using(c_names::proofs::DeclarationsLemmas::Least::least_append))]
fn call(
    alloc: Global,
    bodies: &[Text],
    names: &Scopes,
    used: bool,
    callee: &Text,
    args: &[Expr],
    at: Place,
) -> Result<Judged, AllocError>
    ensures fault { IfOk result (λ j. j.fault ≡ least (expression_faults used bodies.now names.now (tree.call callee.now (trees_of args.now) at))) }
    ensures accesses { IfOk result (λ j. j.accesses ≡ accesses names.now (tree.call callee.now (trees_of args.now) at)) }
{
    let inner = all_operands(alloc, bodies, names, params_of(names, callee), args)?;
    let void = if used {
        void_fault(names, callee, at)
    } else {
        None
    };
    let called = call_fault(bodies, names, callee, args, at);
    let fault = lesser(void, lesser(called, lesser(inner.conflict, inner.fault)));
    let accesses = inner.accesses;
    Ok(Judged { fault, accesses })
}

/// A target that is changed by this operator, before its value is known.
#[inline(never)]
#[cycle(expression)]
fn change(
    alloc: Global,
    bodies: &[Text],
    names: &Scopes,
    target: &Target,
    at: Place,
) -> Result<Changed, AllocError>
    ensures used { IfOk result (λ c. c.used ≡ least (target_faults (sense_of target.now.name names.now) (spec_count (trees_of target.now.subscripts.items)) target.now.at)) }
    ensures conflict { IfOk result (λ c. c.conflict ≡ least (conflicts_among names.now [] (trees_of target.now.subscripts.items))) }
    ensures inside { IfOk result (λ c. c.inside ≡ least (conflicts_inside c.own c.subscripts)) }
    ensures fault { IfOk result (λ c. c.fault ≡ least (operand_faults bodies.now names.now [] (trees_of target.now.subscripts.items))) }
    ensures own { IfOk result (λ c. c.own ≡ conflicts.change_of names.now target.now.name (spec_count (trees_of target.now.subscripts.items)) at) }
    ensures subscripts { IfOk result (λ c. c.subscripts ≡ all_accesses names.now (trees_of target.now.subscripts.items)) }
{
    let subscripts = target.subscripts.as_slice();
    let inner = all_operands(alloc, bodies, names, &[], subscripts)?;
    let number = count(subscripts);
    let own = change_of(alloc, names, &target.name, number, at)?;
    let used = target_fault(names, &target.name, number, target.at);
    let inside = conflict_inside(&own, &inner.accesses);
    Ok(Changed {
        used,
        conflict: inner.conflict,
        inside,
        fault: inner.fault,
        own,
        subscripts: inner.accesses,
    })
}

/// A target that is changed by this operator, to a value with these accesses.
#[inline(never)]
#[cycle(expression)]
#[tactic(auto, using(crate::proofs::Chains::changed_by_parts, crate::proofs::Chains::accesses_by_parts))]
pub fn changed(
    alloc: Global,
    bodies: &[Text],
    names: &Scopes,
    target: &Target,
    at: Place,
    valued: &Accesses,
) -> Result<Judged, AllocError>
    ensures fault { IfOk result (λ j. j.fault ≡ least (changed_faults bodies.now names.now (target_of target.now) at valued.now)) }
    ensures accesses { IfOk result (λ j. j.accesses ≡ target_accesses names.now (target_of target.now) at) }
{
    let target = change(alloc, bodies, names, target, at)?;
    let judged = assigned(alloc, target, valued)?;
    Ok(judged)
}

/// Whether the operand is a name that is given for an array, which the parameter is.
fn is_given(params: &[Shape], i: usize, e: &Expr) -> bool
    ensures { result ≡ spec.is_given (drop i params.now) (tree_of e.now) }
{
    if i >= params.len() {
        return false;
    }
    match e {
        Expr::Name { .. } => is_array(&params[i]),
        _ => false,
    }
}

/// The least fault of the operand with this index, which has this one as a value.
fn operand_fault(
    names: &Scopes,
    params: &[Shape],
    i: usize,
    e: &Expr,
    own: Option<Refusal>,
) -> Option<Refusal>
    ensures { result ≡ (if spec.is_given (drop i params.now) (tree_of e.now) then least (spec.name_given_faults names.now (tree_of e.now)) else own) }
{
    if is_given(params, i, e) {
        name_given_fault(names, e)
    } else {
        own
    }
}

/// Subscripts, or the arguments for these parameters.
#[inline(never)]
#[cycle(expression)]
fn all_operands(
    alloc: Global,
    bodies: &[Text],
    names: &Scopes,
    params: &[Shape],
    es: &[Expr],
) -> Result<Operands, AllocError>
    ensures fault { IfOk result (λ o. o.fault ≡ least (operand_faults bodies.now names.now params.now (trees_of es.now))) }
    ensures conflict { IfOk result (λ o. o.conflict ≡ least (conflicts_among names.now [] (trees_of es.now))) }
    ensures accesses { IfOk result (λ o. o.accesses ≡ all_accesses names.now (trees_of es.now)) }
{
    let mut fault = None;
    let mut conflict = None;
    let mut before = Accesses::new(alloc);
    for (i, e) in es.iter().enumerate() {
        let judged = expression(alloc, bodies, names, true, e)?;
        let own = operand_fault(names, params, i, e, judged.fault);
        fault = lesser(fault, own);
        conflict = lesser(conflict, between(&before, &judged.accesses));
        before = before.followed_by(alloc, judged.accesses)?;
    }
    Ok(Operands {
        fault,
        conflict,
        accesses: before,
    })
}
