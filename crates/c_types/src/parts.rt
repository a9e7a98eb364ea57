//! The faults of the expressions that stand in declarations and statements.
ghost use Rattle.std.specs.Prelude.{◌≡◌, map, true, false, IfOk};
ghost use Rattle.std.specs.Option.{option_map};
ghost use Rattle.c_tree.specs.View.{tree_of, action_of, init_of, inits_of};
ghost use Rattle.c_meaning.specs.Checks.Faults.{least};
ghost use Rattle.c_meaning.specs.Checks.Expressions.{expression_faults, expression_of, actions_faults, optional_faults, lengths_faults, init_faults, inits_faults, optional_init_faults};

use crate::expressions::{changed, expression};
use c_names::conflicts::accesses::Accesses;
use c_names::declarations::faults::lesser;
use c_names::declarations::names::Scopes;
use c_tree::action::Action;
use c_tree::expression::Expr;
use c_tree::object::Init;
use hls_base::refusal::Refusal;
use hls_base::text::Text;
use std::alloc::{AllocError, Global};

/// The least fault of an expression whose value is used.
pub fn value_fault(
    alloc: Global,
    bodies: &[Text],
    names: &Scopes,
    e: &Expr,
) -> Result<Option<Refusal>, AllocError>
    ensures { IfOk result (λ r. r ≡ least (expression_faults true bodies.now names.now (tree_of e.now))) }
{
    let judged = expression(alloc, bodies, names, true, e)?;
    Ok(judged.fault)
}

pub fn optional_fault(
    alloc: Global,
    bodies: &[Text],
    names: &Scopes,
    e: &Option<Expr>,
) -> Result<Option<Refusal>, AllocError>
    ensures { IfOk result (λ r. r ≡ least (optional_faults bodies.now names.now (option_map tree_of e.now))) }
{
    match e {
        None => Ok(None),
        Some(e) => value_fault(alloc, bodies, names, e),
    }
}

/// The least fault of an action, which is an expression whose value is not used.
#[tactic(auto, using(c_names::proofs::DeclarationsLemmas::Least::least_append))]
fn action_fault(
    alloc: Global,
    bodies: &[Text],
    names: &Scopes,
    action: &Action,
) -> Result<Option<Refusal>, AllocError>
    ensures { IfOk result (λ r. r ≡ least (expression_faults false bodies.now names.now (expression_of (action_of action.now)))) }
{
    match action {
        Action::Assign {
            target,
            value,
            at,
            ..
        } => {
            let value = expression(alloc, bodies, names, true, value)?;
            let target = changed(alloc, bodies, names, target, *at, &value.accesses)?;
            Ok(lesser(target.fault, value.fault))
        }
        Action::Bump { target, at, .. } => {
            let target = changed(alloc, bodies, names, target, *at, &Accesses::new(alloc))?;
            Ok(target.fault)
        }
        Action::Value(value) => {
            let value = expression(alloc, bodies, names, false, value)?;
            Ok(value.fault)
        }
    }
}

pub fn actions_fault(
    alloc: Global,
    bodies: &[Text],
    names: &Scopes,
    actions: &[Action],
) -> Result<Option<Refusal>, AllocError>
    ensures { IfOk result (λ r. r ≡ least (actions_faults bodies.now names.now (map action_of actions.now))) }
{
    let mut worst = None;
    for action in actions {
        worst = lesser(worst, action_fault(alloc, bodies, names, action)?);
    }
    Ok(worst)
}

/// The least fault of the expressions of lengths.
pub fn lengths_fault(
    alloc: Global,
    bodies: &[Text],
    names: &Scopes,
    lengths: &[Option<Expr>],
) -> Result<Option<Refusal>, AllocError>
    ensures { IfOk result (λ r. r ≡ least (lengths_faults bodies.now names.now (map (option_map tree_of) lengths.now))) }
{
    let mut worst = None;
    for length in lengths {
        worst = lesser(worst, optional_fault(alloc, bodies, names, length)?);
    }
    Ok(worst)
}

/// The least fault of the expressions of an initialiser.
#[cycle(inits)]
#[tactic(auto, using(crate::proofs::ExpressionFaults::single_faults, crate::proofs::ExpressionFaults::list_faults))]
fn init_fault(
    alloc: Global,
    bodies: &[Text],
    names: &Scopes,
    init: &Init,
) -> Result<Option<Refusal>, AllocError>
    ensures { IfOk result (λ r. r ≡ least (init_faults bodies.now names.now (init_of init.now))) }
{
    match init {
        Init::Single(value) => {
            let fault = value_fault(alloc, bodies, names, value)?;
            Ok(fault)
        }
        Init::List(items, _) => {
            let fault = inits_fault(alloc, bodies, names, items)?;
            Ok(fault)
        }
    }
}

#[cycle(inits)]
fn inits_fault(
    alloc: Global,
    bodies: &[Text],
    names: &Scopes,
    items: &[Init],
) -> Result<Option<Refusal>, AllocError>
    ensures { IfOk result (λ r. r ≡ least (inits_faults bodies.now names.now (inits_of items.now))) }
{
    let mut worst = None;
    for item in items {
        worst = lesser(worst, init_fault(alloc, bodies, names, item)?);
    }
    Ok(worst)
}

pub fn optional_init_fault(
    alloc: Global,
    bodies: &[Text],
    names: &Scopes,
    init: &Option<Init>,
) -> Result<Option<Refusal>, AllocError>
    ensures { IfOk result (λ r. r ≡ least (optional_init_faults bodies.now names.now (option_map init_of init.now))) }
{
    match init {
        None => Ok(None),
        Some(init) => init_fault(alloc, bodies, names, init),
    }
}
