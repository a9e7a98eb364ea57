//! The faults of functions.
ghost use Rattle.std.specs.Prelude.{◌≡◌, map, is_some, length, OnOk, IfOk};
ghost use Rattle.c_tree.specs.View.{param_of, function_of, body_of};
ghost use Rattle.c_meaning.specs.Checks.Faults.{least};
ghost use Rattle.c_meaning.specs.Checks.Names.{sense_of};
ghost use Rattle.c_meaning.specs.Checks.Calls.{with_function, declaration_faults, param_shapes};
ghost use Rattle.c_meaning.specs.Checks.Calls as calls;
ghost use Rattle.c_meaning.specs.Checks.Labels as labels;
ghost use Rattle.c_meaning.specs.Checks.Statements.{with_param, with_params, function_faults};
ghost use Rattle.c_meaning.specs.Checks.Statements as spec;
ghost use Rattle.c_names.specs.Declarations.Extended.{Extends};

use crate::calls::{same_result, same_shapes};
use crate::parts::lengths_fault;
use crate::statements::block;
use c_names::declarations::arrays::{function_arrays, limit_fault, param_places};
use c_names::declarations::faults::{fault_if, lesser};
use c_names::declarations::lengths::{form_of, shapes_of};
use c_names::declarations::names::{Declared, Scopes, Sense, Shape, is_in};
use c_names::labels::Around;
use c_token::ctype::CType;
use c_tree::function::{Function, Param};
use c_tree::statement::Stmt;
use hls_base::refusal::Refusal;
use hls_base::text::Text;
use std::alloc::{AllocError, Global};

/// Whether what the name of the function stands for is another type.
fn disagrees(names: &Scopes, f: &Function, params: &[Shape]) -> bool
    requires { params.now ≡ param_shapes (map param_of f.now.params.items) }
    ensures { result ≡ calls.disagrees (function_of f.now) (sense_of f.now.name names.now) }
{
    match names.find(&f.name) {
        None => false,
        Some(Sense::Object(_)) => true,
        Some(
            Sense::Function {
                result: gives,
                params: first,
            },
        ) => !(same_result(*gives, f.result) && same_shapes(first, params)),
    }
}

/// The fault of a declaration of a function after the first, or of a second body, and its declaration. `before` names the functions whose bodies stand before.
pub fn declaration_fault(
    alloc: Global,
    before: &[Text],
    names: &mut Scopes,
    f: &Function,
) -> Result<Option<Refusal>, AllocError>
    ensures fault { IfOk result (λ r. r ≡ least (declaration_faults before.now names.old (function_of f.now))) }
    ensures names { OnOk result (names.new ≡ with_function (function_of f.now) names.old) }
{
    let params = shapes_of(alloc, &f.params)?;
    let other = disagrees(names, f, &params);
    let again = f.body.is_some() && is_in(&f.name, before);
    if names.find(&f.name).is_none() {
        let name = f.name.copy(alloc)?;
        let result = f.result;
        names.declare(
            alloc,
            Declared {
                name,
                sense: Sense::Function { result, params },
            },
        )?;
    }
    Ok(fault_if(other || again, 8, f.at))
}

/// The fault of a parameter by its name, in a scope that began with so many names.
fn name_fault(has_body: bool, start: usize, names: &Scopes, param: &Param) -> Option<Refusal>
    ensures { result ≡ least (spec.param_name_faults has_body start names.now (param_of param.now)) }
{
    if param.named {
        let again = names.is_declared_since(start, &param.object.name);
        fault_if(again, 8, param.object.at)
    } else {
        fault_if(has_body, 9, param.object.at)
    }
}

/// The least fault of a parameter, and its declaration.
#[tactic(auto, using(c_names::proofs::DeclarationsLemmas::Least::least_append))]
fn param_fault(
    alloc: Global,
    bodies: &[Text],
    has_body: bool,
    start: usize,
    names: &mut Scopes,
    param: &Param,
) -> Result<Option<Refusal>, AllocError>
    ensures fault { IfOk result (λ r. r ≡ least (spec.param_faults bodies.now has_body start names.old (param_of param.now))) }
    ensures names { OnOk result (names.new ≡ with_param (param_of param.now) names.old) }
{
    let named = name_fault(has_body, start, names, param);
    let form = form_of(alloc, false, &param.object)?;
    let lengths = lengths_fault(alloc, bodies, names, &param.object.lengths)?;
    let fault = lesser(named, lesser(form.fault, lengths));
    if param.named {
        let name = param.object.name.copy(alloc)?;
        let sense = Sense::Object(form.shape);
        names.declare(alloc, Declared { name, sense })?;
    }
    Ok(fault)
}

fn params_fault(
    alloc: Global,
    bodies: &[Text],
    has_body: bool,
    start: usize,
    names: &mut Scopes,
    params: &[Param],
) -> Result<Option<Refusal>, AllocError>
    ensures fault { IfOk result (λ r. r ≡ least (spec.params_faults bodies.now has_body start names.old (map param_of params.now))) }
    ensures names { OnOk result (names.new ≡ with_params (map param_of params.now) names.old) }
{
    let mut worst = None;
    for param in params {
        let here = param_fault(alloc, bodies, has_body, start, names, param)?;
        worst = lesser(worst, here);
    }
    Ok(worst)
}

/// The least fault of a body, in the scope of its parameters.
fn body_fault(
    alloc: Global,
    bodies: &[Text],
    returns: Option<CType>,
    start: usize,
    names: &mut Scopes,
    body: &Option<Vec<Stmt>>,
) -> Result<Option<Refusal>, AllocError>
    ensures fault { IfOk result (λ r. r ≡ least (spec.body_faults bodies.now returns start names.old (body_of body.now))) }
    ensures names { OnOk result (Extends names.old names.new) }
{
    match body {
        None => Ok(None),
        Some(body) => {
            let around = Around::in_function(returns);
            let fault = block(alloc, bodies, around, start, names, body)?;
            Ok(fault)
        }
    }
}

/// The least fault of a function besides its declaration. `bodies` names the functions with a body.
#[tactic(auto, using(c_names::proofs::DeclarationsLemmas::Least::least_append))]
pub fn function_fault(
    alloc: Global,
    bodies: &[Text],
    names: &mut Scopes,
    f: &Function,
) -> Result<Option<Refusal>, AllocError>
    ensures fault { IfOk result (λ r. r ≡ least (function_faults bodies.now names.old (function_of f.now))) }
    ensures names { OnOk result (names.new ≡ names.old) }
{
    let start = names.len();
    let places = param_places(alloc, &f.params)?;
    let many = limit_fault(32, 34, &places);
    let arrays = function_arrays(alloc, f)?;
    let wide = limit_fault(32, 35, &arrays);
    let has_body = f.body.is_some();
    let params = params_fault(alloc, bodies, has_body, start, names, &f.params)?;
    let body = body_fault(alloc, bodies, f.result, start, names, &f.body)?;
    names.forget(start);
    Ok(lesser(many, lesser(wide, lesser(params, body))))
}
