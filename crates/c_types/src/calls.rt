//! Calls, and the types of functions.
ghost use Rattle.std.specs.Prelude.{◌≡◌};
ghost use Rattle.c_token.specs.Replacement as tokens;
ghost use Rattle.c_tree.specs.View.{tree_of, trees_of};
ghost use Rattle.c_meaning.specs.Checks.Faults.{least};
ghost use Rattle.c_meaning.specs.Checks.Names.{sense_of};
ghost use Rattle.c_meaning.specs.Checks.Names as shapes;
ghost use Rattle.c_meaning.specs.Checks.Calls.{call_faults, same_elements, void_faults};
ghost use Rattle.c_meaning.specs.Checks.Expressions.{name_given_faults};
ghost use Rattle.c_meaning.specs.Checks.Calls as spec;

use c_names::declarations::faults::{fault, fault_if, lesser};
use c_names::declarations::names::{Scopes, Sense, Shape, is_in};
use c_token::ctype::CType;
use c_tree::expression::Expr;
use hls_base::place::Place;
use hls_base::refusal::Refusal;
use hls_base::text::Text;

pub fn is_array(shape: &Shape) -> bool
    ensures { result ≡ shapes.is_array shape.now }
{
    shape.lengths.len() != 0
}

fn same_type(kind: CType, other: CType) -> bool
    ensures { result ≡ tokens.same_type kind other }
{
    match (kind, other) {
        (CType::Bool, CType::Bool) => true,
        (
            CType::Int { signed, bits },
            CType::Int {
                signed: other,
                bits: others,
            },
        ) => signed == other && bits == others,
        _ => false,
    }
}

fn same_length(n: Option<u32>, m: Option<u32>) -> bool
    ensures { result ≡ spec.same_length n m }
{
    match (n, m) {
        (Some(n), Some(m)) => n == m,
        _ => false,
    }
}

fn same_lengths(ns: &[Option<u32>], ms: &[Option<u32>]) -> bool
    ensures { result ≡ spec.same_lengths ns.now ms.now }
{
    if ns.len() != ms.len() {
        return false;
    }
    for i in 0..ns.len() {
        if !same_length(ns[i], ms[i]) {
            return false;
        }
    }
    true
}

/// Whether parameters are of one type. That a scalar is const is no part of the function's type.
fn same_shape(s: &Shape, t: &Shape) -> bool
    ensures { result ≡ spec.same_shape s.now t.now }
{
    same_type(s.kind, t.kind)
        && same_lengths(&s.lengths, &t.lengths)
        && (!is_array(s) || s.constant == t.constant)
}

pub fn same_shapes(ss: &[Shape], ts: &[Shape]) -> bool
    ensures { result ≡ spec.same_shapes ss.now ts.now }
{
    if ss.len() != ts.len() {
        return false;
    }
    for i in 0..ss.len() {
        if !same_shape(&ss[i], &ts[i]) {
            return false;
        }
    }
    true
}

pub fn same_result(kind: Option<CType>, other: Option<CType>) -> bool
    ensures { result ≡ spec.same_result kind other }
{
    match (kind, other) {
        (None, None) => true,
        (Some(kind), Some(other)) => same_type(kind, other),
        _ => false,
    }
}

/// Whether the name is an array whose elements the parameter can stand for.
fn has_same_elements(names: &Scopes, param: &Shape, name: &Text) -> bool
    ensures { result ≡ same_elements param.now (sense_of name.now names.now) }
{
    match names.find(name) {
        Some(Sense::Object(shape)) => {
            is_array(shape)
                && same_type(param.kind, shape.kind)
                && same_lengths(&param.lengths, &shape.lengths)
                && (!shape.constant || param.constant)
        }
        _ => false,
    }
}

/// Whether the argument fits the parameter, if that is an array.
fn fits(names: &Scopes, param: &Shape, arg: &Expr) -> bool
    ensures { result ≡ spec.fits names.now param.now (tree_of arg.now) }
{
    if !is_array(param) {
        return true;
    }
    match arg {
        Expr::Name { name, .. } => has_same_elements(names, param, name),
        _ => false,
    }
}

fn all_fit(names: &Scopes, params: &[Shape], args: &[Expr]) -> bool
    ensures { result ≡ spec.all_fit names.now params.now (trees_of args.now) }
{
    for (i, arg) in args.iter().enumerate() {
        if i >= params.len() {
            return true;
        }
        if !fits(names, &params[i], arg) {
            return false;
        }
    }
    true
}

/// How many subscripts or arguments there are.
#[tactic(auto, using(crate::proofs::Counts::count_trees))]
pub fn count(es: &[Expr]) -> usize
    ensures { result ≡ shapes.count (trees_of es.now) }
{
    es.len()
}

/// The least fault of a call besides those inside its arguments.
#[tactic(auto, using(c_names::proofs::DeclarationsLemmas::Least::least_append))]
pub fn call_fault(
    bodies: &[Text],
    names: &Scopes,
    callee: &Text,
    args: &[Expr],
    at: Place,
) -> Option<Refusal>
    ensures { result ≡ least (call_faults bodies.now names.now callee.now (trees_of args.now) at) }
{
    match names.find(callee) {
        None => fault(7, at),
        Some(Sense::Object(_)) => fault(9, at),
        Some(Sense::Function { params, .. }) => {
            let undefined = fault_if(!is_in(callee, bodies), 7, at);
            let miscounted = fault_if(params.len() != count(args), 10, at);
            let misfit = fault_if(!all_fit(names, params, args), 11, at);
            lesser(undefined, lesser(miscounted, misfit))
        }
    }
}

/// The fault of a call as a value, where it gives none.
pub fn void_fault(names: &Scopes, callee: &Text, at: Place) -> Option<Refusal>
    ensures { result ≡ least (void_faults names.now callee.now at) }
{
    let is_void = match names.find(callee) {
        Some(Sense::Function { result: gives, .. }) => gives.is_none(),
        _ => false,
    };
    fault_if(is_void, 9, at)
}

/// The parameters of the function that has this name.
pub fn params_of<'a>(names: &'a Scopes, callee: &Text) -> &'a [Shape]
    ensures { result.now ≡ spec.params_of (sense_of callee.now names.now) }
{
    match names.find(callee) {
        Some(Sense::Function { params, .. }) => params.as_slice(),
        _ => &[],
    }
}

/// The fault of a name that is given for an array.
fn given_fault(names: &Scopes, name: &Text, at: Place) -> Option<Refusal>
    ensures { result ≡ least (spec.given_faults (sense_of name.now names.now) at) }
{
    match names.find(name) {
        None => fault(7, at),
        Some(Sense::Function { .. }) => fault(9, at),
        Some(Sense::Object(_)) => None,
    }
}

pub fn name_given_fault(names: &Scopes, e: &Expr) -> Option<Refusal>
    ensures { result ≡ least (name_given_faults names.now (tree_of e.now)) }
{
    match e {
        Expr::Name { name, at } => given_fault(names, name, *at),
        _ => None,
    }
}
