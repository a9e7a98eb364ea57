//! The check of a program.
ghost use Rattle.std.specs.Prelude.{◌≡◌, ◌≤◌, ◌<◌, ◌^◌, ◌++◌, [], map, false, length, slice_get, Some, OnOk, IfOk, MatchOption};
ghost use Rattle.hls_base.specs.Refusals.{IfRefused};
ghost use Rattle.c_tree.specs.View.{item_of, program_of};
ghost use Rattle.c_token.specs.Replacement as tokens;
ghost use Rattle.c_meaning.specs.Checks.Faults.{least, IsLeast};
ghost use Rattle.c_meaning.specs.Checks.Programs.{program_faults, top_name, items_faults, item_faults, with_item, with_body, body_name_of};
ghost use Rattle.c_meaning.specs.Checks.Programs as spec;

use crate::functions::{declaration_fault, function_fault};
use crate::statements::objects_fault;
use c_calls::called::callers_of;
use c_calls::recursion::recursion_fault;
use c_meaning::checks::Checked;
use c_names::declarations::arrays::{file_arrays, function_places, kept_fault, limit_fault};
use c_names::declarations::faults::{fault_if, lesser};
use c_names::declarations::names::{Scopes, is_in, is_same_name};
use c_tree::program::{Item, Program};
use hls_base::refusal::{Fail, Refusal};
use hls_base::text::Text;
use std::alloc::{AllocError, Global};

/// The names of the functions that have a body, in order.
fn body_names(alloc: Global, items: &[Item]) -> Result<Vec<Text>, AllocError>
    ensures { IfOk result (λ v. v.items ≡ spec.body_names (map item_of items.now)) }
{
    let mut names = Vec::new(alloc);
    for item in items {
        if let Item::Function(f) = item
            && f.body.is_some()
        {
            names.push(f.name.copy(alloc)?)?;
        }
    }
    Ok(names)
}

/// The least fault of an item, and what it declares. `before` names the functions whose bodies stand before.
#[tactic(auto, using(c_names::proofs::DeclarationsLemmas::Least::least_append))]
fn item_fault(
    alloc: Global,
    bodies: &[Text],
    before: &mut Vec<Text>,
    names: &mut Scopes,
    item: &Item,
) -> Result<Option<Refusal>, AllocError>
    ensures fault { IfOk result (λ r. r ≡ least (item_faults bodies.now before.old.items names.old (item_of item.now))) }
    ensures before { OnOk result (before.new.items ≡ with_body (item_of item.now) before.old.items) }
    ensures names { OnOk result (names.new ≡ with_item (item_of item.now) names.old) }
{
    match item {
        Item::Objects(objects) => {
            let fault = objects_fault(alloc, bodies, true, 0, names, objects)?;
            Ok(fault)
        }
        Item::Function(f) => {
            let declared = declaration_fault(alloc, before, names, f)?;
            let inside = function_fault(alloc, bodies, names, f)?;
            if f.body.is_some() {
                before.push(f.name.copy(alloc)?)?;
            }
            Ok(lesser(declared, inside))
        }
    }
}

fn items_fault(
    alloc: Global,
    bodies: &[Text],
    items: &[Item],
) -> Result<Option<Refusal>, AllocError>
    ensures { IfOk result (λ r. r ≡ least (items_faults bodies.now [] [] (map item_of items.now))) }
{
    let mut before = Vec::new(alloc);
    let mut names = Scopes::new(alloc);
    let mut worst = None;
    for item in items {
        let here = item_fault(alloc, bodies, &mut before, &mut names, item)?;
        worst = lesser(worst, here);
    }
    Ok(worst)
}

/// The least fault of a program whose top function has this name.
#[tactic(auto, using(c_names::proofs::DeclarationsLemmas::Least::least_append))]
fn least_fault(alloc: Global, program: &Program, top: &Text) -> Result<Option<Refusal>, AllocError>
    ensures { IfOk result (λ r. r ≡ least (program_faults (program_of program.now) top.now)) }
{
    let items = program.items.as_slice();
    let bodies = body_names(alloc, items)?;
    let inside = items_fault(alloc, &bodies, items)?;
    let callers = callers_of(alloc, items)?;
    let round = recursion_fault(alloc, &callers)?;
    let functions = function_places(alloc, items)?;
    let many = limit_fault(64, 33, &functions);
    let arrays = file_arrays(alloc, items)?;
    let wide = limit_fault(32, 35, &arrays);
    let kept = kept_fault(alloc, items)?;
    let absent = fault_if(!is_in(top, &bodies), 19, program.end);
    let limits = lesser(many, lesser(wide, lesser(kept, absent)));
    Ok(lesser(inside, lesser(round, limits)))
}

/// Whether the item is a function with a body and this name.
fn is_body_of(item: &Item, name: &Text) -> bool
    ensures { result ≡ spec.is_body_of name.now (item_of item.now) }
{
    match item {
        Item::Objects(_) => false,
        Item::Function(f) => f.body.is_some() && is_same_name(name, &f.name),
    }
}

/// The index of the function with a body that has this name, or the number of items.
fn body_index(items: &[Item], name: &Text) -> usize
    ensures found { result < length items.now → body_name_of (slice_get (map item_of items.now) result) ≡ Some name.now }
    ensures absent { length items.now ≤ result → tokens.is_in name.now (spec.body_names (map item_of items.now)) ≡ false }
{
    for (i, item) in items.iter().enumerate() {
        if is_body_of(item, name) {
            return i;
        }
    }
    items.len()
}

/// Checks a program whose top function is to have this name.
///
/// # Errors
///
/// The least fault by place, and at one place by rule.
pub fn check(alloc: Global, program: Program, top: &Text) -> Result<Checked, Fail>
    requires { length program.items.items < 2 ^ 32 }
    ensures program { IfOk result (λ c. c.program ≡ program) }
    ensures top { IfOk result (λ c. top_name (program_of program) c.top ≡ Some top.now) }
    ensures accepted { OnOk result (program_faults (program_of program) top.now ≡ []) }
    ensures refused { IfRefused result (λ r. IsLeast (program_faults (program_of program) top.now) r) }
{
    if let Some(fault) = least_fault(alloc, &program, top)? {
        return Err(Fail::Refused(fault));
    }
    let top = body_index(&program.items, top);
    Ok(Checked {
        program,
        top: top as u32,
    })
}
