//! The limits on arrays, parameters and functions.
ghost use Rattle.std.specs.Prelude.{◌≡◌, ◌++◌, ◌≤◌, [], map, min, is_some, List, OnOk, IfOk, if◌then◌else◌};
ghost use Rattle.c_tree.specs.Tree.{ObjectTree};
ghost use Rattle.c_tree.specs.View.{object_of, param_of, stmt_of, stmts_of, function_of, item_of};
ghost use Rattle.c_meaning.specs.Checks.Faults.{least};
ghost use Rattle.c_meaning.specs.Checks.Limits as spec;

use crate::declarations::faults::fault;
use crate::declarations::lengths::{capped_product, form_of};
use crate::declarations::names::is_in;
use c_tree::function::{Function, Param};
use c_tree::object::Object;
use c_tree::program::Item;
use c_tree::statement::{Else, Stmt};
use hls_base::place::Place;
use hls_base::refusal::Refusal;
use hls_base::text::Text;
use std::alloc::{AllocError, Global};

/// The fault of the one of these that has so many before it.
pub fn limit_fault(limit: usize, rule: u8, places: &[Place]) -> Option<Refusal>
    ensures { result ≡ least (spec.limit_faults limit rule places.now) }
{
    if limit < places.len() {
        fault(rule, places[limit])
    } else {
        None
    }
}

/// Adds the place of an object that is an array.
fn add_array(object: &Object, places: &mut Vec<Place>) -> Result<(), AllocError>
    ensures { OnOk result (places.new.items ≡ places.old.items ++ spec.array_place (object_of object.now)) }
{
    if object.lengths.len() != 0 {
        places.push(object.at)?;
    }
    Ok(())
}

fn add_arrays(objects: &[Object], places: &mut Vec<Place>) -> Result<(), AllocError>
    ensures { OnOk result (places.new.items ≡ places.old.items ++ spec.array_places (map object_of objects.now)) }
{
    for object in objects {
        add_array(object, places)?;
    }
    Ok(())
}

fn add_param_arrays(params: &[Param], places: &mut Vec<Place>) -> Result<(), AllocError>
    ensures { OnOk result (places.new.items ≡ places.old.items ++ spec.param_arrays (map param_of params.now)) }
{
    for param in params {
        add_array(&param.object, places)?;
    }
    Ok(())
}

/// Adds the places of the arrays that are declared in a statement.
#[cycle(arrays)]
fn add_statement_arrays(stmt: &Stmt, places: &mut Vec<Place>) -> Result<(), AllocError>
    ensures { OnOk result (places.new.items ≡ places.old.items ++ spec.statement_arrays (stmt_of stmt.now)) }
{
    match stmt {
        Stmt::Block(body) => add_block_arrays(body, places)?,
        Stmt::Declare(objects) => add_arrays(objects, places)?,
        Stmt::If { yes, no, .. } => {
            add_statement_arrays(yes, places)?;
            if let Some(Else { body, .. }) = no {
                add_statement_arrays(body, places)?;
            }
        }
        Stmt::Switch { body, .. } => add_block_arrays(body, places)?,
        Stmt::Case { body, .. } => add_statement_arrays(body, places)?,
        Stmt::While { body, .. } => add_statement_arrays(body, places)?,
        Stmt::Do { body, .. } => add_statement_arrays(body, places)?,
        Stmt::For { init, body, .. } => {
            if let Some(part) = init {
                add_statement_arrays(part, places)?;
            }
            add_statement_arrays(body, places)?;
        }
        Stmt::Act(_) | Stmt::Break(_) | Stmt::Continue(_) | Stmt::Return { .. } => {}
    }
    Ok(())
}

#[cycle(arrays)]
fn add_block_arrays(body: &[Stmt], places: &mut Vec<Place>) -> Result<(), AllocError>
    ensures { OnOk result (places.new.items ≡ places.old.items ++ spec.statements_arrays (stmts_of body.now)) }
{
    for stmt in body {
        add_statement_arrays(stmt, places)?;
    }
    Ok(())
}

/// The places of the arrays of a function, its parameters first.
pub fn function_arrays(alloc: Global, f: &Function) -> Result<Vec<Place>, AllocError>
    ensures { IfOk result (λ v. v.items ≡ spec.function_arrays (function_of f.now)) }
{
    let mut places = Vec::new(alloc);
    add_param_arrays(&f.params, &mut places)?;
    if let Some(body) = &f.body {
        add_block_arrays(body, &mut places)?;
    }
    Ok(places)
}

/// The places of parameters.
pub fn param_places(alloc: Global, params: &[Param]) -> Result<Vec<Place>, AllocError>
    ensures { IfOk result (λ v. v.items ≡ spec.param_places (map param_of params.now)) }
{
    let mut places = Vec::new(alloc);
    for param in params {
        places.push(param.object.at)?;
    }
    Ok(places)
}

/// The places of the arrays at file scope.
pub fn file_arrays(alloc: Global, items: &[Item]) -> Result<Vec<Place>, AllocError>
    ensures { IfOk result (λ v. v.items ≡ spec.file_arrays (map item_of items.now)) }
{
    let mut places = Vec::new(alloc);
    for item in items {
        if let Item::Objects(objects) = item {
            add_arrays(objects, &mut places)?;
        }
    }
    Ok(places)
}

/// Where the names of functions stand first, in order.
pub fn function_places(alloc: Global, items: &[Item]) -> Result<Vec<Place>, AllocError>
    ensures { IfOk result (λ v. v.items ≡ spec.new_function_places [] (map item_of items.now)) }
{
    let mut known: Vec<Text> = Vec::new(alloc);
    let mut places = Vec::new(alloc);
    for item in items {
        if let Item::Function(f) = item
            && !is_in(&f.name, &known)
        {
            known.push(f.name.copy(alloc)?)?;
            places.push(f.at)?;
        }
    }
    Ok(places)
}

/// The words that an object at file scope keeps, up to 131,072.
fn kept_words(alloc: Global, o: &Object) -> Result<u32, AllocError>
    ensures { IfOk result (λ n. n ≡ min (spec.kept_words (object_of o.now)) 131072) }
{
    if o.constant || o.lengths.len() == 0 {
        return Ok(0);
    }
    let form = form_of(alloc, true, o)?;
    Ok(capped_product(&form.shape.lengths))
}

/// The sum of the words so far, and the fault of the object that passes the limit.
#[derive(Drop)]
struct Kept {
    sum: u32,
    fault: Option<Refusal>,
}

/// Adds the words of these objects to the sum.
fn keep(alloc: Global, sum: u32, objects: &[Object]) -> Result<Kept, AllocError>
    requires { sum ≤ 65536 }
    ensures sum { IfOk result (λ k. k.sum ≤ 65536) }
    ensures rest { IfOk result (λ k. (rest : List ObjectTree) → least (spec.kept_faults sum (map object_of objects.now ++ rest)) ≡ (if is_some k.fault then k.fault else least (spec.kept_faults k.sum rest))) }
{
    let mut total = sum;
    for object in objects {
        let words = kept_words(alloc, object)?;
        if total + words > 65536 {
            return Ok(Kept {
                sum: total,
                fault: fault(21, object.at),
            });
        }
        total += words;
    }
    Ok(Kept {
        sum: total,
        fault: None,
    })
}

/// The object at file scope with which the words that are kept pass their limit.
pub fn kept_fault(alloc: Global, items: &[Item]) -> Result<Option<Refusal>, AllocError>
    ensures { IfOk result (λ r. r ≡ least (spec.kept_faults 0 (spec.file_objects (map item_of items.now)))) }
{
    let mut sum = 0;
    for item in items {
        if let Item::Objects(objects) = item {
            let kept = keep(alloc, sum, objects)?;
            if kept.fault.is_some() {
                return Ok(kept.fault);
            }
            sum = kept.sum;
        }
    }
    Ok(None)
}
