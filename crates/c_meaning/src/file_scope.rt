//! The objects of file scope: C11 6.7.9 paragraphs 4 and 10.
ghost use Rattle.std.specs.Prelude.{◌≡◌, ◌++◌, ◌*◌, ◌≤◌, ◌<◌, pos, Some, map, replicate, IfOk, OnOk};
ghost use Rattle.hls_base.specs.ArrayAddress.{element_count};
ghost use Rattle.c_tree.specs.View.{tree_of, init_of, object_of, item_of};
ghost use Rattle.c_meaning.specs.Checks.Limits.{file_objects};
ghost use Rattle.c_meaning.specs.Limits.{IsWithinLimits};
ghost use Rattle.c_meaning.specs.Statement.{items_of};
ghost use Rattle.c_meaning.specs.Run.{constant_item, file_items, first_object};
ghost use Rattle.c_meaning.specs.Declarations.{objects_of, objects_in};

use crate::lengths::lengths;
use crate::object::{Object, element_count};
use c_token::ctype::CType;
use c_tree::expression::Expr;
use c_tree::object::{Init, Object as Declared};
use c_tree::program::Item;
use c_value::constant::constant_number;
use c_value::convert::convert;
use std::alloc::{AllocError, Global};

// ---- declarations

fn add_declarations<'p>(
    all: &mut Vec<&'p Declared>,
    objects: &'p [Declared],
) -> Result<(), AllocError>
    ensures { OnOk result (objects_of all.new.items ≡ objects_of all.old.items ++ map object_of objects.now) }
{
    for o in objects {
        all.push(o)?;
    }
    Ok(())
}

fn add_item<'p>(all: &mut Vec<&'p Declared>, item: &'p Item) -> Result<(), AllocError>
    ensures { OnOk result (objects_of all.new.items ≡ objects_of all.old.items ++ objects_in (item_of item.now)) }
{
    match item {
        Item::Objects(objects) => add_declarations(all, objects),
        Item::Function(_) => Ok(()),
    }
}

/// The declarations of file scope, in order.
pub fn declarations<'p>(alloc: Global, items: &'p [Item]) -> Result<Vec<&'p Declared>, AllocError>
    ensures { IfOk result (λ all. objects_of all.items ≡ file_objects (map item_of items.now)) }
{
    let mut all = Vec::new(alloc);
    for item in items {
        add_item(&mut all, item)?;
    }
    Ok(all)
}

// ---- initialisers

fn constant_item(kind: CType, e: &Expr) -> i128
    ensures { Some result ≡ constant_item kind (Some (tree_of e.now)) }
{
    match constant_number(e) {
        Ok(n) => convert(kind, n),
        Err(_) => convert(kind, 0),
    }
}

fn add_zeros(elements: &mut Vec<Option<i128>>, count: usize) -> Result<(), AllocError>
    ensures { OnOk result (elements.new.items ≡ elements.old.items ++ replicate count (Some (pos 0))) }
{
    for k in 0..count {
        elements.push(Some(0))?;
    }
    Ok(())
}

/// The number of elements in so many rows.
fn rows_count(rows: usize, inner: &[usize], len: usize) -> usize
    requires rows { rows ≤ len }
    requires positive { 0 < len }
    requires limits { len * element_count inner.now ≤ 65536 }
    ensures { result ≡ rows * element_count inner.now }
{
    rows * element_count(inner)
}

#[tactic(auto, using(crate::proofs::Initialising::initialising))]
/// Adds the elements that an initialiser gives, row by row, and 0 for each that is missing.
fn add_elements(
    elements: &mut Vec<Option<i128>>,
    kind: CType,
    lengths: &[usize],
    init: &Init,
) -> Result<(), AllocError>
    requires { IsWithinLimits lengths.now }
    ensures { OnOk result (elements.new.items ≡ elements.old.items ++ map (constant_item kind) (items_of lengths.now (init_of init.now))) }
{
    match init {
        Init::Single(e) => elements.push(Some(constant_item(kind, e)))?,
        Init::List(items, _) => {
            let Some((len, inner)) = lengths.split_first() else {
                return Ok(());
            };
            for item in items {
                add_elements(elements, kind, inner, item)?;
            }
            let missing = len.saturating_sub(items.len());
            add_zeros(elements, rows_count(missing, inner, *len))?;
        }
    }
    Ok(())
}

#[tactic(auto, using(crate::proofs::Initialising::initialising))]
/// The elements that a declaration gives, which are 0 without an initialiser.
fn first_elements(
    alloc: Global,
    declared: &Declared,
    lengths: &[usize],
) -> Result<Vec<Option<i128>>, AllocError>
    requires { IsWithinLimits lengths.now }
    ensures { IfOk result (λ elements. elements.items ≡ map (constant_item declared.now.kind) (file_items lengths.now (object_of declared.now).init)) }
{
    let mut elements = Vec::new(alloc);
    let Some(init) = &declared.init else {
        add_zeros(&mut elements, element_count(lengths))?;
        return Ok(elements);
    };
    add_elements(&mut elements, declared.kind, lengths, init)?;
    Ok(elements)
}

/// An object of file scope as its declaration gives it.
pub fn first_object(alloc: Global, declared: &Declared) -> Result<Object, AllocError>
    ensures { IfOk result (λ o. o ≡ first_object (object_of declared.now)) }
{
    let lengths = lengths(alloc, declared)?;
    let elements = first_elements(alloc, declared, lengths.as_slice())?;
    Ok(Object::filled(declared.kind, lengths, elements))
}
