//! What declarations write.
ghost use Rattle.std.specs.Prelude.{◌≡◌, ◌++◌, ◌*◌, ◌≤◌, ◌<◌, map, replicate, None, IfOk, OnOk};
ghost use Rattle.std.specs.Option.{option_map};
ghost use Rattle.hls_base.specs.ArrayAddress.{element_count};
ghost use Rattle.c_tree.specs.View.{init_of, object_of};
ghost use Rattle.c_meaning.specs.Limits.{IsWithinLimits};
ghost use Rattle.c_meaning.specs.Statement.{items_of};
ghost use Rattle.c_meaning.specs.Store.{lengths_in};
ghost use Rattle.pieces.specs.Resolved.CoreView.{core_of, core_init_of};
ghost use Rattle.c_elaborate.specs.Expressions.{elaborated};
ghost use Rattle.c_elaborate.specs.Statements.{init_elaborated};
ghost use Rattle.c_elaborate.specs.Statements as spec;
ghost use Rattle.c_elaborate.specs.Items.{trees_in, tree_in};

use crate::expressions::expression;
use crate::functions::Signature;
use crate::names::Scopes;
use c_meaning::lengths::lengths;
use c_meaning::object::element_count;
use c_tree::expression::Expr;
use c_tree::object::{Init, Object};
use pieces::resolved::expression::CoreExpr;
use pieces::resolved::statement::CoreInit;
use std::alloc::{AllocError, Global};

fn add_missing(items: &mut Vec<Option<&Expr>>, count: usize) -> Result<(), AllocError>
    ensures { OnOk result (trees_in items.new.items ≡ trees_in items.old.items ++ replicate count None) }
{
    for k in 0..count {
        items.push(None)?;
    }
    Ok(())
}

/// The number of elements in so many rows.
fn rows_count(rows: usize, inner: &[usize], len: usize) -> usize
    requires rows { rows ≤ len }
    requires positive { 0 < len }
    requires limits { len * element_count inner.now ≤ 65536 }
    ensures { result ≡ rows * element_count inner.now }
{
    rows * element_count(inner)
}

/// Adds the items of an initialiser for an array with these lengths, row by row, and none for each that is missing.
fn add_items<'p>(
    items: &mut Vec<Option<&'p Expr>>,
    lengths: &[usize],
    init: &'p Init,
) -> Result<(), AllocError>
    requires { IsWithinLimits lengths.now }
    ensures { OnOk result (trees_in items.new.items ≡ trees_in items.old.items ++ items_of lengths.now (init_of init.now)) }
{
    match init {
        Init::Single(e) => items.push(Some(e))?,
        Init::List(rows, _) => {
            let Some((len, inner)) = lengths.split_first() else {
                return Ok(());
            };
            for row in rows {
                add_items(items, inner, row)?;
            }
            let missing = len.saturating_sub(rows.len());
            add_missing(items, rows_count(missing, inner, *len))?;
        }
    }
    Ok(())
}

/// The items that are there, with their names resolved.
fn elements(
    alloc: Global,
    functions: &[Signature],
    names: &Scopes,
    items: &[Option<&Expr>],
) -> Result<Vec<Option<CoreExpr>>, AllocError>
    ensures { IfOk result (λ all. map (option_map core_of) all.items ≡ map (option_map (elaborated functions.now names.now)) (trees_in items.now)) }
{
    let mut all = Vec::new(alloc);
    for item in items {
        all.push(element(alloc, functions, names, *item)?)?;
    }
    Ok(all)
}

fn element(
    alloc: Global,
    functions: &[Signature],
    names: &Scopes,
    item: Option<&Expr>,
) -> Result<Option<CoreExpr>, AllocError>
    ensures { IfOk result (λ it. option_map core_of it ≡ option_map (elaborated functions.now names.now) (tree_in item.entry)) }
{
    match item {
        None => Ok(None),
        Some(e) => Ok(Some(expression(alloc, functions, names, e)?)),
    }
}

/// What an initialiser writes to an object. A program without faults has braces for arrays, and only for them; braces for a scalar write nothing.
fn written(
    alloc: Global,
    functions: &[Signature],
    names: &Scopes,
    o: &Object,
    init: &Init,
) -> Result<CoreInit, AllocError>
    ensures { IfOk result (λ it. core_init_of it ≡ spec.written functions.now names.now (lengths_in (object_of o.now)) (init_of init.now)) }
{
    let lengths = lengths(alloc, o)?;
    match init {
        Init::Single(e) if lengths.is_empty() => {
            let value = expression(alloc, functions, names, e)?;
            Ok(CoreInit::Scalar(value))
        }
        Init::List(_, _) if lengths.is_empty() => Ok(CoreInit::Unwritten),
        _ => {
            let mut items = Vec::new(alloc);
            add_items(&mut items, &lengths, init)?;
            Ok(CoreInit::Elements(elements(alloc, functions, names, &items)?))
        }
    }
}

/// What the declaration of an object writes, with the names behind its declarator.
pub fn initialiser(
    alloc: Global,
    functions: &[Signature],
    names: &Scopes,
    o: &Object,
) -> Result<CoreInit, AllocError>
    ensures { IfOk result (λ it. core_init_of it ≡ init_elaborated functions.now names.now (lengths_in (object_of o.now)) (object_of o.now).init) }
{
    match &o.init {
        None => Ok(CoreInit::Unwritten),
        Some(init) => written(alloc, functions, names, o, init),
    }
}
