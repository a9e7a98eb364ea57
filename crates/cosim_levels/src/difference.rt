//! Where the run of a module differs from the run in C.
ghost use Rattle.std.specs.Prelude.{◌≡◌, ◌<◌, ◌≤◌, ◌^◌, length, map, filter, pos, IfOk};
ghost use Rattle.std.specs.List.{All};
ghost use Rattle.c_tree.specs.View.{object_of, param_of, function_of};
ghost use Rattle.c_value.specs.Values as value;
ghost use Rattle.c_meaning.specs.Run.{is_array_parameter};
ghost use Rattle.cosim_levels.specs.declared.verdict.Item.TheVariants as item;
ghost use Rattle.cosim_levels.specs.Comparison as compare;

use crate::pins::drive::Shown as ShownByModule;
use crate::shown::result_number;
use crate::verdict::{Difference, Item};
use c_meaning::outcome::Final;
use c_tree::function::{Function, Param};
use c_tree::object::Object;
use c_value::convert::number_of;
use hls_base::words::Words;
use std::alloc::{AllocError, Global};

/// Where two results differ.
fn in_result(expected: Option<i128>, found: Option<i128>) -> Option<Difference>
    ensures { result ≡ compare.in_result expected found }
{
    match (expected, found) {
        (Some(expected), Some(found)) if expected != found => Some(Difference {
            item: Item::Ret,
            expected,
            found,
        }),
        _ => None,
    }
}

/// An element of an array.
fn element(alloc: Global, object: &Object, number: usize) -> Result<Item, AllocError>
    requires { number < 2 ^ 32 }
    ensures { IfOk result (λ i. i ≡ item.Element object.now.name number) }
{
    Ok(Item::Element {
        name: object.name.copy(alloc)?,
        index: number as u32,
    })
}

/// Where an element of an array differs.
fn in_element(
    alloc: Global,
    object: &Object,
    number: usize,
    expected: u64,
    found: u64,
) -> Result<Option<Difference>, AllocError>
    requires { number < 2 ^ 32 }
    ensures { IfOk result (λ d. d ≡ compare.difference_at (item.Element object.now.name number) (value.number_of object.now.kind expected) (value.number_of object.now.kind found)) }
{
    let expected = number_of(object.kind, expected);
    let found = number_of(object.kind, found);
    if expected == found {
        return Ok(None);
    }
    let item = element(alloc, object, number)?;
    Ok(Some(Difference {
        item,
        expected,
        found,
    }))
}

/// Where the elements of an array differ first.
fn in_elements(
    alloc: Global,
    object: &Object,
    expected: &[u64],
    found: &[u64],
) -> Result<Option<Difference>, AllocError>
    requires { length found.now ≤ 2 ^ 32 }
    ensures { IfOk result (λ d. d ≡ compare.in_elements (object_of object.now) 0 expected.now found.now) }
{
    for k in 0..expected.len().min(found.len()) {
        let difference = in_element(alloc, object, k, expected[k], found[k])?;
        if difference.is_some() {
            return Ok(difference);
        }
    }
    Ok(None)
}

/// Where the elements of the array parameters differ first.
fn in_arrays(
    alloc: Global,
    params: &[Param],
    expected: &[Words],
    found: &[Words],
) -> Result<Option<Difference>, AllocError>
    requires { All (λ words. length words ≤ 2 ^ 32) found.now }
    ensures { IfOk result (λ d. d ≡ compare.in_arrays (filter is_array_parameter (map param_of params.now)) expected.now found.now) }
{
    let mut array: usize = 0;
    for k in 0..params.len() {
        let object = &params[k].object;
        if !object.lengths.is_empty() {
            if array >= expected.len() || array >= found.len() {
                return Ok(None);
            }
            let difference = in_elements(
                alloc,
                object,
                expected[array].items(),
                found[array].items(),
            )?;
            if difference.is_some() {
                return Ok(difference);
            }
            array += 1;
        }
    }
    Ok(None)
}

/// Where the numbers of cycles differ.
fn in_cycles(expected: u128, found: u64) -> Option<Difference>
    requires { expected < 2 ^ 127 }
    ensures { result ≡ compare.difference_at item.Cycles (pos expected) (pos found) }
{
    let expected = expected as i128;
    let found = i128::from(found);
    if expected == found {
        None
    } else {
        Some(Difference {
            item: Item::Cycles,
            expected,
            found,
        })
    }
}

/// The first difference between the run in C, which takes so many cycles by the report, and that of the module.
pub fn first_difference(
    alloc: Global,
    function: &Function,
    ended: &Final,
    cycles: u128,
    shown: &ShownByModule,
) -> Result<Option<Difference>, AllocError>
    requires elements { All (λ words. length words ≤ 2 ^ 32) shown.now.arrays }
    requires cycles { cycles < 2 ^ 127 }
    ensures { IfOk result (λ d. d ≡ compare.first_difference (function_of function.now) ended.now.ret ended.now.arrays cycles shown.now) }
{
    let expected = result_number(function.result, ended.ret);
    let found = result_number(function.result, shown.ret);
    let result = in_result(expected, found);
    if result.is_some() {
        return Ok(result);
    }
    let arrays = in_arrays(
        alloc,
        &function.params,
        ended.arrays.items(),
        shown.arrays.items(),
    )?;
    if arrays.is_some() {
        return Ok(arrays);
    }
    Ok(in_cycles(cycles, shown.cycles))
}
