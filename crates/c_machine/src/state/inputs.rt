//! What the top function is given.
ghost use Rattle.std.specs.Prelude.{◌≡◌, ◌++◌, ◌+◌, ◌<◌, ◌^◌, length, map, drop, not, ◌==◌, IfOk, OnOk};
ghost use Rattle.c_tree.specs.View.{param_of, object_of};
ghost use Rattle.c_meaning.specs.Store.{lengths_in};
ghost use Rattle.c_meaning.specs.Run.{is_array_parameter, word_of, top_arguments, host_arrays, file_store, filled, head_or_none};
ghost use Rattle.c_meaning.specs.Declarations.{objects_of};
ghost use Rattle.c_meaning.specs.FittingInputs.{words_fit, array_fits, scalars_fit, arrays_fit, inputs_fit};

use crate::state::file_scope::{FileContents, file_store, tail};
use c_meaning::contents::filled;
use c_meaning::lengths::lengths;
use c_meaning::object::{Object, element_count};
use c_meaning::value::Argument;
use c_token::ctype::CType;
use c_tree::function::Param;
use c_tree::object::Object as Declared;
use c_value::convert::{number_of, ones};
use hls_base::inputs::Inputs;
use hls_base::words::Words;
use std::alloc::{AllocError, Global};

fn is_array_parameter(param: &Param) -> bool
    ensures { result ≡ is_array_parameter (param_of param.now) }
{
    !param.object.lengths.is_empty()
}

/// The number of the first word, and 0 where there is none.
fn word_of(kind: CType, words: &[u64]) -> i128
    ensures { result ≡ word_of kind words.now }
{
    match words.split_first() {
        Some((word, _)) => number_of(kind, *word),
        None => 0,
    }
}

/// The arguments of the top function, whose array parameters are numbered from `next` on.
pub fn top_arguments(
    alloc: Global,
    params: &[Param],
    scalars: &[u64],
    next: usize,
) -> Result<Vec<Argument>, AllocError>
    requires { next + length params.now < 2 ^ 64 }
    ensures { IfOk result (λ arguments. arguments.items ≡ top_arguments (map param_of params.now) scalars.now next) }
{
    let mut arguments = Vec::with_capacity(alloc, params.len())?;
    let mut words = scalars;
    let mut array = next;
    for param in params {
        if is_array_parameter(param) {
            arguments.push(Argument::Array(array))?;
            array += 1;
        } else {
            arguments.push(Argument::Number(word_of(param.object.kind, words)))?;
            words = tail(words);
        }
    }
    Ok(arguments)
}

/// An array parameter with the first of these arrays.
fn host_array(alloc: Global, p: &Declared, arrays: &[Words]) -> Result<Object, AllocError>
    ensures { IfOk result (λ o. o ≡ filled p.now.kind (lengths_in (object_of p.now)) (head_or_none arrays.now)) }
{
    let lengths = lengths(alloc, p)?;
    match arrays.split_first() {
        Some((words, _)) => filled(alloc, p.kind, lengths, words.items()),
        None => filled(alloc, p.kind, lengths, &[]),
    }
}

/// Adds the array parameters of the top function with these elements.
pub fn add_host_arrays(
    alloc: Global,
    objects: &mut Vec<Object>,
    params: &[Param],
    arrays: &[Words],
) -> Result<(), AllocError>
    ensures { OnOk result (objects.new.items ≡ objects.old.items ++ host_arrays (map param_of params.now) arrays.now) }
{
    let mut rest = arrays;
    for param in params {
        if is_array_parameter(param) {
            objects.push(host_array(alloc, &param.object, rest)?)?;
            rest = tail(rest);
        }
    }
    Ok(())
}

/// The objects with which a run begins: those of file scope with these contents, and the array parameters of the top function.
pub fn started_objects(
    alloc: Global,
    declared: &[&Declared],
    contents: &FileContents,
    params: &[Param],
    arrays: &[Words],
) -> Result<Vec<Object>, AllocError>
    ensures { IfOk result (λ objects. objects.items ≡ file_store (objects_of declared.now) contents.now ++ host_arrays (map param_of params.now) arrays.now) }
{
    let mut objects = file_store(alloc, declared, contents)?;
    add_host_arrays(alloc, &mut objects, params, arrays)?;
    Ok(objects)
}

// ---- inputs that fit the parameters

/// Whether each word is within the type's width.
fn words_fit(kind: CType, words: &[u64]) -> bool
    ensures { result ≡ words_fit kind words.now }
{
    let greatest = ones(kind);
    for word in words {
        if *word > greatest {
            return false;
        }
    }
    true
}

fn scalars_fit(params: &[Param], scalars: &[u64]) -> bool
    ensures { result ≡ scalars_fit (map param_of params.now) scalars.now }
{
    let mut words = scalars;
    for param in params {
        if !is_array_parameter(param) {
            let Some((word, rest)) = words.split_first() else {
                return false;
            };
            if *word > ones(param.object.kind) {
                return false;
            }
            words = rest;
        }
    }
    words.is_empty()
}

/// Whether the words are the elements of an array parameter.
fn array_fits(alloc: Global, p: &Declared, words: &Words) -> Result<bool, AllocError>
    ensures { IfOk result (λ fits. fits ≡ array_fits (object_of p.now) words.now) }
{
    let lengths = lengths(alloc, p)?;
    let count = element_count(lengths.as_slice());
    Ok(words.items().len() == count && words_fit(p.kind, words.items()))
}

fn arrays_fit(alloc: Global, params: &[Param], arrays: &[Words]) -> Result<bool, AllocError>
    ensures { IfOk result (λ fit. fit ≡ arrays_fit (map param_of params.now) arrays.now) }
{
    let mut rest = arrays;
    for param in params {
        if is_array_parameter(param) {
            let Some((words, others)) = rest.split_first() else {
                return Ok(false);
            };
            if !array_fits(alloc, &param.object, words)? {
                return Ok(false);
            }
            rest = others;
        }
    }
    Ok(rest.is_empty())
}

/// Whether there is one number for each scalar parameter, and one list of the right length for each array parameter, each number within its width.
pub fn inputs_fit(alloc: Global, params: &[Param], inputs: &Inputs) -> Result<bool, AllocError>
    ensures { IfOk result (λ fit. fit ≡ inputs_fit (map param_of params.now) inputs.now.scalars inputs.now.arrays) }
{
    if !scalars_fit(params, inputs.scalars.items()) {
        return Ok(false);
    }
    arrays_fit(alloc, params, inputs.arrays.items())
}
