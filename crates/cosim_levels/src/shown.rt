//! Results and elements as numbers of their types.
ghost use Rattle.std.specs.Prelude.{◌≡◌, map, filter, IfOk};
ghost use Rattle.c_tree.specs.View.{param_of};
ghost use Rattle.c_value.specs.Values as value;
ghost use Rattle.c_meaning.specs.Run.{is_array_parameter};
ghost use Rattle.cosim_levels.specs.Verdicts.{shown_of};
ghost use Rattle.cosim_levels.specs.Comparison as compare;

use crate::verdict::Shown;
use c_token::ctype::CType;
use c_tree::function::Param;
use c_tree::object::Object;
use c_value::convert::number_of;
use hls_base::words::Words;
use std::alloc::{AllocError, Global};

/// The result as a number of the function's type.
pub fn result_number(kind: Option<CType>, word: Option<u64>) -> Option<i128>
    ensures { result ≡ compare.result_number kind word }
{
    match (kind, word) {
        (Some(kind), Some(word)) => Some(number_of(kind, word)),
        _ => None,
    }
}

/// The words as numbers of the type.
fn numbers(alloc: Global, kind: CType, words: &[u64]) -> Result<Vec<i128>, AllocError>
    ensures { IfOk result (λ v. v.items ≡ map (value.number_of kind) words.now) }
{
    let mut numbers = Vec::with_capacity(alloc, words.len())?;
    for word in words {
        numbers.push(number_of(kind, *word))?;
    }
    Ok(numbers)
}

/// The elements of an array parameter, with its name.
fn shown_array(alloc: Global, object: &Object, words: &[u64]) -> Result<Shown, AllocError>
    ensures { IfOk result (λ s. shown_of s ≡ record { name = object.now.name; values = map (value.number_of object.now.kind) words.now }) }
{
    Ok(Shown {
        name: object.name.copy(alloc)?,
        values: numbers(alloc, object.kind, words)?,
    })
}

/// The elements of the array parameters, with their names.
pub fn shown_arrays(
    alloc: Global,
    params: &[Param],
    arrays: &[Words],
) -> Result<Vec<Shown>, AllocError>
    ensures { IfOk result (λ v. map shown_of v.items ≡ compare.shown_arrays (filter is_array_parameter (map param_of params.now)) arrays.now) }
{
    let mut all = Vec::new(alloc);
    let mut array: usize = 0;
    for k in 0..params.len() {
        let param = &params[k];
        if !param.object.lengths.is_empty() {
            if array >= arrays.len() {
                return Ok(all);
            }
            all.push(shown_array(alloc, &param.object, arrays[array].items())?)?;
            array += 1;
        }
    }
    Ok(all)
}
