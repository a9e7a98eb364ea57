//! What a line says.
ghost use Rattle.std.specs.Prelude.{◌≡◌, map, length, IfOk, Some};
ghost use Rattle.c_tree.specs.View.{param_of, object_of};
ghost use Rattle.cosim_levels.specs.Numerals.{bits_of_words};
ghost use Rattle.cosim_levels.specs.Rows.{texts_of, given_to, given_by_name, row_of_words, row_of, IsInside};

use crate::decimal::bits_of;
use crate::line::is_blank;
use crate::words::words;
use c_meaning::lengths::lengths;
use c_meaning::object::element_count;
use c_token::ctype::CType;
use c_tree::function::Param;
use c_tree::object::Object;
use hls_base::words::Words;
use std::alloc::{AllocError, Global};

/// What a line says: nothing, the bits of the numbers of the parameter of this number, or what no line may say.
#[derive(Drop)]
pub enum Row {
    Nothing,
    Gives { parameter: usize, words: Words },
    Refused,
}

/// The bits of all these words, if each is a number of the type.
fn all_bits(alloc: Global, kind: CType, words: &[&[u8]]) -> Result<Option<Words>, AllocError>
    ensures { IfOk result (λ found. found ≡ bits_of_words kind (texts_of words.now)) }
{
    let mut all = Vec::with_capacity(alloc, words.len())?;
    for word in words {
        let Some(bits) = bits_of(kind, word) else {
            return Ok(None);
        };
        all.push(bits)?;
    }
    Ok(Some(Words::new(all)))
}

/// What these values say where they are for a parameter.
fn given_to(
    alloc: Global,
    parameter: usize,
    object: &Object,
    values: &[&[u8]],
) -> Result<Row, AllocError>
    ensures row { IfOk result (λ r. r ≡ given_to parameter (object_of object.now) (texts_of values.now)) }
{
    let lengths = lengths(alloc, object)?;
    if values.len() != element_count(&lengths) {
        return Ok(Row::Refused);
    }
    match all_bits(alloc, object.kind, values)? {
        Some(words) => Ok(Row::Gives { parameter, words }),
        None => Ok(Row::Refused),
    }
}

/// What these values say where they are for the parameter of this name.
fn given_by_name(
    alloc: Global,
    params: &[Param],
    name: &[u8],
    values: &[&[u8]],
) -> Result<Row, AllocError>
    ensures row { IfOk result (λ r. r ≡ given_by_name 0 (map param_of params.now) name.now (texts_of values.now)) }
{
    for k in 0..params.len() {
        if params[k].object.name.items() == name {
            return given_to(alloc, k, &params[k].object, values);
        }
    }
    Ok(Row::Refused)
}

fn row_of_words(alloc: Global, params: &[Param], words: &[&[u8]]) -> Result<Row, AllocError>
    ensures row { IfOk result (λ r. r ≡ row_of_words (map param_of params.now) (Some (texts_of words.now))) }
{
    match words {
        [name, sign, values @ ..] if *sign == b"=".as_slice() => given_by_name(
            alloc, params, name, values,
        ),
        _ => Ok(Row::Refused),
    }
}

/// What a line says to these parameters.
pub fn row_of(alloc: Global, params: &[Param], line: &[u8]) -> Result<Row, AllocError>
    ensures row { IfOk result (λ r. r ≡ row_of (map param_of params.now) line.now) }
{
    if is_blank(line) {
        return Ok(Row::Nothing);
    }
    match words(alloc, line)? {
        Some(words) => row_of_words(alloc, params, &words),
        None => Ok(Row::Refused),
    }
}
