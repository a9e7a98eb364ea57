//! The elements of objects as bit patterns.
ghost use Rattle.std.specs.Prelude.{◌≡◌, ◌++◌, ◌≤◌, map, IfOk, OnOk};
ghost use Rattle.hls_base.specs.ArrayAddress.{element_count};
ghost use Rattle.c_meaning.specs.Run.{element_pattern, patterns, filled, result_pattern};

use crate::object::Object;
use c_token::ctype::CType;
use c_value::convert::{number_of, pattern};
use hls_base::words::{Arrays, Words};
use std::alloc::{AllocError, Global};

/// An element that is not written counts as 0.
fn element_pattern(kind: CType, element: Option<i128>) -> u64
    ensures { result ≡ element_pattern kind element }
{
    match element {
        Some(n) => pattern(kind, n),
        None => 0,
    }
}

/// Adds the elements of an object.
pub fn add_patterns(words: &mut Vec<u64>, o: &Object) -> Result<(), AllocError>
    ensures { OnOk result (words.new.items ≡ words.old.items ++ patterns o.now) }
{
    let kind = o.kind();
    let elements = o.elements();
    for element in elements {
        words.push(element_pattern(kind, *element))?;
    }
    Ok(())
}

pub fn patterns(alloc: Global, o: &Object) -> Result<Words, AllocError>
    ensures { IfOk result (λ words. words ≡ patterns o.now) }
{
    let mut words = Vec::new(alloc);
    add_patterns(&mut words, o)?;
    Ok(Words::new(words))
}

/// The elements of several arrays.
pub fn all_patterns(alloc: Global, objects: &[Object]) -> Result<Arrays, AllocError>
    ensures { IfOk result (λ arrays. arrays ≡ map patterns objects.now) }
{
    let mut all = Vec::with_capacity(alloc, objects.len())?;
    for o in objects {
        all.push(patterns(alloc, o)?)?;
    }
    Ok(Arrays::new(all))
}

/// The bits of a function's result, and none of a void function.
pub fn result_pattern(kind: Option<CType>, number: Option<i128>) -> Option<u64>
    ensures { result ≡ result_pattern kind number }
{
    match (kind, number) {
        (Some(kind), Some(n)) => Some(pattern(kind, n)),
        _ => None,
    }
}

/// An object of this type with these words as its elements.
pub fn filled(
    alloc: Global,
    kind: CType,
    lengths: Vec<usize>,
    words: &[u64],
) -> Result<Object, AllocError>
    requires { element_count lengths.items ≤ 65536 }
    ensures { IfOk result (λ o. o ≡ filled kind lengths.items words.now) }
{
    let mut elements = Vec::with_capacity(alloc, words.len())?;
    for word in words {
        elements.push(Some(number_of(kind, *word)))?;
    }
    Ok(Object::filled(kind, lengths, elements))
}
