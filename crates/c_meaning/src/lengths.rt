//! The lengths of arrays.
ghost use Rattle.std.specs.Prelude.{◌≡◌, ◌<◌, ◌≤◌, IfOk, IfSome, IsTrue, All, map, nat_le, Some, None, if◌then◌else◌};
ghost use Rattle.std.specs.Option.{option_map};
ghost use Rattle.hls_base.specs.ArrayAddress.{element_count};
ghost use Rattle.c_tree.specs.View.{object_of, tree_of, init_of};
ghost use Rattle.c_meaning.specs.Checks.Lengths.{usable, items_in, length_of, lengths_of, all_usable};
ghost use Rattle.c_meaning.specs.Store.{lengths_in};
ghost use Rattle.c_meaning.specs.Limits.{IsWithinLimits};

use c_tree::expression::Expr;
use c_tree::object::{Init, Object};
use c_value::constant::{Constant, constant_value};
use std::alloc::{AllocError, Global};

#[tactic(auto, using(crate::proofs::DimensionLengths::dimensions))]
/// How many items an initialiser has, if it is a list.
fn item_count(init: &Init) -> Option<usize>
    ensures { result ≡ items_in (Some (init_of init.now)) }
{
    match init {
        Init::List(items, _) => Some(items.len()),
        Init::Single(_) => None,
    }
}

fn items_in(init: &Option<Init>) -> Option<usize>
    ensures { result ≡ items_in (option_map init_of init.now) }
{
    match init {
        Some(init) => item_count(init),
        None => None,
    }
}

/// A length that is written, if it is 1 to 65,536. One that is left out is the number of items.
fn length_of(items: Option<usize>, length: &Option<Expr>) -> Option<usize>
    ensures value { result ≡ usable (length_of items (option_map tree_of length.now)) }
    ensures positive { IfSome result (λ n. 0 < n) }
{
    match (items, length) {
        (Some(n), None) if n <= 65536 && 0 < n => Some(n),
        (_, Some(e)) => match constant_value(e) {
            Constant::Number { number, .. } if 0 < number && number <= 65536 => {
                Some(number as usize)
            }
            _ => None,
        },
        _ => None,
    }
}

#[tactic(auto, using(crate::proofs::DimensionLengths::dimensions))]
/// The lengths of all dimensions, if each is 1 to 65,536.
fn all_lengths(alloc: Global, o: &Object) -> Result<Option<Vec<usize>>, AllocError>
    ensures value { IfOk result (λ found. option_map (λ v. v.items) found ≡ all_usable (map usable (lengths_of (object_of o.now)))) }
    ensures positive { IfOk result (λ found. IfSome found (λ v. All (λ n. 0 < n) v.items)) }
{
    let mut all = Vec::new(alloc);
    let mut items = items_in(&o.init);
    for length in &o.lengths {
        let Some(n) = length_of(items, length) else {
            return Ok(None);
        };
        all.push(n)?;
        items = None;
    }
    Ok(Some(all))
}

/// The number of elements of an array, if it is at most 65,536.
fn limited_count(lengths: &[usize]) -> Option<usize>
    requires { All (λ n. 0 < n) lengths.now }
    ensures { result ≡ (if nat_le (element_count lengths.now) 65536 then Some (element_count lengths.now) else None) }
{
    let Some((len, inner)) = lengths.split_first() else {
        return Some(1);
    };
    let Some(count) = limited_count(inner) else {
        return None;
    };
    if *len <= 65536 && *len * count <= 65536 {
        Some(*len * count)
    } else {
        None
    }
}

/// The lengths of an object's dimensions.
pub fn lengths(alloc: Global, o: &Object) -> Result<Vec<usize>, AllocError>
    ensures value { IfOk result (λ v. v.items ≡ lengths_in (object_of o.now)) }
    ensures limits { IfOk result (λ v. IsWithinLimits v.items) }
{
    match all_lengths(alloc, o)? {
        Some(all) if limited_count(all.as_slice()).is_some() => Ok(all),
        _ => Ok(Vec::new(alloc)),
    }
}
