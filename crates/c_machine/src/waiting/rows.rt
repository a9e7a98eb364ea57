//! The dimensions of an object.
ghost use Rattle.std.specs.Prelude.{◌≡◌, ◌<◌, ◌^◌, drop, IfOk, IfSome};
ghost use Rattle.hls_base.specs.ArrayAddress.{element_count};
ghost use Rattle.c_tree.specs.View.{object_of};
ghost use Rattle.c_meaning.specs.Store.{lengths_in};
ghost use Rattle.c_machine.specs.Waiting.Shown.{first_of};

use c_meaning::lengths::lengths;
use c_meaning::object::element_count;
use c_tree::object::Object as Declared;
use std::alloc::{AllocError, Global};

#[tactic(auto, using(crate::proofs::WaitingLemmas::RowSizes::behind_first))]
/// The lengths behind the first ones.
pub fn lengths_behind(lengths: &[usize], depth: usize) -> &[usize]
    ensures { result.now ≡ drop depth lengths.now }
{
    if depth < lengths.len() {
        &lengths[depth..]
    } else {
        &[]
    }
}

#[tactic(auto, using(crate::proofs::WaitingLemmas::RowSizes::rowing))]
/// The number of elements of a row at this depth of an object.
pub fn row_size(alloc: Global, declared: &Declared, depth: usize) -> Result<usize, AllocError>
    ensures { IfOk result (λ n. n ≡ element_count (drop depth (lengths_in (object_of declared.now)))) }
{
    let all = lengths(alloc, declared)?;
    Ok(element_count(lengths_behind(all.as_slice(), depth)))
}

/// The length of the dimension at this depth of an object, if it has so many.
pub fn dimension(
    alloc: Global,
    declared: &Declared,
    depth: usize,
) -> Result<Option<usize>, AllocError>
    ensures value { IfOk result (λ n. n ≡ first_of (drop depth (lengths_in (object_of declared.now)))) }
    ensures bound { IfOk result (λ n. IfSome n (λ _. depth < 2 ^ 63)) }
{
    let all = lengths(alloc, declared)?;
    if depth < all.len() {
        Ok(Some(all[depth]))
    } else {
        Ok(None)
    }
}
