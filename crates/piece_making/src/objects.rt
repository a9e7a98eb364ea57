//! Objects and what stands for them.
ghost use Rattle.std.specs.Prelude.{◌≡◌, ◌≤◌, IfOk, false, nat_lt, if◌then◌else◌};
ghost use Rattle.hls_base.specs.ArrayAddress.{subscript_bits, address_bits};
ghost use Rattle.hls_base.specs.Refusals.{IfRefused};
ghost use Rattle.pieces.specs.Resolved.CoreView.{core_object_of, file_object_of};
ghost use Rattle.pieces.specs.Program.{array_of};
ghost use Rattle.piece_making.specs.Objects.{array_weight, array_like, host_array, local, local_array, file_array, file_info, first_value};
ghost use Rattle.piece_making.specs.Stocks.{IsMade, IsTooHeavy, state_of, stock};

use crate::frame::Home;
use crate::work::Work;
use hls_base::number::ArrayId;
use hls_base::refusal::{Fail, impossible};
use hls_base::words::Words;
use pieces::expanded::ArrayInfo;
use pieces::resolved::program::{CoreObject, FileObject};
use std::alloc::{AllocError, Global};

/// The bits of a subscript of a dimension of this length.
fn subscript_bits(length: u32) -> u32
    ensures value { result ≡ subscript_bits length }
    ensures bound { result ≤ 16 }
{
    1 + above(length, 2)
        + above(length, 4)
        + above(length, 8)
        + above(length, 16)
        + above(length, 32)
        + above(length, 64)
        + above(length, 128)
        + above(length, 256)
        + above(length, 512)
        + above(length, 1024)
        + above(length, 2048)
        + above(length, 4096)
        + above(length, 8192)
        + above(length, 16384)
        + above(length, 32768)
}

fn above(length: u32, power: u32) -> u32
    ensures { result ≡ (if nat_lt power length then 1 else 0) }
{
    if power < length { 1 } else { 0 }
}

/// The bits of an address of an array of these lengths. There are no more than 31.
fn address_bits(lengths: &Vec<u32>) -> Result<u32, AllocError>
    ensures value { IfOk result (λ n. n ≡ address_bits lengths.now.items) }
    ensures bound { IfOk result (λ n. n ≤ 31) }
{
    let mut bits: u32 = 0;
    for length in lengths {
        bits += subscript_bits(*length);
        if bits > 31 {
            return Err(impossible());
        }
    }
    Ok(bits)
}

/// The weight of an array of these lengths: 1, and 1 for each 64 words of its memory.
fn weight(lengths: &Vec<u32>) -> Result<u32, AllocError>
    ensures { IfOk result (λ n. n ≡ array_weight lengths.now.items) }
{
    let words: u32 = 1 << address_bits(lengths)?;
    Ok(words / 64 + 1)
}

/// An array without contents that the host does not reach.
fn info(alloc: Global, object: &CoreObject) -> Result<ArrayInfo, AllocError>
    ensures { IfOk result (λ a. array_of a ≡ array_like (core_object_of object.now) None None false) }
{
    Ok(ArrayInfo {
        name: object.name.copy(alloc)?,
        kind: object.kind,
        dims: Vec::from_slice(alloc, object.lengths.as_slice())?,
        table: None,
        initial: None,
        host: false,
    })
}

/// An array that the host reaches.
pub fn host_array(alloc: Global, work: &mut Work, object: &CoreObject) -> Result<Home, AllocError>
    ensures { IfOk result (λ h. IsMade (stock work.old) (stock work.new) h (host_array (core_object_of object.now) (state_of (stock work.old)))) }
{
    let array = ArrayInfo {
        host: true,
        ..info(alloc, object)?
    };
    Ok(Home::Array(work.add_array(array)?))
}

/// What stands for an object of a call that is no parameter. An array is made when its declaration is reached.
pub fn local(work: &mut Work, object: &CoreObject) -> Result<Home, AllocError>
    ensures { IfOk result (λ h. IsMade (stock work.old) (stock work.new) h (local (core_object_of object.now) (state_of (stock work.old)))) }
{
    if object.lengths.is_empty() {
        Ok(Home::Variable(work.fresh(object.kind)?))
    } else {
        Ok(Home::Local(work.new_slot()?))
    }
}

/// An array of a call, whose declaration is reached.
pub fn local_array(alloc: Global, work: &mut Work, object: &CoreObject) -> Result<ArrayId, Fail>
    ensures made { IfOk result (λ a. IsMade (stock work.old) (stock work.new) a (local_array (core_object_of object.now) (state_of (stock work.old)))) }
    ensures refused { IfRefused result (λ r. IsTooHeavy (stock work.old) r (local_array (core_object_of object.now) (state_of (stock work.old)))) }
{
    let counted = weight(&object.lengths)?;
    work.charge(counted)?;
    let array = info(alloc, object)?;
    let added = work.add_array(array)?;
    Ok(added)
}

/// An array of file scope: a table where it is const.
pub fn file_array(alloc: Global, work: &mut Work, object: &FileObject) -> Result<Home, Fail>
    ensures made { IfOk result (λ h. IsMade (stock work.old) (stock work.new) h (file_array (file_object_of object.now) (state_of (stock work.old)))) }
    ensures refused { IfRefused result (λ r. IsTooHeavy (stock work.old) r (file_array (file_object_of object.now) (state_of (stock work.old)))) }
{
    let counted = weight(&object.object.lengths)?;
    work.charge(counted)?;
    let array = file_info(alloc, object)?;
    let added = work.add_array(array)?;
    Ok(Home::Array(added))
}

fn file_info(alloc: Global, object: &FileObject) -> Result<ArrayInfo, AllocError>
    ensures { IfOk result (λ a. array_of a ≡ file_info (file_object_of object.now)) }
{
    let FileObject { object, first } = object;
    let words = Some(first.copy(alloc)?);
    let (table, initial) = if object.constant {
        (words, None)
    } else {
        (None, words)
    };
    Ok(ArrayInfo {
        table,
        initial,
        ..info(alloc, object)?
    })
}

/// The value that a scalar of file scope has at first.
pub fn first_value(first: &Words) -> Result<u64, AllocError>
    ensures { IfOk result (λ n. n ≡ first_value first.now) }
{
    first.items().first().copied().ok_or(impossible())
}
