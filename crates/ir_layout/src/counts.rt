//! How many nodes the parts of a tree become. The sizes of its sequences are counted once, in a table in which each stands at the place of its first node.
ghost use Rattle.std.specs.Prelude.{◌≡◌, ◌+◌, ◌++◌, ◌∷◌, [], map, get_or, slice_set, IfOk, OnOk};
ghost use Rattle.std.specs.Option.{option_map};
ghost use Rattle.ir_core.specs.Trees.{sequence_of, part_of, shape_of, part_row, side_of, arm_row};
ghost use Rattle.ir_layout.specs.Layout.{behind_shape};
ghost use Rattle.ir_layout.specs.Listing.{listing, parts_listing, shape_listing, side_listing, arms_listing, ends_of, ArePartsSized, IsShapeSized, IsSideSized, AreArmsSized};
ghost use Rattle.ir_layout.specs.Sizes.{sequence_size, parts_size, shape_size, side_size, arms_size};

use hls_base::refusal::impossible;
use ir_core::tree::{Part, Sequence, Shape};
use std::alloc::{AllocError, Global};

/// The sum, where it is the number of a node.
pub fn plus(count: u32, more: u32) -> Result<u32, AllocError>
    ensures { IfOk result (λ sum. sum ≡ count + more) }
{
    match count.checked_add(more) {
        Some(sum) => Ok(sum),
        None => Err(impossible()),
    }
}

/// The table of a tree.
pub fn sizes_of(alloc: Global, sequence: &Sequence) -> Result<Vec<u32>, AllocError>
    ensures { IfOk result (λ sizes. sizes.items ≡ listing (sequence_of sequence.now)) }
{
    let mut sizes = Vec::new(alloc);
    list_sequence(&mut sizes, sequence)?;
    Ok(sizes)
}

/// Writes a number in a table.
fn write_at(sizes: &mut Vec<u32>, place: usize, size: u32)
    ensures { sizes.new.items ≡ slice_set sizes.old.items place size }
{
    if place < sizes.len() {
        sizes[place] = size;
    }
}

/// Adds the sizes of a sequence to a table.
#[cycle(listing)]
fn list_sequence(sizes: &mut Vec<u32>, sequence: &Sequence) -> Result<u32, AllocError>
    ensures sizes { OnOk result (sizes.new.items ≡ sizes.old.items ++ listing (sequence_of sequence.now)) }
    ensures count { IfOk result (λ count. count ≡ sequence_size (sequence_of sequence.now)) }
{
    let first = sizes.len();
    sizes.push(0)?;
    let count = plus(list_parts(sizes, &sequence.rest)?, 1)?;
    write_at(sizes, first, count);
    Ok(count)
}

#[cycle(listing)]
fn list_parts(sizes: &mut Vec<u32>, parts: &[Part]) -> Result<u32, AllocError>
    ensures sizes { OnOk result (sizes.new.items ≡ sizes.old.items ++ parts_listing (part_row (map part_of parts.now))) }
    ensures count { IfOk result (λ count. count ≡ parts_size (part_row (map part_of parts.now))) }
{
    let mut count = 0u32;
    for part in parts {
        let shape = list_shape(sizes, &part.shape)?;
        sizes.push(0)?;
        count = plus(count, plus(shape, 1)?)?;
    }
    Ok(count)
}

#[cycle(listing)]
fn list_shape(sizes: &mut Vec<u32>, shape: &Shape) -> Result<u32, AllocError>
    ensures sizes { OnOk result (sizes.new.items ≡ sizes.old.items ++ shape_listing (shape_of shape.now)) }
    ensures count { IfOk result (λ count. count ≡ shape_size (shape_of shape.now)) }
{
    match shape {
        Shape::Fork { yes, no, .. } => {
            let first = list_side(sizes, yes)?;
            plus(first, list_side(sizes, no)?)
        }
        Shape::Loop {
            test,
            body,
            step,
            ..
        } => {
            let test = list_sequence(sizes, test)?;
            let body = list_sequence(sizes, body)?;
            let step = list_step(sizes, step)?;
            plus(test, plus(body, step)?)
        }
        Shape::Choose { dead, arms, .. } => {
            let dead = list_parts(sizes, dead)?;
            plus(dead, list_arms(sizes, arms)?)
        }
        Shape::Land(_) => Ok(0),
        Shape::Overlapped { .. } => {
            sizes.push(0)?;
            Ok(1)
        }
    }
}

#[cycle(listing)]
fn list_side(sizes: &mut Vec<u32>, side: &Option<Sequence>) -> Result<u32, AllocError>
    ensures sizes { OnOk result (sizes.new.items ≡ sizes.old.items ++ side_listing (side_of (option_map sequence_of side.now))) }
    ensures count { IfOk result (λ count. count ≡ side_size (side_of (option_map sequence_of side.now))) }
{
    match side {
        Some(sequence) => list_sequence(sizes, sequence),
        None => Ok(0),
    }
}

#[cycle(listing)]
fn list_step(sizes: &mut Vec<u32>, step: &Option<Box<Sequence>>) -> Result<u32, AllocError>
    ensures sizes { OnOk result (sizes.new.items ≡ sizes.old.items ++ side_listing (side_of (option_map (λ part. sequence_of part.value) step.now))) }
    ensures count { IfOk result (λ count. count ≡ side_size (side_of (option_map (λ part. sequence_of part.value) step.now))) }
{
    match step {
        Some(sequence) => list_sequence(sizes, sequence),
        None => Ok(0),
    }
}

#[cycle(listing)]
fn list_arms(sizes: &mut Vec<u32>, arms: &[Sequence]) -> Result<u32, AllocError>
    ensures sizes { OnOk result (sizes.new.items ≡ sizes.old.items ++ arms_listing (arm_row (map sequence_of arms.now))) }
    ensures count { IfOk result (λ count. count ≡ arms_size (arm_row (map sequence_of arms.now))) }
{
    let mut count = 0u32;
    for arm in arms {
        count = plus(count, list_sequence(sizes, arm)?)?;
    }
    Ok(count)
}

fn size_at(sizes: &[u32], place: u32) -> u32
    ensures { result ≡ get_or sizes.now place 0 }
{
    let place = place as usize;
    if place < sizes.len() { sizes[place] } else { 0 }
}

/// The place behind the sequence whose first node is at this place.
pub fn behind_sequence(sizes: &[u32], place: u32) -> Result<u32, AllocError>
    ensures { IfOk result (λ behind. behind ≡ place + get_or sizes.now place 0) }
{
    plus(place, size_at(sizes, place))
}

/// The place behind a side of a fork.
pub fn behind_side(sizes: &[u32], place: u32, side: &Option<Sequence>) -> Result<u32, AllocError>
    requires { IsSideSized sizes.now place (side_of (option_map sequence_of side.now)) }
    ensures { IfOk result (λ behind. behind ≡ place + side_size (side_of (option_map sequence_of side.now))) }
{
    match side {
        Some(_) => behind_sequence(sizes, place),
        None => Ok(place),
    }
}

fn behind_step(sizes: &[u32], place: u32, step: &Option<Box<Sequence>>) -> Result<u32, AllocError>
    requires { IsSideSized sizes.now place (side_of (option_map (λ part. sequence_of part.value) step.now)) }
    ensures { IfOk result (λ behind. behind ≡ place + side_size (side_of (option_map (λ part. sequence_of part.value) step.now))) }
{
    match step {
        Some(_) => behind_sequence(sizes, place),
        None => Ok(place),
    }
}

/// The place behind the last of these parts.
#[cycle(sequence)]
pub fn behind_parts(sizes: &[u32], place: u32, parts: &[Part]) -> Result<u32, AllocError>
    requires { ArePartsSized sizes.now place (part_row (map part_of parts.now)) }
    ensures { IfOk result (λ behind. behind ≡ place + parts_size (part_row (map part_of parts.now))) }
{
    let mut behind = place;
    for part in parts {
        behind = plus(behind_shape(sizes, behind, &part.shape)?, 1)?;
    }
    Ok(behind)
}

/// The place behind a shape.
#[cycle(sequence)]
pub fn behind_shape(sizes: &[u32], place: u32, shape: &Shape) -> Result<u32, AllocError>
    requires { IsShapeSized sizes.now place (shape_of shape.now) }
    ensures { IfOk result (λ behind. behind ≡ behind_shape place (shape_of shape.now)) }
{
    match shape {
        Shape::Fork { yes, no, .. } => behind_side(sizes, behind_side(sizes, place, yes)?, no),
        Shape::Loop { step, .. } => {
            let body = behind_sequence(sizes, place)?;
            behind_step(sizes, behind_sequence(sizes, body)?, step)
        }
        Shape::Choose { dead, arms, .. } => {
            behind_arms(sizes, behind_parts(sizes, place, dead)?, arms)
        }
        Shape::Land(_) => Ok(place),
        Shape::Overlapped { .. } => plus(place, 1),
    }
}

/// The place behind the last of these arms.
fn behind_arms(sizes: &[u32], place: u32, arms: &[Sequence]) -> Result<u32, AllocError>
    requires { AreArmsSized sizes.now place (arm_row (map sequence_of arms.now)) }
    ensures { IfOk result (λ behind. behind ≡ place + arms_size (arm_row (map sequence_of arms.now))) }
{
    let mut behind = place;
    for _ in arms {
        behind = behind_sequence(sizes, behind)?;
    }
    Ok(behind)
}

/// The places behind the shapes of these parts.
pub fn shape_ends(
    alloc: Global,
    sizes: &[u32],
    base: u32,
    parts: &[Part],
) -> Result<Vec<u32>, AllocError>
    requires { ArePartsSized sizes.now base (part_row (map part_of parts.now)) }
    ensures { IfOk result (λ ends. ends.items ≡ ends_of base (part_row (map part_of parts.now))) }
{
    let mut ends = Vec::with_capacity(alloc, parts.len())?;
    let mut place = base;
    for part in parts {
        let end = behind_shape(sizes, place, &part.shape)?;
        ends.push(end)?;
        place = plus(end, 1)?;
    }
    Ok(ends)
}

pub fn end_at(ends: &[u32], index: usize) -> u32
    ensures { result ≡ get_or ends.now index 0 }
{
    if index < ends.len() { ends[index] } else { 0 }
}
