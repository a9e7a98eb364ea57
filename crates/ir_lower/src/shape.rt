//! Shapes behind boxes. They are large, and what lowers the pieces inside them calls itself.
ghost use Rattle.std.specs.Prelude.{◌≡◌, IfOk, map};
ghost use Rattle.std.specs.Option.{option_map};
ghost use Rattle.ir_core.specs.Trees.{sequence_of, shape_of, side_of, part_of, part_row, arm_row, fork, loop, switch, land};

use crate::arms::Blocks;
use ir_core::tree::{LandId, Sequence, Shape};
use std::alloc::{AllocError, Global};

/// The blocks of a loop.
#[derive(Drop)]
pub struct Round {
    pub test: Box<Sequence>,
    pub body: Box<Sequence>,
    pub step: Option<Box<Sequence>>,
}

/// The arms that the cases of a switch lead to, and the one where no case holds.
#[derive(Drop)]
pub struct Targets {
    pub cases: Vec<u32>,
    pub other: Option<u32>,
}

fn unboxed(side: Option<Box<Sequence>>) -> Option<Sequence>
    ensures { option_map sequence_of result ≡ option_map (λ blocks. sequence_of blocks.value) side }
{
    match side {
        Some(blocks) => Some(Box::into_inner(blocks)),
        None => None,
    }
}

/// A fork with these sides.
#[inline(never)]
pub fn fork(
    alloc: Global,
    yes: Option<Box<Sequence>>,
    no: Option<Box<Sequence>>,
    convertible: bool,
) -> Result<Box<Shape>, AllocError>
    ensures { IfOk result (λ shape. shape_of shape.value ≡ fork (side_of (option_map (λ blocks. sequence_of blocks.value) yes)) (side_of (option_map (λ blocks. sequence_of blocks.value) no)) convertible) }
{
    let shape = Shape::Fork {
        yes: unboxed(yes),
        no: unboxed(no),
        convertible,
    };
    Ok(Box::new(alloc, shape)?)
}

/// A loop of these blocks.
#[inline(never)]
pub fn repeat(
    alloc: Global,
    post: bool,
    round: Round,
    eligible: bool,
) -> Result<Box<Shape>, AllocError>
    ensures { IfOk result (λ shape. shape_of shape.value ≡ loop post (sequence_of round.test.value) (sequence_of round.body.value) (side_of (option_map (λ blocks. sequence_of blocks.value) round.step)) eligible) }
{
    let Round { test, body, step } = round;
    let shape = Shape::Loop {
        post,
        test,
        body,
        step,
        eligible,
    };
    Ok(Box::new(alloc, shape)?)
}

/// A switch of these blocks.
#[inline(never)]
pub fn switch(alloc: Global, blocks: Blocks, targets: Targets) -> Result<Box<Shape>, AllocError>
    ensures { IfOk result (λ shape. shape_of shape.value ≡ switch (part_row (map part_of blocks.dead.items)) targets.cases.items targets.other (arm_row (map sequence_of blocks.arms.items))) }
{
    let Blocks { dead, arms } = blocks;
    let shape = Shape::Choose {
        dead,
        targets: targets.cases,
        other: targets.other,
        arms,
    };
    Ok(Box::new(alloc, shape)?)
}

/// The end of a call that is left from within.
#[inline(never)]
pub fn land(alloc: Global, number: LandId) -> Result<Box<Shape>, AllocError>
    ensures { IfOk result (λ shape. shape_of shape.value ≡ land number) }
{
    Ok(Box::new(alloc, Shape::Land(number))?)
}
