//! Sequences, parts and shapes that are taken apart behind boxes. They are large, so a function that calls itself on them would need much stack for copies of them.
ghost use Rattle.std.specs.Prelude.{◌≡◌, IfOk, map};
ghost use Rattle.ir_core.specs.declared.tree.Sequence.{out-Sequence};
ghost use Rattle.ir_layout.specs.Boxes.{side_from, shape_from};

use hls_base::point::Point;
use ir_core::body::Body;
use ir_core::stamp::Untimed;
use ir_core::tree::{BasicBlock, LandId, Part, Sequence, Shape};
use std::alloc::{AllocError, Global};
use std::marker::Model;

/// A value in a box that is dropped by a call. The code that drops a box has a place for a copy of the value, which would be in the frame of each function that drops one.
pub struct Held<T> {
    value: Box<T>,
}

impl<T> Model for Held<T> {
    ghost use Rattle.std.specs.declared.boxed.Box.{Box};
    ghost use Rattle.std.specs.declared.alloc.Global.{Global};

    ghost Value = { Box T Global };

    ghost view = { λ held. held.value };
}

impl<T: Drop> Drop for Held<T> {
    #[inline(never)]
    fn drop(self) {
        let Held { value } = self;
        drop(value);
    }
}

impl<T> Held<T> {
    ghost use Rattle.std.specs.Prelude.{◌≡◌, IfOk};

    pub fn new(alloc: Global, value: T) -> Result<Held<T>, AllocError>
    where
        T: Drop,
        ensures { IfOk result (λ held. held.value ≡ value) }
    {
        let value = Box::new(alloc, value)?;
        Ok(Held { value })
    }

    pub fn as_ref(&self) -> &T
        ensures { result.now ≡ self.now.value }
    {
        &self.value
    }

    pub fn into_inner(self) -> T
        ensures { result ≡ self.value }
    {
        let Held { value } = self;
        Box::into_inner(value)
    }
}

/// The first block of a sequence, and the parts behind it.
#[derive(Drop)]
pub struct SplitSequence {
    pub first: Held<BasicBlock>,
    pub rest: Vec<Part>,
}

/// The shape of a part, and the block behind it.
#[derive(Drop)]
pub struct SplitPart {
    pub shape: Held<Shape>,
    pub after: Held<BasicBlock>,
}

/// A shape whose sequences are each in a box.
#[derive(Drop)]
pub enum SplitShape {
    Fork {
        yes: Option<Held<Sequence>>,
        no: Option<Held<Sequence>>,
        convertible: bool,
    },
    Loop {
        post: bool,
        test: Held<Sequence>,
        body: Held<Sequence>,
        step: Option<Held<Sequence>>,
        eligible: bool,
    },
    Choose {
        dead: Vec<Part>,
        targets: Vec<u32>,
        other: Option<u32>,
        arms: Vec<Sequence>,
    },
    Land(LandId),
    Overlapped {
        point: Held<Point>,
        body: Held<Body<Untimed>>,
    },
}

/// The items, each in a box.
#[inline(never)]
pub fn held_items<T: Drop>(alloc: Global, items: Vec<T>) -> Result<Vec<Held<T>>, AllocError>
    ensures { IfOk result (λ boxes. map (λ b. b.value) boxes.items ≡ items.items) }
{
    let mut boxes = Vec::with_capacity(alloc, items.len())?;
    for item in items {
        boxes.push(Held::new(alloc, item)?)?;
    }
    Ok(boxes)
}

#[inline(never)]
pub fn split_sequence(alloc: Global, sequence: Held<Sequence>) -> Result<SplitSequence, AllocError>
    ensures first { IfOk result (λ split. split.first.value ≡ (out-Sequence sequence.value).first) }
    ensures rest { IfOk result (λ split. split.rest ≡ (out-Sequence sequence.value).rest) }
{
    let Sequence { first, rest } = sequence.into_inner();
    let first = Held::new(alloc, first)?;
    Ok(SplitSequence { first, rest })
}

#[inline(never)]
pub fn split_part(alloc: Global, part: Held<Part>) -> Result<SplitPart, AllocError>
    ensures shape { IfOk result (λ split. split.shape.value ≡ part.value.shape) }
    ensures after { IfOk result (λ split. split.after.value ≡ part.value.after) }
{
    let Part { shape, after } = part.into_inner();
    let shape = Held::new(alloc, shape)?;
    let after = Held::new(alloc, after)?;
    Ok(SplitPart { shape, after })
}

fn held_step(step: Option<Box<Sequence>>) -> Option<Held<Sequence>>
    ensures { result ≡ step }
{
    match step {
        Some(value) => Some(Held { value }),
        None => None,
    }
}

fn held_side(alloc: Global, side: Option<Sequence>) -> Result<Option<Held<Sequence>>, AllocError>
    ensures { IfOk result (λ boxed. side_from boxed ≡ side) }
{
    match side {
        Some(sequence) => Ok(Some(Held::new(alloc, sequence)?)),
        None => Ok(None),
    }
}

#[inline(never)]
pub fn split_shape(alloc: Global, shape: Held<Shape>) -> Result<SplitShape, AllocError>
    ensures { IfOk result (λ split. shape_from split ≡ shape.value) }
{
    match shape.into_inner() {
        Shape::Fork {
            yes,
            no,
            convertible,
        } => Ok(SplitShape::Fork {
            yes: held_side(alloc, yes)?,
            no: held_side(alloc, no)?,
            convertible,
        }),
        Shape::Loop {
            post,
            test,
            body,
            step,
            eligible,
        } => Ok(SplitShape::Loop {
            post,
            test: Held { value: test },
            body: Held { value: body },
            step: held_step(step),
            eligible,
        }),
        Shape::Choose {
            dead,
            targets,
            other,
            arms,
        } => Ok(SplitShape::Choose {
            dead,
            targets,
            other,
            arms,
        }),
        Shape::Land(number) => Ok(SplitShape::Land(number)),
        Shape::Overlapped { point, body } => Ok(SplitShape::Overlapped {
            point: Held::new(alloc, point)?,
            body: Held::new(alloc, body)?,
        }),
    }
}
