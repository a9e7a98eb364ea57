//! All blocks of a program.
ghost use Rattle.std.specs.Prelude.{◌≡◌, ◌++◌, ◌+◌, ◌∷◌, [], ℕ, List, length, map, IfOk, OnOk};
ghost use Rattle.std.specs.Option.{option_map};
ghost use Rattle.ir_core.specs.Trees.{sequence_of, part_of, shape_of, block_of, part_row, side_of, arm_row, body_of};
ghost use Rattle.ir_core.specs.Points.{points_of, part_points, shape_points, block_point, joined, where_there};
ghost use Rattle.ir_layout.specs.Boxes.{block_from};
ghost use Rattle.ir_layout.specs.Nodes.{node_point, node_of, looped};
ghost use Rattle.ir_layout.specs.Sizes.{parts_size};
ghost use Rattle.ir_layout.specs.Layout.{Landing, behind_shape, ahead_of, with_land, lands_in, laid, laid_parts, laid_shape, laid_side, laid_arms, laid_out, onto};
ghost use Rattle.ir_layout.specs.Listing.{IsSized, ArePartsSized, IsShapeSized, IsSideSized, AreArmsSized};
ghost use Rattle.ir_layout.specs.WellFormed.{IsWellFormed};
ghost use Rattle.ir_layout.specs.Views.{number, stacked, around_of, ahead_view, laid_behind, after_first, block_node};

use crate::boxes::{
    Held, SplitPart, SplitSequence, SplitShape, held_items, split_part, split_sequence, split_shape,
};
use crate::counts::{behind_parts, behind_sequence, behind_shape, plus, sizes_of};
use crate::fits::check_tree;
use crate::flat::Flat;
use crate::ways::{Around, Ways, loop_starts, ways_into};
use hls_base::number::NodeId;
use hls_base::point::Point;
use ir_core::body::Body;
use ir_core::cfg::Cfg;
use ir_core::stamp::Untimed;
use ir_core::tree::{BasicBlock, BlockTree, Part, Sequence, Shape};
use std::alloc::{AllocError, Global};

/// A block, which is not there before shapes that nothing leads to, and the parts behind it.
#[derive(Drop)]
struct Row {
    first: Option<Held<BasicBlock>>,
    parts: Vec<Part>,
}

/// The nodes of a tree in its order, without times.
pub fn lay_out(alloc: Global, tree: BlockTree) -> Result<Cfg<Untimed>, AllocError>
    ensures frame { IfOk result (λ cfg. cfg.frame ≡ tree.frame) }
    ensures points { IfOk result (λ cfg. map node_point cfg.nodes.items ≡ points_of tree.blocks) }
    ensures nodes { IfOk result (λ cfg. map node_of cfg.nodes.items ≡ laid_out (sequence_of tree.blocks) tree.result) }
    ensures first { IfOk result (λ cfg. number cfg.first ≡ 0) }
    ensures fits { IfOk result (λ cfg. IsWellFormed (sequence_of tree.blocks)) }
{
    let BlockTree {
        frame,
        blocks,
        result,
    } = tree;
    check_tree(alloc, &blocks)?;
    let mut flat = Flat::new(alloc);
    let around = Around {
        leave: None,
        again: None,
        returned: result,
    };
    let sizes = sizes_of(alloc, &blocks)?;
    let blocks = Held::new(alloc, blocks)?;
    lay_sequence(&mut flat, &sizes, blocks, Ways::Return, around)?;
    Ok(Cfg {
        frame,
        nodes: flat.finish(),
        first: NodeId(0),
    })
}

#[inline(never)]
#[tactic(auto, using(ir_core::proofs::Joining::joining))]
#[cycle(sequence)]
fn lay_sequence(
    flat: &mut Flat,
    sizes: &[u32],
    sequence: Held<Sequence>,
    ways: Ways,
    around: Around,
) -> Result<(), AllocError>
    requires sized { IsSized sizes.now (length flat.now.nodes.items) (sequence_of sequence.value) }
    ensures points { OnOk result (map node_point flat.new.nodes.items ≡ map node_point flat.old.nodes.items ++ points_of sequence.value) }
    ensures nodes { OnOk result (map node_of flat.new.nodes.items ≡ map node_of flat.old.nodes.items ++ laid (around_of around (stacked flat.old.lands.items)) (ahead_view ways) (length flat.old.nodes.items) (sequence_of sequence.value)) }
    ensures lands { OnOk result (stacked flat.new.lands.items ≡ stacked flat.old.lands.items) }
{
    let SplitSequence { first, rest } = split_sequence(flat.alloc(), sequence)?;
    flat.note_lands(sizes, plus(flat.place()?, 1)?, &rest)?;
    let row = Row {
        first: Some(first),
        parts: rest,
    };
    lay_parts(flat, sizes, row, &ways, around)
}

#[inline(never)]
fn lay_last(
    flat: &mut Flat,
    block: Option<Held<BasicBlock>>,
    ways: &Ways,
    around: Around,
) -> Result<(), AllocError>
    ensures points { OnOk result (map node_point flat.new.nodes.items ≡ map node_point flat.old.nodes.items ++ block_point (block_from block)) }
    ensures nodes { OnOk result (map node_of flat.new.nodes.items ≡ map node_of flat.old.nodes.items ++ block_node (around_of around (stacked flat.old.lands.items)) (ahead_view ways.now) (option_map block_of (block_from block))) }
    ensures place { OnOk result (length flat.new.nodes.items ≡ after_first (length flat.old.nodes.items) (option_map block_of (block_from block))) }
    ensures lands { flat.new.lands ≡ flat.old.lands }
{
    match block {
        Some(block) => flat.add_block(block.into_inner(), ways, around),
        None => Ok(()),
    }
}

/// A block that leads to a shape, which control has then come to.
#[inline(never)]
fn lay_before(
    flat: &mut Flat,
    sizes: &[u32],
    block: Option<Held<BasicBlock>>,
    shape: &Shape,
    around: Around,
) -> Result<(), AllocError>
    requires sized { IsShapeSized sizes.now (after_first (length flat.now.nodes.items) (option_map block_of (block_from block))) (shape_of shape.now) }
    ensures points { OnOk result (map node_point flat.new.nodes.items ≡ map node_point flat.old.nodes.items ++ block_point (block_from block)) }
    ensures nodes { OnOk result (map node_of flat.new.nodes.items ≡ map node_of flat.old.nodes.items ++ block_node (around_of around (stacked flat.old.lands.items)) (ahead_of (after_first (length flat.old.nodes.items) (option_map block_of (block_from block))) (shape_of shape.now)) (option_map block_of (block_from block))) }
    ensures place { OnOk result (length flat.new.nodes.items ≡ after_first (length flat.old.nodes.items) (option_map block_of (block_from block))) }
    ensures lands { (place : ℕ) (lands : List Landing) → stacked flat.old.lands.items ≡ with_land place (shape_of shape.now) lands → OnOk result (stacked flat.new.lands.items ≡ lands) }
{
    let base = place_behind(flat, &block)?;
    let behind = behind_shape(sizes, base, shape)?;
    let ways = ways_into(flat.alloc(), sizes, shape, base, behind)?;
    lay_last(flat, block, &ways, around)?;
    flat.come_to(shape);
    Ok(())
}

/// Where the next node will stand behind a block, if there is one.
fn place_behind(flat: &Flat, block: &Option<Held<BasicBlock>>) -> Result<u32, AllocError>
    ensures { IfOk result (λ place. place ≡ after_first (length flat.now.nodes.items) (option_map block_of (block_from block.now))) }
{
    match block {
        Some(_) => plus(flat.place()?, 1),
        None => flat.place(),
    }
}

/// The nodes of a row, whose places have been noted.
#[inline(never)]
#[tactic(auto, using(ir_core::proofs::Joining::joining))]
#[cycle(sequence)]
fn lay_parts(
    flat: &mut Flat,
    sizes: &[u32],
    row: Row,
    ways: &Ways,
    around: Around,
) -> Result<(), AllocError>
    requires sized { ArePartsSized sizes.now (after_first (length flat.now.nodes.items) (option_map block_of (block_from row.first))) (part_row (map part_of row.parts.items)) }
    ensures points { OnOk result (map node_point flat.new.nodes.items ≡ map node_point flat.old.nodes.items ++ (block_point (block_from row.first) ++ joined (map part_points row.parts.items))) }
    ensures nodes { (lands : List Landing) → stacked flat.old.lands.items ≡ lands_in (after_first (length flat.old.nodes.items) (option_map block_of (block_from row.first))) (part_row (map part_of row.parts.items)) lands →
        OnOk result (map node_of flat.new.nodes.items ≡ map node_of flat.old.nodes.items ++ laid_behind (around_of around lands) (ahead_view ways.now) (length flat.old.nodes.items) (option_map block_of (block_from row.first)) (part_row (map part_of row.parts.items))) }
    ensures lands { (lands : List Landing) → stacked flat.old.lands.items ≡ lands_in (after_first (length flat.old.nodes.items) (option_map block_of (block_from row.first))) (part_row (map part_of row.parts.items)) lands →
        OnOk result (stacked flat.new.lands.items ≡ lands) }
{
    let Row { first, parts } = row;
    let mut last = first;
    for part in held_items(flat.alloc(), parts)? {
        let SplitPart { shape, after } = split_part(flat.alloc(), part)?;
        let behind = behind_shape(sizes, place_behind(flat, &last)?, shape.as_ref())?;
        lay_before(flat, sizes, last, shape.as_ref(), around)?;
        lay_shape(flat, sizes, shape, NodeId(behind), around)?;
        last = Some(after);
    }
    lay_last(flat, last, ways, around)
}

#[inline(never)]
#[tactic(auto, using(ir_core::proofs::Joining::joining))]
#[cycle(sequence)]
fn lay_shape(
    flat: &mut Flat,
    sizes: &[u32],
    shape: Held<Shape>,
    after: NodeId,
    around: Around,
) -> Result<(), AllocError>
    requires sized { IsShapeSized sizes.now (length flat.now.nodes.items) (shape_of shape.value) }
    requires after { number after ≡ behind_shape (length flat.now.nodes.items) (shape_of shape.value) }
    ensures points { OnOk result (map node_point flat.new.nodes.items ≡ map node_point flat.old.nodes.items ++ shape_points shape.value) }
    ensures nodes { OnOk result (map node_of flat.new.nodes.items ≡ map node_of flat.old.nodes.items ++ laid_shape (around_of around (stacked flat.old.lands.items)) (length flat.old.nodes.items) (shape_of shape.value)) }
    ensures lands { OnOk result (stacked flat.new.lands.items ≡ stacked flat.old.lands.items) }
{
    match split_shape(flat.alloc(), shape)? {
        SplitShape::Fork { yes, no, .. } => {
            lay_side(flat, sizes, yes, after, around)?;
            lay_side(flat, sizes, no, after, around)
        }
        SplitShape::Loop {
            test,
            body,
            step,
            ..
        } => {
            let starts = loop_starts(sizes, flat.place()?, &step)?;
            let inner = Around {
                leave: Some(after),
                again: Some(starts.again),
                ..around
            };
            let ways = Ways::Test {
                yes: starts.body,
                no: after,
            };
            lay_sequence(flat, sizes, test, ways, inner)?;
            lay_sequence(flat, sizes, body, Ways::Node(starts.again), inner)?;
            lay_side(flat, sizes, step, starts.test, inner)
        }
        SplitShape::Choose { dead, arms, .. } => {
            let inner = Around {
                leave: Some(after),
                ..around
            };
            lay_dead(flat, sizes, dead, inner)?;
            lay_arms(flat, sizes, arms, inner)
        }
        SplitShape::Land(_) => Ok(()),
        SplitShape::Overlapped { point, body } => lay_loop(flat, point, body, after),
    }
}

#[inline(never)]
fn lay_loop(
    flat: &mut Flat,
    point: Held<Point>,
    body: Held<Body<Untimed>>,
    next: NodeId,
) -> Result<(), AllocError>
    ensures points { OnOk result (map node_point flat.new.nodes.items ≡ map node_point flat.old.nodes.items ++ point.value ∷ []) }
    ensures nodes { OnOk result (map node_of flat.new.nodes.items ≡ map node_of flat.old.nodes.items ++ looped point.value (body_of body.value) (number next) ∷ []) }
    ensures lands { flat.new.lands ≡ flat.old.lands }
{
    flat.add_loop(point.into_inner(), body.into_inner(), next)
}

#[cycle(sequence)]
fn lay_side(
    flat: &mut Flat,
    sizes: &[u32],
    side: Option<Held<Sequence>>,
    after: NodeId,
    around: Around,
) -> Result<(), AllocError>
    requires sized { IsSideSized sizes.now (length flat.now.nodes.items) (side_of (option_map (λ part. sequence_of part.value) side)) }
    ensures points { OnOk result (map node_point flat.new.nodes.items ≡ map node_point flat.old.nodes.items ++ where_there (option_map (λ part. points_of part.value) side)) }
    ensures nodes { OnOk result (map node_of flat.new.nodes.items ≡ map node_of flat.old.nodes.items ++ laid_side (around_of around (stacked flat.old.lands.items)) (number after) (length flat.old.nodes.items) (side_of (option_map (λ part. sequence_of part.value) side))) }
    ensures lands { OnOk result (stacked flat.new.lands.items ≡ stacked flat.old.lands.items) }
{
    match side {
        Some(sequence) => lay_sequence(flat, sizes, sequence, Ways::Node(after), around),
        None => Ok(()),
    }
}

/// What stands before the first arm of a switch, to which it leads.
#[inline(never)]
#[tactic(auto, using(ir_core::proofs::Joining::joining))]
#[cycle(sequence)]
fn lay_dead(
    flat: &mut Flat,
    sizes: &[u32],
    dead: Vec<Part>,
    around: Around,
) -> Result<(), AllocError>
    requires sized { ArePartsSized sizes.now (length flat.now.nodes.items) (part_row (map part_of dead.items)) }
    ensures points { OnOk result (map node_point flat.new.nodes.items ≡ map node_point flat.old.nodes.items ++ joined (map part_points dead.items)) }
    ensures nodes { OnOk result (map node_of flat.new.nodes.items ≡ map node_of flat.old.nodes.items ++ laid_parts (around_of around (stacked flat.old.lands.items)) (onto (length flat.old.nodes.items + parts_size (part_row (map part_of dead.items)))) (length flat.old.nodes.items) (part_row (map part_of dead.items))) }
    ensures lands { OnOk result (stacked flat.new.lands.items ≡ stacked flat.old.lands.items) }
{
    let place = flat.place()?;
    flat.note_lands(sizes, place, &dead)?;
    let behind = behind_parts(sizes, place, &dead)?;
    let row = Row {
        first: None,
        parts: dead,
    };
    lay_parts(flat, sizes, row, &Ways::Node(NodeId(behind)), around)
}

/// The arms of a switch, each of which leads to the next.
#[inline(never)]
#[tactic(auto, using(ir_core::proofs::Joining::joining))]
#[cycle(sequence)]
fn lay_arms(
    flat: &mut Flat,
    sizes: &[u32],
    arms: Vec<Sequence>,
    around: Around,
) -> Result<(), AllocError>
    requires sized { AreArmsSized sizes.now (length flat.now.nodes.items) (arm_row (map sequence_of arms.items)) }
    ensures points { OnOk result (map node_point flat.new.nodes.items ≡ map node_point flat.old.nodes.items ++ joined (map points_of arms.items)) }
    ensures nodes { OnOk result (map node_of flat.new.nodes.items ≡ map node_of flat.old.nodes.items ++ laid_arms (around_of around (stacked flat.old.lands.items)) (length flat.old.nodes.items) (arm_row (map sequence_of arms.items))) }
    ensures lands { OnOk result (stacked flat.new.lands.items ≡ stacked flat.old.lands.items) }
{
    for arm in held_items(flat.alloc(), arms)? {
        let behind = behind_sequence(sizes, flat.place()?)?;
        lay_sequence(flat, sizes, arm, Ways::Node(NodeId(behind)), around)?;
    }
    Ok(())
}
