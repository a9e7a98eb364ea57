//! Where control goes from a block.
ghost use Rattle.std.specs.Prelude.{◌≡◌, ◌+◌, map, get_or, IfOk};
ghost use Rattle.std.specs.Option.{option_map};
ghost use Rattle.ir_core.specs.Trees.{SequenceTree, sequence_of, shape_of, arm_row, side_of};
ghost use Rattle.ir_layout.specs.Layout.{side_start, body_start, step_start, ahead_of, behind_shape};
ghost use Rattle.ir_layout.specs.Listing.{IsSized, IsShapeSized, AreArmsSized};
ghost use Rattle.ir_layout.specs.Views.{number, arm_starts_from, other_in, ahead_view};

use crate::boxes::Held;
use crate::counts::{behind_parts, behind_sequence, behind_side};
use hls_base::number::{NodeId, VarId};
use ir_core::tree::{Sequence, Shape};
use std::alloc::{AllocError, Global};

/// Where control goes from the end of a block that has no jump: out of the program, to a node, by a test, or by the cases of a switch.
#[derive(Drop)]
pub enum Ways {
    Return,
    Node(NodeId),
    Test { yes: NodeId, no: NodeId },
    Cases { cases: Vec<NodeId>, other: NodeId },
}

/// Where jumps lead, and the variable of the result.
#[derive(Clone, Copy)]
pub struct Around {
    pub leave: Option<NodeId>,
    pub again: Option<NodeId>,
    pub returned: Option<VarId>,
}

/// The first nodes of the parts of a loop. `again` is where `Continue` leads.
#[derive(Clone, Copy)]
pub struct Starts {
    pub test: NodeId,
    pub body: NodeId,
    pub again: NodeId,
}

/// The parts of a loop whose first node is at this place.
pub fn loop_starts(
    sizes: &[u32],
    base: u32,
    step: &Option<Held<Sequence>>,
) -> Result<Starts, AllocError>
    ensures test { IfOk result (λ starts. number starts.test ≡ base) }
    ensures body { (test : SequenceTree) → IsSized sizes.now base test → IfOk result (λ starts. number starts.body ≡ body_start base test) }
    ensures again { (test body : SequenceTree) → IsSized sizes.now base test → IsSized sizes.now (body_start base test) body → IfOk result (λ starts. number starts.again ≡ step_start base test body (side_of (option_map (λ part. sequence_of part.value) step.now))) }
{
    let behind_test = behind_sequence(sizes, base)?;
    let behind_body = behind_sequence(sizes, behind_test)?;
    let again = match step {
        Some(_) => behind_body,
        None => base,
    };
    Ok(Starts {
        test: NodeId(base),
        body: NodeId(behind_test),
        again: NodeId(again),
    })
}

/// The first node of each arm, where the first arm begins at this place.
fn arm_starts(
    alloc: Global,
    sizes: &[u32],
    base: u32,
    arms: &[Sequence],
) -> Result<Vec<NodeId>, AllocError>
    requires { AreArmsSized sizes.now base (arm_row (map sequence_of arms.now)) }
    ensures { IfOk result (λ starts. map number starts.items ≡ arm_starts_from base (arm_row (map sequence_of arms.now))) }
{
    let mut starts = Vec::new(alloc);
    let mut place = base;
    for _ in arms {
        starts.push(NodeId(place))?;
        place = behind_sequence(sizes, place)?;
    }
    Ok(starts)
}

/// The arm of this number, or the node behind the switch.
fn arm_at(starts: &[NodeId], index: u32, after: NodeId) -> NodeId
    ensures { number result ≡ get_or (map number starts.now) index (number after) }
{
    let index = index as usize;
    if index < starts.len() {
        starts[index]
    } else {
        after
    }
}

fn case_nodes(
    alloc: Global,
    starts: &[NodeId],
    targets: &[u32],
    after: NodeId,
) -> Result<Vec<NodeId>, AllocError>
    ensures { IfOk result (λ nodes. map number nodes.items ≡ map (λ i. get_or (map number starts.now) i (number after)) targets.now) }
{
    let mut nodes = Vec::new(alloc);
    for target in targets {
        nodes.push(arm_at(starts, *target, after))?;
    }
    Ok(nodes)
}

fn other_node(starts: &[NodeId], other: &Option<u32>, after: NodeId) -> NodeId
    ensures { number result ≡ other_in (map number starts.now) (number after) other.now }
{
    match other {
        Some(arm) => arm_at(starts, *arm, after),
        None => after,
    }
}

/// The first node of a branch, or the node behind the fork.
fn side_node(side: &Option<Sequence>, base: u32, after: u32) -> NodeId
    ensures { number result ≡ side_start base after (side_of (option_map sequence_of side.now)) }
{
    match side {
        Some(_) => NodeId(base),
        None => NodeId(after),
    }
}

/// Where control goes from the block before a shape, whose first node is at this place, and behind which stands another one.
pub fn ways_into(
    alloc: Global,
    sizes: &[u32],
    shape: &Shape,
    base: u32,
    after: u32,
) -> Result<Ways, AllocError>
    requires after { after ≡ behind_shape base (shape_of shape.now) }
    requires sized { IsShapeSized sizes.now base (shape_of shape.now) }
    ensures { IfOk result (λ ways. ahead_view ways ≡ ahead_of base (shape_of shape.now)) }
{
    match shape {
        Shape::Fork { yes, no, .. } => Ok(Ways::Test {
            yes: side_node(yes, base, after),
            no: side_node(no, behind_side(sizes, base, yes)?, after),
        }),
        Shape::Loop { post, .. } => {
            let body = behind_sequence(sizes, base)?;
            Ok(Ways::Node(NodeId(if *post { body } else { base })))
        }
        Shape::Choose {
            dead,
            targets,
            other,
            arms,
        } => {
            let first = behind_parts(sizes, base, dead)?;
            let starts = arm_starts(alloc, sizes, first, arms)?;
            let cases = case_nodes(alloc, &starts, targets, NodeId(after))?;
            let other = other_node(&starts, other, NodeId(after));
            Ok(Ways::Cases { cases, other })
        }
        Shape::Land(_) => Ok(Ways::Node(NodeId(base))),
        Shape::Overlapped { .. } => Ok(Ways::Node(NodeId(base))),
    }
}
