//! Where control goes behind blocks and loops.
ghost use Rattle.std.specs.Prelude.{◌≡◌, ◌==◌, slice_get};
ghost use Rattle.std.specs.List.{list_all, list_any, count_by};
ghost use Rattle.hls_base.specs.Tallies as tallies;
ghost use Rattle.program_validity.specs.Targets as spec;

use hls_base::number::NodeId;
use hls_base::place::Place;
use hls_base::point::{Point, PointKind};
use ir_core::body::Operand;
use ir_core::cfg::{Cfg, End, Loop, Node};
use ir_core::stamp::Stamp;

fn some_case_leads_to(node: NodeId, cases: &[(Operand, NodeId)]) -> bool
    ensures { result ≡ list_any (λ c. c.1.0 == node.0) cases.now }
{
    for case in cases {
        if case.1.0 == node.0 {
            return true;
        }
    }
    false
}

fn end_leads_to(node: NodeId, end: &End) -> bool
    ensures { result ≡ spec.end_leads_to node end.now }
{
    match end {
        End::Jump(next) => next.0 == node.0,
        End::Branch { yes, no, .. } => yes.0 == node.0 || no.0 == node.0,
        End::Choose { cases, other } => other.0 == node.0 || some_case_leads_to(node, cases),
        End::Return(_) => false,
    }
}

fn leads_to<S: Stamp>(node: NodeId, from: &Node<S>) -> bool
    ensures { result ≡ spec.leads_to node from.now }
{
    match from {
        Node::Plain(block) => end_leads_to(node, &block.end),
        Node::Looped(region) => region.next.0 == node.0,
    }
}

/// How many nodes lead to one.
fn count_leading<S: Stamp>(node: NodeId, nodes: &[Node<S>]) -> usize
    ensures { result ≡ count_by (spec.leads_to node) nodes.now }
{
    let mut count = 0;
    for from in nodes {
        if leads_to(node, from) {
            count += 1;
        }
    }
    count
}

fn is_same_place(one: Place, other: Place) -> bool
    ensures { result ≡ tallies.same_place one other }
{
    one.line == other.line && one.column == other.column && one.part == other.part
}

fn is_same_path(one: &[Place], other: &[Place]) -> bool
    ensures { result ≡ tallies.same_path one.now other.now }
{
    one == other
}

/// Whether a point is the End of what another one is in.
fn is_end_of(point: &Point, inside: &Point) -> bool
    ensures { result ≡ spec.is_end_of point.now inside.now }
{
    matches!(point.kind, PointKind::End)
        && is_same_place(point.at, inside.at)
        && is_same_path(point.path.items(), inside.path.items())
}

fn is_block_at_end_of<S: Stamp>(inside: &Point, nodes: &[Node<S>], next: NodeId) -> bool
    ensures { result ≡ spec.is_block_at_end_of inside.now (slice_get nodes.now next.0) }
{
    let index = next.0 as usize;
    if index >= nodes.len() {
        return false;
    }
    match &nodes[index] {
        Node::Plain(block) => is_end_of(&block.point, inside),
        Node::Looped(_) => false,
    }
}

/// Whether the block at its End, and no other way, leads on from a loop. All nodes are gone through for each loop: without memory there is no shorter way, and overlapped loops are few.
fn is_left<S: Stamp>(cfg: &Cfg<S>, region: &Loop<S>) -> bool
    ensures { result ≡ spec.is_left cfg.now region.now }
{
    is_block_at_end_of(&region.point, &cfg.nodes, region.next)
        && cfg.first.0 != region.next.0
        && count_leading(region.next, &cfg.nodes) == 1
}

/// Whether control goes on behind loops at their Ends.
pub fn are_left<S: Stamp>(cfg: &Cfg<S>) -> bool
    ensures { result ≡ list_all (spec.is_left_if cfg.now) cfg.now.nodes.items }
{
    for node in &cfg.nodes {
        if let Node::Looped(region) = node {
            if !is_left(cfg, region) {
                return false;
            }
        }
    }
    true
}
