//! Whether a flat program is valid.
ghost use Rattle.std.specs.Prelude.{◌≡◌, length};
ghost use Rattle.std.specs.List.{list_all};
ghost use Rattle.program_validity.specs.Programs as spec;

use crate::bodies::{is_block_body, is_loop_body};
use crate::frames::{are_few, is_frame};
use crate::operands::is_operand;
use crate::targets::are_left;
use hls_base::number::NodeId;
use ir_core::body::{Op, Operand};
use ir_core::cfg::{Cfg, End, Frame, Node};
use ir_core::stamp::Stamp;

fn is_node(count: usize, node: NodeId) -> bool
    ensures { result ≡ spec.is_node count node }
{
    (node.0 as usize) < count
}

fn is_test<S: Stamp>(frame: &Frame, ops: &[Op<S>], test: Operand) -> bool
    ensures { result ≡ spec.is_test frame.now ops.now test }
{
    is_operand(&frame.variables, &[], ops, 1, test)
}

fn are_cases<S: Stamp>(
    frame: &Frame,
    ops: &[Op<S>],
    count: usize,
    cases: &[(Operand, NodeId)],
) -> bool
    ensures { result ≡ list_all (spec.is_case frame.now ops.now count) cases.now }
{
    for case in cases {
        if !is_test(frame, ops, case.0) || !is_node(count, case.1) {
            return false;
        }
    }
    true
}

fn is_returned<S: Stamp>(frame: &Frame, ops: &[Op<S>], value: Operand) -> bool
    ensures { result ≡ spec.is_returned frame.now ops.now value }
{
    frame.ret > 0 && is_operand(&frame.variables, &[], ops, frame.ret, value)
}

fn is_end<S: Stamp>(frame: &Frame, ops: &[Op<S>], count: usize, end: &End) -> bool
    ensures { result ≡ spec.is_end frame.now ops.now count end.now }
{
    match end {
        End::Jump(next) => is_node(count, *next),
        End::Branch { test, yes, no } => {
            is_test(frame, ops, *test) && is_node(count, *yes) && is_node(count, *no)
        }
        End::Choose { cases, other } => {
            are_cases(frame, ops, count, cases) && is_node(count, *other)
        }
        End::Return(None) => frame.ret == 0,
        End::Return(Some(value)) => is_returned(frame, ops, *value),
    }
}

fn is_valid_node<S: Stamp>(frame: &Frame, count: usize, node: &Node<S>) -> bool
    ensures { result ≡ spec.is_valid_node frame.now count node.now }
{
    match node {
        Node::Plain(block) => {
            is_block_body(frame, &block.body) && is_end(frame, &block.body.ops, count, &block.end)
        }
        Node::Looped(region) => is_loop_body(frame, &region.body) && is_node(count, region.next),
    }
}

fn are_nodes<S: Stamp>(cfg: &Cfg<S>) -> bool
    ensures { result ≡ spec.are_nodes cfg.now }
{
    for node in &cfg.nodes {
        if !is_valid_node(&cfg.frame, cfg.nodes.len(), node) {
            return false;
        }
    }
    true
}

/// Whether what a program names is there and widths agree, with times or without. Takes no memory.
pub fn consistent<S: Stamp>(cfg: &Cfg<S>) -> bool
    ensures { result ≡ spec.is_consistent cfg.now }
{
    are_few(cfg.nodes.len())
        && is_frame(&cfg.frame)
        && is_node(cfg.nodes.len(), cfg.first)
        && are_nodes(cfg)
}

/// Whether a program is valid, with times or without. Takes no memory.
pub fn valid<S: Stamp>(cfg: &Cfg<S>) -> bool
    ensures { result ≡ spec.is_valid cfg.now }
{
    consistent(cfg) && are_left(cfg)
}
