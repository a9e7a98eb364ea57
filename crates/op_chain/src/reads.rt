//! How often a node reads the result of each operation of its body: not at all, once, or more often. Called by fuse.
ghost use Rattle.std.specs.Prelude.{◌≡◌, IfOk, map, length, replicate};
ghost use Rattle.std.specs.Option.{option_to_list};
ghost use Rattle.ir_core.specs.Bodies.{op_of};
ghost use Rattle.ir_core.specs.Trees.{body_of};
ghost use Rattle.ir_layout.specs.Nodes.{end_of, node_of};
ghost use Rattle.op_chain.specs.Reads.{ops_operands, out_operands, body_operands, end_operands, node_operands};
ghost use Rattle.op_chain.specs.Views as view;

use hls_base::number::NodeId;
use ir_core::body::{Body, Op, Operand, Out, Source};
use ir_core::cfg::{End, Node};
use ir_core::stamp::Untimed;
use std::alloc::{AllocError, Global};

fn count(counts: &mut [u8], operand: Operand)
    ensures { counts.new ≡ view.counted_source counts.old operand.value }
{
    if let Source::Result(op) = operand.value {
        let index = op.0 as usize;
        if index < counts.len() {
            counts[index] = if counts[index] == 0 { 1 } else { 2 };
        }
    }
}

fn count_optional(counts: &mut [u8], operand: Option<Operand>)
    ensures { counts.new ≡ view.counted counts.old (option_to_list operand) }
{
    if let Some(operand) = operand {
        count(counts, operand);
    }
}

fn count_all(counts: &mut [u8], operands: &[Operand])
    ensures { counts.new ≡ view.counted counts.old operands.now }
{
    for operand in operands {
        count(counts, *operand);
    }
}

fn count_ops(counts: &mut [u8], ops: &[Op<Untimed>])
    ensures { counts.new ≡ view.counted counts.old (ops_operands (map op_of ops.now)) }
{
    for op in ops {
        count_all(counts, op.args.as_slice());
        count_optional(counts, op.guard);
    }
}

fn count_outs(counts: &mut [u8], outs: &[Out])
    ensures { counts.new ≡ view.counted counts.old (out_operands outs.now) }
{
    for out in outs {
        count(counts, out.value);
    }
}

fn count_cases(counts: &mut [u8], cases: &[(Operand, NodeId)])
    ensures { counts.new ≡ view.counted counts.old (map (λ c. c.0) cases.now) }
{
    for case in cases {
        count(counts, case.0);
    }
}

fn count_body(counts: &mut [u8], body: &Body<Untimed>)
    ensures { counts.new ≡ view.counted counts.old (body_operands (body_of body.now)) }
{
    count_ops(counts, body.ops.as_slice());
    count_outs(counts, body.outs.as_slice());
    count_optional(counts, body.test);
}

fn count_end(counts: &mut [u8], end: &End)
    ensures { counts.new ≡ view.counted counts.old (end_operands (end_of end.now)) }
{
    match end {
        End::Jump(_) => {}
        End::Branch { test, .. } => count(counts, *test),
        End::Choose { cases, .. } => count_cases(counts, cases.as_slice()),
        End::Return(value) => count_optional(counts, *value),
    }
}

fn count_node(counts: &mut [u8], node: &Node<Untimed>)
    ensures { counts.new ≡ view.counted counts.old (node_operands (node_of node.now)) }
{
    match node {
        Node::Plain(block) => {
            count_body(counts, &block.body);
            count_end(counts, &block.end);
        }
        Node::Looped(region) => count_body(counts, &region.body),
    }
}

/// How often the node reads the result of each of `count` operations; 2 means more than once.
pub fn reads_of(alloc: Global, count: usize, node: &Node<Untimed>) -> Result<Vec<u8>, AllocError>
    ensures count { IfOk result (λ counts. length counts.items ≡ count) }
    ensures reads { IfOk result (λ counts. view.ShowsReads counts.items (node_operands (node_of node.now))) }
{
    let mut counts = vec![in alloc; 0; count]?;
    count_node(&mut counts, node);
    Ok(counts)
}
