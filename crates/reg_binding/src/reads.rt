//! What a node reads and sets, and where it leads.
ghost use Rattle.std.specs.Prelude.{◌≡◌, ◌++◌, map, IfOk, OnOk};
ghost use Rattle.std.specs.List.{flat_map};
ghost use Rattle.reg_binding.specs.Liveness as spec;

use hls_base::number::{NodeId, VarId};
use ir_core::body::{Body, Op, Operand, Out, Source};
use ir_core::cfg::{End, Node};
use ir_core::stamp::Stamp;
use std::alloc::{AllocError, Global};

fn push_operand(operand: Operand, reads: &mut Vec<VarId>) -> Result<(), AllocError>
    ensures { OnOk result (reads.new.items ≡ reads.old.items ++ spec.operand_reads operand) }
{
    if let Source::Variable(variable) = operand.value {
        reads.push(variable)?;
    }
    Ok(())
}

fn push_operands(operands: &[Operand], reads: &mut Vec<VarId>) -> Result<(), AllocError>
    ensures { OnOk result (reads.new.items ≡ reads.old.items ++ flat_map spec.operand_reads operands.now) }
{
    for operand in operands {
        push_operand(*operand, reads)?;
    }
    Ok(())
}

fn push_op<S: Stamp>(op: &Op<S>, reads: &mut Vec<VarId>) -> Result<(), AllocError>
    ensures { OnOk result (reads.new.items ≡ reads.old.items ++ spec.op_reads op.now) }
{
    if let Some(guard) = op.guard {
        push_operand(guard, reads)?;
    }
    push_operands(op.args.as_slice(), reads)
}

fn push_ops<S: Stamp>(ops: &[Op<S>], reads: &mut Vec<VarId>) -> Result<(), AllocError>
    ensures { OnOk result (reads.new.items ≡ reads.old.items ++ flat_map spec.op_reads ops.now) }
{
    for op in ops {
        push_op(op, reads)?;
    }
    Ok(())
}

/// Adds what operations and the test of an iteration read.
fn push_body<S: Stamp>(body: &Body<S>, reads: &mut Vec<VarId>) -> Result<(), AllocError>
    ensures { OnOk result (reads.new.items ≡ reads.old.items ++ spec.body_reads body.now) }
{
    push_ops(&body.ops, reads)?;
    if let Some(test) = body.test {
        push_operand(test, reads)?;
    }
    Ok(())
}

/// Adds all that goes into variables.
fn push_outs(outs: &[Out], reads: &mut Vec<VarId>) -> Result<(), AllocError>
    ensures { OnOk result (reads.new.items ≡ reads.old.items ++ flat_map spec.out_reads outs.now) }
{
    for out in outs {
        push_operand(out.value, reads)?;
    }
    Ok(())
}

fn push_cases(cases: &[(Operand, NodeId)], reads: &mut Vec<VarId>) -> Result<(), AllocError>
    ensures { OnOk result (reads.new.items ≡ reads.old.items ++ flat_map spec.case_reads cases.now) }
{
    for case in cases {
        push_operand(case.0, reads)?;
    }
    Ok(())
}

fn push_end(end: &End, reads: &mut Vec<VarId>) -> Result<(), AllocError>
    ensures { OnOk result (reads.new.items ≡ reads.old.items ++ spec.end_reads end.now) }
{
    match end {
        End::Jump(_) | End::Return(None) => Ok(()),
        End::Branch { test, .. } => push_operand(*test, reads),
        End::Choose { cases, .. } => push_cases(cases, reads),
        End::Return(Some(value)) => push_operand(*value, reads),
    }
}

/// What a node reads in any case. What goes into a variable of a loop may be read by a later iteration.
pub fn reads_of<S: Stamp>(alloc: Global, node: &Node<S>) -> Result<Vec<VarId>, AllocError>
    ensures { IfOk result (λ reads. reads.items ≡ (spec.summary_of node.now).reads) }
{
    let mut reads = Vec::new(alloc);
    match node {
        Node::Plain(block) => {
            push_body(&block.body, &mut reads)?;
            push_end(&block.end, &mut reads)?;
        }
        Node::Looped(region) => {
            push_body(&region.body, &mut reads)?;
            push_outs(&region.body.outs, &mut reads)?;
        }
    }
    Ok(reads)
}

/// The variables that a node sets in any case, and what goes into them. A loop may end before it sets anything.
pub fn outs_of<S: Stamp>(node: &Node<S>) -> &[Out]
    ensures { result.now ≡ (spec.summary_of node.now).outs }
{
    match node {
        Node::Plain(block) => &block.body.outs,
        Node::Looped(_) => &[],
    }
}

fn push_nodes(cases: &[(Operand, NodeId)], nodes: &mut Vec<NodeId>) -> Result<(), AllocError>
    ensures { OnOk result (nodes.new.items ≡ nodes.old.items ++ map spec.case_node cases.now) }
{
    for case in cases {
        nodes.push(case.1)?;
    }
    Ok(())
}

fn push_next(end: &End, nodes: &mut Vec<NodeId>) -> Result<(), AllocError>
    ensures { OnOk result (nodes.new.items ≡ nodes.old.items ++ spec.next_nodes end.now) }
{
    match end {
        End::Jump(next) => nodes.push(*next)?,
        End::Branch { yes, no, .. } => {
            nodes.push(*yes)?;
            nodes.push(*no)?;
        }
        End::Choose { cases, other } => {
            push_nodes(cases, nodes)?;
            nodes.push(*other)?;
        }
        End::Return(_) => {}
    }
    Ok(())
}

/// The nodes to which a node leads.
pub fn next_of<S: Stamp>(alloc: Global, node: &Node<S>) -> Result<Vec<NodeId>, AllocError>
    ensures { IfOk result (λ nodes. nodes.items ≡ (spec.summary_of node.now).next) }
{
    let mut nodes = Vec::new(alloc);
    match node {
        Node::Plain(block) => push_next(&block.end, &mut nodes)?,
        Node::Looped(region) => nodes.push(region.next)?,
    }
    Ok(nodes)
}

/// Whether the run ends behind a node.
pub fn returns<S: Stamp>(node: &Node<S>) -> bool
    ensures { result ≡ (spec.summary_of node.now).returns }
{
    match node {
        Node::Plain(block) => matches!(block.end, End::Return(_)),
        Node::Looped(_) => false,
    }
}
