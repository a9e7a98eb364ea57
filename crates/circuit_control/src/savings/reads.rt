//! What the nodes of a program read.
ghost use Rattle.std.specs.Prelude.{◌==◌, OnOk};
ghost use Rattle.std.specs.List.{list_any, flat_map};
ghost use Rattle.std.specs.Option.{option_to_list};
ghost use Rattle.reg_binding.specs.Liveness as spec;
ghost use Rattle.reg_binding.specs.Sets.{has, Gains};
ghost use Rattle.datapath.specs.LeftOut.{is_read_in};

use hls_base::number::{Kept, NodeId};
use ir_core::body::{Body, Op, Operand, Out, Source};
use ir_core::cfg::{End, Node};
use ir_core::timed::Timed;
use reg_binding::live::Live;
use reg_binding::var_set::VarSet;
use std::alloc::{AllocError, Global};

fn note(set: &mut VarSet, operand: Operand)
    ensures { Gains set.old set.new (λ n. spec.is_among n (spec.operand_reads operand)) }
{
    if let Source::Variable(variable) = operand.value {
        set.insert(variable);
    }
}

fn note_if(set: &mut VarSet, operand: Option<Operand>)
    ensures { Gains set.old set.new (λ n. spec.is_among n (flat_map spec.operand_reads (option_to_list operand))) }
{
    if let Some(operand) = operand {
        note(set, operand);
    }
}

fn note_operands(set: &mut VarSet, operands: &[Operand])
    ensures { Gains set.old set.new (λ n. list_any (λ x. spec.is_among n (spec.operand_reads x)) operands.now) }
{
    for operand in operands {
        note(set, *operand);
    }
}

fn note_op(set: &mut VarSet, op: &Op<Timed>)
    ensures { Gains set.old set.new (λ n. spec.is_among n (spec.op_reads op.now)) }
{
    note_if(set, op.guard);
    note_operands(set, op.args.as_slice());
}

fn note_ops(set: &mut VarSet, ops: &[Op<Timed>])
    ensures { Gains set.old set.new (λ n. list_any (λ op. spec.is_among n (spec.op_reads op)) ops.now) }
{
    for op in ops {
        note_op(set, op);
    }
}

/// What operations and the test of an iteration read.
fn note_body(set: &mut VarSet, body: &Body<Timed>)
    ensures { Gains set.old set.new (λ n. spec.is_among n (spec.body_reads body.now)) }
{
    note_ops(set, &body.ops);
    note_if(set, body.test);
}

/// All that goes into variables.
fn note_outs(set: &mut VarSet, outs: &[Out])
    ensures { Gains set.old set.new (λ n. list_any (λ out. spec.is_among n (spec.out_reads out)) outs.now) }
{
    for out in outs {
        note(set, out.value);
    }
}

fn note_cases(set: &mut VarSet, cases: &[(Operand, NodeId)])
    ensures { Gains set.old set.new (λ n. list_any (λ case. spec.is_among n (spec.case_reads case)) cases.now) }
{
    for case in cases {
        note(set, case.0);
    }
}

fn note_end(set: &mut VarSet, end: &End)
    ensures { Gains set.old set.new (λ n. spec.is_among n (spec.end_reads end.now)) }
{
    match end {
        End::Jump(_) => {}
        End::Branch { test, .. } => note(set, *test),
        End::Choose { cases, .. } => note_cases(set, cases),
        End::Return(value) => note_if(set, *value),
    }
}

/// What a node reads in any case. What goes into a variable of a loop may be read by a later iteration.
fn note_node(set: &mut VarSet, node: &Node<Timed>)
    ensures { Gains set.old set.new (λ n. spec.is_among n (spec.summary_of node.now).reads) }
{
    match node {
        Node::Plain(block) => {
            note_body(set, &block.body);
            note_end(set, &block.end);
        }
        Node::Looped(region) => {
            note_body(set, &region.body);
            note_outs(set, &region.body.outs);
        }
    }
}

fn note_out(set: &mut VarSet, out: &Out, behind: &VarSet)
    ensures { Gains set.old set.new (λ n. spec.goes_by (has behind.now) n out.now) }
{
    if behind.contains(out.variable) {
        note(set, out.value);
    }
}

/// What goes into variables that are live behind.
fn note_live_outs(set: &mut VarSet, outs: &[Out], behind: &VarSet)
    ensures { Gains set.old set.new (λ n. list_any (spec.goes_by (has behind.now) n) outs.now) }
{
    for out in outs {
        note_out(set, out, behind);
    }
}

/// What goes into variables of a block that are live behind it.
fn note_behind(set: &mut VarSet, node: &Node<Timed>, behind: &VarSet)
    ensures { Gains set.old set.new (λ n. list_any (spec.goes_by (has behind.now) n) (spec.summary_of node.now).outs) }
{
    if let Node::Plain(block) = node {
        note_live_outs(set, &block.body.outs, behind);
    }
}

fn note_reads(
    alloc: Global,
    live: &Live,
    set: &mut VarSet,
    node: &Node<Timed>,
) -> Result<(), AllocError>
    ensures { spec.IsSized live.now → OnOk result (Gains set.old set.new (λ n. is_read_in live.now n node.now)) }
{
    note_node(set, node);
    let behind = live.behind(alloc, node)?;
    note_behind(set, node, &behind);
    Ok(())
}

/// What some node reads.
pub fn note_nodes(
    alloc: Global,
    live: &Live,
    set: &mut VarSet,
    nodes: &[Node<Timed>],
) -> Result<(), AllocError>
    ensures { spec.IsSized live.now → OnOk result (Gains set.old set.new (λ n. list_any (is_read_in live.now n) nodes.now)) }
{
    for node in nodes {
        note_reads(alloc, live, set, node)?;
    }
    Ok(())
}

/// What stays for the next run.
pub fn note_kept(set: &mut VarSet, all: &[Kept])
    ensures { Gains set.old set.new (λ n. list_any (λ k. k.variable.0 == n) all.now) }
{
    for kept in all {
        set.insert(kept.variable);
    }
}
