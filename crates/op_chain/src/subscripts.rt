//! Which operations and variables reach a subscript. Called by fuse.
ghost use Rattle.std.specs.Prelude.{◌≡◌, ℕ, Bool, List, [], IfOk, OnOk, map, length, get_or, set, false, true};
ghost use Rattle.ir_core.specs.declared.body.Operand.{Operand};
ghost use Rattle.ir_core.specs.Bodies.{op_of};
ghost use Rattle.ir_core.specs.Trees.{body_of};
ghost use Rattle.ir_layout.specs.Nodes.{node_of};
ghost use Rattle.op_chain.specs.Subscripts as spec;
ghost use Rattle.op_chain.specs.Views as view;

use ir_core::body::{Body, Op, OpKind, Operand, Out, Source};
use ir_core::cfg::Node;
use ir_core::stamp::Untimed;
use std::alloc::{AllocError, Global};

fn mark_at(marks: &mut [bool], index: usize)
    ensures { marks.new ≡ set marks.old index true }
{
    if index < marks.len() {
        marks[index] = true;
    }
}

fn mark(results: &mut [bool], variables: &mut [bool], operand: Operand)
    ensures results { results.new ≡ view.marked_result results.old operand.value }
    ensures variables { variables.new ≡ view.marked_variable variables.old operand.value }
{
    match operand.value {
        Source::Result(op) => mark_at(results, op.0 as usize),
        Source::Variable(variable) => mark_at(variables, variable.0 as usize),
        Source::Constant(_) => {}
    }
}

fn mark_all(results: &mut [bool], variables: &mut [bool], operands: &[Operand])
    ensures results { results.new ≡ view.marked_results results.old operands.now }
    ensures variables { variables.new ≡ view.marked_variables variables.old operands.now }
{
    for operand in operands {
        mark(results, variables, *operand);
    }
}

/// All arguments of a load, and those of a store but the last.
fn subscripts(op: &Op<Untimed>) -> &[Operand]
    ensures { result.now ≡ spec.subscripts_of (op_of op.now) }
{
    let args = op.args.as_slice();
    match op.kind {
        OpKind::Load => args,
        OpKind::Store => &args[..args.len().saturating_sub(1)],
        _ => &args[..0],
    }
}

fn hand_op(results: &mut [bool], variables: &mut [bool], op: &Op<Untimed>, reaches: bool)
    ensures results { results.new ≡ view.marked_results results.old (spec.op_hands reaches (op_of op.now)) }
    ensures variables { variables.new ≡ view.marked_variables variables.old (spec.op_hands reaches (op_of op.now)) }
{
    if reaches {
        mark_all(results, variables, op.args.as_slice());
    } else {
        mark_all(results, variables, subscripts(op));
    }
}

fn hand_ops(results: &mut [bool], variables: &mut [bool], ops: &[Op<Untimed>])
    requires { length results.old ≡ length ops.now }
    ensures results { (behind : List Operand) → view.ShowsResults results.old behind → view.ShowsResults results.new (spec.handed 0 (map op_of ops.now) behind) }
    ensures variables { (behind : List Operand) (before : ℕ → Bool) → view.ShowsResults results.old behind → view.ShowsVariables variables.old before behind → view.ShowsVariables variables.new before (spec.handed 0 (map op_of ops.now) behind) }
{
    let mut left = ops.len();
    while left > 0 {
        left -= 1;
        let reaches = results[left];
        hand_op(results, variables, &ops[left], reaches);
    }
}

fn is_marked(marks: &[bool], index: usize) -> bool
    ensures { result ≡ get_or marks.now index false }
{
    index < marks.len() && marks[index]
}

fn hand_outs(results: &mut [bool], variables: &mut [bool], reaching: &[bool], outs: &[Out])
    ensures results { results.new ≡ view.marked_results results.old (spec.outs_hand reaching.now outs.now) }
    ensures variables { variables.new ≡ view.marked_variables variables.old (spec.outs_hand reaching.now outs.now) }
{
    for out in outs {
        if is_marked(reaching, out.variable.0 as usize) {
            mark(results, variables, out.value);
        }
    }
}

fn hand_all(results: &mut [bool], variables: &mut [bool], reaching: &[bool], body: &Body<Untimed>)
    requires { length results.old ≡ length body.now.ops.items }
    ensures results { view.ShowsResults results.old [] → view.ShowsResults results.new (spec.body_hands reaching.now (body_of body.now)) }
    ensures variables { (before : ℕ → Bool) → view.ShowsResults results.old [] → view.ShowsVariables variables.old before [] → view.ShowsVariables variables.new before (spec.body_hands reaching.now (body_of body.now)) }
{
    hand_outs(results, variables, reaching, body.outs.as_slice());
    hand_ops(results, variables, body.ops.as_slice());
}

/// For each operation of the body whether its result reaches a subscript, if the variables of `reaching` do. Marks the variables that reach one through this body.
pub fn hand_body(
    alloc: Global,
    reaching: &[bool],
    variables: &mut [bool],
    body: &Body<Untimed>,
) -> Result<Vec<bool>, AllocError>
    ensures count { IfOk result (λ results. length results.items ≡ length body.now.ops.items) }
    ensures results { IfOk result (λ results. view.ShowsResults results.items (spec.body_hands reaching.now (body_of body.now))) }
    ensures variables { OnOk result (view.ShowsVariables variables.new (λ v. get_or variables.old v false) (spec.body_hands reaching.now (body_of body.now))) }
{
    let mut results = vec![in alloc; false; body.ops.len()]?;
    hand_all(&mut results, variables, reaching, body);
    Ok(results)
}

fn hand_node(
    alloc: Global,
    reaching: &[bool],
    variables: &mut [bool],
    node: &Node<Untimed>,
) -> Result<Vec<bool>, AllocError>
    ensures variables { OnOk result (view.ShowsVariables variables.new (λ v. get_or variables.old v false) (spec.body_hands reaching.now (spec.body_in (node_of node.now)))) }
{
    match node {
        Node::Plain(block) => hand_body(alloc, reaching, variables, &block.body),
        Node::Looped(region) => hand_body(alloc, reaching, variables, &region.body),
    }
}

fn hand_nodes(
    alloc: Global,
    reaching: &[bool],
    variables: &mut [bool],
    nodes: &[Node<Untimed>],
) -> Result<(), AllocError>
    ensures { OnOk result (view.ShowsVariables variables.new (λ v. get_or variables.old v false) (spec.nodes_hand reaching.now (map node_of nodes.now))) }
{
    for node in nodes {
        let _results = hand_node(alloc, reaching, variables, node)?;
    }
    Ok(())
}

fn round(alloc: Global, reaching: &[bool], nodes: &[Node<Untimed>]) -> Result<Vec<bool>, AllocError>
    ensures { IfOk result (λ next. next.items ≡ spec.variables_among 0 (length reaching.now) (spec.nodes_hand reaching.now (map node_of nodes.now))) }
{
    let mut next = vec![in alloc; false; reaching.len()]?;
    hand_nodes(alloc, reaching, &mut next, nodes)?;
    Ok(next)
}

/// For each of `count` variables whether it reaches a subscript of the program. Stops at the first round that finds no further one.
pub fn reaching_variables(
    alloc: Global,
    count: usize,
    nodes: &[Node<Untimed>],
) -> Result<Vec<bool>, AllocError>
    ensures { IfOk result (λ reaching. reaching.items ≡ spec.reaching count (map node_of nodes.now)) }
{
    let mut reaching = vec![in alloc; false; count]?;
    for _round in 0..count {
        let next = round(alloc, reaching.as_slice(), nodes)?;
        if next.as_slice() == reaching.as_slice() {
            return Ok(reaching);
        }
        reaching = next;
    }
    Ok(reaching)
}
