//! Fuses pairs of operations in every node of a flat program.
ghost use Rattle.std.specs.Prelude.{◌≡◌, ℕ, [], IfOk, length, map};
ghost use Rattle.ir_core.specs.Bodies.{op_of};
ghost use Rattle.ir_core.specs.Trees.{body_of};
ghost use Rattle.ir_layout.specs.Nodes.{case_of, end_of, node_of};
ghost use Rattle.op_chain.specs.Fusing as f;
ghost use Rattle.op_chain.specs.Pairs as p;
ghost use Rattle.op_chain.specs.Subscripts.{reaching, body_in};
ghost use Rattle.op_chain.specs.Views as view;

use crate::bodies::{Rebuilt, moved, moved_optional, moved_outs, rebuild};
use crate::choices::choose;
use crate::pairs::Scope;
use crate::reads::reads_of;
use crate::subscripts::{hand_body, reaching_variables};
use hls_base::number::NodeId;
use ir_core::body::{Body, Operand};
use ir_core::cfg::{Block, Cfg, End, Loop, Node};
use ir_core::stamp::Untimed;
use std::alloc::{AllocError, Global};

fn moved_cases(
    alloc: Global,
    now: &[usize],
    cases: &[(Operand, NodeId)],
) -> Result<Vec<(Operand, NodeId)>, AllocError>
    requires { view.IsCompact now.now }
    ensures { IfOk result (λ done. map case_of done.items ≡ map (f.moved_case now.now) (map case_of cases.now)) }
{
    let mut done = Vec::new(alloc);
    for case in cases {
        done.push((moved(now, case.0), case.1))?;
    }
    Ok(done)
}

fn moved_end(alloc: Global, now: &[usize], end: End) -> Result<End, AllocError>
    requires { view.IsCompact now.now }
    ensures { IfOk result (λ done. end_of done ≡ f.moved_end now.now (end_of end)) }
{
    match end {
        End::Jump(node) => Ok(End::Jump(node)),
        End::Branch { test, yes, no } => Ok(End::Branch {
            test: moved(now, test),
            yes,
            no,
        }),
        End::Choose { cases, other } => Ok(End::Choose {
            cases: moved_cases(alloc, now, cases.as_slice())?,
            other,
        }),
        End::Return(value) => Ok(End::Return(moved_optional(now, value))),
    }
}

fn body_with(
    alloc: Global,
    body: Body<Untimed>,
    rebuilt: Rebuilt,
) -> Result<(Body<Untimed>, Vec<usize>), AllocError>
    requires { view.IsCompact rebuilt.now.items }
    ensures body { IfOk result (λ done. body_of done.0 ≡ f.body_with (body_of body) (view.made_of rebuilt)) }
    ensures now { IfOk result (λ done. done.1.items ≡ rebuilt.now.items) }
{
    let Rebuilt { ops, now } = rebuilt;
    let outs = moved_outs(alloc, now.as_slice(), body.outs.as_slice())?;
    let test = moved_optional(now.as_slice(), body.test);
    Ok((Body { ops, outs, test }, now))
}

/// The new operations of the node's body.
fn rebuilt_in(
    alloc: Global,
    period: u32,
    reaching: &[bool],
    node: &Node<Untimed>,
    body: &Body<Untimed>,
) -> Result<Rebuilt, AllocError>
    requires { body_of body.now ≡ body_in (node_of node.now) }
    ensures compact { IfOk result (λ rebuilt. view.IsCompact rebuilt.now.items) }
    ensures made { IfOk result (λ rebuilt. view.made_of rebuilt ≡ f.made_in (p.scope_of period reaching.now (node_of node.now)) (body_in (node_of node.now))) }
{
    let reads = reads_of(alloc, body.ops.len(), node)?;
    let mut variables = Vec::new(alloc);
    let results = hand_body(alloc, reaching, &mut variables, body)?;
    let scope = Scope {
        period,
        reads: reads.as_slice(),
        reaching: results.as_slice(),
    };
    let choices = choose(alloc, scope, body.ops.as_slice())?;
    rebuild(alloc, body.ops.as_slice(), choices.as_slice())
}

fn rebuilt_node(
    alloc: Global,
    period: u32,
    reaching: &[bool],
    node: &Node<Untimed>,
) -> Result<Rebuilt, AllocError>
    ensures compact { IfOk result (λ rebuilt. view.IsCompact rebuilt.now.items) }
    ensures made { IfOk result (λ rebuilt. view.made_of rebuilt ≡ f.made_in (p.scope_of period reaching.now (node_of node.now)) (body_in (node_of node.now))) }
{
    match node {
        Node::Plain(block) => rebuilt_in(alloc, period, reaching, node, &block.body),
        Node::Looped(region) => rebuilt_in(alloc, period, reaching, node, &region.body),
    }
}

fn node_with(
    alloc: Global,
    node: Node<Untimed>,
    rebuilt: Rebuilt,
) -> Result<Node<Untimed>, AllocError>
    requires { view.IsCompact rebuilt.now.items }
    ensures { IfOk result (λ done. node_of done ≡ f.node_with (node_of node) (view.made_of rebuilt)) }
{
    match node {
        Node::Plain(block) => {
            let (body, now) = body_with(alloc, block.body, rebuilt)?;
            let end = moved_end(alloc, now.as_slice(), block.end)?;
            Ok(Node::Plain(Block {
                point: block.point,
                body,
                end,
                length: block.length,
            }))
        }
        Node::Looped(region) => {
            let (body, _) = body_with(alloc, region.body, rebuilt)?;
            Ok(Node::Looped(Loop { body, ..region }))
        }
    }
}

fn fuse_nodes(
    alloc: Global,
    nodes: Vec<Node<Untimed>>,
    period: u32,
    reaching: &[bool],
) -> Result<Vec<Node<Untimed>>, AllocError>
    ensures { IfOk result (λ done. map node_of done.items ≡ map (f.fused_node period reaching.now) (map node_of nodes.items)) }
{
    let mut done = Vec::new(alloc);
    for node in nodes {
        let rebuilt = rebuilt_node(alloc, period, reaching, &node)?;
        done.push(node_with(alloc, node, rebuilt)?)?;
    }
    Ok(done)
}

/// The program in which each fusable pair of operations is one operation. The period is in gate delays: 1 for a bitwise operator, the number of bits for a sum or difference.
pub fn fuse(alloc: Global, cfg: Cfg<Untimed>, period: u32) -> Result<Cfg<Untimed>, AllocError>
    ensures frame { IfOk result (λ done. done.frame ≡ cfg.frame) }
    ensures first { IfOk result (λ done. done.first ≡ cfg.first) }
    ensures nodes { IfOk result (λ done. map node_of done.nodes.items ≡ f.fused_nodes period (length cfg.frame.variables.items) (map node_of cfg.nodes.items)) }
{
    if period == 0 {
        return Ok(cfg);
    }
    let Cfg {
        frame,
        nodes,
        first,
    } = cfg;
    let reaching = reaching_variables(alloc, frame.variables.len(), nodes.as_slice())?;
    let nodes = fuse_nodes(alloc, nodes, period, reaching.as_slice())?;
    Ok(Cfg {
        frame,
        nodes,
        first,
    })
}
