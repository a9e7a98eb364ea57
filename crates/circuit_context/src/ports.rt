//! The ports of accesses. The loads of a table that start together have a port each, and the first store of a cycle to a memory has port 0.
ghost use Rattle.std.specs.Prelude.{◌≡◌, ◌<◌, ◌^◌, [], map, length, ℕ, Some, IfOk, OnOk, slice_get};
ghost use Rattle.std.specs.List.{All};
ghost use Rattle.hls_base.specs.declared.number.ArrayId.{ArrayId};
ghost use Rattle.clock_ir.specs.Flows.{TimedOp};
ghost use Rattle.reg_binding.specs.declared.registers.Registers.{Registers};
ghost use Rattle.datapath.specs.Plans.{Plan, body_at};
ghost use Rattle.datapath.specs.Ports.{port_of as plan_port};
ghost use Rattle.circuit_context.specs.Bank.Banks.{IsPlanOf};
ghost use Rattle.circuit_context.specs.Numbers.{ArePorts, HasPlaces, IsAccess, places_of};
ghost use Rattle.circuit_context.specs.Counting.{ops_in, ports_from, reached, reached_in, reached_by, row_in, span_of, tables_in, AreNumbered, Reaches};

use crate::loads::{accessed, port_of};
use crate::stores::stores_of;
use datapath::plan_sizes::sizes::span;
use hls_base::number::NodeId;
use hls_base::refusal::impossible;
use indexmap::IndexMap;
use ir_core::body::Op;
use ir_core::cfg::{Cfg, Memory, Node};
use ir_core::timed::Timed;
use std::alloc::{AllocError, Global};

/// The port of each operation that is an access, by node and operation, and how many ports each array has, at least one.
#[derive(Drop)]
pub struct PortNumbers {
    pub numbers: Vec<Vec<u32>>,
    pub counts: Vec<u32>,
}

fn ops_of(node: &Node<Timed>) -> &[Op<Timed>]
    ensures { result.now ≡ ops_in node.now }
{
    match node {
        Node::Plain(block) => &block.body.ops,
        Node::Looped(region) => &region.body.ops,
    }
}

/// The ports of the operations of a node.
fn row_of(
    alloc: Global,
    memories: &[Memory],
    ops: &[Op<Timed>],
    span: u64,
) -> Result<Vec<u32>, AllocError>
    requires span { 0 < span }
    requires few { length ops.now < 2 ^ 32 }
    ensures { IfOk result (λ row. row.items ≡ ports_from (tables_in memories.now) span ops.now [] ops.now) }
{
    let stores = stores_of(alloc, ops, span)?;
    let mut loads = IndexMap::new(alloc);
    let mut row = Vec::with_capacity(alloc, ops.len())?;
    for op in ops {
        row.push(port_of(memories, &mut loads, &stores, op, span)?)?;
    }
    Ok(row)
}

/// The array has at least as many ports as this access and its unit ask for.
fn reach(counts: &mut Vec<u32>, op: &Op<Timed>, port: u32) -> Result<(), AllocError>
    ensures { OnOk result (Reaches counts.old.items counts.new.items (λ a n. reached a n op.now port)) }
{
    let Some(array) = accessed(op) else {
        return Ok(());
    };
    let number = array.0 as usize;
    let Some(least) = port.max(op.stamp.bound).checked_add(1) else {
        return Err(impossible());
    };
    if number < counts.len() {
        counts[number] = counts[number].max(least);
    }
    Ok(())
}

fn reach_all(counts: &mut Vec<u32>, ops: &[Op<Timed>], row: &[u32]) -> Result<(), AllocError>
    requires { length row.now ≡ length ops.now }
    ensures { OnOk result (Reaches counts.old.items counts.new.items (λ a n. reached_in a n ops.now row.now)) }
{
    for (number, op) in ops.iter().enumerate() {
        reach(counts, op, row[number])?;
    }
    Ok(())
}

fn ports_in(
    alloc: Global,
    memories: &[Memory],
    nodes: &[Node<Timed>],
) -> Result<PortNumbers, AllocError>
    requires { All (λ n. length (ops_in n) < 2 ^ 32) nodes.now }
    ensures { IfOk result (AreNumbered memories.now nodes.now) }
{
    let mut counts = vec![in alloc; 1u32; memories.len()]?;
    let mut numbers = Vec::with_capacity(alloc, nodes.len())?;
    for node in nodes {
        let row = row_of(alloc, memories, ops_of(node), span(node))?;
        reach_all(&mut counts, ops_of(node), &row)?;
        numbers.push(row)?;
    }
    Ok(PortNumbers { numbers, counts })
}

/// The ports of a program's accesses.
pub fn ports_of(alloc: Global, cfg: &Cfg<Timed>) -> Result<PortNumbers, AllocError>
    requires { All (λ n. length (ops_in n) < 2 ^ 32) cfg.now.nodes.items }
    ensures ports { (p : Plan) (registers : Registers) → IsPlanOf p cfg.now registers → IfOk result (λ ports. ArePorts p ports) }
    ensures places { IfOk result (HasPlaces cfg.now.nodes.items cfg.now.frame.memories.items) }
{
    ports_in(alloc, &cfg.frame.memories, &cfg.nodes)
}

impl PortNumbers {
    /// The port of an operation.
    pub fn port(&self, node: NodeId, number: usize) -> u32
        requires { number < places_of self.now node.0 }
        ensures { (p : Plan) (it : TimedOp) (array : ArrayId) → ArePorts p self.now → slice_get (body_at p node.0).ops number ≡ Some it → IsAccess it.op.kind → it.op.array ≡ Some array
            → result ≡ plan_port p array.0 (record { node = node.0; number = number; op = it }) }
    {
        let ports = &self.numbers[node.0 as usize];
        ports[number]
    }
}
