//! The constraints of a loop, as edges.
ghost use Rattle.std.specs.Prelude.{◌≡◌, ◌<◌, ◌≤◌, ◌^◌, ◌++◌, IfOk, OnOk, length};
ghost use Rattle.std.specs.List.{All};
ghost use Rattle.dep_graph.specs.ForwardBodies.{IsEarlier};
ghost use Rattle.unit_binding.specs.Ranks.{IsOrderWithin};
ghost use Rattle.modulo_loop.specs.ForwardRules.{IsForwardLoop};
ghost use Rattle.modulo_loop.specs.Rules as spec;

use dep_graph::access::is_store;
use dep_graph::counter::result_of;
use dep_graph::edge::{Edge, Why};
use dep_graph::edges::test_maker;
use hls_base::number::OpId;
use ir_core::body::{Body, Op, Operand, Out, Source};
use ir_core::stamp::Untimed;
use ir_core::timing::latency;
use std::alloc::{AllocError, Global};
use unit_binding::binding::{Binding, UnitOrder};

/// The latency of an operation; 0 where there is none of this number.
pub fn latency_of(ops: &[Op<Untimed>], op: OpId) -> u32
    ensures value { result ≡ spec.latency_of ops.now op }
    ensures small { result ≤ 257 }
{
    let number = op.0 as usize;
    if number < ops.len() {
        let op = &ops[number];
        latency(op.kind, op.bits)
    } else {
        0
    }
}

/// The operation whose result a variable takes over.
fn maker(variable: u32, outs: &[Out]) -> Option<OpId>
    ensures { result ≡ spec.maker variable outs.now }
{
    for out in outs {
        if out.variable.0 == variable {
            if let Some(op) = result_of(out.value.value) {
                return Some(op);
            }
        }
    }
    None
}

/// The operation whose result must be known before the next iteration begins.
fn known_first(outs: &[Out], test: Option<Operand>) -> Option<OpId>
    ensures { result ≡ spec.known_first outs.now test }
{
    let Some(test) = test else {
        return None;
    };
    match test.value {
        Source::Constant(_) => None,
        Source::Variable(variable) => maker(variable.0, outs),
        Source::Result(op) => Some(op),
    }
}

/// Adds that a unit serves each of its operations after the one before.
fn add_next_rules(order: &UnitOrder, rules: &mut Vec<Edge>) -> Result<(), AllocError>
    requires { IsOrderWithin (2 ^ 25) order.now }
    ensures { OnOk result (rules.new.items ≡ rules.old.items ++ spec.next_rules order.now.occupancy order.now.ops.items) }
{
    for position in 1..order.ops.len() {
        rules.push(Edge {
            from: order.ops[position - 1] + 1,
            to: order.ops[position] + 1,
            latency: order.occupancy,
            distance: 0,
            why: Why::Unit,
        })?;
    }
    Ok(())
}

/// Adds that a unit serves the first operation of an iteration after the last of the one before.
fn add_again_rule(order: &UnitOrder, rules: &mut Vec<Edge>) -> Result<(), AllocError>
    requires { IsOrderWithin (2 ^ 25) order.now }
    ensures { OnOk result (rules.new.items ≡ rules.old.items ++ spec.again_rules order.now.occupancy order.now.ops.items) }
{
    if !order.ops.is_empty() {
        rules.push(Edge {
            from: order.ops[order.ops.len() - 1] + 1,
            to: order.ops[0] + 1,
            latency: order.occupancy,
            distance: 1,
            why: Why::Unit,
        })?;
    }
    Ok(())
}

/// Adds the orders of units.
fn add_unit_rules(orders: &[UnitOrder], rules: &mut Vec<Edge>) -> Result<(), AllocError>
    requires { All (IsOrderWithin (2 ^ 25)) orders.now }
    ensures { OnOk result (rules.new.items ≡ rules.old.items ++ spec.unit_rules orders.now) }
{
    for order in orders {
        add_next_rules(order, rules)?;
        add_again_rule(order, rules)?;
    }
    Ok(())
}

/// Adds that the test is known before the next iteration begins.
fn add_known_rule(
    ops: &[Op<Untimed>],
    known: Option<OpId>,
    rules: &mut Vec<Edge>,
) -> Result<(), AllocError>
    requires { IsEarlier (2 ^ 25) known }
    ensures { OnOk result (rules.new.items ≡ rules.old.items ++ spec.known_rules ops.now known) }
{
    if let Some(op) = known {
        rules.push(Edge {
            from: op.0 + 1,
            to: 0,
            latency: latency_of(ops, op),
            distance: 1,
            why: Why::Known,
        })?;
    }
    Ok(())
}

/// Adds that each store starts after the test.
fn add_store_rules(
    ops: &[Op<Untimed>],
    test: Option<OpId>,
    rules: &mut Vec<Edge>,
) -> Result<(), AllocError>
    requires few { length ops.now < 2 ^ 25 }
    requires test { IsEarlier (2 ^ 25) test }
    ensures { OnOk result (rules.new.items ≡ rules.old.items ++ spec.store_rules ops.now test) }
{
    let Some(test) = test else {
        return Ok(());
    };
    for (number, op) in ops.iter().enumerate() {
        if is_store(op.kind) {
            rules.push(Edge {
                from: test.0 + 1,
                to: number as u32 + 1,
                latency: latency_of(ops, test),
                distance: 0,
                why: Why::Control,
            })?;
        }
    }
    Ok(())
}

/// All constraints of a loop: the edges, the orders of the units, that the test is known, and that stores wait for it.
pub fn rules(
    alloc: Global,
    body: &Body<Untimed>,
    edges: &[Edge],
    binding: &Binding,
) -> Result<Vec<Edge>, AllocError>
    requires forward { IsForwardLoop body.now }
    requires orders { All (IsOrderWithin (2 ^ 25)) binding.now.orders.items }
    ensures { IfOk result (λ rules. rules.items ≡ spec.loop_rules body.now edges.now binding.now.orders.items) }
{
    let mut rules: Vec<Edge> = Vec::from_slice(alloc, edges)?;
    add_unit_rules(&binding.orders, &mut rules)?;
    add_known_rule(&body.ops, known_first(&body.outs, body.test), &mut rules)?;
    add_store_rules(&body.ops, test_maker(body.test), &mut rules)?;
    Ok(rules)
}
