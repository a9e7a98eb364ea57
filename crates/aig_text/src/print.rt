//! Writes a graph as its text.

ghost use Rattle.std.specs.Prelude.{◌≡◌, ◌+◌, ◌*◌, ◌<◌, ◌≤◌, ◌^◌, ◌++◌, IfOk, OnOk, suc, length};
ghost use Rattle.aig_graph.specs.Graphs.{AndGraph, IsValid, graph_of, variable_count};
ghost use Rattle.aig_text.specs.GraphText as text;
ghost use Rattle.aig_text.specs.GraphText.{lines_from, number_text};
ghost use Rattle.aig_text.specs.TextForm.{IsText};

use aig_graph::aig::{Aig, Gate};
use hls_base::text::Text;
use itoa::Buffer;
use std::alloc::{AllocError, Global};

/// The text of a graph, without symbols and comment.
pub fn print(alloc: Global, graph: &Aig) -> Result<Text, AllocError>
    requires { IsValid (graph_of graph.now) }
    ensures text { IfOk result (λ t. t ≡ text.graph_text (graph_of graph.now)) }
    ensures related { IfOk result (λ t. IsText t (graph_of graph.now)) }
    ensures only { IfOk result (λ t. (other : AndGraph) → IsText t other → other ≡ graph_of graph.now) }
{
    let mut out = Vec::new(alloc);
    let latches = graph.latches.len() as u32;
    let before_gates = graph.inputs + latches;
    print_header(&mut out, graph)?;
    print_inputs(&mut out, graph.inputs)?;
    print_latches(&mut out, graph.inputs + 1, &graph.latches)?;
    print_outputs(&mut out, &graph.outputs)?;
    print_gates(&mut out, before_gates + 1, &graph.ands)?;
    Ok(Text::new(out))
}

/// Writes the number, and the byte behind it.
fn print_number(out: &mut Vec<u8>, n: u64, end: u8) -> Result<(), AllocError>
    ensures { OnOk result (out.new.items ≡ out.old.items ++ number_text end n) }
{
    out.extend_from_slice(Buffer::new().format(n).as_bytes())?;
    out.extend_from_slice(&[end])
}

fn print_header(out: &mut Vec<u8>, graph: &Aig) -> Result<(), AllocError>
    requires { variable_count (graph_of graph.now) ≤ 2147483647 }
    ensures { OnOk result (out.new.items ≡ out.old.items ++ text.graph_header (graph_of graph.now)) }
{
    let latches = graph.latches.len() as u64;
    let gates = graph.ands.len() as u64;
    let variables = u64::from(graph.inputs) + latches + gates;
    out.extend_from_slice(b"aag ")?;
    print_number(out, variables, b' ')?;
    print_number(out, u64::from(graph.inputs), b' ')?;
    print_number(out, latches, b' ')?;
    print_number(out, graph.outputs.len() as u64, b' ')?;
    print_number(out, gates, b'\n')
}

fn print_inputs(out: &mut Vec<u8>, count: u32) -> Result<(), AllocError>
    ensures { OnOk result (out.new.items ≡ out.old.items ++ text.input_lines 1 count) }
{
    for k in 0..count {
        print_number(out, 2 * (u64::from(k) + 1), b'\n')?;
    }
    Ok(())
}

/// Writes the lines of latches, of which the first is variable `first`.
fn print_latches(out: &mut Vec<u8>, first: u32, nexts: &[u32]) -> Result<(), AllocError>
    requires { first + length nexts.now ≤ 2 ^ 31 }
    ensures { OnOk result (out.new.items ≡ out.old.items ++ lines_from text.latch_line first nexts.now) }
{
    let mut k = first;
    for next in nexts {
        print_latch(out, k, *next)?;
        k += 1;
    }
    Ok(())
}

fn print_latch(out: &mut Vec<u8>, k: u32, next: u32) -> Result<(), AllocError>
    requires { k < 2 ^ 31 }
    ensures { OnOk result (out.new.items ≡ out.old.items ++ text.latch_line k next) }
{
    print_number(out, u64::from(2 * k), b' ')?;
    print_number(out, u64::from(next), b'\n')
}

fn print_outputs(out: &mut Vec<u8>, literals: &[u32]) -> Result<(), AllocError>
    ensures { OnOk result (out.new.items ≡ out.old.items ++ lines_from (λ k. text.output_line) 0 literals.now) }
{
    for literal in literals {
        print_number(out, u64::from(*literal), b'\n')?;
    }
    Ok(())
}

/// Writes the lines of gates, of which the first is variable `first`.
fn print_gates(out: &mut Vec<u8>, first: u32, gates: &[Gate]) -> Result<(), AllocError>
    requires { first + length gates.now ≤ 2 ^ 31 }
    ensures { OnOk result (out.new.items ≡ out.old.items ++ lines_from text.gate_line first gates.now) }
{
    let mut k = first;
    for gate in gates {
        print_gate(out, k, *gate)?;
        k += 1;
    }
    Ok(())
}

fn print_gate(out: &mut Vec<u8>, k: u32, gate: Gate) -> Result<(), AllocError>
    requires { k < 2 ^ 31 }
    ensures { OnOk result (out.new.items ≡ out.old.items ++ text.gate_line k gate) }
{
    print_number(out, u64::from(2 * k), b' ')?;
    print_number(out, u64::from(gate.left), b' ')?;
    print_number(out, u64::from(gate.right), b'\n')
}
