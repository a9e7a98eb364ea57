//! Operators that act on each bit.
ghost use Rattle.std.specs.Prelude.{◌≡◌, List, Bool, IfOk, length};
ghost use Rattle.std.specs.List.{All};
ghost use Rattle.aig_graph.specs.Graphs.{literal};
ghost use Rattle.aig_graph.specs.Making.{gates_of, IsSound, IsLiteral, Makes};
ghost use Rattle.aig_graph.specs.Words.{bitwise_bit, bitwise_number, Computes, worded};

use crate::builder::Builder;
use std::alloc::{AllocError, Global};

/// An operator on two bits.
#[derive(Clone, Copy)]
pub enum BitOperator {
    And,
    Or,
    Xor,
}

fn bitwise_bit(graph: &mut Builder, op: BitOperator, x: u32, y: u32) -> Result<u32, AllocError>
    ensures { IsSound (gates_of graph.old) → IsLiteral (gates_of graph.old) x → IsLiteral (gates_of graph.old) y
        → IfOk result (λ l. Makes (gates_of graph.old) (gates_of graph.new) l (λ w b. b ≡ bitwise_bit op (literal w x) (literal w y))) }
{
    match op {
        BitOperator::And => graph.and(x, y),
        BitOperator::Or => graph.or(x, y),
        BitOperator::Xor => graph.xor(x, y),
    }
}

/// The operator on the bits of two words.
pub fn bitwise(
    alloc: Global,
    graph: &mut Builder,
    op: BitOperator,
    xs: &[u32],
    ys: &[u32],
) -> Result<Vec<u32>, AllocError>
    requires same { length xs.now ≡ length ys.now }
    requires sound { IsSound (gates_of graph.old) }
    requires first { All (IsLiteral (gates_of graph.old)) xs.now }
    requires second { All (IsLiteral (gates_of graph.old)) ys.now }
    ensures { IfOk result (λ zs. Computes (gates_of graph.old) (gates_of graph.new) zs.items (length xs.now) (λ w. bitwise_number op (worded w xs.now) (worded w ys.now))) }
{
    let mut bits = Vec::with_capacity(alloc, xs.len())?;
    for i in 0..xs.len() {
        let bit = bitwise_bit(graph, op, xs[i], ys[i])?;
        bits.push(bit)?;
    }
    Ok(bits)
}
