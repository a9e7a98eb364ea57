//! Sums and differences.
ghost use Rattle.std.specs.Prelude.{◌≡◌, ◌+◌, ◌*◌, ◌%◌, ◌^◌, List, Bool, IfOk, length};
ghost use Rattle.std.specs.List.{All};
ghost use Rattle.aig_graph.specs.Graphs.{literal};
ghost use Rattle.aig_graph.specs.Making.{gates_of, IsSound, IsLiteral};
ghost use Rattle.aig_graph.specs.Words.{AddsBit, Sums, Subtracts, Computes, worded};

use crate::builder::Builder;
use crate::constant::negated;
use std::alloc::{AllocError, Global};

/// A sum of bits, and what is carried on.
#[derive(Clone, Copy)]
pub struct BitSum {
    pub bit: u32,
    pub carry: u32,
}

fn add_bit(graph: &mut Builder, x: u32, y: u32, carry: u32) -> Result<BitSum, AllocError>
    ensures { IsSound (gates_of graph.old) → IsLiteral (gates_of graph.old) x → IsLiteral (gates_of graph.old) y → IsLiteral (gates_of graph.old) carry
        → IfOk result (λ s. AddsBit (gates_of graph.old) (gates_of graph.new) x y carry s.bit s.carry) }
{
    let either = graph.xor(x, y)?;
    let bit = graph.xor(either, carry)?;
    let both = graph.and(x, y)?;
    let through = graph.and(either, carry)?;
    let carry = graph.or(both, through)?;
    Ok(BitSum { bit, carry })
}

/// A sum of words, and what is carried on.
#[derive(Drop)]
pub struct Carried {
    pub bits: Vec<u32>,
    pub carry: u32,
}

/// The sum of two words and a bit.
pub fn sum(
    alloc: Global,
    graph: &mut Builder,
    xs: &[u32],
    ys: &[u32],
    carry: u32,
) -> Result<Carried, AllocError>
    requires same { length xs.now ≡ length ys.now }
    requires sound { IsSound (gates_of graph.old) }
    requires first { All (IsLiteral (gates_of graph.old)) xs.now }
    requires second { All (IsLiteral (gates_of graph.old)) ys.now }
    requires carry { IsLiteral (gates_of graph.old) carry }
    ensures { IfOk result (λ s. Sums (gates_of graph.old) (gates_of graph.new) xs.now ys.now carry s.carry (length xs.now) s.bits.items) }
{
    let mut bits = Vec::with_capacity(alloc, xs.len())?;
    let mut carried = carry;
    for i in 0..xs.len() {
        let added = add_bit(graph, xs[i], ys[i], carried)?;
        bits.push(added.bit)?;
        carried = added.carry;
    }
    Ok(Carried {
        bits,
        carry: carried,
    })
}

/// The sum of two words, modulo 2 to the power of their length.
pub fn add(
    alloc: Global,
    graph: &mut Builder,
    xs: &[u32],
    ys: &[u32],
) -> Result<Vec<u32>, AllocError>
    requires same { length xs.now ≡ length ys.now }
    requires sound { IsSound (gates_of graph.old) }
    requires first { All (IsLiteral (gates_of graph.old)) xs.now }
    requires second { All (IsLiteral (gates_of graph.old)) ys.now }
    ensures { IfOk result (λ zs. Computes (gates_of graph.old) (gates_of graph.new) zs.items (length xs.now) (λ w. (worded w xs.now + worded w ys.now) % 2 ^ length xs.now)) }
{
    let total = sum(alloc, graph, xs, ys, 0)?;
    Ok(total.bits)
}

/// The difference of two words, modulo 2 to the power of their length. The carry is 1 exactly if the first one is not less.
pub fn subtract(
    alloc: Global,
    graph: &mut Builder,
    xs: &[u32],
    ys: &[u32],
) -> Result<Carried, AllocError>
    requires same { length xs.now ≡ length ys.now }
    requires sound { IsSound (gates_of graph.old) }
    requires first { All (IsLiteral (gates_of graph.old)) xs.now }
    requires second { All (IsLiteral (gates_of graph.old)) ys.now }
    ensures { IfOk result (λ s. Subtracts (gates_of graph.old) (gates_of graph.new) xs.now ys.now s.carry s.bits.items) }
{
    let inverse = negated(alloc, ys)?;
    let total = sum(alloc, graph, xs, inverse.as_slice(), 1)?;
    Ok(total)
}
