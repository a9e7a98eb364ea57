//! Comparison of words.
ghost use Rattle.std.specs.Prelude.{◌≡◌, ◌==◌, nat_lt, List, Bool, IfOk, length};
ghost use Rattle.std.specs.List.{All};
ghost use Rattle.aig_graph.specs.Graphs.{literal};
ghost use Rattle.aig_graph.specs.Making.{gates_of, IsSound, IsLiteral, Makes};
ghost use Rattle.aig_graph.specs.Words.{IsEqualSoFar, worded};

use crate::builder::{Builder, not};
use crate::sum::subtract;
use std::alloc::{AllocError, Global};

/// Whether two words are equal.
pub fn equal(graph: &mut Builder, xs: &[u32], ys: &[u32]) -> Result<u32, AllocError>
    requires same { length xs.now ≡ length ys.now }
    requires sound { IsSound (gates_of graph.old) }
    requires first { All (IsLiteral (gates_of graph.old)) xs.now }
    requires second { All (IsLiteral (gates_of graph.old)) ys.now }
    ensures { IfOk result (λ l. IsEqualSoFar (gates_of graph.old) (gates_of graph.new) xs.now ys.now (length xs.now) l) }
{
    let mut all = 1;
    for i in 0..xs.len() {
        let differs = graph.xor(xs[i], ys[i])?;
        all = graph.and(all, not(differs))?;
    }
    Ok(all)
}

/// Whether the first word is the lesser one.
pub fn below(alloc: Global, graph: &mut Builder, xs: &[u32], ys: &[u32]) -> Result<u32, AllocError>
    requires same { length xs.now ≡ length ys.now }
    requires sound { IsSound (gates_of graph.old) }
    requires first { All (IsLiteral (gates_of graph.old)) xs.now }
    requires second { All (IsLiteral (gates_of graph.old)) ys.now }
    ensures { IfOk result (λ l. Makes (gates_of graph.old) (gates_of graph.new) l (λ w x. x ≡ nat_lt (worded w xs.now) (worded w ys.now))) }
{
    let difference = subtract(alloc, graph, xs, ys)?;
    Ok(not(difference.carry))
}
