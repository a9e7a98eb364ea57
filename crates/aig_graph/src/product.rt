//! The product of two words.
ghost use Rattle.std.specs.Prelude.{◌≡◌, ◌+◌, ◌*◌, ◌%◌, ◌^◌, if◌then◌else◌, List, Bool, IfOk, length};
ghost use Rattle.std.specs.List.{All};
ghost use Rattle.aig_graph.specs.Graphs.{literal};
ghost use Rattle.aig_graph.specs.Making.{gates_of, IsSound, IsLiteral};
ghost use Rattle.aig_graph.specs.Words.{Computes, worded, Multiplies};

use crate::builder::Builder;
use crate::select::pick_word;
use crate::shift::shifted_by;
use crate::sum::add;
use std::alloc::{AllocError, Global};

/// The sum, with the row added to it where the test holds.
fn add_row(
    alloc: Global,
    graph: &mut Builder,
    sum: &[u32],
    row: &[u32],
    test: u32,
) -> Result<Vec<u32>, AllocError>
    requires same { length sum.now ≡ length row.now }
    requires sound { IsSound (gates_of graph.old) }
    requires first { All (IsLiteral (gates_of graph.old)) sum.now }
    requires second { All (IsLiteral (gates_of graph.old)) row.now }
    requires test { IsLiteral (gates_of graph.old) test }
    ensures { IfOk result (λ zs. Computes (gates_of graph.old) (gates_of graph.new) zs.items (length sum.now) (λ w. (worded w sum.now + (if literal w test then worded w row.now else 0)) % 2 ^ length sum.now)) }
{
    let zeros = vec![in alloc; 0; row.len()]?;
    let chosen = pick_word(alloc, graph, test, row, zeros.as_slice())?;
    let total = add(alloc, graph, sum, chosen.as_slice())?;
    Ok(total)
}

/// The product of two words, modulo 2 to the power of the length of the first.
pub fn multiply(
    alloc: Global,
    graph: &mut Builder,
    xs: &[u32],
    ys: &[u32],
) -> Result<Vec<u32>, AllocError>
    requires sound { IsSound (gates_of graph.old) }
    requires first { All (IsLiteral (gates_of graph.old)) xs.now }
    requires second { All (IsLiteral (gates_of graph.old)) ys.now }
    ensures { IfOk result (λ zs. Multiplies (gates_of graph.old) (gates_of graph.new) xs.now ys.now (length ys.now) zs.items) }
{
    let mut product = vec![in alloc; 0; xs.len()]?;
    for i in 0..ys.len() {
        let row = shifted_by(alloc, xs, i)?;
        product = add_row(alloc, graph, product.as_slice(), row.as_slice(), ys[i])?;
    }
    Ok(product)
}
