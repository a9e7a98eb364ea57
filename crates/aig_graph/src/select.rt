//! Choices between words.
ghost use Rattle.std.specs.Prelude.{◌≡◌, ◌≤◌, ◌*◌, ◌^◌, ℕ, List, Bool, IfOk, length};
ghost use Rattle.std.specs.List.{All};
ghost use Rattle.aig_graph.specs.Graphs.{literal};
ghost use Rattle.aig_graph.specs.Making.{gates_of, IsSound, IsLiteral};
ghost use Rattle.aig_graph.specs.Words.{Picks, HasLength, Halves, Selects};

use crate::builder::Builder;
use crate::word::Word;
use std::alloc::{AllocError, Global};

/// The first word where the test holds, and else the second.
pub fn pick_word(
    alloc: Global,
    graph: &mut Builder,
    test: u32,
    xs: &[u32],
    ys: &[u32],
) -> Result<Vec<u32>, AllocError>
    requires same { length xs.now ≡ length ys.now }
    requires sound { IsSound (gates_of graph.old) }
    requires test { IsLiteral (gates_of graph.old) test }
    requires first { All (IsLiteral (gates_of graph.old)) xs.now }
    requires second { All (IsLiteral (gates_of graph.old)) ys.now }
    ensures { IfOk result (λ zs. Picks (gates_of graph.old) (gates_of graph.new) test xs.now ys.now (length xs.now) zs.items) }
{
    let mut bits = Vec::with_capacity(alloc, xs.len())?;
    for i in 0..xs.len() {
        let bit = graph.pick(test, xs[i], ys[i])?;
        bits.push(bit)?;
    }
    Ok(bits)
}

/// The words at odd places where the test holds, else those at even places.
fn halve(
    alloc: Global,
    graph: &mut Builder,
    test: u32,
    column: &[Word],
) -> Result<Vec<Word>, AllocError>
    requires sound { IsSound (gates_of graph.old) }
    requires test { IsLiteral (gates_of graph.old) test }
    requires column { All (All (IsLiteral (gates_of graph.old))) column.now }
    requires wide { (width : ℕ) × All (HasLength width) column.now }
    ensures { (n : ℕ) → (width : ℕ) → length column.now ≡ 2 * n → All (HasLength width) column.now → IfOk result (λ zs. Halves (gates_of graph.old) (gates_of graph.new) test column.now width n zs.items) }
{
    let half = column.len() / 2;
    let mut words = Vec::with_capacity(alloc, half)?;
    for i in 0..half {
        let odd = column[2 * i + 1].literals();
        let even = column[2 * i].literals();
        let word = pick_word(alloc, graph, test, odd, even)?;
        words.push(Word::new(word))?;
    }
    Ok(words)
}

/// The word of a column that is at an address.
pub fn select(
    alloc: Global,
    graph: &mut Builder,
    column: &[Word],
    address: &[u32],
) -> Result<Vec<u32>, AllocError>
    requires some { 1 ≤ length address.now }
    requires count { length column.now ≡ 2 ^ length address.now }
    requires sound { IsSound (gates_of graph.old) }
    requires column { All (All (IsLiteral (gates_of graph.old))) column.now }
    requires wide { (width : ℕ) × All (HasLength width) column.now }
    requires address { All (IsLiteral (gates_of graph.old)) address.now }
    ensures { (width : ℕ) → All (HasLength width) column.now → IfOk result (λ ls. Selects (gates_of graph.old) (gates_of graph.new) column.now address.now width ls.items) }
{
    let mut left = halve(alloc, graph, address[0], column)?;
    for i in 1..address.len() {
        left = halve(alloc, graph, address[i], left.as_slice())?;
    }
    let word = Vec::from_slice(alloc, left[0].literals())?;
    Ok(word)
}
