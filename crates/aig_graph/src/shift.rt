//! Shifts by a variable count.
ghost use Rattle.std.specs.Prelude.{◌≡◌, ◌+◌, ◌≤◌, ℕ, List, Bool, IfOk, length};
ghost use Rattle.std.specs.List.{All};
ghost use Rattle.aig_graph.specs.Graphs.{literal};
ghost use Rattle.aig_graph.specs.Making.{gates_of, IsSound, IsLiteral};
ghost use Rattle.aig_graph.specs.Words.{shifted, lowered, IsStep, Picks, ShiftsLeft, ShiftsRight};

use crate::builder::Builder;
use crate::select::pick_word;
use std::alloc::{AllocError, Global};

/// The word with so many zeros below it, cut to its length.
pub fn shifted_by(alloc: Global, xs: &[u32], count: usize) -> Result<Vec<u32>, AllocError>
    ensures { IfOk result (λ zs. zs.items ≡ shifted count xs.now) }
{
    let mut bits = Vec::with_capacity(alloc, xs.len())?;
    for i in 0..xs.len() {
        bits.push(if i < count { 0 } else { xs[i - count] })?;
    }
    Ok(bits)
}

/// The word shifted by so many places where the test holds.
fn raise_bit(
    alloc: Global,
    graph: &mut Builder,
    word: &[u32],
    test: u32,
    step: usize,
) -> Result<Vec<u32>, AllocError>
    requires sound { IsSound (gates_of graph.old) }
    requires word { All (IsLiteral (gates_of graph.old)) word.now }
    requires test { IsLiteral (gates_of graph.old) test }
    ensures { IfOk result (λ zs. Picks (gates_of graph.old) (gates_of graph.new) test (shifted step word.now) word.now (length word.now) zs.items) }
{
    let moved = shifted_by(alloc, word, step)?;
    let picked = pick_word(alloc, graph, test, moved.as_slice(), word)?;
    Ok(picked)
}

/// The number of places for the next bit of a count. No word is longer than 128 bits, so it stops there.
fn doubled(step: usize) -> usize
    ensures { (i : ℕ) → IsStep i step → IsStep (i + 1) result }
{
    if step < 128 { step * 2 } else { 128 }
}

/// A word shifted to the left by a count.
pub fn shift_left(
    alloc: Global,
    graph: &mut Builder,
    xs: &[u32],
    counts: &[u32],
) -> Result<Vec<u32>, AllocError>
    requires sound { IsSound (gates_of graph.old) }
    requires first { All (IsLiteral (gates_of graph.old)) xs.now }
    requires second { All (IsLiteral (gates_of graph.old)) counts.now }
    requires narrow { length xs.now ≤ 128 }
    ensures { IfOk result (λ zs. ShiftsLeft (gates_of graph.old) (gates_of graph.new) xs.now counts.now (length counts.now) zs.items) }
{
    let mut word = Vec::from_slice(alloc, xs)?;
    let mut step = 1;
    for i in 0..counts.len() {
        word = raise_bit(alloc, graph, word.as_slice(), counts[i], step)?;
        step = doubled(step);
    }
    Ok(word)
}

/// The word without its lowest bits, with as many zeros above it.
pub fn lowered_by(alloc: Global, xs: &[u32], count: usize) -> Result<Vec<u32>, AllocError>
    ensures { IfOk result (λ zs. zs.items ≡ lowered count xs.now) }
{
    let mut bits = Vec::with_capacity(alloc, xs.len())?;
    for i in 0..xs.len() {
        bits.push(if count < xs.len() - i {
            xs[i + count]
        } else {
            0
        })?;
    }
    Ok(bits)
}

/// The word shifted to the right by so many places where the test holds.
fn lower_bit(
    alloc: Global,
    graph: &mut Builder,
    word: &[u32],
    test: u32,
    step: usize,
) -> Result<Vec<u32>, AllocError>
    requires sound { IsSound (gates_of graph.old) }
    requires word { All (IsLiteral (gates_of graph.old)) word.now }
    requires test { IsLiteral (gates_of graph.old) test }
    ensures { IfOk result (λ zs. Picks (gates_of graph.old) (gates_of graph.new) test (lowered step word.now) word.now (length word.now) zs.items) }
{
    let moved = lowered_by(alloc, word, step)?;
    let picked = pick_word(alloc, graph, test, moved.as_slice(), word)?;
    Ok(picked)
}

/// A word shifted to the right by a count.
pub fn shift_right(
    alloc: Global,
    graph: &mut Builder,
    xs: &[u32],
    counts: &[u32],
) -> Result<Vec<u32>, AllocError>
    requires sound { IsSound (gates_of graph.old) }
    requires first { All (IsLiteral (gates_of graph.old)) xs.now }
    requires second { All (IsLiteral (gates_of graph.old)) counts.now }
    requires narrow { length xs.now ≤ 128 }
    ensures { IfOk result (λ zs. ShiftsRight (gates_of graph.old) (gates_of graph.new) xs.now counts.now (length counts.now) zs.items) }
{
    let mut word = Vec::from_slice(alloc, xs)?;
    let mut step = 1;
    for i in 0..counts.len() {
        word = lower_bit(alloc, graph, word.as_slice(), counts[i], step)?;
        step = doubled(step);
    }
    Ok(word)
}
