//! The words of operators on two words.
ghost use Rattle.std.specs.Prelude.{◌≡◌, ◌≤◌, ◌==◌, nat_lt, ℕ, List, Bool, [], ◌∷◌, IfOk, length};
ghost use Rattle.std.specs.List.{All};
ghost use Rattle.aig_graph.specs.Making.{gates_of, IsSound, IsLiteral};
ghost use Rattle.aig_graph.specs.Words.{Computes, HasLength, worded};
ghost use Rattle.rtl_core.specs.ClockStep.{bit_of, pair_value};
ghost use Rattle.rtl_core.specs.Valid.{OperandsFit};

use aig_graph::bitwise::{BitOperator, bitwise};
use aig_graph::builder::Builder;
use aig_graph::compare::{below, equal};
use aig_graph::product::multiply;
use aig_graph::shift::{shift_left, shift_right};
use aig_graph::sum::{add, subtract};
use rtl_core::design::Pair;
use std::alloc::{AllocError, Global};

fn difference(
    alloc: Global,
    graph: &mut Builder,
    xs: &[u32],
    ys: &[u32],
) -> Result<Vec<u32>, AllocError>
    requires same { length xs.now ≡ length ys.now }
    requires sound { IsSound (gates_of graph.old) }
    requires first { All (IsLiteral (gates_of graph.old)) xs.now }
    requires second { All (IsLiteral (gates_of graph.old)) ys.now }
    ensures { IfOk result (λ ls. Computes (gates_of graph.old) (gates_of graph.new) ls.items (length xs.now) (λ w. pair_value Pair.Sub (length xs.now) (worded w xs.now) (worded w ys.now))) }
{
    let difference = subtract(alloc, graph, xs, ys)?;
    Ok(difference.bits)
}

fn equality(
    alloc: Global,
    graph: &mut Builder,
    xs: &[u32],
    ys: &[u32],
) -> Result<Vec<u32>, AllocError>
    requires same { length xs.now ≡ length ys.now }
    requires sound { IsSound (gates_of graph.old) }
    requires first { All (IsLiteral (gates_of graph.old)) xs.now }
    requires second { All (IsLiteral (gates_of graph.old)) ys.now }
    ensures { IfOk result (λ ls. Computes (gates_of graph.old) (gates_of graph.new) ls.items 1 (λ w. bit_of (worded w xs.now == worded w ys.now))) }
{
    let bit = equal(graph, xs, ys)?;
    let word = vec![in alloc; bit]?;
    Ok(word)
}

fn order(alloc: Global, graph: &mut Builder, xs: &[u32], ys: &[u32]) -> Result<Vec<u32>, AllocError>
    requires same { length xs.now ≡ length ys.now }
    requires sound { IsSound (gates_of graph.old) }
    requires first { All (IsLiteral (gates_of graph.old)) xs.now }
    requires second { All (IsLiteral (gates_of graph.old)) ys.now }
    ensures { IfOk result (λ ls. Computes (gates_of graph.old) (gates_of graph.new) ls.items 1 (λ w. bit_of (nat_lt (worded w xs.now) (worded w ys.now)))) }
{
    let bit = below(alloc, graph, xs, ys)?;
    let word = vec![in alloc; bit]?;
    Ok(word)
}

/// The word of an operator on two words.
pub fn pair_word(
    alloc: Global,
    graph: &mut Builder,
    op: Pair,
    xs: &[u32],
    ys: &[u32],
) -> Result<Vec<u32>, AllocError>
    requires sound { IsSound (gates_of graph.old) }
    requires first { All (IsLiteral (gates_of graph.old)) xs.now }
    requires second { All (IsLiteral (gates_of graph.old)) ys.now }
    requires fits { (n : ℕ) × OperandsFit op n (λ m. HasLength m xs.now) (λ m. HasLength m ys.now) × (n ≤ 128) }
    ensures { (n : ℕ) → OperandsFit op n (λ m. HasLength m xs.now) (λ m. HasLength m ys.now)
        → IfOk result (λ ls. Computes (gates_of graph.old) (gates_of graph.new) ls.items n (λ w. pair_value op n (worded w xs.now) (worded w ys.now))) }
{
    match op {
        Pair::Add => add(alloc, graph, xs, ys),
        Pair::Sub => difference(alloc, graph, xs, ys),
        Pair::Mul => multiply(alloc, graph, xs, ys),
        Pair::And => bitwise(alloc, graph, BitOperator::And, xs, ys),
        Pair::Or => bitwise(alloc, graph, BitOperator::Or, xs, ys),
        Pair::Xor => bitwise(alloc, graph, BitOperator::Xor, xs, ys),
        Pair::Equal => equality(alloc, graph, xs, ys),
        Pair::Below => order(alloc, graph, xs, ys),
        Pair::Left => shift_left(alloc, graph, xs, ys),
        Pair::Right => shift_right(alloc, graph, xs, ys),
    }
}
