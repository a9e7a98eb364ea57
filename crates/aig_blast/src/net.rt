//! The words of the expressions of wires.
ghost use Rattle.std.specs.Prelude.{◌≡◌, ◌≤◌, ◌<◌, ◌+◌, ◌^◌, ◌==◌, ◌++◌, take, drop, if◌then◌else◌, ℕ, List, Bool, IfOk, length};
ghost use Rattle.std.specs.List.{All};
ghost use Rattle.aig_graph.specs.Making.{gates_of, IsSound, IsLiteral};
ghost use Rattle.aig_graph.specs.Words.{Computes, HasLength, worded, IsNegation};
ghost use Rattle.aig_blast.specs.Literals.{CanMake, literals_of, net_shown};

use crate::literals::{Literals, atom_word};
use crate::pair::pair_word;
use aig_graph::builder::Builder;
use aig_graph::constant::negated;
use aig_graph::select::{pick_word, select};
use rtl_core::design::{Atom, Net, Pair, Wire};
use std::alloc::{AllocError, Global};

/// The word for a test that is 1, or for another.
pub fn pick(
    alloc: Global,
    graph: &mut Builder,
    test: &[u32],
    xs: &[u32],
    ys: &[u32],
) -> Result<Vec<u32>, AllocError>
    requires test { length test.now ≡ 1 }
    requires same { length xs.now ≡ length ys.now }
    requires sound { IsSound (gates_of graph.old) }
    requires tests { All (IsLiteral (gates_of graph.old)) test.now }
    requires first { All (IsLiteral (gates_of graph.old)) xs.now }
    requires second { All (IsLiteral (gates_of graph.old)) ys.now }
    ensures { IfOk result (λ ls. Computes (gates_of graph.old) (gates_of graph.new) ls.items (length xs.now) (λ w. if worded w test.now == 1 then worded w xs.now else worded w ys.now)) }
{
    let picked = pick_word(alloc, graph, test[0], xs, ys)?;
    Ok(picked)
}

/// Two words one after the other.
fn join(alloc: Global, high: &[u32], low: &[u32]) -> Result<Vec<u32>, AllocError>
    ensures { IfOk result (λ ls. ls.items ≡ low.now ++ high.now) }
{
    let mut word = Vec::from_slice(alloc, low)?;
    word.extend_from_slice(high)?;
    Ok(word)
}

/// The literals from `low` to `high`.
fn part(alloc: Global, xs: &[u32], high: usize, low: usize) -> Result<Vec<u32>, AllocError>
    requires order { low ≤ high }
    requires inside { high < length xs.now }
    ensures { IfOk result (λ ls. ls.items ≡ drop low (take (high + 1) xs.now)) }
{
    Vec::from_slice(alloc, &xs[low..high + 1])
}

/// The word of a choice between two atoms.
fn pick_of(
    alloc: Global,
    graph: &mut Builder,
    literals: &Literals,
    test: Atom,
    of: (Atom, Atom),
) -> Result<Vec<u32>, AllocError>
    requires { (n : ℕ) × CanMake (gates_of graph.old) literals.now n (Net.Pick test of.0 of.1) }
    ensures { (n : ℕ) → CanMake (gates_of graph.old) literals.now n (Net.Pick test of.0 of.1)
        → IfOk result (λ ls. Computes (gates_of graph.old) (gates_of graph.new) ls.items n (λ w. net_shown literals.now w n (Net.Pick test of.0 of.1))) }
{
    let test = atom_word(alloc, literals, test)?;
    let first = atom_word(alloc, literals, of.0)?;
    let second = atom_word(alloc, literals, of.1)?;
    let picked = pick(
        alloc,
        graph,
        test.as_slice(),
        first.as_slice(),
        second.as_slice(),
    )?;
    Ok(picked)
}

/// The word of an operator on two atoms.
fn pair_of(
    alloc: Global,
    graph: &mut Builder,
    literals: &Literals,
    op: Pair,
    of: (Atom, Atom),
) -> Result<Vec<u32>, AllocError>
    requires { (n : ℕ) × CanMake (gates_of graph.old) literals.now n (Net.Two op of.0 of.1) }
    ensures { (n : ℕ) → CanMake (gates_of graph.old) literals.now n (Net.Two op of.0 of.1)
        → IfOk result (λ ls. Computes (gates_of graph.old) (gates_of graph.new) ls.items n (λ w. net_shown literals.now w n (Net.Two op of.0 of.1))) }
{
    let first = atom_word(alloc, literals, of.0)?;
    let second = atom_word(alloc, literals, of.1)?;
    let word = pair_word(alloc, graph, op, first.as_slice(), second.as_slice())?;
    Ok(word)
}

/// The word of a memory at an address.
fn memory_word(
    alloc: Global,
    graph: &mut Builder,
    literals: &Literals,
    mem: u32,
    addr: Atom,
) -> Result<Vec<u32>, AllocError>
    requires { (n : ℕ) × CanMake (gates_of graph.old) literals.now n (Net.Word mem addr) }
    ensures { (n : ℕ) → CanMake (gates_of graph.old) literals.now n (Net.Word mem addr)
        → IfOk result (λ ls. Computes (gates_of graph.old) (gates_of graph.new) ls.items n (λ w. net_shown literals.now w n (Net.Word mem addr))) }
{
    let address = atom_word(alloc, literals, addr)?;
    let words = literals.mems[mem as usize].words();
    let word = select(alloc, graph, words, address.as_slice())?;
    Ok(word)
}

fn inverse(alloc: Global, literals: &Literals, of: Atom) -> Result<Vec<u32>, AllocError>
    ensures { IfOk result (λ ls. IsNegation (literals_of literals.now of) (length (literals_of literals.now of)) ls.items) }
{
    let word = atom_word(alloc, literals, of)?;
    let inverse = negated(alloc, word.as_slice())?;
    Ok(inverse)
}

fn join_of(
    alloc: Global,
    literals: &Literals,
    high: Atom,
    low: Atom,
) -> Result<Vec<u32>, AllocError>
    ensures { IfOk result (λ ls. ls.items ≡ literals_of literals.now low ++ literals_of literals.now high) }
{
    let upper = atom_word(alloc, literals, high)?;
    let lower = atom_word(alloc, literals, low)?;
    let word = join(alloc, upper.as_slice(), lower.as_slice())?;
    Ok(word)
}

fn part_of(
    alloc: Global,
    literals: &Literals,
    of: Atom,
    high: u8,
    low: u8,
) -> Result<Vec<u32>, AllocError>
    requires order { low ≤ high }
    requires inside { high < length (literals_of literals.now of) }
    ensures { IfOk result (λ ls. ls.items ≡ drop low (take (high + 1) (literals_of literals.now of))) }
{
    let word = atom_word(alloc, literals, of)?;
    let field = part(alloc, word.as_slice(), usize::from(high), usize::from(low))?;
    Ok(field)
}

/// The word of a wire.
pub fn wire_word(
    alloc: Global,
    graph: &mut Builder,
    literals: &Literals,
    wire: Wire,
) -> Result<Vec<u32>, AllocError>
    requires { CanMake (gates_of graph.old) literals.now wire.bits wire.net }
    ensures { IfOk result (λ ls. Computes (gates_of graph.old) (gates_of graph.new) ls.items wire.bits (λ w. net_shown literals.now w wire.bits wire.net)) }
{
    match wire.net {
        Net::Copy(a) => atom_word(alloc, literals, a),
        Net::Not(a) => inverse(alloc, literals, a),
        Net::Two(op, a, b) => pair_of(alloc, graph, literals, op, (a, b)),
        Net::Pick(test, a, b) => pick_of(alloc, graph, literals, test, (a, b)),
        Net::Join(high, low) => join_of(alloc, literals, high, low),
        Net::Part { of, high, low } => part_of(alloc, literals, of, high, low),
        Net::Word { mem, addr } => memory_word(alloc, graph, literals, mem, addr),
    }
}
