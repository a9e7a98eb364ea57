//! What operands hold, of variables and results that are given.
ghost use Rattle.std.specs.Prelude.{◌≡◌, ◌≤◌, ◌<◌, ℕ, map, take, length, get_or, slice_set};
ghost use Rattle.ir_core.specs.Bodies as bodies;
ghost use Rattle.ir_core.specs.TreeRuns as trees;
ghost use Rattle.ir_core.specs.FlatRuns as flat;
ghost use Rattle.flat_programs.specs.Memory.Filling.{filled};
ghost use Rattle.flat_programs.specs.Machine.Held.{holding, shown};

use hls_base::number::NodeId;
use ir_core::body::{Operand, Out, Source};
use ir_core::cfg::End;

/// Where control goes from a block.
#[derive(Clone, Copy)]
pub enum Target {
    Node(NodeId),
    End(Option<u64>),
}

pub fn word_at(words: &[u64], index: usize) -> u64
    ensures { result ≡ get_or words.now index 0 }
{
    if index < words.len() { words[index] } else { 0 }
}

pub fn set_word(words: &mut [u64], index: usize, word: u64)
    ensures { words.new ≡ slice_set words.old index word }
{
    if index < words.len() {
        words[index] = word;
    }
}

pub fn read(variables: &[u64], results: &[u64], source: Source) -> u64
    ensures { (memories : ℕ → ℕ → ℕ) →
        result ≡ bodies.word (holding variables.now memories) results.now source }
{
    match source {
        Source::Constant(word) => word,
        Source::Variable(variable) => word_at(variables, variable.0 as usize),
        Source::Result(op) => word_at(results, op.0 as usize),
    }
}

pub fn holds(variables: &[u64], results: &[u64], test: Operand) -> bool
    ensures { (memories : ℕ → ℕ → ℕ) →
        result ≡ trees.holds (holding variables.now memories) results.now test }
{
    let word = read(variables, results, test.value);
    word != 0
}

pub fn is_allowed(variables: &[u64], results: &[u64], guard: Option<Operand>) -> bool
    ensures { (memories : ℕ → ℕ → ℕ) →
        result ≡ bodies.is_allowed (holding variables.now memories) results.now guard }
{
    match guard {
        Some(guard) => holds(variables, results, guard),
        None => true,
    }
}

pub fn goes_round(variables: &[u64], results: &[u64], test: Option<Operand>) -> bool
    ensures { (memories : ℕ → ℕ → ℕ) →
        result ≡ trees.goes_round test (holding variables.now memories) results.now }
{
    match test {
        Some(test) => holds(variables, results, test),
        None => true,
    }
}

/// Puts what the operands hold at the front of a buffer.
pub fn read_all(variables: &[u64], results: &[u64], operands: &[Operand], into: &mut [u64])
    requires { length operands.now ≤ length into.old }
    ensures { (memories : ℕ → ℕ → ℕ) → take (length operands.now) into.new ≡
        map (bodies.operand (holding variables.now memories) results.now) operands.now }
{
    for (index, operand) in operands.iter().enumerate() {
        into[index] = read(variables, results, operand.value);
    }
}

/// Puts the values that variables take at the front of a buffer.
pub fn read_outs(variables: &[u64], results: &[u64], outs: &[Out], into: &mut [u64])
    requires { length outs.now ≤ length into.old }
    ensures { (memories : ℕ → ℕ → ℕ) → take (length outs.now) into.new ≡
        map (λ out. bodies.operand (holding variables.now memories) results.now out.value) outs.now }
{
    for (index, out) in outs.iter().enumerate() {
        into[index] = read(variables, results, out.value.value);
    }
}

/// The variables take these values, one after another.
pub fn set_outs(variables: &mut [u64], outs: &[Out], values: &[u64])
    requires { length outs.now ≤ length values.now }
    ensures { variables.new ≡
        filled (map (λ out. out.variable.0) outs.now) (take (length outs.now) values.now) variables.old }
{
    for (index, out) in outs.iter().enumerate() {
        set_word(variables, out.variable.0 as usize, values[index]);
    }
}

/// The node of the first case that holds, else the other one.
fn chosen(variables: &[u64], results: &[u64], cases: &[(Operand, NodeId)], other: NodeId) -> NodeId
    ensures { (memories : ℕ → ℕ → ℕ) →
        result.0 ≡ flat.chosen (holding variables.now memories) results.now cases.now other }
{
    for case in cases {
        if holds(variables, results, case.0) {
            return case.1;
        }
    }
    other
}

pub fn going(variables: &[u64], results: &[u64], end: &End) -> Target
    ensures { (memories : ℕ → ℕ → ℕ) →
        shown result ≡ flat.going end.now (holding variables.now memories) results.now }
{
    match end {
        End::Jump(node) => Target::Node(*node),
        End::Branch { test, yes, no } => {
            if holds(variables, results, *test) {
                Target::Node(*yes)
            } else {
                Target::Node(*no)
            }
        }
        End::Choose { cases, other } => Target::Node(chosen(variables, results, cases, *other)),
        End::Return(Some(value)) => Target::End(Some(read(variables, results, value.value))),
        End::Return(None) => Target::End(None),
    }
}
