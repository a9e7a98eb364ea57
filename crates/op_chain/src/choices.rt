//! Which operations of a body take in an earlier one. Called by fuse.
ghost use Rattle.std.specs.Prelude.{◌≡◌, ◌<◌, ◌≤◌, [], Some, IfOk, length, map, slice_get, ◌==◌};
ghost use Rattle.ir_core.specs.Bodies.{OpTree, op_of};
ghost use Rattle.op_chain.specs.Fusing as f;
ghost use Rattle.op_chain.specs.Pairs as p;
ghost use Rattle.op_chain.specs.Views as view;

use crate::pairs::{Scope, is_pair, simple_of};
use ir_core::body::{Op, Pairing, Simple, Source};
use ir_core::stamp::Untimed;
use std::alloc::{AllocError, Global};

/// The number of the operation that is taken in, and the two operators.
#[derive(Clone, Copy)]
pub struct Taking {
    pub op: usize,
    pub pairing: Pairing,
}

fn paired(op: usize, left: bool, first: Option<Simple>, second: Option<Simple>) -> Option<Taking>
    ensures { result ≡ f.paired op left first second }
{
    match (first, second) {
        (Some(first), Some(second)) => Some(Taking {
            op,
            pairing: Pairing {
                first,
                second,
                left,
            },
        }),
        _ => None,
    }
}

/// Operation v takes in operation u, with their operators.
fn operators(ops: &[Op<Untimed>], u: usize, v: usize, left: bool) -> Option<Taking>
    requires first { u < length ops.now }
    requires second { v < length ops.now }
    ensures { (one two : OpTree) → slice_get (map op_of ops.now) u ≡ Some one → slice_get (map op_of ops.now) v ≡ Some two → result ≡ f.paired u left (p.simple_of one.kind) (p.simple_of two.kind) }
{
    let first = simple_of(ops[u].kind);
    let second = simple_of(ops[v].kind);
    paired(u, left, first, second)
}

/// The next operation takes in the operation that the source names, if they are a fusable pair and that one took in none.
fn taking_by(
    scope: Scope<'_>,
    ops: &[Op<Untimed>],
    choices: &[Option<Taking>],
    left: bool,
    source: Source,
) -> Option<Taking>
    requires next { length choices.now < length ops.now }
    requires reads { length scope.reads.now ≡ length ops.now }
    requires marks { length scope.reaching.now ≡ length ops.now }
    ensures { (s : p.Scope) (two : OpTree) → view.ShowsScope scope.entry s (length ops.now) → slice_get (map op_of ops.now) (length choices.now) ≡ Some two →
        result ≡ f.taking_by s (map op_of ops.now) choices.now two left source }
{
    if let Source::Result(op) = source {
        let u = op.0 as usize;
        let v = choices.len();
        if u < v && choices[u].is_none() && is_pair(scope, ops, u, v) {
            return operators(ops, u, v, left);
        }
    }
    None
}

fn taking_through(
    scope: Scope<'_>,
    ops: &[Op<Untimed>],
    choices: &[Option<Taking>],
    place: usize,
) -> Option<Taking>
    requires next { length choices.now < length ops.now }
    requires reads { length scope.reads.now ≡ length ops.now }
    requires marks { length scope.reaching.now ≡ length ops.now }
    ensures { (s : p.Scope) (two : OpTree) → view.ShowsScope scope.entry s (length ops.now) → slice_get (map op_of ops.now) (length choices.now) ≡ Some two →
        result ≡ f.taking_through s (map op_of ops.now) choices.now two (place == 0) (slice_get two.args place) }
{
    let args = ops[choices.len()].args.as_slice();
    if place < args.len() {
        taking_by(scope, ops, choices, place == 0, args[place].value)
    } else {
        None
    }
}

fn choice(scope: Scope<'_>, ops: &[Op<Untimed>], choices: &[Option<Taking>]) -> Option<Taking>
    requires next { length choices.now < length ops.now }
    requires reads { length scope.reads.now ≡ length ops.now }
    requires marks { length scope.reaching.now ≡ length ops.now }
    ensures { (s : p.Scope) (two : OpTree) → view.ShowsScope scope.entry s (length ops.now) → slice_get (map op_of ops.now) (length choices.now) ≡ Some two →
        result ≡ f.choice s (map op_of ops.now) choices.now two }
{
    match taking_through(scope, ops, choices, 0) {
        Some(taking) => Some(taking),
        None => taking_through(scope, ops, choices, 1),
    }
}

/// For each operation of a body the one that it takes in.
pub fn choose(
    alloc: Global,
    scope: Scope<'_>,
    ops: &[Op<Untimed>],
) -> Result<Vec<Option<Taking>>, AllocError>
    requires reads { length scope.reads.now ≡ length ops.now }
    requires marks { length scope.reaching.now ≡ length ops.now }
    ensures count { IfOk result (λ choices. length choices.items ≡ length ops.now) }
    ensures choices { (s : p.Scope) → view.ShowsScope scope.entry s (length ops.now) → IfOk result (λ choices. choices.items ≡ f.chosen s (map op_of ops.now) [] (map op_of ops.now)) }
{
    let mut choices = Vec::new(alloc);
    for _op in ops {
        let choice = choice(scope, ops, choices.as_slice());
        choices.push(choice)?;
    }
    Ok(choices)
}
