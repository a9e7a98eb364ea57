//! A chain of assignments, C11 6.5.16.
ghost use Rattle.std.specs.Prelude.{◌≡◌, IfOk};
ghost use Rattle.c_tree.specs.View.{tree_of};
ghost use Rattle.c_parser.specs.Chains.{all_assigned};

use c_tree::expression::{Expr, Target};
use c_tree::operator::Binary;
use hls_base::place::Place;
use std::alloc::{AllocError, Global};

/// A target and its assignment operator, behind which its value stands.
#[derive(Drop)]
pub struct Assigned {
    pub target: Target,
    pub op: Option<Binary>,
    pub at: Place,
}

/// The value, assigned to the last target, and this to the one before it.
pub fn assign_all(alloc: Global, chain: Vec<Assigned>, value: Expr) -> Result<Expr, AllocError>
    ensures { IfOk result (λ e. tree_of e ≡ all_assigned chain.items (tree_of value)) }
{
    let mut chain = chain;
    let mut whole = value;
    while let Some(last) = chain.pop() {
        whole = Expr::assign(alloc, last.target, last.op, whole, last.at)?;
    }
    Ok(whole)
}
