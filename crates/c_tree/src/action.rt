ghost use Rattle.std.specs.Prelude.{◌≡◌};
ghost use Rattle.c_tree.specs.Tree as tree;
ghost use Rattle.c_tree.specs.View.{tree_of, target_of, action_of};

use crate::expression::{Expr, Target};
use crate::operator::Binary;
use hls_base::place::Place;

/// An expression whose value is not used, C11 6.8.3.
#[derive(Drop)]
pub enum Action {
    Assign {
        target: Target,
        op: Option<Binary>,
        value: Expr,
        at: Place,
    },
    Bump {
        target: Target,
        up: bool,
        at: Place,
    },
    Value(Expr),
}

impl Action {
    /// `target = value`, or with an operator as in `target += value`.
    pub fn assign(target: Target, op: Option<Binary>, value: Expr, at: Place) -> Action
        ensures { action_of result ≡ tree.assignment (target_of target) op (tree_of value) at }
    {
        Action::Assign {
            target,
            op,
            value,
            at,
        }
    }

    /// `++` or `--`, before or behind the target.
    pub fn bump(target: Target, up: bool, at: Place) -> Action
        ensures { action_of result ≡ tree.bumping (target_of target) up at }
    {
        Action::Bump { target, up, at }
    }

    pub fn value(value: Expr) -> Action
        ensures { action_of result ≡ tree.evaluation (tree_of value) }
    {
        Action::Value(value)
    }
}
