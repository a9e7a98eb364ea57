//! Binary operators each of which is the left operand of the next. They are gone through without recursion, which would be as deep as the row is long.
ghost use Rattle.std.specs.Prelude.{◌≡◌, ◌≤◌, min};
ghost use Rattle.c_tree.specs.View.{tree_of};
ghost use Rattle.c_tree.specs.declared.expression.Expr.{size-Expr};
ghost use Rattle.c_value.specs.Chains.{operators, left_at};

use c_tree::expression::Expr;

/// How many operators stand in a row, up to 256. A source has no more outside of parentheses.
pub fn chain_length(e: &Expr) -> u16
    ensures { result ≡ min (operators (tree_of e.now)) 256 }
{
    let mut length = 0;
    let mut part = e;
    'chain: while length < 256 {
        match part {
            Expr::Binary { left, .. } => {
                length += 1;
                part = left;
            }
            _ => return length,
        }
    }
    length
}

/// What is left of so many operators.
pub fn part_at(e: &Expr, depth: u16) -> &Expr
    ensures tree { tree_of result.now ≡ left_at depth (tree_of e.now) }
    ensures size { size-Expr result.now ≤ size-Expr e.now }
{
    let mut part = e;
    for _ in 0..depth {
        if let Expr::Binary { left, .. } = part {
            part = left;
        }
    }
    part
}
