//! Returns that leave a call before its end.
ghost use Rattle.std.specs.Prelude.{◌≡◌, ◌&&◌, ◌||◌, map};
ghost use Rattle.pieces.specs.Resolved.Core.{stmt_row};
ghost use Rattle.pieces.specs.Resolved.CoreView.{core_stmt_of};
ghost use Rattle.piece_making.specs.Leaving.{leaves, any_leaves};

use pieces::resolved::statement::CoreStmt;

/// Whether statements have a return that is not in a tail position. `tail` tells whether the last of them is in one.
#[cycle(leaving)]
pub fn any_leaves(body: &[CoreStmt], tail: bool) -> bool
    ensures { result ≡ any_leaves (stmt_row (map core_stmt_of body.now)) tail }
{
    let count = body.len();
    let mut leave = false;
    for (i, stmt) in body.iter().enumerate() {
        let stays = both(tail, count - i == 1);
        let here = leaves(stmt, stays);
        leave = either(leave, here);
    }
    leave
}

#[cycle(leaving)]
fn leaves(stmt: &CoreStmt, tail: bool) -> bool
    ensures { result ≡ leaves (core_stmt_of stmt.now) tail }
{
    match stmt {
        CoreStmt::Block { body, .. } => any_leaves(body, tail),
        CoreStmt::If { yes, no, .. } => {
            let first = leaves(yes, tail);
            match no {
                None => first,
                Some(branch) => first || leaves(&branch.body, tail),
            }
        }
        CoreStmt::Switch { body, .. } => any_leaves(body, false),
        CoreStmt::Case { body, .. }
        | CoreStmt::While { body, .. }
        | CoreStmt::Do { body, .. }
        | CoreStmt::For { body, .. } => leaves(body, false),
        CoreStmt::Return(_) => !tail,
        CoreStmt::Declare { .. } | CoreStmt::Act(_) | CoreStmt::Break | CoreStmt::Continue => false,
    }
}

fn both(a: bool, b: bool) -> bool
    ensures { result ≡ (a && b) }
{
    a && b
}

fn either(a: bool, b: bool) -> bool
    ensures { result ≡ (a || b) }
{
    a || b
}
