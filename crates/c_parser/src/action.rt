//! Actions: the expression of a statement and of `for`, C11 6.8.3 and 6.8.5.3.
ghost use Rattle.std.specs.Prelude.{◌≡◌, ◌<◌, IfOk, OnOk, length, map, true};
ghost use Rattle.c_tree.specs.View.{tree_of, action_of};
ghost use Rattle.c_parser.specs.Cursor.Readings.{Found, Never, Anywhere, Listed};
ghost use Rattle.c_parser.specs.Objects.{AnAction, Separated, ActionsUpTo, action_in, closes_actions};
ghost use Rattle.c_parser.specs.Cursor.Stops.{IfAbsent};

use crate::cursor::cursor::Cursor;
use crate::cursor::stop::Stop;
use crate::expression::{ASSIGN, expression};
use c_token::punct::Punct;
use c_tree::action::Action;
use c_tree::expression::Expr;
use std::alloc::Global;

/// The action that an expression is: a change by its own operator, unless it stood in parentheses.
fn action_from(grouped: bool, e: Expr) -> Action
    ensures { action_of result ≡ action_in grouped (tree_of e) }
{
    if grouped {
        return Action::value(e);
    }
    match e {
        Expr::Assign {
            target,
            op,
            value,
            at,
        } => Action::assign(target, op, Box::into_inner(value), at),
        Expr::Bump { target, up, at, .. } => Action::bump(target, up, at),
        other => Action::value(other),
    }
}

/// Reads an action, behind which another one follows, or the end of the list.
fn action(alloc: Global, cursor: &mut Cursor<'_>) -> Result<Action, Stop>
    ensures found { IfOk result (λ a. Found AnAction Separated cursor.old (action_of a) cursor.new) }
    ensures absent { IfAbsent result (Never AnAction Separated cursor.old) }
    ensures shorter { OnOk result (length cursor.new < length cursor.old) }
{
    let grouped = cursor.opens_paren();
    let e = expression(alloc, cursor, ASSIGN)?;
    if !cursor.is_separator() {
        return Err(Stop::Absent);
    }
    Ok(action_from(grouped, e))
}

/// Reads one action or more, and the sign behind them.
pub fn action_list(
    alloc: Global,
    cursor: &mut Cursor<'_>,
    closer: Punct,
) -> Result<Vec<Action>, Stop>
    requires { closes_actions closer ≡ true }
    ensures found { IfOk result (λ all. Found (Listed AnAction closer) Anywhere cursor.old (map action_of all.items) cursor.new) }
    ensures absent { IfAbsent result (Never (Listed AnAction closer) Anywhere cursor.old) }
    ensures shorter { OnOk result (length cursor.new < length cursor.old) }
{
    let mut all = Vec::new(alloc);
    loop {
        let one = action(alloc, cursor)?;
        all.push(one)?;
        if !cursor.eat(Punct::Comma) {
            break;
        }
    }
    cursor.expect(closer)?;
    Ok(all)
}

/// Reads any number of actions, and the sign behind them.
pub fn actions(alloc: Global, cursor: &mut Cursor<'_>, closer: Punct) -> Result<Vec<Action>, Stop>
    requires { closes_actions closer ≡ true }
    ensures found { IfOk result (λ all. Found (ActionsUpTo closer) Anywhere cursor.old (map action_of all.items) cursor.new) }
    ensures absent { IfAbsent result (Never (ActionsUpTo closer) Anywhere cursor.old) }
    ensures shorter { OnOk result (length cursor.new < length cursor.old) }
{
    if cursor.eat(closer) {
        return Ok(Vec::new(alloc));
    }
    action_list(alloc, cursor, closer)
}
