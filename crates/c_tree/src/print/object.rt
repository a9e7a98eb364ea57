ghost use Rattle.std.specs.Prelude.{◌≡◌, ◌∷◌, [], ◌++◌, OnOk, map};
ghost use Rattle.std.specs.Option.{option_map};
ghost use Rattle.c_tree.specs.View.{tree_of, action_of, init_of, inits_of, object_of};
ghost use Rattle.c_tree.specs.StatementRows as rows;

use crate::action::Action;
use crate::expression::Expr;
use crate::object::{Init, Object};
use crate::print::expression::{
    ASSIGN_LEVEL, CHOICE_LEVEL, COMMA_LEVEL, assignment_sign, bump_sign, push_expression,
    push_infix, push_target,
};
use crate::print::kind::push_kind;
use crate::print::row::{Written, push_comma, push_sign, push_word};
use c_token::punct::Punct;
use std::alloc::{AllocError, Global};

/// Whether the expression is an action without parentheses around it: no change by its own operator and no comma.
fn is_plain(value: &Expr) -> bool
    ensures { result ≡ rows.is_plain (tree_of value.now) }
{
    !matches!(
        value,
        Expr::Assign { .. } | Expr::Bump { .. } | Expr::Comma { .. }
    )
}

/// Appends an expression whose value is not used, in parentheses where it could be read as a change.
#[tactic(auto, using(crate::proofs::BehindRows::loosest))]
fn push_value(alloc: Global, row: &mut Vec<Written>, value: &Expr) -> Result<(), AllocError>
    ensures { OnOk result (row.new.items ≡ row.old.items ++ rows.value_row (tree_of value.now)) }
{
    if is_plain(value) {
        return push_expression(alloc, row, COMMA_LEVEL, value);
    }
    push_sign(row, Punct::LeftParen)?;
    push_expression(alloc, row, COMMA_LEVEL, value)?;
    push_sign(row, Punct::RightParen)
}

fn push_action(alloc: Global, row: &mut Vec<Written>, action: &Action) -> Result<(), AllocError>
    ensures { OnOk result (row.new.items ≡ row.old.items ++ rows.action_row (action_of action.now)) }
{
    match action {
        Action::Assign {
            target,
            op,
            value,
            ..
        } => {
            push_target(alloc, row, target)?;
            push_infix(row, assignment_sign(*op))?;
            push_expression(alloc, row, ASSIGN_LEVEL, value)
        }
        Action::Bump { target, up, .. } => {
            push_target(alloc, row, target)?;
            push_sign(row, bump_sign(*up))
        }
        Action::Value(value) => push_value(alloc, row, value),
    }
}

/// Appends actions with commas between.
pub fn push_actions(
    alloc: Global,
    row: &mut Vec<Written>,
    actions: &[Action],
) -> Result<(), AllocError>
    ensures { OnOk result (row.new.items ≡ row.old.items ++ rows.actions_row (map action_of actions.now)) }
{
    let mut first = true;
    for action in actions {
        if !first {
            push_comma(row)?;
        }
        first = false;
        push_action(alloc, row, action)?;
    }
    Ok(())
}

#[cycle(initialiser)]
fn push_init(alloc: Global, row: &mut Vec<Written>, init: &Init) -> Result<(), AllocError>
    ensures { OnOk result (row.new.items ≡ row.old.items ++ rows.init_row (init_of init.now)) }
{
    match init {
        Init::Single(value) => push_expression(alloc, row, ASSIGN_LEVEL, value),
        Init::List(items, _) => {
            push_sign(row, Punct::LeftBrace)?;
            push_inits(alloc, row, items)?;
            push_sign(row, Punct::RightBrace)
        }
    }
}

#[cycle(initialiser)]
fn push_inits(alloc: Global, row: &mut Vec<Written>, inits: &[Init]) -> Result<(), AllocError>
    ensures { OnOk result (row.new.items ≡ row.old.items ++ rows.inits_row (inits_of inits.now)) }
{
    let mut first = true;
    for init in inits {
        if !first {
            push_comma(row)?;
        }
        first = false;
        push_init(alloc, row, init)?;
    }
    Ok(())
}

fn push_length(
    alloc: Global,
    row: &mut Vec<Written>,
    length: &Option<Expr>,
) -> Result<(), AllocError>
    ensures { OnOk result (row.new.items ≡ row.old.items ++ rows.length_row (option_map tree_of length.now)) }
{
    push_sign(row, Punct::LeftBracket)?;
    if let Some(length) = length {
        push_expression(alloc, row, CHOICE_LEVEL, length)?;
    }
    push_sign(row, Punct::RightBracket)
}

/// Appends the lengths of an array, each in brackets.
pub fn push_lengths(
    alloc: Global,
    row: &mut Vec<Written>,
    lengths: &[Option<Expr>],
) -> Result<(), AllocError>
    ensures { OnOk result (row.new.items ≡ row.old.items ++ rows.lengths_row (map (option_map tree_of) lengths.now)) }
{
    for length in lengths {
        push_length(alloc, row, length)?;
    }
    Ok(())
}

fn push_object(alloc: Global, row: &mut Vec<Written>, object: &Object) -> Result<(), AllocError>
    ensures { OnOk result (row.new.items ≡ row.old.items ++ rows.object_row (object_of object.now)) }
{
    push_word(alloc, row, object.name.items())?;
    push_lengths(alloc, row, &object.lengths)?;
    if let Some(init) = &object.init {
        push_infix(row, Punct::Equal)?;
        push_init(alloc, row, init)?;
    }
    Ok(())
}

fn push_objects(alloc: Global, row: &mut Vec<Written>, objects: &[Object]) -> Result<(), AllocError>
    ensures { OnOk result (row.new.items ≡ row.old.items ++ rows.listed rows.object_row (map object_of objects.now)) }
{
    let mut first = true;
    for object in objects {
        if !first {
            push_comma(row)?;
        }
        first = false;
        push_object(alloc, row, object)?;
    }
    Ok(())
}

/// Appends a declaration with its semicolon. The objects have one type.
pub fn push_declaration(
    alloc: Global,
    row: &mut Vec<Written>,
    objects: &[Object],
) -> Result<(), AllocError>
    ensures { OnOk result (row.new.items ≡ row.old.items ++ rows.declaration_row (map object_of objects.now)) }
{
    if objects.is_empty() {
        return Ok(());
    }
    let first = &objects[0];
    push_kind(alloc, row, first.constant, first.kind)?;
    row.push(Written::Space)?;
    push_objects(alloc, row, objects)?;
    push_sign(row, Punct::Semicolon)
}
