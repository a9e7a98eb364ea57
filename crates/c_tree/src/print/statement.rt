ghost use Rattle.std.specs.Prelude.{◌≡◌, ◌∷◌, [], ◌++◌, OnOk, map, codes};
ghost use Rattle.std.specs.Option.{option_map};
ghost use Rattle.c_tree.specs.Tree as tree;
ghost use Rattle.c_tree.specs.View.{tree_of, action_of, stmt_of, else_of, stmts_of, else_part, boxed_part, first_part};
ghost use Rattle.c_tree.specs.StatementRows as rows;
ghost use Rattle.c_tree.specs.declared.print.row.Written.TheVariants as w;

use crate::action::Action;
use crate::expression::Expr;
use crate::print::expression::{CHOICE_LEVEL, COMMA_LEVEL, push_expression};
use crate::print::object::{push_actions, push_declaration};
use crate::print::row::{Written, push_sign, push_word};
use crate::statement::{Else, Stmt};
use c_token::punct::Punct;
use std::alloc::{AllocError, Global};

/// Lines are indented no deeper than so many steps.
const DEEPEST: u64 = 64;

fn deeper(depth: u64) -> u64
    ensures { result ≡ rows.deeper depth }
{
    if depth < DEEPEST { depth + 1 } else { depth }
}

fn is_block(stmt: &Stmt) -> bool
    ensures { result ≡ rows.is_block (stmt_of stmt.now) }
{
    matches!(stmt, Stmt::Block(_))
}

/// Whether the statement stands on the line of the `else` before it.
fn is_tight(stmt: &Stmt) -> bool
    ensures { result ≡ rows.is_tight (stmt_of stmt.now) }
{
    matches!(stmt, Stmt::Block(_) | Stmt::If { .. })
}

/// What stands before a part of a statement: a space if it is on the same line, else a line of this depth.
fn gap(tight: bool, depth: u64) -> Written
    ensures { result ≡ rows.gap tight depth }
{
    if tight {
        Written::Space
    } else {
        Written::Line(depth)
    }
}

fn depth_in(tight: bool, depth: u64) -> u64
    ensures { result ≡ rows.depth_in tight depth }
{
    if tight { depth } else { deeper(depth) }
}

/// The line of a statement in a block of this depth, where a label stands less deep.
fn line_of(depth: u64, stmt: &Stmt) -> Written
    ensures { result ≡ rows.line_of depth (stmt_of stmt.now) }
{
    match stmt {
        Stmt::Case { .. } => Written::Line(depth.saturating_sub(1)),
        _ => Written::Line(depth),
    }
}

/// Appends a controlling expression in its parentheses.
fn push_head(alloc: Global, row: &mut Vec<Written>, test: &Expr) -> Result<(), AllocError>
    ensures { OnOk result (row.new.items ≡ row.old.items ++ rows.head_row (tree_of test.now)) }
{
    row.push(Written::Space)?;
    push_sign(row, Punct::LeftParen)?;
    push_expression(alloc, row, COMMA_LEVEL, test)?;
    push_sign(row, Punct::RightParen)
}

fn push_optional(
    alloc: Global,
    row: &mut Vec<Written>,
    value: &Option<Expr>,
) -> Result<(), AllocError>
    ensures { OnOk result (row.new.items ≡ row.old.items ++ rows.spaced_optional (option_map tree_of value.now)) }
{
    if let Some(value) = value {
        row.push(Written::Space)?;
        push_expression(alloc, row, COMMA_LEVEL, value)?;
    }
    Ok(())
}

/// Appends the third part of a `for`.
fn push_step(alloc: Global, row: &mut Vec<Written>, step: &[Action]) -> Result<(), AllocError>
    ensures { OnOk result (row.new.items ≡ row.old.items ++ rows.spaced_actions (map action_of step.now)) }
{
    if step.is_empty() {
        return Ok(());
    }
    row.push(Written::Space)?;
    push_actions(alloc, row, step)
}

fn push_label(alloc: Global, row: &mut Vec<Written>, value: &Option<Expr>) -> Result<(), AllocError>
    ensures { OnOk result (row.new.items ≡ row.old.items ++ rows.label_row (option_map tree_of value.now)) }
{
    match value {
        None => push_word(alloc, row, b"default")?,
        Some(value) => {
            push_word(alloc, row, b"case")?;
            row.push(Written::Space)?;
            push_expression(alloc, row, CHOICE_LEVEL, value)?;
        }
    }
    push_sign(row, Punct::Colon)
}

fn push_return(
    alloc: Global,
    row: &mut Vec<Written>,
    value: &Option<Expr>,
) -> Result<(), AllocError>
    ensures { OnOk result (row.new.items ≡ row.old.items ++ rows.return_row (option_map tree_of value.now)) }
{
    push_word(alloc, row, b"return")?;
    push_optional(alloc, row, value)?;
    push_sign(row, Punct::Semicolon)
}

fn push_jump(alloc: Global, row: &mut Vec<Written>, keyword: &[u8]) -> Result<(), AllocError>
    ensures { OnOk result (row.new.items ≡ row.old.items ++ rows.jump_row keyword.now) }
{
    push_word(alloc, row, keyword)?;
    push_sign(row, Punct::Semicolon)
}

fn push_continue(alloc: Global, row: &mut Vec<Written>) -> Result<(), AllocError>
    ensures { OnOk result (row.new.items ≡ row.old.items ++ rows.jump_row (codes "continue")) }
{
    push_jump(alloc, row, b"continue")
}

#[cycle(statement)]
fn push_statement(
    alloc: Global,
    row: &mut Vec<Written>,
    depth: u64,
    stmt: &Stmt,
) -> Result<(), AllocError>
    ensures { OnOk result (row.new.items ≡ row.old.items ++ rows.stmt_row (stmt_of stmt.now) depth) }
{
    match stmt {
        Stmt::Block(body) => push_block(alloc, row, depth, body),
        Stmt::Declare(objects) => push_declaration(alloc, row, objects),
        Stmt::Act(actions) => {
            push_actions(alloc, row, actions)?;
            push_sign(row, Punct::Semicolon)
        }
        Stmt::If { test, yes, no, .. } => {
            push_word(alloc, row, b"if")?;
            push_head(alloc, row, test)?;
            push_under(alloc, row, depth, yes)?;
            if let Some(no) = no {
                row.push(gap(is_block(yes), depth))?;
                push_else(alloc, row, depth, no)?;
            }
            Ok(())
        }
        Stmt::Switch { test, body, .. } => {
            push_word(alloc, row, b"switch")?;
            push_head(alloc, row, test)?;
            row.push(Written::Space)?;
            push_block(alloc, row, depth, body)
        }
        Stmt::Case { value, body, .. } => {
            push_label(alloc, row, value)?;
            row.push(line_of(depth, body))?;
            push_statement(alloc, row, depth, body)
        }
        Stmt::While { test, body, .. } => {
            push_word(alloc, row, b"while")?;
            push_head(alloc, row, test)?;
            push_under(alloc, row, depth, body)
        }
        Stmt::Do { body, test, .. } => {
            push_word(alloc, row, b"do")?;
            push_under(alloc, row, depth, body)?;
            row.push(gap(is_block(body), depth))?;
            push_word(alloc, row, b"while")?;
            push_head(alloc, row, test)?;
            push_sign(row, Punct::Semicolon)
        }
        Stmt::For {
            init,
            test,
            step,
            body,
            ..
        } => {
            push_word(alloc, row, b"for")?;
            row.push(Written::Space)?;
            push_sign(row, Punct::LeftParen)?;
            match init {
                Some(part) => push_statement(alloc, row, 0, part)?,
                None => push_sign(row, Punct::Semicolon)?,
            }
            push_optional(alloc, row, test)?;
            push_sign(row, Punct::Semicolon)?;
            push_step(alloc, row, step)?;
            push_sign(row, Punct::RightParen)?;
            push_under(alloc, row, depth, body)
        }
        Stmt::Break(_) => push_jump(alloc, row, b"break"),
        Stmt::Continue(_) => push_continue(alloc, row),
        Stmt::Return { value, .. } => push_return(alloc, row, value),
    }
}

/// Appends the body of a statement, on a line of its own if it is no block.
#[cycle(statement)]
fn push_under(
    alloc: Global,
    row: &mut Vec<Written>,
    depth: u64,
    body: &Stmt,
) -> Result<(), AllocError>
    ensures { OnOk result (row.new.items ≡ row.old.items ++ rows.under_row (stmt_of body.now) depth) }
{
    let tight = is_block(body);
    row.push(gap(tight, deeper(depth)))?;
    push_statement(alloc, row, depth_in(tight, depth), body)
}

#[cycle(statement)]
fn push_else(alloc: Global, row: &mut Vec<Written>, depth: u64, no: &Else) -> Result<(), AllocError>
    ensures { OnOk result (row.new.items ≡ row.old.items ++ rows.branch_row (else_of no.now) depth) }
{
    push_word(alloc, row, b"else")?;
    let tight = is_tight(&no.body);
    row.push(gap(tight, deeper(depth)))?;
    push_statement(alloc, row, depth_in(tight, depth), &no.body)
}

/// Appends a block.
#[cycle(statement)]
pub fn push_block(
    alloc: Global,
    row: &mut Vec<Written>,
    depth: u64,
    body: &[Stmt],
) -> Result<(), AllocError>
    ensures { OnOk result (row.new.items ≡ row.old.items ++ rows.block_row (stmts_of body.now) depth) }
{
    push_sign(row, Punct::LeftBrace)?;
    for stmt in body {
        row.push(line_of(deeper(depth), stmt))?;
        push_statement(alloc, row, deeper(depth), stmt)?;
    }
    row.push(Written::Line(depth))?;
    push_sign(row, Punct::RightBrace)
}
