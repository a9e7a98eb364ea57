//! Statements and blocks, C11 6.8.
ghost use Rattle.std.specs.Prelude.{◌<◌, IfOk, OnOk, length, map};
ghost use Rattle.std.specs.Option.{option_map};
ghost use Rattle.c_tree.specs.View.{tree_of, stmt_of, first_part};
ghost use Rattle.c_parser.specs.Cursor.Readings.{Found, Never, Anywhere};
ghost use Rattle.c_parser.specs.Statements.{Statement, ElseFits, Block, Local, BodyUpTo, First, ForHead, head_of, Condition, Branches, DoTail, Behind};
ghost use Rattle.c_parser.specs.declared.cursor.keyword.Keyword.TheVariants as w;
ghost use Rattle.c_parser.specs.Cursor.Stops.{IfAbsent};

use crate::action::{action_list, actions};
use crate::cursor::cursor::Cursor;
use crate::cursor::keyword::Keyword;
use crate::cursor::stop::Stop;
use crate::expression::{CHOICE, COMMA, closed};
use crate::object::{declaration, optional};
use c_token::punct::Punct;
use c_tree::action::Action;
use c_tree::expression::Expr;
use c_tree::statement::{Else, Stmt};
use hls_base::place::Place;
use std::alloc::Global;

/// The parts of a `for` before its body, C11 6.8.5.3.
#[derive(Drop)]
struct Head {
    init: Option<Stmt>,
    test: Option<Expr>,
    step: Vec<Action>,
}

/// Reads a statement.
#[cycle(statement)]
fn statement(alloc: Global, cursor: &mut Cursor<'_>) -> Result<Stmt, Stop>
    ensures found { IfOk result (λ s. Found Statement ElseFits cursor.old (stmt_of s) cursor.new) }
    ensures absent { IfAbsent result (Never Statement ElseFits cursor.old) }
    ensures fits { IfOk result (λ s. ElseFits (stmt_of s) cursor.new) }
    ensures shorter { OnOk result (length cursor.new < length cursor.old) }
{
    if let Some((keyword, at)) = cursor.keyword() {
        return keyword_statement(alloc, cursor, keyword, at);
    }
    if cursor.eat(Punct::LeftBrace) {
        let body = body(alloc, cursor)?;
        return Ok(Stmt::block(body));
    }
    let all = actions(alloc, cursor, Punct::Semicolon)?;
    Ok(Stmt::act(all))
}

/// Reads a statement from behind its keyword.
#[cycle(statement)]
fn keyword_statement(
    alloc: Global,
    cursor: &mut Cursor<'_>,
    keyword: Keyword,
    at: Place,
) -> Result<Stmt, Stop>
    ensures found { IfOk result (λ s. Found (Behind keyword at) ElseFits cursor.old (stmt_of s) cursor.new) }
    ensures absent { IfAbsent result (Never (Behind keyword at) ElseFits cursor.old) }
    ensures fits { IfOk result (λ s. ElseFits (stmt_of s) cursor.new) }
    ensures shorter { OnOk result (length cursor.new < length cursor.old) }
{
    match keyword {
        Keyword::If => if_(alloc, cursor, at),
        Keyword::Switch => switch_(alloc, cursor, at),
        Keyword::Case => case_(alloc, cursor, at),
        Keyword::Default => default_(alloc, cursor, at),
        Keyword::While => while_(alloc, cursor, at),
        Keyword::Do => do_(alloc, cursor, at),
        Keyword::For => for_(alloc, cursor, at),
        Keyword::Break => break_(cursor, at),
        Keyword::Continue => continue_(cursor, at),
        Keyword::Return => return_(alloc, cursor, at),
    }
}

/// Reads an expression in parentheses.
fn condition(alloc: Global, cursor: &mut Cursor<'_>) -> Result<Expr, Stop>
    ensures found { IfOk result (λ e. Found Condition Anywhere cursor.old (tree_of e) cursor.new) }
    ensures absent { IfAbsent result (Never Condition Anywhere cursor.old) }
    ensures shorter { OnOk result (length cursor.new < length cursor.old) }
{
    cursor.expect(Punct::LeftParen)?;
    closed(alloc, cursor, COMMA, Punct::RightParen)
}

#[cycle(statement)]
fn if_(alloc: Global, cursor: &mut Cursor<'_>, at: Place) -> Result<Stmt, Stop>
    ensures found { IfOk result (λ s. Found (Behind w.If at) ElseFits cursor.old (stmt_of s) cursor.new) }
    ensures absent { IfAbsent result (Never (Behind w.If at) ElseFits cursor.old) }
    ensures fits { IfOk result (λ s. ElseFits (stmt_of s) cursor.new) }
    ensures shorter { OnOk result (length cursor.new < length cursor.old) }
{
    let test = condition(alloc, cursor)?;
    branches(alloc, cursor, test, at)
}

/// Reads the branches of an `if`. An `else` belongs to the nearest `if`.
#[cycle(statement)]
fn branches(alloc: Global, cursor: &mut Cursor<'_>, test: Expr, at: Place) -> Result<Stmt, Stop>
    ensures found { IfOk result (λ s. Found (Branches (tree_of test) at) ElseFits cursor.old (stmt_of s) cursor.new) }
    ensures absent { IfAbsent result (Never (Branches (tree_of test) at) ElseFits cursor.old) }
    ensures fits { IfOk result (λ s. ElseFits (stmt_of s) cursor.new) }
    ensures shorter { OnOk result (length cursor.new < length cursor.old) }
{
    let yes = statement(alloc, cursor)?;
    let Some(other) = cursor.word(b"else") else {
        let one = Stmt::if_(alloc, test, yes, None, at)?;
        return Ok(one);
    };
    let second = statement(alloc, cursor)?;
    let no = Else::new(alloc, second, other)?;
    let both = Stmt::if_(alloc, test, yes, Some(no), at)?;
    Ok(both)
}

#[cycle(statement)]
fn switch_(alloc: Global, cursor: &mut Cursor<'_>, at: Place) -> Result<Stmt, Stop>
    ensures found { IfOk result (λ s. Found (Behind w.Switch at) ElseFits cursor.old (stmt_of s) cursor.new) }
    ensures absent { IfAbsent result (Never (Behind w.Switch at) ElseFits cursor.old) }
    ensures fits { IfOk result (λ s. ElseFits (stmt_of s) cursor.new) }
    ensures shorter { OnOk result (length cursor.new < length cursor.old) }
{
    let test = condition(alloc, cursor)?;
    let body = block(alloc, cursor)?;
    Ok(Stmt::switch_(test, body, at))
}

#[cycle(statement)]
fn case_(alloc: Global, cursor: &mut Cursor<'_>, at: Place) -> Result<Stmt, Stop>
    ensures found { IfOk result (λ s. Found (Behind w.Case at) ElseFits cursor.old (stmt_of s) cursor.new) }
    ensures absent { IfAbsent result (Never (Behind w.Case at) ElseFits cursor.old) }
    ensures fits { IfOk result (λ s. ElseFits (stmt_of s) cursor.new) }
    ensures shorter { OnOk result (length cursor.new < length cursor.old) }
{
    let value = closed(alloc, cursor, CHOICE, Punct::Colon)?;
    let body = statement(alloc, cursor)?;
    Ok(Stmt::case_(alloc, Some(value), body, at)?)
}

#[cycle(statement)]
fn default_(alloc: Global, cursor: &mut Cursor<'_>, at: Place) -> Result<Stmt, Stop>
    ensures found { IfOk result (λ s. Found (Behind w.Default at) ElseFits cursor.old (stmt_of s) cursor.new) }
    ensures absent { IfAbsent result (Never (Behind w.Default at) ElseFits cursor.old) }
    ensures fits { IfOk result (λ s. ElseFits (stmt_of s) cursor.new) }
    ensures shorter { OnOk result (length cursor.new < length cursor.old) }
{
    cursor.expect(Punct::Colon)?;
    let body = statement(alloc, cursor)?;
    Ok(Stmt::case_(alloc, None, body, at)?)
}

#[cycle(statement)]
fn while_(alloc: Global, cursor: &mut Cursor<'_>, at: Place) -> Result<Stmt, Stop>
    ensures found { IfOk result (λ s. Found (Behind w.While at) ElseFits cursor.old (stmt_of s) cursor.new) }
    ensures absent { IfAbsent result (Never (Behind w.While at) ElseFits cursor.old) }
    ensures fits { IfOk result (λ s. ElseFits (stmt_of s) cursor.new) }
    ensures shorter { OnOk result (length cursor.new < length cursor.old) }
{
    let test = condition(alloc, cursor)?;
    let body = statement(alloc, cursor)?;
    Ok(Stmt::while_(alloc, test, body, at)?)
}

#[cycle(statement)]
fn do_(alloc: Global, cursor: &mut Cursor<'_>, at: Place) -> Result<Stmt, Stop>
    ensures found { IfOk result (λ s. Found (Behind w.Do at) ElseFits cursor.old (stmt_of s) cursor.new) }
    ensures absent { IfAbsent result (Never (Behind w.Do at) ElseFits cursor.old) }
    ensures fits { IfOk result (λ s. ElseFits (stmt_of s) cursor.new) }
    ensures shorter { OnOk result (length cursor.new < length cursor.old) }
{
    let body = statement(alloc, cursor)?;
    let test = do_tail(alloc, cursor)?;
    Ok(Stmt::do_(alloc, body, test, at)?)
}

/// Reads what stands behind the body of a `do`.
fn do_tail(alloc: Global, cursor: &mut Cursor<'_>) -> Result<Expr, Stop>
    ensures found { IfOk result (λ e. Found DoTail Anywhere cursor.old (tree_of e) cursor.new) }
    ensures absent { IfAbsent result (Never DoTail Anywhere cursor.old) }
    ensures shorter { OnOk result (length cursor.new < length cursor.old) }
{
    cursor.expect_word(b"while")?;
    let test = condition(alloc, cursor)?;
    cursor.expect(Punct::Semicolon)?;
    Ok(test)
}

#[cycle(statement)]
fn for_(alloc: Global, cursor: &mut Cursor<'_>, at: Place) -> Result<Stmt, Stop>
    ensures found { IfOk result (λ s. Found (Behind w.For at) ElseFits cursor.old (stmt_of s) cursor.new) }
    ensures absent { IfAbsent result (Never (Behind w.For at) ElseFits cursor.old) }
    ensures fits { IfOk result (λ s. ElseFits (stmt_of s) cursor.new) }
    ensures shorter { OnOk result (length cursor.new < length cursor.old) }
{
    let head = for_head(alloc, cursor)?;
    let body = statement(alloc, cursor)?;
    Ok(Stmt::for_(alloc, head.init, head.test, head.step, body, at)?)
}

/// Reads the parts of a `for` in their parentheses.
fn for_head(alloc: Global, cursor: &mut Cursor<'_>) -> Result<Head, Stop>
    ensures found { IfOk result (λ head. Found ForHead Anywhere cursor.old (head_of head) cursor.new) }
    ensures absent { IfAbsent result (Never ForHead Anywhere cursor.old) }
    ensures shorter { OnOk result (length cursor.new < length cursor.old) }
{
    cursor.expect(Punct::LeftParen)?;
    let init = first(alloc, cursor)?;
    let test = optional(alloc, cursor, COMMA, Punct::Semicolon)?;
    let step = actions(alloc, cursor, Punct::RightParen)?;
    Ok(Head { init, test, step })
}

/// Reads the first part of a `for`, and the semicolon behind it.
fn first(alloc: Global, cursor: &mut Cursor<'_>) -> Result<Option<Stmt>, Stop>
    ensures found { IfOk result (λ s. Found First Anywhere cursor.old (first_part (option_map stmt_of s)) cursor.new) }
    ensures absent { IfAbsent result (Never First Anywhere cursor.old) }
    ensures shorter { OnOk result (length cursor.new < length cursor.old) }
{
    if cursor.eat(Punct::Semicolon) {
        return Ok(None);
    }
    if cursor.starts_kind() {
        let objects = declaration(alloc, cursor)?;
        return Ok(Some(Stmt::declare(objects)));
    }
    let acts = action_list(alloc, cursor, Punct::Semicolon)?;
    Ok(Some(Stmt::act(acts)))
}

fn break_(cursor: &mut Cursor<'_>, at: Place) -> Result<Stmt, Stop>
    ensures found { IfOk result (λ s. Found (Behind w.Break at) ElseFits cursor.old (stmt_of s) cursor.new) }
    ensures absent { IfAbsent result (Never (Behind w.Break at) ElseFits cursor.old) }
    ensures fits { IfOk result (λ s. ElseFits (stmt_of s) cursor.new) }
    ensures shorter { OnOk result (length cursor.new < length cursor.old) }
{
    cursor.expect(Punct::Semicolon)?;
    Ok(Stmt::break_(at))
}

fn continue_(cursor: &mut Cursor<'_>, at: Place) -> Result<Stmt, Stop>
    ensures found { IfOk result (λ s. Found (Behind w.Continue at) ElseFits cursor.old (stmt_of s) cursor.new) }
    ensures absent { IfAbsent result (Never (Behind w.Continue at) ElseFits cursor.old) }
    ensures fits { IfOk result (λ s. ElseFits (stmt_of s) cursor.new) }
    ensures shorter { OnOk result (length cursor.new < length cursor.old) }
{
    cursor.expect(Punct::Semicolon)?;
    Ok(Stmt::continue_(at))
}

fn return_(alloc: Global, cursor: &mut Cursor<'_>, at: Place) -> Result<Stmt, Stop>
    ensures found { IfOk result (λ s. Found (Behind w.Return at) ElseFits cursor.old (stmt_of s) cursor.new) }
    ensures absent { IfAbsent result (Never (Behind w.Return at) ElseFits cursor.old) }
    ensures fits { IfOk result (λ s. ElseFits (stmt_of s) cursor.new) }
    ensures shorter { OnOk result (length cursor.new < length cursor.old) }
{
    let value = optional(alloc, cursor, COMMA, Punct::Semicolon)?;
    Ok(Stmt::return_(value, at))
}

/// Reads a block.
#[cycle(statement)]
pub fn block(alloc: Global, cursor: &mut Cursor<'_>) -> Result<Vec<Stmt>, Stop>
    ensures found { IfOk result (λ body. Found Block Anywhere cursor.old (map stmt_of body.items) cursor.new) }
    ensures absent { IfAbsent result (Never Block Anywhere cursor.old) }
    ensures shorter { OnOk result (length cursor.new < length cursor.old) }
{
    cursor.expect(Punct::LeftBrace)?;
    body(alloc, cursor)
}

/// Reads what stands between the braces of a block, and the closing one.
#[cycle(statement)]
fn body(alloc: Global, cursor: &mut Cursor<'_>) -> Result<Vec<Stmt>, Stop>
    ensures found { IfOk result (λ body. Found BodyUpTo Anywhere cursor.old (map stmt_of body.items) cursor.new) }
    ensures absent { IfAbsent result (Never BodyUpTo Anywhere cursor.old) }
    ensures shorter { OnOk result (length cursor.new < length cursor.old) }
{
    let mut all = Vec::new(alloc);
    while !cursor.eat(Punct::RightBrace) {
        let one = local(alloc, cursor)?;
        all.push(one)?;
    }
    Ok(all)
}

/// Reads a statement or a declaration of a block.
#[cycle(statement)]
fn local(alloc: Global, cursor: &mut Cursor<'_>) -> Result<Stmt, Stop>
    ensures found { IfOk result (λ s. Found Local ElseFits cursor.old (stmt_of s) cursor.new) }
    ensures absent { IfAbsent result (Never Local ElseFits cursor.old) }
    ensures shorter { OnOk result (length cursor.new < length cursor.old) }
{
    if !cursor.starts_kind() {
        return statement(alloc, cursor);
    }
    let all = declaration(alloc, cursor)?;
    Ok(Stmt::declare(all))
}
