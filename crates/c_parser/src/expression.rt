//! Expressions, C11 6.5.
ghost use Rattle.std.specs.Prelude.{◌≡◌, ◌<◌, IfOk, OnOk, Some, None, length, map, ◌≤◌};
ghost use Rattle.c_token.specs.declared.punct.Punct.TheVariants as p;
ghost use Rattle.c_tree.specs.View.{tree_of, target_of};
ghost use Rattle.c_parser.specs.Cursor.Readings.{Found, Never, Anywhere, Closed, Listed, Ends, sign_level};
ghost use Rattle.c_parser.specs.Expressions.{Expression, Lvalue, joined, element, bare_target, Cast, Chosen, Named, Arguments, Subscripts};
ghost use Rattle.c_parser.specs.Cursor.Stops.{IfAbsent};

use crate::chain::{Assigned, assign_all};
use crate::cursor::cursor::Cursor;
use crate::cursor::joiner::Joiner;
use crate::cursor::stop::Stop;
use crate::cursor::types::closed_kind;
use crate::cursor::words::is_keyword;
use c_token::punct::Punct;
use c_token::token::TokenKind;
use c_tree::expression::{Expr, Target};
use hls_base::place::Place;
use hls_base::text::Text;
use std::alloc::{AllocError, Global};

const PRIMARY: u8 = 0;

const POSTFIX: u8 = 1;

const UNARY: u8 = 2;

const BINARY: u8 = 12;

pub const CHOICE: u8 = 13;

pub const ASSIGN: u8 = 14;

pub const COMMA: u8 = 15;

/// Reads an expression of this level.
#[cycle(expression)]
pub fn expression(alloc: Global, cursor: &mut Cursor<'_>, level: u8) -> Result<Expr, Stop>
    ensures found { IfOk result (λ e. Found (Expression level) (Ends level) cursor.old (tree_of e) cursor.new) }
    ensures absent { IfAbsent result (Never (Expression level) (Ends level) cursor.old) }
    ensures shorter { OnOk result (length cursor.new < length cursor.old) }
{
    if level == PRIMARY {
        return primary(alloc, cursor);
    }
    if level == POSTFIX {
        return postfix(alloc, cursor);
    }
    if level == UNARY {
        return unary(alloc, cursor);
    }
    if level == CHOICE {
        return choice(alloc, cursor);
    }
    if level == ASSIGN {
        return assignment(alloc, cursor);
    }
    let mut left = expression(alloc, cursor, level - 1)?;
    while let Some((joiner, at)) = cursor.joiner(level) {
        let right = expression(alloc, cursor, level - 1)?;
        left = join(alloc, joiner, left, right, at)?;
    }
    Ok(left)
}

fn join(
    alloc: Global,
    joiner: Joiner,
    left: Expr,
    right: Expr,
    at: Place,
) -> Result<Expr, AllocError>
    ensures { IfOk result (λ e. tree_of e ≡ joined joiner (tree_of left) (tree_of right) at) }
{
    match joiner {
        Joiner::Binary(op) => Expr::binary(alloc, op, left, right, at),
        Joiner::Comma => Expr::comma(alloc, left, right, at),
    }
}

/// Reads an expression of this level, and the sign behind it.
#[cycle(expression)]
pub fn closed(
    alloc: Global,
    cursor: &mut Cursor<'_>,
    level: u8,
    closer: Punct,
) -> Result<Expr, Stop>
    requires { level < sign_level closer }
    ensures found { IfOk result (λ e. Found (Closed (Expression level) closer) Anywhere cursor.old (tree_of e) cursor.new) }
    ensures absent { IfAbsent result (Never (Closed (Expression level) closer) Anywhere cursor.old) }
    ensures shorter { OnOk result (length cursor.new < length cursor.old) }
{
    let e = expression(alloc, cursor, level)?;
    cursor.expect(closer)?;
    Ok(e)
}

/// Reads an expression in which `?:` may stand outside parentheses.
#[cycle(expression)]
fn choice(alloc: Global, cursor: &mut Cursor<'_>) -> Result<Expr, Stop>
    ensures found { IfOk result (λ e. Found (Expression 13) (Ends 13) cursor.old (tree_of e) cursor.new) }
    ensures absent { IfAbsent result (Never (Expression 13) (Ends 13) cursor.old) }
    ensures shorter { OnOk result (length cursor.new < length cursor.old) }
{
    let test = expression(alloc, cursor, BINARY)?;
    match cursor.take(Punct::Question) {
        Some(at) => chosen(alloc, cursor, test, at),
        None => Ok(test),
    }
}

/// Reads the other operands of `?:`, from behind the `?`.
#[cycle(expression)]
fn chosen(alloc: Global, cursor: &mut Cursor<'_>, test: Expr, at: Place) -> Result<Expr, Stop>
    ensures found { IfOk result (λ e. Found (Chosen (tree_of test) at) (Ends 13) cursor.old (tree_of e) cursor.new) }
    ensures absent { IfAbsent result (Never (Chosen (tree_of test) at) (Ends 13) cursor.old) }
    ensures shorter { OnOk result (length cursor.new < length cursor.old) }
{
    let yes = expression(alloc, cursor, COMMA)?;
    let colon = cursor.expect(Punct::Colon)?;
    let no = choice(alloc, cursor)?;
    Ok(Expr::choice(alloc, test, yes, no, at, colon)?)
}

/// Reads an expression in which an assignment may stand outside parentheses. Assignments of one chain are read in a loop, so that the depth of the recursion is bounded by how deep the source nests.
#[cycle(expression)]
fn assignment(alloc: Global, cursor: &mut Cursor<'_>) -> Result<Expr, Stop>
    ensures found { IfOk result (λ e. Found (Expression 14) (Ends 14) cursor.old (tree_of e) cursor.new) }
    ensures absent { IfAbsent result (Never (Expression 14) (Ends 14) cursor.old) }
    ensures shorter { OnOk result (length cursor.new < length cursor.old) }
{
    let mut chain = Vec::new(alloc);
    'chain: loop {
        let grouped = cursor.opens_paren();
        let left = choice(alloc, cursor)?;
        let Some((op, at)) = cursor.assignment() else {
            return Ok(assign_all(alloc, chain, left)?);
        };
        let target = bare_target(alloc, grouped, left)?;
        chain.push(Assigned { target, op, at })?;
    }
}

/// The target that an expression is, if it stood in no parentheses.
pub fn bare_target(alloc: Global, grouped: bool, e: Expr) -> Result<Target, Stop>
    ensures found { IfOk result (λ target. bare_target grouped (tree_of e) ≡ Some (target_of target)) }
    ensures absent { IfAbsent result (bare_target grouped (tree_of e) ≡ None) }
{
    if grouped {
        return Err(Stop::Absent);
    }
    match e {
        Expr::Name { name, at } => Ok(Target::new(name, Vec::new(alloc), at)),
        Expr::Index {
            array,
            subscripts,
            at,
        } => Ok(Target::new(array, subscripts, at)),
        _ => Err(Stop::Absent),
    }
}

/// Reads operators and casts before an operand.
#[cycle(expression)]
fn unary(alloc: Global, cursor: &mut Cursor<'_>) -> Result<Expr, Stop>
    ensures found { IfOk result (λ e. Found (Expression 2) (Ends 2) cursor.old (tree_of e) cursor.new) }
    ensures absent { IfAbsent result (Never (Expression 2) (Ends 2) cursor.old) }
    ensures shorter { OnOk result (length cursor.new < length cursor.old) }
{
    if let Some((op, at)) = cursor.prefix() {
        let arg = unary(alloc, cursor)?;
        return Ok(Expr::unary(alloc, op, arg, at)?);
    }
    if let Some((up, at)) = cursor.bump() {
        let target = target(alloc, cursor)?;
        return Ok(Expr::bump_before(target, up, at));
    }
    match cursor.cast() {
        Some(at) => cast(alloc, cursor, at),
        None => postfix(alloc, cursor),
    }
}

/// Reads a cast, from behind its `(`.
#[cycle(expression)]
fn cast(alloc: Global, cursor: &mut Cursor<'_>, at: Place) -> Result<Expr, Stop>
    ensures found { IfOk result (λ e. Found (Cast at) (Ends 2) cursor.old (tree_of e) cursor.new) }
    ensures absent { IfAbsent result (Never (Cast at) (Ends 2) cursor.old) }
    ensures shorter { OnOk result (length cursor.new < length cursor.old) }
{
    let to = closed_kind(alloc, cursor)?;
    let arg = unary(alloc, cursor)?;
    Ok(Expr::cast(alloc, to.kind, arg, at)?)
}

/// Reads what `++` or `--` changes.
#[cycle(expression)]
fn target(alloc: Global, cursor: &mut Cursor<'_>) -> Result<Target, Stop>
    ensures found { IfOk result (λ target. Found Lvalue (Ends 0) cursor.old (target_of target) cursor.new) }
    ensures absent { IfAbsent result (Never Lvalue (Ends 0) cursor.old) }
    ensures shorter { OnOk result (length cursor.new < length cursor.old) }
{
    let grouped = cursor.opens_paren();
    let e = primary(alloc, cursor)?;
    bare_target(alloc, grouped, e)
}

/// Reads an operand, and `++` or `--` behind it.
#[cycle(expression)]
fn postfix(alloc: Global, cursor: &mut Cursor<'_>) -> Result<Expr, Stop>
    ensures found { IfOk result (λ e. Found (Expression 1) (Ends 1) cursor.old (tree_of e) cursor.new) }
    ensures absent { IfAbsent result (Never (Expression 1) (Ends 1) cursor.old) }
    ensures shorter { OnOk result (length cursor.new < length cursor.old) }
{
    let grouped = cursor.opens_paren();
    let e = primary(alloc, cursor)?;
    let Some((up, at)) = cursor.bump() else {
        return Ok(e);
    };
    let target = bare_target(alloc, grouped, e)?;
    Ok(Expr::bump_behind(target, up, at))
}

/// Reads a number, a name with what belongs to it, or an expression in parentheses.
#[cycle(expression)]
fn primary(alloc: Global, cursor: &mut Cursor<'_>) -> Result<Expr, Stop>
    ensures found { IfOk result (λ e. Found (Expression 0) (Ends 0) cursor.old (tree_of e) cursor.new) }
    ensures absent { IfAbsent result (Never (Expression 0) (Ends 0) cursor.old) }
    ensures shorter { OnOk result (length cursor.new < length cursor.old) }
{
    let Some(token) = cursor.next() else {
        return Err(Stop::Absent);
    };
    let at = token.place;
    match &token.kind {
        TokenKind::Number { value, kind } => Ok(Expr::number(*value, *kind, at)),
        TokenKind::Word(text) => {
            if is_keyword(text.items()) {
                return Err(Stop::Absent);
            }
            named(alloc, cursor, text, at)
        }
        TokenKind::Punct(punct) => {
            if *punct != Punct::LeftParen {
                return Err(Stop::Absent);
            }
            closed(alloc, cursor, COMMA, Punct::RightParen)
        }
        TokenKind::TypeWord(_) => Err(Stop::Absent),
    }
}

/// Reads the arguments or subscripts behind a name.
#[cycle(expression)]
fn named(alloc: Global, cursor: &mut Cursor<'_>, text: &Text, at: Place) -> Result<Expr, Stop>
    ensures found { IfOk result (λ e. Found (Named text.now at) (Ends 0) cursor.old (tree_of e) cursor.new) }
    ensures absent { IfAbsent result (Never (Named text.now at) (Ends 0) cursor.old) }
    ensures shorter { OnOk result (length cursor.new ≤ length cursor.old) }
{
    let name = text.copy(alloc)?;
    if cursor.eat(Punct::LeftParen) {
        let args = arguments(alloc, cursor)?;
        return Ok(Expr::call(name, args, at));
    }
    let subscripts = subscripts(alloc, cursor)?;
    Ok(element(name, subscripts, at))
}

/// A name alone, or with subscripts.
fn element(name: Text, subscripts: Vec<Expr>, at: Place) -> Expr
    ensures { tree_of result ≡ element name (map tree_of subscripts.items) at }
{
    if subscripts.is_empty() {
        Expr::name(name, at)
    } else {
        Expr::index(name, subscripts, at)
    }
}

/// Reads what stands between the parentheses of a call, and the closing one.
#[cycle(expression)]
fn arguments(alloc: Global, cursor: &mut Cursor<'_>) -> Result<Vec<Expr>, Stop>
    ensures found { IfOk result (λ args. Found Arguments Anywhere cursor.old (map tree_of args.items) cursor.new) }
    ensures absent { IfAbsent result (Never Arguments Anywhere cursor.old) }
    ensures shorter { OnOk result (length cursor.new < length cursor.old) }
{
    if cursor.eat(Punct::RightParen) {
        return Ok(Vec::new(alloc));
    }
    argument_list(alloc, cursor)
}

/// Reads one argument or more, and the closing parenthesis.
#[cycle(expression)]
fn argument_list(alloc: Global, cursor: &mut Cursor<'_>) -> Result<Vec<Expr>, Stop>
    ensures found { IfOk result (λ args. Found (Listed (Expression 14) p.RightParen) Anywhere cursor.old (map tree_of args.items) cursor.new) }
    ensures absent { IfAbsent result (Never (Listed (Expression 14) p.RightParen) Anywhere cursor.old) }
    ensures shorter { OnOk result (length cursor.new < length cursor.old) }
{
    let mut args = Vec::new(alloc);
    loop {
        let arg = assignment(alloc, cursor)?;
        args.push(arg)?;
        if !cursor.eat(Punct::Comma) {
            break;
        }
    }
    cursor.expect(Punct::RightParen)?;
    Ok(args)
}

/// Reads all subscripts that come next.
#[cycle(expression)]
fn subscripts(alloc: Global, cursor: &mut Cursor<'_>) -> Result<Vec<Expr>, Stop>
    ensures found { IfOk result (λ es. Found Subscripts (Ends 0) cursor.old (map tree_of es.items) cursor.new) }
    ensures absent { IfAbsent result (Never Subscripts (Ends 0) cursor.old) }
    ensures shorter { OnOk result (length cursor.new ≤ length cursor.old) }
{
    let mut es = Vec::new(alloc);
    while cursor.eat(Punct::LeftBracket) {
        let e = closed(alloc, cursor, COMMA, Punct::RightBracket)?;
        es.push(e)?;
    }
    Ok(es)
}
