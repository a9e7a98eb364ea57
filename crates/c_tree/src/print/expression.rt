ghost use Rattle.std.specs.Prelude.{◌≡◌, ◌∷◌, [], ◌++◌, OnOk, true, false};
ghost use Rattle.c_tree.specs.View.{tree_of, target_of, trees_of};
ghost use Rattle.c_tree.specs.Grammar as grammar;
ghost use Rattle.c_tree.specs.Rows as rows;
ghost use Rattle.c_tree.specs.Behind.{behind_row, branch_row, cast_row, bump_row, call_row};
ghost use Rattle.c_tree.specs.declared.print.row.Written.TheVariants as w;
ghost use Rattle.c_token.specs.declared.token.TokenKind.TheVariants as k;

use crate::expression::{Expr, Target};
use crate::operator::{Binary, Unary};
use crate::print::behind::{Behind, push_opening};
use crate::print::kind::push_kind;
use crate::print::row::{Written, push_comma, push_sign, push_word};
use c_token::ctype::CType;
use c_token::punct::Punct;
use c_token::token::TokenKind;
use hls_base::text::Text;
use std::alloc::{AllocError, Global};

pub const UNARY_LEVEL: u8 = 2;

pub const BINARY_LEVEL: u8 = 12;

pub const CHOICE_LEVEL: u8 = 13;

pub const ASSIGN_LEVEL: u8 = 14;

pub const COMMA_LEVEL: u8 = 15;

fn prefix_sign(op: Unary) -> Punct
    ensures { result ≡ rows.prefix_sign op }
{
    match op {
        Unary::Plus => Punct::Plus,
        Unary::Minus => Punct::Minus,
        Unary::Not => Punct::Tilde,
        Unary::LogNot => Punct::Bang,
    }
}

fn operator_sign(op: Binary) -> Punct
    ensures { result ≡ rows.operator_sign op }
{
    match op {
        Binary::Mul => Punct::Star,
        Binary::Div => Punct::Slash,
        Binary::Rem => Punct::Percent,
        Binary::Add => Punct::Plus,
        Binary::Sub => Punct::Minus,
        Binary::Shl => Punct::ShiftLeft,
        Binary::Shr => Punct::ShiftRight,
        Binary::Lt => Punct::Less,
        Binary::Gt => Punct::Greater,
        Binary::Le => Punct::LessEqual,
        Binary::Ge => Punct::GreaterEqual,
        Binary::Eq => Punct::EqualEqual,
        Binary::Ne => Punct::BangEqual,
        Binary::And => Punct::Amp,
        Binary::Xor => Punct::Caret,
        Binary::Or => Punct::Bar,
        Binary::LogAnd => Punct::AmpAmp,
        Binary::LogOr => Punct::BarBar,
    }
}

pub fn assignment_sign(op: Option<Binary>) -> Punct
    ensures { result ≡ rows.assignment_sign op }
{
    match op {
        Some(Binary::Mul) => Punct::StarEqual,
        Some(Binary::Div) => Punct::SlashEqual,
        Some(Binary::Rem) => Punct::PercentEqual,
        Some(Binary::Add) => Punct::PlusEqual,
        Some(Binary::Sub) => Punct::MinusEqual,
        Some(Binary::Shl) => Punct::ShiftLeftEqual,
        Some(Binary::Shr) => Punct::ShiftRightEqual,
        Some(Binary::And) => Punct::AmpEqual,
        Some(Binary::Xor) => Punct::CaretEqual,
        Some(Binary::Or) => Punct::BarEqual,
        _ => Punct::Equal,
    }
}

pub fn bump_sign(up: bool) -> Punct
    ensures { result ≡ rows.bump_sign up }
{
    if up {
        Punct::PlusPlus
    } else {
        Punct::MinusMinus
    }
}

/// How loosely the operator holds its operands together, C11 6.5.5 to 6.5.14.
fn level_of(op: Binary) -> u8
    ensures { result ≡ grammar.level_of op }
{
    match op {
        Binary::Mul | Binary::Div | Binary::Rem => 3,
        Binary::Add | Binary::Sub => 4,
        Binary::Shl | Binary::Shr => 5,
        Binary::Lt | Binary::Gt | Binary::Le | Binary::Ge => 6,
        Binary::Eq | Binary::Ne => 7,
        Binary::And => 8,
        Binary::Xor => 9,
        Binary::Or => 10,
        Binary::LogAnd => 11,
        Binary::LogOr => 12,
    }
}

fn own_level(e: &Expr) -> u8
    ensures { result ≡ rows.own_level (tree_of e.now) }
{
    match e {
        Expr::Binary { op, .. } => level_of(*op),
        Expr::Bump { post, .. } => { if *post { 1 } else { UNARY_LEVEL } }
        Expr::Unary { .. } | Expr::Cast { .. } => UNARY_LEVEL,
        Expr::Choice { .. } => CHOICE_LEVEL,
        Expr::Assign { .. } => ASSIGN_LEVEL,
        Expr::Comma { .. } => COMMA_LEVEL,
        _ => 0,
    }
}

/// Appends a sign with a space on each side.
pub fn push_infix(row: &mut Vec<Written>, punct: Punct) -> Result<(), AllocError>
    ensures { OnOk result (row.new.items ≡ row.old.items ++ rows.infix_row punct) }
{
    row.push(Written::Space)?;
    push_sign(row, punct)?;
    row.push(Written::Space)?;
    Ok(())
}

/// Appends an expression where one of this level may stand, in parentheses if its own is looser.
///
/// Operators of one chain are gone through in a loop, so that the depth of the recursion is bounded by how deep the source nests.
#[cycle(expression)]
pub fn push_expression(
    alloc: Global,
    row: &mut Vec<Written>,
    level: u8,
    e: &Expr,
) -> Result<(), AllocError>
    ensures { OnOk result (row.new.items ≡ row.old.items ++ rows.expression_row level (tree_of e.now)) }
{
    let mut behind = Vec::new(alloc);
    let mut level = level;
    let mut part = e;
    'chain: loop {
        push_opening(row, &mut behind, own_level(part) <= level)?;
        match part {
            Expr::Binary {
                op,
                left,
                right,
                ..
            } => {
                behind.push(Behind::Operator(*op, right))?;
                level = level_of(*op);
                part = left;
            }
            Expr::Comma { left, right, .. } => {
                behind.push(Behind::Comma(right))?;
                level = COMMA_LEVEL;
                part = left;
            }
            Expr::Assign {
                target,
                op,
                value,
                ..
            } => {
                push_target(alloc, row, target)?;
                push_infix(row, assignment_sign(*op))?;
                level = ASSIGN_LEVEL;
                part = value;
            }
            Expr::Choice { test, yes, no, .. } => {
                push_branch(alloc, row, test, yes)?;
                level = CHOICE_LEVEL;
                part = no;
            }
            Expr::Cast { to, arg, .. } => {
                push_cast(alloc, row, *to)?;
                level = UNARY_LEVEL;
                part = arg;
            }
            Expr::Unary { op, arg, .. } => {
                push_sign(row, prefix_sign(*op))?;
                level = UNARY_LEVEL;
                part = arg;
            }
            Expr::Bump {
                target,
                up,
                post,
                ..
            } => break push_bump(alloc, row, target, *up, *post)?,
            Expr::Call { callee, args, .. } => break push_call(alloc, row, callee, args)?,
            Expr::Index {
                array,
                subscripts,
                ..
            } => break push_element(alloc, row, array, subscripts)?,
            Expr::Name { name, .. } => break push_word(alloc, row, name.items())?,
            Expr::Number { value, kind, .. } => break push_number(row, *value, *kind)?,
        }
    }
    push_behind(alloc, row, behind)
}

/// Appends what stands behind an operand, from the last part on.
#[cycle(expression)]
fn push_behind(
    alloc: Global,
    row: &mut Vec<Written>,
    behind: Vec<Behind<'_>>,
) -> Result<(), AllocError>
    ensures { OnOk result (row.new.items ≡ row.old.items ++ behind_row behind.entry.items) }
{
    let mut behind = behind;
    while let Some(part) = behind.pop() {
        match part {
            Behind::Closing => push_sign(row, Punct::RightParen)?,
            Behind::Operator(op, right) => {
                push_infix(row, operator_sign(op))?;
                push_expression(alloc, row, level_of(op).saturating_sub(1), right)?;
            }
            Behind::Comma(right) => {
                push_comma(row)?;
                push_expression(alloc, row, ASSIGN_LEVEL, right)?;
            }
        }
    }
    Ok(())
}

/// Appends the first two operands of `?:`, with its signs.
#[cycle(expression)]
fn push_branch(
    alloc: Global,
    row: &mut Vec<Written>,
    test: &Expr,
    yes: &Expr,
) -> Result<(), AllocError>
    ensures { OnOk result (row.new.items ≡ row.old.items ++ branch_row (tree_of test.now) (tree_of yes.now)) }
{
    push_expression(alloc, row, BINARY_LEVEL, test)?;
    push_infix(row, Punct::Question)?;
    push_expression(alloc, row, COMMA_LEVEL, yes)?;
    push_infix(row, Punct::Colon)
}

/// Appends a type in parentheses.
fn push_cast(alloc: Global, row: &mut Vec<Written>, to: CType) -> Result<(), AllocError>
    ensures { OnOk result (row.new.items ≡ row.old.items ++ cast_row to) }
{
    push_sign(row, Punct::LeftParen)?;
    push_kind(alloc, row, false, to)?;
    push_sign(row, Punct::RightParen)
}

#[cycle(expression)]
fn push_bump(
    alloc: Global,
    row: &mut Vec<Written>,
    target: &Target,
    up: bool,
    post: bool,
) -> Result<(), AllocError>
    ensures { OnOk result (row.new.items ≡ row.old.items ++ bump_row (target_of target.now) up post) }
{
    if post {
        push_target(alloc, row, target)?;
        push_sign(row, bump_sign(up))
    } else {
        push_sign(row, bump_sign(up))?;
        push_target(alloc, row, target)
    }
}

#[cycle(expression)]
fn push_call(
    alloc: Global,
    row: &mut Vec<Written>,
    callee: &Text,
    args: &[Expr],
) -> Result<(), AllocError>
    ensures { OnOk result (row.new.items ≡ row.old.items ++ call_row callee.now (trees_of args.now)) }
{
    push_word(alloc, row, callee.items())?;
    push_sign(row, Punct::LeftParen)?;
    push_list(alloc, row, args)?;
    push_sign(row, Punct::RightParen)
}

#[cycle(expression)]
fn push_element(
    alloc: Global,
    row: &mut Vec<Written>,
    array: &Text,
    subscripts: &[Expr],
) -> Result<(), AllocError>
    ensures { OnOk result (row.new.items ≡ row.old.items ++ rows.word array.now ∷ rows.subscripts_row (trees_of subscripts.now)) }
{
    push_word(alloc, row, array.items())?;
    push_subscripts(alloc, row, subscripts)
}

#[cycle(expression)]
pub fn push_target(alloc: Global, row: &mut Vec<Written>, target: &Target) -> Result<(), AllocError>
    ensures { OnOk result (row.new.items ≡ row.old.items ++ rows.target_row (target_of target.now)) }
{
    push_element(alloc, row, &target.name, &target.subscripts)
}

#[cycle(expression)]
fn push_subscripts(
    alloc: Global,
    row: &mut Vec<Written>,
    subscripts: &[Expr],
) -> Result<(), AllocError>
    ensures { OnOk result (row.new.items ≡ row.old.items ++ rows.subscripts_row (trees_of subscripts.now)) }
{
    for subscript in subscripts {
        push_sign(row, Punct::LeftBracket)?;
        push_expression(alloc, row, COMMA_LEVEL, subscript)?;
        push_sign(row, Punct::RightBracket)?;
    }
    Ok(())
}

/// Appends expressions with commas between.
#[cycle(expression)]
fn push_list(alloc: Global, row: &mut Vec<Written>, args: &[Expr]) -> Result<(), AllocError>
    ensures { OnOk result (row.new.items ≡ row.old.items ++ rows.list_row (trees_of args.now)) }
{
    let mut first = true;
    for arg in args {
        if !first {
            push_comma(row)?;
        }
        first = false;
        push_expression(alloc, row, ASSIGN_LEVEL, arg)?;
    }
    Ok(())
}

fn push_number(row: &mut Vec<Written>, value: u64, kind: CType) -> Result<(), AllocError>
    ensures { OnOk result (row.new.items ≡ row.old.items ++ w.Token (k.Number value kind) ∷ []) }
{
    row.push(Written::Token(TokenKind::Number { value, kind }))?;
    Ok(())
}
