ghost use Rattle.std.specs.Prelude.{IfOk, ◌≡◌, ◌++◌};
ghost use Rattle.c_syntax.specs.Steps.{Steps, StepsOrStays, inner_statement, iteration, selection, first_action, test_goals, for_goals, block, body, first, other_branch, statement};

use crate::sorts::sort::Sort;
use crate::steps::action::action;
use crate::steps::declaration::declaration;
use crate::steps::goal::{Goal, Spot, Stack, Take, deeper};
use std::alloc::AllocError;

/// A statement behind so many constructs, which holds all its tokens.
pub fn statement(
    stack: &mut Stack,
    spot: Spot,
    depth: u8,
    sort: Sort,
) -> Result<Option<Take>, AllocError>
    ensures { IfOk result (λ taken. Steps taken stack.old stack.new (statement spot depth sort)) }
{
    inner_statement(stack, spot.fresh(), deeper(depth), sort)
}

fn inner_statement(
    stack: &mut Stack,
    spot: Spot,
    depth: u8,
    sort: Sort,
) -> Result<Option<Take>, AllocError>
    ensures { IfOk result (λ taken. Steps taken stack.old stack.new (inner_statement spot depth sort)) }
{
    let colon = Goal::LabelColon { depth };
    let body = Goal::Statement { depth };
    let semicolon = Goal::Semicolon { depth };
    match sort {
        Sort::LeftBrace => spot.take(stack, depth, &[Goal::Body { depth }]),
        Sort::Semicolon => spot.take(stack, depth, &[]),
        Sort::Case => spot.take(stack, depth, &[Goal::Choice { depth }, colon, body]),
        Sort::Default => spot.take(stack, depth, &[colon, body]),
        Sort::Break | Sort::Continue => spot.take(stack, depth, &[semicolon]),
        Sort::Return => {
            let value = Goal::OptionalExpression { depth };
            spot.take(stack, depth, &[value, semicolon])
        }
        _ => iteration(stack, spot, depth, sort),
    }
}

/// Puts an expression in parentheses on the stack.
fn put_test(stack: &mut Stack, depth: u8) -> Result<(), AllocError>
    ensures { IfOk result (λ _. stack.new ≡ test_goals depth stack.old) }
{
    let inside = deeper(depth);
    stack.put(&[
        Goal::OpenParen { depth },
        Goal::Expression { depth: inside },
        Goal::CloseParen { depth, count: 0 },
    ])
}

/// Puts the three parts of a `for` and its body on the stack.
fn put_for(stack: &mut Stack, depth: u8) -> Result<(), AllocError>
    ensures { IfOk result (λ _. stack.new ≡ for_goals depth ++ stack.old) }
{
    let inside = deeper(depth);
    stack.put(&[
        Goal::OpenParen { depth },
        Goal::First { depth: inside },
        Goal::OptionalExpression { depth: inside },
        Goal::Semicolon { depth: inside },
        Goal::Actions { depth: inside },
        Goal::CloseParen { depth, count: 0 },
        Goal::Statement { depth },
    ])
}

fn iteration(
    stack: &mut Stack,
    spot: Spot,
    depth: u8,
    sort: Sort,
) -> Result<Option<Take>, AllocError>
    ensures { IfOk result (λ taken. Steps taken stack.old stack.new (iteration spot depth sort)) }
{
    match sort {
        Sort::While => {
            stack.put(&[Goal::Statement { depth }])?;
            put_test(stack, depth)?;
            spot.take(stack, depth, &[])
        }
        Sort::Do => {
            stack.put(&[Goal::Semicolon { depth }])?;
            put_test(stack, depth)?;
            spot.take(
                stack,
                depth,
                &[Goal::Statement { depth }, Goal::Again { depth }],
            )
        }
        Sort::For => {
            put_for(stack, depth)?;
            spot.take(stack, depth, &[])
        }
        _ => selection(stack, spot, depth, sort),
    }
}

fn selection(
    stack: &mut Stack,
    spot: Spot,
    depth: u8,
    sort: Sort,
) -> Result<Option<Take>, AllocError>
    ensures { IfOk result (λ taken. Steps taken stack.old stack.new (selection spot depth sort)) }
{
    match sort {
        Sort::If => {
            stack.put(&[Goal::Statement { depth }, Goal::Else { depth }])?;
            put_test(stack, depth)?;
            spot.take(stack, depth, &[])
        }
        Sort::Switch => {
            stack.put(&[Goal::Block { depth }])?;
            put_test(stack, depth)?;
            spot.take(stack, depth, &[])
        }
        _ => first_action(stack, spot, depth, sort),
    }
}

/// Actions with commas between, and the semicolon.
fn first_action(
    stack: &mut Stack,
    spot: Spot,
    depth: u8,
    sort: Sort,
) -> Result<Option<Take>, AllocError>
    ensures { IfOk result (λ taken. Steps taken stack.old stack.new (first_action spot depth sort)) }
{
    stack.put(&[Goal::MoreActions { depth }, Goal::Semicolon { depth }])?;
    action(stack, spot, depth, sort)
}

pub fn other_branch(
    stack: &mut Stack,
    spot: Spot,
    depth: u8,
    sort: Sort,
) -> Result<Option<Take>, AllocError>
    ensures { IfOk result (λ taken. StepsOrStays taken stack.old stack.new (other_branch spot depth sort)) }
{
    match sort {
        Sort::Else => spot.take(stack, depth, &[Goal::Statement { depth }]),
        _ => Ok(None),
    }
}

/// The block of a `switch`, which is a statement of its own.
pub fn block(
    stack: &mut Stack,
    spot: Spot,
    depth: u8,
    sort: Sort,
) -> Result<Option<Take>, AllocError>
    ensures { IfOk result (λ taken. Steps taken stack.old stack.new (block spot depth sort)) }
{
    let depth = deeper(depth);
    match sort {
        Sort::LeftBrace => spot.take(stack, depth, &[Goal::Body { depth }]),
        _ => Ok(None),
    }
}

pub fn body(
    stack: &mut Stack,
    spot: Spot,
    depth: u8,
    sort: Sort,
) -> Result<Option<Take>, AllocError>
    ensures { IfOk result (λ taken. Steps taken stack.old stack.new (body spot depth sort)) }
{
    if sort == Sort::RightBrace {
        return spot.take(stack, depth, &[]);
    }
    stack.put(&[Goal::Body { depth }])?;
    if sort.begins_kind() {
        declaration(stack, spot, depth, sort)
    } else {
        statement(stack, spot, depth, sort)
    }
}

pub fn first(
    stack: &mut Stack,
    spot: Spot,
    depth: u8,
    sort: Sort,
) -> Result<Option<Take>, AllocError>
    ensures { IfOk result (λ taken. Steps taken stack.old stack.new (first spot depth sort)) }
{
    if sort == Sort::Semicolon {
        return spot.take(stack, depth, &[]);
    }
    if sort.begins_kind() {
        return declaration(stack, spot, depth, sort);
    }
    first_action(stack, spot, depth, sort)
}
