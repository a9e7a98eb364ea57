ghost use Rattle.std.specs.Prelude.{IfOk};
ghost use Rattle.c_syntax.specs.Steps.{Steps, StepsOrStays, action, action_subscripts, action_target, actions, more_actions};

use crate::sorts::sort::Sort;
use crate::steps::expression::{choice, operator, question, subscript};
use crate::steps::goal::{Goal, Raise, Spot, Stack, Take};
use std::alloc::AllocError;

pub fn action(
    stack: &mut Stack,
    spot: Spot,
    depth: u8,
    sort: Sort,
) -> Result<Option<Take>, AllocError>
    ensures { IfOk result (λ taken. Steps taken stack.old stack.new (action spot depth sort)) }
{
    let first = spot.index;
    match sort {
        Sort::Name => {
            let behind = Goal::AfterTarget {
                named: true,
                action: true,
                depth,
                first,
            };
            spot.take(stack, depth, &[behind])
        }
        Sort::Bump => spot.take(stack, depth, &[Goal::ActionTarget { depth, first }]),
        _ => choice(stack, spot, depth, sort),
    }
}

pub fn actions(
    stack: &mut Stack,
    spot: Spot,
    depth: u8,
    sort: Sort,
) -> Result<Option<Take>, AllocError>
    ensures { IfOk result (λ taken. StepsOrStays taken stack.old stack.new (actions spot depth sort)) }
{
    if !sort.begins_operand() {
        return Ok(None);
    }
    stack.put(&[Goal::MoreActions { depth }])?;
    action(stack, spot, depth, sort)
}

pub fn more_actions(
    stack: &mut Stack,
    spot: Spot,
    depth: u8,
    sort: Sort,
) -> Result<Option<Take>, AllocError>
    ensures { IfOk result (λ taken. StepsOrStays taken stack.old stack.new (more_actions spot depth sort)) }
{
    match sort {
        Sort::Comma => spot.fresh().take(
            stack,
            depth,
            &[Goal::Action { depth }, Goal::MoreActions { depth }],
        ),
        _ => Ok(None),
    }
}

pub fn action_target(
    stack: &mut Stack,
    spot: Spot,
    depth: u8,
    first: usize,
    sort: Sort,
) -> Result<Option<Take>, AllocError>
    ensures { IfOk result (λ taken. Steps taken stack.old stack.new (action_target spot depth first sort)) }
{
    match sort {
        Sort::Name => spot.take(stack, depth, &[Goal::ActionSubscripts { depth, first }]),
        _ => Ok(None),
    }
}

/// Where the action goes on, its `++` or `--` was a prefix operator of an expression.
pub fn action_subscripts(
    stack: &mut Stack,
    spot: Spot,
    depth: u8,
    first: usize,
    sort: Sort,
) -> Result<Option<Take>, AllocError>
    ensures { IfOk result (λ taken. StepsOrStays taken stack.old stack.new (action_subscripts spot depth first sort)) }
{
    match sort {
        Sort::LeftBracket => {
            let behind = Goal::ActionSubscripts { depth, first };
            subscript(stack, spot, depth, behind)
        }
        Sort::Sign | Sort::Operator => operator(stack, spot, depth, first, Raise::Behind(first)),
        Sort::Question => question(stack, spot, depth, Raise::Both(first)),
        _ => Ok(None),
    }
}
