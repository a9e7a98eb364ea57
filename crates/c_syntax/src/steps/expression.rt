ghost use Rattle.std.specs.Prelude.{IfOk};
ghost use Rattle.c_syntax.specs.Steps.{Steps, StepsOrStays, expression, after_operand, after_target, arguments, assign, assignment, choice, choice_colon, commas, group, more_arguments, operand, operator, operators, question, subscript, subscripts, target};

use crate::sorts::sort::Sort;
use crate::steps::goal::{Goal, Raise, Spot, Stack, Take, deeper};
use std::alloc::AllocError;

/// Takes the bracket of a subscript, behind which these goals are left.
pub fn subscript(
    stack: &mut Stack,
    spot: Spot,
    depth: u8,
    behind: Goal,
) -> Result<Option<Take>, AllocError>
    ensures { IfOk result (λ taken. Steps taken stack.old stack.new (subscript spot depth behind)) }
{
    let inside = deeper(depth);
    let close = Goal::CloseBracket {
        depth,
        count: spot.count,
    };
    spot.fresh().take(
        stack,
        depth,
        &[Goal::Expression { depth: inside }, close, behind],
    )
}

pub fn operand(
    stack: &mut Stack,
    spot: Spot,
    depth: u8,
    sort: Sort,
) -> Result<Option<Take>, AllocError>
    ensures { IfOk result (λ taken. Steps taken stack.old stack.new (operand spot depth sort)) }
{
    let inside = deeper(depth);
    match sort {
        Sort::Number => spot.take(stack, depth, &[]),
        Sort::Name => spot.take(stack, depth, &[Goal::AfterOperand { named: true, depth }]),
        Sort::LeftParen => spot.take(stack, depth, &[Goal::Group { depth }]),
        Sort::Prefix | Sort::Sign => spot.take(stack, depth, &[Goal::Operand { depth: inside }]),
        Sort::Bump => spot.take(stack, depth, &[Goal::Target { depth: inside }]),
        _ => Ok(None),
    }
}

pub fn target(
    stack: &mut Stack,
    spot: Spot,
    depth: u8,
    sort: Sort,
) -> Result<Option<Take>, AllocError>
    ensures { IfOk result (λ taken. Steps taken stack.old stack.new (target spot depth sort)) }
{
    match sort {
        Sort::Name => spot.take(stack, depth, &[Goal::Subscripts { depth }]),
        _ => Ok(None),
    }
}

pub fn subscripts(
    stack: &mut Stack,
    spot: Spot,
    depth: u8,
    sort: Sort,
) -> Result<Option<Take>, AllocError>
    ensures { IfOk result (λ taken. StepsOrStays taken stack.old stack.new (subscripts spot depth sort)) }
{
    match sort {
        Sort::LeftBracket => subscript(stack, spot, depth, Goal::Subscripts { depth }),
        _ => Ok(None),
    }
}

pub fn after_operand(
    stack: &mut Stack,
    spot: Spot,
    named: bool,
    depth: u8,
    sort: Sort,
) -> Result<Option<Take>, AllocError>
    ensures { IfOk result (λ taken. StepsOrStays taken stack.old stack.new (after_operand spot named depth sort)) }
{
    match sort {
        Sort::LeftParen if named => {
            let close = Goal::CloseParen {
                depth,
                count: spot.count,
            };
            let inside = deeper(depth);
            spot.fresh()
                .take(stack, depth, &[Goal::Arguments { depth: inside }, close])
        }
        Sort::LeftBracket => {
            let behind = Goal::AfterOperand {
                named: false,
                depth,
            };
            subscript(stack, spot, depth, behind)
        }
        Sort::Bump => spot.take(stack, depth, &[]),
        _ => Ok(None),
    }
}

pub fn group(
    stack: &mut Stack,
    spot: Spot,
    depth: u8,
    sort: Sort,
) -> Result<Option<Take>, AllocError>
    ensures { IfOk result (λ taken. Steps taken stack.old stack.new (group spot depth sort)) }
{
    let inside = deeper(depth);
    let close = Goal::CloseParen {
        depth,
        count: spot.count,
    };
    if sort.begins_kind() {
        stack.put(&[close, Goal::Operand { depth: inside }])?;
        crate::steps::declaration::kind(stack, spot, inside, sort)
    } else {
        stack.put(&[close])?;
        expression(stack, spot.fresh(), inside, sort)
    }
}

pub fn arguments(
    stack: &mut Stack,
    spot: Spot,
    depth: u8,
    sort: Sort,
) -> Result<Option<Take>, AllocError>
    ensures { IfOk result (λ taken. StepsOrStays taken stack.old stack.new (arguments spot depth sort)) }
{
    if !sort.begins_operand() {
        return Ok(None);
    }
    stack.put(&[Goal::MoreArguments { depth }])?;
    assign(stack, spot, depth, sort)
}

pub fn more_arguments(
    stack: &mut Stack,
    spot: Spot,
    depth: u8,
    sort: Sort,
) -> Result<Option<Take>, AllocError>
    ensures { IfOk result (λ taken. StepsOrStays taken stack.old stack.new (more_arguments spot depth sort)) }
{
    match sort {
        Sort::Comma => spot.fresh().take(
            stack,
            depth,
            &[Goal::Assign { depth }, Goal::MoreArguments { depth }],
        ),
        _ => Ok(None),
    }
}

/// An expression without assignment and comma.
pub fn choice(
    stack: &mut Stack,
    spot: Spot,
    depth: u8,
    sort: Sort,
) -> Result<Option<Take>, AllocError>
    ensures { IfOk result (λ taken. Steps taken stack.old stack.new (choice spot depth sort)) }
{
    stack.put(&[Goal::Operators {
        depth,
        first: spot.index,
    }])?;
    operand(stack, spot, depth, sort)
}

pub fn assign(
    stack: &mut Stack,
    spot: Spot,
    depth: u8,
    sort: Sort,
) -> Result<Option<Take>, AllocError>
    ensures { IfOk result (λ taken. Steps taken stack.old stack.new (assign spot depth sort)) }
{
    match sort {
        Sort::Name => {
            let behind = Goal::AfterTarget {
                named: true,
                action: false,
                depth,
                first: spot.index,
            };
            spot.take(stack, depth, &[behind])
        }
        _ => choice(stack, spot, depth, sort),
    }
}

/// An expression, C11 6.5.17.
pub fn expression(
    stack: &mut Stack,
    spot: Spot,
    depth: u8,
    sort: Sort,
) -> Result<Option<Take>, AllocError>
    ensures { IfOk result (λ taken. Steps taken stack.old stack.new (expression spot depth sort)) }
{
    stack.put(&[Goal::Commas { depth }])?;
    assign(stack, spot, depth, sort)
}

pub fn commas(
    stack: &mut Stack,
    spot: Spot,
    depth: u8,
    sort: Sort,
) -> Result<Option<Take>, AllocError>
    ensures { IfOk result (λ taken. StepsOrStays taken stack.old stack.new (commas spot depth sort)) }
{
    match sort {
        Sort::Comma => spot.operate(
            stack,
            depth,
            Raise::Nothing,
            &[Goal::Assign { depth }, Goal::Commas { depth }],
        ),
        _ => Ok(None),
    }
}

/// An operator, which says this of the tokens before.
pub fn operator(
    stack: &mut Stack,
    spot: Spot,
    depth: u8,
    first: usize,
    raise: Raise,
) -> Result<Option<Take>, AllocError>
    ensures { IfOk result (λ taken. Steps taken stack.old stack.new (operator spot depth first raise)) }
{
    spot.operate(
        stack,
        depth,
        raise,
        &[Goal::Operand { depth }, Goal::Operators { depth, first }],
    )
}

/// The question mark of a choice, which says this of the tokens before.
pub fn question(
    stack: &mut Stack,
    spot: Spot,
    depth: u8,
    raise: Raise,
) -> Result<Option<Take>, AllocError>
    ensures { IfOk result (λ taken. Steps taken stack.old stack.new (question spot depth raise)) }
{
    let inside = deeper(depth);
    spot.raise(
        stack,
        depth,
        raise,
        &[
            Goal::Expression { depth: inside },
            Goal::ChoiceColon { depth },
        ],
    )
}

pub fn operators(
    stack: &mut Stack,
    spot: Spot,
    depth: u8,
    first: usize,
    sort: Sort,
) -> Result<Option<Take>, AllocError>
    ensures { IfOk result (λ taken. StepsOrStays taken stack.old stack.new (operators spot depth first sort)) }
{
    match sort {
        Sort::Sign | Sort::Operator => operator(stack, spot, depth, first, Raise::Nothing),
        Sort::Question => question(stack, spot, depth, Raise::From(first)),
        _ => Ok(None),
    }
}

pub fn choice_colon(
    stack: &mut Stack,
    spot: Spot,
    depth: u8,
    sort: Sort,
) -> Result<Option<Take>, AllocError>
    ensures { IfOk result (λ taken. Steps taken stack.old stack.new (choice_colon spot depth sort)) }
{
    let inside = deeper(depth);
    match sort {
        Sort::Colon => { spot.take(stack, depth, &[Goal::Choice { depth: inside }]) }
        _ => Ok(None),
    }
}

/// An assignment operator. That of an action is none of an expression.
fn assignment(
    stack: &mut Stack,
    spot: Spot,
    action: bool,
    depth: u8,
) -> Result<Option<Take>, AllocError>
    ensures { IfOk result (λ taken. Steps taken stack.old stack.new (assignment spot action depth)) }
{
    if action {
        spot.fresh().take(stack, depth, &[Goal::Assign { depth }])
    } else {
        spot.operate(stack, depth, Raise::Nothing, &[Goal::Assign { depth }])
    }
}

pub fn after_target(
    stack: &mut Stack,
    spot: Spot,
    named: bool,
    action: bool,
    depth: u8,
    first: usize,
    sort: Sort,
) -> Result<Option<Take>, AllocError>
    ensures { IfOk result (λ taken. StepsOrStays taken stack.old stack.new (after_target spot named action depth first sort)) }
{
    let rest = Goal::Operators { depth, first };
    match sort {
        Sort::LeftParen if named => {
            let close = Goal::CloseParen {
                depth,
                count: spot.count,
            };
            let inside = deeper(depth);
            spot.fresh().take(
                stack,
                depth,
                &[Goal::Arguments { depth: inside }, close, rest],
            )
        }
        Sort::LeftBracket => {
            let behind = Goal::AfterTarget {
                named: false,
                action,
                depth,
                first,
            };
            subscript(stack, spot, depth, behind)
        }
        Sort::Bump => spot.take(stack, depth, &[rest]),
        Sort::Equal | Sort::Assignment => assignment(stack, spot, action, depth),
        _ => operators(stack, spot, depth, first, sort),
    }
}

pub fn optional_choice(
    stack: &mut Stack,
    spot: Spot,
    depth: u8,
    sort: Sort,
) -> Result<Option<Take>, AllocError>
    ensures { IfOk result (λ taken. StepsOrStays taken stack.old stack.new (choice spot depth sort)) }
{
    if !sort.begins_operand() {
        return Ok(None);
    }
    choice(stack, spot, depth, sort)
}

pub fn optional_expression(
    stack: &mut Stack,
    spot: Spot,
    depth: u8,
    sort: Sort,
) -> Result<Option<Take>, AllocError>
    ensures { IfOk result (λ taken. StepsOrStays taken stack.old stack.new (expression spot depth sort)) }
{
    if !sort.begins_operand() {
        return Ok(None);
    }
    expression(stack, spot, depth, sort)
}
