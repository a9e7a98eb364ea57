ghost use Rattle.std.specs.Prelude.{IfOk, ◌∷◌, []};
ghost use Rattle.c_syntax.specs.Steps.{Steps, StepsOrStays, after_declarator, declarator, definition, function_name, item, items, more_params, optional_name, params, typed};

use crate::sorts::sort::Sort;
use crate::sorts::words::Words;
use crate::steps::declaration::kind;
use crate::steps::goal::{Goal, Spot, Stack, Take, deeper};
use c_tree::specifier::Specifier;
use std::alloc::AllocError;

pub fn items(stack: &mut Stack, spot: Spot, sort: Sort) -> Result<Option<Take>, AllocError>
    ensures { IfOk result (λ taken. StepsOrStays taken stack.old stack.new (items spot sort)) }
{
    match sort {
        Sort::Static | Sort::Inline | Sort::Const | Sort::TypeName | Sort::Specifier(_) => {
            stack.put(&[Goal::Items])?;
            item(stack, spot, false, sort)
        }
        _ => Ok(None),
    }
}

/// An item, behind a `const` or not. `void` is the type of a function alone.
pub fn item(
    stack: &mut Stack,
    spot: Spot,
    constant: bool,
    sort: Sort,
) -> Result<Option<Take>, AllocError>
    ensures { IfOk result (λ taken. Steps taken stack.old stack.new (item spot constant sort)) }
{
    match sort {
        Sort::Static | Sort::Inline if !constant => {
            spot.take(stack, 0, &[Goal::Item { constant: false }])
        }
        Sort::Const => spot.take(stack, 0, &[Goal::Item { constant: true }]),
        Sort::TypeName => typed(stack, spot, Words::Named, Goal::Declarator),
        Sort::Specifier(Specifier::Void) => typed(stack, spot, Words::Void, Goal::FunctionName),
        Sort::Specifier(specifier) => {
            typed(stack, spot, Words::starting(specifier), Goal::Declarator)
        }
        _ => Ok(None),
    }
}

fn typed(
    stack: &mut Stack,
    spot: Spot,
    words: Words,
    behind: Goal,
) -> Result<Option<Take>, AllocError>
    ensures { IfOk result (λ taken. Steps taken stack.old stack.new (typed spot 0 words (behind ∷ []))) }
{
    spot.take(stack, 0, &[Goal::KindWords { words, depth: 0 }, behind])
}

pub fn function_name(stack: &mut Stack, spot: Spot, sort: Sort) -> Result<Option<Take>, AllocError>
    ensures { IfOk result (λ taken. Steps taken stack.old stack.new (function_name spot sort)) }
{
    match sort {
        Sort::Name => spot.take(
            stack,
            0,
            &[
                Goal::OpenParen { depth: 0 },
                Goal::Params,
                Goal::CloseParen { depth: 0, count: 0 },
                Goal::Definition,
            ],
        ),
        _ => Ok(None),
    }
}

pub fn declarator(stack: &mut Stack, spot: Spot, sort: Sort) -> Result<Option<Take>, AllocError>
    ensures { IfOk result (λ taken. Steps taken stack.old stack.new (declarator spot sort)) }
{
    match sort {
        Sort::Name => spot.take(stack, 0, &[Goal::AfterDeclarator]),
        _ => Ok(None),
    }
}

/// What stands behind the first name of an item: the parameters of a function, or the rest of objects.
pub fn after_declarator(
    stack: &mut Stack,
    spot: Spot,
    sort: Sort,
) -> Result<Option<Take>, AllocError>
    ensures { IfOk result (λ taken. Steps taken stack.old stack.new (after_declarator spot sort)) }
{
    let depth = 0;
    let spot = spot.fresh();
    if sort == Sort::LeftParen {
        let close = Goal::CloseParen { depth, count: 0 };
        return spot.take(stack, depth, &[Goal::Params, close, Goal::Definition]);
    }
    if sort == Sort::Semicolon {
        return spot.take(stack, depth, &[]);
    }
    stack.put(&[Goal::MoreObjects { depth }, Goal::Semicolon { depth }])?;
    match sort {
        Sort::LeftBracket => spot.take(
            stack,
            depth,
            &[
                Goal::OptionalChoice {
                    depth: deeper(depth),
                },
                Goal::CloseBracket { depth, count: 0 },
                Goal::Lengths { depth },
                Goal::Initialiser { depth },
            ],
        ),
        Sort::Equal => spot.take(stack, depth, &[Goal::Init { depth }]),
        Sort::Comma => spot.take(stack, depth, &[Goal::Object { depth }]),
        _ => Ok(None),
    }
}

pub fn definition(stack: &mut Stack, spot: Spot, sort: Sort) -> Result<Option<Take>, AllocError>
    ensures { IfOk result (λ taken. Steps taken stack.old stack.new (definition spot sort)) }
{
    match sort {
        Sort::Semicolon => spot.take(stack, 0, &[]),
        Sort::LeftBrace => spot.take(stack, 0, &[Goal::Body { depth: 0 }]),
        _ => Ok(None),
    }
}

pub fn params(stack: &mut Stack, spot: Spot, sort: Sort) -> Result<Option<Take>, AllocError>
    ensures { IfOk result (λ taken. StepsOrStays taken stack.old stack.new (params spot sort)) }
{
    let depth = deeper(0);
    if sort == Sort::Specifier(Specifier::Void) {
        return spot.take(stack, depth, &[]);
    }
    if !sort.begins_kind() {
        return Ok(None);
    }
    stack.put(&[
        Goal::OptionalName { depth },
        Goal::Lengths { depth },
        Goal::MoreParams,
    ])?;
    kind(stack, spot, depth, sort)
}

pub fn more_params(stack: &mut Stack, spot: Spot, sort: Sort) -> Result<Option<Take>, AllocError>
    ensures { IfOk result (λ taken. StepsOrStays taken stack.old stack.new (more_params spot sort)) }
{
    let depth = deeper(0);
    match sort {
        Sort::Comma => spot.take(
            stack,
            depth,
            &[
                Goal::Kind { depth },
                Goal::OptionalName { depth },
                Goal::Lengths { depth },
                Goal::MoreParams,
            ],
        ),
        _ => Ok(None),
    }
}

pub fn optional_name(
    stack: &mut Stack,
    spot: Spot,
    depth: u8,
    sort: Sort,
) -> Result<Option<Take>, AllocError>
    ensures { IfOk result (λ taken. StepsOrStays taken stack.old stack.new (optional_name spot depth sort)) }
{
    match sort {
        Sort::Name => spot.take(stack, depth, &[]),
        _ => Ok(None),
    }
}
