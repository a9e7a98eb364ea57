ghost use Rattle.std.specs.Prelude.{IfOk};
ghost use Rattle.c_syntax.specs.Steps.{Steps, StepsOrStays, declaration, init, initialiser, kind, kind_words, lengths, more_inits, more_objects, object, optional_init};

use crate::sorts::sort::Sort;
use crate::sorts::words::Words;
use crate::steps::expression::assign;
use crate::steps::goal::{Goal, Spot, Stack, Take, deeper};
use c_tree::specifier::Specifier;
use std::alloc::AllocError;

/// A type that has values.
pub fn kind(
    stack: &mut Stack,
    spot: Spot,
    depth: u8,
    sort: Sort,
) -> Result<Option<Take>, AllocError>
    ensures { IfOk result (λ taken. Steps taken stack.old stack.new (kind spot depth sort)) }
{
    match sort {
        Sort::Const => spot.take(stack, depth, &[Goal::Kind { depth }]),
        Sort::TypeName => {
            let words = Words::Named;
            spot.take(stack, depth, &[Goal::KindWords { words, depth }])
        }
        Sort::Specifier(specifier) if specifier != Specifier::Void => {
            let words = Words::starting(specifier);
            spot.take(stack, depth, &[Goal::KindWords { words, depth }])
        }
        _ => Ok(None),
    }
}

pub fn kind_words(
    stack: &mut Stack,
    spot: Spot,
    words: Words,
    depth: u8,
    sort: Sort,
) -> Result<Option<Take>, AllocError>
    ensures { IfOk result (λ taken. StepsOrStays taken stack.old stack.new (kind_words spot words depth sort)) }
{
    match sort {
        Sort::Const => spot.take(stack, depth, &[Goal::KindWords { words, depth }]),
        Sort::Specifier(specifier) => match words.with(specifier) {
            Some(words) => spot.take(stack, depth, &[Goal::KindWords { words, depth }]),
            None => Ok(None),
        },
        _ => Ok(None),
    }
}

pub fn object(
    stack: &mut Stack,
    spot: Spot,
    depth: u8,
    sort: Sort,
) -> Result<Option<Take>, AllocError>
    ensures { IfOk result (λ taken. Steps taken stack.old stack.new (object spot depth sort)) }
{
    match sort {
        Sort::Name => spot.take(
            stack,
            depth,
            &[Goal::Lengths { depth }, Goal::Initialiser { depth }],
        ),
        _ => Ok(None),
    }
}

pub fn more_objects(
    stack: &mut Stack,
    spot: Spot,
    depth: u8,
    sort: Sort,
) -> Result<Option<Take>, AllocError>
    ensures { IfOk result (λ taken. StepsOrStays taken stack.old stack.new (more_objects spot depth sort)) }
{
    match sort {
        Sort::Comma => spot.take(
            stack,
            depth,
            &[Goal::Object { depth }, Goal::MoreObjects { depth }],
        ),
        _ => Ok(None),
    }
}

pub fn lengths(
    stack: &mut Stack,
    spot: Spot,
    depth: u8,
    sort: Sort,
) -> Result<Option<Take>, AllocError>
    ensures { IfOk result (λ taken. StepsOrStays taken stack.old stack.new (lengths spot depth sort)) }
{
    match sort {
        Sort::LeftBracket => spot.fresh().take(
            stack,
            depth,
            &[
                Goal::OptionalChoice {
                    depth: deeper(depth),
                },
                Goal::CloseBracket { depth, count: 0 },
                Goal::Lengths { depth },
            ],
        ),
        _ => Ok(None),
    }
}

pub fn initialiser(
    stack: &mut Stack,
    spot: Spot,
    depth: u8,
    sort: Sort,
) -> Result<Option<Take>, AllocError>
    ensures { IfOk result (λ taken. StepsOrStays taken stack.old stack.new (initialiser spot depth sort)) }
{
    match sort {
        Sort::Equal => spot.fresh().take(stack, depth, &[Goal::Init { depth }]),
        _ => Ok(None),
    }
}

pub fn init(
    stack: &mut Stack,
    spot: Spot,
    depth: u8,
    sort: Sort,
) -> Result<Option<Take>, AllocError>
    ensures { IfOk result (λ taken. Steps taken stack.old stack.new (init spot depth sort)) }
{
    let inside = deeper(depth);
    match sort {
        Sort::LeftBrace => spot.fresh().take(
            stack,
            depth,
            &[
                Goal::Init { depth: inside },
                Goal::MoreInits { depth: inside },
                Goal::CloseBrace { depth },
            ],
        ),
        _ => assign(stack, spot, depth, sort),
    }
}

pub fn more_inits(
    stack: &mut Stack,
    spot: Spot,
    depth: u8,
    sort: Sort,
) -> Result<Option<Take>, AllocError>
    ensures { IfOk result (λ taken. StepsOrStays taken stack.old stack.new (more_inits spot depth sort)) }
{
    match sort {
        Sort::Comma => spot
            .fresh()
            .take(stack, depth, &[Goal::OptionalInit { depth }]),
        _ => Ok(None),
    }
}

pub fn optional_init(
    stack: &mut Stack,
    spot: Spot,
    depth: u8,
    sort: Sort,
) -> Result<Option<Take>, AllocError>
    ensures { IfOk result (λ taken. StepsOrStays taken stack.old stack.new (optional_init spot depth sort)) }
{
    if sort != Sort::LeftBrace && !sort.begins_operand() {
        return Ok(None);
    }
    stack.put(&[Goal::MoreInits { depth }])?;
    init(stack, spot, depth, sort)
}

/// A type and its objects, with the semicolon.
pub fn declaration(
    stack: &mut Stack,
    spot: Spot,
    depth: u8,
    sort: Sort,
) -> Result<Option<Take>, AllocError>
    ensures { IfOk result (λ taken. Steps taken stack.old stack.new (declaration spot depth sort)) }
{
    stack.put(&[
        Goal::Object { depth },
        Goal::MoreObjects { depth },
        Goal::Semicolon { depth },
    ])?;
    kind(stack, spot, depth, sort)
}
