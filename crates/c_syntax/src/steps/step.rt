ghost use Rattle.std.specs.Prelude.{IfOk, IsTrue};
ghost use Rattle.c_syntax.specs.Steps.{Steps, StepsOrStays, step_of, statement_step, item_step, declaration_step, expression_step, operand_step, is_optional};

use crate::sorts::sort::Sort;
use crate::steps::goal::{Goal, Spot, Stack, Take};
use crate::steps::sign::close;
use crate::steps::{action, declaration, expression, item, statement};
use std::alloc::AllocError;

/// Takes the token for the goal, which was the next one, and leaves what is expected behind it; or takes nothing.
/// Each function here hands the goals of other subjects on: from signs to statements, items, declarations, expressions and operands.
pub fn step(
    stack: &mut Stack,
    spot: Spot,
    goal: Goal,
    sort: Sort,
) -> Result<Option<Take>, AllocError>
    ensures step { IfOk result (λ taken. Steps taken stack.old stack.new (step_of goal spot sort)) }
    ensures stays { IfOk result (λ taken. IsTrue (is_optional goal) → StepsOrStays taken stack.old stack.new (step_of goal spot sort)) }
{
    match goal {
        Goal::CloseParen { depth, count } => close(
            stack,
            spot,
            depth,
            count,
            Sort::RightParen,
            sort,
        ),
        Goal::CloseBracket { depth, count } => {
            close(stack, spot, depth, count, Sort::RightBracket, sort)
        }
        Goal::CloseBrace { depth } => close(stack, spot, depth, 0, Sort::RightBrace, sort),
        Goal::OpenParen { depth } => close(stack, spot, depth, 0, Sort::LeftParen, sort),
        Goal::Semicolon { depth } => close(stack, spot, depth, 0, Sort::Semicolon, sort),
        Goal::LabelColon { depth } => close(stack, spot, depth, 0, Sort::Colon, sort),
        Goal::Again { depth } => close(stack, spot, depth, 0, Sort::While, sort),
        _ => step_in_statement(stack, spot, goal, sort),
    }
}

fn step_in_statement(
    stack: &mut Stack,
    spot: Spot,
    goal: Goal,
    sort: Sort,
) -> Result<Option<Take>, AllocError>
    ensures step { IfOk result (λ taken. Steps taken stack.old stack.new (statement_step goal spot sort)) }
    ensures stays { IfOk result (λ taken. IsTrue (is_optional goal) → StepsOrStays taken stack.old stack.new (statement_step goal spot sort)) }
{
    match goal {
        Goal::Statement { depth } => statement::statement(stack, spot, depth, sort),
        Goal::Else { depth } => statement::other_branch(stack, spot, depth, sort),
        Goal::Block { depth } => statement::block(stack, spot, depth, sort),
        Goal::Body { depth } => statement::body(stack, spot, depth, sort),
        Goal::First { depth } => statement::first(stack, spot, depth, sort),
        Goal::Action { depth } => action::action(stack, spot, depth, sort),
        Goal::Actions { depth } => action::actions(stack, spot, depth, sort),
        Goal::MoreActions { depth } => action::more_actions(stack, spot, depth, sort),
        Goal::ActionTarget { depth, first } => {
            action::action_target(stack, spot, depth, first, sort)
        }
        Goal::ActionSubscripts { depth, first } => {
            action::action_subscripts(stack, spot, depth, first, sort)
        }
        _ => step_in_item(stack, spot, goal, sort),
    }
}

fn step_in_item(
    stack: &mut Stack,
    spot: Spot,
    goal: Goal,
    sort: Sort,
) -> Result<Option<Take>, AllocError>
    ensures step { IfOk result (λ taken. Steps taken stack.old stack.new (item_step goal spot sort)) }
    ensures stays { IfOk result (λ taken. IsTrue (is_optional goal) → StepsOrStays taken stack.old stack.new (item_step goal spot sort)) }
{
    match goal {
        Goal::Params => item::params(stack, spot, sort),
        Goal::MoreParams => item::more_params(stack, spot, sort),
        Goal::OptionalName { depth } => item::optional_name(stack, spot, depth, sort),
        Goal::Items => item::items(stack, spot, sort),
        Goal::Item { constant } => item::item(stack, spot, constant, sort),
        Goal::FunctionName => item::function_name(stack, spot, sort),
        Goal::Declarator => item::declarator(stack, spot, sort),
        Goal::AfterDeclarator => item::after_declarator(stack, spot, sort),
        Goal::Definition => item::definition(stack, spot, sort),
        _ => step_in_declaration(stack, spot, goal, sort),
    }
}

fn step_in_declaration(
    stack: &mut Stack,
    spot: Spot,
    goal: Goal,
    sort: Sort,
) -> Result<Option<Take>, AllocError>
    ensures step { IfOk result (λ taken. Steps taken stack.old stack.new (declaration_step goal spot sort)) }
    ensures stays { IfOk result (λ taken. IsTrue (is_optional goal) → StepsOrStays taken stack.old stack.new (declaration_step goal spot sort)) }
{
    match goal {
        Goal::Kind { depth } => declaration::kind(stack, spot, depth, sort),
        Goal::KindWords { words, depth } => {
            declaration::kind_words(stack, spot, words, depth, sort)
        }
        Goal::Object { depth } => declaration::object(stack, spot, depth, sort),
        Goal::MoreObjects { depth } => declaration::more_objects(stack, spot, depth, sort),
        Goal::Lengths { depth } => declaration::lengths(stack, spot, depth, sort),
        Goal::Initialiser { depth } => declaration::initialiser(stack, spot, depth, sort),
        Goal::Init { depth } => declaration::init(stack, spot, depth, sort),
        Goal::MoreInits { depth } => declaration::more_inits(stack, spot, depth, sort),
        Goal::OptionalInit { depth } => declaration::optional_init(stack, spot, depth, sort),
        _ => step_in_expression(stack, spot, goal, sort),
    }
}

fn step_in_expression(
    stack: &mut Stack,
    spot: Spot,
    goal: Goal,
    sort: Sort,
) -> Result<Option<Take>, AllocError>
    ensures step { IfOk result (λ taken. Steps taken stack.old stack.new (expression_step goal spot sort)) }
    ensures stays { IfOk result (λ taken. IsTrue (is_optional goal) → StepsOrStays taken stack.old stack.new (expression_step goal spot sort)) }
{
    match goal {
        Goal::Expression { depth } => expression::expression(stack, spot, depth, sort),
        Goal::Assign { depth } => expression::assign(stack, spot, depth, sort),
        Goal::Choice { depth } => expression::choice(stack, spot, depth, sort),
        Goal::Commas { depth } => expression::commas(stack, spot, depth, sort),
        Goal::AfterTarget {
            named,
            action,
            depth,
            first,
        } => expression::after_target(stack, spot, named, action, depth, first, sort),
        Goal::Operators { depth, first } => {
            expression::operators(stack, spot, depth, first, sort)
        }
        Goal::ChoiceColon { depth } => expression::choice_colon(stack, spot, depth, sort),
        Goal::OptionalChoice { depth } => expression::optional_choice(stack, spot, depth, sort),
        Goal::OptionalExpression { depth } => {
            expression::optional_expression(stack, spot, depth, sort)
        }
        _ => step_in_operand(stack, spot, goal, sort),
    }
}

fn step_in_operand(
    stack: &mut Stack,
    spot: Spot,
    goal: Goal,
    sort: Sort,
) -> Result<Option<Take>, AllocError>
    ensures step { IfOk result (λ taken. Steps taken stack.old stack.new (operand_step goal spot sort)) }
    ensures stays { IfOk result (λ taken. IsTrue (is_optional goal) → StepsOrStays taken stack.old stack.new (operand_step goal spot sort)) }
{
    match goal {
        Goal::Operand { depth } => expression::operand(stack, spot, depth, sort),
        Goal::Target { depth } => expression::target(stack, spot, depth, sort),
        Goal::Subscripts { depth } => expression::subscripts(stack, spot, depth, sort),
        Goal::AfterOperand { named, depth } => {
            expression::after_operand(stack, spot, named, depth, sort)
        }
        Goal::Group { depth } => expression::group(stack, spot, depth, sort),
        Goal::Arguments { depth } => expression::arguments(stack, spot, depth, sort),
        Goal::MoreArguments { depth } => expression::more_arguments(stack, spot, depth, sort),
        _ => Ok(None),
    }
}
