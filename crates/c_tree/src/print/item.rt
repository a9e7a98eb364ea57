ghost use Rattle.std.specs.Prelude.{◌≡◌, ◌∷◌, [], ◌++◌, OnOk, map};
ghost use Rattle.c_tree.specs.View.{object_of, param_of, body_of, function_of, item_of, program_of};
ghost use Rattle.c_tree.specs.StatementRows as rows;

use crate::function::{Function, Param};
use crate::print::kind::{push_kind, push_type};
use crate::print::object::{push_declaration, push_lengths};
use crate::print::row::{Written, push_comma, push_sign, push_word};
use crate::print::statement::push_block;
use crate::program::{Item, Program};
use crate::statement::Stmt;
use c_token::ctype::CType;
use c_token::punct::Punct;
use std::alloc::{AllocError, Global};

fn push_param(alloc: Global, row: &mut Vec<Written>, param: &Param) -> Result<(), AllocError>
    ensures { OnOk result (row.new.items ≡ row.old.items ++ rows.param_row (param_of param.now)) }
{
    push_kind(alloc, row, param.object.constant, param.object.kind)?;
    if param.named {
        row.push(Written::Space)?;
        push_word(alloc, row, param.object.name.items())?;
    }
    push_lengths(alloc, row, &param.object.lengths)
}

/// Appends parameters, or `void` if there are none.
fn push_params(alloc: Global, row: &mut Vec<Written>, params: &[Param]) -> Result<(), AllocError>
    ensures { OnOk result (row.new.items ≡ row.old.items ++ rows.params_row (map param_of params.now)) }
{
    if params.is_empty() {
        return push_word(alloc, row, b"void");
    }
    push_some_params(alloc, row, params)
}

fn push_some_params(
    alloc: Global,
    row: &mut Vec<Written>,
    params: &[Param],
) -> Result<(), AllocError>
    ensures { OnOk result (row.new.items ≡ row.old.items ++ rows.listed rows.param_row (map param_of params.now)) }
{
    let mut first = true;
    for param in params {
        if !first {
            push_comma(row)?;
        }
        first = false;
        push_param(alloc, row, param)?;
    }
    Ok(())
}

fn push_result(
    alloc: Global,
    row: &mut Vec<Written>,
    result_kind: Option<CType>,
) -> Result<(), AllocError>
    ensures { OnOk result (row.new.items ≡ row.old.items ++ rows.result_row result_kind) }
{
    match result_kind {
        None => push_word(alloc, row, b"void"),
        Some(kind) => push_type(alloc, row, kind),
    }
}

fn push_definition(
    alloc: Global,
    row: &mut Vec<Written>,
    body: &Option<Vec<Stmt>>,
) -> Result<(), AllocError>
    ensures { OnOk result (row.new.items ≡ row.old.items ++ rows.definition_row (body_of body.now)) }
{
    match body {
        None => push_sign(row, Punct::Semicolon),
        Some(body) => {
            row.push(Written::Space)?;
            push_block(alloc, row, 0, body)
        }
    }
}

fn push_function(
    alloc: Global,
    row: &mut Vec<Written>,
    function: &Function,
) -> Result<(), AllocError>
    ensures { OnOk result (row.new.items ≡ row.old.items ++ rows.function_row (function_of function.now)) }
{
    push_result(alloc, row, function.result)?;
    row.push(Written::Space)?;
    push_word(alloc, row, function.name.items())?;
    push_sign(row, Punct::LeftParen)?;
    push_params(alloc, row, &function.params)?;
    push_sign(row, Punct::RightParen)?;
    push_definition(alloc, row, &function.body)
}

fn push_item(alloc: Global, row: &mut Vec<Written>, item: &Item) -> Result<(), AllocError>
    ensures { OnOk result (row.new.items ≡ row.old.items ++ rows.item_row (item_of item.now)) }
{
    match item {
        Item::Function(function) => push_function(alloc, row, function),
        Item::Objects(objects) => push_declaration(alloc, row, objects),
    }
}

/// Appends the items of a program, each of which ends its line.
pub fn push_program(
    alloc: Global,
    row: &mut Vec<Written>,
    program: &Program,
) -> Result<(), AllocError>
    ensures { OnOk result (row.new.items ≡ row.old.items ++ rows.program_row (program_of program.now)) }
{
    for item in &program.items {
        push_item(alloc, row, item)?;
        row.push(Written::Line(0))?;
    }
    Ok(())
}
