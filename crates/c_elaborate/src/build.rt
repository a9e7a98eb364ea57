//! Statements of the core program from their parts.
ghost use Rattle.std.specs.Prelude.{◌≡◌, map, IfOk};
ghost use Rattle.std.specs.Option.{option_map};
ghost use Rattle.pieces.specs.Resolved.Core as core;
ghost use Rattle.pieces.specs.Resolved.Core.{stmt_row};
ghost use Rattle.pieces.specs.Resolved.CoreView.{core_of, core_action_of, core_stmt_of, core_else_of, core_else_part};

use hls_base::place::Place;
use pieces::resolved::expression::CoreExpr;
use pieces::resolved::statement::{CoreAction, CoreElse, CoreStmt};
use std::alloc::{AllocError, Global};

/// Statements that are a scope, and the objects that they declare in it.
#[derive(Drop)]
pub struct Block {
    pub objects: Vec<u32>,
    pub body: Vec<CoreStmt>,
}

pub fn nested(part: Block) -> CoreStmt
    ensures { core_stmt_of result ≡ core.block part.objects.items (stmt_row (map core_stmt_of part.body.items)) }
{
    CoreStmt::Block {
        objects: part.objects,
        body: part.body,
    }
}

pub fn selection(
    alloc: Global,
    test: CoreExpr,
    yes: CoreStmt,
    no: Option<CoreElse>,
    at: Place,
) -> Result<CoreStmt, AllocError>
    ensures { IfOk result (λ s. core_stmt_of s ≡ core.if_ (core_of test) (core_stmt_of yes) (core_else_part (option_map core_else_of no)) at) }
{
    let yes = Box::new(alloc, yes)?;
    Ok(CoreStmt::If { test, yes, no, at })
}

pub fn switch(test: CoreExpr, part: Block, at: Place) -> CoreStmt
    ensures { core_stmt_of result ≡ core.switch_ (core_of test) part.objects.items (stmt_row (map core_stmt_of part.body.items)) at }
{
    CoreStmt::Switch {
        test,
        objects: part.objects,
        body: part.body,
        at,
    }
}

pub fn labelled(
    alloc: Global,
    value: Option<u64>,
    body: CoreStmt,
    at: Place,
) -> Result<CoreStmt, AllocError>
    ensures { IfOk result (λ s. core_stmt_of s ≡ core.case_ value (core_stmt_of body) at) }
{
    let body = Box::new(alloc, body)?;
    Ok(CoreStmt::Case { value, body, at })
}

pub fn while_loop(
    alloc: Global,
    test: CoreExpr,
    body: CoreStmt,
    at: Place,
) -> Result<CoreStmt, AllocError>
    ensures { IfOk result (λ s. core_stmt_of s ≡ core.while_ (core_of test) (core_stmt_of body) at) }
{
    let body = Box::new(alloc, body)?;
    Ok(CoreStmt::While { test, body, at })
}

pub fn do_loop(
    alloc: Global,
    body: CoreStmt,
    test: CoreExpr,
    at: Place,
) -> Result<CoreStmt, AllocError>
    ensures { IfOk result (λ s. core_stmt_of s ≡ core.do_ (core_stmt_of body) (core_of test) at) }
{
    let body = Box::new(alloc, body)?;
    Ok(CoreStmt::Do { body, test, at })
}

pub fn for_loop(
    alloc: Global,
    head: Block,
    test: Option<CoreExpr>,
    step: Vec<CoreAction>,
    body: CoreStmt,
    at: Place,
) -> Result<CoreStmt, AllocError>
    ensures { IfOk result (λ s. core_stmt_of s ≡ core.for_ head.objects.items (stmt_row (map core_stmt_of head.body.items)) (option_map core_of test) (map core_action_of step.items) (core_stmt_of body) at) }
{
    let body = Box::new(alloc, body)?;
    Ok(CoreStmt::For {
        objects: head.objects,
        init: head.body,
        test,
        step,
        body,
        at,
    })
}
