//! The objects of blocks, as they are when their lifetimes begin.
ghost use Rattle.std.specs.Prelude.{◌≡◌, ◌++◌, map, IfOk, OnOk};
ghost use Rattle.std.specs.Option.{option_map, option_copied};
ghost use Rattle.c_tree.specs.View.{object_of, stmt_of, stmts_of, first_part};
ghost use Rattle.c_meaning.specs.Store.{unwritten, declared_by, declared_in, declared_first};

use crate::state::store::unwritten;
use c_meaning::object::Object;
use c_tree::object::Object as Declared;
use c_tree::statement::Stmt;
use std::alloc::{AllocError, Global};

#[tactic(auto, using(crate::proofs::WaitingLemmas::Blocks::living))]
/// Adds objects as they are when their lifetimes begin.
pub fn add_objects(
    alloc: Global,
    made: &mut Vec<Object>,
    declared: &[Declared],
) -> Result<(), AllocError>
    ensures { OnOk result (made.new.items ≡ made.old.items ++ map unwritten (map object_of declared.now)) }
{
    for d in declared {
        made.push(unwritten(alloc, d)?)?;
    }
    Ok(())
}

pub fn add_declared(alloc: Global, made: &mut Vec<Object>, stmt: &Stmt) -> Result<(), AllocError>
    ensures { OnOk result (made.new.items ≡ made.old.items ++ map unwritten (declared_by (stmt_of stmt.now))) }
{
    match stmt {
        Stmt::Declare(declared) => add_objects(alloc, made, declared),
        _ => Ok(()),
    }
}

#[tactic(auto, using(crate::proofs::WaitingLemmas::Blocks::living))]
/// The objects of a block.
pub fn block_objects(alloc: Global, body: &[Stmt]) -> Result<Vec<Object>, AllocError>
    ensures { IfOk result (λ made. made.items ≡ map unwritten (declared_in (stmts_of body.now))) }
{
    let mut made = Vec::new(alloc);
    for stmt in body {
        add_declared(alloc, &mut made, stmt)?;
    }
    Ok(made)
}

/// The objects of the first part of a `for`.
pub fn first_objects(alloc: Global, init: Option<&Stmt>) -> Result<Vec<Object>, AllocError>
    ensures { IfOk result (λ made. made.items ≡ map unwritten (declared_first (first_part (option_map stmt_of (option_copied init.entry))))) }
{
    let mut made = Vec::new(alloc);
    if let Some(part) = init {
        add_declared(alloc, &mut made, part)?;
    }
    Ok(made)
}
