//! The parameters of calls, bound to arguments.
ghost use Rattle.std.specs.Prelude.{◌≡◌, ◌++◌, ◌<◌, ◌^◌, map, OnOk, IfOk};
ghost use Rattle.c_tree.specs.View.{param_of, object_of, stmts_of, function_of};
ghost use Rattle.c_meaning.specs.Run.{body_of, parameters};
ghost use Rattle.c_machine.specs.State.Objects.{state};
ghost use Rattle.c_machine.specs.Waiting.Calling.{is_bound, is_bound_one};

use crate::state::scopes::Scopes;
use c_meaning::object::Object;
use c_meaning::value::Argument;
use c_tree::function::{Function, Param};
use c_tree::object::Object as Declared;
use c_tree::statement::Stmt;
use c_value::convert::convert;
use std::alloc::{AllocError, Global};

/// Binds the name of a parameter, and makes the object of a scalar one. So many objects live before those that are made.
pub fn bind_parameter(
    alloc: Global,
    p: &Declared,
    argument: Argument,
    scopes: &mut Scopes,
    first: usize,
    made: &mut Vec<Object>,
) -> Result<(), AllocError>
    requires { first < 2 ^ 63 }
    ensures ok { OnOk result (is_bound_one argument (object_of p.now) first scopes.old.environment made.old.items scopes.new.environment made.new.items) }
    ensures file { scopes.new.file ≡ scopes.old.file }
    ensures outer { scopes.new.outer ≡ scopes.old.outer }
{
    match argument {
        Argument::Array(object) => scopes.bind(alloc, &p.name, object),
        Argument::Number(n) => {
            scopes.bind(alloc, &p.name, first + made.len())?;
            let scalar = Object::scalar(alloc, p.kind, convert(p.kind, n))?;
            made.push(scalar)?;
            Ok(())
        }
    }
}

/// Binds the names of parameters, and makes the objects of the scalar ones.
pub fn bind_parameters(
    alloc: Global,
    params: &[Param],
    given: &[Argument],
    scopes: &mut Scopes,
    first: usize,
    made: &mut Vec<Object>,
) -> Result<(), AllocError>
    requires { first < 2 ^ 63 }
    ensures ok { OnOk result (is_bound (map param_of params.now) given.now first scopes.old.environment made.old.items scopes.new.environment made.new.items) }
    ensures file { scopes.new.file ≡ scopes.old.file }
    ensures outer { scopes.new.outer ≡ scopes.old.outer }
{
    let Some((param, params)) = params.split_first() else {
        return Ok(());
    };
    let Some((argument, given)) = given.split_first() else {
        return Ok(());
    };
    bind_parameter(alloc, &param.object, *argument, scopes, first, made)?;
    bind_parameters(alloc, params, given, scopes, first, made)
}

/// Binds the names of parameters, and makes the objects of the scalar ones behind these.
pub fn bind_all(
    alloc: Global,
    params: &[Param],
    given: &[Argument],
    scopes: &mut Scopes,
    objects: &[Object],
) -> Result<Vec<Object>, AllocError>
    ensures ok { IfOk result (λ made. parameters (map param_of params.now) given.now scopes.old.environment (state objects.now 0) ≡ (scopes.new.environment, state (objects.now ++ made.items) 0)) }
    ensures file { scopes.new.file ≡ scopes.old.file }
    ensures outer { scopes.new.outer ≡ scopes.old.outer }
{
    let mut made = Vec::new(alloc);
    bind_parameters(alloc, params, given, scopes, objects.len(), &mut made)?;
    Ok(made)
}

/// The items of a function's body.
pub fn body_items(f: &Function) -> &[Stmt]
    ensures { stmts_of result.now ≡ body_of (function_of f.now).body }
{
    match &f.body {
        Some(body) => body.as_slice(),
        None => &[],
    }
}
