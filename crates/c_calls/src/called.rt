//! The calls in a program.
ghost use Rattle.std.specs.Prelude.{◌≡◌, ◌++◌, [], ◌∷◌, true, map, OnOk, IfOk};
ghost use Rattle.std.specs.Option.{option_map};
ghost use Rattle.c_tree.specs.View.{tree_of, trees_of, target_of, action_of, init_of, inits_of, object_of, stmt_of, stmts_of, else_of, else_part, first_part, param_of, function_of, body_of, item_of};
ghost use Rattle.c_meaning.specs.Checks.Names.{sense_of};
ghost use Rattle.c_meaning.specs.Checks.Statements.{with_object, with_objects, with_param, with_params, names_behind, names_in_for};
ghost use Rattle.c_meaning.specs.Checks.Calls.{with_function};
ghost use Rattle.c_meaning.specs.Checks.Recursion as spec;
ghost use Rattle.c_meaning.specs.Checks.Programs.{with_item};
ghost use Rattle.c_calls.specs.Called.{backwards};
ghost use Rattle.c_calls.specs.Loops.{is_loop};
ghost use Rattle.c_names.specs.Declarations.Extended.{Extends};

use c_names::declarations::declared::{declare_function, declare_object, declare_objects};
use c_names::declarations::names::{Scopes, Sense};
use c_tree::action::Action;
use c_tree::expression::{Expr, Target};
use c_tree::function::{Function, Param};
use c_tree::object::{Init, Object};
use c_tree::program::Item;
use c_tree::statement::{Else, Stmt};
use hls_base::place::Place;
use hls_base::text::Text;
use std::alloc::{AllocError, Global};
use std::marker::Model;

/// A call: who is called, and where.
#[derive(Drop)]
pub struct Called {
    pub name: Text,
    pub at: Place,
}

impl Model for Called {
    ghost use Rattle.c_meaning.specs.Checks.Recursion.{Called};
    ghost use Rattle.c_calls.specs.Views.{called_view};

    ghost Value = { Called };

    ghost view = { λ c. called_view c.name c.at };
}

/// An item that is a function, whether it has its body, and the calls in it.
#[derive(Drop)]
pub struct Caller {
    pub name: Text,
    pub has_body: bool,
    pub calls: Vec<Called>,
}

impl Model for Caller {
    ghost use Rattle.c_meaning.specs.Checks.Recursion.{Caller};
    ghost use Rattle.c_calls.specs.Views.{caller_view};

    ghost Value = { Caller };

    ghost view = { λ c. caller_view c.name c.has_body c.calls.items };
}

/// Adds these lists of calls, of which the last comes first.
fn add_backwards(found: Vec<Vec<Called>>, calls: &mut Vec<Called>) -> Result<(), AllocError>
    ensures { OnOk result (calls.new.items ≡ calls.old.items ++ backwards found.items) }
{
    let mut found = found;
    while let Some(mut last) = found.pop() {
        calls.append(&mut last)?;
    }
    Ok(())
}

/// Adds a call, unless its name stands for an object.
fn add_call(
    alloc: Global,
    names: &Scopes,
    callee: &Text,
    at: Place,
    calls: &mut Vec<Called>,
) -> Result<(), AllocError>
    ensures { OnOk result (calls.new.items ≡ calls.old.items ++ spec.function_called (sense_of callee.now names.now) callee.now at) }
{
    match names.find(callee) {
        Some(Sense::Object(_)) => Ok(()),
        _ => {
            let name = callee.copy(alloc)?;
            calls.push(Called { name, at })?;
            Ok(())
        }
    }
}

/// The calls in an expression.
#[cycle(calls)]
fn calls_in(alloc: Global, names: &Scopes, e: &Expr) -> Result<Vec<Called>, AllocError>
    ensures { IfOk result (λ calls. calls.items ≡ spec.calls names.now (tree_of e.now)) }
{
    let mut calls = Vec::new(alloc);
    add_calls(alloc, names, e, &mut calls)?;
    Ok(calls)
}

/// Adds the calls in an expression. Operators of one chain are gone along in a loop, and the calls at their right are added behind it.
#[cycle(calls)]
fn add_calls(
    alloc: Global,
    names: &Scopes,
    e: &Expr,
    calls: &mut Vec<Called>,
) -> Result<(), AllocError>
    ensures { OnOk result (calls.new.items ≡ calls.old.items ++ spec.calls names.now (tree_of e.now)) }
{
    let mut later = Vec::new(alloc);
    let mut part = e;
    'chain: loop {
        match part {
            Expr::Binary { left, right, .. } => {
                later.push(calls_in(alloc, names, right)?)?;
                part = left;
            }
            Expr::Comma { left, right, .. } => {
                later.push(calls_in(alloc, names, right)?)?;
                part = left;
            }
            Expr::Assign { target, value, .. } => {
                add_target_calls(alloc, names, target, calls)?;
                part = value;
            }
            Expr::Unary { arg, .. } | Expr::Cast { arg, .. } => part = arg,
            Expr::Choice { test, yes, no, .. } => {
                add_calls(alloc, names, test, calls)?;
                add_calls(alloc, names, yes, calls)?;
                part = no;
            }
            Expr::Number { .. } | Expr::Name { .. } => return add_backwards(later, calls),
            Expr::Index { subscripts, .. } => {
                add_all_calls(alloc, names, subscripts, calls)?;
                return add_backwards(later, calls);
            }
            Expr::Call { callee, args, at } => {
                add_call(alloc, names, callee, *at, calls)?;
                add_all_calls(alloc, names, args, calls)?;
                return add_backwards(later, calls);
            }
            Expr::Bump { target, .. } => {
                add_target_calls(alloc, names, target, calls)?;
                return add_backwards(later, calls);
            }
        }
    }
}

#[cycle(calls)]
fn add_target_calls(
    alloc: Global,
    names: &Scopes,
    target: &Target,
    calls: &mut Vec<Called>,
) -> Result<(), AllocError>
    ensures { OnOk result (calls.new.items ≡ calls.old.items ++ spec.target_calls names.now (target_of target.now)) }
{
    add_all_calls(alloc, names, &target.subscripts, calls)?;
    Ok(())
}

#[cycle(calls)]
fn add_all_calls(
    alloc: Global,
    names: &Scopes,
    es: &[Expr],
    calls: &mut Vec<Called>,
) -> Result<(), AllocError>
    ensures { OnOk result (calls.new.items ≡ calls.old.items ++ spec.all_calls names.now (trees_of es.now)) }
{
    for e in es {
        add_calls(alloc, names, e, calls)?;
    }
    Ok(())
}

fn add_optional_calls(
    alloc: Global,
    names: &Scopes,
    e: &Option<Expr>,
    calls: &mut Vec<Called>,
) -> Result<(), AllocError>
    ensures { OnOk result (calls.new.items ≡ calls.old.items ++ spec.optional_calls names.now (option_map tree_of e.now)) }
{
    if let Some(e) = e {
        add_calls(alloc, names, e, calls)?;
    }
    Ok(())
}

fn add_action_calls(
    alloc: Global,
    names: &Scopes,
    action: &Action,
    calls: &mut Vec<Called>,
) -> Result<(), AllocError>
    ensures { OnOk result (calls.new.items ≡ calls.old.items ++ spec.action_calls names.now (action_of action.now)) }
{
    match action {
        Action::Assign { target, value, .. } => {
            add_target_calls(alloc, names, target, calls)?;
            add_calls(alloc, names, value, calls)?;
        }
        Action::Bump { target, .. } => add_target_calls(alloc, names, target, calls)?,
        Action::Value(value) => add_calls(alloc, names, value, calls)?,
    }
    Ok(())
}

fn add_actions_calls(
    alloc: Global,
    names: &Scopes,
    actions: &[Action],
    calls: &mut Vec<Called>,
) -> Result<(), AllocError>
    ensures { OnOk result (calls.new.items ≡ calls.old.items ++ spec.actions_calls names.now (map action_of actions.now)) }
{
    for action in actions {
        add_action_calls(alloc, names, action, calls)?;
    }
    Ok(())
}

#[cycle(inits)]
fn add_init_calls(
    alloc: Global,
    names: &Scopes,
    init: &Init,
    calls: &mut Vec<Called>,
) -> Result<(), AllocError>
    ensures { OnOk result (calls.new.items ≡ calls.old.items ++ spec.init_calls names.now (init_of init.now)) }
{
    match init {
        Init::Single(value) => add_calls(alloc, names, value, calls)?,
        Init::List(items, _) => add_inits_calls(alloc, names, items, calls)?,
    }
    Ok(())
}

#[cycle(inits)]
fn add_inits_calls(
    alloc: Global,
    names: &Scopes,
    items: &[Init],
    calls: &mut Vec<Called>,
) -> Result<(), AllocError>
    ensures { OnOk result (calls.new.items ≡ calls.old.items ++ spec.inits_calls names.now (inits_of items.now)) }
{
    for item in items {
        add_init_calls(alloc, names, item, calls)?;
    }
    Ok(())
}

fn add_lengths_calls(
    alloc: Global,
    names: &Scopes,
    lengths: &[Option<Expr>],
    calls: &mut Vec<Called>,
) -> Result<(), AllocError>
    ensures { OnOk result (calls.new.items ≡ calls.old.items ++ spec.lengths_calls names.now (map (option_map tree_of) lengths.now)) }
{
    for length in lengths {
        add_optional_calls(alloc, names, length, calls)?;
    }
    Ok(())
}

/// Adds the calls in the initialiser of an object.
fn add_optional_init_calls(
    alloc: Global,
    names: &Scopes,
    init: &Option<Init>,
    calls: &mut Vec<Called>,
) -> Result<(), AllocError>
    ensures { OnOk result (calls.new.items ≡ calls.old.items ++ spec.optional_init_calls names.now (option_map init_of init.now)) }
{
    if let Some(init) = init {
        add_init_calls(alloc, names, init, calls)?;
    }
    Ok(())
}

/// Adds the calls in the lengths and the initialiser of an object, and declares it.
fn add_object_calls(
    alloc: Global,
    names: &mut Scopes,
    object: &Object,
    calls: &mut Vec<Called>,
) -> Result<(), AllocError>
    ensures calls { OnOk result (calls.new.items ≡ calls.old.items ++ spec.object_calls names.old (object_of object.now)) }
    ensures names { OnOk result (names.new ≡ with_object (object_of object.now) names.old) }
{
    add_lengths_calls(alloc, names, &object.lengths, calls)?;
    declare_object(alloc, names, object)?;
    add_optional_init_calls(alloc, names, &object.init, calls)?;
    Ok(())
}

fn add_objects_calls(
    alloc: Global,
    names: &mut Scopes,
    objects: &[Object],
    calls: &mut Vec<Called>,
) -> Result<(), AllocError>
    ensures calls { OnOk result (calls.new.items ≡ calls.old.items ++ spec.objects_calls names.old (map object_of objects.now)) }
    ensures names { OnOk result (names.new ≡ with_objects (map object_of objects.now) names.old) }
{
    for object in objects {
        add_object_calls(alloc, names, object, calls)?;
    }
    Ok(())
}

/// Adds the calls in a statement, and declares its names.
#[cycle(statements)]
fn add_statement_calls(
    alloc: Global,
    names: &mut Scopes,
    stmt: &Stmt,
    calls: &mut Vec<Called>,
) -> Result<(), AllocError>
    ensures calls { OnOk result (calls.new.items ≡ calls.old.items ++ spec.statement_calls names.old (stmt_of stmt.now)) }
    ensures names { OnOk result (names.new ≡ names_behind names.old (stmt_of stmt.now)) }
{
    match stmt {
        Stmt::Block(body) => add_inner_block_calls(alloc, names, body, calls),
        Stmt::Declare(objects) => add_objects_calls(alloc, names, objects, calls),
        Stmt::Act(actions) => add_actions_calls(alloc, names, actions, calls),
        Stmt::If { test, yes, no, .. } => {
            add_calls(alloc, names, test, calls)?;
            add_inner_calls(alloc, names, yes, calls)?;
            add_else_calls(alloc, names, no, calls)
        }
        Stmt::Switch { test, body, .. } => {
            add_calls(alloc, names, test, calls)?;
            add_inner_block_calls(alloc, names, body, calls)
        }
        Stmt::Case { value, body, .. } => {
            add_optional_calls(alloc, names, value, calls)?;
            add_statement_calls(alloc, names, body, calls)
        }
        Stmt::While { .. } | Stmt::Do { .. } | Stmt::For { .. } => {
            add_loop_calls(alloc, names, stmt, calls)
        }
        Stmt::Break(_) | Stmt::Continue(_) => Ok(()),
        Stmt::Return { value, .. } => add_optional_calls(alloc, names, value, calls),
    }
}

/// Adds the calls in a loop.
#[cycle(statements)]
fn add_loop_calls(
    alloc: Global,
    names: &mut Scopes,
    stmt: &Stmt,
    calls: &mut Vec<Called>,
) -> Result<(), AllocError>
    requires { is_loop (stmt_of stmt.now) ≡ true }
    ensures calls { OnOk result (calls.new.items ≡ calls.old.items ++ spec.statement_calls names.old (stmt_of stmt.now)) }
    ensures names { OnOk result (names.new ≡ names_behind names.old (stmt_of stmt.now)) }
{
    match stmt {
        Stmt::While { test, body, .. } => {
            add_calls(alloc, names, test, calls)?;
            add_inner_calls(alloc, names, body, calls)
        }
        Stmt::Do { body, test, .. } => {
            add_inner_calls(alloc, names, body, calls)?;
            add_calls(alloc, names, test, calls)
        }
        Stmt::For {
            init,
            test,
            step,
            body,
            ..
        } => {
            let outer = names.len();
            add_first_calls(alloc, names, init, calls)?;
            add_optional_calls(alloc, names, test, calls)?;
            add_actions_calls(alloc, names, step, calls)?;
            add_inner_calls(alloc, names, body, calls)?;
            names.forget(outer);
            Ok(())
        }
        _ => Ok(()),
    }
}

/// Adds the calls in a statement that is a scope of its own.
#[cycle(statements)]
fn add_inner_calls(
    alloc: Global,
    names: &mut Scopes,
    stmt: &Stmt,
    calls: &mut Vec<Called>,
) -> Result<(), AllocError>
    ensures calls { OnOk result (calls.new.items ≡ calls.old.items ++ spec.statement_calls names.old (stmt_of stmt.now)) }
    ensures names { OnOk result (names.new ≡ names.old) }
{
    let start = names.len();
    add_statement_calls(alloc, names, stmt, calls)?;
    names.forget(start);
    Ok(())
}

/// Adds the calls in a block that is a scope of its own.
#[cycle(statements)]
fn add_inner_block_calls(
    alloc: Global,
    names: &mut Scopes,
    body: &[Stmt],
    calls: &mut Vec<Called>,
) -> Result<(), AllocError>
    ensures calls { OnOk result (calls.new.items ≡ calls.old.items ++ spec.statements_calls names.old (stmts_of body.now)) }
    ensures names { OnOk result (names.new ≡ names.old) }
{
    let start = names.len();
    add_block_calls(alloc, names, body, calls)?;
    names.forget(start);
    Ok(())
}

#[cycle(statements)]
fn add_else_calls(
    alloc: Global,
    names: &mut Scopes,
    branch: &Option<Else>,
    calls: &mut Vec<Called>,
) -> Result<(), AllocError>
    ensures calls { OnOk result (calls.new.items ≡ calls.old.items ++ spec.else_calls names.old (else_part (option_map else_of branch.now))) }
    ensures names { OnOk result (names.new ≡ names.old) }
{
    match branch {
        None => Ok(()),
        Some(branch) => add_inner_calls(alloc, names, &branch.body, calls),
    }
}

/// Adds the calls in the first part of a `for`, and declares its names.
#[cycle(statements)]
fn add_first_calls(
    alloc: Global,
    names: &mut Scopes,
    init: &Option<Box<Stmt>>,
    calls: &mut Vec<Called>,
) -> Result<(), AllocError>
    ensures calls { OnOk result (calls.new.items ≡ calls.old.items ++ spec.first_calls names.old (first_part (option_map (λ s. stmt_of s.value) init.now))) }
    ensures names { OnOk result (names.new ≡ names_in_for names.old (first_part (option_map (λ s. stmt_of s.value) init.now))) }
{
    match init {
        None => Ok(()),
        Some(part) => add_statement_calls(alloc, names, part, calls),
    }
}

/// Adds the calls in statements, and declares their names.
#[cycle(statements)]
fn add_block_calls(
    alloc: Global,
    names: &mut Scopes,
    body: &[Stmt],
    calls: &mut Vec<Called>,
) -> Result<(), AllocError>
    ensures calls { OnOk result (calls.new.items ≡ calls.old.items ++ spec.statements_calls names.old (stmts_of body.now)) }
    ensures names { OnOk result (Extends names.old names.new) }
{
    for stmt in body {
        add_statement_calls(alloc, names, stmt, calls)?;
    }
    Ok(())
}

/// Adds the calls in the lengths of a parameter, and declares it.
fn add_param_calls(
    alloc: Global,
    names: &mut Scopes,
    param: &Param,
    calls: &mut Vec<Called>,
) -> Result<(), AllocError>
    ensures calls { OnOk result (calls.new.items ≡ calls.old.items ++ spec.lengths_calls names.old (param_of param.now).object.lengths) }
    ensures names { OnOk result (names.new ≡ with_param (param_of param.now) names.old) }
{
    add_lengths_calls(alloc, names, &param.object.lengths, calls)?;
    if param.named {
        declare_object(alloc, names, &param.object)?;
    }
    Ok(())
}

fn add_params_calls(
    alloc: Global,
    names: &mut Scopes,
    params: &[Param],
    calls: &mut Vec<Called>,
) -> Result<(), AllocError>
    ensures calls { OnOk result (calls.new.items ≡ calls.old.items ++ spec.params_calls names.old (map param_of params.now)) }
    ensures names { OnOk result (names.new ≡ with_params (map param_of params.now) names.old) }
{
    for param in params {
        add_param_calls(alloc, names, param, calls)?;
    }
    Ok(())
}

/// Adds the calls in a body, in the scope of its parameters.
fn add_body_calls(
    alloc: Global,
    names: &mut Scopes,
    body: &Option<Vec<Stmt>>,
    calls: &mut Vec<Called>,
) -> Result<(), AllocError>
    ensures calls { OnOk result (calls.new.items ≡ calls.old.items ++ spec.body_calls names.old (body_of body.now)) }
    ensures names { OnOk result (Extends names.old names.new) }
{
    match body {
        None => Ok(()),
        Some(body) => add_block_calls(alloc, names, body, calls),
    }
}

/// The calls in the item of a function.
fn function_calls(
    alloc: Global,
    names: &mut Scopes,
    f: &Function,
) -> Result<Vec<Called>, AllocError>
    ensures calls { IfOk result (λ calls. calls.items ≡ spec.function_calls names.old (function_of f.now)) }
    ensures names { OnOk result (names.new ≡ names.old) }
{
    let start = names.len();
    let mut calls = Vec::new(alloc);
    add_params_calls(alloc, names, &f.params, &mut calls)?;
    add_body_calls(alloc, names, &f.body, &mut calls)?;
    names.forget(start);
    Ok(calls)
}

/// The function of an item, visible from its name on, and the calls in it.
fn caller_of(alloc: Global, names: &mut Scopes, f: &Function) -> Result<Caller, AllocError>
    ensures caller { IfOk result (λ c. c ≡ spec.caller_of (with_function (function_of f.now) names.old) (function_of f.now)) }
    ensures names { OnOk result (names.new ≡ with_function (function_of f.now) names.old) }
{
    declare_function(alloc, names, f)?;
    let calls = function_calls(alloc, names, f)?;
    let name = f.name.copy(alloc)?;
    let has_body = f.body.is_some();
    Ok(Caller {
        name,
        has_body,
        calls,
    })
}

/// Adds the function of an item, if it is one, and declares its names.
fn add_caller(
    alloc: Global,
    names: &mut Scopes,
    item: &Item,
    callers: &mut Vec<Caller>,
) -> Result<(), AllocError>
    ensures callers { OnOk result (callers.new.items ≡ callers.old.items ++ spec.callers names.old (item_of item.now ∷ [])) }
    ensures names { OnOk result (names.new ≡ with_item (item_of item.now) names.old) }
{
    match item {
        Item::Objects(objects) => declare_objects(alloc, names, objects)?,
        Item::Function(f) => callers.push(caller_of(alloc, names, f)?)?,
    }
    Ok(())
}

/// The items that are functions, in order.
pub fn callers_of(alloc: Global, items: &[Item]) -> Result<Vec<Caller>, AllocError>
    ensures { IfOk result (λ cs. cs.items ≡ spec.callers [] (map item_of items.now)) }
{
    let mut names = Scopes::new(alloc);
    let mut callers = Vec::new(alloc);
    for item in items {
        add_caller(alloc, &mut names, item, &mut callers)?;
    }
    Ok(callers)
}
