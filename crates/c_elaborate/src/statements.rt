//! Statements with their names resolved.
ghost use Rattle.std.specs.Prelude.{◌≡◌, ◌++◌, ◌+◌, map, length, IfOk, OnOk};
ghost use Rattle.std.specs.Option.{option_map};
ghost use Rattle.c_tree.specs.View.{tree_of, object_of, stmt_of, stmts_of, else_of, else_part, first_part};
ghost use Rattle.c_value.specs.Constant.{constant_value as spec_constant_value};
ghost use Rattle.c_meaning.specs.Store.{declared_in, declared_first};
ghost use Rattle.pieces.specs.Resolved.CoreView.{core_object_of, core_stmt_of, core_else_of, core_else_part};
ghost use Rattle.c_elaborate.specs.Objects.{object_elaborated, objects_of, else_objects, first_objects, objects_within, from};
ghost use Rattle.c_elaborate.specs.Scenes.{opened, labelled_by, all_declared};
ghost use Rattle.c_elaborate.specs.Statements.{value_pattern, label_pattern};
ghost use Rattle.c_elaborate.specs.Statements as spec;

use crate::blocks::{Scene, add_objects, declared_by, enter};
use crate::build::{Block, do_loop, for_loop, labelled, nested, selection, switch, while_loop};
use crate::expressions::{actions, expression, optional};
use crate::functions::Signature;
use crate::initialisers::initialiser;
use crate::kinds::kind_of;
use c_token::ctype::CType;
use c_tree::expression::Expr;
use c_tree::object::Object;
use c_tree::statement::{Else, Stmt};
use c_value::constant::{Constant, constant_value};
use c_value::convert::{convert, pattern};
use c_value::kind::promoted;
use pieces::resolved::program::CoreObject;
use pieces::resolved::statement::{CoreElse, CoreStmt};
use std::alloc::{AllocError, Global};

/// The bit pattern of a label's value in this type, 0 where it has none. The labels of a program without faults have values.
fn value_bits(kind: CType, value: &Expr) -> u64
    ensures { result ≡ value_pattern kind (spec_constant_value (tree_of value.now)) }
{
    match constant_value(value) {
        Constant::Number { number, .. } => pattern(kind, convert(kind, number)),
        _ => 0,
    }
}

fn label(kind: CType, value: &Option<Expr>) -> Option<u64>
    ensures { result ≡ label_pattern kind (option_map tree_of value.now) }
{
    match value {
        None => None,
        Some(value) => Some(value_bits(kind, value)),
    }
}

/// A statement. A declaration is none: it stands in a block, or in the head of a `for`.
#[cycle(statements)]
fn statement(
    alloc: Global,
    functions: &[Signature],
    scene: &mut Scene,
    objects: &mut Vec<CoreObject>,
    stmt: &Stmt,
) -> Result<CoreStmt, AllocError>
    ensures stmt { IfOk result (λ s. core_stmt_of s ≡ spec.statement functions.now scene.old (length objects.old.items) (stmt_of stmt.now)) }
    ensures scene { OnOk result (scene.new ≡ scene.old) }
    ensures objects { OnOk result (map core_object_of objects.new.items ≡ map core_object_of objects.old.items ++ map object_elaborated (objects_of (stmt_of stmt.now))) }
{
    match stmt {
        Stmt::Block(body) => Ok(nested(inner_block(alloc, functions, scene, objects, body)?)),
        Stmt::Declare(_) => Ok(CoreStmt::Act(Vec::new(alloc))),
        Stmt::Act(list) => Ok(CoreStmt::Act(actions(alloc, functions, &scene.names, list)?)),
        Stmt::If { test, yes, no, at } => {
            let test = expression(alloc, functions, &scene.names, test)?;
            let yes = statement(alloc, functions, scene, objects, yes)?;
            let no = branch(alloc, functions, scene, objects, no)?;
            selection(alloc, test, yes, no, *at)
        }
        Stmt::Switch { test, body, at } => {
            let test = expression(alloc, functions, &scene.names, test)?;
            let labels = promoted(kind_of(&test));
            let part = switch_block(alloc, functions, labels, scene, objects, body)?;
            Ok(switch(test, part, *at))
        }
        Stmt::Case { value, body, at } => {
            let value = label(scene.labels, value);
            let body = statement(alloc, functions, scene, objects, body)?;
            labelled(alloc, value, body, *at)
        }
        Stmt::While { test, body, at } => {
            let test = expression(alloc, functions, &scene.names, test)?;
            let body = statement(alloc, functions, scene, objects, body)?;
            while_loop(alloc, test, body, *at)
        }
        Stmt::Do { body, test, at } => {
            let body = statement(alloc, functions, scene, objects, body)?;
            let test = expression(alloc, functions, &scene.names, test)?;
            do_loop(alloc, body, test, *at)
        }
        Stmt::For {
            init,
            test,
            step,
            body,
            at,
        } => {
            let mark = scene.mark();
            let head = head(alloc, functions, scene, objects, init)?;
            let test = optional(alloc, functions, &scene.names, test)?;
            let step = actions(alloc, functions, &scene.names, step)?;
            let body = statement(alloc, functions, scene, objects, body)?;
            scene.leave(mark);
            for_loop(alloc, head, test, step, body, *at)
        }
        Stmt::Break(_) => Ok(CoreStmt::Break),
        Stmt::Continue(_) => Ok(CoreStmt::Continue),
        Stmt::Return { value, .. } => {
            let value = optional(alloc, functions, &scene.names, value)?;
            Ok(CoreStmt::Return(value))
        }
    }
}

/// The second branch of an `if`.
#[cycle(statements)]
fn branch(
    alloc: Global,
    functions: &[Signature],
    scene: &mut Scene,
    objects: &mut Vec<CoreObject>,
    branch: &Option<Else>,
) -> Result<Option<CoreElse>, AllocError>
    ensures stmt { IfOk result (λ e. core_else_part (option_map core_else_of e) ≡ spec.else_statement functions.now scene.old (length objects.old.items) (else_part (option_map else_of branch.now))) }
    ensures scene { OnOk result (scene.new ≡ scene.old) }
    ensures objects { OnOk result (map core_object_of objects.new.items ≡ map core_object_of objects.old.items ++ map object_elaborated (else_objects (else_part (option_map else_of branch.now)))) }
{
    match branch {
        None => Ok(None),
        Some(branch) => {
            let body = statement(alloc, functions, scene, objects, &branch.body)?;
            let body = Box::new(alloc, body)?;
            let at = branch.at;
            Ok(Some(CoreElse { at, body }))
        }
    }
}

/// The block of a `switch`, whose labels have this type.
#[cycle(statements)]
fn switch_block(
    alloc: Global,
    functions: &[Signature],
    labels: CType,
    scene: &mut Scene,
    objects: &mut Vec<CoreObject>,
    body: &[Stmt],
) -> Result<Block, AllocError>
    ensures numbers { IfOk result (λ b. b.objects.items ≡ from (length objects.old.items) (length (declared_in (stmts_of body.now)))) }
    ensures body { IfOk result (λ b. map core_stmt_of b.body.items ≡ spec.statements functions.now (labelled_by labels (opened scene.old (length objects.old.items))) (length objects.old.items + length (declared_in (stmts_of body.now))) (stmts_of body.now)) }
    ensures scene { OnOk result (scene.new ≡ scene.old) }
    ensures objects { OnOk result (map core_object_of objects.new.items ≡ map core_object_of objects.old.items ++ map object_elaborated (declared_in (stmts_of body.now) ++ objects_within (stmts_of body.now))) }
{
    let mark = scene.mark();
    scene.labels = labels;
    let part = open_block(alloc, functions, scene, objects, body)?;
    scene.leave(mark);
    Ok(part)
}

/// A block that is a scope of its own.
#[cycle(statements)]
fn inner_block(
    alloc: Global,
    functions: &[Signature],
    scene: &mut Scene,
    objects: &mut Vec<CoreObject>,
    body: &[Stmt],
) -> Result<Block, AllocError>
    ensures numbers { IfOk result (λ b. b.objects.items ≡ from (length objects.old.items) (length (declared_in (stmts_of body.now)))) }
    ensures body { IfOk result (λ b. map core_stmt_of b.body.items ≡ spec.statements functions.now (opened scene.old (length objects.old.items)) (length objects.old.items + length (declared_in (stmts_of body.now))) (stmts_of body.now)) }
    ensures scene { OnOk result (scene.new ≡ scene.old) }
    ensures objects { OnOk result (map core_object_of objects.new.items ≡ map core_object_of objects.old.items ++ map object_elaborated (declared_in (stmts_of body.now) ++ objects_within (stmts_of body.now))) }
{
    let mark = scene.mark();
    let part = open_block(alloc, functions, scene, objects, body)?;
    scene.leave(mark);
    Ok(part)
}

/// A block, whose names stay visible behind it.
#[cycle(statements)]
pub fn open_block(
    alloc: Global,
    functions: &[Signature],
    scene: &mut Scene,
    objects: &mut Vec<CoreObject>,
    body: &[Stmt],
) -> Result<Block, AllocError>
    ensures numbers { IfOk result (λ b. b.objects.items ≡ from (length objects.old.items) (length (declared_in (stmts_of body.now)))) }
    ensures body { IfOk result (λ b. map core_stmt_of b.body.items ≡ spec.statements functions.now (opened scene.old (length objects.old.items)) (length objects.old.items + length (declared_in (stmts_of body.now))) (stmts_of body.now)) }
    ensures scene { OnOk result (scene.new ≡ all_declared (opened scene.old (length objects.old.items)) (declared_in (stmts_of body.now))) }
    ensures objects { OnOk result (map core_object_of objects.new.items ≡ map core_object_of objects.old.items ++ map object_elaborated (declared_in (stmts_of body.now) ++ objects_within (stmts_of body.now))) }
{
    scene.open(objects.len())?;
    let numbers = enter(alloc, objects, body)?;
    let body = all(alloc, functions, scene, objects, body)?;
    Ok(Block {
        objects: numbers,
        body,
    })
}

/// The head of a `for`, whose names stay visible behind it.
#[cycle(statements)]
fn head(
    alloc: Global,
    functions: &[Signature],
    scene: &mut Scene,
    objects: &mut Vec<CoreObject>,
    init: &Option<Box<Stmt>>,
) -> Result<Block, AllocError>
    ensures numbers { IfOk result (λ b. b.objects.items ≡ from (length objects.old.items) (length (declared_first (first_part (option_map (λ s. stmt_of s.value) init.now))))) }
    ensures body { IfOk result (λ b. map core_stmt_of b.body.items ≡ spec.first_statements functions.now (opened scene.old (length objects.old.items)) (length objects.old.items + length (declared_first (first_part (option_map (λ s. stmt_of s.value) init.now)))) (first_part (option_map (λ s. stmt_of s.value) init.now))) }
    ensures scene { OnOk result (scene.new ≡ all_declared (opened scene.old (length objects.old.items)) (declared_first (first_part (option_map (λ s. stmt_of s.value) init.now)))) }
    ensures objects { OnOk result (map core_object_of objects.new.items ≡ map core_object_of objects.old.items ++ map object_elaborated (declared_first (first_part (option_map (λ s. stmt_of s.value) init.now)) ++ first_objects (first_part (option_map (λ s. stmt_of s.value) init.now)))) }
{
    scene.open(objects.len())?;
    let mut numbers = Vec::new(alloc);
    let mut body = Vec::new(alloc);
    if let Some(part) = init {
        let declared = declared_by(part);
        add_objects(alloc, objects, &mut numbers, declared)?;
        if declared.is_empty() {
            body.push(statement(alloc, functions, scene, objects, part)?)?;
        } else {
            add_declarations(alloc, functions, scene, &mut body, declared)?;
        }
    }
    Ok(Block {
        objects: numbers,
        body,
    })
}

/// The items of a block: statements, and the declarations of objects, which are statements of their own.
#[cycle(statements)]
fn all(
    alloc: Global,
    functions: &[Signature],
    scene: &mut Scene,
    objects: &mut Vec<CoreObject>,
    body: &[Stmt],
) -> Result<Vec<CoreStmt>, AllocError>
    ensures body { IfOk result (λ list. map core_stmt_of list.items ≡ spec.statements functions.now scene.old (length objects.old.items) (stmts_of body.now)) }
    ensures scene { OnOk result (scene.new ≡ all_declared scene.old (declared_in (stmts_of body.now))) }
    ensures objects { OnOk result (map core_object_of objects.new.items ≡ map core_object_of objects.old.items ++ map object_elaborated (objects_within (stmts_of body.now))) }
{
    let mut list = Vec::new(alloc);
    for stmt in body {
        let declared = declared_by(stmt);
        if declared.is_empty() {
            list.push(statement(alloc, functions, scene, objects, stmt)?)?;
        } else {
            add_declarations(alloc, functions, scene, &mut list, declared)?;
        }
    }
    Ok(list)
}

/// Adds the declarations of objects. The name of each is visible in its own initialiser.
fn add_declarations(
    alloc: Global,
    functions: &[Signature],
    scene: &mut Scene,
    list: &mut Vec<CoreStmt>,
    declared: &[Object],
) -> Result<(), AllocError>
    ensures list { OnOk result (map core_stmt_of list.new.items ≡ map core_stmt_of list.old.items ++ spec.declarations functions.now scene.old (map object_of declared.now)) }
    ensures scene { OnOk result (scene.new ≡ all_declared scene.old (map object_of declared.now)) }
{
    for o in declared {
        let object = scene.declare(alloc, o)?;
        let init = initialiser(alloc, functions, &scene.names, o)?;
        list.push(CoreStmt::Declare { object, init })?;
    }
    Ok(())
}
