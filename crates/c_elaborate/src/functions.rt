//! Functions with a body, and their numbers.
ghost use Rattle.std.specs.Prelude.{◌≡◌, ◌++◌, map, take, length, IfOk, OnOk, bytes_eq};
ghost use Rattle.c_tree.specs.View.{param_of, function_of, item_of, stmts_of};
ghost use Rattle.pieces.specs.Resolved.CoreView.{core_object_of, core_function_of};
ghost use Rattle.c_elaborate.specs.Names.{function_number, result_of};
ghost use Rattle.c_elaborate.specs.Objects.{object_elaborated};
ghost use Rattle.c_elaborate.specs.Scenes.{all_declared};
ghost use Rattle.c_elaborate.specs.Programs.{objects_of_params, function_elaborated, functions_of_item, functions_elaborated};
ghost use Rattle.c_elaborate.specs.Programs as spec;

use crate::blocks::{Scene, core_object};
use crate::numbers::number_behind;
use crate::statements::open_block;
use c_token::ctype::CType;
use c_tree::function::{Function, Param};
use c_tree::program::Item;
use c_tree::statement::Stmt;
use hls_base::text::Text;
use pieces::resolved::program::{CoreFunction, CoreObject};
use std::alloc::{AllocError, Global};

/// What calls need of a function with a body.
#[derive(Drop)]
pub struct Signature {
    pub name: Text,
    pub result: Option<CType>,
}

/// A function that is called.
#[derive(Clone, Copy, PartialEq, Eq)]
pub struct Called {
    pub number: u32,
    pub result: Option<CType>,
}

/// The functions with a body, in order.
pub fn signatures(alloc: Global, items: &[Item]) -> Result<Vec<Signature>, AllocError>
    ensures { IfOk result (λ all. all.items ≡ spec.signatures (map item_of items.now)) }
{
    let mut all = Vec::new(alloc);
    for item in items {
        if let Item::Function(f) = item
            && f.body.is_some()
        {
            let name = f.name.copy(alloc)?;
            all.push(Signature {
                name,
                result: f.result,
            })?;
        }
    }
    Ok(all)
}

fn is_same_name(name: &Text, other: &Text) -> bool
    ensures { result ≡ bytes_eq name.now other.now }
{
    name.items() == other.items()
}

/// The function of this name, or the number behind all functions. Each function that a program without faults calls has a body.
pub fn function_named(functions: &[Signature], name: &Text) -> Result<Called, AllocError>
    ensures number { IfOk result (λ c. c.number ≡ function_number functions.now name.now) }
    ensures kind { IfOk result (λ c. c.result ≡ result_of functions.now name.now) }
{
    for (i, f) in functions.iter().enumerate() {
        if is_same_name(&f.name, name) {
            return Ok(Called {
                number: number_behind(i)?,
                result: f.result,
            });
        }
    }
    Ok(Called {
        number: number_behind(functions.len())?,
        result: None,
    })
}

/// The items before this index.
pub fn first_items(items: &[Item], index: u32) -> &[Item]
    ensures { result.now ≡ take index items.now }
{
    let index = index as usize;
    if index < items.len() {
        &items[..index]
    } else {
        items
    }
}

/// Adds the parameters to the objects, and their names to those that are visible.
fn enter_params(
    alloc: Global,
    scene: &mut Scene,
    objects: &mut Vec<CoreObject>,
    params: &[Param],
) -> Result<(), AllocError>
    ensures scene { OnOk result (scene.new ≡ all_declared scene.old (objects_of_params (map param_of params.now))) }
    ensures objects { OnOk result (map core_object_of objects.new.items ≡ map core_object_of objects.old.items ++ map object_elaborated (objects_of_params (map param_of params.now))) }
{
    for param in params {
        objects.push(core_object(alloc, &param.object)?)?;
        scene.declare(alloc, &param.object)?;
    }
    Ok(())
}

/// A function with this body. The scene is that of file scope.
fn function(
    alloc: Global,
    functions: &[Signature],
    scene: &mut Scene,
    f: &Function,
    body: &[Stmt],
) -> Result<CoreFunction, AllocError>
    ensures function { IfOk result (λ it. core_function_of it ≡ function_elaborated functions.now scene.old (function_of f.now) (stmts_of body.now)) }
    ensures scene { OnOk result (scene.new ≡ scene.old) }
{
    let mark = scene.mark();
    let mut objects = Vec::new(alloc);
    enter_params(alloc, scene, &mut objects, &f.params)?;
    let params = number_behind(objects.len())?;
    let block = open_block(alloc, functions, scene, &mut objects, body)?;
    scene.leave(mark);
    Ok(CoreFunction {
        name: f.name.copy(alloc)?,
        at: f.at,
        result: f.result,
        params,
        objects,
        outermost: block.objects,
        body: block.body,
    })
}

/// Adds the function that the item is, if it has a body.
fn add_function(
    alloc: Global,
    functions: &[Signature],
    scene: &mut Scene,
    all: &mut Vec<CoreFunction>,
    item: &Item,
) -> Result<(), AllocError>
    ensures functions { OnOk result (map core_function_of all.new.items ≡ map core_function_of all.old.items ++ functions_of_item functions.now scene.old (item_of item.now)) }
    ensures scene { OnOk result (scene.new ≡ scene.old) }
{
    if let Item::Function(f) = item
        && let Some(body) = &f.body
    {
        all.push(function(alloc, functions, scene, f, body)?)?;
    }
    Ok(())
}

/// The functions with a body, which see the names of file scope.
pub fn all_functions(
    alloc: Global,
    functions: &[Signature],
    scene: &mut Scene,
    items: &[Item],
) -> Result<Vec<CoreFunction>, AllocError>
    ensures { IfOk result (λ all. map core_function_of all.items ≡ functions_elaborated functions.now scene.old (map item_of items.now)) }
{
    let mut all = Vec::new(alloc);
    for item in items {
        add_function(alloc, functions, scene, &mut all, item)?;
    }
    Ok(all)
}
