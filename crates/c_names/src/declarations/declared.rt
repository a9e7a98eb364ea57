//! Declarations alone, for what follows them.
ghost use Rattle.std.specs.Prelude.{◌≡◌, map, OnOk};
ghost use Rattle.c_tree.specs.View.{object_of, function_of};
ghost use Rattle.c_meaning.specs.Checks.Calls.{with_function};
ghost use Rattle.c_meaning.specs.Checks.Statements.{with_object, with_objects};

use crate::declarations::lengths::{form_of, shapes_of};
use crate::declarations::names::{Declared, Scopes, Sense};
use c_tree::function::Function;
use c_tree::object::Object;
use std::alloc::{AllocError, Global};

pub fn declare_object(alloc: Global, names: &mut Scopes, o: &Object) -> Result<(), AllocError>
    ensures { OnOk result (names.new ≡ with_object (object_of o.now) names.old) }
{
    let form = form_of(alloc, false, o)?;
    let name = o.name.copy(alloc)?;
    let sense = Sense::Object(form.shape);
    names.declare(alloc, Declared { name, sense })
}

pub fn declare_objects(
    alloc: Global,
    names: &mut Scopes,
    objects: &[Object],
) -> Result<(), AllocError>
    ensures { OnOk result (names.new ≡ with_objects (map object_of objects.now) names.old) }
{
    for object in objects {
        declare_object(alloc, names, object)?;
    }
    Ok(())
}

/// The first declaration of a function counts.
pub fn declare_function(alloc: Global, names: &mut Scopes, f: &Function) -> Result<(), AllocError>
    ensures { OnOk result (names.new ≡ with_function (function_of f.now) names.old) }
{
    if names.find(&f.name).is_none() {
        let params = shapes_of(alloc, &f.params)?;
        let name = f.name.copy(alloc)?;
        let result = f.result;
        names.declare(
            alloc,
            Declared {
                name,
                sense: Sense::Function { result, params },
            },
        )?;
    }
    Ok(())
}
