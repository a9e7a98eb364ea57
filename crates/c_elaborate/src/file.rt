//! The objects of file scope.
ghost use Rattle.std.specs.Prelude.{◌≡◌, [], map, IfOk};
ghost use Rattle.c_tree.specs.View.{object_of};
ghost use Rattle.c_meaning.specs.Declarations.{objects_of};
ghost use Rattle.pieces.specs.Resolved.CoreView.{file_object_of};
ghost use Rattle.c_elaborate.specs.Programs as spec;

use crate::blocks::{binding, core_object};
use crate::names::Scopes;
use crate::numbers::number_behind;
use c_meaning::contents::patterns;
use c_meaning::file_scope::first_object;
use c_tree::object::Object;
use pieces::resolved::expression::{Cell, Scope};
use pieces::resolved::program::FileObject;
use std::alloc::{AllocError, Global};

fn file_object(alloc: Global, o: &Object) -> Result<FileObject, AllocError>
    ensures { IfOk result (λ it. file_object_of it ≡ spec.file_object (object_of o.now)) }
{
    let first = first_object(alloc, o)?;
    Ok(FileObject {
        object: core_object(alloc, o)?,
        first: patterns(alloc, &first)?,
    })
}

/// The objects of file scope, as their initialisers give them.
pub fn file_objects(alloc: Global, declared: &[&Object]) -> Result<Vec<FileObject>, AllocError>
    ensures { IfOk result (λ all. map file_object_of all.items ≡ map spec.file_object (objects_of declared.now)) }
{
    let mut all = Vec::new(alloc);
    for o in declared {
        all.push(file_object(alloc, o)?)?;
    }
    Ok(all)
}

/// The names of file scope.
pub fn file_names(alloc: Global, declared: &[&Object]) -> Result<Scopes, AllocError>
    ensures { IfOk result (λ names. names ≡ spec.file_names 0 [] (objects_of declared.now)) }
{
    let mut names = Scopes::new(alloc);
    for (i, o) in declared.iter().enumerate() {
        let cell = Cell {
            scope: Scope::File,
            number: number_behind(i)?,
        };
        names.declare(alloc, binding(alloc, o, cell)?)?;
    }
    Ok(names)
}
