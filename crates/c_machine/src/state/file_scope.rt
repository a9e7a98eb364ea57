//! The objects of file scope as a run finds and leaves them.
ghost use Rattle.std.specs.Prelude.{◌≡◌, ◌≤◌, drop, map, IfOk, OnOk};
ghost use Rattle.hls_base.specs.FileScope.{FileScope};
ghost use Rattle.hls_base.specs.ArrayAddress.{element_count};
ghost use Rattle.c_tree.specs.View.{object_of};
ghost use Rattle.c_meaning.specs.Run.{first_object, bindings_from, contents_of, file_store, kept_object, kept_rest};
ghost use Rattle.c_meaning.specs.Declarations.{objects_of};
ghost use Rattle.c_machine.specs.State.Contents.{content_of, joined, kept_with};

use c_meaning::contents::{add_patterns, filled, patterns};
use c_meaning::file_scope::first_object;
use c_meaning::lengths::lengths;
use c_meaning::names::Binding;
use c_meaning::object::Object;
use c_token::ctype::CType;
use c_tree::object::Object as Declared;
use hls_base::words::Words;
use std::alloc::{AllocError, Global};
use std::marker::Model;

/// The names of file scope, each with the number of its object.
pub fn file_names(alloc: Global, declared: &[&Declared]) -> Result<Vec<Binding>, AllocError>
    ensures { IfOk result (λ names. names.items ≡ bindings_from 0 (objects_of declared.now)) }
{
    let mut names = Vec::new(alloc);
    for i in 0..declared.len() {
        let name = declared[i].name.copy(alloc)?;
        names.push(Binding { name, object: i })?;
    }
    Ok(names)
}

/// The objects of file scope, as their initialisers give them.
pub fn first_objects(alloc: Global, declared: &[&Declared]) -> Result<Vec<Object>, AllocError>
    ensures { IfOk result (λ objects. objects.items ≡ map first_object (objects_of declared.now)) }
{
    let mut objects = Vec::with_capacity(alloc, declared.len())?;
    for d in declared {
        objects.push(first_object(alloc, d)?)?;
    }
    Ok(objects)
}

// ---- contents that stay from one run to the next

/// What the objects that are not const hold, scalars and arrays, each in the order of their declarations.
#[derive(Drop)]
pub struct FileContents {
    scalars: Vec<u64>,
    arrays: Vec<Words>,
}

impl Model for FileContents {
    ghost use Rattle.hls_base.specs.FileScope.{FileScope};

    ghost Value = { FileScope };

    ghost view = { λ c. record { scalars = c.scalars.items; arrays = c.arrays.items } };
}

fn add_content(
    alloc: Global,
    contents: &mut FileContents,
    declared: &Declared,
    o: &Object,
) -> Result<(), AllocError>
    ensures { OnOk result (contents.new ≡ joined contents.old (content_of (object_of declared.now) o.now)) }
{
    if declared.constant {
        return Ok(());
    }
    if o.lengths().is_empty() {
        add_patterns(&mut contents.scalars, o)?;
    } else {
        contents.arrays.push(patterns(alloc, o)?)?;
    }
    Ok(())
}

/// The contents of these objects, of which each has its declaration at the same place.
pub fn contents(
    alloc: Global,
    declared: &[&Declared],
    objects: &[Object],
) -> Result<FileContents, AllocError>
    ensures { IfOk result (λ c. c ≡ contents_of (objects_of declared.now) objects.now) }
{
    let mut all = FileContents {
        scalars: Vec::new(alloc),
        arrays: Vec::new(alloc),
    };
    for i in 0..declared.len().min(objects.len()) {
        add_content(alloc, &mut all, declared[i], &objects[i])?;
    }
    Ok(all)
}

/// The contents that the initialisers give.
pub fn first_contents(alloc: Global, declared: &[&Declared]) -> Result<FileContents, AllocError>
    ensures { IfOk result (λ c. c ≡ contents_of (objects_of declared.now) (map first_object (objects_of declared.now))) }
{
    let objects = first_objects(alloc, declared)?;
    contents(alloc, declared, objects.as_slice())
}

/// What is behind the first of the items.
pub fn tail<T>(items: &[T]) -> &[T]
    ensures { result.now ≡ drop 1 items.now }
{
    match items.split_first() {
        Some((_, rest)) => rest,
        None => items,
    }
}

/// An object with the first of the scalars, or the first of the arrays.
fn kept_object(
    alloc: Global,
    declared: &Declared,
    lengths: Vec<usize>,
    scalars: &[u64],
    arrays: &[Words],
) -> Result<Object, AllocError>
    requires { element_count lengths.items ≤ 65536 }
    ensures { IfOk result (λ o. o ≡ kept_with declared.now.kind lengths.items (record { scalars = scalars.now; arrays = arrays.now })) }
{
    if lengths.is_empty() {
        let word = if scalars.is_empty() {
            scalars
        } else {
            &scalars[..1]
        };
        return filled(alloc, declared.kind, lengths, word);
    }
    match arrays.split_first() {
        Some((words, _)) => filled(alloc, declared.kind, lengths, words.items()),
        None => filled(alloc, declared.kind, lengths, &[]),
    }
}

/// The objects of file scope with these contents. A const object has those of its initialiser.
pub fn file_store(
    alloc: Global,
    declared: &[&Declared],
    contents: &FileContents,
) -> Result<Vec<Object>, AllocError>
    ensures { IfOk result (λ objects. objects.items ≡ file_store (objects_of declared.now) contents.now) }
{
    let mut objects = Vec::with_capacity(alloc, declared.len())?;
    let mut scalars = contents.scalars.as_slice();
    let mut arrays = contents.arrays.as_slice();
    for d in declared {
        if d.constant {
            objects.push(first_object(alloc, d)?)?;
            continue;
        }
        let lengths = lengths(alloc, d)?;
        let is_scalar = lengths.is_empty();
        objects.push(kept_object(alloc, d, lengths, scalars, arrays)?)?;
        if is_scalar {
            scalars = tail(scalars);
        } else {
            arrays = tail(arrays);
        }
    }
    Ok(objects)
}
