//! Reads and writes of the objects of a run. An object is given by its number among them.
ghost use Rattle.std.specs.Prelude.{◌≡◌, ◌++◌, ℕ, pos, ◌==◌, ◌+◌, ◌≤◌, not, length, take, map, slice_get, IfOk, OnOk, OnErr};
ghost use Rattle.c_tree.specs.View.{object_of};
ghost use Rattle.c_value.specs.Values.{convert};
ghost use Rattle.c_meaning.specs.Store.{kind_in, lengths_at, element_in, elements_in, changed, with_element, forgotten, unwritten, element_place};
ghost use Rattle.c_meaning.specs.Statement.{zeros};
ghost use Rattle.c_meaning.specs.Expression.{read_object, store_object};
ghost use Rattle.c_machine.specs.State.Objects.{state, ran_of};

use c_meaning::lengths::lengths;
use c_meaning::object::Object;
use c_meaning::value::{Undefined, Value};
use c_token::ctype::CType;
use c_tree::object::Object as Declared;
use c_value::convert::convert;
use c_value::kind::INT;
use hls_base::place::Place;
use hls_base::refusal::UbRule;
use std::alloc::{AllocError, Global};

pub fn kind_of(objects: &[Object], object: usize) -> CType
    ensures { result ≡ kind_in (slice_get objects.now object) }
{
    if object < objects.len() {
        objects[object].kind()
    } else {
        INT
    }
}

pub fn is_array(objects: &[Object], object: usize) -> bool
    ensures { result ≡ not (length (lengths_at (slice_get objects.now object)) == 0) }
{
    object < objects.len() && !objects[object].lengths().is_empty()
}

/// The place of an element in an array's rows, where each subscript is within its dimension.
pub fn place(objects: &[Object], object: usize, subscripts: &[i128]) -> Option<usize>
    ensures { result ≡ element_place (lengths_at (slice_get objects.now object)) subscripts.now }
{
    if object < objects.len() {
        objects[object].place(subscripts)
    } else if subscripts.is_empty() {
        Some(0)
    } else {
        None
    }
}

fn element(objects: &[Object], object: usize, element: usize) -> Option<i128>
    ensures { result ≡ element_in (slice_get (elements_in (slice_get objects.now object)) element) }
{
    if object < objects.len() {
        objects[object].element(element)
    } else {
        None
    }
}

/// Reads a scalar, or an element of an array.
pub fn read(
    objects: &[Object],
    object: usize,
    subscripts: &[i128],
    at: Place,
) -> Result<Value, Undefined>
    ensures { (left : ℕ) → read_object object subscripts.now at (state objects.now left) ≡ ran_of result (state objects.now left) }
{
    let Some(place) = place(objects, object, subscripts) else {
        return Err(Undefined {
            rule: UbRule::Index,
            at,
        });
    };
    match element(objects, object, place) {
        Some(number) => Ok(Value {
            kind: kind_of(objects, object),
            number,
        }),
        None if subscripts.is_empty() => Err(Undefined {
            rule: UbRule::Unset,
            at,
        }),
        None => Err(Undefined {
            rule: UbRule::UnsetElement,
            at,
        }),
    }
}

/// Writes a number into an element.
pub fn write(objects: &mut Vec<Object>, object: usize, element: usize, n: i128)
    ensures { objects.new.items ≡ changed (with_element element n) objects.old.items object (slice_get objects.old.items object) }
{
    if object < objects.len() {
        objects[object].write(element, n);
    }
}

/// Converts a number to the type of a scalar or an element, and writes it there.
pub fn store(
    objects: &mut Vec<Object>,
    object: usize,
    subscripts: &[i128],
    n: i128,
    at: Place,
) -> Result<Value, Undefined>
    ensures value { (left : ℕ) → store_object object subscripts.now n at (state objects.old.items left) ≡ ran_of result (state objects.new.items left) }
    ensures unchanged { OnErr result (objects.new.items ≡ objects.old.items) }
{
    let Some(element) = place(objects, object, subscripts) else {
        return Err(Undefined {
            rule: UbRule::Index,
            at,
        });
    };
    let kind = kind_of(objects, object);
    let number = convert(kind, n);
    write(objects, object, element, number);
    Ok(Value { kind, number })
}

/// Writes 0 into so many elements from one on.
pub fn write_zeros(objects: &mut Vec<Object>, object: usize, element: usize, count: usize)
    requires { element + count ≤ 65536 }
    ensures { (left : ℕ) → state objects.new.items left ≡ zeros count object element (state objects.old.items left) }
{
    for k in 0..count {
        write(objects, object, element + k, 0);
    }
}

/// Makes an object unwritten.
pub fn forget(alloc: Global, objects: &mut Vec<Object>, object: usize) -> Result<(), AllocError>
    ensures forgotten { OnOk result (objects.new.items ≡ changed forgotten objects.old.items object (slice_get objects.old.items object)) }
    ensures unchanged { OnErr result (objects.new.items ≡ objects.old.items) }
{
    if object < objects.len() {
        objects[object].forget(alloc)?;
    }
    Ok(())
}

/// A declared object as it is when its lifetime begins.
pub fn unwritten(alloc: Global, declared: &Declared) -> Result<Object, AllocError>
    ensures { IfOk result (λ o. o ≡ unwritten (object_of declared.now)) }
{
    let lengths = lengths(alloc, declared)?;
    Object::fresh(alloc, declared.kind, lengths)
}
