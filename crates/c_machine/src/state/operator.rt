//! Operators on values, and changes of objects.
ghost use Rattle.std.specs.Prelude.{◌≡◌, ℕ, pos, OnErr, if◌then◌else◌};
ghost use Rattle.c_tree.specs.declared.operator.Binary.TheVariants as Binary;
ghost use Rattle.c_value.specs.Operators.{unary_kind, unary_value, computed_of, truth, is_true};
ghost use Rattle.c_meaning.specs.Store.{State};
ghost use Rattle.c_meaning.specs.Expression.{value, computed, operated, store_object, assigned, bumped};
ghost use Rattle.c_value.specs.Values.{int_type, convert};
ghost use Rattle.c_machine.specs.State.Objects.{state, ran_of};

use crate::state::store::{read, store};
use c_meaning::object::Object;
use c_meaning::value::{Undefined, Value};
use c_token::ctype::CType;
use c_tree::operator::{Binary, Unary};
use c_value::convert::convert;
use c_value::kind::INT;
use c_value::operate::{binary_kind, binary_value, unary_kind, unary_value};
use hls_base::place::Place;
use hls_base::refusal::UbRule;

fn computed(kind: CType, number: Result<i128, UbRule>, at: Place) -> Result<Value, Undefined>
    ensures { (s : State) → computed kind (computed_of number) at s ≡ ran_of result s }
{
    match number {
        Ok(number) => Ok(Value { kind, number }),
        Err(rule) => Err(Undefined { rule, at }),
    }
}

/// Whether a value is not 0, as an int.
pub fn truth(x: Value) -> Value
    ensures { result ≡ value int_type (truth (is_true x.number)) }
{
    Value {
        kind: INT,
        number: i128::from(x.number != 0),
    }
}

/// A value as one of this type.
pub fn cast(kind: CType, x: Value) -> Value
    ensures { result ≡ value kind (convert kind x.number) }
{
    Value {
        kind,
        number: convert(kind, x.number),
    }
}

pub fn unary(op: Unary, x: Value, at: Place) -> Result<Value, Undefined>
    ensures { (s : State) → computed (unary_kind op x.kind) (unary_value op x.kind x.number) at s ≡ ran_of result s }
{
    computed(
        unary_kind(op, x.kind),
        unary_value(op, x.kind, x.number),
        at,
    )
}

pub fn operated(op: Binary, x: Value, y: Value, at: Place) -> Result<Value, Undefined>
    ensures { (s : State) → operated op x y at s ≡ ran_of result s }
{
    computed(
        binary_kind(op, x.kind, y.kind),
        binary_value(op, x.kind, x.number, y.kind, y.number),
        at,
    )
}

/// An assignment, behind its subscripts and its value.
pub fn assigned(
    objects: &mut Vec<Object>,
    op: Option<Binary>,
    object: usize,
    subscripts: &[i128],
    place: Place,
    v: Value,
    at: Place,
) -> Result<Value, Undefined>
    ensures value { (left : ℕ) → assigned op object subscripts.now place v at (state objects.old.items left) ≡ ran_of result (state objects.new.items left) }
    ensures unchanged { OnErr result (objects.new.items ≡ objects.old.items) }
{
    let number = match op {
        None => v.number,
        Some(op) => {
            let x = read(objects.as_slice(), object, subscripts, place)?;
            operated(op, x, v, at)?.number
        }
    };
    store(objects, object, subscripts, number, place)
}

fn bump_operator(up: bool) -> Binary
    ensures { result ≡ (if up then Binary.Add else Binary.Sub) }
{
    if up { Binary::Add } else { Binary::Sub }
}

/// One more, or one less.
fn raised(up: bool, x: Value, at: Place) -> Result<Value, Undefined>
    ensures { (s : State) → operated (if up then Binary.Add else Binary.Sub) x (value int_type (pos 1)) at s ≡ ran_of result s }
{
    let one = Value {
        kind: INT,
        number: 1,
    };
    operated(bump_operator(up), x, one, at)
}

fn store_value(
    objects: &mut Vec<Object>,
    object: usize,
    subscripts: &[i128],
    v: Value,
    place: Place,
) -> Result<Value, Undefined>
    ensures value { (left : ℕ) → store_object object subscripts.now v.number place (state objects.old.items left) ≡ ran_of result (state objects.new.items left) }
    ensures unchanged { OnErr result (objects.new.items ≡ objects.old.items) }
{
    store(objects, object, subscripts, v.number, place)
}

fn either(first: bool, x: Value, v: Value) -> Value
    ensures { result ≡ (if first then x else v) }
{
    if first { x } else { v }
}

/// `++` or `--`, behind its subscripts.
pub fn bumped(
    objects: &mut Vec<Object>,
    up: bool,
    post: bool,
    object: usize,
    subscripts: &[i128],
    place: Place,
    at: Place,
) -> Result<Value, Undefined>
    ensures value { (left : ℕ) → bumped up post object subscripts.now place at (state objects.old.items left) ≡ ran_of result (state objects.new.items left) }
    ensures unchanged { OnErr result (objects.new.items ≡ objects.old.items) }
{
    let x = read(objects.as_slice(), object, subscripts, place)?;
    let r = raised(up, x, at)?;
    let v = store_value(objects, object, subscripts, r, place)?;
    Ok(either(post, x, v))
}
