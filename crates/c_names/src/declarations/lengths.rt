//! The lengths of arrays, and the forms of initialisers.
ghost use Rattle.std.specs.Prelude.{◌≡◌, ◌≤◌, map, min, nat_lt, if◌then◌else◌, IfOk};
ghost use Rattle.std.specs.List.{list_any};
ghost use Rattle.std.specs.Option.{option_map};
ghost use Rattle.hls_base.specs.ArrayAddress as address;
ghost use Rattle.c_tree.specs.View.{tree_of, init_of, inits_of, object_of, param_of};
ghost use Rattle.c_meaning.specs.Checks.Faults.{least};
ghost use Rattle.c_meaning.specs.Checks.Lengths.{lengths_of, rounded_product, form_faults, has_bad_shape, is_variable};
ghost use Rattle.c_meaning.specs.Checks.Lengths as spec;
ghost use Rattle.c_meaning.specs.Checks.Calls.{param_shapes};
ghost use Rattle.c_value.specs.Constant.{constant_value};
ghost use Rattle.c_names.specs.Declarations.Written.{length_view};

use crate::declarations::faults::{fault_if, lesser};
use crate::declarations::names::Shape;
use c_tree::expression::Expr;
use c_tree::function::Param;
use c_tree::object::{Init, Object};
use c_value::constant::{Constant, constant_value};
use hls_base::refusal::Refusal;
use std::alloc::{AllocError, Global};

/// A length: a number, or left out, or no constant with a value.
#[derive(Clone, Copy, PartialEq, Eq)]
enum Length {
    Number(i128),
    LeftOut,
    NoConstant,
}

/// The lengths of an object, whether one is missing or out of range, and whether one is no constant with a value.
#[derive(Drop)]
struct Dimensions {
    usable: Vec<Option<u32>>,
    out_of_range: bool,
    no_constant: bool,
}

/// An object's type, and the least fault of its lengths and of the form of its initialiser.
#[derive(Drop)]
pub struct Form {
    pub shape: Shape,
    pub fault: Option<Refusal>,
}

fn written_length(length: &Option<Expr>) -> Length
    ensures { length_view result ≡ spec.written_length (option_map tree_of length.now) }
{
    match length {
        None => Length::LeftOut,
        Some(e) => match constant_value(e) {
            Constant::Number { number, .. } => Length::Number(number),
            _ => Length::NoConstant,
        },
    }
}

/// How many items an initialiser in braces has.
#[tactic(auto, using(crate::proofs::DeclarationsLemmas::Inits::items_of_init, crate::proofs::DeclarationsLemmas::Inits::items_of_single))]
fn items_in(init: &Option<Init>) -> Option<usize>
    ensures { result ≡ spec.items_in (option_map init_of init.now) }
{
    match init {
        Some(Init::List(items, _)) => Some(items.len()),
        _ => None,
    }
}

fn length_of(items: Option<usize>, length: &Option<Expr>) -> Length
    ensures { length_view result ≡ spec.length_of items (option_map tree_of length.now) }
{
    if let Some(count) = items
        && length.is_none()
    {
        return Length::Number(count as i128);
    }
    written_length(length)
}

fn in_range(number: i128) -> Option<u32>
    ensures { result ≡ spec.usable (spec.number number) }
{
    if 1 <= number && number <= 65536 {
        Some(number as u32)
    } else {
        None
    }
}

fn usable(length: Length) -> Option<u32>
    ensures { result ≡ spec.usable (length_view length) }
{
    match length {
        Length::Number(number) => in_range(number),
        _ => None,
    }
}

fn is_out_of_range(length: Length) -> bool
    ensures { result ≡ spec.is_out_of_range (length_view length) }
{
    match length {
        Length::Number(number) => in_range(number).is_none(),
        Length::LeftOut => true,
        Length::NoConstant => false,
    }
}

fn is_no_constant(length: Length) -> bool
    ensures { result ≡ spec.is_no_constant (length_view length) }
{
    matches!(length, Length::NoConstant)
}

fn dimensions_of(alloc: Global, o: &Object) -> Result<Dimensions, AllocError>
    ensures usable { IfOk result (λ ls. ls.usable.items ≡ map spec.usable (lengths_of (object_of o.now))) }
    ensures out_of_range { IfOk result (λ ls. ls.out_of_range ≡ list_any spec.is_out_of_range (lengths_of (object_of o.now))) }
    ensures no_constant { IfOk result (λ ls. ls.no_constant ≡ list_any spec.is_no_constant (lengths_of (object_of o.now))) }
{
    let mut items = items_in(&o.init);
    let mut found = Vec::new(alloc);
    let mut out_of_range = false;
    let mut no_constant = false;
    for written in &o.lengths {
        let length = length_of(items, written);
        items = None;
        out_of_range = out_of_range || is_out_of_range(length);
        no_constant = no_constant || is_no_constant(length);
        found.push(usable(length))?;
    }
    Ok(Dimensions {
        usable: found,
        out_of_range,
        no_constant,
    })
}

/// The bits of a subscript of a dimension of this length.
fn subscript_bits(length: u32) -> u32
    ensures value { result ≡ address.subscript_bits length }
    ensures bound { result ≤ 16 }
{
    1 + above(length, 2)
        + above(length, 4)
        + above(length, 8)
        + above(length, 16)
        + above(length, 32)
        + above(length, 64)
        + above(length, 128)
        + above(length, 256)
        + above(length, 512)
        + above(length, 1024)
        + above(length, 2048)
        + above(length, 4096)
        + above(length, 8192)
        + above(length, 16384)
        + above(length, 32768)
}

fn above(length: u32, power: u32) -> u32
    ensures { result ≡ (if nat_lt power length then 1 else 0) }
{
    if power < length { 1 } else { 0 }
}

/// The product of the lengths, each rounded up to a power of two, up to 131,072; 0 where one is at fault.
pub fn capped_product(lengths: &[Option<u32>]) -> u32
    ensures { result ≡ min (rounded_product lengths.now) 131072 }
{
    let mut bits: u32 = 0;
    for length in lengths {
        match *length {
            None => return 0,
            Some(length) => {
                bits += subscript_bits(length);
                if bits > 17 {
                    bits = 17;
                }
            }
        }
    }
    1 << bits
}

fn exceeds(items: usize, length: Option<u32>) -> bool
    ensures { result ≡ spec.exceeds items length }
{
    match length {
        None => false,
        Some(length) => items > length as usize,
    }
}

fn overflows(lengths: &[Option<u32>], items: usize) -> bool
    ensures { result ≡ spec.overflows lengths.now items }
{
    if lengths.is_empty() {
        return true;
    }
    exceeds(items, lengths[0])
}

/// Whether an initialiser has other braces than an object with these lengths, or too many items.
#[cycle(shapes)]
#[tactic(auto, using(crate::proofs::DeclarationsLemmas::Inits::misshapen_single, crate::proofs::DeclarationsLemmas::Inits::misshapen_list, std::proofs::lemmas::List::take_rest))]
fn is_misshapen(lengths: &[Option<u32>], init: &Init) -> bool
    ensures { result ≡ spec.is_misshapen lengths.now (init_of init.now) }
{
    match init {
        Init::Single(_) => lengths.len() != 0,
        Init::List(items, _) => {
            if overflows(lengths, items.len()) {
                return true;
            }
            are_misshapen(&lengths[1..], items)
        }
    }
}

#[cycle(shapes)]
fn are_misshapen(lengths: &[Option<u32>], items: &[Init]) -> bool
    ensures { result ≡ spec.are_misshapen lengths.now (inits_of items.now) }
{
    for item in items {
        if is_misshapen(lengths, item) {
            return true;
        }
    }
    false
}

fn has_bad_shape(lengths: &[Option<u32>], init: &Option<Init>) -> bool
    ensures { result ≡ has_bad_shape lengths.now (option_map init_of init.now) }
{
    match init {
        None => false,
        Some(init) => is_misshapen(lengths, init),
    }
}

/// Whether the expression is a constant with a value.
pub fn has_value(e: &Expr) -> bool
    ensures { result ≡ spec.has_value (constant_value (tree_of e.now)) }
{
    matches!(constant_value(e), Constant::Number { .. })
}

/// Whether an initialiser is of constants with values.
#[cycle(fixed)]
#[tactic(auto, using(crate::proofs::DeclarationsLemmas::Inits::fixed_single, crate::proofs::DeclarationsLemmas::Inits::fixed_list))]
fn is_fixed(init: &Init) -> bool
    ensures { result ≡ spec.is_fixed (init_of init.now) }
{
    match init {
        Init::Single(value) => has_value(value),
        Init::List(items, _) => are_fixed(items),
    }
}

#[cycle(fixed)]
fn are_fixed(items: &[Init]) -> bool
    ensures { result ≡ spec.are_fixed (inits_of items.now) }
{
    for item in items {
        if !is_fixed(item) {
            return false;
        }
    }
    true
}

fn is_variable(init: &Option<Init>) -> bool
    ensures { result ≡ is_variable (option_map init_of init.now) }
{
    match init {
        None => false,
        Some(init) => !is_fixed(init),
    }
}

/// The type of an object, and the least fault that its lengths and the form of its initialiser make.
#[tactic(auto, using(crate::proofs::DeclarationsLemmas::Least::least_append, crate::proofs::DeclarationsLemmas::Lists::capped))]
pub fn form_of(alloc: Global, at_file: bool, o: &Object) -> Result<Form, AllocError>
    ensures shape { IfOk result (λ f. f.shape ≡ spec.shape_of (object_of o.now)) }
    ensures fault { IfOk result (λ f. f.fault ≡ least (form_faults at_file (object_of o.now))) }
{
    let found = dimensions_of(alloc, o)?;
    let product = capped_product(&found.usable);
    let bad = fault_if(found.out_of_range || product > 65536, 13, o.at);
    let open = fault_if(
        found.no_constant || (at_file && is_variable(&o.init)),
        17,
        o.at,
    );
    let misshapen = fault_if(has_bad_shape(&found.usable, &o.init), 22, o.at);
    let shape = Shape {
        kind: o.kind,
        constant: o.constant,
        lengths: found.usable,
    };
    let fault = lesser(bad, lesser(open, misshapen));
    Ok(Form { shape, fault })
}

/// The types of parameters.
pub fn shapes_of(alloc: Global, params: &[Param]) -> Result<Vec<Shape>, AllocError>
    ensures { IfOk result (λ ss. ss.items ≡ param_shapes (map param_of params.now)) }
{
    let mut shapes = Vec::new(alloc);
    for param in params {
        let form = form_of(alloc, false, &param.object)?;
        shapes.push(form.shape)?;
    }
    Ok(shapes)
}
