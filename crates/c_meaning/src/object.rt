//! Objects and their elements.
ghost use Rattle.std.specs.Prelude.{◌≡◌, ◌≤◌, ◌<◌, IfSome};
ghost use Rattle.hls_base.specs.ArrayAddress.{element_count};
ghost use Rattle.c_meaning.specs.Store.{element_place, subscript_in};

use c_token::ctype::CType;
use std::alloc::{AllocError, Global};
use std::marker::Model;

/// An object: its type, the lengths of its dimensions, and the numbers of its elements, row by row. A scalar has no lengths and one element. An element that was not written has no number.
#[derive(Drop)]
pub struct Object {
    kind: CType,
    lengths: Vec<usize>,
    elements: Vec<Option<i128>>,
}

impl Model for Object {
    ghost use Rattle.std.specs.Prelude.{◌≤◌};
    ghost use Rattle.hls_base.specs.ArrayAddress.{element_count};
    ghost use Rattle.c_meaning.specs.Store as store;

    ghost Value = { store.Object };

    ghost view = { λ o. record { kind = o.kind; lengths = o.lengths.items; elements = o.elements.items } };

    ghost invariant = { λ o. element_count o.lengths.items ≤ 65536 };
}

/// The number of elements of an array of these lengths.
pub fn element_count(lengths: &[usize]) -> usize
    requires { element_count lengths.now ≤ 65536 }
    ensures { result ≡ element_count lengths.now }
{
    match lengths.split_first() {
        None => 1,
        Some((len, inner)) => {
            if *len == 0 {
                0
            } else {
                *len * element_count(inner)
            }
        }
    }
}

fn subscript_in(i: i128, len: usize) -> Option<usize>
    ensures { result ≡ subscript_in i len }
{
    if 0 <= i && i < len as i128 {
        Some(i as usize)
    } else {
        None
    }
}

/// The place of an element among all of the array, where each subscript is within its dimension.
fn element_place(lengths: &[usize], subscripts: &[i128]) -> Option<usize>
    requires { element_count lengths.now ≤ 65536 }
    ensures value { result ≡ element_place lengths.now subscripts.now }
    ensures inside { IfSome result (λ place. place < element_count lengths.now) }
{
    let Some((len, inner)) = lengths.split_first() else {
        return if subscripts.is_empty() { Some(0) } else { None };
    };
    let (i, others) = subscripts.split_first()?;
    let row = subscript_in(*i, *len)?;
    let rest = element_place(inner, others)?;
    Some(row * element_count(inner) + rest)
}

impl Object {
    ghost use Rattle.std.specs.Prelude.{◌≡◌, ◌≤◌, slice_get, IfOk, OnOk, OnErr};
    ghost use Rattle.hls_base.specs.ArrayAddress.{element_count};
    ghost use Rattle.c_meaning.specs.Store.{fresh, scalar, element_in, with_element, forgotten, element_place};

    /// A scalar with this number.
    pub fn scalar(alloc: Global, kind: CType, n: i128) -> Result<Object, AllocError>
        ensures { IfOk result (λ o. o ≡ scalar kind n) }
    {
        let elements = vec![in alloc; Some(n)]?;
        Ok(Object {
            kind,
            lengths: Vec::new(alloc),
            elements,
        })
    }

    /// An object whose lifetime begins.
    pub fn fresh(alloc: Global, kind: CType, lengths: Vec<usize>) -> Result<Object, AllocError>
        requires { element_count lengths.items ≤ 65536 }
        ensures { IfOk result (λ o. o ≡ fresh kind lengths.items) }
    {
        let count = element_count(lengths.as_slice());
        let elements = vec![in alloc; None; count]?;
        Ok(Object {
            kind,
            lengths,
            elements,
        })
    }

    /// An object with these elements.
    pub fn filled(kind: CType, lengths: Vec<usize>, elements: Vec<Option<i128>>) -> Object
        requires { element_count lengths.items ≤ 65536 }
        ensures { result ≡ record { kind = kind; lengths = lengths.items; elements = elements.items } }
    {
        Object {
            kind,
            lengths,
            elements,
        }
    }

    /// Another owner of the same object.
    pub fn copy(&self, alloc: Global) -> Result<Object, AllocError>
        ensures { IfOk result (λ o. o ≡ self.now) }
    {
        let lengths = Vec::from_slice(alloc, self.lengths.as_slice())?;
        let elements = Vec::from_slice(alloc, self.elements.as_slice())?;
        Ok(Object {
            kind: self.kind,
            lengths,
            elements,
        })
    }

    pub fn kind(&self) -> CType
        ensures { result ≡ self.now.kind }
    {
        self.kind
    }

    pub fn lengths(&self) -> &[usize]
        ensures { result.now ≡ self.now.lengths }
    {
        self.lengths.as_slice()
    }

    pub fn elements(&self) -> &[Option<i128>]
        ensures { result.now ≡ self.now.elements }
    {
        self.elements.as_slice()
    }

    /// The place of an element, where each subscript is within its dimension.
    pub fn place(&self, subscripts: &[i128]) -> Option<usize>
        ensures { result ≡ element_place self.now.lengths subscripts.now }
    {
        element_place(self.lengths.as_slice(), subscripts)
    }

    /// The number of an element, if it was written.
    pub fn element(&self, element: usize) -> Option<i128>
        ensures { result ≡ element_in (slice_get self.now.elements element) }
    {
        if element < self.elements.len() {
            self.elements[element]
        } else {
            None
        }
    }

    /// Writes an element.
    pub fn write(&mut self, element: usize, n: i128)
        ensures { self.new ≡ with_element element n self.old }
    {
        if element < self.elements.len() {
            self.elements[element] = Some(n);
        }
    }

    /// Makes all elements unwritten.
    pub fn forget(&mut self, alloc: Global) -> Result<(), AllocError>
        ensures forgotten { OnOk result (self.new ≡ forgotten self.old) }
        ensures unchanged { OnErr result (self.new ≡ self.old) }
    {
        let count = element_count(self.lengths.as_slice());
        self.elements = vec![in alloc; None; count]?;
        Ok(())
    }
}
