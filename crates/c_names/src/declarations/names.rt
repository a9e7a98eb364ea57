//! What names stand for, and where they are declared.
ghost use Rattle.std.specs.Prelude.{◌≡◌, ◌-◌, ◌<◌, ◌≤◌, ℕ, List, true, [], ◌∷◌, IfOk, length, drop, is_some, bytes_eq, if◌then◌else◌};
ghost use Rattle.std.specs.Option.{option_map};
ghost use Rattle.c_token.specs.Replacement as tokens;
ghost use Rattle.c_meaning.specs.Checks.Faults.{least};
ghost use Rattle.c_meaning.specs.Checks.Names.{sense_of, is_declared_since, dimension_faults, use_faults, target_faults};
ghost use Rattle.c_names.specs.Declarations.Senses.{sense_view};
ghost use Rattle.c_names.specs.Declarations.Entries.{entry_in, index_in};

use crate::declarations::faults::{fault, fault_if, lesser};
use c_token::ctype::CType;
use hls_base::place::Place;
use hls_base::refusal::Refusal;
use hls_base::text::Text;
use indexmap::IndexMap;
use std::alloc::{AllocError, Global};
use std::marker::Model;

/// The type of an object. A scalar has no lengths, and a length that is at fault is none.
#[derive(Drop)]
pub struct Shape {
    pub kind: CType,
    pub constant: bool,
    pub lengths: Vec<Option<u32>>,
}

impl Model for Shape {
    ghost use Rattle.c_meaning.specs.Checks.Names.{Shape};
    ghost use Rattle.c_names.specs.Declarations.Views.{shape_view};

    ghost Value = { Shape };

    ghost view = { λ s. shape_view s.kind s.constant s.lengths.items };
}

/// What a name stands for.
#[derive(Drop)]
pub enum Sense {
    Object(Shape),
    Function {
        result: Option<CType>,
        params: Vec<Shape>,
    },
}

/// A name that is declared.
#[derive(Drop)]
pub struct Declared {
    pub name: Text,
    pub sense: Sense,
}

impl Model for Declared {
    ghost use Rattle.c_meaning.specs.Checks.Names.{Declared};
    ghost use Rattle.c_names.specs.Declarations.Senses.{declared_view};

    ghost Value = { Declared };

    ghost view = { λ d. declared_view d.name d.sense };
}

/// A declaration, and the index of the earlier one of the same name that it hides.
#[derive(Drop)]
struct Layer {
    declared: Declared,
    hidden: Option<usize>,
}

/// The names that are visible at a place. A clause sees them from the latest to the earliest.
#[derive(Drop)]
pub struct Scopes {
    layers: Vec<Layer>,
    latest: IndexMap<Vec<u8>, Option<usize>>,
}

impl Model for Scopes {
    ghost use Rattle.std.specs.Prelude.{List};
    ghost use Rattle.c_meaning.specs.Checks.Names.{Declared};

    ghost Value = { List Declared };

    ghost use Rattle.c_names.specs.Declarations.Layers.{visible, IsIndexed};

    ghost view = { λ s. visible s.layers.items };

    ghost invariant = { λ s. IsIndexed s.layers.items s.latest.entries };
}

impl Scopes {
    pub fn new(alloc: Global) -> Scopes
        ensures { result ≡ [] }
    {
        Scopes {
            layers: Vec::new(alloc),
            latest: IndexMap::new(alloc),
        }
    }

    /// How many names are visible.
    pub fn len(&self) -> usize
        ensures { result ≡ length self.now }
    {
        self.layers.len()
    }

    /// What the name stands for, if anything.
    pub fn find(&self, name: &Text) -> Option<&Sense>
        ensures { option_map (λ s. sense_view s.now) result ≡ sense_of name.now self.now }
    {
        match latest_index(&self.latest, name.items()) {
            None => None,
            Some(index) => {
                let layer = &self.layers[index];
                let declared = &layer.declared;
                Some(&declared.sense)
            }
        }
    }

    /// Whether the name is among those that were declared since there were so many.
    pub fn is_declared_since(&self, start: usize, name: &Text) -> bool
        ensures { result ≡ is_declared_since start name.now self.now }
    {
        match latest_index(&self.latest, name.items()) {
            None => false,
            Some(index) => start <= index,
        }
    }

    pub fn declare(&mut self, alloc: Global, declared: Declared) -> Result<(), AllocError>
        ensures { IfOk result (λ _. self.new ≡ declared ∷ self.old) }
    {
        let index = self.layers.len();
        let name = Vec::from_slice(alloc, declared.name.items())?;
        let hidden = latest_index(&self.latest, &name);
        self.layers.push(Layer { declared, hidden })?;
        match self.latest.insert(name, Some(index)) {
            Ok(_) => Ok(()),
            Err(_) => {
                self.layers.pop();
                Err(AllocError)
            }
        }
    }

    /// Forgets the latest name.
    fn forget_latest(&mut self)
        requires { 0 < length self.old }
        ensures { self.new ≡ drop 1 self.old }
    {
        if let Some(layer) = self.layers.pop() {
            restore(&mut self.latest, layer.declared.name.items(), layer.hidden);
        }
    }

    /// Forgets the names that were declared since there were so many.
    pub fn forget(&mut self, len: usize)
        requires { len ≤ length self.old }
        ensures { self.new ≡ drop (length self.old - len) self.old }
    {
        let count = self.len() - len;
        for i in 0..count {
            self.forget_latest();
        }
    }
}

/// The index of the latest declaration of the name.
fn latest_index(latest: &IndexMap<Vec<u8>, Option<usize>>, name: &[u8]) -> Option<usize>
    ensures { result ≡ index_in name.now latest.now.entries }
{
    match latest.get(name) {
        Some(index) => *index,
        None => None,
    }
}

pub fn is_same_name(name: &Text, other: &Text) -> bool
    ensures { result ≡ bytes_eq name.now other.now }
{
    name.items() == other.items()
}

pub fn is_in(word: &Text, words: &[Text]) -> bool
    ensures { result ≡ tokens.is_in word.now words.now }
{
    for other in words {
        if is_same_name(word, other) {
            return true;
        }
    }
    false
}

/// Gives the name's entry this index.
fn restore(latest: &mut IndexMap<Vec<u8>, Option<usize>>, name: &[u8], index: Option<usize>)
    requires { is_some (entry_in name.now latest.old.entries) ≡ true }
    ensures { (q : List ℕ) → index_in q latest.new.entries ≡ (if bytes_eq q name.now then index else index_in q latest.old.entries) }
{
    if let Some(entry) = latest.get_mut(name) {
        *entry = index;
    }
}

/// The fault of an element, or of a name alone, of an object with so many dimensions.
fn dimension_fault(dimensions: usize, subscripts: usize, at: Place) -> Option<Refusal>
    ensures { result ≡ least (dimension_faults dimensions subscripts at) }
{
    if (dimensions == 0) == (subscripts == 0) {
        fault_if(dimensions != subscripts, 10, at)
    } else {
        fault(9, at)
    }
}

/// The fault of a name that is read with so many subscripts.
pub fn use_fault(names: &Scopes, name: &Text, subscripts: usize, at: Place) -> Option<Refusal>
    ensures { result ≡ least (use_faults (sense_of name.now names.now) subscripts at) }
{
    match names.find(name) {
        None => fault(7, at),
        Some(Sense::Function { .. }) => fault(9, at),
        Some(Sense::Object(shape)) => dimension_fault(shape.lengths.len(), subscripts, at),
    }
}

/// The fault of a name that is changed with so many subscripts.
pub fn target_fault(names: &Scopes, name: &Text, subscripts: usize, at: Place) -> Option<Refusal>
    ensures { result ≡ least (target_faults (sense_of name.now names.now) subscripts at) }
{
    let used = use_fault(names, name, subscripts, at);
    let constant = match names.find(name) {
        Some(Sense::Object(shape)) => shape.constant,
        _ => false,
    };
    lesser(used, fault_if(constant, 12, at))
}
