//! What names stand for.
ghost use Rattle.std.specs.Prelude.{◌≡◌, ◌-◌, ◌<◌, ◌≤◌, ℕ, List, true, [], ◌∷◌, IfOk, length, drop, is_some, bytes_eq, if◌then◌else◌};
ghost use Rattle.c_elaborate.specs.Names as spec;
ghost use Rattle.c_elaborate.specs.Names.{object_found};
ghost use Rattle.c_elaborate.specs.Entries.{entry_in, index_in};

use c_token::ctype::CType;
use c_value::kind::INT;
use hls_base::text::Text;
use indexmap::IndexMap;
use pieces::resolved::expression::{Cell, Scope};
use std::alloc::{AllocError, Global};
use std::marker::Model;

/// An object that a name stands for.
#[derive(Clone, Copy, PartialEq, Eq)]
pub struct Known {
    pub cell: Cell,
    pub kind: CType,
    pub is_array: bool,
}

/// A name that is declared.
#[derive(Drop)]
pub struct Binding {
    pub name: Text,
    pub object: Known,
}

/// A declaration, and the index of the earlier one of the same name that it hides.
#[derive(Drop)]
struct Layer {
    binding: Binding,
    hidden: Option<usize>,
}

/// The names that are visible at a place. A clause sees them from the latest to the earliest.
#[derive(Drop)]
pub struct Scopes {
    layers: Vec<Layer>,
    latest: IndexMap<Vec<u8>, Option<usize>>,
}

impl Model for Scopes {
    ghost use Rattle.std.specs.Prelude.{List};
    ghost use Rattle.c_elaborate.specs.declared.names.Binding.{Binding};

    ghost Value = { List Binding };

    ghost use Rattle.c_elaborate.specs.Layers.{visible, IsIndexed};

    ghost view = { λ s. visible s.layers.items };

    ghost invariant = { λ s. IsIndexed s.layers.items s.latest.entries };
}

impl Scopes {
    pub fn new(alloc: Global) -> Scopes
        ensures { result ≡ [] }
    {
        Scopes {
            layers: Vec::new(alloc),
            latest: IndexMap::new(alloc),
        }
    }

    /// How many names are visible.
    pub fn len(&self) -> usize
        ensures { result ≡ length self.now }
    {
        self.layers.len()
    }

    /// What the name stands for, if anything.
    pub fn find(&self, name: &Text) -> Option<Known>
        ensures { result ≡ object_found name.now self.now }
    {
        match latest_index(&self.latest, name.items()) {
            None => None,
            Some(index) => {
                let layer = &self.layers[index];
                Some(layer.binding.object)
            }
        }
    }

    pub fn declare(&mut self, alloc: Global, binding: Binding) -> Result<(), AllocError>
        ensures { IfOk result (λ _. self.new ≡ binding ∷ self.old) }
    {
        let index = self.layers.len();
        let name = Vec::from_slice(alloc, binding.name.items())?;
        let hidden = latest_index(&self.latest, &name);
        self.layers.push(Layer { binding, hidden })?;
        match self.latest.insert(name, Some(index)) {
            Ok(_) => Ok(()),
            Err(_) => {
                self.layers.pop();
                Err(AllocError)
            }
        }
    }

    /// Forgets the latest name.
    fn forget_latest(&mut self)
        requires { 0 < length self.old }
        ensures { self.new ≡ drop 1 self.old }
    {
        if let Some(layer) = self.layers.pop() {
            restore(&mut self.latest, layer.binding.name.items(), layer.hidden);
        }
    }

    /// Forgets the names that were declared since there were so many.
    pub fn forget(&mut self, len: usize)
        ensures { self.new ≡ drop (length self.old - len) self.old }
    {
        let count = self.len().saturating_sub(len);
        for i in 0..count {
            self.forget_latest();
        }
    }
}

/// The index of the latest declaration of the name.
fn latest_index(latest: &IndexMap<Vec<u8>, Option<usize>>, name: &[u8]) -> Option<usize>
    ensures { result ≡ index_in name.now latest.now.entries }
{
    match latest.get(name) {
        Some(index) => *index,
        None => None,
    }
}

/// Gives the name's entry this index.
fn restore(latest: &mut IndexMap<Vec<u8>, Option<usize>>, name: &[u8], index: Option<usize>)
    requires { is_some (entry_in name.now latest.old.entries) ≡ true }
    ensures { (q : List ℕ) → index_in q latest.new.entries ≡ (if bytes_eq q name.now then index else index_in q latest.old.entries) }
{
    if let Some(entry) = latest.get_mut(name) {
        *entry = index;
    }
}

/// The object that a name stands for, a scalar of type int where it is not declared. Each name of a program without faults is declared.
pub fn object_named(names: &Scopes, name: &Text) -> Known
    ensures { result ≡ spec.object_named names.now name.now }
{
    match names.find(name) {
        Some(object) => object,
        None => Known {
            cell: Cell {
                scope: Scope::File,
                number: 0,
            },
            kind: INT,
            is_array: false,
        },
    }
}
