//! The environments of all calls that are under way.
ghost use Rattle.std.specs.Prelude.{◌≡◌, ◌++◌, ◌∷◌, [], take, OnOk, OnErr};

use crate::state::names::object_named;
use c_meaning::names::Binding;
use c_token::ctype::CType;
use hls_base::place::Place;
use hls_base::text::Text;
use std::alloc::{AllocError, Global};
use std::marker::Model;

/// A part of a run with names of its own. It sees the names from one number to another among all names, and so many of all calls lead to it.
#[derive(Clone, Copy)]
pub struct Scope {
    pub from: usize,
    pub to: usize,
    pub depth: usize,
    pub kind: Option<CType>,
    pub next: usize,
}

/// The names of file scope, the environment of what runs, and the environments to which control returns.
#[derive(Drop)]
pub struct Scopes {
    file: Vec<Binding>,
    names: Vec<Binding>,
    calls: Vec<Place>,
    here: Scope,
    outer: Vec<Scope>,
}

impl Model for Scopes {
    ghost use Rattle.std.specs.Prelude.{length, reverse, ◌∷◌};
    ghost use Rattle.c_machine.specs.State.Scopes.{Environments, environment_of, environments_of, are_nested};

    ghost Value = { Environments };

    ghost view = { λ s. record { file = s.file.items; environment = environment_of s.file.items s.names.items s.calls.items s.here; outer = environments_of s.file.items s.names.items s.calls.items (reverse s.outer.items) } };

    ghost invariant = { λ s. are_nested (length s.names.items) (length s.calls.items) (s.here ∷ reverse s.outer.items) };
}

/// What stands outside all calls.
fn outermost(kind: Option<CType>) -> Scope
    ensures { result ≡ record { from = 0; to = 0; depth = 0; kind = kind; next = 0 } }
{
    Scope {
        from: 0,
        to: 0,
        depth: 0,
        kind,
        next: 0,
    }
}

/// Puts a binding behind the first ones.
fn put_name(names: &mut Vec<Binding>, keep: usize, binding: Binding) -> Result<(), AllocError>
    ensures ok { OnOk result (names.new.items ≡ take keep names.old.items ++ binding ∷ []) }
    ensures err { OnErr result (names.new.items ≡ take keep names.old.items) }
{
    names.truncate(keep);
    names.push(binding)?;
    Ok(())
}

/// Puts a place behind the first ones.
fn put_place(places: &mut Vec<Place>, keep: usize, at: Place) -> Result<(), AllocError>
    ensures ok { OnOk result (places.new.items ≡ take keep places.old.items ++ at ∷ []) }
    ensures err { OnErr result (places.new.items ≡ take keep places.old.items) }
{
    places.truncate(keep);
    places.push(at)?;
    Ok(())
}

impl Scopes {
    ghost use Rattle.std.specs.Prelude.{◌≡◌, ◌≤◌, ◌^◌, [], ◌∷◌, ◌++◌, OnOk, OnErr};
    ghost use Rattle.c_meaning.specs.Store.{declared, object_named};
    ghost use Rattle.c_meaning.specs.Names.{begun, bind};
    ghost use Rattle.c_machine.specs.State.Lists.{head_or, tail};

    /// The top function, whose result is of this type.
    pub fn new(alloc: Global, file: Vec<Binding>, kind: Option<CType>) -> Scopes
        ensures { result ≡ record { file = file.items; environment = begun file.items [] kind; outer = [] } }
    {
        Scopes {
            file,
            names: Vec::new(alloc),
            calls: Vec::new(alloc),
            here: outermost(kind),
            outer: Vec::new(alloc),
        }
    }

    /// The object that a name stands for.
    pub fn find(&self, name: &[u8]) -> usize
        ensures { result ≡ object_named self.now.environment name.now }
    {
        let inner = &self.names[self.here.from..self.here.to];
        object_named(inner, self.file.as_slice(), name)
    }

    /// The places of the calls that lead here.
    pub fn path(&self) -> &[Place]
        ensures { result.now ≡ self.now.environment.path }
    {
        &self.calls[..self.here.depth]
    }

    pub fn result_kind(&self) -> Option<CType>
        ensures { result ≡ self.now.environment.result }
    {
        self.here.kind
    }

    /// The object that is declared next.
    pub fn next(&self) -> usize
        ensures { result ≡ self.now.environment.next }
    {
        self.here.next
    }

    /// Begins a part whose names end with it.
    pub fn open(&mut self) -> Result<(), AllocError>
        ensures ok { OnOk result (self.new ≡ record self.old { outer = self.old.environment ∷ self.old.outer }) }
        ensures err { OnErr result (self.new ≡ self.old) }
    {
        self.outer.push(self.here)?;
        Ok(())
    }

    /// Lets the objects that are declared be numbered from here on.
    pub fn number_from(&mut self, next: usize)
        requires { next ≤ 2 ^ 63 }
        ensures { self.new ≡ record self.old { environment = record self.old.environment { next = next } } }
    {
        self.here.next = next;
    }

    /// Returns to the environment that was left last.
    pub fn leave(&mut self)
        ensures { self.new ≡ record self.old { environment = head_or (begun self.old.file [] None) self.old.outer; outer = tail self.old.outer } }
    {
        self.here = self.outer.pop().unwrap_or(outermost(None));
    }

    /// Lets a name stand for an object.
    pub fn bind(&mut self, alloc: Global, name: &Text, object: usize) -> Result<(), AllocError>
        ensures ok { OnOk result (self.new ≡ record self.old { environment = bind self.old.environment name.now object }) }
        ensures err { OnErr result (self.new ≡ self.old) }
    {
        let name = name.copy(alloc)?;
        put_name(&mut self.names, self.here.to, Binding { name, object })?;
        self.here.to += 1;
        Ok(())
    }

    /// Lets a name stand for the next object.
    pub fn declare(&mut self, alloc: Global, name: &Text) -> Result<(), AllocError>
        ensures ok { OnOk result (self.new ≡ record self.old { environment = declared self.old.environment name.now }) }
        ensures err { OnErr result (self.new ≡ self.old) }
    {
        let name = name.copy(alloc)?;
        let object = self.here.next;
        put_name(&mut self.names, self.here.to, Binding { name, object })?;
        self.here.to += 1;
        self.here.next = object + 1;
        Ok(())
    }

    /// Begins a function with this result, which is called from this place.
    pub fn call(&mut self, at: Place, kind: Option<CType>) -> Result<(), AllocError>
        ensures ok { OnOk result (self.new ≡ record self.old { environment = begun self.old.file (self.old.environment.path ++ at ∷ []) kind; outer = self.old.environment ∷ self.old.outer }) }
        ensures err { OnErr result (self.new ≡ self.old) }
    {
        put_place(&mut self.calls, self.here.depth, at)?;
        self.outer.push(self.here)?;
        self.here = Scope {
            from: self.here.to,
            to: self.here.to,
            depth: self.here.depth + 1,
            kind,
            next: 0,
        };
        Ok(())
    }
}
