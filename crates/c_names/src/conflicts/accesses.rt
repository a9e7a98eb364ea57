//! Accesses of names, and the least change of each.
ghost use Rattle.std.specs.Prelude.{◌≡◌, ◌++◌, ℕ, [], ◌∷◌, List, OnOk, IfOk, Some, length, get_or, is_some, ◌<◌, bytes_eq, if◌then◌else◌};
ghost use Rattle.std.specs.List.{list_any};
ghost use Rattle.c_meaning.specs.Checks.Faults as order;
ghost use Rattle.c_meaning.specs.Checks.Faults.{least};
ghost use Rattle.c_meaning.specs.Checks.Names.{sense_of};
ghost use Rattle.c_meaning.specs.Checks.Conflicts.{read, name_of, names_it, is_access};
ghost use Rattle.c_meaning.specs.Checks.Conflicts as spec;
ghost use Rattle.c_names.specs.Conflicts.Views.{access_view};
ghost use Rattle.c_names.specs.Conflicts.Known.{fault_entry, found};
ghost use Rattle.c_names.specs.Conflicts.Known as known;

use crate::declarations::faults::{fault, lesser};
use crate::declarations::names::{Scopes, Sense};
use hls_base::place::Place;
use hls_base::refusal::Refusal;
use hls_base::text::Text;
use indexmap::IndexMap;
use std::alloc::{AllocError, Global};
use std::collections::VecDeque;
use std::marker::Model;

/// A read of a name, or a change of it at an operator.
#[derive(Drop)]
pub struct Access {
    pub name: Text,
    pub change: Option<Place>,
}

impl Model for Access {
    ghost use Rattle.c_meaning.specs.Checks.Conflicts.{Access};
    ghost use Rattle.c_names.specs.Conflicts.Views.{access_view};

    ghost Value = { Access };

    ghost view = { λ a. access_view a.name a.change };
}

/// The fault of an access, if it is a change in conflict.
pub fn own_fault(access: &Access) -> Option<Refusal>
    ensures { result ≡ least (spec.clash access.now (read (name_of access.now) ∷ [])) }
{
    match access.change {
        None => None,
        Some(at) => fault(24, at),
    }
}

/// Accesses in order. A clause sees the list of them.
#[derive(Drop)]
pub struct Accesses {
    listed: VecDeque<Access>,
    faults: IndexMap<Vec<u8>, Option<Refusal>>,
}

impl Model for Accesses {
    ghost use Rattle.std.specs.Prelude.{List};
    ghost use Rattle.c_meaning.specs.Checks.Conflicts.{Access};

    ghost Value = { List Access };

    ghost use Rattle.c_names.specs.Conflicts.Known.{Knows};

    ghost view = { λ a. a.listed.items };

    ghost invariant = { λ a. Knows a.listed.items a.faults.entries };
}

impl Accesses {
    pub fn new(alloc: Global) -> Accesses
        ensures { result ≡ [] }
    {
        Accesses {
            listed: VecDeque::new(alloc),
            faults: IndexMap::new(alloc),
        }
    }

    pub fn len(&self) -> usize
        ensures { result ≡ length self.now }
    {
        self.listed.len()
    }

    /// The access with this index.
    pub fn at(&self, index: usize) -> &Access
        requires { index < length self.now }
        ensures { result.now ≡ get_or self.now index result.now }
    {
        &self.listed[index]
    }

    /// Whether one of them is of the name.
    pub fn is_named(&self, name: &Text) -> bool
        ensures { result ≡ list_any (names_it name.now) self.now }
    {
        is_there(&self.faults, name.items())
    }

    /// The fault of the least change of the name, if another access of it is in conflict.
    pub fn change_fault(&self, name: &Text) -> Option<Refusal>
        ensures { result ≡ known.change_fault name.now self.now }
    {
        fault_found(&self.faults, name.items())
    }

    /// One access in front of them.
    fn with_first(self, alloc: Global, access: Access) -> Result<Accesses, AllocError>
        ensures { IfOk result (λ all. all ≡ access ∷ self) }
    {
        let Accesses { listed, faults } = self;
        let mut listed = listed;
        let mut faults = faults;
        note(alloc, &mut faults, &access)?;
        listed.push_front(access)?;
        Ok(Accesses { listed, faults })
    }

    /// One access behind them.
    pub fn with_last(self, alloc: Global, access: Access) -> Result<Accesses, AllocError>
        ensures { IfOk result (λ all. all ≡ self ++ access ∷ []) }
    {
        let Accesses { listed, faults } = self;
        let mut listed = listed;
        let mut faults = faults;
        note(alloc, &mut faults, &access)?;
        listed.push_back(access)?;
        Ok(Accesses { listed, faults })
    }

    /// These and then those, in time by the shorter of both.
    pub fn followed_by(self, alloc: Global, those: Accesses) -> Result<Accesses, AllocError>
        ensures { IfOk result (λ all. all ≡ self ++ those) }
    {
        if self.len() <= those.len() {
            put_in_front(alloc, self, those)
        } else {
            put_behind(alloc, self, those)
        }
    }
}

fn put_in_front(alloc: Global, these: Accesses, those: Accesses) -> Result<Accesses, AllocError>
    ensures { IfOk result (λ all. all ≡ these ++ those) }
{
    let Accesses { listed, .. } = these;
    let mut listed = listed;
    let mut all = those;
    while let Some(access) = listed.pop_back() {
        all = all.with_first(alloc, access)?;
    }
    Ok(all)
}

fn put_behind(alloc: Global, these: Accesses, those: Accesses) -> Result<Accesses, AllocError>
    ensures { IfOk result (λ all. all ≡ these ++ those) }
{
    let Accesses { listed, .. } = those;
    let mut listed = listed;
    let mut all = these;
    while let Some(access) = listed.pop_front() {
        all = all.with_last(alloc, access)?;
    }
    Ok(all)
}

fn is_there(faults: &IndexMap<Vec<u8>, Option<Refusal>>, name: &[u8]) -> bool
    ensures { result ≡ is_some (fault_entry name.now faults.now.entries) }
{
    match faults.get(name) {
        Some(_) => true,
        None => false,
    }
}

fn fault_found(faults: &IndexMap<Vec<u8>, Option<Refusal>>, name: &[u8]) -> Option<Refusal>
    ensures { result ≡ found (fault_entry name.now faults.now.entries) }
{
    match faults.get(name) {
        Some(fault) => *fault,
        None => None,
    }
}

/// Gives the name of the access an entry, with the lesser of its faults.
fn note(
    alloc: Global,
    faults: &mut IndexMap<Vec<u8>, Option<Refusal>>,
    access: &Access,
) -> Result<(), AllocError>
    ensures { OnOk result ((q : List ℕ) → fault_entry q faults.new.entries ≡ (if bytes_eq q (name_of access.now) then Some (order.lesser (least (spec.clash access.now (read (name_of access.now) ∷ []))) (found (fault_entry (name_of access.now) faults.old.entries))) else fault_entry q faults.old.entries)) }
{
    let name = Vec::from_slice(alloc, access.name.items())?;
    let earlier = fault_found(faults, &name);
    let fault = lesser(own_fault(access), earlier);
    faults.insert(name, fault)?;
    Ok(())
}

/// Whether the name with so many subscripts is a scalar or an element.
fn is_accessed(names: &Scopes, name: &Text, subscripts: usize) -> bool
    ensures { result ≡ is_access (sense_of name.now names.now) subscripts }
{
    match names.find(name) {
        Some(Sense::Object(shape)) => (shape.lengths.len() == 0) == (subscripts == 0),
        _ => false,
    }
}

/// The access of a name with so many subscripts, if it is one.
fn access_of(
    alloc: Global,
    names: &Scopes,
    name: &Text,
    subscripts: usize,
    change: Option<Place>,
) -> Result<Accesses, AllocError>
    ensures { IfOk result (λ v. v ≡ spec.one_if (is_access (sense_of name.now names.now) subscripts) (access_view name.now change)) }
{
    let none = Accesses::new(alloc);
    if is_accessed(names, name, subscripts) {
        let name = name.copy(alloc)?;
        let one = none.with_last(alloc, Access { name, change })?;
        Ok(one)
    } else {
        Ok(none)
    }
}

/// The read of a name with so many subscripts, if it is one.
#[inline(never)]
pub fn read_of(
    alloc: Global,
    names: &Scopes,
    name: &Text,
    subscripts: usize,
) -> Result<Accesses, AllocError>
    ensures { IfOk result (λ v. v ≡ spec.read_of names.now name.now subscripts) }
{
    let read = access_of(alloc, names, name, subscripts, None)?;
    Ok(read)
}

/// The change of a name with so many subscripts, if it is one.
#[inline(never)]
pub fn change_of(
    alloc: Global,
    names: &Scopes,
    name: &Text,
    subscripts: usize,
    at: Place,
) -> Result<Accesses, AllocError>
    ensures { IfOk result (λ v. v ≡ spec.change_of names.now name.now subscripts at) }
{
    let change = access_of(alloc, names, name, subscripts, Some(at))?;
    Ok(change)
}
