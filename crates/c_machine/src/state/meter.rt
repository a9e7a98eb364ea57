//! The points that a run passes.
ghost use Rattle.std.specs.Prelude.{◌≡◌, ◌++◌, [], ◌∷◌, slice_get, IfOk, Some};
ghost use Rattle.hls_base.specs.declared.place.Place.{Place};
ghost use Rattle.c_machine.specs.State.PassedPaths.{PathTable, path_of, IsNumber, IsPathTable, Extends};
ghost use Rattle.c_machine.specs.State.Metering.{counts_of};

use hls_base::place::{Path, Place};
use hls_base::point::{Point, PointKind, Tally};
use indexmap::IndexMap;
use std::alloc::{AllocError, Global};
use std::hash::{Hash, Hasher};
use std::marker::Model;

/// A call that a run came to: the number of its caller's path, none for the top function, and its place.
#[derive(Clone, Copy, PartialEq, Eq)]
pub struct Call {
    pub caller: Option<usize>,
    pub at: Place,
}

impl Hash for Call {
    ghost use Rattle.std.specs.Prelude.{◌++◌};
    ghost use Rattle.std.specs.Hash as fed;
    ghost use Rattle.std.specs.Cmp.Rules.{hashing};
    ghost use Rattle.std.proofs.Common.{rules};

    ghost hash_input = { λ c. fed.option fed.usize c.caller ++ fed.u32 c.at.line ++ fed.u32 c.at.column ++ fed.u32 c.at.part };

    ghost respects_eq = { Prim.search (hashing, rules) };

    fn hash<H: Hasher>(&self, state: &mut H) {
        self.caller.hash(state);
        self.at.line.hash(state);
        self.at.column.hash(state);
        self.at.part.hash(state);
    }
}

/// A point, by the number of its path.
#[derive(Clone, Copy, PartialEq, Eq)]
pub struct NumberedPoint {
    pub path: Option<usize>,
    pub at: Place,
    pub kind: PointKind,
}

impl Hash for NumberedPoint {
    ghost use Rattle.std.specs.Prelude.{◌++◌};
    ghost use Rattle.std.specs.Hash as fed;
    ghost use Rattle.std.specs.Cmp.Rules.{hashing};
    ghost use Rattle.std.proofs.Common.{rules};

    ghost hash_input = { λ p. fed.option fed.usize p.path ++ fed.u32 p.at.line ++ fed.u32 p.at.column ++ fed.u32 p.at.part };

    ghost respects_eq = { Prim.search (hashing, rules) };

    fn hash<H: Hasher>(&self, state: &mut H) {
        self.path.hash(state);
        self.at.line.hash(state);
        self.at.column.hash(state);
        self.at.part.hash(state);
    }
}

/// How often each point was passed, in the order in which they were first passed, and how many more points may be passed.
#[derive(Drop)]
pub struct Meter {
    left: u64,
    passed: u64,
    calls: IndexMap<Call, Path>,
    counts: IndexMap<NumberedPoint, u64>,
}

impl Model for Meter {
    ghost use Rattle.c_machine.specs.State.Reading.{Reading};

    ghost Value = { Reading };

    ghost use Rattle.c_machine.specs.State.Metering.{reading_of, IsSound};

    ghost view = { reading_of };

    ghost invariant = { IsSound };
}

/// The number of a call, which it gets when it is come to first.
fn call_number(
    alloc: Global,
    calls: &mut IndexMap<Call, Path>,
    call: Call,
    path: &[Place],
) -> Result<usize, AllocError>
    requires table { IsPathTable calls.old.entries }
    requires caller { IsNumber calls.old.entries call.caller }
    requires path { path.now ≡ path_of calls.old.entries call.caller ++ call.at ∷ [] }
    ensures table { IsPathTable calls.new.entries }
    ensures kept { Extends calls.old.entries calls.new.entries }
    ensures number { IfOk result (λ number. slice_get calls.new.entries number ≡ Some (call, path.now)) }
{
    if let Some(number) = calls.get_index_of(&call) {
        return Ok(number);
    }
    let number = calls.len();
    let path = Path::new(Vec::from_slice(alloc, path)?);
    calls.insert(call, path)?;
    Ok(number)
}

/// The number of a path.
fn path_number(
    alloc: Global,
    calls: &mut IndexMap<Call, Path>,
    path: &[Place],
) -> Result<Option<usize>, AllocError>
    requires { IsPathTable calls.old.entries }
    ensures table { IsPathTable calls.new.entries }
    ensures kept { Extends calls.old.entries calls.new.entries }
    ensures number { IfOk result (λ number. IsNumber calls.new.entries number) }
    ensures path { IfOk result (λ number. path_of calls.new.entries number ≡ path.now) }
{
    let mut number = None;
    for i in 0..path.len() {
        let call = Call {
            caller: number,
            at: path[i],
        };
        number = Some(call_number(alloc, calls, call, &path[..=i])?);
    }
    Ok(number)
}

/// The path of a number.
fn path_of(
    alloc: Global,
    calls: &IndexMap<Call, Path>,
    number: Option<usize>,
) -> Result<Path, AllocError>
    ensures { IfOk result (λ path. path ≡ path_of calls.now.entries number) }
{
    if let Some(number) = number {
        if let Some((_, path)) = calls.get_index(number) {
            return path.copy(alloc);
        }
    }
    Ok(Path::new(Vec::new(alloc)))
}

/// How often each point was passed.
fn all_counts(
    alloc: Global,
    calls: &IndexMap<Call, Path>,
    counts: &IndexMap<NumberedPoint, u64>,
) -> Result<Vec<(Point, u64)>, AllocError>
    ensures { IfOk result (λ all. all.items ≡ counts_of calls.now.entries counts.now.entries) }
{
    let mut all = Vec::with_capacity(alloc, counts.len())?;
    for i in 0..counts.len() {
        let Some((point, count)) = counts.get_index(i) else {
            unreachable!();
        };
        let path = path_of(alloc, calls, point.path)?;
        let point = Point {
            path,
            at: point.at,
            kind: point.kind,
        };
        all.push((point, *count))?;
    }
    Ok(all)
}

impl Meter {
    ghost use Rattle.std.specs.Prelude.{◌≡◌, ◌+◌, ◌<◌, ◌^◌, [], IfOk, OnOk, OnErr};
    ghost use Rattle.c_meaning.specs.Points.{count_point};

    /// No point is passed, and none may be.
    pub fn new(alloc: Global) -> Meter
        ensures { result ≡ record { left = 0; passed = 0; counts = [] } }
    {
        Meter {
            left: 0,
            passed: 0,
            calls: IndexMap::new(alloc),
            counts: IndexMap::new(alloc),
        }
    }

    /// Lets so many points be passed from now on.
    pub fn allow(&mut self, points: u64)
        requires { points + self.old.passed < 2 ^ 64 }
        ensures { self.new ≡ record self.old { left = points } }
    {
        self.left = points;
    }

    /// How many more points may be passed.
    pub fn left(&self) -> u64
        ensures value { result ≡ self.now.left }
        ensures fits { self.now.left + self.now.passed < 2 ^ 64 }
    {
        self.left
    }

    /// How many points were passed.
    pub fn passed(&self) -> u64
        ensures { result ≡ self.now.passed }
    {
        self.passed
    }

    /// Counts a point, and uses one of those that may be passed.
    pub fn count(
        &mut self,
        alloc: Global,
        path: &[Place],
        at: Place,
        kind: PointKind,
    ) -> Result<(), AllocError>
        requires { 0 < self.old.left }
        ensures left { OnOk result (self.new.left + 1 ≡ self.old.left) }
        ensures passed { OnOk result (self.new.passed ≡ self.old.passed + 1) }
        ensures counts { OnOk result (self.new.counts ≡ count_point (record { path = path.now; at = at; kind = kind }) self.old.counts) }
        ensures unchanged { OnErr result (self.new ≡ self.old) }
    {
        let path = path_number(alloc, &mut self.calls, path)?;
        let point = NumberedPoint { path, at, kind };
        let before = self.counts.get(&point).copied().unwrap_or(0);
        self.counts.insert(point, before + 1)?;
        self.passed += 1;
        self.left -= 1;
        Ok(())
    }

    /// How often each point was passed.
    pub fn tally(&self, alloc: Global) -> Result<Tally, AllocError>
        ensures { IfOk result (λ tally. tally ≡ self.now.counts) }
    {
        let counts = all_counts(alloc, &self.calls, &self.counts)?;
        Ok(Tally::new(counts))
    }
}
