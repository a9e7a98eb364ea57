ghost use Rattle.std.specs.Prelude.{◌≡◌, IfOk};

use crate::place::{Path, Place};
use std::alloc::{AllocError, Global};
use std::marker::Model;

/// What begins at a point, or that something ends there.
#[derive(Clone, Copy, PartialEq, Eq, PartialOrd, Ord)]
pub enum PointKind {
    Begin,
    Test,
    Body,
    Step,
    End,
    Arm,
}

/// A place that control comes to, under the calls that lead there.
#[derive(Drop)]
pub struct Point {
    pub path: Path,
    pub at: Place,
    pub kind: PointKind,
}

impl Point {
    /// Another owner of the same point.
    pub fn copy(&self, alloc: Global) -> Result<Point, AllocError>
        ensures { IfOk result (λ p. p ≡ self.now) }
    {
        let path = self.path.copy(alloc)?;
        Ok(Point {
            path,
            at: self.at,
            kind: self.kind,
        })
    }
}

/// How often each point was passed. The points differ.
#[derive(Drop)]
pub struct Tally {
    counts: Vec<(Point, u64)>,
}

impl Model for Tally {
    ghost use Rattle.std.specs.Prelude.{List, ℕ};
    ghost use Rattle.hls_base.specs.declared.point.Point.{Point};
    ghost use Rattle.hls_base.specs.Tallies.{HasDistinctPoints};

    ghost Value = { List (Point × ℕ) };

    ghost view = { λ t. t.counts.items };

    ghost invariant = { λ t. HasDistinctPoints t.counts.items };
}

impl Tally {
    ghost use Rattle.hls_base.specs.Tallies.{HasDistinctPoints};

    pub fn new(items: Vec<(Point, u64)>) -> Tally
        requires { HasDistinctPoints items.items }
        ensures { result ≡ items.items }
    {
        Tally { counts: items }
    }

    pub fn items(&self) -> &[(Point, u64)]
        ensures same { result.now ≡ self.now }
        ensures distinct { HasDistinctPoints self.now }
    {
        self.counts.as_slice()
    }
}
