//! The number of cycles that a formula gives for a run.

ghost use Rattle.std.specs.Prelude.{ℕ, ◌≡◌, ◌<◌, ◌*◌, ◌^◌, SomeIff};
ghost use Rattle.hls_base.specs.Tallies.{count_in, same_place, same_path, same_point};
ghost use Rattle.cycle_report.specs.FormulaValue.{cycles};

use crate::report::Formula;
use hls_base::place::Place;
use hls_base::point::{Point, Tally};

impl Formula {
    /// The cycles of a run that passed each point as often as the tally says, if they have 128 bits.
    pub fn cycles(&self, tally: &Tally) -> Option<u128>
        ensures { SomeIff result (cycles self.now.base self.now.rows.items tally.now < 2 ^ 128) (cycles self.now.base self.now.rows.items tally.now) }
    {
        let mut total = u128::from(self.base);
        for row in &self.rows {
            let count = count_at(tally.items(), &row.point);
            total = total.checked_add(spent(row.cost, count))?;
        }
        Some(total)
    }
}

/// What so many passings cost.
fn spent(cost: u64, count: u64) -> u128
    ensures { result ≡ cost * count }
{
    u128::from(cost) * u128::from(count)
}

/// How often the point was passed.
fn count_at(entries: &[(Point, u64)], point: &Point) -> u64
    ensures { result ≡ count_in entries.now point.now }
{
    for (passed, count) in entries {
        if is_same(passed, point) {
            return *count;
        }
    }
    0
}

fn is_same(a: &Point, b: &Point) -> bool
    ensures { result ≡ same_point a.now b.now }
{
    a.kind == b.kind && is_same_place(a.at, b.at) && is_same_path(a.path.items(), b.path.items())
}

fn is_same_place(a: Place, b: Place) -> bool
    ensures { result ≡ same_place a b }
{
    a.line == b.line && a.column == b.column && a.part == b.part
}

fn is_same_path(a: &[Place], b: &[Place]) -> bool
    ensures { result ≡ same_path a.now b.now }
{
    a == b
}
