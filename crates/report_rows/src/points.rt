//! The order of points.
ghost use Rattle.std.specs.Prelude.{◌≡◌};
ghost use Rattle.std.specs.Ordering.{nat_cmp};
ghost use Rattle.report_rows.specs.Points.{path_order, place_order, kind_number, point_order};

use hls_base::place::Place;
use hls_base::point::{Point, PointKind};
use std::cmp::Ordering;

fn compare_places(a: Place, b: Place) -> Ordering
    ensures { result ≡ place_order a b }
{
    a.cmp(&b)
}

fn compare_paths(a: &[Place], b: &[Place]) -> Ordering
    ensures { result ≡ path_order a.now b.now }
{
    a.cmp(b)
}

fn compare_kinds(a: PointKind, b: PointKind) -> Ordering
    ensures { result ≡ nat_cmp (kind_number a) (kind_number b) }
{
    a.cmp(&b)
}

/// The order of points in a report: by path, then by place, then by kind.
pub fn compare(a: &Point, b: &Point) -> Ordering
    ensures { result ≡ point_order a.now b.now }
{
    match compare_paths(a.path.items(), b.path.items()) {
        Ordering::Equal => match compare_places(a.at, b.at) {
            Ordering::Equal => compare_kinds(a.kind, b.kind),
            other => other,
        },
        other => other,
    }
}
