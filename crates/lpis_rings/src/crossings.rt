//! How often a polygon turns round a point, and whether it contains the point.

ghost use Rattle.std.specs.Prelude.{◌≡◌, ◌≤◌, ◌↔◌, IsTrue, length};
ghost use Rattle.lpis_points.specs.RatPoints.{rational_of};
ghost use Rattle.lpis_rings.specs.Polygon.{most_points};
ghost use Rattle.lpis_rings.specs.Edges.{Contains, edges_of, turns as turns_spec};

use crate::polygon::Polygon;
use crate::walks::Edges;
use lpis_points::{RatPoint, crossing};

/// The directed edges of a polygon in normal orientation: members in order, each shell before its
/// holes. A shell whose shoelace sum is below 0 and a hole whose sum is above 0 are walked
/// backwards, all other rings as written. Nothing is copied but the two points of each edge.
pub fn edges(polygon: &Polygon) -> Edges<'_>
    ensures list { result ≡ edges_of polygon.now }
    ensures few { length result ≤ most_points }
{
    Edges::of_members(polygon.members())
}

/// The sum of the crossings of a polygon's edges by a point.
pub fn turns(polygon: &Polygon, p: &RatPoint) -> i64
    ensures { result ≡ turns_spec polygon.now (rational_of p.now) }
{
    let mut sum = 0;
    for (a, b) in edges(polygon) {
        sum += i64::from(crossing(a, b, p));
    }
    sum
}

/// Whether a polygon contains a point: the number of its edges with a crossing other than 0 is odd.
/// A point on a border is taken as one a hair to the right of it and less above.
pub fn contains(polygon: &Polygon, p: &RatPoint) -> bool
    ensures { IsTrue result ↔ Contains polygon.now (rational_of p.now) }
{
    let crossed = edges(polygon).filter(|(a, b)| crossing(*a, *b, p) != 0);
    crossed.count() % 2 == 1
}
