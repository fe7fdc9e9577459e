//! Sets of points.

ghost use Rattle.std.specs.Prelude.{◌↔◌, ◌++◌, ◌<◌, IsTrue, Contains, length};
ghost use Rattle.std.specs.List.Sorted.{IsSorted};
ghost use Rattle.lpis_points.specs.declared.point.Point.{Point};
ghost use Rattle.lpis_edge_sums.specs.Making.{HasCorners, HaveCorners};
ghost use Rattle.lpis_edge_sums.specs.private.SignedEdges.{few, point_order};

use lpis_points::{Point, Triangle};
use std::marker::Model;

/// The most points that are looked for one by one.
const FEW: usize = 16;

/// A set of points, which contracts see as a list of them.
#[derive(Drop)]
pub(crate) struct PointSet {
    /// Sorted, unless they are few.
    points: Vec<Point>,
}

impl Model for PointSet {
    ghost use Rattle.std.specs.Prelude.{List, ◌<◌, length};
    ghost use Rattle.std.specs.List.Sorted.{IsSorted};
    ghost use Rattle.lpis_points.specs.declared.point.Point.{Point};
    ghost use Rattle.lpis_edge_sums.specs.private.SignedEdges.{few, point_order};

    ghost Value = { List Point };

    ghost view = { λ s. s.points.items };

    ghost invariant = { λ s. few < length s.points.items
        → IsSorted point_order s.points.items };
}

/// The same points, sorted where they are many.
fn sorted_if_many(mut points: Vec<Point>) -> Vec<Point>
    ensures same { (p : Point) → Contains result.items p ↔ Contains points.items p }
    ensures sorted { few < length result.items → IsSorted point_order result.items }
{
    if points.len() <= FEW {
        return points;
    }
    points.sort_unstable();
    points
}

impl PointSet {
    /// The set of these points.
    pub(crate) fn of(points: Vec<Point>) -> PointSet
        ensures { (p : Point) → Contains result p ↔ Contains points.items p }
    {
        let points = sorted_if_many(points);
        PointSet { points }
    }

    /// Whether a point is in the set.
    fn contains(&self, point: Point) -> bool
        ensures { IsTrue result ↔ Contains self.now point }
    {
        if self.points.len() <= FEW {
            self.points.contains(&point)
        } else {
            self.points.binary_search(&point).is_ok()
        }
    }

    /// Whether the corners of a triangle are in the set.
    #[tactic(auto, unfolding(crate::specs::Making::HasCorners))]
    fn has_corners(&self, triangle: &Triangle) -> bool
        ensures { IsTrue result ↔ HasCorners self.now triangle.now }
    {
        let Triangle { a, b, c } = *triangle;
        self.contains(a) && self.contains(b) && self.contains(c)
    }

    /// Whether the corners of each of these triangles are in the set.
    pub(crate) fn has_all_corners(&self, triangles: &[Triangle]) -> bool
        ensures { IsTrue result ↔ HaveCorners self.now triangles.now }
    {
        triangles.iter().all(|t| self.has_corners(t))
    }

    /// Whether the corners of each of these triangles and of each of these flats are in the set.
    pub(crate) fn has_corners_of_both(&self, triangles: &[Triangle], flats: &[Triangle]) -> bool
        ensures { IsTrue result ↔ HaveCorners self.now (triangles.now ++ flats.now) }
    {
        self.has_all_corners(triangles) && self.has_all_corners(flats)
    }
}
