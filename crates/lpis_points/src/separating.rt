//! Lines between triangles.

ghost use Rattle.std.specs.Prelude.{◌↔◌, ◌≤ℤ◌, IsTrue, pos};
ghost use Rattle.lpis_points.specs.Triangles.{IsLeft, IsRight, Separates};

use crate::point::Point;
use crate::side::orient;
use crate::triangle::{Triangle, differ};

fn none_below(x: i128, y: i128, z: i128) -> bool
    ensures { IsTrue result ↔ ((pos 0 ≤ℤ x) × (pos 0 ≤ℤ y) × (pos 0 ≤ℤ z)) }
{
    x >= 0 && y >= 0 && z >= 0
}

fn none_above(x: i128, y: i128, z: i128) -> bool
    ensures { IsTrue result ↔ ((x ≤ℤ pos 0) × (y ≤ℤ pos 0) × (z ≤ℤ pos 0)) }
{
    x <= 0 && y <= 0 && z <= 0
}

/// Whether each corner is left of the directed line from `u` to `v`, or on it.
fn is_left(u: Point, v: Point, triangle: &Triangle) -> bool
    ensures { IsTrue result ↔ IsLeft u v triangle.now }
{
    none_below(
        orient(u, v, triangle.a),
        orient(u, v, triangle.b),
        orient(u, v, triangle.c),
    )
}

/// Whether each corner of a triangle is right of the directed line from `u` to `v`, or on it.
pub fn is_right(u: Point, v: Point, triangle: &Triangle) -> bool
    ensures { IsTrue result ↔ IsRight u v triangle.now }
{
    none_above(
        orient(u, v, triangle.a),
        orient(u, v, triangle.b),
        orient(u, v, triangle.c),
    )
}

/// Whether a line separates two triangles: its two points differ, each corner of `left` is left of
/// it or on it, and each corner of `right` is right of it or on it.
pub fn separates(line: (Point, Point), left: &Triangle, right: &Triangle) -> bool
    ensures { IsTrue result ↔ Separates line left.now right.now }
{
    let (u, v) = line;
    differ(u, v) && is_left(u, v, left) && is_right(u, v, right)
}
