//! Triangles.

ghost use Rattle.std.specs.Prelude.{◌≡◌, ◌≢◌, ◌↔◌, IsTrue, slice_get};
ghost use Rattle.lpis_points.specs.Triangles.{IsCounterClockwise, IsFlat, triangle_edges};

use crate::point::Point;
use crate::side::orient;

/// Three corners, in order.
#[derive(Clone, Copy, Debug, PartialEq, Eq)]
pub struct Triangle {
    pub a: Point,
    pub b: Point,
    pub c: Point,
}

/// Whether a triangle is counter-clockwise: its third corner is left of the line from the first to
/// the second.
pub fn is_ccw(triangle: &Triangle) -> bool
    ensures { IsTrue result ↔ IsCounterClockwise triangle.now }
{
    orient(triangle.a, triangle.b, triangle.c) > 0
}

/// Whether two points differ.
pub(crate) fn differ(a: Point, b: Point) -> bool
    ensures { IsTrue result ↔ (a ≢ b) }
{
    a != b
}

/// Whether a triangle is flat: three different points of one line.
pub fn is_flat(triangle: &Triangle) -> bool
    ensures { IsTrue result ↔ IsFlat triangle.now }
{
    let Triangle { a, b, c } = *triangle;
    orient(a, b, c) == 0 && differ(a, b) && differ(b, c) && differ(c, a)
}

/// A directed edge: from the first corner to the second for 0, from the second to the third for 1,
/// from the third to the first for 2, and `None` above.
pub fn edge(triangle: &Triangle, k: u8) -> Option<(Point, Point)>
    ensures { result ≡ slice_get (triangle_edges triangle.now) k }
{
    let Triangle { a, b, c } = *triangle;
    match k {
        0 => Some((a, b)),
        1 => Some((b, c)),
        2 => Some((c, a)),
        _ => None,
    }
}
