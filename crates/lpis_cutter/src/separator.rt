//! The edge that separates two triangles.

ghost use Rattle.std.specs.Prelude.{◌≤◌, ◌≤ℤ◌, ◌↔◌, pos, IfNone, IfSome, IsTrue, ℕ};
ghost use Rattle.lpis_points.specs.Plane.{orient as orient_spec};
ghost use Rattle.lpis_points.specs.Triangles.{IsRight};
ghost use Rattle.lpis_cert.specs.Limits.{last_edge};
ghost use Rattle.lpis_checker.specs.GoodCertificate.{EdgeSeparates};
ghost use Rattle.lpis_cutter.specs.Refusals.{NoEdgeSeparates};

use lpis_points::{Point, Triangle, edge, orient};

/// Whether a point is right of the line from a to b, or on it.
fn is_right_of(a: Point, b: Point, point: Point) -> bool
    ensures { IsTrue result ↔ (orient_spec a b point ≤ℤ pos 0) }
{
    orient(a, b, point) <= 0
}

/// Whether each corner is right of the line from a to b, or on it.
fn is_right(a: Point, b: Point, triangle: &Triangle) -> bool
    ensures { IsRight a b triangle.now → IsTrue result }
{
    is_right_of(a, b, triangle.a) && is_right_of(a, b, triangle.b) && is_right_of(a, b, triangle.c)
}

/// Whether edge `k` of a triangle has another on its right.
fn has_on_right(own: &Triangle, k: u8, other: &Triangle) -> bool
    ensures { EdgeSeparates k own.now other.now → IsTrue result }
{
    match edge(own, k) {
        Some((a, b)) => is_right(a, b, other),
        None => false,
    }
}

/// The edge of a counter-clockwise triangle that has another on its right.
fn edge_between(own: &Triangle, other: &Triangle) -> Option<u8>
    ensures some { IfSome result (λ k. k ≤ 2) }
    ensures none { IfNone result ((k : ℕ) → k ≤ 2 → EdgeSeparates k own.now other.now → ⊥) }
{
    for k in 0..3 {
        if has_on_right(own, k, other) {
            return Some(k);
        }
    }
    None
}

/// The number of the edge that separates two counter-clockwise triangles: 0 to 2 of the first, 3 to
/// 5 of the second.
pub(crate) fn separator(s: &Triangle, t: &Triangle) -> Option<u8>
    ensures some { IfSome result (λ k. k ≤ last_edge) }
    ensures none { IfNone result (NoEdgeSeparates s.now t.now) }
{
    match edge_between(s, t) {
        Some(k) => Some(k),
        None => match edge_between(t, s) {
            Some(k) => Some(k + 3),
            None => None,
        },
    }
}
