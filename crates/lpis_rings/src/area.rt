//! Doubled areas, in square millimetres.

ghost use Rattle.std.specs.Prelude.{◌≡◌, ◌≤◌, ◌+◌, ◌*◌, ◌*ℤ◌, pos, length, nat_abs, unsigned_abs};
ghost use Rattle.lpis_points.specs.Plane.{shoelace_term};
ghost use Rattle.lpis_rings.specs.Area.{absolute_sums, area2, member_area2, shoelace};
ghost use Rattle.lpis_rings.specs.AreaBounds.{most_area, most_term};
ghost use Rattle.lpis_rings.specs.Polygon.{member_points, most_points, points_in};
ghost use Rattle.lpis_rings.specs.private.Margins.{ring_coordinate_margin, ring_product_margin};

use crate::polygon::{Member, Polygon};
use crate::ring::Ring;
use lpis_points::Point;

/// The first number times the second.
fn product(x: i128, y: i128) -> i128
    requires x_in { unsigned_abs x ≤ ring_coordinate_margin }
    requires y_in { unsigned_abs y ≤ ring_coordinate_margin }
    ensures value { result ≡ x *ℤ y }
    ensures small { unsigned_abs result ≤ ring_product_margin }
{
    x * y
}

/// The term of an edge in the shoelace sum: `ax*by - bx*ay`.
fn shoelace_term(a: Point, b: Point) -> i128
    ensures value { result ≡ shoelace_term a b }
    ensures small { unsigned_abs result ≤ most_term }
{
    product(a.x as i128, b.y as i128) - product(b.x as i128, a.y as i128)
}

/// Twice the signed area of a ring in square millimetres, above 0 where it is counter-clockwise:
/// the sum of `ax*by - bx*ay` over its edges. The ring has at most `MOST_POINTS` points, as each
/// ring of a polygon.
pub fn shoelace(ring: &Ring) -> i128
    requires { length ring.now ≤ most_points }
    ensures value { result ≡ shoelace ring.now }
    ensures small { unsigned_abs result ≤ most_term * length ring.now }
{
    let points = ring.points();
    let mut sum = 0;
    for i in 1..points.len() {
        sum += shoelace_term(points[i - 1], points[i]);
    }
    sum
}

/// The absolute shoelace sum of a ring.
fn absolute_sum(ring: &Ring) -> i128
    requires { length ring.now ≤ most_points }
    ensures value { result ≡ pos (nat_abs (shoelace ring.now)) }
    ensures small { unsigned_abs result ≤ most_term * length ring.now }
{
    shoelace(ring).abs()
}

/// The absolute shoelace sums of rings, added.
fn absolute_sums(rings: &[Ring]) -> i128
    requires { points_in rings.now ≤ most_points }
    ensures value { result ≡ absolute_sums rings.now }
    ensures small { unsigned_abs result ≤ most_term * points_in rings.now }
{
    let mut sum = 0;
    for ring in rings {
        sum += absolute_sum(ring);
    }
    sum
}

/// Twice the area of a member: the absolute sum of its shell less those of its holes.
fn member_area2(member: &Member) -> i128
    requires { member_points member.now ≤ most_points }
    ensures value { result ≡ member_area2 member.now }
    ensures small { unsigned_abs result ≤ most_term * member_points member.now }
{
    absolute_sum(&member.shell) - absolute_sums(member.holes.as_slice())
}

/// Twice the area of a polygon in square millimetres: over its members, the absolute shoelace sum
/// of the shell less those of its holes. It is below 0 where the holes are larger.
pub fn area2(polygon: &Polygon) -> i128
    ensures value { result ≡ area2 polygon.now }
    ensures small { unsigned_abs result ≤ most_area }
{
    let members = polygon.members();
    let mut sum = 0;
    for member in members {
        sum += member_area2(member);
    }
    sum
}
