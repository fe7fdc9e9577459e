//! On which side of a line a point lies, and how an edge passes it.

ghost use Rattle.std.specs.Prelude.{◌≡◌, ◌-ℤ◌, ◌*ℤ◌, ◌≤◌, unsigned_abs};
ghost use Rattle.lpis_points.specs.Plane.{crossing as crossing_spec, crossing_of};
ghost use Rattle.lpis_points.specs.Plane.{orient as orient_spec, orient_at as orient_at_spec};
ghost use Rattle.lpis_points.specs.RatPoints.{rational_of};
ghost use Rattle.lpis_points.specs.private.Margins.{coordinate_margin, denominator_margin};
ghost use Rattle.lpis_points.specs.private.Margins.{step_margin, height_margin, offset_margin};
ghost use Rattle.lpis_points.specs.private.Margins.{product_margin};

use crate::point::Point;
use crate::rational::RatPoint;

/// How far it is from one coordinate to another.
fn step(from: i64, to: i64) -> i64
    requires from_in { unsigned_abs from ≤ coordinate_margin }
    requires to_in { unsigned_abs to ≤ coordinate_margin }
    ensures value { result ≡ to -ℤ from }
    ensures small { unsigned_abs result ≤ step_margin }
{
    to - from
}

/// A coordinate in parts of `d`.
fn height(y: i64, d: i64) -> i64
    requires y_in { unsigned_abs y ≤ coordinate_margin }
    requires d_in { unsigned_abs d ≤ denominator_margin }
    ensures value { result ≡ y *ℤ d }
    ensures small { unsigned_abs result ≤ height_margin }
{
    y * d
}

/// How far it is from a coordinate to one in parts of `d`.
fn offset(from: i64, to: i64, d: i64) -> i64
    requires from_in { unsigned_abs from ≤ coordinate_margin }
    requires to_in { unsigned_abs to ≤ height_margin }
    requires d_in { unsigned_abs d ≤ denominator_margin }
    ensures value { result ≡ to -ℤ from *ℤ d }
    ensures small { unsigned_abs result ≤ offset_margin }
{
    let start = height(from, d);
    to - start
}

/// Two numbers of 64 bits have a product of 128.
fn product(x: i64, y: i64) -> i128
    requires x_in { unsigned_abs x ≤ step_margin }
    requires y_in { unsigned_abs y ≤ offset_margin }
    ensures value { result ≡ x *ℤ y }
    ensures small { unsigned_abs result ≤ product_margin }
{
    x as i128 * y as i128
}

/// The first times the second, less the third times the fourth.
fn turn(x: i64, y: i64, z: i64, w: i64) -> i128
    requires x_in { unsigned_abs x ≤ step_margin }
    requires y_in { unsigned_abs y ≤ offset_margin }
    requires z_in { unsigned_abs z ≤ step_margin }
    requires w_in { unsigned_abs w ≤ offset_margin }
    ensures { result ≡ x *ℤ y -ℤ z *ℤ w }
{
    product(x, y) - product(z, w)
}

/// How an edge from one height to another passes a point, which lies on that side of it.
fn passing(from: i64, to: i64, y: i64, side: i128) -> i8
    ensures { result ≡ crossing_of from to y side }
{
    if from <= y && y < to && 0 < side {
        1
    } else if to <= y && y < from && side < 0 {
        -1
    } else {
        0
    }
}

/// Above 0 where `c` is left of the directed line from `a` to `b`, 0 on it, below 0 right of it. It
/// is twice the signed area of the triangle, in square millimetres.
#[tactic(auto, unfolding(crate::specs::Plane::orient))]
pub fn orient(a: Point, b: Point, c: Point) -> i128
    ensures { result ≡ orient_spec a b c }
{
    turn(
        step(a.x, b.x),
        step(a.y, c.y),
        step(a.y, b.y),
        step(a.x, c.x),
    )
}

/// Above 0 where `p` is left of the directed line from `a` to `b`, 0 on it, below 0 right of it:
/// `orient`, times the point's `d`.
pub fn orient_at(a: Point, b: Point, p: &RatPoint) -> i128
    ensures { result ≡ orient_at_spec a b (rational_of p.now) }
{
    turn(
        step(a.x, b.x),
        offset(a.y, p.y, p.d),
        step(a.y, b.y),
        offset(a.x, p.x, p.d),
    )
}

/// How the directed edge from `a` to `b` is crossed by `p`: 1 where it goes up past the point's
/// height with the point on its left,
/// -1 where it goes down past it with the point on its right, and else 0. An edge has its lower end
///   and not its upper one.
pub fn crossing(a: Point, b: Point, p: &RatPoint) -> i8
    ensures { result ≡ crossing_spec a b (rational_of p.now) }
{
    let side = orient_at(a, b, p);
    passing(height(a.y, p.d), height(b.y, p.d), p.y, side)
}
