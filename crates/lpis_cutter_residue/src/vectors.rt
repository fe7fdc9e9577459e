//! Steps from point to point, and points between points.

use lpis_points::{Point, RatPoint, Triangle};

/// Millimetres.
pub(crate) const CENTIMETRE: i64 = 10;

/// A step in the plane.
#[derive(Clone, Copy, Debug)]
pub(crate) struct Vector {
    pub(crate) x: i64,
    pub(crate) y: i64,
}

/// The step from a point to a point.
pub(crate) fn step(from: Point, to: Point) -> Vector {
    Vector {
        x: to.x.wrapping_sub(from.x),
        y: to.y.wrapping_sub(from.y),
    }
}

/// Above 0 where the second step turns left of the first.
pub(crate) fn cross(u: Vector, w: Vector) -> i128 {
    let along = (u.x as i128).wrapping_mul(w.y as i128);
    let across = (u.y as i128).wrapping_mul(w.x as i128);
    along.wrapping_sub(across)
}

/// The greatest whole number not above a quotient; 0 where the divisor is 0.
pub(crate) fn floor_div(a: i128, b: i128) -> i128 {
    let quotient = a.checked_div(b).unwrap_or(0);
    let rest = a.checked_rem(b).unwrap_or(0);
    if rest != 0 && (rest < 0) != (b < 0) {
        quotient.wrapping_sub(1)
    } else {
        quotient
    }
}

/// The product of three numbers.
pub(crate) fn product(a: i64, b: i64, c: i64) -> i128 {
    (a as i128).wrapping_mul(b as i128).wrapping_mul(c as i128)
}

/// The point (x/d, y/d), where it is one.
pub(crate) fn rational(x: i128, y: i128, d: i64) -> Option<RatPoint> {
    RatPoint::new(i64::try_from(x).ok()?, i64::try_from(y).ok()?, d)
}

/// The point with `n` d-ths of a step from a point.
pub(crate) fn along(a: Point, u: Vector, n: i64, d: i64) -> Option<RatPoint> {
    let x = product(a.x, d, 1).wrapping_add(product(u.x, n, 1));
    let y = product(a.y, d, 1).wrapping_add(product(u.y, n, 1));
    rational(x, y, d)
}

/// A triangle that begins with its next corner.
pub(crate) fn turned(triangle: &Triangle) -> Triangle {
    Triangle {
        a: triangle.b,
        b: triangle.c,
        c: triangle.a,
    }
}

/// A triangle that begins with each of its corners.
pub(crate) fn turns_of(triangle: &Triangle) -> [Triangle; 3] {
    let second = turned(triangle);
    [*triangle, second, turned(&second)]
}
