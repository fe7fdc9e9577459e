//! Points that two triangles share, as far as whole numbers can name them.

use crate::overlap::common_point;
use crate::vectors::{
    CENTIMETRE, Vector, along, cross, floor_div, product, rational, step, turns_of,
};
use lpis_points::{Point, RatPoint, Triangle, orient, orient_at};
use std::alloc::{AllocError, Global};

/// Parts of an edge, of which means are taken.
const PARTS: i64 = 1_099_511_627_776;

/// The first and the last of so many parts of the step u from a that lie in a triangle, borders
/// counted.
fn clip(a: Point, u: Vector, parts: i64, triangle: &Triangle) -> Option<(i64, i64)> {
    let mut from: i128 = 0;
    let mut to = parts as i128;
    for side in turns_of(triangle) {
        let height = orient(side.a, side.b, a);
        let rise = cross(step(side.a, side.b), u);
        let scaled = height.wrapping_mul(parts as i128);
        if rise > 0 {
            from = from.max(floor_div(scaled, rise).wrapping_neg());
        } else if rise < 0 {
            to = to.min(floor_div(scaled, rise.wrapping_neg()));
        } else if height < 0 {
            return None;
        }
    }
    if from > to {
        return None;
    }
    Some((i64::try_from(from).ok()?, i64::try_from(to).ok()?))
}

/// A grid: d-ths of a unit of so many millimetres.
#[derive(Clone, Copy)]
struct Grid {
    unit: i64,
    d: i64,
}

/// The sum of points of a grid, from an origin.
#[derive(Clone, Copy)]
struct Sum {
    x: i128,
    y: i128,
    count: i128,
}

/// How many steps of a grid are in so many units and parts.
fn steps_in(grid: Grid, whole: i64, step: i64, n: i64) -> i128 {
    let units = product(whole, PARTS, grid.d);
    let parts = product(step, n, grid.d);
    floor_div(units.wrapping_add(parts), product(PARTS, grid.unit, 1))
}

/// Adds the ends of the part of each edge of a triangle that lies in another, each rounded down to
/// the grid.
fn add_parts(sum: Sum, origin: Point, own: &Triangle, other: &Triangle, grid: Grid) -> Sum {
    let mut sum = sum;
    for side in turns_of(own) {
        let u = step(side.a, side.b);
        let f = step(origin, side.a);
        if let Some((from, to)) = clip(side.a, u, PARTS, other) {
            for n in [from, to] {
                sum.x = sum.x.wrapping_add(steps_in(grid, f.x, u.x, n));
                sum.y = sum.y.wrapping_add(steps_in(grid, f.y, u.y, n));
                sum.count = sum.count.wrapping_add(1);
            }
        }
    }
    sum
}

/// The mean of the ends of all parts of edges that lie in the other triangle, rounded to a grid
/// through the first corner.
fn mean(s: &Triangle, t: &Triangle, grid: Grid) -> Option<RatPoint> {
    let none = Sum {
        x: 0,
        y: 0,
        count: 0,
    };
    let half = add_parts(none, s.a, s, t, grid);
    let sum = add_parts(half, s.a, t, s, grid);
    if sum.count == 0 {
        return None;
    }
    let rounding = floor_div(sum.count, 2);
    let x = floor_div(sum.x.wrapping_add(rounding), sum.count);
    let y = floor_div(sum.y.wrapping_add(rounding), sum.count);
    let unit = grid.unit as i128;
    rational(
        product(s.a.x, grid.d, 1).wrapping_add(x.wrapping_mul(unit)),
        product(s.a.y, grid.d, 1).wrapping_add(y.wrapping_mul(unit)),
        grid.d,
    )
}

/// From the middle of the part of an edge that lies in the other triangle, how many d-ths of the
/// third side lead no further than the other triangle does.
fn room(base: &RatPoint, z: Vector, most: i64, other: &Triangle) -> i128 {
    let mut top = most as i128;
    for side in turns_of(other) {
        let rise = cross(step(side.a, side.b), z);
        if rise < 0 {
            let height = orient_at(side.a, side.b, base).max(0);
            top = top.min(floor_div(height, rise.wrapping_neg()));
        }
    }
    top
}

/// Points a way into its triangle from the middle of the part of its first edge that lies in the
/// other: half as far as the other allows, and one step.
fn push_inner(
    points: &mut Vec<RatPoint>,
    own: &Triangle,
    other: &Triangle,
    d: i64,
) -> Result<(), AllocError> {
    let u = step(own.a, own.b);
    let z = step(own.a, own.c);
    let Some((from, to)) = clip(own.a, u, d, other) else {
        return Ok(());
    };
    let half = floor_div((to as i128).wrapping_sub(from as i128), 2);
    let n = i64::try_from((from as i128).wrapping_add(half)).unwrap_or(0);
    let Some(base) = along(own.a, u, n, d) else {
        return Ok(());
    };
    let top = room(&base, z, d.wrapping_sub(n), other);
    for m in [i64::try_from(floor_div(top, 2)).unwrap_or(0), 1] {
        let x = (base.x as i128).wrapping_add(product(z.x, m, 1));
        let y = (base.y as i128).wrapping_add(product(z.y, m, 1));
        if m > 0
            && let Some(p) = rational(x, y, d)
        {
            points.push(p)?;
        }
    }
    Ok(())
}

/// Points that may lie in both of two triangles that overlap: of any overlap with a little width
/// the first does, and of a thin one the last, where its denominator is in range.
pub fn points_in_both(
    alloc: Global,
    s: &Triangle,
    t: &Triangle,
) -> Result<Vec<RatPoint>, AllocError> {
    let mut points = Vec::new(alloc);
    for (unit, d) in [(CENTIMETRE, 1), (1, 1), (1, 100), (1, 100_000)] {
        if let Some(p) = mean(s, t, Grid { unit, d }) {
            points.push(p)?;
        }
    }
    for d in [1_000_000, 999_983] {
        for side in turns_of(s) {
            push_inner(&mut points, &side, t, d)?;
        }
        for side in turns_of(t) {
            push_inner(&mut points, &side, s, d)?;
        }
    }
    let (unit, d) = (1, 1_000_000);
    if let Some(p) = mean(s, t, Grid { unit, d }) {
        points.push(p)?;
    }
    if let Some(p) = common_point(alloc, s, t)? {
        points.push(p)?;
    }
    Ok(points)
}
