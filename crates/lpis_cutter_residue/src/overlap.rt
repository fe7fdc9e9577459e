//! The overlap of two triangles, and a point of it that whole numbers name.

use crate::fractions::{Fraction, quotient};
use crate::frames::{Mark, Region, Shape};
use crate::vectors::{step, turns_of};
use lpis_points::{Point, RatPoint, Triangle, orient};
use std::alloc::{AllocError, Global};

/// Whether a point is in a triangle or on its border.
fn is_within(triangle: &Triangle, p: Point) -> bool {
    orient(triangle.a, triangle.b, p) >= 0
        && orient(triangle.b, triangle.c, p) >= 0
        && orient(triangle.c, triangle.a, p) >= 0
}

/// The mark of a corner of a triangle, if it lies within another.
fn corner_mark(origin: Point, p: Point, other: &Triangle) -> Option<Mark> {
    if !is_within(other, p) {
        return None;
    }
    let from = step(origin, p);
    Some(Mark {
        from,
        to: from,
        part: Fraction { n: 0, d: 1 },
    })
}

/// The mark where the first edges of two triangles cross, if they do.
fn crossing_mark(origin: Point, own: &Triangle, other: &Triangle) -> Option<Mark> {
    let start = orient(other.a, other.b, own.a);
    let end = orient(other.a, other.b, own.b);
    let below = orient(own.a, own.b, other.a);
    let above = orient(own.a, own.b, other.b);
    let do_cross = (start < 0) != (end < 0) && (below < 0) != (above < 0);
    if !do_cross || start == 0 || end == 0 || below == 0 || above == 0 {
        return None;
    }
    Some(Mark {
        from: step(origin, own.a),
        to: step(origin, own.b),
        part: quotient(start, start.wrapping_sub(end)),
    })
}

/// The corners of an overlap.
fn marks_of(alloc: Global, s: &Triangle, t: &Triangle) -> Result<Vec<Mark>, AllocError> {
    let mut marks = Vec::new(alloc);
    for own in turns_of(s) {
        if let Some(mark) = corner_mark(s.a, own.a, t) {
            marks.push(mark)?;
        }
        for other in turns_of(t) {
            if let Some(mark) = crossing_mark(s.a, &own, &other) {
                marks.push(mark)?;
            }
        }
    }
    for own in turns_of(t) {
        if let Some(mark) = corner_mark(s.a, own.a, s) {
            marks.push(mark)?;
        }
    }
    Ok(marks)
}

/// A point strictly inside two triangles, where one with a denominator in range is found.
pub(crate) fn common_point(
    alloc: Global,
    s: &Triangle,
    t: &Triangle,
) -> Result<Option<RatPoint>, AllocError> {
    let overlap = Region {
        origin: s.a,
        shape: Shape::Overlap(s, t),
        marks: marks_of(alloc, s, t)?,
    };
    for side in turns_of(s) {
        let found = overlap.point_along(alloc, step(side.a, side.b))?;
        if found.is_some() {
            return Ok(found);
        }
    }
    Ok(None)
}
