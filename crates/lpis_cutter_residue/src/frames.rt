//! Regions of the plane, seen in frames in which they are thin, and points that whole numbers name.

use crate::fractions::{Fraction, compare, greater, lesser, quotient, simplest_between};
use crate::trapezoid::Trapezoid;
use crate::vectors::{Vector, floor_div, rational, step, turns_of};
use lpis_points::{Point, RatPoint, Triangle};
use std::alloc::{AllocError, Global};
use std::cmp::Ordering;

/// The greatest denominator of a point.
pub(crate) const MOST_DENOMINATOR: i128 = 1_000_000;

/// How many lines across a region are looked at in one frame.
const MOST_LINES: usize = 31;

/// The most steps by which the frames along an edge are made.
const MOST_FRAMES: usize = 64;

/// Two whole numbers for each whole point, `f` and `g` of it, from which the point follows: their
/// determinant is 1. A fraction of both has the same denominator as one of both coordinates.
#[derive(Clone, Copy)]
pub(crate) struct Frame {
    pub(crate) f: Vector,
    pub(crate) g: Vector,
}

/// The value of a row of a frame.
pub(crate) fn value(row: Vector, v: Vector) -> i128 {
    let x = (row.x as i128).wrapping_mul(v.x as i128);
    let y = (row.y as i128).wrapping_mul(v.y as i128);
    x.wrapping_add(y)
}

/// A corner of a region: part n/d of the way from a point to a point, as steps from the origin.
#[derive(Clone, Copy)]
pub(crate) struct Mark {
    pub(crate) from: Vector,
    pub(crate) to: Vector,
    pub(crate) part: Fraction,
}

/// The value of a row of a frame at a mark.
fn value_at(row: Vector, mark: &Mark) -> Option<Fraction> {
    let from = value(row, mark.from);
    let way = value(row, mark.to).wrapping_sub(from);
    let whole = from.checked_mul(mark.part.d)?;
    let n = whole.checked_add(way.checked_mul(mark.part.n)?)?;
    Some(Fraction { n, d: mark.part.d })
}

/// Two fractions, the lesser first, between which something lies.
#[derive(Clone, Copy)]
pub(crate) struct Span {
    pub(crate) low: Fraction,
    pub(crate) high: Fraction,
}

/// A span that reaches to another fraction too.
fn with_end(span: Option<Span>, end: Fraction) -> Span {
    match span {
        Some(Span { low, high }) => Span {
            low: lesser(low, end),
            high: greater(high, end),
        },
        None => Span {
            low: end,
            high: end,
        },
    }
}

/// The span of `f` over a region.
fn span_of(marks: &[Mark], row: Vector) -> Option<Span> {
    let mut span = None;
    for mark in marks {
        span = Some(with_end(span, value_at(row, mark)?));
    }
    span
}

/// Where the line at which `f` is p/q meets the line through two points: q times `g` there, if it
/// does.
pub(crate) fn meeting(frame: &Frame, line: Fraction, from: Vector, to: Vector) -> Option<Fraction> {
    let (f, g) = (value(frame.f, from), value(frame.g, from));
    let f_step = value(frame.f, to).wrapping_sub(f);
    let g_step = value(frame.g, to).wrapping_sub(g);
    if f_step == 0 {
        return None;
    }
    let before = line.d.checked_mul(f)?.checked_sub(line.n)?;
    let whole = line.d.checked_mul(g)?.checked_mul(f_step)?;
    let n = whole.checked_sub(before.checked_mul(g_step)?)?;
    Some(quotient(n, f_step))
}

/// Where that line passes an edge, if it does.
fn passing(frame: &Frame, line: Fraction, from: Vector, to: Vector) -> Option<Fraction> {
    let before = line
        .d
        .checked_mul(value(frame.f, from))?
        .checked_sub(line.n)?;
    let after = line.d.checked_mul(value(frame.f, to))?.checked_sub(line.n)?;
    if before < 0 && after < 0 || before > 0 && after > 0 {
        return None;
    }
    meeting(frame, line, from, to)
}

/// The span of q times `g` in a triangle, along the line at which `f` is p/q.
fn slice(frame: &Frame, line: Fraction, origin: Point, triangle: &Triangle) -> Option<Span> {
    let mut span = None;
    for side in turns_of(triangle) {
        let from = step(origin, side.a);
        let to = step(origin, side.b);
        if let Some(end) = passing(frame, line, from, to) {
            span = Some(with_end(span, end));
        }
    }
    span
}

/// The point of a frame with these parts of its denominator.
fn point_of(frame: &Frame, origin: Point, f: i128, g: i128, d: i128) -> Option<RatPoint> {
    let x = f
        .checked_mul(frame.g.y as i128)?
        .checked_sub(g.checked_mul(frame.f.y as i128)?)?;
    let y = g
        .checked_mul(frame.f.x as i128)?
        .checked_sub(f.checked_mul(frame.g.x as i128)?)?;
    let east = d.checked_mul(origin.x as i128)?;
    let north = d.checked_mul(origin.y as i128)?;
    rational(
        x.checked_add(east)?,
        y.checked_add(north)?,
        i64::try_from(d).ok()?,
    )
}

/// What bounds a region.
#[derive(Clone, Copy)]
pub(crate) enum Shape<'a> {
    /// Two triangles that overlap.
    Overlap(&'a Triangle, &'a Triangle),
    Trapezoid(Trapezoid),
}

/// A convex region, with its corners as steps from an origin.
#[derive(Drop)]
pub(crate) struct Region<'a> {
    pub(crate) origin: Point,
    pub(crate) shape: Shape<'a>,
    pub(crate) marks: Vec<Mark>,
}

impl Region<'_> {
    /// The span of q times `g` in the region, along the line at which `f` is p/q.
    fn part_of(&self, frame: &Frame, line: Fraction) -> Option<Span> {
        match self.shape {
            Shape::Overlap(first, second) => {
                let first = slice(frame, line, self.origin, first)?;
                let second = slice(frame, line, self.origin, second)?;
                Some(Span {
                    low: greater(first.low, second.low),
                    high: lesser(first.high, second.high),
                })
            }
            Shape::Trapezoid(trapezoid) => trapezoid.part_of(frame, line, self.origin),
        }
    }

    /// The point of least denominator on the line at which `f` is this fraction.
    fn point_on(&self, frame: &Frame, line: Fraction) -> Option<RatPoint> {
        let Span { low, high } = self.part_of(frame, line)?;
        if compare(low, high) != Ordering::Less {
            return None;
        }
        let most = floor_div(MOST_DENOMINATOR, line.d);
        let along = simplest_between(low, high, most)?;
        let f = line.n.checked_mul(along.d)?;
        let d = line.d.checked_mul(along.d)?;
        point_of(frame, self.origin, f, along.n, d)
    }

    /// A point on one of the lines of least denominators across the region.
    fn point_in(&self, alloc: Global, frame: &Frame) -> Result<Option<RatPoint>, AllocError> {
        let mut spans = Vec::new(alloc);
        if let Some(span) = span_of(&self.marks, frame.f) {
            spans.push(span)?;
        }
        for index in 0..MOST_LINES {
            let Some(Span { low, high }) = spans.get(index).copied() else {
                break;
            };
            if compare(low, high) == Ordering::Less
                && let Some(line) = simplest_between(low, high, MOST_DENOMINATOR)
            {
                let found = self.point_on(frame, line);
                if found.is_some() {
                    return Ok(found);
                }
                spans.push(Span { low, high: line })?;
                spans.push(Span { low: line, high })?;
            }
        }
        Ok(None)
    }

    /// A point in one of the frames in which an edge of this direction is ever shorter, as thin
    /// regions along it are.
    pub(crate) fn point_along(
        &self,
        alloc: Global,
        edge: Vector,
    ) -> Result<Option<RatPoint>, AllocError> {
        let mut frame = Frame {
            f: Vector { x: 1, y: 0 },
            g: Vector { x: 0, y: 1 },
        };
        for _ in 0..MOST_FRAMES {
            let found = self.point_in(alloc, &frame)?;
            if found.is_some() {
                return Ok(found);
            }
            let along = value(frame.g, edge);
            if along == 0 {
                break;
            }
            let times = floor_div(value(frame.f, edge), along);
            let times = i64::try_from(times).unwrap_or(0);
            let f = Vector {
                x: frame.f.x.wrapping_sub(times.wrapping_mul(frame.g.x)),
                y: frame.f.y.wrapping_sub(times.wrapping_mul(frame.g.y)),
            };
            frame = Frame {
                f: frame.g,
                g: Vector {
                    x: f.x.wrapping_neg(),
                    y: f.y.wrapping_neg(),
                },
            };
        }
        Ok(None)
    }
}
