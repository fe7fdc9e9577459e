//! Trapezoids between two edges and two heights.

use crate::fractions::{Fraction, greater, lesser, quotient};
use crate::frames::{Frame, Mark, Span, meeting, value};
use crate::vectors::step;
use lpis_points::Point;

/// An edge that is not level, from its lower end to its upper one.
#[derive(Clone, Copy, Debug, PartialEq, Eq)]
pub(crate) struct Slope {
    pub(crate) low: Point,
    pub(crate) high: Point,
}

/// What lies right of an edge, left of another, and between two heights at which both are.
#[derive(Clone, Copy, Debug)]
pub(crate) struct Trapezoid {
    pub(crate) left: Slope,
    pub(crate) right: Slope,
    pub(crate) low: Fraction,
    pub(crate) high: Fraction,
}

/// The point of an edge at a height.
fn mark_at(origin: Point, slope: Slope, height: Fraction) -> Option<Mark> {
    let foot = height.d.checked_mul(slope.low.y as i128)?;
    let rise = (slope.high.y as i128).wrapping_sub(slope.low.y as i128);
    Some(Mark {
        from: step(origin, slope.low),
        to: step(origin, slope.high),
        part: Fraction {
            n: height.n.checked_sub(foot)?,
            d: height.d.checked_mul(rise)?,
        },
    })
}

/// The least and the greatest value of a line's part, as far as they are known.
#[derive(Clone, Copy)]
struct Limits {
    low: Option<Fraction>,
    high: Option<Fraction>,
}

impl Limits {
    /// These limits, and no less than a value.
    fn from_low(self, end: Fraction) -> Limits {
        let low = match self.low {
            Some(low) => greater(low, end),
            None => end,
        };
        Limits {
            low: Some(low),
            high: self.high,
        }
    }

    /// These limits, and no more than a value.
    fn from_high(self, end: Fraction) -> Limits {
        let high = match self.high {
            Some(high) => lesser(high, end),
            None => end,
        };
        Limits {
            low: self.low,
            high: Some(high),
        }
    }

    fn with(self, end: Fraction, is_low: bool) -> Limits {
        if is_low {
            self.from_low(end)
        } else {
            self.from_high(end)
        }
    }
}

/// Limits and those that an edge sets on a line, on whose right or left the trapezoid lies.
fn with_slope(
    limits: Limits,
    frame: &Frame,
    line: Fraction,
    origin: Point,
    slope: Slope,
    is_left: bool,
) -> Option<Limits> {
    let way = value(frame.f, step(slope.low, slope.high));
    if way == 0 {
        return Some(limits);
    }
    let from = step(origin, slope.low);
    let end = meeting(frame, line, from, step(origin, slope.high))?;
    Some(limits.with(end, (way > 0) != is_left))
}

/// Limits and those that a height sets on a line, above or below which the trapezoid lies.
fn with_height(
    limits: Limits,
    frame: &Frame,
    line: Fraction,
    height: Fraction,
    is_low: bool,
) -> Option<Limits> {
    let way = frame.f.x as i128;
    if way == 0 {
        return Some(limits);
    }
    let east = line.n.checked_mul(frame.g.x as i128)?;
    let sum = line
        .d
        .checked_mul(height.n)?
        .checked_add(east.checked_mul(height.d)?)?;
    let end = quotient(sum, way.checked_mul(height.d)?);
    Some(limits.with(end, (way > 0) == is_low))
}

/// A height above that of the origin.
fn height_from(origin: Point, height: Fraction) -> Option<Fraction> {
    let foot = height.d.checked_mul(origin.y as i128)?;
    Some(Fraction {
        n: height.n.checked_sub(foot)?,
        d: height.d,
    })
}

impl Trapezoid {
    /// The corner of a number, from 0 to 3.
    pub(crate) fn corner(&self, origin: Point, number: usize) -> Option<Mark> {
        let slope = if number & 1 == 0 {
            self.left
        } else {
            self.right
        };
        let height = if number & 2 == 0 { self.low } else { self.high };
        mark_at(origin, slope, height)
    }

    /// The span of q times `g` in the trapezoid, along the line at which `f` is p/q.
    pub(crate) fn part_of(&self, frame: &Frame, line: Fraction, origin: Point) -> Option<Span> {
        let limits = Limits {
            low: None,
            high: None,
        };
        let limits = with_slope(limits, frame, line, origin, self.left, true)?;
        let limits = with_slope(limits, frame, line, origin, self.right, false)?;
        let low = height_from(origin, self.low)?;
        let limits = with_height(limits, frame, line, low, true)?;
        let high = height_from(origin, self.high)?;
        let limits = with_height(limits, frame, line, high, false)?;
        Some(Span {
            low: limits.low?,
            high: limits.high?,
        })
    }
}
