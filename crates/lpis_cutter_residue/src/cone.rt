//! The simplest step between two directions.

use crate::fractions::{Fraction, simplest_between};
use crate::vectors::{Vector, cross};

/// The greatest coordinate of a step.
const MOST: i128 = 1_000_000_000_000;

/// A quarter turn to the left.
fn turned_left(v: Vector) -> Vector {
    Vector {
        x: v.y.wrapping_neg(),
        y: v.x,
    }
}

/// A quarter turn to the right.
fn turned_right(v: Vector) -> Vector {
    Vector {
        x: v.y,
        y: v.x.wrapping_neg(),
    }
}

/// The step along an axis that lies between two directions.
fn axis_between(u: Vector, w: Vector) -> Option<Vector> {
    let mut axis = Vector { x: 1, y: 0 };
    for _ in 0..4 {
        if cross(u, axis) > 0 && cross(axis, w) > 0 {
            return Some(axis);
        }
        axis = turned_left(axis);
    }
    None
}

/// The step of least coordinates between two directions of the first quarter.
fn least_between(u: Vector, w: Vector) -> Option<Vector> {
    let low = Fraction {
        n: u.y as i128,
        d: u.x as i128,
    };
    let high = Fraction {
        n: w.y as i128,
        d: w.x as i128,
    };
    let slope = simplest_between(low, high, MOST)?;
    Some(Vector {
        x: i64::try_from(slope.d).ok()?,
        y: i64::try_from(slope.n).ok()?,
    })
}

/// The simplest step strictly left of a direction and right of another, which is left of the first.
pub(crate) fn step_between(u: Vector, w: Vector) -> Option<Vector> {
    let axis = axis_between(u, w);
    if axis.is_some() {
        return axis;
    }
    // Now both are of one quarter.
    let (mut first, mut second) = (u, w);
    for turns in 0..4 {
        if first.x > 0 && first.y >= 0 && second.x >= 0 && second.y > 0 {
            let mut step = least_between(first, second)?;
            for _ in 0..turns {
                step = turned_left(step);
            }
            return Some(step);
        }
        (first, second) = (turned_right(first), turned_right(second));
    }
    None
}
