//! Triangles that know what lies across their sides.

use crate::halt::{Halt, number_of};
use std::alloc::Global;

/// A side of a triangle, from its corner `k` to the next: four times the triangle's number, and
/// `k`, which is 0, 1 or 2.
#[derive(Clone, Copy, Debug, PartialEq, Eq)]
pub(crate) struct Side {
    pub(crate) number: u32,
}

/// What is across a side on the border.
pub(crate) const BORDER: Side = Side { number: u32::MAX };

impl Side {
    /// A side of a triangle.
    pub(crate) fn of(triangle: u32, k: u32) -> Side {
        Side {
            number: triangle.wrapping_mul(4).wrapping_add(k),
        }
    }

    /// The number of its triangle.
    pub(crate) fn triangle(self) -> u32 {
        self.number >> 2
    }

    /// The next side of its triangle.
    pub(crate) fn next(self) -> Side {
        let step = if self.number & 3 == 2 {
            self.number.wrapping_sub(2)
        } else {
            self.number.wrapping_add(1)
        };
        Side { number: step }
    }

    /// The side of its triangle before it.
    pub(crate) fn before(self) -> Side {
        let step = if self.number & 3 == 0 {
            self.number.wrapping_add(2)
        } else {
            self.number.wrapping_sub(1)
        };
        Side { number: step }
    }
}

/// The corner from which a side goes, and the side of another triangle across it.
#[derive(Clone, Copy, Debug)]
pub(crate) struct Flank {
    pub(crate) corner: u32,
    pub(crate) across: Side,
}

/// The most triangles of a mesh: their sides have numbers of 32 bits.
const MOST: u32 = 1 << 30;

/// The triangles of one cut, counter-clockwise.
#[derive(Drop)]
pub(crate) struct Mesh {
    /// The three sides of each triangle, and a fourth place that none has.
    pub(crate) flanks: Vec<Flank>,
}

/// A side on the border.
fn alone(corner: u32) -> Flank {
    Flank {
        corner,
        across: BORDER,
    }
}

impl Mesh {
    pub(crate) fn new(alloc: Global) -> Mesh {
        Mesh {
            flanks: Vec::new(alloc),
        }
    }

    /// How many triangles there are.
    pub(crate) fn count(&self) -> usize {
        self.flanks.len() >> 2
    }

    /// Adds a triangle with nothing across its sides, and answers its number.
    pub(crate) fn add(&mut self, a: u32, b: u32, c: u32) -> Result<u32, Halt> {
        let number = number_of(self.count())?;
        if number >= MOST {
            return Err(Halt::NoCut);
        }
        self.flanks
            .extend_from_slice(&[alone(a), alone(b), alone(c), alone(0)])?;
        Ok(number)
    }

    /// What is known of a side.
    pub(crate) fn flank(&self, side: Side) -> Option<Flank> {
        self.flanks.get(side.number as usize).copied()
    }

    /// The corners of a triangle.
    pub(crate) fn corners(&self, number: usize) -> Option<[u32; 3]> {
        match self.flanks.get(number.checked_mul(4)?..)? {
            [a, b, c, ..] => Some([a.corner, b.corner, c.corner]),
            _ => None,
        }
    }

    fn set_across(&mut self, side: Side, other: Side) {
        if let Some(flank) = self.flanks.get_mut(side.number as usize) {
            flank.across = other;
        }
    }

    /// Glues two sides together, or leaves the first on the border.
    pub(crate) fn glue(&mut self, side: Side, other: Side) {
        self.set_across(side, other);
        if other != BORDER {
            self.set_across(other, side);
        }
    }

    /// Sets the corner from which a side goes.
    pub(crate) fn set_corner(&mut self, side: Side, corner: u32) {
        if let Some(flank) = self.flanks.get_mut(side.number as usize) {
            flank.corner = corner;
        }
    }
}
