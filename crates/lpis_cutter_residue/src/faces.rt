//! Points of the faces beside residual edges, wherever these cross.
//!
//! Where a point crosses a residual edge of an odd count, it passes from where a parcel and its
//! pieces agree to where they do not, or the other way round: so beside each part of the edge
//! between two others, one of the two faces is wrong. It is told by counting the edges left of it.

use crate::fractions::{Fraction, compare, greater, lesser, quotient, simplest_between};
use crate::frames::{MOST_DENOMINATOR, Region, Shape};
use crate::net::NetEdge;
use crate::rooms::Sized;
use crate::trapezoid::{Slope, Trapezoid};
use crate::vectors::{floor_div, step};
use lpis_points::{RatPoint, orient};
use std::alloc::{AllocError, Global};
use std::cmp::Ordering;

/// The most parts of edges beside which a face is looked at.
pub(crate) const MOST_FACES: usize = 64;

/// How many edges are gone over for all faces together, or for one. For each face all are, a few
/// times, and the heights at which they meet one edge are sorted.
const MOST_LOOKS: usize = 1_000_000;

/// The denominator to which heights are rounded that have a greater one.
const FINE: i128 = 1_048_576;

/// The residual edges of odd counts, and the faces beside them.
#[derive(Drop)]
pub(crate) struct Faces {
    alloc: Global,
    /// The lower end of each first, and those that rise most.
    edges: Vec<Slope>,
    /// How many of these are not level.
    rising: usize,
    /// How many faces were looked at.
    at: usize,
}

/// A height.
fn level(y: i64) -> Fraction {
    Fraction { n: y as i128, d: 1 }
}

/// An edge, its lower end first; of a level one, either.
fn slope_of(edge: &NetEdge) -> Slope {
    if edge.low.y <= edge.high.y {
        Slope {
            low: edge.low,
            high: edge.high,
        }
    } else {
        Slope {
            low: edge.high,
            high: edge.low,
        }
    }
}

/// How far an edge goes to the north.
fn rise_of(e: Slope) -> i64 {
    e.high.y.wrapping_sub(e.low.y)
}

/// Whether one of two numbers is below 0 and one above.
fn is_parted(x: i128, y: i128) -> bool {
    x < 0 && y > 0 || x > 0 && y < 0
}

/// The height at which two edges cross within both, if they do.
fn crossing_height(e: Slope, h: Slope) -> Option<Fraction> {
    let before = orient(e.low, e.high, h.low);
    let after = orient(e.low, e.high, h.high);
    if !is_parted(before, after) {
        return None;
    }
    let start = orient(h.low, h.high, e.low);
    let end = orient(h.low, h.high, e.high);
    if !is_parted(start, end) {
        return None;
    }
    let part = quotient(start, start.wrapping_sub(end));
    let rise = rise_of(e) as i128;
    let foot = (e.low.y as i128).wrapping_mul(part.d);
    Some(Fraction {
        n: foot.wrapping_add(rise.wrapping_mul(part.n)),
        d: part.d,
    })
}

/// Where an edge is at a height, from west to east.
fn position(e: Slope, height: Fraction) -> Fraction {
    let way = step(e.low, e.high);
    let rise = (way.y as i128).wrapping_mul(height.d);
    let over = height
        .n
        .wrapping_sub((e.low.y as i128).wrapping_mul(height.d));
    Fraction {
        n: (e.low.x as i128)
            .wrapping_mul(rise)
            .wrapping_add((way.x as i128).wrapping_mul(over)),
        d: rise,
    }
}

/// Whether an edge passes a height.
fn passes(e: Slope, height: Fraction) -> bool {
    (e.low.y as i128).wrapping_mul(height.d) < height.n
        && height.n < (e.high.y as i128).wrapping_mul(height.d)
}

/// A height in finest parts, rounded down.
fn fine(height: Fraction) -> i128 {
    floor_div(height.n.wrapping_mul(FINE), height.d)
}

/// A span of heights.
#[derive(Clone, Copy)]
struct Heights {
    low: Fraction,
    high: Fraction,
}

impl Heights {
    /// The heights on one side of a height, as far as another.
    fn narrowed(self, chosen: Fraction, other: Fraction) -> Heights {
        match compare(other, chosen) {
            Ordering::Less => Heights {
                low: greater(self.low, other),
                high: self.high,
            },
            _ => Heights {
                low: self.low,
                high: lesser(self.high, other),
            },
        }
    }

    /// The simplest height between these at which no corner is.
    fn simplest(self) -> Option<Fraction> {
        let found = simplest_between(self.low, self.high, MOST_DENOMINATOR)?;
        if found.d != 1 {
            return Some(found);
        }
        let above = Fraction {
            n: found.n.wrapping_add(1),
            d: 1,
        };
        let most = MOST_DENOMINATOR;
        let upper = simplest_between(found, lesser(above, self.high), most);
        if upper.is_some() {
            return upper;
        }
        let below = Fraction {
            n: found.n.wrapping_sub(1),
            d: 1,
        };
        simplest_between(greater(below, self.low), found, most)
    }

    /// These heights, of denominators that are not too great, as far as there are any between.
    fn rounded(self) -> Heights {
        let low = if self.low.d > FINE {
            Fraction {
                n: fine(self.low).wrapping_add(1),
                d: FINE,
            }
        } else {
            self.low
        };
        let high = if self.high.d > FINE {
            Fraction {
                n: fine(self.high),
                d: FINE,
            }
        } else {
            self.high
        };
        match compare(low, high) {
            Ordering::Less => Heights { low, high },
            _ => self,
        }
    }
}

/// The edges next to a place on an edge, on its left and its right, and how many are on its left.
#[derive(Clone, Copy)]
struct Beside {
    left: Option<Slope>,
    right: Option<Slope>,
    count: usize,
}

impl Faces {
    /// The faces beside edges, of which no two share more than an end.
    pub(crate) fn new(alloc: Global, rest: &[NetEdge]) -> Result<Faces, AllocError> {
        let mut edges = Vec::new(alloc);
        let mut rising: usize = 0;
        for edge in rest {
            if edge.count & 1 != 0 {
                let slope = slope_of(edge);
                if rise_of(slope) != 0 {
                    rising = rising.saturating_add(1);
                }
                edges.push(slope)?;
            }
        }
        edges.sort_unstable_by(|e, f| rise_of(*f).cmp(&rise_of(*e)));
        Ok(Faces {
            alloc,
            edges,
            rising,
            at: 0,
        })
    }

    /// The heights between which the other edges leave parts of an edge, in order.
    fn heights_on(&self, e: Slope) -> Result<Vec<Fraction>, AllocError> {
        let mut heights = Vec::new(self.alloc);
        heights.push(level(e.low.y))?;
        heights.push(level(e.high.y))?;
        for h in &self.edges {
            for end in [h.low, h.high] {
                if orient(e.low, e.high, end) == 0 && e.low.y < end.y && end.y < e.high.y {
                    heights.push(level(end.y))?;
                }
            }
            if let Some(height) = crossing_height(e, *h) {
                heights.push(height)?;
            }
        }
        heights.sort_unstable_by(|first, second| compare(*first, *second));
        Ok(heights)
    }

    /// The part of an edge that has this rank by its height, the highest first.
    fn part_of(&self, e: Slope, rank: usize) -> Result<Option<Heights>, AllocError> {
        let heights = self.heights_on(e)?;
        let mut sized = Vec::new(self.alloc);
        for index in 1..heights.len() {
            if let Some(low) = heights.get(index.wrapping_sub(1))
                && let Some(high) = heights.get(index)
                && compare(*low, *high) == Ordering::Less
            {
                let size = fine(*low).wrapping_sub(fine(*high));
                sized.push(Sized { size, index })?;
            }
        }
        sized.sort_unstable();
        let Some(part) = sized.get(rank) else {
            return Ok(None);
        };
        let low = heights.get(part.index.wrapping_sub(1)).copied();
        let high = heights.get(part.index).copied();
        match (low, high) {
            (Some(low), Some(high)) => Ok(Some(Heights { low, high })),
            _ => Ok(None),
        }
    }

    /// What is beside an edge at a height.
    fn beside(&self, e: Slope, height: Fraction) -> Beside {
        let place = position(e, height);
        let mut beside = Beside {
            left: None,
            right: None,
            count: 0,
        };
        let (mut west, mut east) = (place, place);
        for h in &self.edges {
            if *h == e || !passes(*h, height) {
                continue;
            }
            let other = position(*h, height);
            match compare(other, place) {
                Ordering::Less => {
                    if beside.left.is_none() || compare(other, west) == Ordering::Greater {
                        beside.left = Some(*h);
                        west = other;
                    }
                    beside.count = beside.count.wrapping_add(1);
                }
                _ => {
                    if beside.right.is_none() || compare(other, east) == Ordering::Less {
                        beside.right = Some(*h);
                        east = other;
                    }
                }
            }
        }
        beside
    }

    /// The trapezoid between two edges round a height at which no other is between them.
    fn trapezoid(&self, left: Slope, right: Slope, chosen: Fraction) -> Trapezoid {
        let mut heights = Heights {
            low: level(left.low.y.max(right.low.y)),
            high: level(left.high.y.min(right.high.y)),
        };
        if let Some(height) = crossing_height(left, right) {
            heights = heights.narrowed(chosen, height);
        }
        for h in &self.edges {
            if *h == left || *h == right {
                continue;
            }
            for end in [h.low, h.high] {
                if orient(left.low, left.high, end) <= 0
                    && orient(right.low, right.high, end) >= 0
                {
                    heights = heights.narrowed(chosen, level(end.y));
                }
            }
            for side in [left, right] {
                if let Some(height) = crossing_height(side, *h) {
                    heights = heights.narrowed(chosen, height);
                }
            }
        }
        let Heights { low, high } = heights.rounded();
        Trapezoid {
            left,
            right,
            low,
            high,
        }
    }

    /// The wrong one of the two faces beside a part of an edge, as far as it is a trapezoid.
    fn wrong_face(&self, e: Slope, part: Heights) -> Option<Trapezoid> {
        let height = part.simplest()?;
        let beside = self.beside(e, height);
        if beside.count & 1 == 0 {
            Some(self.trapezoid(e, beside.right?, height))
        } else {
            Some(self.trapezoid(beside.left?, e, height))
        }
    }

    /// The edge beside which the next face lies, and the rank of its part: the highest part of each
    /// edge comes first.
    fn next_place(&self) -> Option<(Slope, usize)> {
        let turn = self.rising.min(MOST_FACES);
        let index = self.at.checked_rem(turn)?;
        let rank = self.at.checked_div(turn)?;
        Some((self.edges.get(index).copied()?, rank))
    }

    /// How many faces are looked at.
    fn most(&self) -> usize {
        let most = MOST_LOOKS.checked_div(self.edges.len()).unwrap_or(0);
        most.max(1).min(MOST_FACES)
    }

    /// Points of the next face, or none where none is found; `None` behind the last that is looked
    /// at.
    pub(crate) fn next_points(&mut self) -> Result<Option<Vec<RatPoint>>, AllocError> {
        if self.at >= self.most() {
            return Ok(None);
        }
        let Some((e, rank)) = self.next_place() else {
            return Ok(None);
        };
        self.at = self.at.saturating_add(1);
        let mut points = Vec::new(self.alloc);
        if let Some(part) = self.part_of(e, rank)?
            && let Some(trapezoid) = self.wrong_face(e, part)
            && let Some(p) = point_in(self.alloc, trapezoid)?
        {
            points.push(p)?;
        }
        Ok(Some(points))
    }
}

/// A point in a trapezoid, where one with a denominator in range is found.
fn point_in(alloc: Global, trapezoid: Trapezoid) -> Result<Option<RatPoint>, AllocError> {
    let origin = trapezoid.left.low;
    let mut marks = Vec::new(alloc);
    for number in 0..4 {
        if let Some(mark) = trapezoid.corner(origin, number) {
            marks.push(mark)?;
        }
    }
    let region = Region {
        origin,
        shape: Shape::Trapezoid(trapezoid),
        marks,
    };
    let Slope { low, high } = trapezoid.left;
    let found = region.point_along(alloc, step(low, high))?;
    if found.is_some() {
        return Ok(found);
    }
    let Slope { low, high } = trapezoid.right;
    region.point_along(alloc, step(low, high))
}
