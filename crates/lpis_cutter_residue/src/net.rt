//! What is left of edges less others, and the flats that make it up.

use crate::rooms::{Corners, middles};
use lpis_cutter_mesh::Mesher;
use lpis_points::{Point, RatPoint, Triangle, orient};
use std::alloc::{AllocError, Global};
use std::cmp::Ordering;

/// All edges between two points together: so many from the lesser to the greater, less those back.
#[derive(Clone, Copy, Debug, PartialEq, Eq, PartialOrd, Ord)]
pub(crate) struct NetEdge {
    pub(crate) low: Point,
    pub(crate) high: Point,
    pub(crate) count: i64,
}

/// An end of an edge, and how many edges end there, less those that begin.
#[derive(Clone, Copy, Debug, PartialEq, Eq, PartialOrd, Ord)]
struct End {
    point: Point,
    count: i64,
}

/// Edges less others, as those of a parcel less those of its pieces. One value serves many parcels,
/// which share its memory.
#[derive(Drop)]
pub struct Net {
    alloc: Global,
    /// The edges that were added: equal ones are mostly summed at once.
    edges: Vec<NetEdge>,
    /// How many were added.
    added: usize,
    /// In the place of each edge, the index of the last one with that place.
    places: [u32; PLACES],
    /// Those that are left, in the order of their lines.
    net: Vec<NetEdge>,
    ends: Vec<End>,
    /// The stretches of these lines along which the edges have a count, between the ends of
    /// edges: no two of them share more than an end.
    rest: Vec<NetEdge>,
    /// The flats that make up the others.
    flats: Vec<Triangle>,
}

/// How many places edges have.
const PLACES: usize = 1024;

/// The place of an edge: equal edges have the same one.
fn place_of(low: Point, high: Point) -> usize {
    let mut mixed = low.x.wrapping_mul(31).wrapping_add(low.y);
    mixed = mixed.wrapping_mul(31).wrapping_add(high.x);
    mixed = mixed.wrapping_mul(31).wrapping_add(high.y);
    mixed = mixed.wrapping_mul(0x5E37_79B9_7F4A_7C15);
    usize::try_from((mixed >> 48) & 1023).unwrap_or(0)
}

/// The direction of two edges, and then on which side of the first line the second lies.
fn compare_lines(e: &NetEdge, f: &NetEdge) -> Ordering {
    let ex = e.high.x.wrapping_sub(e.low.x) as i128;
    let ey = e.high.y.wrapping_sub(e.low.y) as i128;
    let fx = f.high.x.wrapping_sub(f.low.x) as i128;
    let fy = f.high.y.wrapping_sub(f.low.y) as i128;
    let cross = ex.wrapping_mul(fy).wrapping_sub(ey.wrapping_mul(fx));
    let turned = 0.cmp(&cross);
    match turned {
        Ordering::Equal => 0.cmp(&orient(e.low, e.high, f.low)),
        _ => turned,
    }
}

impl Net {
    /// No edges.
    pub fn new(alloc: Global) -> Net {
        Net {
            alloc,
            edges: Vec::new(alloc),
            added: 0,
            places: [0; PLACES],
            net: Vec::new(alloc),
            ends: Vec::new(alloc),
            rest: Vec::new(alloc),
            flats: Vec::new(alloc),
        }
    }

    /// Takes all edges away.
    pub fn clear(&mut self) {
        self.edges.clear();
        self.added = 0;
    }

    /// Adds an edge so many times; where the count is below 0, it is taken off.
    pub fn add(&mut self, a: Point, b: Point, count: i64) -> Result<(), AllocError> {
        match a.cmp(&b) {
            Ordering::Less => self.count_edge(a, b, count),
            Ordering::Greater => self.count_edge(b, a, count.wrapping_neg()),
            Ordering::Equal => Ok(()),
        }
    }

    /// Counts an edge at the one that is in its place, if that is equal, else apart from it.
    fn count_edge(&mut self, low: Point, high: Point, count: i64) -> Result<(), AllocError> {
        self.added = self.added.saturating_add(1);
        let place = place_of(low, high);
        if let Some(index) = self.places.get(place)
            && let Some(edge) = self.edges.get_mut(*index as usize)
            && edge.low == low
            && edge.high == high
        {
            edge.count = edge.count.wrapping_add(count);
            return Ok(());
        }
        if let Some(slot) = self.places.get_mut(place) {
            *slot = u32::try_from(self.edges.len()).unwrap_or(u32::MAX);
        }
        self.edges.push(NetEdge { low, high, count })?;
        Ok(())
    }

    /// Sums the edges that were added, and finds flats that make up what is left.
    pub fn settle(&mut self) -> Result<(), AllocError> {
        self.net.clear();
        self.rest.clear();
        self.flats.clear();
        self.edges.retain(|edge| edge.count != 0);
        self.edges.sort_unstable();
        self.sum_edges()?;
        if !self.net.is_empty() {
            self.net
                .sort_unstable_by(|e, f| compare_lines(e, f).then(e.cmp(f)));
            self.take_lines()?;
        }
        Ok(())
    }

    /// How many edges were added.
    pub fn size(&self) -> usize {
        self.added
    }

    /// Whether flats make up all that is left.
    pub fn is_flat(&self) -> bool {
        self.rest.is_empty()
    }

    /// The flats that make up what is left, as far as flats do.
    pub fn flats(&self) -> Result<Vec<Triangle>, AllocError> {
        let mut flats = Vec::with_capacity(self.alloc, self.flats.len())?;
        for flat in &self.flats {
            flats.push(*flat)?;
        }
        Ok(flats)
    }

    /// The middles of the largest triangles of the rooms between edges that no flats make up, as
    /// far as these do not cross: exact points of the rooms.
    pub fn middles(&self, mesher: &mut Mesher) -> Result<Vec<RatPoint>, AllocError> {
        middles(self.alloc, mesher, &self.rest)
    }

    /// The corners of these rooms.
    pub fn corners(&self) -> Result<Corners<'_>, AllocError> {
        Corners::new(self.alloc, &self.rest)
    }

    fn sum_edges(&mut self) -> Result<(), AllocError> {
        let mut sum: i64 = 0;
        for index in 0..self.edges.len() {
            let Some(edge) = self.edges.get(index).copied() else {
                break;
            };
            sum = sum.wrapping_add(edge.count);
            let is_last = match self.edges.get(index.saturating_add(1)) {
                Some(next) => next.low != edge.low || next.high != edge.high,
                None => true,
            };
            if is_last {
                if sum != 0 {
                    self.net.push(NetEdge { count: sum, ..edge })?;
                }
                sum = 0;
            }
        }
        Ok(())
    }

    /// Goes over the edges line by line.
    fn take_lines(&mut self) -> Result<(), AllocError> {
        let mut start = 0;
        for index in 0..self.net.len() {
            let next = index.saturating_add(1);
            let is_last = match (self.net.get(index), self.net.get(next)) {
                (Some(e), Some(f)) => compare_lines(e, f) != Ordering::Equal,
                _ => true,
            };
            if is_last {
                self.take_line(start, next)?;
                start = next;
            }
        }
        Ok(())
    }

    /// Flats make up a line exactly where at each point as many edges end as begin.
    fn take_line(&mut self, from: usize, to: usize) -> Result<(), AllocError> {
        if self.is_even(from, to)? {
            return self.add_flats(from, to);
        }
        self.add_stretches()
    }

    /// The stretches between the ends of a line's edges, which are in order.
    fn add_stretches(&mut self) -> Result<(), AllocError> {
        let mut count: i64 = 0;
        let mut low: Option<Point> = None;
        for index in 0..self.ends.len() {
            let Some(end) = self.ends.get(index).copied() else {
                break;
            };
            if let Some(from) = low
                && count != 0
                && from != end.point
            {
                let high = end.point;
                self.rest.push(NetEdge {
                    low: from,
                    high,
                    count,
                })?;
            }
            low = Some(end.point);
            count = count.wrapping_sub(end.count);
        }
        Ok(())
    }

    fn is_even(&mut self, from: usize, to: usize) -> Result<bool, AllocError> {
        self.ends.clear();
        for index in from..to {
            if let Some(edge) = self.net.get(index).copied() {
                let count = edge.count;
                self.ends.push(End {
                    point: edge.low,
                    count: count.wrapping_neg(),
                })?;
                self.ends.push(End {
                    point: edge.high,
                    count,
                })?;
            }
        }
        self.ends.sort_unstable();
        let mut sum: i64 = 0;
        let mut last = None;
        for end in &self.ends {
            if last != Some(end.point) {
                if sum != 0 {
                    return Ok(false);
                }
                last = Some(end.point);
            }
            sum = sum.wrapping_add(end.count);
        }
        Ok(sum == 0)
    }

    /// The flats of one line: those of each stretch of edges that overlap go to its first point.
    fn add_flats(&mut self, from: usize, to: usize) -> Result<(), AllocError> {
        let mut stretch: Option<(Point, Point)> = None;
        for index in from..to {
            let Some(edge) = self.net.get(index).copied() else {
                break;
            };
            let (anchor, reach) = match stretch {
                Some((anchor, reach)) if edge.low < reach => (anchor, reach.max(edge.high)),
                _ => (edge.low, edge.high),
            };
            stretch = Some((anchor, reach));
            if edge.low != anchor {
                self.add_flat(anchor, &edge)?;
            }
        }
        Ok(())
    }

    fn add_flat(&mut self, anchor: Point, edge: &NetEdge) -> Result<(), AllocError> {
        let (a, b) = if edge.count > 0 {
            (edge.low, edge.high)
        } else {
            (edge.high, edge.low)
        };
        for _ in 0..edge.count.unsigned_abs() {
            self.flats.push(Triangle { a, b, c: anchor })?;
        }
        Ok(())
    }
}
