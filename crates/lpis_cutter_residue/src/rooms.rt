//! Points of rooms that residual edges bound.

use crate::cone::step_between;
use crate::faces::{Faces, MOST_FACES};
use crate::net::NetEdge;
use crate::vectors::{CENTIMETRE, Vector, along, cross, floor_div, product, rational, step};
use lpis_cutter_mesh::Mesher;
use lpis_points::{Point, RatPoint, Triangle, orient};
use std::alloc::{AllocError, Global};
use std::cmp::Ordering;

/// The most triangles, and the most corners, at which points are looked for.
const MOST_TRIES: usize = 64;

/// Parts of a ray.
const PARTS: i64 = 1_099_511_627_776;

/// A triangle with its size, by which the largest are found.
#[derive(Clone, Copy, Debug, PartialEq, Eq, PartialOrd, Ord)]
pub(crate) struct Sized {
    /// Twice its area, below 0, so that the largest come first.
    pub(crate) size: i128,
    pub(crate) index: usize,
}

/// The triangles of the rooms between edges, up to where these cross.
fn triangles_of_rooms(mesher: &mut Mesher, rest: &[NetEdge]) -> Result<Vec<Triangle>, AllocError> {
    mesher.clear();
    for edge in rest {
        // More of one edge than a few change no room.
        for _ in 0..edge.count.unsigned_abs().min(4) {
            if edge.count > 0 {
                mesher.add(edge.low, edge.high)?;
            } else {
                mesher.add(edge.high, edge.low)?;
            }
        }
    }
    mesher.rooms()
}

/// The middle of a triangle, exact however thin it is.
fn centroid(triangle: &Triangle) -> Option<RatPoint> {
    let Triangle { a, b, c } = triangle;
    let x = (a.x as i128)
        .wrapping_add(b.x as i128)
        .wrapping_add(c.x as i128);
    let y = (a.y as i128)
        .wrapping_add(b.y as i128)
        .wrapping_add(c.y as i128);
    rational(x, y, 3)
}

/// The middles of the largest triangles of rooms, up to the first crossing of residual edges: exact
/// points of faulty rooms.
pub(crate) fn middles(
    alloc: Global,
    mesher: &mut Mesher,
    rest: &[NetEdge],
) -> Result<Vec<RatPoint>, AllocError> {
    let triangles = triangles_of_rooms(mesher, rest)?;
    let mut sized = Vec::new(alloc);
    for (index, triangle) in triangles.iter().enumerate() {
        let size = orient(triangle.a, triangle.b, triangle.c).wrapping_neg();
        sized.push(Sized { size, index })?;
    }
    sized.sort_unstable();
    let mut points = Vec::new(alloc);
    for largest in sized.iter().take(MOST_TRIES) {
        if let Some(triangle) = triangles.get(largest.index)
            && let Some(p) = centroid(triangle)
        {
            points.push(p)?;
        }
    }
    Ok(points)
}

/// An edge seen from one of its ends.
#[derive(Clone, Copy, Debug)]
struct Ray {
    from: Point,
    to: Point,
}

/// From where it goes, and then by its direction, counter-clockwise from south.
fn compare_rays(first: &Ray, second: &Ray) -> Ordering {
    let corner = first.from.cmp(&second.from);
    let half = (first.to < first.from).cmp(&(second.to < second.from));
    let turn = 0.cmp(&orient(first.from, first.to, second.to));
    corner.then(half).then(turn)
}

/// The rays of residual edges, round each corner in order.
fn rays_of(alloc: Global, rest: &[NetEdge]) -> Result<Vec<Ray>, AllocError> {
    let mut rays = Vec::new(alloc);
    for edge in rest {
        rays.push(Ray {
            from: edge.low,
            to: edge.high,
        })?;
        rays.push(Ray {
            from: edge.high,
            to: edge.low,
        })?;
    }
    rays.sort_unstable_by(|first, second| compare_rays(first, second));
    Ok(rays)
}

/// How many parts of the step m from a corner lead to the first residual edge that is met.
fn reach(rest: &[NetEdge], from: Point, m: Vector) -> i64 {
    let mut reach = PARTS as i128;
    for edge in rest {
        let e = step(edge.low, edge.high);
        let g = step(from, edge.low);
        let (turn, way, across) = (cross(m, e), cross(g, e), cross(g, m));
        let (turn, way, across) = if turn < 0 {
            (
                turn.wrapping_neg(),
                way.wrapping_neg(),
                across.wrapping_neg(),
            )
        } else {
            (turn, way, across)
        };
        if turn > 0 && 0 < way && way < turn && 0 <= across && across <= turn {
            reach = reach.min(floor_div(way.wrapping_mul(PARTS as i128), turn));
        }
    }
    i64::try_from(reach).unwrap_or(0)
}

/// The point half as many parts of the step m from a corner, rounded down to d-ths of a unit of so
/// many millimetres.
fn half_way(corner: Point, m: Vector, reach: i64, unit: i64, d: i64) -> Option<RatPoint> {
    let whole = product(PARTS, unit, 2);
    let x = floor_div(product(m.x, reach, d), whole);
    let y = floor_div(product(m.y, reach, d), whole);
    rational(
        product(corner.x, d, 1).wrapping_add(x.wrapping_mul(unit as i128)),
        product(corner.y, d, 1).wrapping_add(y.wrapping_mul(unit as i128)),
        d,
    )
}

/// Points a way from a corner between two residual edges that leave it, half as far as the first
/// edge that is met, and as little as whole numbers can name.
fn points_between(
    alloc: Global,
    rest: &[NetEdge],
    first: &Ray,
    second: &Ray,
) -> Result<Vec<RatPoint>, AllocError> {
    let (u, w) = (step(first.from, first.to), step(first.from, second.to));
    let m = Vector {
        x: u.x.wrapping_add(w.x),
        y: u.y.wrapping_add(w.y),
    };
    let corner = first.from;
    let reach = reach(rest, corner, m);
    let whole = (PARTS as i128).wrapping_mul(2);
    let mut points = Vec::new(alloc);
    for d in [1_000_000, 999_983, 1000] {
        if let Some(p) = half_way(corner, m, reach, CENTIMETRE, d) {
            points.push(p)?;
        }
        let n = floor_div(product(reach, d, 1), whole).max(1);
        if let Some(p) = along(corner, m, i64::try_from(n).unwrap_or(1), d) {
            points.push(p)?;
        }
    }
    if let Some(p) = half_way(corner, m, reach, 1, 1_000_000) {
        points.push(p)?;
    }
    if let Some(simplest) = step_between(u, w) {
        for d in [1000, 1_000_000] {
            if let Some(p) = along(corner, simplest, 1, d) {
                points.push(p)?;
            }
        }
    }
    Ok(points)
}

/// The corners of rooms, each between two residual edges next to each other that leave a point, and
/// behind them the faces beside residual edges.
#[derive(Drop)]
pub struct Corners<'a> {
    alloc: Global,
    rest: &'a [NetEdge],
    rays: Vec<Ray>,
    /// The next ray, and the first that leaves its point.
    at: usize,
    first: usize,
    tries: usize,
    faces: Faces,
}

impl<'a> Corners<'a> {
    pub(crate) fn new(alloc: Global, rest: &'a [NetEdge]) -> Result<Corners<'a>, AllocError> {
        Ok(Corners {
            alloc,
            rest,
            rays: rays_of(alloc, rest)?,
            at: 0,
            first: 0,
            tries: 0,
            faces: Faces::new(alloc, rest)?,
        })
    }

    /// The ray after the next: round the same point.
    fn following(&self, ray: &Ray) -> Option<Ray> {
        match self.rays.get(self.at.saturating_add(1)) {
            Some(other) if other.from == ray.from => Some(*other),
            _ => self.rays.get(self.first).copied(),
        }
    }

    /// Points of the next corner, or none where two edges make no corner; behind the last, or where
    /// enough were tried, points beside the next edge; `None` behind all.
    pub fn next_points(&mut self) -> Result<Option<Vec<RatPoint>>, AllocError> {
        let found = self.next_corner()?;
        if found.is_some() {
            return Ok(found);
        }
        self.faces.next_points()
    }

    /// Points of the next corner; `None` behind the last, or where enough were tried.
    fn next_corner(&mut self) -> Result<Option<Vec<RatPoint>>, AllocError> {
        let Some(ray) = self.rays.get(self.at).copied() else {
            return Ok(None);
        };
        if self.tries >= MOST_TRIES {
            return Ok(None);
        }
        if let Some(start) = self.rays.get(self.first)
            && start.from != ray.from
        {
            self.first = self.at;
        }
        let other = self.following(&ray);
        self.at = self.at.saturating_add(1);
        match other {
            Some(second) if orient(ray.from, ray.to, second.to) > 0 => {
                self.tries = self.tries.saturating_add(1);
                let points = points_between(self.alloc, self.rest, &ray, &second)?;
                Ok(Some(points))
            }
            _ => Ok(Some(Vec::new(self.alloc))),
        }
    }

    /// No fewer than the calls of `next_points` that answer points.
    pub fn length(&self) -> usize {
        self.rays.len().saturating_add(MOST_FACES)
    }
}
