//! Fans: pieces that the triangles round their first point cover.

ghost use Rattle.std.specs.Prelude.{◌≡◌, ◌≤◌, ◌<◌, ◌+◌, ◌<ℤ◌, ◌↔◌, pos, IfOk, IsTrue, MatchOption};
ghost use Rattle.std.specs.Prelude.{length};
ghost use Rattle.lpis_points.specs.Plane.{orient as orient_spec};
ghost use Rattle.lpis_rings.specs.Edges.{edges_of};
ghost use Rattle.lpis_rings.specs.Polygon.{points_of};
ghost use Rattle.lpis_cutter.specs.Fans.{IsFan, IsOneRing, SeesAll, SeesAt};

use lpis_points::{Point, Triangle, orient};
use lpis_rings::{Polygon, edges};
use std::alloc::{AllocError, Global};

/// The edges of a polygon in normal orientation.
fn edges_in(alloc: Global, polygon: &Polygon) -> Result<Vec<(Point, Point)>, AllocError>
    ensures { IfOk result (λ list. list.items ≡ edges_of polygon.now) }
{
    let mut list = Vec::new(alloc);
    for edge in edges(polygon) {
        list.push(edge)?;
    }
    Ok(list)
}

/// Whether a polygon is one ring.
fn is_one_ring(polygon: &Polygon) -> bool
    ensures { IsTrue result ↔ IsOneRing polygon.now }
{
    match polygon.members() {
        [only] => only.holes.as_slice().is_empty(),
        _ => false,
    }
}

/// Whether a point is strictly left of the line from a to b.
fn is_left(a: Point, b: Point, point: Point) -> bool
    ensures { IsTrue result ↔ (pos 0 <ℤ orient_spec a b point) }
{
    orient(a, b, point) > 0
}

/// Whether the point from which the first edge goes is strictly left of the edge at an index.
fn sees(list: &[(Point, Point)], k: usize) -> bool
    requires { k < length list.now }
    ensures { IsTrue result ↔ SeesAt list.now k }
{
    let (first, edge) = (list[0], list[k]);
    is_left(edge.0, edge.1, first.0)
}

/// Whether that point is strictly left of every edge but the first and the last.
fn sees_all(list: &[(Point, Point)]) -> bool
    ensures { IsTrue result ↔ SeesAll list.now }
{
    for k in 1..list.len().saturating_sub(1) {
        if !sees(list, k) {
            return false;
        }
    }
    true
}

/// The edges of a polygon that is a fan; None where it is none.
fn edges_of_fan(alloc: Global, polygon: &Polygon) -> Result<Option<Vec<(Point, Point)>>, AllocError>
    ensures { IfOk result (λ o. MatchOption o (IsFan polygon.now → ⊥)
        (λ list. IsFan polygon.now × (list.items ≡ edges_of polygon.now))) }
{
    if !is_one_ring(polygon) {
        return Ok(None);
    }
    let list = edges_in(alloc, polygon)?;
    if !sees_all(&list) {
        return Ok(None);
    }
    Ok(Some(list))
}

/// Whether a polygon is a fan.
pub(crate) fn is_fan(alloc: Global, polygon: &Polygon) -> Result<bool, AllocError>
    ensures { IfOk result (λ b. IsTrue b ↔ IsFan polygon.now) }
{
    match edges_of_fan(alloc, polygon)? {
        Some(_list) => Ok(true),
        None => Ok(false),
    }
}

/// The triangles from the first point to every edge but the first and the last.
fn triangles_of(alloc: Global, list: &[(Point, Point)]) -> Result<Vec<Triangle>, AllocError>
    ensures { IfOk result (λ triangles. length triangles.items ≤ length list.now) }
{
    let mut triangles = Vec::new(alloc);
    for (k, (b, c)) in list.iter().enumerate() {
        if 0 < k && k + 1 < list.len() {
            triangles.push(Triangle {
                a: list[0].0,
                b: *b,
                c: *c,
            })?;
        }
    }
    Ok(triangles)
}

/// The triangles of a fan: fewer than it has points. `None` where the polygon is no fan.
#[tactic(auto, using(lpis_rings::proofs::Shared::edges_few))]
pub(crate) fn fan_of(alloc: Global, polygon: &Polygon) -> Result<Option<Vec<Triangle>>, AllocError>
    ensures { IfOk result (λ o. IsFan polygon.now
        → MatchOption o ⊥ (λ triangles. length triangles.items ≤ points_of polygon.now)) }
{
    match edges_of_fan(alloc, polygon)? {
        Some(list) => Ok(Some(triangles_of(alloc, &list)?)),
        None => Ok(None),
    }
}
