//! The edges of a polygon, and whether a point is in it by the number of those that it crosses.

ghost use Rattle.std.specs.Prelude.{◌≡◌, ◌++◌, ◌*ℤ◌, ◌∷◌, All, OnOk, cond, int_lt, not};
ghost use Rattle.lpis_points.specs.RatPoints.{rational_of};
ghost use Rattle.lpis_rings.specs.Ring.{IsRing};
ghost use Rattle.lpis_country.specs.Polygons.{HasClosedRings};
ghost use Rattle.lpis_places.specs.Numbers.{parts};
ghost use Rattle.lpis_places.specs.Points.{rational_at};
ghost use Rattle.lpis_places.specs.private.Insides.{drawn, drawn_member, drawn_members};
ghost use Rattle.lpis_places.specs.private.Insides.{drawn_rings, flipped, is_crossed};

use crate::spot::{PARTS, Spot};
use lpis_points::{Point, RatPoint, crossing};
use lpis_rings::{Member, Polygon, Ring};
use std::alloc::AllocError;

/// An edge of a ring as it is written.
#[derive(Clone, Copy, Debug)]
pub(crate) struct Edge {
    pub from: Point,
    pub to: Point,
}

/// Adds the edges of a ring.
fn add_ring(edges: &mut Vec<Edge>, ring: &Ring) -> Result<(), AllocError>
    ensures drawn { OnOk result (edges.new.items ≡ edges.old.items ++ drawn ring.now) }
    ensures ring { IsRing ring.now }
{
    let Some((first, others)) = ring.points().split_first() else {
        return Ok(());
    };
    let mut from = *first;
    for to in others {
        edges.push(Edge { from, to: *to })?;
        from = *to;
    }
    Ok(())
}

/// Adds those of rings.
fn add_rings(edges: &mut Vec<Edge>, rings: &[Ring]) -> Result<(), AllocError>
    ensures drawn { OnOk result (edges.new.items ≡ edges.old.items ++ drawn_rings rings.now) }
    ensures rings { OnOk result (All IsRing rings.now) }
{
    for ring in rings {
        add_ring(edges, ring)?;
    }
    Ok(())
}

/// Adds those of a member.
fn add_member(edges: &mut Vec<Edge>, member: &Member) -> Result<(), AllocError>
    ensures drawn { OnOk result (edges.new.items ≡ edges.old.items ++ drawn_member member.now) }
    ensures rings { OnOk result (All IsRing (member.now.shell ∷ member.now.holes)) }
{
    add_ring(edges, &member.shell)?;
    add_rings(edges, member.holes.as_slice())
}

/// The edges of a polygon in the place of what stood there.
pub(crate) fn draw(edges: &mut Vec<Edge>, polygon: &Polygon) -> Result<(), AllocError>
    ensures drawn { OnOk result (edges.new.items ≡ drawn_members polygon.now) }
    ensures closed { OnOk result (HasClosedRings polygon.now) }
{
    edges.clear();
    for member in polygon.members() {
        add_member(edges, member)?;
    }
    Ok(())
}

/// Whether a corner is above a point.
fn is_above(corner: Point, p: &RatPoint) -> bool
    ensures { result ≡ int_lt p.now.y (corner.y *ℤ parts) }
{
    p.y < corner.y * PARTS
}

/// Whether an edge is crossed by a point. One with both ends above or both not is not.
pub(crate) fn is_crossed(edge: Edge, p: &RatPoint) -> bool
    requires { p.now.d ≡ parts }
    ensures { result ≡ is_crossed (rational_of p.now) edge.from edge.to }
{
    if is_above(edge.from, p) == is_above(edge.to, p) {
        return false;
    }
    crossing(edge.from, edge.to, p) != 0
}

/// What was said of a point, turned round where it crosses an edge more.
pub(crate) fn turned(odd: bool, crossed: bool) -> bool
    ensures { result ≡ cond crossed (not odd) odd }
{
    odd != crossed
}

/// Whether a point is inside, by what edges that were looked at say and those that are left.
pub(crate) fn is_inside(edges: &[Edge], odd: bool, spot: Spot) -> bool
    ensures { result ≡ flipped odd (rational_at spot) edges.now }
{
    let p = spot.as_fraction();
    let mut inside = odd;
    for edge in edges {
        inside = turned(inside, is_crossed(*edge, &p));
    }
    inside
}
