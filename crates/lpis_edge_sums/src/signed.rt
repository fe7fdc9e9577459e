//! Edges with their lesser point first and a sign, so that equal edges stand together once they are
//! sorted.

ghost use Rattle.std.specs.Prelude.{◌∷◌, [], OnOk, false};
ghost use Rattle.lpis_points.specs.Triangles.{triangle_edges};
ghost use Rattle.lpis_rings.specs.Edges.{edges_of};
ghost use Rattle.lpis_rings.specs.Map.{edges_of_triangles};
ghost use Rattle.lpis_edge_sums.specs.Making.{edges_of_all, polygons};
ghost use Rattle.lpis_edge_sums.specs.private.SignedEdges.{Grows, IsSigned};

use lpis_points::{Point, Triangle};
use lpis_rings::{Polygon, edges};
use std::alloc::AllocError;
use std::cmp::Ordering;

/// An edge between two points, the lesser first, and whether it runs from that one. An edge that is
/// taken away counts as its reverse.
#[derive(Clone, Copy, PartialEq, Eq, PartialOrd, Ord)]
pub(crate) struct SignedEdge {
    pub low: Point,
    pub high: Point,
    pub forward: bool,
}

/// The edge from a to b, or its reverse where it is taken away; `None` for an edge from a point to
/// itself.
fn signed(a: Point, b: Point, added: bool) -> Option<SignedEdge>
    ensures { IsSigned a b added result }
{
    match a.cmp(&b) {
        Ordering::Less => Some(SignedEdge {
            low: a,
            high: b,
            forward: added,
        }),
        Ordering::Greater => Some(SignedEdge {
            low: b,
            high: a,
            forward: !added,
        }),
        Ordering::Equal => None,
    }
}

/// Adds an edge, or takes it away.
fn push_edge(sum: &mut Vec<SignedEdge>, a: Point, b: Point, added: bool) -> Result<(), AllocError>
    ensures { OnOk result (Grows added ((a, b) ∷ []) sum.old.items sum.new.items) }
{
    if let Some(edge) = signed(a, b, added) {
        sum.push(edge)?;
    }
    Ok(())
}

/// Adds the edges of a polygon in normal orientation, or takes them away.
pub(crate) fn push_polygon(
    sum: &mut Vec<SignedEdge>,
    polygon: &Polygon,
    added: bool,
) -> Result<(), AllocError>
    ensures { OnOk result (Grows added (edges_of polygon.now) sum.old.items sum.new.items) }
{
    for (a, b) in edges(polygon) {
        push_edge(sum, a, b, added)?;
    }
    Ok(())
}

/// Takes away the edges of polygons in normal orientation.
pub(crate) fn take_polygons(sum: &mut Vec<SignedEdge>, parts: &[&Polygon]) -> Result<(), AllocError>
    ensures { OnOk result (Grows false (edges_of_all (polygons parts.now)) sum.old.items
        sum.new.items) }
{
    for polygon in parts {
        push_polygon(sum, polygon, false)?;
    }
    Ok(())
}

/// Takes away the edges of a triangle.
fn take_triangle(sum: &mut Vec<SignedEdge>, triangle: &Triangle) -> Result<(), AllocError>
    ensures { OnOk result (Grows false (triangle_edges triangle.now) sum.old.items sum.new.items) }
{
    let Triangle { a, b, c } = *triangle;
    push_edge(sum, a, b, false)?;
    push_edge(sum, b, c, false)?;
    push_edge(sum, c, a, false)
}

/// Takes away the edges of triangles.
pub(crate) fn take_triangles(
    sum: &mut Vec<SignedEdge>,
    triangles: &[Triangle],
) -> Result<(), AllocError>
    ensures { OnOk result (Grows false (edges_of_triangles triangles.now) sum.old.items
        sum.new.items) }
{
    for triangle in triangles {
        take_triangle(sum, triangle)?;
    }
    Ok(())
}
