//! Whether the edges of a polygon cancel against those of what is to make it up.

ghost use Rattle.std.specs.Prelude.{◌↔◌, ◌++◌, All, IsTrue, IfOk};
ghost use Rattle.lpis_points.specs.Plane.{same_point};
ghost use Rattle.lpis_points.specs.Chain.{SameNet};
ghost use Rattle.lpis_points.specs.Triangles.{IsFlat};
ghost use Rattle.lpis_rings.specs.Edges.{edges_of};
ghost use Rattle.lpis_rings.specs.Map.{edges_of_triangles};
ghost use Rattle.lpis_edge_sums.specs.Making.{EdgesCancel, polygons};

use crate::runs::cancels;
use crate::signed::{SignedEdge, push_polygon, take_polygons, take_triangles};
use lpis_points::{Triangle, is_flat};
use lpis_rings::Polygon;
use std::alloc::{AllocError, Global};

/// The edges of one whole after another, in room that is kept from one to the next.
#[derive(Drop)]
pub struct EdgeSum {
    edges: Vec<SignedEdge>,
}

impl EdgeSum {
    /// A sum that has no room yet.
    pub fn new(alloc: Global) -> EdgeSum {
        EdgeSum {
            edges: Vec::new(alloc),
        }
    }

    /// Whether a polygon's edges have the net counts of the edges of these triangles and flats.
    pub fn is_cut(
        &mut self,
        polygon: &Polygon,
        triangles: &[Triangle],
        flats: &[Triangle],
    ) -> Result<bool, AllocError>
        ensures { IfOk result (λ b. IsTrue b ↔ SameNet same_point (edges_of polygon.now)
            (edges_of_triangles triangles.now ++ edges_of_triangles flats.now)) }
    {
        let sum = &mut self.edges;
        sum.clear();
        push_polygon(sum, polygon, true)?;
        take_triangles(sum, triangles)?;
        take_triangles(sum, flats)?;
        Ok(cancels(sum))
    }

    /// Whether a whole's edges have the net counts of the edges of its parts and of these flats.
    pub fn cancels(
        &mut self,
        whole: &Polygon,
        parts: &[&Polygon],
        flats: &[Triangle],
    ) -> Result<bool, AllocError>
        ensures { IfOk result
            (λ b. IsTrue b ↔ EdgesCancel whole.now (polygons parts.now) flats.now) }
    {
        let sum = &mut self.edges;
        sum.clear();
        push_polygon(sum, whole, true)?;
        take_polygons(sum, parts)?;
        take_triangles(sum, flats)?;
        Ok(cancels(sum))
    }
}

/// Whether each of these is three different points of one line.
pub fn are_flat(flats: &[Triangle]) -> bool
    ensures { IsTrue result ↔ All IsFlat flats.now }
{
    flats.iter().all(|t| is_flat(t))
}
