//! Whether corners of triangles are points of rings.

ghost use Rattle.std.specs.Prelude.{◌≡◌, ◌↔◌, ◌++◌, IsTrue, IfOk, OnOk};
ghost use Rattle.lpis_edge_sums.specs.Making.{FlatsHaveCorners, HaveCorners, corners_of};
ghost use Rattle.lpis_edge_sums.specs.Making.{corners_of_all, points_of_rings, polygons};

use crate::point_set::PointSet;
use lpis_points::{Point, Triangle};
use lpis_rings::{Polygon, Ring};
use std::alloc::{AllocError, Global};

/// Adds the points of rings.
fn add_rings(points: &mut Vec<Point>, rings: &[Ring]) -> Result<(), AllocError>
    ensures { OnOk result (points.new.items ≡ points.old.items ++ points_of_rings rings.now) }
{
    for ring in rings {
        points.extend_from_slice(ring.points())?;
    }
    Ok(())
}

/// Adds the points of a polygon's rings.
fn add_corners(points: &mut Vec<Point>, polygon: &Polygon) -> Result<(), AllocError>
    ensures { OnOk result (points.new.items ≡ points.old.items ++ corners_of polygon.now) }
{
    for member in polygon.members() {
        points.extend_from_slice(member.shell.points())?;
        add_rings(points, member.holes.as_slice())?;
    }
    Ok(())
}

/// Adds the points of the rings of polygons.
fn add_corners_of_all(points: &mut Vec<Point>, parts: &[&Polygon]) -> Result<(), AllocError>
    ensures { OnOk result (points.new.items
        ≡ points.old.items ++ corners_of_all (polygons parts.now)) }
{
    for polygon in parts {
        add_corners(points, polygon)?;
    }
    Ok(())
}

/// Whether each corner of these triangles and flats is a point of a polygon's rings.
pub fn has_corners(
    alloc: Global,
    polygon: &Polygon,
    triangles: &[Triangle],
    flats: &[Triangle],
) -> Result<bool, AllocError>
    ensures { IfOk result (λ b. IsTrue b
        ↔ HaveCorners (corners_of polygon.now) (triangles.now ++ flats.now)) }
{
    let mut points = Vec::new(alloc);
    add_corners(&mut points, polygon)?;
    let set = PointSet::of(points);
    Ok(set.has_corners_of_both(triangles, flats))
}

/// Whether each corner of these flats is a point of the rings of a whole or of its parts. Where
/// there are none, as at most wholes, it takes no memory.
pub fn flats_have_corners(
    alloc: Global,
    whole: &Polygon,
    parts: &[&Polygon],
    flats: &[Triangle],
) -> Result<bool, AllocError>
    ensures { IfOk result
        (λ b. IsTrue b ↔ FlatsHaveCorners whole.now (polygons parts.now) flats.now) }
{
    if flats.is_empty() {
        return Ok(true);
    }
    let mut points = Vec::new(alloc);
    add_corners(&mut points, whole)?;
    add_corners_of_all(&mut points, parts)?;
    let set = PointSet::of(points);
    Ok(set.has_all_corners(flats))
}
