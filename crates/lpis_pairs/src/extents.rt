//! Boxes measured from the corner of the range of coordinates.

ghost use Rattle.std.specs.Prelude.{◌≡◌, ◌-◌, ◌<◌, ◌≤◌, IfOk, map};
ghost use Rattle.lpis_points.specs.Range.{IsInRange};
ghost use Rattle.lpis_pairs.specs.private.Strips.{extent_of as extent_of_spec};
ghost use Rattle.lpis_pairs.specs.private.Strips.{most_offset, offset as offset_spec};
ghost use Rattle.lpis_pairs.specs.private.Strips.{rounded_down as down_spec};
ghost use Rattle.lpis_pairs.specs.private.Strips.{rounded_up as up_spec};

use crate::triangle_at::HasTriangle;
use lpis_points::{LIMIT, Triangle, box_of};
use std::alloc::{AllocError, Global};

/// A box, measured from the least x and the least y in range, in whole centimetres, so that 32 bits
/// hold it. It is rounded outwards, so boxes that overlap do so here too; whether two that do so
/// here overlap is asked of their triangles.
#[derive(Clone, Copy, Debug)]
pub struct Extent {
    pub left: u32,
    pub bottom: u32,
    pub right: u32,
    pub top: u32,
}

/// How far a coordinate is above the least in range, in millimetres.
fn offset(coordinate: i64) -> u64
    requires { IsInRange coordinate }
    ensures value { result ≡ offset_spec coordinate }
    ensures small { result ≤ most_offset }
{
    (coordinate + LIMIT) as u64
}

/// How far a coordinate is above the least in range, in centimetres, rounded down.
fn rounded_down(coordinate: i64) -> u32
    requires { IsInRange coordinate }
    ensures { result ≡ down_spec coordinate }
{
    (offset(coordinate) / 10) as u32
}

/// How far a coordinate is above the least in range, in centimetres, rounded up.
fn rounded_up(coordinate: i64) -> u32
    requires { IsInRange coordinate }
    ensures { result ≡ up_spec coordinate }
{
    ((offset(coordinate) + 9) / 10) as u32
}

/// The box of a triangle.
pub fn extent_of(triangle: &Triangle) -> Extent
    ensures { result ≡ extent_of_spec triangle.now }
{
    let corners = box_of(triangle);
    Extent {
        left: rounded_down(corners.x0),
        bottom: rounded_down(corners.y0),
        right: rounded_up(corners.x1),
        top: rounded_up(corners.y1),
    }
}

/// The boxes of triangles.
pub fn extents_of<T: HasTriangle>(alloc: Global, triangles: &[T]) -> Result<Vec<Extent>, AllocError>
    ensures { IfOk result (λ extents. extents.items
        ≡ map extent_of_spec (map T.triangle triangles.now)) }
{
    let mut extents = Vec::with_capacity(alloc, triangles.len())?;
    for triangle in triangles {
        extents.push(extent_of(triangle.triangle()))?;
    }
    Ok(extents)
}

/// The height of a strip: more than the mean height of a box, so that there are fewer than three
/// events a triangle.
pub fn strip_height(extents: &[Extent]) -> u32
    ensures { 0 < result }
{
    let mut sum: u64 = 0;
    for extent in extents {
        sum = sum.saturating_add(extent.top.saturating_sub(extent.bottom) as u64);
    }
    let count = extents.len().max(1) as u64;
    u32::try_from(sum / count)
        .unwrap_or(u32::MAX)
        .saturating_add(1)
}

/// How wide a box is.
pub fn width(extent: &Extent) -> u64
    ensures { result ≡ extent.now.right - extent.now.left }
{
    extent.right.saturating_sub(extent.left) as u64
}
