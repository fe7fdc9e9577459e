//! Whether two triangles are near.

ghost use Rattle.std.specs.Prelude.{◌≡◌, ◌↔◌, ◌<◌, IsTrue, length, map, not};
ghost use Rattle.lpis_points.specs.Triangles.{are_apart};
ghost use Rattle.lpis_pairs.specs.NearPairs.{IsNear};
ghost use Rattle.lpis_pairs.specs.private.Strips.{extent_of};

use crate::extents::Extent;
use crate::overlaps::{Overlap, overlap_of};
use crate::triangle_at::HasTriangle;
use lpis_points::{Triangle, apart};

/// Whether the boxes of two triangles are not apart.
fn boxes_meet(first: &Triangle, second: &Triangle) -> bool
    ensures { result ≡ not (are_apart first.now second.now) }
{
    !apart(first, second)
}

/// Whether (i, j) is a near pair: i is below j, and their triangles are not apart.
pub fn is_near(triangles: &[Triangle], i: u32, j: u32) -> bool
    requires first { i < length triangles.now }
    requires second { j < length triangles.now }
    ensures { IsTrue result ↔ IsNear triangles.now i j }
{
    i < j && boxes_meet(&triangles[i as usize], &triangles[j as usize])
}

/// Whether the boxes of two triangles are not apart. Most often their extents tell.
fn extents_meet(
    first: &Triangle,
    first_extent: &Extent,
    second: &Triangle,
    second_extent: &Extent,
) -> bool
    requires first { first_extent.now ≡ extent_of first.now }
    requires second { second_extent.now ≡ extent_of second.now }
    ensures { result ≡ not (are_apart first.now second.now) }
{
    match overlap_of(first_extent, second_extent) {
        Overlap::Apart => false,
        Overlap::Near => true,
        Overlap::Close => boxes_meet(first, second),
    }
}

/// Whether (i, j) is a near pair, by the extents of the triangles.
pub fn is_near_by_extents<T: HasTriangle>(
    triangles: &[T],
    extents: &[Extent],
    i: u32,
    j: u32,
) -> bool
    requires extents { extents.now ≡ map extent_of (map T.triangle triangles.now) }
    requires first { i < length triangles.now }
    requires second { j < length triangles.now }
    ensures { IsTrue result ↔ IsNear (map T.triangle triangles.now) i j }
{
    i < j
        && extents_meet(
            triangles[i as usize].triangle(),
            &extents[i as usize],
            triangles[j as usize].triangle(),
            &extents[j as usize],
        )
}
