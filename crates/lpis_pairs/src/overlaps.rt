//! What rounded boxes say of their triangles.

ghost use Rattle.std.specs.Prelude.{◌≡◌, ◌+◌, ◌&&◌, nat_lt};
ghost use Rattle.lpis_points.specs.declared.triangle.Triangle.{Triangle};
ghost use Rattle.lpis_pairs.specs.private.Overlaps.{Tells};
ghost use Rattle.lpis_pairs.specs.private.Strips.{extent_of};

use crate::extents::Extent;

/// Whether two boxes overlap in y.
fn overlap_in_height(first: &Extent, second: &Extent) -> bool
    ensures { result ≡ (nat_lt first.now.bottom second.now.top
        && nat_lt second.now.bottom first.now.top) }
{
    first.bottom < second.top && second.bottom < first.top
}

/// Whether the first box begins more than a centimetre before the second ends, in x and in y.
fn begins_well_before_end(first: &Extent, second: &Extent) -> bool
    ensures { result ≡ (nat_lt (first.now.left + 1) second.now.right
        && nat_lt (first.now.bottom + 1) second.now.top) }
{
    first.left as u64 + 1 < second.right as u64 && first.bottom as u64 + 1 < second.top as u64
}

/// Whether two boxes overlap by more than the centimetre to which they are rounded.
fn overlap_well(first: &Extent, second: &Extent) -> bool
    ensures { result ≡ ((nat_lt (first.now.left + 1) second.now.right
        && nat_lt (first.now.bottom + 1) second.now.top)
        && (nat_lt (second.now.left + 1) first.now.right
        && nat_lt (second.now.bottom + 1) first.now.top)) }
{
    begins_well_before_end(first, second) && begins_well_before_end(second, first)
}

/// What the rounded boxes of two triangles say of the triangles.
#[derive(Clone, Copy, Debug)]
pub enum Overlap {
    /// They are apart.
    Apart,
    /// They are not apart.
    Near,
    /// They may be either.
    Close,
}

/// What two boxes say of their triangles.
pub fn overlap_of(first: &Extent, second: &Extent) -> Overlap
    ensures { (t u : Triangle) → first.now ≡ extent_of t → second.now ≡ extent_of u
        → Tells t u result }
{
    if !overlap_in_height(first, second) {
        Overlap::Apart
    } else if overlap_well(first, second) {
        Overlap::Near
    } else {
        Overlap::Close
    }
}
