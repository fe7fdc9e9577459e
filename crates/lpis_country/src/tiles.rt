//! Tiles of the plane.

ghost use Rattle.std.specs.Prelude.{◌≡◌};
ghost use Rattle.lpis_points.specs.Triangles.{ends_before};
ghost use Rattle.lpis_country.specs.Tiling.{frame as frame_spec, meets as meets_spec};

use lpis_points::{Box4, LIMIT};

/// The rectangle that is cut into tiles: one beyond the range of coordinates on each side.
pub fn frame() -> Box4
    ensures { result ≡ frame_spec }
{
    Box4 {
        x0: -LIMIT - 1,
        y0: -LIMIT - 1,
        x1: LIMIT + 1,
        y1: LIMIT + 1,
    }
}

/// Whether the first box ends where the second begins or before, in x or in y.
fn is_before(first: &Box4, second: &Box4) -> bool
    ensures { result ≡ ends_before first.now second.now }
{
    first.x1 <= second.x0 || first.y1 <= second.y0
}

/// Whether neither box ends where the other begins, or before. Boxes that only touch do not meet.
pub fn meets(first: &Box4, second: &Box4) -> bool
    ensures { result ≡ meets_spec first.now second.now }
{
    !(is_before(first, second) || is_before(second, first))
}
