//! The box of a polygon, in millionths of a millimetre.

ghost use Rattle.std.specs.Prelude.{◌≡◌, ◌↔◌, IsTrue};
ghost use Rattle.lpis_country.specs.Polygons.{box_of_members};
ghost use Rattle.lpis_places.specs.private.Reaches.{IsInWidth, reach_of, up};

use crate::spot::{PARTS, Spot};
use lpis_country::box_of_polygon;
use lpis_rings::Polygon;

/// A box in millionths of a millimetre. Its left and its low side belong to it.
#[derive(Clone, Copy, Debug)]
pub struct Reach {
    pub left: i128,
    pub low: i128,
    pub right: i128,
    pub high: i128,
}

/// A coordinate in parts.
pub(crate) fn scaled(coordinate: i64) -> i128
    ensures { result ≡ up coordinate }
{
    coordinate as i128 * PARTS as i128
}

/// The box of a polygon.
pub(crate) fn scaled_box(polygon: &Polygon) -> Reach
    ensures { result ≡ reach_of (box_of_members polygon.now) }
{
    let corners = box_of_polygon(polygon);
    Reach {
        left: scaled(corners.x0),
        low: scaled(corners.y0),
        right: scaled(corners.x1),
        high: scaled(corners.y1),
    }
}

/// Whether a point is between the left and the right side of the box.
pub(crate) fn is_in_width(reach: &Reach, spot: Spot) -> bool
    ensures { IsTrue result ↔ IsInWidth reach.now spot }
{
    let x = spot.x as i128;
    reach.left <= x && x < reach.right
}
