//! Points in millionths of a millimetre.

ghost use Rattle.std.specs.Prelude.{◌≡◌};
ghost use Rattle.lpis_points.specs.RationalRange.{IsInRangeOver};
ghost use Rattle.lpis_places.specs.Numbers.{parts};

use lpis_points::RatPoint;

/// How many parts a millimetre has.
pub const PARTS: i64 = 1_000_000;

/// A point in millionths of a millimetre. Both coordinates are in the range of a coordinate.
#[derive(Clone, Copy, Debug, PartialEq, Eq, PartialOrd, Ord)]
pub struct Spot {
    /// To the east.
    pub x: i64,
    /// To the north.
    pub y: i64,
    pub ghost x_in_range: { IsInRangeOver parts x },
    pub ghost y_in_range: { IsInRangeOver parts y },
}

impl Spot {
    ghost use Rattle.lpis_points.specs.RatPoints.{rational_of};
    ghost use Rattle.lpis_places.specs.Points.{rational_at};

    /// The same point as a fraction of millimetres.
    pub fn as_fraction(self) -> RatPoint
        ensures { rational_of result ≡ rational_at self }
    {
        match RatPoint::new(self.x, self.y, PARTS) {
            Some(point) => point,
            // Its coordinates are in range.
            None => unreachable!(),
        }
    }
}
