//! Points of the plane, in whole millimetres.

ghost use Rattle.std.specs.Prelude.{◌≡◌, ◌↔◌, IsSome, IfSome, IsTrue};
ghost use Rattle.lpis_points.specs.Range.{IsInRange};

/// The greatest absolute value of a coordinate in millimetres: 20,000,000 metres. A coordinate up
/// to it is in range.
pub const LIMIT: i64 = 20_000_000_000;

/// A point whose coordinates are in range.
#[derive(Clone, Copy, Debug, PartialEq, Eq, PartialOrd, Ord, Hash)]
pub struct Point {
    /// Millimetres to the east.
    pub x: i64,
    /// Millimetres to the north.
    pub y: i64,
    pub ghost x_in_range: { IsInRange x },
    pub ghost y_in_range: { IsInRange y },
}

/// Whether a coordinate is in range.
fn is_in_range(coordinate: i64) -> bool
    ensures { IsTrue result ↔ IsInRange coordinate }
{
    -LIMIT <= coordinate && coordinate <= LIMIT
}

impl Point {
    /// The point of these coordinates in millimetres, or `None` where one is out of range.
    pub fn new(x: i64, y: i64) -> Option<Point>
        ensures which { IsSome result ↔ (IsInRange x × IsInRange y) }
        ensures coordinates { IfSome result (λ p. (p.x ≡ x) × (p.y ≡ y)) }
    {
        if is_in_range(x) && is_in_range(y) {
            Some(Point { x, y })
        } else {
            None
        }
    }
}
