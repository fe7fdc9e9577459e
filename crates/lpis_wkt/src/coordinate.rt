//! Coordinates in range.

ghost use Rattle.lpis_points.specs.Range.{IsInRange};

/// A coordinate in whole millimetres, in range.
#[derive(Clone, Copy)]
pub struct Coordinate {
    pub value: i64,
    pub ghost in_range: { IsInRange value },
}
