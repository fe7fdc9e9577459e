//! The shifted point.

ghost use Rattle.lpis_points.specs.ShiftLaws.{ShiftedCrossesAlike, ShiftedIsOffLines, ShiftedSide};

/// Each point has a point close to it that is off every line through two different points in range,
/// and by which each edge has the same crossing.
pub fn the_shifted_point_is_off_every_line_and_crossed_alike()
    ensures side { ShiftedSide }
    ensures off { ShiftedIsOffLines }
    ensures crossings { ShiftedCrossesAlike }
{}
