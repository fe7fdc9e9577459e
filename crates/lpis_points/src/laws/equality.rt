//! Equal points.

ghost use Rattle.lpis_points.specs.Plane.{same_point};
ghost use Rattle.lpis_points.specs.Chain.{IsEquality};
ghost use Rattle.lpis_points.specs.PointLaws.{EqualByCoordinates};

/// Two points with equal coordinates are equal, and `same_point` tells equal points.
pub fn points_with_equal_coordinates_are_equal()
    ensures coordinates { EqualByCoordinates }
    ensures test { IsEquality same_point }
{}
