//! Examples of coordinates, and of the sides and crossings of edges.

ghost use Rattle.std.specs.Prelude.{◌≡◌, pos, negsuc};
ghost use Rattle.lpis_points.specs.Plane.{crossing, orient_at};
ghost use Rattle.lpis_points.specs.Range.{IsInRange};
ghost use Rattle.lpis_examples.specs.Shapes.{corner, place, halves};

/// 20,000 km to the east or to the west of the origin is in range. A millimetre more is not.
pub fn the_range_ends_at_20_000_km()
    ensures east { IsInRange (pos 20000000000) }
    ensures west { IsInRange (negsuc 19999999999) }
    ensures further_east { IsInRange (pos 20000000001) → ⊥ }
    ensures further_west { IsInRange (negsuc 20000000000) → ⊥ }
{}

/// The edge from (4, 0) to (4, 4) goes up. A point to the west of it is on its left: the number is
/// above 0.
pub fn a_point_left_of_an_edge()
    ensures { orient_at (corner 4 0) (corner 4 4) (place 1 2) ≡ pos 12 }
{}

/// On the edge the number is 0.
pub fn a_point_on_an_edge()
    ensures { orient_at (corner 4 0) (corner 4 4) (place 4 2) ≡ pos 0 }
{}

/// A point to the east of the edge is on its right: the number is below 0.
pub fn a_point_right_of_an_edge()
    ensures { orient_at (corner 4 0) (corner 4 4) (place 6 2) ≡ negsuc 7 }
{}

/// Walk from (0, 0) to (4, 4). (2, 3) is on your left: above 0. (3, 2) is on your right: below 0.
/// (3, 3) is on the edge: 0.
pub fn a_point_beside_a_slanted_edge()
    ensures left { orient_at (corner 0 0) (corner 4 4) (place 2 3) ≡ pos 4 }
    ensures right { orient_at (corner 0 0) (corner 4 4) (place 3 2) ≡ negsuc 3 }
    ensures on { orient_at (corner 0 0) (corner 4 4) (place 3 3) ≡ pos 0 }
{}

/// Half a millimetre to the west of the edge is on its left, and half a millimetre to the east on
/// its right.
pub fn half_a_millimetre_beside_an_edge()
    ensures west { orient_at (corner 4 0) (corner 4 4) (halves 7 4) ≡ pos 4 }
    ensures east { orient_at (corner 4 0) (corner 4 4) (halves 9 4) ≡ negsuc 3 }
{}

/// An edge goes from (4, 0) up to (4, 4). From (1, 2) you meet it: 1.
pub fn an_edge_is_crossed_upward()
    ensures { crossing (corner 4 0) (corner 4 4) (place 1 2) ≡ pos 1 }
{}

/// The same edge goes down, from (4, 4) to (4, 0): -1.
pub fn an_edge_is_crossed_downward()
    ensures { crossing (corner 4 4) (corner 4 0) (place 1 2) ≡ negsuc 0 }
{}

/// Seen from the east, it counts 0, whichever way it goes.
pub fn an_edge_to_the_west_is_not_crossed()
    ensures up { crossing (corner 4 0) (corner 4 4) (place 6 2) ≡ pos 0 }
    ensures down { crossing (corner 4 4) (corner 4 0) (place 6 2) ≡ pos 0 }
{}

/// From a point on the edge itself it counts 0 too: an edge that runs through the point is not met.
pub fn an_edge_under_the_point_is_not_crossed()
    ensures up { crossing (corner 4 0) (corner 4 4) (place 4 2) ≡ pos 0 }
    ensures down { crossing (corner 4 4) (corner 4 0) (place 4 2) ≡ pos 0 }
{}

/// At its lower end, seen from (1, 0), this edge counts, whichever way it goes. At its upper end,
/// seen from (1, 4), it does not. So where one edge ends at a corner and the next goes on upward,
/// one of them counts. Where both go up from it two count, where both end there none.
pub fn the_lower_end_is_part_of_an_edge()
    ensures lower { crossing (corner 4 0) (corner 4 4) (place 1 0) ≡ pos 1 }
    ensures upper { crossing (corner 4 0) (corner 4 4) (place 1 4) ≡ pos 0 }
    ensures lower_of_down { crossing (corner 4 4) (corner 4 0) (place 1 0) ≡ negsuc 0 }
    ensures upper_of_down { crossing (corner 4 4) (corner 4 0) (place 1 4) ≡ pos 0 }
{}

/// A level edge, which goes neither up nor down, counts 0.
pub fn a_level_edge_is_not_crossed()
    ensures { crossing (corner 4 2) (corner 8 2) (place 1 2) ≡ pos 0 }
{}
