//! Examples of rings, of the points of a polygon, and of its area.

ghost use Rattle.std.specs.Prelude.{◌≡◌, ◌<ℤ◌, ◌↔◌, pos, negsuc, length, reverse};
ghost use Rattle.lpis_points.specs.Plane.{RationalPoint};
ghost use Rattle.lpis_rings.specs.Area.{area2, shoelace, steps};
ghost use Rattle.lpis_rings.specs.Edges.{Contains, crossed, edges_of, hole_edges, shell_edges};
ghost use Rattle.lpis_rings.specs.Edges.{turns};
ghost use Rattle.lpis_examples.specs.Shapes.{IsWithin, apart, backward_frame, box, doubled, frame};
ghost use Rattle.lpis_examples.specs.Shapes.{halves, land, misplaced, place, quarters, splinter};
ghost use Rattle.lpis_examples.specs.Shapes.{square, tripled, two_holes, wedge};

/// The sum is twice the area, which is 16. It is below 0 where the ring is written clockwise.
pub fn the_shoelace_sum_of_a_square()
    ensures counter_clockwise { shoelace (box 0 0 4 4) ≡ pos 32 }
    ensures clockwise { shoelace (reverse (box 0 0 4 4)) ≡ negsuc 31 }
{}

/// As a shell a ring has its edges counter-clockwise, also where it is written clockwise.
pub fn a_shell_is_walked_counter_clockwise()
    ensures { shell_edges (reverse (box 0 0 4 4)) ≡ steps (box 0 0 4 4) }
{}

/// As a hole a ring has its edges clockwise, whichever way it is written.
pub fn a_hole_is_walked_clockwise()
    ensures counter_clockwise { hole_edges (box 1 1 3 3) ≡ steps (reverse (box 1 1 3 3)) }
    ensures clockwise { hole_edges (reverse (box 1 1 3 3)) ≡ steps (reverse (box 1 1 3 3)) }
{}

/// (2, 2) is in the square: you meet one edge, the right side.
pub fn a_point_in_a_square()
    ensures inside { Contains square (place 2 2) }
    ensures crossed { length (crossed (edges_of square) (place 2 2)) ≡ 1 }
{}

/// From a point to the west of a square two edges are met, from one to the east none.
pub fn a_point_beside_a_square()
    ensures left { Contains (land (box 4 0 8 4)) (place 2 2) → ⊥ }
    ensures crossed { length (crossed (edges_of (land (box 4 0 8 4))) (place 2 2)) ≡ 2 }
    ensures right { Contains square (place 6 2) → ⊥ }
{}

/// A point on the left border is in the square: the right side is met, the left one is not.
pub fn a_point_on_the_left_border()
    ensures { Contains square (place 0 2) }
{}

/// (4, 2) is on the right side of the square, so that side is not met, and no other lies to the
/// east: not in. Of its neighbour from (4, 0) to (8, 4) you meet one edge, at x = 8: in.
pub fn a_point_on_the_right_border()
    ensures ours { Contains square (place 4 2) → ⊥ }
    ensures neighbours { Contains (land (box 4 0 8 4)) (place 4 2) }
{}

/// A point on the lower border is in the square, one on the upper border is not.
pub fn a_point_on_the_lower_and_on_the_upper_border()
    ensures lower { Contains square (place 2 0) }
    ensures upper { Contains square (place 2 4) → ⊥ }
{}

/// Of its four corners the square contains the lower left one.
pub fn the_corners_of_a_square()
    ensures lower_left { Contains square (place 0 0) }
    ensures lower_right { Contains square (place 4 0) → ⊥ }
    ensures upper_right { Contains square (place 4 4) → ⊥ }
    ensures upper_left { Contains square (place 0 4) → ⊥ }
{}

/// Four squares meet at (4, 4). The right sides of the two lower ones have their upper end at this
/// height. That of the upper left one runs through the point. Only the upper right one is met, at x
/// = 8: it contains the point.
pub fn a_corner_where_four_squares_meet()
    ensures lower_left { Contains square (place 4 4) → ⊥ }
    ensures lower_right { Contains (land (box 4 0 8 4)) (place 4 4) → ⊥ }
    ensures upper_left { Contains (land (box 0 4 4 8)) (place 4 4) → ⊥ }
    ensures upper_right { Contains (land (box 4 4 8 8)) (place 4 4) }
{}

/// Points between whole millimetres: half a millimetre inside is in, half a millimetre outside is
/// not.
pub fn a_point_between_millimetres()
    ensures inside { Contains square (halves 7 1) }
    ensures outside { Contains square (halves 9 1) → ⊥ }
{}

/// The triangle has a slope from (4, 0) to (0, 4). From (1, 1) you meet it at (3, 1): in. It runs
/// through (2, 2), and (3, 3) is beyond it: you meet nothing, so these two are not in.
pub fn a_triangle_with_a_slope()
    ensures below { Contains wedge (place 1 1) }
    ensures on { Contains wedge (place 2 2) → ⊥ }
    ensures above { Contains wedge (place 3 3) → ⊥ }
{}

/// A triangle so thin that it contains no point with whole-millimetre coordinates, and none of its
/// own corners. But (3/4, 1) is in it.
pub fn a_triangle_between_millimetres()
    ensures between { Contains (splinter 0) (quarters 3 4) }
    ensures first { Contains (splinter 0) (place 0 0) → ⊥ }
    ensures second { Contains (splinter 0) (place 1 1) → ⊥ }
    ensures third { Contains (splinter 0) (place 1 2) → ⊥ }
{}

/// The square contains the points whose x and y are both at least 0 and below 4, and no others.
pub fn all_points_of_a_square()
    ensures { (p : RationalPoint) → pos 0 <ℤ p.d → Contains square p ↔ IsWithin 0 0 4 4 p }
{}

/// From (2, 2) in the hole you meet two edges, at x = 3 and 4: not in. From (0.5, 2) three, at x =
/// 1, 3 and 4: in.
pub fn a_point_in_a_hole()
    ensures hole { Contains frame (place 2 2) → ⊥ }
    ensures beside { Contains frame (halves 1 4) }
{}

/// An island fills the hole. From (1, 2), on the left border between them, you meet one edge of the
/// island, at x = 3, and two of the frame, at x = 3 and 4: it is in the island. From (3, 2), on the
/// right one, you meet none of the island and one of the frame, at x = 4: in the frame.
pub fn an_island_in_a_hole()
    ensures left_island { Contains (land (box 1 1 3 3)) (place 1 2) }
    ensures left_square { Contains frame (place 1 2) → ⊥ }
    ensures right_island { Contains (land (box 1 1 3 3)) (place 3 2) → ⊥ }
    ensures right_square { Contains frame (place 3 2) }
{}

/// The rectangle has two holes. From (2, 2) in the first you meet four edges, at x = 3, 5, 7 and 8,
/// and from (6, 2) in the second two, at x = 7 and 8: not in. From (4, 2) between them you meet
/// three: in.
pub fn a_polygon_with_two_holes()
    ensures first { Contains two_holes (place 2 2) → ⊥ }
    ensures second { Contains two_holes (place 6 2) → ⊥ }
    ensures between { Contains two_holes (place 4 2) }
{}

/// A polygon of two squares contains the points of each, and no point between them.
pub fn a_polygon_of_two_squares()
    ensures first { Contains apart (place 2 2) }
    ensures second { Contains apart (place 10 2) }
    ensures between { Contains apart (place 6 2) → ⊥ }
{}

/// The border of a square turns once round a point in it, and not at all round one outside. Round a
/// point in a hole the turns of the shell and of the hole add up to 0.
pub fn a_square_turns_once_round_its_points()
    ensures inside { turns square (place 2 2) ≡ pos 1 }
    ensures outside { turns square (place 6 2) ≡ pos 0 }
    ensures hole { turns frame (place 2 2) ≡ pos 0 }
{}

/// A square that is listed twice: from (2, 2) you meet two edges, and both go up. The turns are 2,
/// and the polygon does not contain the point. Listed three times it contains it, as if listed
/// once. Turns show this, `Contains` does not.
pub fn a_square_that_stands_twice()
    ensures turns { turns doubled (place 2 2) ≡ pos 2 }
    ensures twice { Contains doubled (place 2 2) → ⊥ }
    ensures thrice { Contains tripled (place 2 2) }
{}

/// From (10, 2) in the hole that lies outside you meet one edge, at x = 12. It goes down, as a hole
/// is walked clockwise: the turns are -1. And the polygon contains the point, for one is odd.
pub fn a_hole_outside_its_shell()
    ensures turns { turns misplaced (place 10 2) ≡ negsuc 0 }
    ensures inside { Contains misplaced (place 10 2) }
{}

/// The square has 4 x 4 = 16, doubled 32, whichever way round it is written. The triangle is half
/// of it: 8, doubled 16.
pub fn the_area_of_a_square()
    ensures counter_clockwise { area2 square ≡ pos 32 }
    ensures clockwise { area2 (land (reverse (box 0 0 4 4))) ≡ pos 32 }
    ensures triangle { area2 wedge ≡ pos 16 }
{}

/// The square less its hole of 2 by 2 has 16 - 4 = 12, doubled 24, whichever way round the hole is
/// written. Two squares have 32, doubled 64. The rectangle has 32 - 4 - 4 = 24, doubled 48.
pub fn the_area_without_holes()
    ensures hole { area2 frame ≡ pos 24 }
    ensures clockwise { area2 backward_frame ≡ pos 24 }
    ensures two { area2 apart ≡ pos 64 }
    ensures two_holes { area2 two_holes ≡ pos 48 }
{}
