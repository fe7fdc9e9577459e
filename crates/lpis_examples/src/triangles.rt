//! Examples of triangles that are apart.

ghost use Rattle.std.specs.Prelude.{◌≡◌, true, false};
ghost use Rattle.lpis_points.specs.Triangles.{Separates, are_apart};
ghost use Rattle.lpis_examples.specs.Shapes.{corner, triangle};

/// Two halves of a square. The boxes round them overlap. But the edge from (4, 0) to (0, 4) has the
/// first on its left and the second on its right: it separates them. The same edge from (0, 4) to
/// (4, 0) has the first on its right: it does not separate them in this order.
pub fn two_triangles_apart_by_an_edge()
    ensures boxes { are_apart (triangle 0 0 4 0 0 4) (triangle 4 0 4 4 0 4) ≡ false }
    ensures edge { Separates (corner 4 0, corner 0 4) (triangle 0 0 4 0 0 4)
        (triangle 4 0 4 4 0 4) }
    ensures other_way { Separates (corner 0 4, corner 4 0) (triangle 0 0 4 0 0 4)
        (triangle 4 0 4 4 0 4) → ⊥ }
{}

/// Two triangles that overlap: the same edge does not separate them.
pub fn two_triangles_that_overlap()
    ensures { Separates (corner 4 0, corner 0 4) (triangle 0 0 4 0 0 4) (triangle 1 1 5 1 1 5) → ⊥ }
{}

/// Two triangles, and the boxes round them only touch: the triangles are apart, and need no edge.
pub fn two_triangles_apart_by_their_boxes()
    ensures { are_apart (triangle 0 0 4 0 0 4) (triangle 4 0 8 0 4 4) ≡ true }
{}
