//! Triangles and the points inside them.

ghost use Rattle.lpis_points.specs.TriangleLaws.{ApartShareNothing, AreaIsOfItsTerms};
ghost use Rattle.lpis_points.specs.TriangleLaws.{FlatsNeverTurn, NeverTurnsOutside};
ghost use Rattle.lpis_points.specs.TriangleLaws.{SeparatedShareNothing, TurnsOnceInside};

/// A counter-clockwise triangle turns once round a point strictly left of its three edges, and
/// never elsewhere, off its lines.
pub fn triangles_turn_once()
    ensures inside { TurnsOnceInside }
    ensures outside { NeverTurnsOutside }
{}

/// A flat turns round no point off its line.
pub fn flats_never_turn()
    ensures { FlatsNeverTurn }
{}

/// Counter-clockwise triangles that are apart by their boxes, or on two sides of a line through two
/// different points, share no inner point.
pub fn triangles_keep_apart()
    ensures by_boxes { ApartShareNothing }
    ensures by_a_line { SeparatedShareNothing }
{}

/// The shoelace terms of a triangle's edges add up to twice its signed area.
pub fn an_area_is_of_its_terms()
    ensures { AreaIsOfItsTerms }
{}
