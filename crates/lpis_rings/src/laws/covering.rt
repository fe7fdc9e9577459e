//! Pieces that are cut into triangles, and parcels that are made of pieces.

ghost use Rattle.lpis_rings.specs.MapLaws.{AreaIsOfItsPieces, AreaIsOfItsTriangles, AreaIsPositive};
ghost use Rattle.lpis_rings.specs.MapLaws.{ParcelIsItsPieces, PiecesShareNothing};
ghost use Rattle.lpis_rings.specs.MapLaws.{TurnsAreOfTriangles};

/// Off the lines of its triangles and flats a piece turns round a point as often as triangles have
/// the point inside.
pub fn the_turns_of_a_piece_are_its_triangles()
    ensures { TurnsAreOfTriangles }
{}

/// Where pieces are cut into triangles that keep apart, at most one piece turns round a point, and
/// once.
pub fn pieces_share_nothing()
    ensures { PiecesShareNothing }
{}

/// Edges with the net counts of the edges of pieces and of flats turn round a point as the pieces
/// do, and have their area.
pub fn a_parcel_is_its_pieces()
    ensures turns { ParcelIsItsPieces }
    ensures area { AreaIsOfItsPieces }
{}

/// Edges that triangles and flats make up have the triangles' area, which is above 0 where there is
/// a triangle.
pub fn an_area_is_of_its_triangles()
    ensures sum { AreaIsOfItsTriangles }
    ensures positive { AreaIsPositive }
{}
