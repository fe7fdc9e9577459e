//! What is summed over the edges of a polygon.

ghost use Rattle.lpis_rings.specs.MapLaws.{AreaIsOfItsEdges, ContainsByOddTurns, ContainsByOneTurn};

/// A polygon contains a point exactly where its turns round the point are odd, since every crossing
/// other than 0 is 1 or -1.
pub fn containment_is_the_parity_of_turns()
    ensures odd { ContainsByOddTurns }
    ensures one { ContainsByOneTurn }
{}

/// The doubled area of a polygon is the sum of the shoelace terms of its edges in normal
/// orientation.
pub fn an_area_is_of_its_edges()
    ensures { AreaIsOfItsEdges }
{}
