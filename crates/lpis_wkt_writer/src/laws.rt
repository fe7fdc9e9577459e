//! Laws of the definitions: functions that do nothing, and whose contracts say them. What they call
//! are laws that theirs follow from.

ghost use Rattle.std.specs.Prelude.{◌≡◌, List, Ok};
ghost use Rattle.lpis_rings.specs.Polygon.{IsPolygon};
ghost use Rattle.lpis_rings.specs.declared.polygon.Member.{Member};
ghost use Rattle.lpis_wkt.specs.Answer.{polygon_of};
ghost use Rattle.lpis_wkt.specs.Text.{PolygonText};
ghost use Rattle.lpis_wkt_writer.specs.Text.{HaveRings, polygon_text};

use lpis_wkt::laws::{function_of_text, one_answer};

/// The text of a polygon spells it: the grammar reads its members, and as a function of the text
/// the answer is they.
pub fn a_text_spells_its_polygon()
    ensures spells { (members : List Member) → IsPolygon members → HaveRings members
        → PolygonText (polygon_text members) members }
    ensures says { (members : List Member) → IsPolygon members → HaveRings members
        → polygon_of (polygon_text members) ≡ Ok members }
{
    function_of_text()
}

/// Two polygons with the same text are the same.
pub fn a_text_is_of_one_polygon()
    ensures { (members members' : List Member) → IsPolygon members → HaveRings members
        → IsPolygon members' → HaveRings members' → polygon_text members ≡ polygon_text members'
        → members ≡ members' }
{
    one_answer()
}
