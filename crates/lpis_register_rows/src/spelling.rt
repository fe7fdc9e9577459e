//! Every polygon has a text that spells it. Nothing is written here.

ghost use Rattle.std.specs.Prelude.{All};
ghost use Rattle.lpis_rings.specs.Ring.{IsRing};
ghost use Rattle.lpis_wkt.specs.Text.{PolygonText};
ghost use Rattle.lpis_wkt_writer.specs.Text.{HasRings, HaveRings, polygon_text};

use lpis_rings::{Member, Polygon, Ring};
use lpis_wkt_writer::laws::a_text_spells_its_polygon;

/// Rings are rings.
fn are_rings(rings: &[Ring])
    ensures { All IsRing rings.now }
{
    for ring in rings {
        let _ = ring.points();
    }
}

/// So are those of a member.
fn has_rings(member: &Member)
    ensures { HasRings member.now }
{
    let _ = member.shell.points();
    are_rings(member.holes.as_slice());
}

/// So are those of members.
fn have_rings(members: &[Member])
    ensures { HaveRings members.now }
{
    for member in members {
        has_rings(member);
    }
}

/// The text of a polygon spells it.
pub(crate) fn has_text(polygon: &Polygon)
    ensures { PolygonText (polygon_text polygon.now) polygon.now }
{
    a_text_spells_its_polygon();
    have_rings(polygon.members());
}
