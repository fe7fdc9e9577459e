//! What every release has that is a region of a country.

ghost use Rattle.std.specs.Prelude.{◌∷◌, All};
ghost use Rattle.lpis_rings.specs.Ring.{IsRing};
ghost use Rattle.lpis_country.specs.Country.{IsRegion};
ghost use Rattle.lpis_country.specs.Polygons.{HasClosedRings};

use lpis_release::{Parcel, Release};
use lpis_rings::{Member, Polygon, Ring};

/// Rings are closed.
fn rings_are_closed(rings: &[Ring])
    ensures { All IsRing rings.now }
{
    for ring in rings {
        let _ = ring.points();
    }
}

/// So are those of a member.
fn member_is_closed(member: &Member)
    ensures { All IsRing (member.now.shell ∷ member.now.holes) }
{
    let _ = member.shell.points();
    rings_are_closed(member.holes.as_slice());
}

/// So are those of a polygon.
fn polygon_is_closed(polygon: &Polygon)
    ensures { HasClosedRings polygon.now }
{
    for member in polygon.members() {
        member_is_closed(member);
    }
}

/// So are those of parcels.
fn parcels_are_closed(parcels: &[Parcel])
    ensures { All (λ k. HasClosedRings k.polygon) parcels.now }
{
    for parcel in parcels {
        polygon_is_closed(&parcel.polygon);
    }
}

/// A release is a region: identifiers of parcels differ, pieces name parcels, and rings are closed.
pub fn is_region(release: &Release)
    ensures { IsRegion release.now }
{
    parcels_are_closed(release.parcels());
}
