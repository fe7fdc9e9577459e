//! The conditions on a parcel and its part: whether its pieces make it up, with flats.

ghost use Rattle.std.specs.Prelude.{◌≡◌, ◌↔◌, IsTrue, IfOk, Some, slice_get};
ghost use Rattle.lpis_edge_sums.specs.Making.{EdgesCancel, FlatsHaveCorners, polygons};
ghost use Rattle.lpis_checker.specs.GoodCertificate.{OnParcel, polygons_of};

use crate::condition::ParcelCondition;
use crate::pieces::is_same;
use crate::places::Places;
use lpis_cert::ParcelPart;
use lpis_edge_sums::{EdgeSum, are_flat, flats_have_corners};
use lpis_points::Triangle;
use lpis_release::{Parcel, PiecesOf, Release, pieces_at};
use lpis_rings::Polygon;
use std::alloc::{AllocError, Global};

/// The polygons of pieces.
fn polygons_in<'a>(alloc: Global, pieces: PiecesOf<'a>) -> Result<Vec<&'a Polygon>, AllocError>
    ensures { IfOk result (λ v. polygons v.items ≡ polygons_of pieces.entry) }
{
    let mut polygons = Vec::new(alloc);
    for piece in pieces {
        polygons.push(&piece.polygon)?;
    }
    Ok(polygons)
}

/// Whether each corner of flats is a point of a parcel's rings or of those of its pieces. Most
/// parcels have no flats, and take no memory.
fn has_corners_of_flats(
    alloc: Global,
    parcel: &Parcel,
    pieces: PiecesOf<'_>,
    flats: &[Triangle],
) -> Result<bool, AllocError>
    ensures { IfOk result (λ b. IsTrue b ↔ FlatsHaveCorners parcel.now.polygon
        (polygons_of pieces.entry) flats.now) }
{
    if flats.is_empty() {
        return Ok(true);
    }
    let polygons = polygons_in(alloc, pieces)?;
    flats_have_corners(alloc, &parcel.polygon, polygons.as_slice(), flats)
}

/// Whether a parcel's edges have the net counts of the edges of its pieces and flats.
fn is_filled(
    alloc: Global,
    sum: &mut EdgeSum,
    parcel: &Parcel,
    pieces: PiecesOf<'_>,
    flats: &[Triangle],
) -> Result<bool, AllocError>
    ensures { IfOk result (λ b. IsTrue b ↔ EdgesCancel parcel.now.polygon
        (polygons_of pieces.entry) flats.now) }
{
    let polygons = polygons_in(alloc, pieces)?;
    sum.cancels(&parcel.polygon, polygons.as_slice(), flats)
}

/// A condition on the parcels of a release.
#[derive(Drop)]
pub(crate) struct ParcelPlaces<'a> {
    pub release: &'a Release,
    pub condition: ParcelCondition,
}

impl<'a> Places for ParcelPlaces<'a> {
    type Item = Parcel;

    type Part = ParcelPart;

    ghost holds = { λ s x t. OnParcel s.release.now s.condition x t };

    ghost stands = { λ s k x. slice_get s.release.now.parcels k ≡ Some x };

    fn holds_of(
        &self,
        alloc: Global,
        sum: &mut EdgeSum,
        index: usize,
        parcel: &Parcel,
        part: &ParcelPart,
    ) -> Result<bool, AllocError> {
        let flats = part.flats.as_slice();
        match self.condition {
            ParcelCondition::Names => Ok(is_same(&part.id, &parcel.id)),
            ParcelCondition::Flats => Ok(are_flat(flats)),
            ParcelCondition::Corners => {
                let pieces = pieces_at(self.release, index);
                has_corners_of_flats(alloc, parcel, pieces, flats)
            }
            ParcelCondition::Edges => {
                let pieces = pieces_at(self.release, index);
                is_filled(alloc, sum, parcel, pieces, flats)
            }
        }
    }
}
