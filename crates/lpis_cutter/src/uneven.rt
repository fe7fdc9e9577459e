//! Parcels that are not even, and that the flats of their parts do not make up.

ghost use Rattle.std.specs.Prelude.{◌≡◌, ◌↔◌, ◌<◌, IfOk, IsFalse, IsTrue, length};
ghost use Rattle.lpis_edge_sums.specs.Making.{EdgesCancel, FlatsHaveCorners, polygons};
ghost use Rattle.lpis_release.specs.Release.{pieces_named};
ghost use Rattle.lpis_checker.specs.GoodCertificate.{polygons_of};
ghost use Rattle.lpis_cutter.specs.Refusals.{AreFlatsOf, IsEven, IsMadeUp};
ghost use Rattle.lpis_cutter.specs.private.Cutting.{AreMadeUp, FindsUneven, IsMadeUpAt};
ghost use Rattle.lpis_cutter.specs.private.Cutting.{IsUnevenAt, ReportsIfAny};

use crate::fault::Refusal;
use crate::parts::Parts;
use lpis_edge_sums::{EdgeSum, are_flat, flats_have_corners};
use lpis_points::Triangle;
use lpis_release::{Parcel, PiecesOf, Release, pieces_of};
use lpis_rings::Polygon;
use std::alloc::{AllocError, Global};

/// The polygons of pieces.
fn polygons_in<'a>(alloc: Global, pieces: PiecesOf<'a>) -> Result<Vec<&'a Polygon>, AllocError>
    ensures { IfOk result (λ v. polygons v.items ≡ polygons_of pieces.entry) }
{
    let mut polygons = Vec::new(alloc);
    for piece in pieces {
        polygons.push(&piece.polygon)?;
    }
    Ok(polygons)
}

/// Whether each corner of flats is a point of a parcel's rings or of those of its pieces.
fn have_corners(
    alloc: Global,
    release: &Release,
    parcel: &Parcel,
    parts: &[&Polygon],
    flats: &[Triangle],
) -> Result<bool, AllocError>
    requires { polygons parts.now ≡ polygons_of (pieces_named release.now parcel.now.id) }
    ensures { IfOk result (λ b. IsTrue b ↔ FlatsHaveCorners parcel.now.polygon
        (polygons_of (pieces_named release.now parcel.now.id)) flats.now) }
{
    flats_have_corners(alloc, &parcel.polygon, parts, flats)
}

/// Whether a parcel's edges have the net counts of those of its pieces and of flats.
fn do_cancel(
    sum: &mut EdgeSum,
    release: &Release,
    parcel: &Parcel,
    parts: &[&Polygon],
    flats: &[Triangle],
) -> Result<bool, AllocError>
    requires { polygons parts.now ≡ polygons_of (pieces_named release.now parcel.now.id) }
    ensures { IfOk result (λ b. IsTrue b ↔ EdgesCancel parcel.now.polygon
        (polygons_of (pieces_named release.now parcel.now.id)) flats.now) }
{
    sum.cancels(&parcel.polygon, parts, flats)
}

/// Whether flats add corners so that pieces make up a parcel.
fn are_flats_of(
    alloc: Global,
    sum: &mut EdgeSum,
    release: &Release,
    parcel: &Parcel,
    parts: &[&Polygon],
    flats: &[Triangle],
) -> Result<bool, AllocError>
    requires { polygons parts.now ≡ polygons_of (pieces_named release.now parcel.now.id) }
    ensures { IfOk result (λ b. IsTrue b → AreFlatsOf release.now parcel.now flats.now) }
{
    let is_there = have_corners(alloc, release, parcel, parts, flats)?;
    let cancels = do_cancel(sum, release, parcel, parts, flats)?;
    Ok(cancels && is_there && are_flat(flats))
}

/// Whether a parcel's edges have the net counts of those of its pieces.
fn is_even(
    sum: &mut EdgeSum,
    release: &Release,
    parcel: &Parcel,
    parts: &[&Polygon],
) -> Result<bool, AllocError>
    requires { polygons parts.now ≡ polygons_of (pieces_named release.now parcel.now.id) }
    ensures { IfOk result (λ b. IsTrue b ↔ IsEven release.now parcel.now) }
{
    do_cancel(sum, release, parcel, parts, &[])
}

/// Whether a parcel is made up by the polygons of its pieces, with these flats or without.
fn do_make_up(
    alloc: Global,
    sum: &mut EdgeSum,
    release: &Release,
    parcel: &Parcel,
    parts: &[&Polygon],
    flats: &[Triangle],
) -> Result<bool, AllocError>
    requires { polygons parts.now ≡ polygons_of (pieces_named release.now parcel.now.id) }
    ensures made { IfOk result (λ b. IsTrue b → IsMadeUp release.now parcel.now) }
    ensures uneven { IfOk result (λ b. IsFalse b → IsEven release.now parcel.now → ⊥) }
{
    if are_flats_of(alloc, sum, release, parcel, parts, flats)? {
        return Ok(true);
    }
    is_even(sum, release, parcel, parts)
}

/// The same by its pieces.
fn is_made_up(
    alloc: Global,
    sum: &mut EdgeSum,
    release: &Release,
    parcel: &Parcel,
    flats: &[Triangle],
) -> Result<bool, AllocError>
    ensures made { IfOk result (λ b. IsTrue b → IsMadeUp release.now parcel.now) }
    ensures uneven { IfOk result (λ b. IsFalse b → IsEven release.now parcel.now → ⊥) }
{
    let polygons = polygons_in(alloc, pieces_of(release, &parcel.id))?;
    do_make_up(alloc, sum, release, parcel, polygons.as_slice(), flats)
}

/// The same of the parcel at an index, where there is one.
fn is_made_up_at(
    alloc: Global,
    sum: &mut EdgeSum,
    release: &Release,
    index: usize,
    flats: &[Triangle],
) -> Result<bool, AllocError>
    ensures made { IfOk result (λ b. IsTrue b → IsMadeUpAt release.now index) }
    ensures uneven { IfOk result (λ b. IsFalse b → IsUnevenAt release.now index) }
{
    match release.parcels().get(index) {
        Some(parcel) => is_made_up(alloc, sum, release, parcel, flats),
        None => Ok(true),
    }
}

/// The first parcel that is not even, and that the flats of its part do not make up.
fn first_uneven(
    alloc: Global,
    release: &Release,
    parts: &Parts,
) -> Result<Option<usize>, AllocError>
    ensures { IfOk result (FindsUneven release.now) }
{
    let mut sum = EdgeSum::new(alloc);
    let mut walk = parts.of_parcels();
    for index in 0..release.parcels().len() {
        let (_, flats) = walk.next_part();
        if !is_made_up_at(alloc, &mut sum, release, index, flats)? {
            return Ok(Some(index));
        }
    }
    Ok(None)
}

/// That the parcel at an index is not even, while each before it is made up.
fn no_flats(release: &Release, index: usize) -> Result<Option<Refusal>, AllocError>
    requires within { index < length release.now.parcels }
    requires before { AreMadeUp release.now index }
    requires uneven { IsUnevenAt release.now index }
    ensures { IfOk result (ReportsIfAny release.now) }
{
    let parcel = release.parcels()[index].id.copy()?;
    Ok(Some(Refusal::NoFlats { parcel }))
}

/// That of the first parcel that is not even and that the flats of its part do not make up.
pub(crate) fn uneven_parcel(
    alloc: Global,
    release: &Release,
    parts: &Parts,
) -> Result<Option<Refusal>, AllocError>
    ensures { IfOk result (ReportsIfAny release.now) }
{
    match first_uneven(alloc, release, parts)? {
        Some(index) => no_flats(release, index),
        None => Ok(None),
    }
}
