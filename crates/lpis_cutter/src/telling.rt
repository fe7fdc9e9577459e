//! Points that show a fault, each tested right before it is reported.

ghost use Rattle.std.specs.Prelude.{IfOk, IsTrue, IsFalse};
ghost use Rattle.lpis_points.specs.RatPoints.{rational_of};
ghost use Rattle.lpis_cutter.specs.Refusals.{IsCovered, IsUncovered};
ghost use Rattle.lpis_cutter.specs.private.Cutting.{ReportsIfAny};

use crate::fault::Refusal;
use lpis_points::RatPoint;
use lpis_release::{Release, pieces_of};
use lpis_rings::contains;
use lpis_tables::Id;
use std::alloc::AllocError;

/// That the pieces at two indices overlap, where both contain the point and they have two
/// identifiers.
pub(crate) fn pieces_overlap(
    release: &Release,
    i: usize,
    j: usize,
    p: &RatPoint,
) -> Result<Option<Refusal>, AllocError>
    ensures { IfOk result (ReportsIfAny release.now) }
{
    let (Some(x), Some(y)) = (release.pieces().get(i), release.pieces().get(j)) else {
        return Ok(None);
    };
    if x.id != y.id && contains(&x.polygon, p) && contains(&y.polygon, p) {
        let first = x.id.copy()?;
        let second = y.id.copy()?;
        return Ok(Some(Refusal::PiecesOverlap {
            first,
            second,
            at: *p,
        }));
    }
    Ok(None)
}

/// The same of parcels.
pub(crate) fn parcels_overlap(
    release: &Release,
    i: usize,
    j: usize,
    p: &RatPoint,
) -> Result<Option<Refusal>, AllocError>
    ensures { IfOk result (ReportsIfAny release.now) }
{
    let (Some(k), Some(m)) = (release.parcels().get(i), release.parcels().get(j)) else {
        return Ok(None);
    };
    if k.id != m.id && contains(&k.polygon, p) && contains(&m.polygon, p) {
        let first = k.id.copy()?;
        let second = m.id.copy()?;
        return Ok(Some(Refusal::ParcelsOverlap {
            first,
            second,
            at: *p,
        }));
    }
    Ok(None)
}

/// Whether a piece of the parcel contains the point.
fn is_covered(release: &Release, parcel: &Id, p: &RatPoint) -> bool
    ensures some { IsTrue result → IsCovered release.now (rational_of p.now) parcel.now }
    ensures none { IsFalse result → IsUncovered release.now (rational_of p.now) parcel.now }
{
    for piece in pieces_of(release, parcel) {
        if contains(&piece.polygon, p) {
            return true;
        }
    }
    false
}

/// That the parcel at an index and its pieces disagree at the point, where they do.
pub(crate) fn disagreement(
    release: &Release,
    index: usize,
    p: &RatPoint,
) -> Result<Option<Refusal>, AllocError>
    ensures { IfOk result (ReportsIfAny release.now) }
{
    let Some(x) = release.parcels().get(index) else {
        return Ok(None);
    };
    let inside = contains(&x.polygon, p);
    let covered = is_covered(release, &x.id, p);
    if inside == covered {
        return Ok(None);
    }
    let parcel = x.id.copy()?;
    Ok(Some(Refusal::Disagreement { parcel, at: *p }))
}
