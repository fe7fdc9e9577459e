//! Pieces of which the parts are no cut, and that are no fans.

ghost use Rattle.std.specs.Prelude.{◌≡◌, ◌+◌, ◌<◌, ◌↔◌, All, IfOk, IsFalse, IsTrue, length, take};
ghost use Rattle.lpis_points.specs.Triangles.{IsCounterClockwise, IsFlat};
ghost use Rattle.lpis_cutter.specs.Fans.{AreFewFans, IsFan};
ghost use Rattle.lpis_cutter.specs.Refusals.{AreCutOf, HasCut, RefusalReports};
ghost use Rattle.lpis_cutter.specs.private.Cutting.{FindsUncut, HasCutAt, HaveCuts, IsNoFanAt};
ghost use Rattle.lpis_cutter.specs.private.Cutting.{ReportsIfAny};

use crate::fans::is_fan;
use crate::fault::Refusal;
use crate::parts::Parts;
use lpis_edge_sums::{EdgeSum, are_flat, has_corners};
use lpis_points::{Triangle, is_ccw};
use lpis_release::Release;
use lpis_rings::Polygon;
use lpis_tables::Piece;
use std::alloc::{AllocError, Global};

/// Whether each triangle is counter-clockwise.
fn are_turned(triangles: &[Triangle]) -> bool
    ensures { IsTrue result ↔ All IsCounterClockwise triangles.now }
{
    triangles.iter().all(|t| is_ccw(t))
}

/// Whether there are triangles, each counter-clockwise, and flats that are flat.
fn are_right(triangles: &[Triangle], flats: &[Triangle]) -> bool
    ensures some { IsTrue result → 0 < length triangles.now }
    ensures turned { IsTrue result → All IsCounterClockwise triangles.now }
    ensures flat { IsTrue result → All IsFlat flats.now }
{
    !triangles.is_empty() && are_turned(triangles) && are_flat(flats)
}

/// Whether triangles and flats are a cut of a polygon.
fn are_cut_of(
    alloc: Global,
    sum: &mut EdgeSum,
    polygon: &Polygon,
    triangles: &[Triangle],
    flats: &[Triangle],
) -> Result<bool, AllocError>
    ensures { IfOk result (λ b. IsTrue b → AreCutOf polygon.now triangles.now flats.now) }
{
    let has_edges = sum.is_cut(polygon, triangles, flats)?;
    let is_there = has_corners(alloc, polygon, triangles, flats)?;
    Ok(has_edges && is_there && are_right(triangles, flats))
}

/// Whether a piece has a cut: these triangles and flats, or those round its first point.
fn has_cut(
    alloc: Global,
    sum: &mut EdgeSum,
    piece: &Piece,
    own: (&[Triangle], &[Triangle]),
) -> Result<bool, AllocError>
    ensures cut { IfOk result (λ b. IsTrue b → HasCut piece.now) }
    ensures none { IfOk result (λ b. IsFalse b → IsFan piece.now.polygon → ⊥) }
{
    if are_cut_of(alloc, sum, &piece.polygon, own.0, own.1)? {
        return Ok(true);
    }
    is_fan(alloc, &piece.polygon)
}

/// The same of the piece at an index, where there is one.
fn has_cut_at(
    alloc: Global,
    sum: &mut EdgeSum,
    release: &Release,
    index: usize,
    own: (&[Triangle], &[Triangle]),
) -> Result<bool, AllocError>
    ensures cut { IfOk result (λ b. IsTrue b → HasCutAt release.now index) }
    ensures none { IfOk result (λ b. IsFalse b → IsNoFanAt release.now index) }
{
    match release.pieces().get(index) {
        Some(piece) => has_cut(alloc, sum, piece, own),
        None => Ok(true),
    }
}

/// The first of so many pieces of which the parts are no cut, and which is no fan.
fn first_uncut(
    alloc: Global,
    release: &Release,
    parts: &Parts,
    count: usize,
) -> Result<Option<usize>, AllocError>
    ensures { IfOk result (FindsUncut release.now count) }
{
    let mut sum = EdgeSum::new(alloc);
    let mut walk = parts.of_pieces();
    for index in 0..count {
        let own = walk.next_part();
        if !has_cut_at(alloc, &mut sum, release, index, own)? {
            return Ok(Some(index));
        }
    }
    Ok(None)
}

/// That each piece before the one at an index has a cut, while these and that one are not few fans.
fn no_cut(release: &Release, index: usize) -> Result<Refusal, AllocError>
    requires within { index < length release.now.pieces }
    requires before { HaveCuts release.now index }
    requires uncut { AreFewFans (take (index + 1) release.now.pieces) → ⊥ }
    ensures { IfOk result (RefusalReports release.now) }
{
    let piece = release.pieces()[index].id.copy()?;
    Ok(Refusal::NoCut { piece })
}

/// The same of one that is no fan.
fn no_cut_of_fan(release: &Release, index: usize) -> Result<Refusal, AllocError>
    requires before { HaveCuts release.now index }
    requires none { IsNoFanAt release.now index }
    ensures { IfOk result (RefusalReports release.now) }
{
    no_cut(release, index)
}

/// The first piece of which the parts are no cut and that is no fan, or else the one at an index,
/// of which no cut was found that fits.
pub(crate) fn refusal_of_piece(
    alloc: Global,
    release: &Release,
    parts: &Parts,
    index: usize,
) -> Result<Refusal, AllocError>
    requires within { index < length release.now.pieces }
    requires uncut { AreFewFans (take (index + 1) release.now.pieces) → ⊥ }
    ensures { IfOk result (RefusalReports release.now) }
{
    match first_uncut(alloc, release, parts, index)? {
        Some(earlier) => no_cut_of_fan(release, earlier),
        None => no_cut(release, index),
    }
}

/// The first of all pieces of which the parts are no cut, and which is no fan, where there is one.
pub(crate) fn uncut_piece(
    alloc: Global,
    release: &Release,
    parts: &Parts,
) -> Result<Option<Refusal>, AllocError>
    ensures { IfOk result (ReportsIfAny release.now) }
{
    match first_uncut(alloc, release, parts, release.pieces().len())? {
        Some(index) => Ok(Some(no_cut_of_fan(release, index)?)),
        None => Ok(None),
    }
}
