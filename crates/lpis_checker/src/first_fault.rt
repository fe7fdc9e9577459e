//! The fault that is reported: the first place of the lowest code that fails.

ghost use Rattle.std.specs.Prelude.{◌≡◌, ◌+◌, ◌≤◌, ◌++◌, IfOk, IsTrue, OnOk, length};
ghost use Rattle.lpis_points.specs.Triangles.{most_triangles};
ghost use Rattle.lpis_pairs.specs.NearPairs.{IsNearList, seen};
ghost use Rattle.lpis_checker.specs.GoodCertificate.{triangles_of};
ghost use Rattle.lpis_checker.specs.private.Naming.{AreAsMany};
ghost use Rattle.lpis_checker.specs.private.Searches.{FindsPlace, FindsUntil, HoldUntil};
ghost use Rattle.lpis_checker.specs.private.Searches.{all_searches, part_searches, search_of};
ghost use Rattle.lpis_checker.specs.declared.condition.Site.TheVariants.{Line, Order, Parcel};
ghost use Rattle.lpis_checker.specs.declared.condition.Site.TheVariants.{Piece};

use crate::condition::{LineCondition, ParcelCondition, PieceCondition, Site};
use crate::lines::{are_lines_good, disordered_line, first_line, triangle_count};
use crate::near_pairs::unnamed_pair;
use crate::parcels::ParcelPlaces;
use crate::places::first_place;
use lpis_cert::Cert;
use lpis_pairs::PairSource;
use lpis_points::Triangle;
use lpis_release::Release;
use std::alloc::{AllocError, Global};

/// The first piece at which a condition fails.
fn failing_piece(
    alloc: Global,
    release: &Release,
    cert: &Cert,
    condition: PieceCondition,
) -> Result<Option<Site>, AllocError>
    requires { HoldUntil release.now cert.now (search_of (Piece condition 0)) }
    ensures { IfOk result (FindsUntil release.now cert.now (search_of (Piece condition 0) + 1)) }
{
    match first_place(alloc, &condition, release.pieces(), cert.pieces.as_slice())? {
        Some(index) => Ok(Some(Site::Piece(condition, index))),
        None => Ok(None),
    }
}

/// The first parcel at which a condition fails.
fn failing_parcel(
    alloc: Global,
    release: &Release,
    cert: &Cert,
    condition: ParcelCondition,
) -> Result<Option<Site>, AllocError>
    requires { HoldUntil release.now cert.now (search_of (Parcel condition 0)) }
    ensures { IfOk result (FindsUntil release.now cert.now (search_of (Parcel condition 0) + 1)) }
{
    let places = ParcelPlaces { release, condition };
    match first_place(alloc, &places, release.parcels(), cert.parcels.as_slice())? {
        Some(index) => Ok(Some(Site::Parcel(condition, index))),
        None => Ok(None),
    }
}

/// The first pair line that is out of order.
fn failing_order(release: &Release, cert: &Cert) -> Option<Site>
    requires { HoldUntil release.now cert.now (search_of (Order 0)) }
    ensures { FindsUntil release.now cert.now (search_of (Order 0) + 1) result }
{
    let index = disordered_line(cert)?;
    Some(Site::Order(index))
}

/// The first near pair that no line names.
fn failing_pair(
    release: &Release,
    cert: &Cert,
    triangles: &[Triangle],
    near: &[(u32, u32)],
) -> Option<Site>
    requires parts { HoldUntil release.now cert.now part_searches }
    requires numbered { triangles.now ≡ triangles_of cert.now.pieces }
    requires near { IsNearList triangles.now near.now }
    ensures { FindsUntil release.now cert.now (part_searches + 1) result }
{
    match unnamed_pair(release, cert, triangles, near) {
        Some((i, j)) => Some(Site::Pair(i, j)),
        None => None,
    }
}

/// The first pair line at which a condition on its triangles fails.
fn failing_line(
    release: &Release,
    cert: &Cert,
    triangles: &[Triangle],
    condition: LineCondition,
) -> Option<Site>
    requires below { HoldUntil release.now cert.now (search_of (Line condition 0)) }
    requires numbered { triangles.now ≡ triangles_of cert.now.pieces }
    ensures { FindsUntil release.now cert.now (search_of (Line condition 0) + 1) result }
{
    let index = first_line(cert, triangles, condition)?;
    Some(Site::Line(condition, index))
}

/// The first part with another name than its piece or parcel, or the first pair line that is out of
/// order.
fn name_fault(alloc: Global, release: &Release, cert: &Cert) -> Result<Option<Site>, AllocError>
    ensures { IfOk result (FindsUntil release.now cert.now (search_of (Order 0) + 1)) }
{
    if let Some(found) = failing_piece(alloc, release, cert, PieceCondition::Names)? {
        return Ok(Some(found));
    }
    if let Some(found) = failing_parcel(alloc, release, cert, ParcelCondition::Names)? {
        return Ok(Some(found));
    }
    Ok(failing_order(release, cert))
}

/// The fault of the lowest code, where it is one of the parts, and not of pairs of triangles.
pub(crate) fn part_fault(
    alloc: Global,
    release: &Release,
    cert: &Cert,
) -> Result<Option<Site>, AllocError>
    ensures { IfOk result (FindsUntil release.now cert.now part_searches) }
{
    if let Some(found) = name_fault(alloc, release, cert)? {
        return Ok(Some(found));
    }
    if let Some(found) = failing_piece(alloc, release, cert, PieceCondition::Triangles)? {
        return Ok(Some(found));
    }
    if let Some(found) = failing_piece(alloc, release, cert, PieceCondition::CounterClockwise)? {
        return Ok(Some(found));
    }
    if let Some(found) = failing_piece(alloc, release, cert, PieceCondition::Flats)? {
        return Ok(Some(found));
    }
    if let Some(found) = failing_parcel(alloc, release, cert, ParcelCondition::Flats)? {
        return Ok(Some(found));
    }
    if let Some(found) = failing_piece(alloc, release, cert, PieceCondition::Corners)? {
        return Ok(Some(found));
    }
    if let Some(found) = failing_parcel(alloc, release, cert, ParcelCondition::Corners)? {
        return Ok(Some(found));
    }
    if let Some(found) = failing_piece(alloc, release, cert, PieceCondition::Edges)? {
        return Ok(Some(found));
    }
    failing_parcel(alloc, release, cert, ParcelCondition::Edges)
}

/// The fault of the lowest code, where it is none of the parts: the near pairs are listed.
fn listed_fault(
    release: &Release,
    cert: &Cert,
    triangles: &[Triangle],
    near: &[(u32, u32)],
) -> Option<Site>
    requires parts { HoldUntil release.now cert.now part_searches }
    requires numbered { triangles.now ≡ triangles_of cert.now.pieces }
    requires near { IsNearList triangles.now near.now }
    ensures { FindsUntil release.now cert.now all_searches result }
{
    if let Some(found) = failing_pair(release, cert, triangles, near) {
        return Some(found);
    }
    if let Some(found) = failing_line(release, cert, triangles, LineCondition::NotApart) {
        return Some(found);
    }
    failing_line(release, cert, triangles, LineCondition::Separating)
}

/// Whether the pair lines are as many as the near pairs that a source counts.
fn are_as_many<S: PairSource>(
    alloc: Global,
    cert: &Cert,
    triangles: &[&Triangle],
    source: &S,
) -> Result<bool, AllocError>
    requires { length triangles.now ≤ most_triangles }
    ensures { IfOk result (λ b. IsTrue b → AreAsMany cert.now (seen triangles.now)) }
{
    let lines = cert.pairs.as_slice().len();
    match source.count(alloc, triangles, lines)? {
        Some(count) => Ok(count == lines),
        None => Ok(false),
    }
}

/// Whether no pair of triangles has a fault, which is found without a list of the near pairs. False
/// says nothing.
fn are_pairs_good<S: PairSource>(
    alloc: Global,
    release: &Release,
    cert: &Cert,
    source: &S,
) -> Result<bool, AllocError>
    requires { HoldUntil release.now cert.now part_searches }
    ensures { IfOk result (λ b. IsTrue b → HoldUntil release.now cert.now all_searches) }
{
    let triangles = referred(alloc, cert)?;
    if !are_lines_good(cert, triangles.as_slice()) {
        return Ok(false);
    }
    let as_many = are_as_many(alloc, cert, triangles.as_slice(), source)?;
    Ok(as_many)
}

/// The fault of the lowest code, where it is none of the parts, by a list of the near pairs.
fn pair_fault<S: PairSource>(
    alloc: Global,
    release: &Release,
    cert: &Cert,
    source: &S,
) -> Result<Option<Site>, AllocError>
    requires { HoldUntil release.now cert.now part_searches }
    ensures { IfOk result (FindsUntil release.now cert.now all_searches) }
{
    let triangles = numbered(alloc, cert)?;
    let near = source.pairs(alloc, triangles.as_slice())?;
    Ok(listed_fault(release, cert, triangles.as_slice(), near.as_slice()))
}

/// The triangles of a certificate, in the order of their numbers.
fn numbered(alloc: Global, cert: &Cert) -> Result<Vec<Triangle>, AllocError>
    ensures { IfOk result (λ v. v.items ≡ triangles_of cert.now.pieces) }
{
    let mut triangles = Vec::with_capacity(alloc, triangle_count(cert))?;
    for part in cert.pieces.as_slice() {
        triangles.extend_from_slice(part.triangles.as_slice())?;
    }
    Ok(triangles)
}

/// Adds references to triangles.
fn add_references<'a>(
    references: &mut Vec<&'a Triangle>,
    triangles: &'a [Triangle],
) -> Result<(), AllocError>
    ensures { OnOk result (seen references.new.items
        ≡ seen references.old.items ++ triangles.now) }
{
    for triangle in triangles {
        references.push(triangle)?;
    }
    Ok(())
}

/// References to the triangles of a certificate, in the order of their numbers.
fn referred<'a>(alloc: Global, cert: &'a Cert) -> Result<Vec<&'a Triangle>, AllocError>
    ensures { IfOk result (λ v. seen v.items ≡ triangles_of cert.now.pieces) }
{
    let mut references = Vec::with_capacity(alloc, triangle_count(cert))?;
    for part in cert.pieces.as_slice() {
        add_references(&mut references, part.triangles.as_slice())?;
    }
    Ok(references)
}

/// The fault of the lowest code. The near pairs are listed only where a line has a fault, or one of
/// them has no line.
pub(crate) fn first_fault<S: PairSource>(
    alloc: Global,
    release: &Release,
    cert: &Cert,
    source: &S,
) -> Result<Option<Site>, AllocError>
    ensures { IfOk result (FindsUntil release.now cert.now all_searches) }
{
    if let Some(found) = part_fault(alloc, release, cert)? {
        return Ok(Some(found));
    }
    if are_pairs_good(alloc, release, cert, source)? {
        return Ok(None);
    }
    pair_fault(alloc, release, cert, source)
}
