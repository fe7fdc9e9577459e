//! More near pairs than a certificate has.

ghost use Rattle.std.specs.Prelude.{◌≡◌, All, IfOk, IsTrue, Some, slice_get};
ghost use Rattle.lpis_checker.specs.FirstFault.{HoldBelow};
ghost use Rattle.lpis_checker.specs.GoodCertificate.{triangles_of};
ghost use Rattle.lpis_checker.specs.declared.condition.Condition.TheVariants.{NearPairs};
ghost use Rattle.lpis_cutter.specs.Refusals.{NamesNear, StandsAt, most_pairs};
ghost use Rattle.lpis_cutter.specs.private.Cutting.{ReportsIfAny};

use crate::fault::Refusal;
use crate::unseparated::{do_parts_pass, standing};
use lpis_cert::{Cert, PairLine};
use lpis_points::{Triangle, apart};
use lpis_release::Release;
use lpis_tables::Id;
use std::alloc::{AllocError, Global};

/// The most near pairs of a certificate that is made. Its text is then shorter than the gibibyte
/// that is read of an input, with the most triangles, flats and rows, and with the longest numbers
/// and identifiers: 20 bytes a pair, 80 a triangle or flat, 64 a row.
pub(crate) const MOST_PAIRS: usize = 32_000_000;

/// Whether these are more pairs than a certificate has, so that no more are gathered.
pub(crate) fn are_too_many(pairs: &[(u32, u32)]) -> bool {
    pairs.len() > MOST_PAIRS
}

/// The triangles of a certificate, in the order of their numbers.
fn triangles_in(alloc: Global, cert: &Cert) -> Result<Vec<Triangle>, AllocError>
    ensures { IfOk result (λ v. v.items ≡ triangles_of cert.now.pieces) }
{
    let mut triangles = Vec::new(alloc);
    for part in cert.pieces.as_slice() {
        triangles.extend_from_slice(part.triangles.as_slice())?;
    }
    Ok(triangles)
}

/// Whether a pair line names two near triangles.
fn names_near(triangles: &[Triangle], line: &PairLine) -> bool
    ensures { IsTrue result → NamesNear triangles.now line.now }
{
    match (
        triangles.get(line.i as usize),
        triangles.get(line.j as usize),
    ) {
        (Some(first), Some(second)) => !apart(first, second),
        _ => false,
    }
}

/// Whether each pair line of a certificate names two near triangles.
fn name_near(cert: &Cert, triangles: &[Triangle]) -> bool
    ensures { IsTrue result → All (NamesNear triangles.now) cert.now.pairs }
{
    cert.pairs
        .as_slice()
        .iter()
        .all(|line| names_near(triangles, line))
}

/// The same, by their numbers in the certificate.
fn are_lines_near(alloc: Global, cert: &Cert) -> Result<bool, AllocError>
    ensures { IfOk result (λ b. IsTrue b
        → All (NamesNear (triangles_of cert.now.pieces)) cert.now.pairs) }
{
    let triangles = triangles_in(alloc, cert)?;
    Ok(name_near(cert, &triangles))
}

/// That a near pair stands behind as many as a certificate has.
fn crowd(
    release: &Release,
    cert: &Cert,
    line: &PairLine,
    first: (&Id, &Triangle),
    second: (&Id, &Triangle),
) -> Result<Option<Refusal>, AllocError>
    requires parts { HoldBelow release.now cert.now NearPairs }
    requires near { All (NamesNear (triangles_of cert.now.pieces)) cert.now.pairs }
    requires at { slice_get cert.now.pairs most_pairs ≡ Some line.now }
    requires of_first { StandsAt cert.now.pieces line.now.i first.0.now first.1.now }
    requires of_second { StandsAt cert.now.pieces line.now.j second.0.now second.1.now }
    ensures { IfOk result (ReportsIfAny release.now) }
{
    let left = first.0.copy()?;
    let right = second.0.copy()?;
    Ok(Some(Refusal::NoSeparator {
        first: left,
        second: right,
    }))
}

/// The pair behind as many as a certificate has, where there is one.
fn crowd_of(release: &Release, cert: &Cert) -> Result<Option<Refusal>, AllocError>
    requires parts { HoldBelow release.now cert.now NearPairs }
    requires near { All (NamesNear (triangles_of cert.now.pieces)) cert.now.pairs }
    ensures { IfOk result (ReportsIfAny release.now) }
{
    let Some(line) = cert.pairs.as_slice().get(MOST_PAIRS) else {
        return Ok(None);
    };
    let (Some(first), Some(second)) = (
        standing(cert, line.i as usize),
        standing(cert, line.j as usize),
    ) else {
        return Ok(None);
    };
    crowd(release, cert, line, first, second)
}

/// The same where the parts pass the check of parts, by which pair lines ascend. A certificate
/// whose parts do not is written without pair lines: the check names what fails.
pub(crate) fn crowded(
    alloc: Global,
    release: &Release,
    cert: &Cert,
) -> Result<Option<Refusal>, AllocError>
    ensures { IfOk result (ReportsIfAny release.now) }
{
    if do_parts_pass(alloc, release, cert)? && are_lines_near(alloc, cert)? {
        return crowd_of(release, cert);
    }
    Ok(None)
}
