//! Two triangles that no edge keeps apart, of parts that are right.

ghost use Rattle.std.specs.Prelude.{◌≡◌, ◌+◌, ◌<◌, false, IfOk, IfSome, IsTrue};
ghost use Rattle.lpis_points.specs.Triangles.{are_apart};
ghost use Rattle.lpis_checker.specs.FirstFault.{HoldBelow};
ghost use Rattle.lpis_checker.specs.declared.condition.Condition.TheVariants.{NearPairs};
ghost use Rattle.lpis_cutter.specs.Refusals.{NoEdgeSeparates, StandsAt};
ghost use Rattle.lpis_cutter.specs.private.Cutting.{IsStanding, ReportsIfAny};

use crate::fault::Refusal;
use crate::separator::separator;
use lpis_cert::{Cert, PiecePart};
use lpis_checker::{CheckFault, check_parts};
use lpis_points::{Triangle, apart};
use lpis_release::Release;
use lpis_tables::Id;
use std::alloc::{AllocError, Global};

/// The triangle at a place of the part at an index, and the part's identifier.
fn standing_in(parts: &[PiecePart], index: usize, place: usize) -> Option<(&Id, &Triangle)>
    ensures { IfSome result
        (λ found. IsStanding parts.now index place found.0.now found.1.now) }
{
    let part = parts.get(index)?;
    let triangle = part.triangles.as_slice().get(place)?;
    Some((&part.id, triangle))
}

/// The triangle of a number, and the identifier of its part.
pub(crate) fn standing(cert: &Cert, number: usize) -> Option<(&Id, &Triangle)>
    ensures { IfSome result
        (λ found. StandsAt cert.now.pieces number found.0.now found.1.now) }
{
    let parts = cert.pieces.as_slice();
    let mut rest = number;
    for index in 0..parts.len() {
        let own = parts[index].triangles.as_slice();
        if rest < own.len() {
            return standing_in(parts, index, rest);
        }
        rest -= own.len();
    }
    None
}

/// Whether the boxes of two triangles overlap, and no edge keeps them apart.
fn do_clash(s: &Triangle, t: &Triangle) -> bool
    ensures near { IsTrue result → are_apart s.now t.now ≡ false }
    ensures none { IsTrue result → NoEdgeSeparates s.now t.now }
{
    !apart(s, t) && separator(s, t).is_none()
}

/// That two triangles of two numbers have no separator.
fn clash(
    release: &Release,
    cert: &Cert,
    numbers: (usize, usize),
    first: (&Id, &Triangle),
    second: (&Id, &Triangle),
) -> Result<Option<Refusal>, AllocError>
    requires parts { HoldBelow release.now cert.now NearPairs }
    requires two { numbers.0 < numbers.1 }
    requires of_first { StandsAt cert.now.pieces numbers.0 first.0.now first.1.now }
    requires of_second { StandsAt cert.now.pieces numbers.1 second.0.now second.1.now }
    requires near { are_apart first.1.now second.1.now ≡ false }
    requires none { NoEdgeSeparates first.1.now second.1.now }
    ensures { IfOk result (ReportsIfAny release.now) }
{
    let left = first.0.copy()?;
    let right = second.0.copy()?;
    Ok(Some(Refusal::NoSeparator {
        first: left,
        second: right,
    }))
}

/// That the triangles of two numbers have no separator, where they have none.
fn clash_of(
    release: &Release,
    cert: &Cert,
    i: usize,
    j: usize,
) -> Result<Option<Refusal>, AllocError>
    requires { HoldBelow release.now cert.now NearPairs }
    ensures { IfOk result (ReportsIfAny release.now) }
{
    let (Some(first), Some(second)) = (standing(cert, i), standing(cert, j)) else {
        return Ok(None);
    };
    if i >= j {
        return Ok(None);
    }
    if !do_clash(first.1, second.1) {
        return Ok(None);
    }
    clash(release, cert, (i, j), first, second)
}

/// Whether parts and pair lines pass the check of parts.
pub(crate) fn do_parts_pass(
    alloc: Global,
    release: &Release,
    cert: &Cert,
) -> Result<bool, AllocError>
    ensures { IfOk result (λ b. IsTrue b → HoldBelow release.now cert.now NearPairs) }
{
    match check_parts(alloc, release, cert) {
        Ok(()) => Ok(true),
        Err(CheckFault::Memory) => Err(AllocError),
        Err(_fault) => Ok(false),
    }
}

/// The same where the parts pass the check of parts. A certificate whose parts do not is written as
/// it is: the check names what fails.
pub(crate) fn unseparated(
    alloc: Global,
    release: &Release,
    cert: &Cert,
    i: usize,
    j: usize,
) -> Result<Option<Refusal>, AllocError>
    ensures { IfOk result (ReportsIfAny release.now) }
{
    if do_parts_pass(alloc, release, cert)? {
        return clash_of(release, cert, i, j);
    }
    Ok(None)
}
