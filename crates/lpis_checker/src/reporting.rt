//! What is reported of a site at which a condition fails.

ghost use Rattle.std.specs.Prelude.{◌≡◌, IfOk};
ghost use Rattle.lpis_checker.specs.FirstFault.{location_of};
ghost use Rattle.lpis_checker.specs.GoodCertificate.{ConditionHolds};
ghost use Rattle.lpis_checker.specs.private.Searches.{IsFaultAt};

use crate::condition::Site;
use crate::fault::{CheckFault, Location};
use lpis_cert::Cert;
use lpis_release::Release;
use std::alloc::AllocError;

/// The location of a site: of a piece or a parcel its identifier in the certificate, or the
/// release's where the certificate's list has ended.
fn located(release: &Release, cert: &Cert, at: Site) -> Result<Location, AllocError>
    requires { ConditionHolds release.now cert.now at → ⊥ }
    ensures { IfOk result (λ place. place ≡ location_of release.now cert.now at) }
{
    match at {
        Site::Piece(_, index) => {
            match (
                cert.pieces.as_slice().get(index),
                release.pieces().get(index),
            ) {
                (Some(part), _) => Ok(Location::Piece(part.id.copy()?)),
                (None, Some(piece)) => Ok(Location::Piece(piece.id.copy()?)),
                (None, None) => unreachable!(),
            }
        }
        Site::Parcel(_, index) => {
            match (
                cert.parcels.as_slice().get(index),
                release.parcels().get(index),
            ) {
                (Some(part), _) => Ok(Location::Parcel(part.id.copy()?)),
                (None, Some(parcel)) => Ok(Location::Parcel(parcel.id.copy()?)),
                (None, None) => unreachable!(),
            }
        }
        Site::Order(index) | Site::Line(_, index) => match cert.pairs.as_slice().get(index) {
            Some(line) => Ok(Location::Pair(line.i, line.j)),
            None => unreachable!(),
        },
        Site::Pair(i, j) => Ok(Location::Pair(i, j)),
    }
}

/// What is reported of a site at which its condition fails.
pub(crate) fn reported(release: &Release, cert: &Cert, at: Site) -> Result<CheckFault, AllocError>
    requires { ConditionHolds release.now cert.now at → ⊥ }
    ensures { IfOk result (IsFaultAt release.now cert.now at) }
{
    let place = located(release, cert, at)?;
    Ok(CheckFault::At {
        code: at.condition(),
        place,
    })
}
