//! The check, and the yes that it gives.

ghost use Rattle.std.specs.Prelude.{◌≡◌, IfErr, IfOk, OnOk};
ghost use Rattle.lpis_checker.specs.FirstFault.{HoldBelow, IsOfParts, ReportsFirst};
ghost use Rattle.lpis_checker.specs.GoodCertificate.{IsGood};
ghost use Rattle.lpis_checker.specs.SoundMap.{AreasAdd, IsSoundMap};
ghost use Rattle.lpis_checker.specs.TurnsAdd.{TurnsAdd};
ghost use Rattle.lpis_checker.specs.declared.condition.Condition.TheVariants.{NearPairs};

use crate::fault::CheckFault;
use crate::first_fault::{first_fault, part_fault};
use crate::locating::{parcel_at, piece_at};
use crate::reporting::reported;
use lpis_cert::Cert;
use lpis_pairs::PairSource;
use lpis_points::RatPoint;
use lpis_release::Release;
use lpis_tables::Id;
use std::alloc::Global;
use std::marker::Model;

/// Checks the parts of a certificate, which are the conditions 60 to 66. A fault is that which
/// `check` reports.
///
/// With Ok each parcel has the area of its pieces, each above 0, and turns round each point as
/// often as its pieces together. Off the lines of the release each piece turns round a point as
/// often as triangles of its part have the point inside.
pub fn check_parts(alloc: Global, release: &Release, cert: &Cert) -> Result<(), CheckFault>
    ensures holds { OnOk result (HoldBelow release.now cert.now NearPairs) }
    ensures areas { OnOk result (AreasAdd release.now) }
    ensures turns { OnOk result (TurnsAdd release.now cert.now) }
    ensures fault { IfErr result (ReportsFirst release.now cert.now) }
    ensures parts { IfErr result IsOfParts }
{
    match part_fault(alloc, release, cert)? {
        Some(found) => Err(reported(release, cert, found)?),
        None => Ok(()),
    }
}

/// A release for which a good certificate was seen. Only `check` makes one. Contracts see the
/// release.
#[derive(Drop)]
pub struct Yes<'a> {
    release: &'a Release,
}

impl<'a> Model for Yes<'a> {
    ghost use Rattle.lpis_release.specs.Release.{Contents};
    ghost use Rattle.lpis_cert.specs.declared.cert.Cert.{Cert};
    ghost use Rattle.lpis_checker.specs.GoodCertificate.{IsGood};

    ghost Value = { Contents };

    ghost view = { λ yes. yes.release.now };

    ghost invariant = { λ yes. (c : Cert) × IsGood yes.release.now c };
}

/// Checks a release against a certificate: Ok exactly where the certificate is good. Else reports
/// the condition of the lowest code that fails, and the first place at which it does, pieces before
/// parcels. Out of memory is reported as such, and is no yes.
///
/// With Ok the release is a sound map: at every rational point at most one piece contains the point
/// and at most one parcel does, and a parcel exactly when exactly one of its pieces does; each
/// parcel has the area of its pieces, each above 0. It is not used which `PairSource` it is.
pub fn check<'a, S: PairSource>(
    alloc: Global,
    release: &'a Release,
    cert: &Cert,
    source: &S,
) -> Result<Yes<'a>, CheckFault>
    ensures release { IfOk result (λ yes. yes ≡ release.now) }
    ensures good { OnOk result (IsGood release.now cert.now) }
    ensures sound { OnOk result (IsSoundMap release.now) }
    ensures fault { IfErr result (ReportsFirst release.now cert.now) }
{
    // Its parcels' identifiers differ.
    let _ = release.parcels();
    match first_fault(alloc, release, cert, source)? {
        Some(found) => Err(reported(release, cert, found)?),
        None => Ok(Yes { release }),
    }
}

impl<'a> Yes<'a> {
    ghost use Rattle.std.specs.Prelude.{IfNone, IfSome};
    ghost use Rattle.lpis_points.specs.RatPoints.{rational_of};
    ghost use Rattle.lpis_checker.specs.SoundMap.{IsLocated, IsNowhere};

    /// The release of which all that a yes means holds. It takes no memory.
    pub fn release(&self) -> &'a Release
        ensures is { result.now ≡ self.now }
        ensures sound { IsSoundMap self.now }
    {
        let release = self.release;
        let _ = release.parcels();
        release
    }

    /// The identifiers of the one parcel and of the one piece that contain a point. None exactly
    /// where no parcel contains it. It takes no memory.
    pub fn locate(&self, p: &RatPoint) -> Option<(&'a Id, &'a Id)>
        ensures found { IfSome result (λ ids. IsLocated self.now (rational_of p.now) ids.0.now
            ids.1.now) }
        ensures nowhere { IfNone result (IsNowhere self.now (rational_of p.now)) }
        ensures sound { IsSoundMap self.now }
    {
        let release = self.release;
        // Its parcels' identifiers differ.
        let _ = release.parcels();
        let parcel = parcel_at(release, p)?;
        match piece_at(release, parcel, p) {
            Some(piece) => Some((&parcel.id, &piece.id)),
            // A point of a parcel is in one of its pieces.
            None => unreachable!(),
        }
    }
}
