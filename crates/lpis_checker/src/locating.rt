//! The parcel and the piece at a point.

ghost use Rattle.std.specs.Prelude.{All, Contains, MatchOption};
ghost use Rattle.lpis_points.specs.RatPoints.{rational_of};
ghost use Rattle.lpis_release.specs.Release.{pieces_named};
ghost use Rattle.lpis_checker.specs.SoundMap.{IsInParcel, IsInPiece, IsNowhere};
ghost use Rattle.lpis_tables.specs.declared.piece.Piece.{Piece};

use lpis_points::RatPoint;
use lpis_release::{Parcel, Release, pieces_of};
use lpis_rings::contains;
use lpis_tables::Piece;

/// The first parcel that contains the point.
pub(crate) fn parcel_at<'a>(release: &'a Release, p: &RatPoint) -> Option<&'a Parcel>
    ensures { MatchOption result (IsNowhere release.now (rational_of p.now))
        (λ x. Contains release.now.parcels x.now × IsInParcel (rational_of p.now) x.now) }
{
    for parcel in release.parcels() {
        if contains(&parcel.polygon, p) {
            return Some(parcel);
        }
    }
    None
}

/// The first piece of the parcel that contains the point.
pub(crate) fn piece_at<'a>(release: &'a Release, parcel: &Parcel, p: &RatPoint) -> Option<&'a Piece>
    ensures { MatchOption result (All (λ (y : Piece). IsInPiece (rational_of p.now) y → ⊥)
        (pieces_named release.now parcel.now.id))
        (λ y. Contains (pieces_named release.now parcel.now.id) y.now
        × IsInPiece (rational_of p.now) y.now) }
{
    for piece in pieces_of(release, &parcel.id) {
        if contains(&piece.polygon, p) {
            return Some(piece);
        }
    }
    None
}
