//! Weighted areas.

ghost use Rattle.std.specs.Prelude.{◌≡◌, ◌≤◌, ◌<◌, ◌*ℤ◌, All, Some, length, slice_get};
ghost use Rattle.std.specs.Prelude.{unsigned_abs};
ghost use Rattle.lpis_tables.specs.declared.piece.Piece.{Piece};
ghost use Rattle.lpis_tables.specs.Percentages.{most_percent};
ghost use Rattle.lpis_rings.specs.AreaBounds.{most_area};
ghost use Rattle.lpis_tables.specs.Table.{most_rows};
ghost use Rattle.lpis_release.specs.Weighted.{most_weighted, piece_weight, weighted2};
ghost use Rattle.lpis_release.specs.declared.parcel.Parcel.{Parcel};
ghost use Rattle.lpis_release.specs.private.Groups.{joined_pieces};
ghost use Rattle.lpis_release.specs.private.Weights.{weighted_at};

use crate::groups::Join;
use crate::release::Release;
use lpis_rings::area2;
use lpis_tables::Id;

/// A percentage times an area.
fn product(percent: i128, area: i128) -> i128
    requires percent_in { unsigned_abs percent ≤ most_percent }
    requires area_in { unsigned_abs area ≤ most_area }
    ensures value { result ≡ percent *ℤ area }
    ensures small { unsigned_abs result ≤ most_weighted }
{
    percent * area
}

/// Twice the area of the piece at an index, times the percentage of its class.
fn weight(release: &Release, index: usize) -> i128
    requires { index < length release.now.pieces }
    ensures value { (piece : Piece) → slice_get release.now.pieces index ≡ Some piece
        → result ≡ piece_weight release.now.classes piece }
    ensures small { unsigned_abs result ≤ most_weighted }
{
    let percent = release.percent(index);
    let area = area2(&release.pieces()[index].polygon);
    product(percent as i128, area)
}

/// Twice the areas of the pieces of joins, each times the percentage of its class, added.
fn joined_weight(release: &Release, joins: &[Join]) -> i128
    requires within { All (λ i. i < length release.now.pieces) (joined_pieces joins.now) }
    requires few { length joins.now ≤ most_rows }
    ensures { result ≡ weighted_at release.now (joined_pieces joins.now) }
{
    let mut sum = 0;
    for join in joins {
        sum += weight(release, join.piece as usize);
    }
    sum
}

/// Twice the weighted area of the parcel at an index in square millimetres and percent: the areas
/// of its pieces, each times the percentage of its class, added. It takes no memory.
pub fn weighted2_at(release: &Release, index: usize) -> i128
    requires { index < length release.now.parcels }
    ensures { (parcel : Parcel) → slice_get release.now.parcels index ≡ Some parcel
        → result ≡ weighted2 release.now parcel.id }
{
    // They are not too many for the sum.
    let _ = release.pieces();
    joined_weight(release, release.joins_at(index))
}

/// Twice the weighted area of the parcel of an identifier; 0 for an identifier that is no parcel's.
pub fn weighted2(release: &Release, parcel: &Id) -> i128
    ensures { result ≡ weighted2 release.now parcel.now }
{
    // They are not too many for the sum.
    let _ = release.pieces();
    joined_weight(release, release.joins_of(parcel))
}
