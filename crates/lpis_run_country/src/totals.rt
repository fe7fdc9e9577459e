//! Counts and areas of parcels, added up.

ghost use Rattle.std.specs.Prelude.{◌≡◌, ◌≤◌, ◌<◌, ◌∷◌, ◌++◌, [], List, Some, length, slice_get};
ghost use Rattle.lpis_checker.specs.SoundMap.{AreasAdd};
ghost use Rattle.lpis_tables.specs.Table.{most_rows};
ghost use Rattle.lpis_release.specs.declared.parcel.Parcel.{Parcel};
ghost use Rattle.lpis_release.specs.Release.{Contents, pieces_named};
ghost use Rattle.lpis_run_country.specs.private.Totals.{AreAddable, AreAt, ArePlaces, AreTotalsOf};

use lpis_release::{Release, pieces_at};
use lpis_run::{Areas, areas_at};

/// How many parcels and pieces there are, the area of all parcels, and how much of it is eligible.
#[derive(Clone, Copy, Debug, PartialEq, Eq)]
pub(crate) struct Totals {
    pub(crate) parcels: usize,
    pub(crate) pieces: usize,
    pub(crate) areas: Areas,
}

impl Totals {
    /// Of no parcels.
    pub(crate) fn none() -> Totals
        ensures { (r : Contents) → AreTotalsOf r [] result }
    {
        Totals {
            parcels: 0,
            pieces: 0,
            areas: Areas::none(),
        }
    }

    /// Of these parcels and others.
    pub(crate) fn plus(self, others: Totals) -> Totals
        requires { AreAddable self others }
        ensures { (r : Contents) (ks ls : List Parcel) → AreTotalsOf r ks self
            → AreTotalsOf r ls others → AreTotalsOf r (ks ++ ls) result }
    {
        Totals {
            parcels: self.parcels + others.parcels,
            pieces: self.pieces + others.pieces,
            areas: self.areas.plus(others.areas),
        }
    }
}

/// How many pieces the parcel at a place has.
fn count_pieces(release: &Release, place: usize) -> usize
    requires { place < length release.now.parcels }
    ensures count { (parcel : Parcel) → slice_get release.now.parcels place ≡ Some parcel
        → result ≡ length (pieces_named release.now parcel.id) }
    ensures few { result ≤ most_rows }
{
    // They are few.
    let _ = release.pieces();
    pieces_at(release, place).count()
}

/// Of the parcel at a place.
fn parcel_totals(release: &Release, place: usize) -> Totals
    requires areas { AreasAdd release.now }
    requires within { place < length release.now.parcels }
    ensures { (parcel : Parcel) → slice_get release.now.parcels place ≡ Some parcel
        → AreTotalsOf release.now (parcel ∷ []) result }
{
    Totals {
        parcels: 1,
        pieces: count_pieces(release, place),
        areas: areas_at(release, place),
    }
}

/// Of all parcels of a release.
pub(crate) fn release_totals(release: &Release) -> Totals
    requires { AreasAdd release.now }
    ensures totals { AreTotalsOf release.now release.now.parcels result }
    ensures few { result.parcels ≤ most_rows }
{
    let mut totals = Totals::none();
    for place in 0..release.parcels().len() {
        totals = totals.plus(parcel_totals(release, place));
    }
    totals
}

/// Of the parcels at these places.
pub(crate) fn totals_at(release: &Release, places: &[usize]) -> Totals
    requires areas { AreasAdd release.now }
    requires places { ArePlaces release.now places.now }
    requires few { length places.now ≤ most_rows }
    ensures { (ks : List Parcel) → AreAt release.now places.now ks
        → AreTotalsOf release.now ks result }
{
    let mut totals = Totals::none();
    for (count, place) in places.iter().enumerate() {
        totals = totals.plus(parcel_totals(release, *place));
    }
    totals
}
