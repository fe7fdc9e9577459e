//! The parcels of the regions that passed, gathered if they are wanted.

ghost use Rattle.std.specs.Prelude.{◌≡◌, ◌<◌, ◌++◌, true, List, OnOk, Some, length, slice_get};
ghost use Rattle.lpis_release.specs.declared.parcel.Parcel.{Parcel};
ghost use Rattle.lpis_run_country.specs.private.Progressing.{HasGathered, gathered_in, gathers};
ghost use Rattle.lpis_run_country.specs.private.Totals.{AreAt, ArePlaces};

use lpis_release::{Parcel, Release, copy_parcel};
use std::alloc::{AllocError, Global};

/// The parcels of the regions that passed.
#[derive(Drop)]
pub(crate) enum Gathered {
    /// They are not wanted.
    Nothing,
    /// Each once, in the order in which they first stood.
    Parcels(Vec<Parcel>),
}

/// The parcel at a place.
fn parcel_at(release: &Release, place: usize) -> &Parcel
    requires { place < length release.now.parcels }
    ensures { slice_get release.now.parcels place ≡ Some result.now }
{
    &release.parcels()[place]
}

/// Copies the parcels at these places behind others.
fn copy_at(
    alloc: Global,
    release: &Release,
    places: &[usize],
    parcels: &mut Vec<Parcel>,
) -> Result<(), AllocError>
    requires { ArePlaces release.now places.now }
    ensures { (ks : List Parcel) → AreAt release.now places.now ks
        → OnOk result (parcels.new.items ≡ parcels.old.items ++ ks) }
{
    for (count, place) in places.iter().enumerate() {
        let parcel = copy_parcel(alloc, parcel_at(release, *place))?;
        parcels.push(parcel)?;
    }
    Ok(())
}

impl Gathered {
    /// Gathers the parcels at these places, which are new.
    pub(crate) fn gather(
        &mut self,
        alloc: Global,
        release: &Release,
        places: &[usize],
    ) -> Result<(), AllocError>
        requires { ArePlaces release.now places.now }
        ensures gathered { (ks ls : List Parcel) → HasGathered ks self.old
            → AreAt release.now places.now ls → OnOk result (HasGathered (ks ++ ls) self.new) }
        ensures wanted { gathers self.new ≡ gathers self.old }
    {
        match self {
            Gathered::Nothing => Ok(()),
            Gathered::Parcels(parcels) => copy_at(alloc, release, places, parcels),
        }
    }

    /// The parcels, which are wanted.
    pub(crate) fn into_parcels(self) -> Vec<Parcel>
        requires { gathers self ≡ true }
        ensures { result.items ≡ gathered_in self }
    {
        match self {
            Gathered::Parcels(parcels) => parcels,
            Gathered::Nothing => unreachable!(),
        }
    }
}
