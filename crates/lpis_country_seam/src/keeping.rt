//! What is kept of a region that fits.

ghost use Rattle.std.specs.Prelude.{◌≡◌, ◌||◌, [], ℕ, List, IfOk, OnOk, option_to_list, slice_get};
ghost use Rattle.lpis_tables.specs.Ids.{has_id};
ghost use Rattle.lpis_release.specs.Release.{parcel_ids};
ghost use Rattle.lpis_country_seam.specs.private.Kept.{AreThinned, at_places, new_rows};
ghost use Rattle.lpis_country_seam.specs.private.Kept.{rows_reaching, with_rows};

use crate::identifiers::Identifiers;
use crate::kept::{KeptRow, KeptRows};
use crate::tiles::reaches_any;
use lpis_points::Box4;
use lpis_release::{Parcel, Release};
use std::alloc::{AllocError, Global};

/// Those of the rows that reach one of these tiles.
fn still_kept(alloc: Global, tiles: &[Box4], kept: KeptRows) -> Result<KeptRows, AllocError>
    ensures { IfOk result (λ rows. rows ≡ with_rows [] (rows_reaching tiles.now kept)) }
{
    let mut rows = KeptRows::new(alloc);
    for row in kept.into_rows() {
        if reaches_any(tiles, &row.parcel) {
            rows = rows.with(row)?;
        }
    }
    Ok(rows.settled())
}

/// The rows; where they are many, without those that reach none of these tiles. So a row is looked
/// at again only after as many others came in.
pub(crate) fn thinned(alloc: Global, tiles: &[Box4], kept: KeptRows) -> Result<KeptRows, AllocError>
    ensures { IfOk result (AreThinned tiles.now kept) }
{
    if kept.is_full() {
        still_kept(alloc, tiles, kept)
    } else {
        Ok(kept)
    }
}

/// The rows with that of the parcel of a region at a place, if it reaches one of these tiles.
fn with_place(
    alloc: Global,
    tiles: &[Box4],
    release: &Release,
    place: usize,
    rows: KeptRows,
) -> Result<KeptRows, AllocError>
    ensures { IfOk result (λ more. more ≡ with_rows rows (new_rows tiles.now release.now
        (option_to_list (slice_get release.now.parcels place)))) }
{
    match release.parcels().get(place) {
        Some(parcel) => {
            if reaches_any(tiles, parcel) {
                let row = KeptRow::of(alloc, release, parcel)?;
                rows.with(row)
            } else {
                Ok(rows)
            }
        }
        None => Ok(rows),
    }
}

/// The rows with those parcels of a region at these places that reach one of these tiles.
pub(crate) fn with_new(
    alloc: Global,
    tiles: &[Box4],
    release: &Release,
    places: &[usize],
    kept: KeptRows,
) -> Result<KeptRows, AllocError>
    ensures { IfOk result (λ rows. rows ≡ with_rows kept
        (new_rows tiles.now release.now (at_places release.now.parcels places.now))) }
{
    let mut rows = kept;
    for k in 0..places.len() {
        rows = with_place(alloc, tiles, release, places[k], rows)?;
    }
    Ok(rows)
}

/// Adds the identifiers of these parcels.
pub(crate) fn add_ids(ids: &mut Identifiers, parcels: &[Parcel]) -> Result<(), AllocError>
    ensures { OnOk result ((q : List ℕ)
        → has_id ids.new q ≡ (has_id ids.old q || has_id (parcel_ids parcels.now) q)) }
{
    for parcel in parcels {
        ids.add(&parcel.id)?;
    }
    Ok(())
}
