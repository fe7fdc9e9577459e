//! The tests of the next region.

ghost use Rattle.std.specs.Prelude.{◌++◌, ◌∷◌, [], OnOk, cond};
ghost use Rattle.std.specs.Prelude.{◌≡◌, ◌≤◌, not, IfOk, drop, filter, flat_map, length, map, Some};
ghost use Rattle.std.specs.Prelude.{slice_get};
ghost use Rattle.std.specs.List.{list_any};
ghost use Rattle.lpis_tables.specs.Ids.{has_id};
ghost use Rattle.lpis_release.specs.declared.parcel.Parcel.{Parcel};
ghost use Rattle.lpis_country.specs.Polygons.{box_of_members};
ghost use Rattle.lpis_country.specs.Tiling.{reaches};
ghost use Rattle.lpis_country_seam.specs.declared.fault.SeamFault.TheVariants.{At};
ghost use Rattle.lpis_country_seam.specs.Faults.{ReportsSeam, is_lacking as lacking, reaches_own};
ghost use Rattle.lpis_country_seam.specs.private.Testing.{fresh_faults, is_kept_row_of};
ghost use Rattle.lpis_country_seam.specs.private.Testing.{is_fresh, known_faults, row_faults};
ghost use Rattle.lpis_country_seam.specs.private.Testing.{row_named, tested_kept, tested_row};

use crate::fault::{SeamCode, SeamFault};
use crate::identifiers::Identifiers;
use crate::kept::{KeptRow, KeptRows};
use crate::tiles::{first_reached, reaches_any, reaches_tile};
use lpis_country::meets;
use lpis_points::Box4;
use lpis_release::{Parcel, Release, are_pieces_of, is_same_polygon};
use lpis_tables::Id;
use std::alloc::{AllocError, Global};

/// What the next region is tested by: the tiles of all regions, its number, the identifiers of the
/// parcels so far, and the rows that are kept of them.
#[derive(Clone, Copy)]
pub(crate) struct Known<'a> {
    pub tiles: &'a [Box4],
    pub n: usize,
    pub ids: &'a Identifiers,
    pub kept: &'a KeptRows,
}

/// The fault of a parcel.
fn fault_at(code: SeamCode, id: &Id, region: usize) -> Result<SeamFault, AllocError>
    ensures { IfOk result (λ fault. fault ≡ At code id.now region) }
{
    let id = id.copy()?;
    Ok(SeamFault::At { code, id, region })
}

/// Whether a kept row is that of a parcel of a region.
fn is_row_of(row: &KeptRow, release: &Release, parcel: &Parcel) -> bool
    ensures { result ≡ is_kept_row_of row.now release.now parcel.now }
{
    is_same_polygon(&row.parcel.polygon, &parcel.polygon)
        && are_pieces_of(row.pieces.as_slice(), release, &parcel.id)
}

/// Whether a kept row's box meets the tile of a number or one after it.
fn is_awaited(tiles: &[Box4], n: usize, row: &KeptRow) -> bool
    requires { n ≤ length tiles.now }
    ensures { result ≡ list_any (reaches row.now.parcel) (drop n tiles.now) }
{
    reaches_any(&tiles[n..], &row.parcel)
}

/// Tests a parcel that was there by the kept row of its identifier.
fn check_by_row(
    tiles: &[Box4],
    n: usize,
    release: &Release,
    parcel: &Parcel,
    row: &KeptRow,
) -> Result<(), SeamFault>
    requires { n ≤ length tiles.now }
    ensures { ReportsSeam (row_faults tiles.now n release.now parcel.now row.now) result }
{
    if !is_awaited(tiles, n, row) {
        return Err(fault_at(SeamCode::Reused, &parcel.id, n)?);
    }
    if is_row_of(row, release, parcel) {
        Ok(())
    } else {
        Err(fault_at(SeamCode::Differs, &parcel.id, n)?)
    }
}

/// Tests a parcel that was there by the kept row of its identifier, if there is one.
fn check_known(known: &Known<'_>, release: &Release, parcel: &Parcel) -> Result<(), SeamFault>
    requires { known.now.n ≤ length known.now.tiles.now }
    ensures { ReportsSeam (known_faults known.now.tiles.now known.now.n release.now parcel.now
        (row_named known.now.kept.now parcel.now.id)) result }
{
    match known.kept.get(&parcel.id) {
        Some(row) => check_by_row(known.tiles, known.n, release, parcel, row),
        None => Err(fault_at(SeamCode::Reused, &parcel.id, known.n)?),
    }
}

/// Tests a parcel that was not there by the tiles before.
fn check_fresh(tiles: &[Box4], n: usize, parcel: &Parcel) -> Result<(), SeamFault>
    requires { n ≤ length tiles.now }
    ensures { ReportsSeam (fresh_faults tiles.now n parcel.now) result }
{
    match first_reached(&tiles[..n], parcel) {
        Some(region) => Err(fault_at(SeamCode::Lacks, &parcel.id, region)?),
        None => Ok(()),
    }
}

/// Whether a parcel's box meets the tile of a number.
fn reaches_number(tiles: &[Box4], n: usize, parcel: &Parcel) -> bool
    ensures { result ≡ reaches_own tiles.now n parcel.now }
{
    match tiles.get(n) {
        Some(tile) => reaches_tile(tile, parcel),
        None => false,
    }
}

/// Whether a parcel is new; or its first fault.
fn check_row(known: &Known<'_>, release: &Release, parcel: &Parcel) -> Result<bool, SeamFault>
    requires { known.now.n ≤ length known.now.tiles.now }
    ensures new { IfOk result (λ new. new ≡ not (has_id known.now.ids.now parcel.now.id)) }
    ensures reports { ReportsSeam (tested_row known.now.tiles.now known.now.n known.now.ids.now
        known.now.kept.now release.now parcel.now) result }
{
    if !reaches_number(known.tiles, known.n, parcel) {
        return Err(fault_at(SeamCode::Elsewhere, &parcel.id, known.n)?);
    }
    if known.ids.contains(&parcel.id) {
        check_known(known, release, parcel)?;
        Ok(false)
    } else {
        check_fresh(known.tiles, known.n, parcel)?;
        Ok(true)
    }
}

/// Adds a place, if its parcel is new.
fn add_if(places: &mut Vec<usize>, new: bool, k: usize) -> Result<(), AllocError>
    ensures { OnOk result (places.new.items ≡ cond new (places.old.items ++ k ∷ [])
        places.old.items) }
{
    if new {
        places.push(k)?;
    }
    Ok(())
}

/// The places of the new parcels among a region's; or the first fault of its rows.
fn check_rows(alloc: Global, known: &Known<'_>, release: &Release) -> Result<Vec<usize>, SeamFault>
    requires { known.now.n ≤ length known.now.tiles.now }
    ensures places { IfOk result (λ places. map (slice_get release.now.parcels) places.items
        ≡ map Some (filter (is_fresh known.now.ids.now) release.now.parcels)) }
    ensures reports { ReportsSeam (flat_map (tested_row known.now.tiles.now known.now.n
        known.now.ids.now known.now.kept.now release.now) release.now.parcels) result }
{
    let parcels = release.parcels();
    let mut places = Vec::new(alloc);
    for k in 0..parcels.len() {
        match check_row(known, release, &parcels[k]) {
            Ok(new) => add_if(&mut places, new, k)?,
            Err(fault) => return Err(fault),
        }
    }
    Ok(places)
}

/// Whether a box meets the tile of a number.
fn meets_number(tiles: &[Box4], n: usize, b: &Box4) -> bool
    ensures { (parcel : Parcel) → box_of_members parcel.polygon ≡ b.now
        → result ≡ reaches_own tiles.now n parcel }
{
    match tiles.get(n) {
        Some(tile) => meets(tile, b),
        None => false,
    }
}

/// Whether a region lacks a parcel, which has this box, and whose box meets its tile.
fn is_lacking(tiles: &[Box4], n: usize, release: &Release, parcel: &Parcel, b: &Box4) -> bool
    requires { box_of_members parcel.now.polygon ≡ b.now }
    ensures { result ≡ lacking tiles.now n release.now parcel.now }
{
    meets_number(tiles, n, b) && release.parcel(&parcel.id).is_none()
}

/// Looks for a kept row that a region lacks.
fn check_kept(known: &Known<'_>, release: &Release) -> Result<(), SeamFault>
    ensures { ReportsSeam (tested_kept known.now.tiles.now known.now.n known.now.kept.now
        release.now) result }
{
    let rows = known.kept.as_slice();
    let boxes = known.kept.boxes();
    for k in 0..rows.len() {
        let parcel = &rows[k].parcel;
        if is_lacking(known.tiles, known.n, release, parcel, &boxes[k]) {
            return Err(fault_at(SeamCode::Lacks, &parcel.id, known.n)?);
        }
    }
    Ok(())
}

/// The places of the new parcels among a region's; or the first fault of its rows or of what it
/// lacks.
pub(crate) fn check_parcels(
    alloc: Global,
    known: &Known<'_>,
    release: &Release,
) -> Result<Vec<usize>, SeamFault>
    requires { known.now.n ≤ length known.now.tiles.now }
    ensures places { IfOk result (λ places. map (slice_get release.now.parcels) places.items
        ≡ map Some (filter (is_fresh known.now.ids.now) release.now.parcels)) }
    ensures reports { ReportsSeam (flat_map (tested_row known.now.tiles.now known.now.n
        known.now.ids.now known.now.kept.now release.now) release.now.parcels
        ++ tested_kept known.now.tiles.now known.now.n known.now.kept.now release.now) result }
{
    match check_rows(alloc, known, release) {
        Ok(places) => {
            check_kept(known, release)?;
            Ok(places)
        }
        Err(fault) => Err(fault),
    }
}
