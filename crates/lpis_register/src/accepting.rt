//! A release that may follow, with all that writing it needs. Nothing is changed here.

ghost use Rattle.std.specs.Prelude.{◌≡◌, ◌≢◌, ◌<◌, ℕ, List, IfOk, IfErr, OnOk};
ghost use Rattle.std.specs.List.{IsDistinct};
ghost use Rattle.lpis_cert.specs.declared.part.ExactBlock.{ExactBlock};
ghost use Rattle.lpis_tables.specs.Ids.{same_id};
ghost use Rattle.lpis_lineage_exact.specs.Asking.{IsChangeTo, IsShown};
ghost use Rattle.lpis_lineage.specs.Lineage.{last_year};
ghost use Rattle.lpis_lineage.specs.Order.{IsAscending};
ghost use Rattle.lpis_lineage.specs.Steps.{IsStep};
ghost use Rattle.lpis_lineage.specs.declared.row.Entry.{Entry};
ghost use Rattle.lpis_lineage.specs.declared.row.Row.{Row};
ghost use Rattle.lpis_release.specs.declared.parcel.Parcel.{Parcel};
ghost use Rattle.lpis_release.specs.Release.{parcel_ids};
ghost use Rattle.lpis_register_rows.specs.Shapes.{AreShapesOf, Shape, shape_ids};
ghost use Rattle.lpis_register.specs.Accepting.{AreKept};
ghost use Rattle.lpis_register.specs.Answering.{AnswersRelease, AreOfSoundMap};
ghost use Rattle.lpis_register.specs.Faults.{IsRefused};
ghost use Rattle.lpis_register.specs.Holdings.{candidate, holdings};
ghost use Rattle.lpis_register.specs.declared.fault.PublishFault.TheVariants.{Store, StoreMemory};

use crate::fault::PublishFault;
use lpis_cert::Cert;
use lpis_checker::check_exact;
use lpis_lineage::{Change, History, IdSet, Row, Step, accept};
use lpis_lineage_exact::{
    sound_maps_have_such_shapes, wanted_parts, what_is_shown_has_exact_lineage,
};
use lpis_register_rows::{KeptShape, shapes_in};
use lpis_release::Parcel;
use lpis_tables::Id;
use std::alloc::{AllocError, Global};

/// What writing an accepted release takes.
#[derive(Drop)]
pub(crate) struct Writing {
    pub(crate) year: u16,
    /// What became of the identifiers of the last release.
    pub(crate) change: Change,
    /// The identifiers that no release held.
    pub(crate) fresh: Vec<Id>,
    /// The shapes of its parcels, ascending by identifier.
    pub(crate) shapes: Vec<KeptShape>,
}

/// A release that may follow the history that it was accepted for. The register alone makes one.
#[derive(Drop)]
pub struct Accepted {
    /// Its identifiers, as the history takes them.
    pub(crate) live: IdSet,
    pub(crate) writing: Writing,
}

impl Accepted {
    /// The year of the release.
    pub fn year(&self) -> u16
        ensures { result ≡ self.now.writing.year }
    {
        self.writing.year
    }

    /// What the release changes.
    pub fn change(&self) -> &Change
        ensures { result.now ≡ self.now.writing.change }
    {
        &self.writing.change
    }
}

/// The identifiers of parcels, in their order.
pub fn ids_of(alloc: Global, parcels: &[Parcel]) -> Result<Vec<Id>, AllocError>
    ensures { IfOk result (λ ids. ids.items ≡ parcel_ids parcels.now) }
{
    let mut ids = Vec::with_capacity(alloc, parcels.len())?;
    for parcel in parcels {
        let id = parcel.id.copy()?;
        ids.push(id)?;
    }
    Ok(ids)
}

/// What a release of these parcels changes in a history, or why its lineage is refused.
fn step_of(
    alloc: Global,
    history: &History,
    parcels: &[Parcel],
    rows: &[Row],
) -> Result<Step, PublishFault>
    ensures refused { (kept : List Shape) (year : ℕ) (blocks : List ExactBlock)
        → last_year history.now < year → IfErr result
        (IsRefused (candidate year parcels.now blocks rows.now) (holdings history.now kept)) }
    ensures step { IfOk result (λ s. IsStep history.now (parcel_ids parcels.now) rows.now s.live
        s.change s.fresh.items) }
    ensures no_store { IfErr result (λ fault. (fault ≢ Store) × (fault ≢ StoreMemory)) }
{
    let live = ids_of(alloc, parcels)?;
    let step = accept(alloc, history, live.as_slice(), rows)?;
    Ok(step)
}

/// The shapes of parcels, ascending by identifier: those that are kept already, and copies of the
/// others. A register keeps them when the release is let go.
fn kept_of(
    alloc: Global,
    parcels: &[Parcel],
    kept: &[KeptShape],
) -> Result<Vec<KeptShape>, AllocError>
    requires distinct { IsDistinct same_id (parcel_ids parcels.now) }
    ensures { IfOk result (λ shapes. AreKept parcels.now shapes.items) }
{
    shapes_in(alloc, parcels, kept)
}

/// Refuses a release whose exact splits and merges the blocks of its certificate don't show, when
/// these shapes are kept of the last one and the new ones are its own. Of rows without marks
/// nothing is made.
fn check_groups(
    alloc: Global,
    change: &Change,
    kept: &[KeptShape],
    new: &[KeptShape],
    cert: &Cert,
) -> Result<(), PublishFault>
    requires ascending { IsAscending (shape_ids kept.now) }
    requires new_ascending { IsAscending (shape_ids new.now) }
    ensures shown { OnOk result ((h : List Entry) (parcels : List Parcel) (rows : List Row)
        → IsChangeTo h parcels rows change.now → AreShapesOf parcels new.now
        → IsShown h kept.now parcels cert.now.exact rows) }
    ensures refused { (h : List Entry) (parcels : List Parcel) (rows : List Row) (year : ℕ)
        → IsChangeTo h parcels rows change.now → AreShapesOf parcels new.now → last_year h < year
        → IfErr result
        (IsRefused (candidate year parcels cert.now.exact rows) (holdings h kept.now)) }
    ensures no_store { IfErr result (λ fault. (fault ≢ Store) × (fault ≢ StoreMemory)) }
{
    let parts = wanted_parts(alloc, change, kept, new)?;
    check_exact(alloc, cert, parts.as_slice())?;
    Ok(())
}

/// Refuses the parcels of a sound map that may not follow in a later year, or makes all that
/// publishing them needs.
fn accept_later(
    alloc: Global,
    history: &History,
    kept: &[KeptShape],
    year: u16,
    parcels: &[Parcel],
    rows: &[Row],
    cert: &Cert,
) -> Result<Accepted, PublishFault>
    requires ascending { IsAscending (shape_ids kept.now) }
    requires sound { AreOfSoundMap parcels.now }
    requires later { last_year history.now < year }
    ensures { AnswersRelease (candidate year parcels.now cert.now.exact rows.now)
        (holdings history.now kept.now) result }
{
    sound_maps_have_such_shapes();
    what_is_shown_has_exact_lineage();
    let step = step_of(alloc, history, parcels, rows)?;
    let shapes = kept_of(alloc, parcels, kept)?;
    check_groups(alloc, &step.change, kept, shapes.as_slice(), cert)?;
    let Step {
        live,
        change,
        fresh,
    } = step;
    let writing = Writing {
        year,
        change,
        fresh,
        shapes,
    };
    Ok(Accepted { live, writing })
}

/// Refuses the parcels of a sound map that may not follow, or makes all that writing them needs.
pub(crate) fn accept_parcels(
    alloc: Global,
    history: &History,
    kept: &[KeptShape],
    year: u16,
    parcels: &[Parcel],
    rows: &[Row],
    cert: &Cert,
) -> Result<Accepted, PublishFault>
    requires ascending { IsAscending (shape_ids kept.now) }
    requires sound { AreOfSoundMap parcels.now }
    ensures { AnswersRelease (candidate year parcels.now cert.now.exact rows.now)
        (holdings history.now kept.now) result }
{
    let last = history.last_year();
    if year <= last {
        return Err(PublishFault::Year { last });
    }
    accept_later(alloc, history, kept, year, parcels, rows, cert)
}
