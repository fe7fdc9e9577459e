//! What a release's lineage has to meet.

ghost use Rattle.std.specs.Prelude.{◌≡◌, ◌++◌, ◌∷◌, ℕ, List, [], OnOk, IfOk, IsTrue};
ghost use Rattle.lpis_tables.specs.Ids.{has_id};
ghost use Rattle.lpis_lineage.specs.declared.row.Row.{Row};
ghost use Rattle.lpis_lineage.specs.Lineage.{last_live};
ghost use Rattle.lpis_lineage.specs.Faults.{faults_of_row, lineage_row_faults, dropped_faults};
ghost use Rattle.lpis_lineage.specs.Faults.{used_faults};
ghost use Rattle.lpis_lineage.specs.Faults.{faults, faults_but_marks, ReportsFirstOf};
ghost use Rattle.lpis_lineage.specs.private.Seen.{IsSeen};
ghost use Rattle.lpis_lineage.specs.Accepts.{Decides};
ghost use Rattle.lpis_lineage.specs.Steps.{IsStep};

use crate::fault::{LineageCode, LineageFault};
use crate::history::History;
use crate::id_set::IdSet;
use crate::marks::check_marks_of;
use crate::row::Row;
use crate::seen::Seen;
use crate::step::Step;
use lpis_tables::Id;
use std::alloc::Global;

/// Looks at a row, and keeps it.
fn check_row(
    seen: &mut Seen,
    last: &IdSet,
    live: &IdSet,
    row: &Row,
    number: usize,
) -> Result<(), LineageFault>
    ensures tells { (before : List Row) → IsSeen seen.old before
        → ReportsFirstOf (faults_of_row last.now live.now before number row.now []) result }
    ensures seen { (before : List Row) → IsSeen seen.old before
        → OnOk result (IsSeen seen.new (before ++ row.now ∷ [])) }
{
    if !last.contains(&row.old) {
        return Err(LineageFault::OfRow(LineageCode::OldNotLive, number));
    }
    if live.contains(&row.old) {
        return Err(LineageFault::OfRow(LineageCode::OldStillLive, number));
    }
    match &row.new {
        None => seen.end(row, number),
        Some(successor) => {
            if !live.contains(successor) {
                return Err(LineageFault::OfRow(LineageCode::SuccessorMissing, number));
            }
            seen.continue_in(row, successor, number)
        }
    }
}

/// Looks at the rows.
fn check_rows(alloc: Global, last: &IdSet, live: &IdSet, rows: &[Row]) -> Result<Seen, LineageFault>
    ensures tells { ReportsFirstOf (lineage_row_faults last.now live.now [] 1 rows.now) result }
    ensures seen { IfOk result (λ s. IsSeen s rows.now) }
{
    let mut seen = Seen::new(alloc);
    for (i, row) in rows.iter().enumerate() {
        check_row(&mut seen, last, live, row, i + 1)?;
    }
    Ok(seen)
}

/// Looks for dropped identifiers without a row.
fn check_dropped(last: &IdSet, live: &IdSet, seen: &Seen) -> Result<(), LineageFault>
    ensures { (rows : List Row) → IsSeen seen.now rows
        → ReportsFirstOf (dropped_faults live.now rows last.now) result }
{
    for id in last.lacking(live) {
        if !seen.has_row(id) {
            return Err(LineageFault::NoRow { id: id.copy()? });
        }
    }
    Ok(())
}

/// Whether no identifier of the set was used before. Those alone are looked up that the last
/// release lacks.
fn none_used(history: &History, set: &IdSet) -> bool
    ensures { IsTrue result → used_faults history.now (last_live history.now) set.now ≡ [] }
{
    for id in set.lacking(history.last_live()) {
        if history.span(id).is_some() {
            return false;
        }
    }
    true
}

/// Looks for identifiers that were used before; the set has the same ones.
fn check_used(history: &History, set: &IdSet, ids: &[Id]) -> Result<(), LineageFault>
    requires alike { (q : List ℕ) → has_id set.now q ≡ has_id ids.now q }
    ensures { ReportsFirstOf (used_faults history.now (last_live history.now) ids.now) result }
{
    if none_used(history, set) {
        return Ok(());
    }
    find_used(history, ids)
}

/// Looks for the first identifier that was used before, in their order.
fn find_used(history: &History, ids: &[Id]) -> Result<(), LineageFault>
    ensures { ReportsFirstOf (used_faults history.now (last_live history.now) ids.now) result }
{
    for id in ids {
        if !history.is_live(id) {
            if let Some(year) = history.last_held(id) {
                return Err(LineageFault::UsedBefore {
                    id: id.copy()?,
                    year,
                });
            }
        }
    }
    Ok(())
}

/// What a release with these identifiers and rows changes, where it may follow the history, with
/// all that `History::extend` takes: where the history with it at the end is lawful and its rows
/// fit, whatever later year it has. With no release before, each row is refused.
///
/// Else the first fault: row by row, in a row in the order of `LineageCode`'s variants; then the
/// dropped identifiers without a row, ascending; then the identifiers of `live` that were used
/// before, in its order; then the marked rows that belong to no split or merge of which each row is
/// marked.
pub fn accept(
    alloc: Global,
    history: &History,
    live: &[Id],
    rows: &[Row],
) -> Result<Step, LineageFault>
    ensures tells { ReportsFirstOf (faults history.now live.now rows.now) result }
    ensures decides { Decides history.now live.now rows.now result }
    ensures step { IfOk result
        (λ s. IsStep history.now live.now rows.now s.live s.change s.fresh.items) }
{
    let set = check(alloc, history, live, rows)?;
    match Step::of(alloc, history, set, rows) {
        Ok(step) => Ok(step),
        Err(_) => Err(LineageFault::Memory),
    }
}

/// The set of a release's identifiers where it may follow, with its first fault if not.
pub(crate) fn check(
    alloc: Global,
    history: &History,
    live: &[Id],
    rows: &[Row],
) -> Result<IdSet, LineageFault>
    ensures tells { ReportsFirstOf (faults history.now live.now rows.now) result }
    ensures decides { Decides history.now live.now rows.now result }
    ensures set { IfOk result (λ s. (q : List ℕ) → has_id s q ≡ has_id live.now q) }
{
    let _ = history.releases();
    let set = match first_fault(alloc, history, live, rows) {
        Ok(set) => set,
        Err(fault) => return Err(fault),
    };
    match check_marks_of(alloc, history.last_live(), &set, rows) {
        Ok(()) => Ok(set),
        Err(fault) => Err(fault),
    }
}

/// The first fault of a release but for its marks, or the set of its identifiers.
fn first_fault(
    alloc: Global,
    history: &History,
    live: &[Id],
    rows: &[Row],
) -> Result<IdSet, LineageFault>
    ensures tells { ReportsFirstOf (faults_but_marks history.now live.now rows.now) result }
    ensures set { IfOk result (λ s. (q : List ℕ) → has_id s q ≡ has_id live.now q) }
{
    let set = IdSet::of(alloc, live)?;
    let last = history.last_live();
    let seen = check_rows(alloc, last, &set, rows)?;
    check_dropped(last, &set, &seen)?;
    check_used(history, &set, live)?;
    Ok(set)
}
