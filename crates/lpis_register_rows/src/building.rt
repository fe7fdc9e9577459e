//! Releases put together from years, spans and lines.

ghost use Rattle.std.specs.Prelude.{◌≡◌, ◌≤◌, List, pos, length, map, IfErr, IfOk};
ghost use Rattle.lpis_lineage.specs.declared.fault.AddFault.TheVariants.{Memory as WantsMemory};
ghost use Rattle.lpis_lineage.specs.declared.row.Entry.{Entry};
ghost use Rattle.lpis_register_rows.specs.declared.fault.RowsFault.TheVariants.{Unlawful};
ghost use Rattle.lpis_register_rows.specs.Histories.{IsSameHistory, years_of};
ghost use Rattle.lpis_register_rows.specs.private.Fronts.{AddsYear, IsDue, HasKnownHistory};
ghost use Rattle.lpis_register_rows.specs.private.Known.{SetsAre, known_of, span_in};

use crate::fault::RowsFault;
use crate::known::{KnownLine, KnownSpan};
use crate::opening::{live_ids, rows_of_year};
use lpis_lineage::{AddFault, History};
use std::alloc::Global;

/// Adds the release of a year, with the rows of the lines from a position on; the position after
/// them.
fn add_year(
    alloc: Global,
    history: &mut History,
    spans: &[KnownSpan],
    lines: &[KnownLine],
    from: usize,
    year: u16,
) -> Result<usize, RowsFault>
    requires within { from ≤ length lines.now }
    ensures adds { IfOk result (λ next.
        AddsYear spans.now lines.now year from next history.old history.new) }
    ensures refused { IfErr result (λ e. e ≡ Unlawful → (h : List Entry)
        → HasKnownHistory spans.now lines.now h
        → IsDue history.old lines.now from year h → ⊥) }
{
    let live = live_ids(alloc, spans, year)?;
    let (rows, next) = rows_of_year(alloc, lines, from, year)?;
    match history.add(year, live.as_slice(), rows.as_slice()) {
        Ok(()) => Ok(next),
        Err(fault) => Err(fault_of(fault)),
    }
}

/// Why the release of rows is not added.
fn fault_of(fault: AddFault) -> RowsFault
    ensures { result ≡ Unlawful → fault ≡ WantsMemory → ⊥ }
{
    match fault {
        AddFault::Memory => RowsFault::Memory,
        AddFault::Year { .. } | AddFault::Lineage(_) => RowsFault::Unlawful,
    }
}

/// The history of these years, in which each release holds the identifiers whose span covers its
/// year; all lines are used.
pub(crate) fn build(
    alloc: Global,
    years: &[u16],
    spans: &[KnownSpan],
    lines: &[KnownLine],
) -> Result<History, RowsFault>
    ensures years { IfOk result (λ h. years_of h ≡ map (λ y. pos y) years.now) }
    ensures sets { IfOk result (SetsAre (map span_in spans.now)) }
    ensures lines { IfOk result (λ h. known_of h ≡ lines.now) }
    ensures same { IfOk result (λ g. (h : List Entry) → HasKnownHistory spans.now lines.now h
        → years_of h ≡ map (λ y. pos y) years.now → IsSameHistory g h) }
    ensures refused { IfErr result (λ e. e ≡ Unlawful → (h : List Entry)
        → HasKnownHistory spans.now lines.now h
        → years_of h ≡ map (λ y. pos y) years.now → ⊥) }
{
    let mut history = History::new(alloc);
    let mut next = 0;
    for year in years {
        next = add_year(alloc, &mut history, spans, lines, next, *year)?;
    }
    if next < lines.len() {
        return Err(RowsFault::Unlawful);
    }
    Ok(history)
}
