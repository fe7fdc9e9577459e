//! The history that rows say.

ghost use Rattle.std.specs.Prelude.{◌≡◌, ◌↔◌, ◌≤◌, ◌+◌, ◌++◌, ◌∷◌, ◌&&◌, [], pos, true, ℕ, List};
ghost use Rattle.std.specs.Prelude.{length, take, IfErr, IfOk, IsTrue};
ghost use Rattle.std.specs.List.{All, list_any};
ghost use Rattle.lpis_tables.specs.Ids.{has_id, same_id};
ghost use Rattle.lpis_register_rows.specs.declared.fault.RowsFault.TheVariants.{Unlawful};
ghost use Rattle.lpis_register_rows.specs.Histories.{IsSpanRow, only_format};
ghost use Rattle.lpis_register_rows.specs.private.Covering.{covers};
ghost use Rattle.lpis_register_rows.specs.private.Fronts.{IsRun};
ghost use Rattle.lpis_register_rows.specs.private.Known.{known_from, known_line_at, span_in};

use crate::fault::RowsFault;
use crate::known::{KnownLine, KnownSpan};
use crate::rows::FormatRow;
use lpis_lineage::{History, Row};
use lpis_tables::Id;
use std::alloc::{AllocError, Global};

/// Whether these are the one row of a version.
pub(crate) fn has_version(formats: &[FormatRow], version: u16) -> bool
    ensures { IsTrue result ↔ (formats.now ≡ only_format version) }
{
    if formats.len() != 1 {
        return false;
    }
    formats[0].is_of(i64::from(version))
}

/// The identifiers whose span covers a year.
pub(crate) fn live_ids(alloc: Global, spans: &[KnownSpan], year: u16) -> Result<Vec<Id>, AllocError>
    ensures { IfOk result (λ v. (id : List ℕ) → has_id v.items id ≡ list_any (λ s. same_id id s.id
        && covers (span_in s) year) spans.now) }
{
    let mut ids = Vec::with_capacity(alloc, spans.len())?;
    for span in spans {
        if span.covers(year) {
            let id = span.id.copy()?;
            ids.push(id)?;
        }
    }
    Ok(ids)
}

/// Whether there is a line at a position, and its year is this one.
fn is_of_year(lines: &[KnownLine], next: usize, year: u16) -> bool
    ensures within { IsTrue result → next + 1 ≤ length lines.now }
    ensures year { IsTrue result ↔ ((known_line_at lines.now next).year ≡ pos year) }
{
    next < lines.len() && lines[next].is_of(year)
}

/// A copy of the row of the line at a position, which is to be the row of this year at this
/// position.
fn row_at(
    alloc: Global,
    lines: &[KnownLine],
    next: usize,
    year: u16,
    position: usize,
) -> Result<Row, RowsFault>
    requires within { next + 1 ≤ length lines.now }
    ensures row { IfOk result (λ row. take (next + 1) lines.now ≡ take next lines.now
        ++ known_from (pos year) position (row ∷ [])) }
    ensures refused { IfErr result (λ e. e ≡ Unlawful
        → (known_line_at lines.now next).year ≡ pos year
        → (known_line_at lines.now next).position ≡ pos position → ⊥) }
{
    let line = &lines[next];
    if line.is_at(year, position) {
        let row = line.row.copy()?;
        Ok(row)
    } else {
        Err(RowsFault::Unlawful)
    }
}

/// The rows of the lines from a position on that belong to a year's release, and the position after
/// them.
pub(crate) fn rows_of_year(
    alloc: Global,
    lines: &[KnownLine],
    from: usize,
    year: u16,
) -> Result<(Vec<Row>, usize), RowsFault>
    requires within { from ≤ length lines.now }
    ensures rows { IfOk result (λ p. take p.1 lines.now ≡ take from lines.now
        ++ known_from (pos year) 0 p.0.items) }
    ensures within { IfOk result (λ p. p.1 ≤ length lines.now) }
    ensures run { IfOk result (λ p. (stop : ℕ) → IsRun lines.now from year stop → p.1 ≡ stop) }
    ensures refused { IfErr result (λ e. e ≡ Unlawful → (stop : ℕ)
        → IsRun lines.now from year stop → ⊥) }
{
    let mut rows = Vec::new(alloc);
    let mut next = from;
    'lines: while is_of_year(lines, next, year) {
        let row = row_at(alloc, lines, next, year, rows.len())?;
        rows.push(row)?;
        next += 1;
    }
    Ok((rows, next))
}

/// Whether the row is the span of its identifier.
fn is_told(history: &History, span: &KnownSpan) -> bool
    ensures { IsTrue result ↔ IsSpanRow history.now (span_in span.now) }
{
    match history.span(&span.id) {
        Some(years) => {
            i64::from(years.first) == span.since && i64::from(years.last) == span.until
        }
        None => false,
    }
}

/// Whether the rows are the spans of their identifiers.
pub(crate) fn are_told(history: &History, spans: &[KnownSpan]) -> bool
    ensures { IsTrue result ↔ All (λ s. IsSpanRow history.now (span_in s)) spans.now }
{
    for span in spans {
        if !is_told(history, span) {
            return false;
        }
    }
    true
}
