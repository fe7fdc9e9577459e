//! Rows with their identifiers read.

ghost use Rattle.std.specs.Prelude.{◌≡◌, ◌↔◌, ◌⊎◌, ◌≤◌, ◌<◌, true, false, pos, []};
ghost use Rattle.std.specs.Prelude.{map, Some, IfErr, IfNone, IfOk, IfSome, IsPermutation};
ghost use Rattle.std.specs.Prelude.{IsSorted, IsTrue};
ghost use Rattle.std.specs.Cmp.Lexicographic.{slice_cmp};
ghost use Rattle.std.specs.List.{All};
ghost use Rattle.std.specs.List.Sorted.{IsSortedByKey};
ghost use Rattle.std.specs.Ordering.{nat_cmp};
ghost use Rattle.lpis_tables.specs.Ids.{is_id};
ghost use Rattle.lpis_register_rows.specs.declared.fault.RowsFault.TheVariants.{Unlawful};
ghost use Rattle.lpis_register_rows.specs.Content.{successor_text};
ghost use Rattle.lpis_register_rows.specs.declared.known.KnownSpan.{KnownSpan};
ghost use Rattle.lpis_register_rows.specs.Histories.{last_of_years};
ghost use Rattle.lpis_register_rows.specs.private.Covering.{covers};
ghost use Rattle.lpis_register_rows.specs.private.Known.{HasText, IsReadable, IsReleaseYear};
ghost use Rattle.lpis_register_rows.specs.private.Known.{line_cmp, line_in};
ghost use Rattle.lpis_register_rows.specs.private.Known.{span_in};

use crate::fault::RowsFault;
use crate::named::{Named, sort};
use crate::rows::{LineRow, SpanRow};
use lpis_lineage::Row;
use lpis_tables::Id;
use std::alloc::{AllocError, Global};

/// A row of `lpis_span` with its identifier.
#[derive(Drop)]
pub(crate) struct KnownSpan {
    pub(crate) id: Id,
    pub(crate) since: i64,
    pub(crate) until: i64,
}

impl Named for KnownSpan {
    ghost use Rattle.lpis_register_rows.specs.declared.known.KnownSpan.{KnownSpan};

    ghost id_of = { λ (s : KnownSpan). s.id };

    fn id(&self) -> &Id {
        &self.id
    }
}

impl KnownSpan {
    /// Whether the release of a year holds the identifier.
    pub(crate) fn covers(&self, year: u16) -> bool
        ensures { result ≡ covers (span_in self.now) year }
    {
        let year = i64::from(year);
        self.since <= year && (self.until == 0 || year <= self.until)
    }
}

/// The identifier of a text.
pub(crate) fn read_id(alloc: Global, text: &str) -> Result<Id, RowsFault>
    ensures same { IfOk result (λ id. id ≡ text.now) }
    ensures id { IfOk result (λ id. is_id text.now ≡ true) }
    ensures refused { IfErr result (λ e. e ≡ Unlawful → is_id text.now ≡ false) }
{
    match Id::read(alloc, text.as_bytes())? {
        Some(id) => Ok(id),
        None => Err(RowsFault::Unlawful),
    }
}

/// A span with its identifier.
fn read_span(alloc: Global, row: &SpanRow) -> Result<KnownSpan, RowsFault>
    ensures same { IfOk result (λ s. span_in s ≡ row.now) }
    ensures id { IfOk result (λ s. is_id s.id ≡ true) }
    ensures refused { IfErr result (λ e. e ≡ Unlawful → is_id row.now.id ≡ false) }
{
    let id = read_id(alloc, row.id.as_str())?;
    let since = row.since;
    let until = row.until;
    Ok(KnownSpan { id, since, until })
}

/// The spans with their identifiers, ascending by them.
pub(crate) fn read_spans(alloc: Global, rows: Vec<SpanRow>) -> Result<Vec<KnownSpan>, RowsFault>
    ensures same { IfOk result (λ v. IsPermutation rows.items (map span_in v.items)) }
    ensures sorted { IfOk result (λ v. IsSortedByKey (λ (s : KnownSpan). s.id) (slice_cmp nat_cmp)
        v.items) }
    ensures ids { IfOk result (λ v. All (λ s. is_id s.id ≡ true) v.items) }
    ensures refused { IfErr result (λ e. e ≡ Unlawful → All (λ s. is_id s.id ≡ true) rows.items
        → ⊥) }
{
    let mut spans = known_spans(alloc, rows)?;
    sort(&mut spans);
    Ok(spans)
}

/// The spans with their identifiers, in their order. Each row is let go once it is read.
fn known_spans(alloc: Global, rows: Vec<SpanRow>) -> Result<Vec<KnownSpan>, RowsFault>
    ensures same { IfOk result (λ v. map span_in v.items ≡ rows.items) }
    ensures ids { IfOk result (λ v. All (λ s. is_id s.id ≡ true) v.items) }
    ensures refused { IfErr result (λ e. e ≡ Unlawful → All (λ s. is_id s.id ≡ true) rows.items
        → ⊥) }
{
    let mut spans = Vec::with_capacity(alloc, rows.len())?;
    for row in rows {
        let span = read_span(alloc, &row)?;
        spans.push(span)?;
    }
    Ok(spans)
}

/// A row of `lpis_row` with its row of lineage.
#[derive(Drop)]
pub(crate) struct KnownLine {
    pub(crate) year: i64,
    pub(crate) position: i64,
    pub(crate) row: Row,
}

impl KnownLine {
    /// Whether it is a row of this year.
    pub(crate) fn is_of(&self, year: u16) -> bool
        ensures { IsTrue result ↔ (self.now.year ≡ pos year) }
    {
        self.year == i64::from(year)
    }

    /// Whether it is the row of this year at this position.
    pub(crate) fn is_at(&self, year: u16, position: usize) -> bool
        ensures { IsTrue result
            ↔ ((self.now.year ≡ pos year) × (self.now.position ≡ pos position)) }
    {
        self.year == i64::from(year) && 0 <= self.position && self.position as usize == position
    }
}

/// The successor of a text, none where it is empty.
fn read_successor(alloc: Global, text: &str) -> Result<Option<Id>, RowsFault>
    ensures same { IfOk result (λ new. successor_text new ≡ text.now) }
    ensures text { IfOk result (λ new. new ≡ Some [] → ⊥) }
    ensures refused { IfErr result (λ e. e ≡ Unlawful → (text.now ≡ []) ⊎ (is_id text.now ≡ true)
        → ⊥) }
{
    if text.is_empty() {
        return Ok(None);
    }
    let id = read_id(alloc, text)?;
    Ok(Some(id))
}

/// A line with its row, which is not marked.
fn read_line(alloc: Global, line: &LineRow) -> Result<KnownLine, RowsFault>
    ensures same { IfOk result (λ l. line_in l ≡ line.now) }
    ensures text { IfOk result (λ l. HasText l.row) }
    ensures refused { IfErr result (λ e. e ≡ Unlawful → IsReadable line.now → ⊥) }
{
    let old = read_id(alloc, line.old.as_str())?;
    let new = read_successor(alloc, line.new.as_str())?;
    let year = line.year;
    let position = line.position;
    let exact = false;
    let row = Row { old, new, exact };
    Ok(KnownLine {
        year,
        position,
        row,
    })
}

/// The lines with their rows, none marked, by year and in it by position.
pub(crate) fn read_lines(alloc: Global, lines: &[LineRow]) -> Result<Vec<KnownLine>, RowsFault>
    ensures same { IfOk result (λ v. IsPermutation lines.now (map line_in v.items)) }
    ensures sorted { IfOk result (λ v. IsSortedByKey line_in line_cmp v.items) }
    ensures texts { IfOk result (λ v. All (λ l. HasText l.row) v.items) }
    ensures refused { IfErr result (λ e. e ≡ Unlawful → All IsReadable lines.now → ⊥) }
{
    let mut known = known_lines(alloc, lines)?;
    known.sort_unstable_by_key(|line| (line.year, line.position));
    Ok(known)
}

/// The lines with their rows, none marked, in their order.
fn known_lines(alloc: Global, lines: &[LineRow]) -> Result<Vec<KnownLine>, RowsFault>
    ensures same { IfOk result (λ v. map line_in v.items ≡ lines.now) }
    ensures texts { IfOk result (λ v. All (λ l. HasText l.row) v.items) }
    ensures refused { IfErr result (λ e. e ≡ Unlawful → All IsReadable lines.now → ⊥) }
{
    let mut known = Vec::new(alloc);
    for line in lines {
        let line = read_line(alloc, line)?;
        known.push(line)?;
    }
    Ok(known)
}

/// A year from 1 to 65,535.
fn year_of(year: &i64) -> Option<u16>
    ensures some { IfSome result (λ y. (year.now ≡ pos y) × (y ≤ last_of_years)) }
    ensures none { IfNone result (IsReleaseYear year.now → ⊥) }
{
    if 1 <= *year && *year <= 65535 {
        Some(*year as u16)
    } else {
        None
    }
}

/// The years, ascending.
pub(crate) fn sorted_years(alloc: Global, years: &[i64]) -> Result<Vec<u16>, RowsFault>
    ensures same { IfOk result (λ v. IsPermutation years.now (map (λ y. pos y) v.items)) }
    ensures small { IfOk result (λ v. All (λ y. y ≤ last_of_years) v.items) }
    ensures sorted { IfOk result (λ v. IsSorted nat_cmp v.items) }
    ensures refused { IfErr result (λ e. e ≡ Unlawful → All IsReleaseYear years.now → ⊥) }
{
    let mut sorted = known_years(alloc, years)?;
    sorted.sort_unstable();
    Ok(sorted)
}

/// The years, in their order.
fn known_years(alloc: Global, years: &[i64]) -> Result<Vec<u16>, RowsFault>
    ensures same { IfOk result (λ v. map (λ y. pos y) v.items ≡ years.now) }
    ensures small { IfOk result (λ v. All (λ y. y ≤ last_of_years) v.items) }
    ensures refused { IfErr result (λ e. e ≡ Unlawful → All IsReleaseYear years.now → ⊥) }
{
    let mut known = Vec::new(alloc);
    for year in years {
        match year_of(year) {
            Some(year) => known.push(year)?,
            None => return Err(RowsFault::Unlawful),
        }
    }
    Ok(known)
}
