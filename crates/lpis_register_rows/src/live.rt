//! Rows of version 1: each live row is a span of one year.

ghost use Rattle.std.specs.Prelude.{◌≡◌, ◌↔◌, true, false, pos, List, map, Contains, IfErr, IfOk};
ghost use Rattle.std.specs.Prelude.{IsTrue};
ghost use Rattle.std.specs.List.{All};
ghost use Rattle.lpis_tables.specs.Ids.{is_id};
ghost use Rattle.lpis_lineage.specs.declared.row.Entry.{Entry};
ghost use Rattle.lpis_register_rows.specs.declared.fault.RowsFault.TheVariants.{Unlawful};
ghost use Rattle.lpis_register_rows.specs.Histories.{HasHistoryByLive};
ghost use Rattle.lpis_register_rows.specs.private.Known.{one_year, span_in};

use crate::building::build;
use crate::fault::RowsFault;
use crate::known::{KnownSpan, read_id, sorted_years};
use crate::marks::marked_lines;
use crate::opening::has_version;
use crate::rows::{LiveRow, Rows};
use lpis_lineage::History;
use std::alloc::Global;

/// A live row as a span of one year.
fn read_one(alloc: Global, row: &LiveRow) -> Result<KnownSpan, RowsFault>
    ensures same { IfOk result (λ s. span_in s ≡ one_year row.now) }
    ensures id { IfOk result (λ s. is_id s.id ≡ true) }
    ensures refused { IfErr result (λ e. e ≡ Unlawful → is_id row.now.id ≡ false) }
{
    let id = read_id(alloc, row.id.as_str())?;
    let since = row.year;
    let until = row.year;
    Ok(KnownSpan { id, since, until })
}

/// The live rows as spans of one year, in their order.
fn read_live(alloc: Global, rows: &[LiveRow]) -> Result<Vec<KnownSpan>, RowsFault>
    ensures same { IfOk result (λ v. map span_in v.items ≡ map one_year rows.now) }
    ensures ids { IfOk result (λ v. All (λ s. is_id s.id ≡ true) v.items) }
    ensures refused { IfErr result (λ e. e ≡ Unlawful → All (λ l. is_id l.id ≡ true) rows.now → ⊥) }
{
    let mut spans = Vec::new(alloc);
    for row in rows {
        let span = read_one(alloc, row)?;
        spans.push(span)?;
    }
    Ok(spans)
}

/// Whether a span begins with one of these years.
fn has_year(years: &[u16], span: &KnownSpan) -> bool
    ensures { IsTrue result ↔ Contains (map (λ y. pos y) years.now) span.now.since }
{
    for year in years {
        if i64::from(*year) == span.since {
            return true;
        }
    }
    false
}

/// Whether each span begins with one of these years.
fn have_years(years: &[u16], spans: &[KnownSpan]) -> bool
    ensures { IsTrue result ↔ All (λ s. Contains (map (λ y. pos y) years.now) s.since) spans.now }
{
    for span in spans {
        if !has_year(years, span) {
            return false;
        }
    }
    true
}

/// The history that rows of version 1 say, in whatever order they are; `Unlawful` exactly where
/// they say none.
pub(crate) fn live_history_of(alloc: Global, rows: &Rows) -> Result<History, RowsFault>
    ensures ok { IfOk result (HasHistoryByLive rows.now) }
    ensures unlawful { IfErr result (λ e. e ≡ Unlawful → (h : List Entry)
        → HasHistoryByLive rows.now h → ⊥) }
{
    if !has_version(rows.formats(), 1) {
        return Err(RowsFault::Unlawful);
    }
    let years = sorted_years(alloc, rows.years())?;
    let spans = read_live(alloc, rows.live())?;
    let lines = marked_lines(alloc, rows.lines(), &[])?;
    if !have_years(years.as_slice(), spans.as_slice()) {
        return Err(RowsFault::Unlawful);
    }
    let history = build(alloc, years.as_slice(), spans.as_slice(), lines.as_slice())?;
    let _ = history.releases();
    Ok(history)
}
