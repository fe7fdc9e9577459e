//! The history that rows say.

ghost use Rattle.std.specs.Prelude.{◌≡◌, List, [], IfErr, IfNone, IfOk, IfSome};
ghost use Rattle.lpis_lineage.specs.declared.row.Entry.{Entry};
ghost use Rattle.lpis_register_rows.specs.declared.fault.RowsFault.TheVariants.{Unlawful};
ghost use Rattle.lpis_register_rows.specs.declared.version.Version.{Version as AnyVersion};
ghost use Rattle.lpis_register_rows.specs.Histories.{HasHistoryBySpans, TablesHave, only_format};
ghost use Rattle.lpis_register_rows.specs.private.Known.{number_of};

use crate::building::build;
use crate::fault::RowsFault;
use crate::known::{read_spans, sorted_years};
use crate::live::live_history_of;
use crate::marks::marked_lines;
use crate::named::ascend;
use crate::opening::{are_told, has_version};
use crate::rows::{FormatRow, MarkRow, Rows, SpanRow};
use crate::version::Version;
use lpis_lineage::History;
use std::alloc::Global;

/// The version that rows of `lpis_format` tell.
fn version_of(formats: &[FormatRow]) -> Option<Version>
    ensures some { IfSome result (λ version. formats.now ≡ only_format (number_of version)) }
    ensures none { IfNone result
        ((version : AnyVersion) → formats.now ≡ only_format (number_of version) → ⊥) }
{
    if has_version(formats, 3) {
        Some(Version::Third)
    } else if has_version(formats, 2) {
        Some(Version::Second)
    } else if has_version(formats, 1) {
        Some(Version::First)
    } else {
        None
    }
}

/// The history that these spans and the other rows of a version with spans say beside these marks,
/// in whatever order they are; `Unlawful` exactly where they say none. Each span's text is let go
/// once it is read.
fn spans_history_of(
    alloc: Global,
    rows: &Rows,
    spans: Vec<SpanRow>,
    version: u16,
    marks: &[MarkRow],
) -> Result<History, RowsFault>
    ensures ok { IfOk result
        (HasHistoryBySpans version marks.now (record rows.now { spans = spans.items })) }
    ensures unlawful { IfErr result (λ e. e ≡ Unlawful → (h : List Entry)
        → HasHistoryBySpans version marks.now (record rows.now { spans = spans.items }) h → ⊥) }
{
    if !has_version(rows.formats(), version) {
        return Err(RowsFault::Unlawful);
    }
    let years = sorted_years(alloc, rows.years())?;
    let spans = read_spans(alloc, spans)?;
    let lines = marked_lines(alloc, rows.lines(), marks)?;
    if !ascend(spans.as_slice()) {
        return Err(RowsFault::Unlawful);
    }
    let history = build(alloc, years.as_slice(), spans.as_slice(), lines.as_slice())?;
    let _ = history.releases();
    if !are_told(&history, spans.as_slice()) {
        return Err(RowsFault::Unlawful);
    }
    Ok(history)
}

/// The history that these spans and the other rows say as a version.
fn history_by(
    alloc: Global,
    rows: &Rows,
    spans: Vec<SpanRow>,
    version: Version,
) -> Result<History, RowsFault>
    ensures ok { IfOk result (TablesHave version (record rows.now { spans = spans.items })) }
    ensures unlawful { IfErr result (λ e. e ≡ Unlawful → (h : List Entry)
        → TablesHave version (record rows.now { spans = spans.items }) h → ⊥) }
{
    match version {
        Version::First => live_history_of(alloc, rows),
        Version::Second => spans_history_of(alloc, rows, spans, 2, &[]),
        Version::Third => spans_history_of(alloc, rows, spans, 3, rows.marks()),
    }
}

/// The history that rows say, in whatever order they are, and their version; `Unlawful` exactly
/// where they say none.
pub fn history_of(alloc: Global, mut rows: Rows) -> Result<(History, Version), RowsFault>
    ensures ok { IfOk result (λ told. TablesHave told.1 rows told.0) }
    ensures unlawful { IfErr result (λ e. e ≡ Unlawful → (version : AnyVersion) (h : List Entry)
        → TablesHave version rows h → ⊥) }
{
    let Some(version) = version_of(rows.formats()) else {
        return Err(RowsFault::Unlawful);
    };
    let spans = rows.take_spans(alloc);
    let history = history_by(alloc, &rows, spans, version)?;
    Ok((history, version))
}
