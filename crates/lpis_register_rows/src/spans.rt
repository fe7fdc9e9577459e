//! The spans that moving writes.

ghost use Rattle.std.specs.Prelude.{◌≡◌, ◌++◌, true, is_some, map, ℕ, List, IfOk, OnOk};
ghost use Rattle.std.specs.List.{All};
ghost use Rattle.lpis_tables.specs.Ids.{has_id};
ghost use Rattle.lpis_lineage.specs.Spans.{span_of};
ghost use Rattle.lpis_register_rows.specs.Histories.{IsSpanRow, AreSpansOf};
ghost use Rattle.lpis_register_rows.specs.private.Known.{all_live};

use crate::rows::SpanRow;
use lpis_lineage::{Entry, History, IdSet};
use lpis_tables::Id;
use std::alloc::{AllocError, Global};

/// Copies of a set's identifiers, after others.
fn push_all(ids: &mut Vec<Id>, set: &IdSet) -> Result<(), AllocError>
    ensures { OnOk result (ids.new.items ≡ ids.old.items ++ set.now) }
{
    for id in set.iter() {
        let copy = id.copy()?;
        ids.push(copy)?;
    }
    Ok(())
}

/// Copies of the identifiers of these releases, one after the other.
fn all_ids(alloc: Global, entries: &[Entry]) -> Result<Vec<Id>, AllocError>
    ensures { IfOk result (λ v. v.items ≡ all_live entries.now) }
{
    let mut ids = Vec::new(alloc);
    for entry in entries {
        push_all(&mut ids, &entry.live)?;
    }
    Ok(ids)
}

/// The span of an identifier that some release holds.
fn span_row(alloc: Global, history: &History, id: &Id) -> Result<SpanRow, AllocError>
    requires { is_some (span_of history.now id.now) ≡ true }
    ensures id { IfOk result (λ s. s.id ≡ id.now) }
    ensures right { IfOk result (IsSpanRow history.now) }
{
    match history.span(id) {
        Some(years) => {
            let id = String::from_str(alloc, id.as_str())?;
            let since = i64::from(years.first);
            let until = i64::from(years.last);
            Ok(SpanRow { id, since, until })
        }
        // Some release holds it.
        None => unreachable!(),
    }
}

/// The spans of identifiers that some release holds, in their order.
fn span_rows(alloc: Global, history: &History, ids: &[Id]) -> Result<Vec<SpanRow>, AllocError>
    requires { (q : List ℕ) → has_id ids.now q ≡ true → is_some (span_of history.now q) ≡ true }
    ensures ids { IfOk result (λ v. map (λ s. s.id) v.items ≡ ids.now) }
    ensures right { IfOk result (λ v. All (IsSpanRow history.now) v.items) }
{
    let mut rows = Vec::new(alloc);
    for id in ids {
        let row = span_row(alloc, history, id)?;
        rows.push(row)?;
    }
    Ok(rows)
}

/// The spans of a history's identifiers, ascending by identifier.
pub fn spans_of(alloc: Global, history: &History) -> Result<Vec<SpanRow>, AllocError>
    ensures { IfOk result (λ v. AreSpansOf v.items history.now) }
{
    let mut ids = all_ids(alloc, history.releases())?;
    ids.sort_unstable();
    ids.dedup();
    let rows = span_rows(alloc, history, ids.as_slice())?;
    Ok(rows)
}
