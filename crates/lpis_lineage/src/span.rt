//! Spans: from which year to which year an identifier is live.

ghost use Rattle.std.specs.Prelude.{◌≡◌, ◌≤◌, ℕ, List, length, IfOk};
ghost use Rattle.std.specs.HashMap.{get, spare};
ghost use Rattle.lpis_tables.specs.Ids.{has_id, same_id};
ghost use Rattle.lpis_lineage.specs.private.Keeping.{begun, ended_in, forgotten};
ghost use Rattle.lpis_lineage.specs.Lineage.{last_live};
ghost use Rattle.lpis_lineage.specs.Spans.{live_in as ids_live_in, in_span};

use crate::id_set::IdSet;
use crate::row::Entry;
use lpis_tables::Id;
use std::alloc::{AllocError, Global};
use std::collections::HashMap;

/// The years in which an identifier is live.
#[derive(Clone, Copy, PartialEq, Eq, Debug, Drop)]
pub struct Span {
    /// The year of the first release that holds it.
    pub first: u16,
    /// The year of the last one; 0 while the identifier is live in the last release of the history.
    pub last: u16,
}

/// Whether a span holds a year.
fn holds(span: Span, year: u16) -> bool
    ensures { result ≡ in_span span year }
{
    span.first <= year && (span.last == 0 || year <= span.last)
}

/// Copies of the identifiers whose span holds the year, in the order given.
pub fn live_in(alloc: Global, spans: &[(Id, Span)], year: u16) -> Result<Vec<Id>, AllocError>
    ensures { IfOk result (λ v. v.items ≡ ids_live_in spans.now year) }
{
    let mut ids = Vec::new(alloc);
    for pair in spans {
        if holds(pair.1, year) {
            let copy = pair.0.copy()?;
            ids.push(copy)?;
        }
    }
    Ok(ids)
}

/// Lets the spans of these identifiers begin in a year.
pub(crate) fn begin_spans(spans: &mut HashMap<Id, Span>, mut ids: Vec<Id>, year: u16)
    requires room { length ids.items ≤ spare spans.old }
    ensures { (q : List ℕ) → get same_id spans.new q ≡ begun (has_id ids.items q) year
        (get same_id spans.old q) }
{
    'ids: while let Some(id) = ids.pop() {
        let span = Span {
            first: year,
            last: 0,
        };
        match spans.insert(id, span) {
            Ok(_) => {}
            // There is room to spare.
            Err(_) => unreachable!(),
        }
    }
}

/// Lets the spans of these identifiers end with a year. It takes no memory.
pub(crate) fn end_spans(spans: &mut HashMap<Id, Span>, ids: &[Id], year: u16)
    ensures { (q : List ℕ) → get same_id spans.new q ≡ ended_in (has_id ids.now q) year
        (get same_id spans.old q) }
{
    for id in ids {
        if let Some(span) = spans.get_mut(id) {
            span.last = year;
        }
    }
}

/// The spans of a history less this release at its end. It takes no memory.
pub(crate) fn take_spans_back(spans: &mut HashMap<Id, Span>, entry: &Entry, before: &[Entry])
    ensures { (q : List ℕ) → get same_id spans.new q ≡ ended_in (has_id (last_live before.now) q) 0
        (forgotten (has_id entry.now.live q) entry.now.year (get same_id spans.old q)) }
{
    forget_spans(spans, &entry.live, entry.year);
    if let Some(last) = before.last() {
        reopen_spans(spans, &last.live);
    }
}

/// Forgets the spans of these identifiers that begin in a year. It takes no memory.
fn forget_spans(spans: &mut HashMap<Id, Span>, ids: &IdSet, year: u16)
    ensures { (q : List ℕ) → get same_id spans.new q ≡ forgotten (has_id ids.now q) year
        (get same_id spans.old q) }
{
    for id in ids.iter() {
        if let Some(span) = spans.get(id).copied() {
            if span.first == year {
                spans.remove(id);
            }
        }
    }
}

/// Lets the spans of these identifiers go on. It takes no memory.
fn reopen_spans(spans: &mut HashMap<Id, Span>, ids: &IdSet)
    ensures { (q : List ℕ) → get same_id spans.new q ≡ ended_in (has_id ids.now q) 0
        (get same_id spans.old q) }
{
    for id in ids.iter() {
        if let Some(span) = spans.get_mut(id) {
            span.last = 0;
        }
    }
}
