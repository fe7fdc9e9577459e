//! The kinds of the identifiers of the last release.

ghost use Rattle.std.specs.Prelude.{◌≡◌, ◌++◌, ◌∷◌, ℕ, List, [], OnOk, IfOk, Some, true};
ghost use Rattle.lpis_lineage.specs.declared.row.Row.{Row};
ghost use Rattle.lpis_tables.specs.Ids.{has_id};
ghost use Rattle.lpis_lineage.specs.Lineage.{is_this};
ghost use Rattle.lpis_lineage.specs.Kinds.{by_counts, named_successors, kind};
ghost use Rattle.lpis_lineage.specs.private.Tally.{IsTally};
ghost use Rattle.lpis_lineage.specs.private.Fates.{AreFates, is_shared};

use crate::id_set::IdSet;
use crate::kind::Kind;
use crate::row::Row;
use crate::tally::{Tally, tally_successors};
use lpis_tables::Id;
use std::alloc::{AllocError, Global};

/// Who is ended, how often identifiers have successors, and whose successors have others too.
#[derive(Drop)]
pub(crate) struct Fates {
    pub ended: IdSet,
    pub olds: Tally,
    pub shared: IdSet,
}

/// Whether a successor has several predecessors.
fn shares(last: &IdSet, live: &IdSet, named: &Tally, successor: &Id) -> bool
    ensures { (all : List Row) → IsTally named.now (named_successors all)
        → has_id (named_successors all) successor.now ≡ true
        → result ≡ is_shared last.now live.now all successor.now }
{
    let twice = named.twice.contains(successor);
    let was = last.contains(successor);
    let is = live.contains(successor);
    twice || (was && is)
}

/// The kind of an identifier of the last release.
pub(crate) fn kind_of(live: &IdSet, fates: &Fates, id: &Id) -> Kind
    ensures { (last : List (List ℕ)) → (rows : List Row) → AreFates last live.now rows fates.now
        rows → has_id last id.now ≡ true → Some result ≡ kind last live.now rows id.now }
{
    if live.contains(id) {
        return Kind::Kept;
    }
    if fates.ended.contains(id) {
        return Kind::Ended;
    }
    let several = fates.olds.twice.contains(id);
    let shared = fates.shared.contains(id);
    counted(several, shared)
}

/// The kind of a dropped identifier with successors.
fn counted(several: bool, shared: bool) -> Kind
    ensures { result ≡ by_counts several shared }
{
    if several {
        if shared { Kind::Redrawn } else { Kind::Split }
    } else if shared {
        Kind::Merged
    } else {
        Kind::Replaced
    }
}

/// Looks at a row, and keeps it.
fn note_row(
    fates: &mut Fates,
    last: &IdSet,
    live: &IdSet,
    named: &Tally,
    row: &Row,
) -> Result<(), AllocError>
    ensures { (all : List Row) → (before : List Row) → IsTally named.now (named_successors all)
        → ((s : List ℕ) → is_this s row.now.new ≡ true → has_id (named_successors all) s ≡ true)
        → AreFates last.now live.now all fates.old before
        → OnOk result (AreFates last.now live.now all fates.new (before ++ row.now ∷ [])) }
{
    match &row.new {
        None => {
            let old = row.old.copy()?;
            fates.ended.add(old)?;
            Ok(())
        }
        Some(successor) => {
            fates.olds.note(&row.old)?;
            if shares(last, live, named, successor) {
                let old = row.old.copy()?;
                fates.shared.add(old)?;
                Ok(())
            } else {
                Ok(())
            }
        }
    }
}

/// What becomes of the identifiers.
pub(crate) fn all_fates(
    alloc: Global,
    last: &IdSet,
    live: &IdSet,
    rows: &[Row],
) -> Result<Fates, AllocError>
    ensures { IfOk result (λ f. AreFates last.now live.now rows.now f rows.now) }
{
    let named = tally_successors(alloc, rows)?;
    let mut fates = Fates {
        ended: IdSet::new(alloc),
        olds: Tally::new(alloc),
        shared: IdSet::new(alloc),
    };
    for row in rows {
        note_row(&mut fates, last, live, &named, row)?;
    }
    Ok(fates)
}
