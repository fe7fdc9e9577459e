//! Which rows' marks hold.

ghost use Rattle.std.specs.Prelude.{◌≡◌, ◌&&◌, ◌++◌, ◌∷◌, ℕ, List, [], IfOk, OnOk, true, cond};
ghost use Rattle.std.specs.Prelude.{not};
ghost use Rattle.std.specs.List.{list_any};
ghost use Rattle.lpis_tables.specs.Ids.{has_id, same_id};
ghost use Rattle.lpis_lineage.specs.declared.row.Row.{Row};
ghost use Rattle.lpis_lineage.specs.Changes.{kind_at};
ghost use Rattle.lpis_lineage.specs.ExactGroups.{is_exact_merge, is_exact_split, is_in_exact};
ghost use Rattle.lpis_lineage.specs.ExactGroups.{is_merged, is_split};
ghost use Rattle.lpis_lineage.specs.Faults.{ReportsFirstOf, marked_row_faults};
ghost use Rattle.lpis_lineage.specs.Kinds.{kind};
ghost use Rattle.lpis_lineage.specs.Lineage.{is_this, names_successor};
ghost use Rattle.lpis_lineage.specs.private.Marks.{AreMarks};

use crate::change::Change;
use crate::fault::{LineageCode, LineageFault};
use crate::id_set::IdSet;
use crate::kind::Kind;
use crate::row::Row;
use lpis_tables::Id;
use std::alloc::{AllocError, Global};

/// What keeps splits and merges from being exact.
#[derive(Drop)]
pub(crate) struct Marks {
    /// The old identifiers of rows that are not marked.
    pub unsplit: IdSet,
    /// The successors of rows that are not marked, or whose old identifier has other successors.
    pub unmerged: IdSet,
}

/// Whether an identifier was split.
fn was_split(change: &Change, id: &Id) -> bool
    ensures { result ≡ is_split (kind_at change.now id.now) }
{
    match change.kind_of(id) {
        Some(Kind::Split) => true,
        _ => false,
    }
}

/// Whether an identifier was merged.
fn was_merged(change: &Change, id: &Id) -> bool
    ensures { result ≡ is_merged (kind_at change.now id.now) }
{
    match change.kind_of(id) {
        Some(Kind::Merged) => true,
        _ => false,
    }
}

/// Adds an identifier where the test is true.
fn add_if(set: &mut IdSet, test: bool, id: &Id) -> Result<(), AllocError>
    ensures { OnOk result ((q : List ℕ) → has_id set.new q
        ≡ cond (test && same_id id.now q) true (has_id set.old q)) }
{
    if test {
        let copy = id.copy()?;
        set.add(copy)?;
        Ok(())
    } else {
        Ok(())
    }
}

/// Whether a row is marked and merges its old identifier.
fn merges(change: &Change, row: &Row) -> bool
    ensures { result ≡ (is_merged (kind_at change.now row.now.old) && row.now.exact) }
{
    was_merged(change, &row.old) && row.exact
}

/// Looks at a row, and keeps it.
fn note_row(marks: &mut Marks, change: &Change, row: &Row) -> Result<(), AllocError>
    ensures { (before : List Row) → AreMarks (kind_at change.now) marks.old before
        → OnOk result (AreMarks (kind_at change.now) marks.new (before ++ row.now ∷ [])) }
{
    add_if(&mut marks.unsplit, !row.exact, &row.old)?;
    match &row.new {
        None => Ok(()),
        Some(successor) => {
            let spoils = !merges(change, row);
            add_if(&mut marks.unmerged, spoils, successor)?;
            Ok(())
        }
    }
}

/// The marks of a change's rows.
pub(crate) fn marks_of(alloc: Global, change: &Change) -> Result<Marks, AllocError>
    ensures { IfOk result (λ m. AreMarks (kind_at change.now) m change.now.rows) }
{
    let mut marks = Marks {
        unsplit: IdSet::new(alloc),
        unmerged: IdSet::new(alloc),
    };
    for row in change.rows() {
        note_row(&mut marks, change, row)?;
    }
    Ok(marks)
}

/// Whether an identifier is of an exact split.
pub(crate) fn splits_exactly(change: &Change, marks: &Marks, id: &Id) -> bool
    ensures { (rows : List Row) → AreMarks (kind_at change.now) marks.now rows
        → result ≡ is_exact_split (kind_at change.now) rows id.now }
{
    was_split(change, id) && !marks.unsplit.contains(id)
}

/// Whether a successor that a row names is of an exact merge.
pub(crate) fn merges_exactly(change: &Change, marks: &Marks, successor: &Id) -> bool
    ensures { (rows : List Row) → AreMarks (kind_at change.now) marks.now rows
        → list_any (names_successor successor.now) rows ≡ true
        → result ≡ is_exact_merge (kind_at change.now) rows successor.now }
{
    !marks.unmerged.contains(successor)
}

/// Whether one of the rows belongs to an exact split or an exact merge.
fn is_exact(change: &Change, marks: &Marks, row: &Row) -> bool
    ensures { (rows : List Row) → AreMarks (kind_at change.now) marks.now rows
        → ((s : List ℕ) → is_this s row.now.new ≡ true → list_any (names_successor s) rows ≡ true)
        → result ≡ is_in_exact (kind_at change.now) rows row.now }
{
    if splits_exactly(change, marks, &row.old) {
        return true;
    }
    match &row.new {
        None => false,
        Some(successor) => merges_exactly(change, marks, successor),
    }
}

/// Whether one of the rows is marked and belongs to neither.
fn is_outside(change: &Change, marks: &Marks, row: &Row) -> bool
    ensures { (rows : List Row) → AreMarks (kind_at change.now) marks.now rows
        → ((s : List ℕ) → is_this s row.now.new ≡ true → list_any (names_successor s) rows ≡ true)
        → result ≡ (row.now.exact && not (is_in_exact (kind_at change.now) rows row.now)) }
{
    row.exact && !is_exact(change, marks, row)
}

/// Looks for a marked row that belongs to no exact split and no exact merge.
pub(crate) fn check_marks(alloc: Global, change: &Change) -> Result<(), LineageFault>
    ensures { ReportsFirstOf (marked_row_faults
        (kind_at change.now) change.now.rows 1 change.now.rows)
        result }
{
    let marks = marks_of(alloc, change)?;
    for (i, row) in change.rows().iter().enumerate() {
        if is_outside(change, &marks, row) {
            return Err(LineageFault::OfRow(LineageCode::MarkedOutside, i + 1));
        }
    }
    Ok(())
}

/// Whether some row is marked.
fn has_marks(rows: &[Row]) -> bool
    ensures { result ≡ list_any (λ r. r.exact) rows.now }
{
    rows.iter().any(|row| row.exact)
}

/// Looks for a marked row that belongs to no exact split and no exact merge, from these identifiers
/// to those.
pub(crate) fn check_marks_of(
    alloc: Global,
    last: &IdSet,
    live: &IdSet,
    rows: &[Row],
) -> Result<(), LineageFault>
    ensures { ReportsFirstOf (marked_row_faults
        (kind last.now live.now rows.now) rows.now 1 rows.now)
        result }
{
    if !has_marks(rows) {
        return Ok(());
    }
    let change = Change::of(alloc, last, live, rows)?;
    check_marks(alloc, &change)
}
