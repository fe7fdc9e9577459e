//! Splits and merges that are marked exact.

ghost use Rattle.std.specs.Prelude.{◌≡◌, ◌||◌, ◌&&◌, ◌++◌, ◌∷◌, [], ℕ, List, IfOk, OnOk, All, map};
ghost use Rattle.std.specs.Prelude.{filter, true, false};
ghost use Rattle.std.specs.HashMap.{get};
ghost use Rattle.std.specs.List.{list_any};
ghost use Rattle.lpis_tables.specs.Ids.{has_id, same_id};
ghost use Rattle.lpis_lineage.specs.Changes.{IsChange, kind_at};
ghost use Rattle.lpis_lineage.specs.ExactGroups.{AreExactGroups, group_name, is_kept};
ghost use Rattle.lpis_lineage.specs.Lineage.{names_successor};
ghost use Rattle.lpis_lineage.specs.Order.{IsAscending};
ghost use Rattle.lpis_lineage.specs.declared.row.Row.{Row};
ghost use Rattle.lpis_lineage.specs.private.Marks.{AreMarks};
ghost use Rattle.lpis_lineage.specs.private.Gathered.{AreGathered, HasOthers, as_group, gathers};
ghost use Rattle.lpis_lineage.specs.private.Gathered.{is_exact_of, set_in};

use crate::change::Change;
use crate::id_set::IdSet;
use crate::kind::Kind;
use crate::marks::{Marks, marks_of, merges_exactly, splits_exactly};
use crate::row::Row;
use lpis_memory::Sequence;
use lpis_tables::Id;
use std::alloc::{AllocError, Global};
use std::collections::HashMap;

/// A split or a merge all of whose rows are marked exact.
#[derive(Drop)]
pub struct Group {
    /// Whether it is a merge.
    pub merge: bool,
    /// The old identifier that is split, or the successor of a merge.
    pub id: Id,
    /// The successors of a split, or the predecessors of a merge, ascending; a successor that is
    /// kept is one of its own predecessors.
    pub others: Sequence<Id>,
}

/// Whether an identifier is kept.
fn was_kept(change: &Change, id: &Id) -> bool
    ensures { result ≡ is_kept (kind_at change.now id.now) }
{
    match change.kind_of(id) {
        Some(Kind::Kept) => true,
        _ => false,
    }
}

/// Takes the set of an identifier out of a map.
fn take_set(alloc: Global, sets: &mut HashMap<Id, IdSet>, id: &Id) -> IdSet
    ensures taken { result ≡ set_in (get same_id sets.old id.now) }
    ensures others { (q : List ℕ) → same_id id.now q ≡ false
        → get same_id sets.new q ≡ get same_id sets.old q }
{
    match sets.remove(id) {
        Some(set) => set,
        None => IdSet::new(alloc),
    }
}

/// Adds an identifier to the set of another.
fn note_pair(
    alloc: Global,
    sets: &mut HashMap<Id, IdSet>,
    id: &Id,
    other: &Id,
) -> Result<(), AllocError>
    ensures { OnOk result ((q x : List ℕ) → has_id (set_in (get same_id sets.new q)) x
        ≡ (has_id (set_in (get same_id sets.old q)) x
        || (same_id q id.now && same_id x other.now))) }
{
    let mut set = take_set(alloc, sets, id);
    let added = other.copy()?;
    set.add(added)?;
    let key = id.copy()?;
    sets.insert(key, set)?;
    Ok(())
}

/// Adds what a row says: to an old identifier its successor, or to a successor its predecessor, and
/// the successor itself where it is kept.
fn note_row(
    alloc: Global,
    change: &Change,
    sets: &mut HashMap<Id, IdSet>,
    merge: bool,
    row: &Row,
) -> Result<(), AllocError>
    ensures { OnOk result ((q x : List ℕ) → has_id (set_in (get same_id sets.new q)) x
        ≡ (has_id (set_in (get same_id sets.old q)) x
        || gathers (kind_at change.now) merge q x row.now)) }
{
    match &row.new {
        None => Ok(()),
        Some(successor) => {
            if !merge {
                note_pair(alloc, sets, &row.old, successor)?;
                return Ok(());
            }
            note_pair(alloc, sets, successor, &row.old)?;
            if was_kept(change, successor) {
                note_pair(alloc, sets, successor, successor)?;
            }
            Ok(())
        }
    }
}

/// The successors of each old identifier, or the predecessors of each successor.
fn gather(alloc: Global, change: &Change, merge: bool) -> Result<HashMap<Id, IdSet>, AllocError>
    ensures { IfOk result (λ m. AreGathered (kind_at change.now) merge change.now.rows
        (λ q. set_in (get same_id m q))) }
{
    let mut sets = HashMap::new(alloc);
    for row in change.rows() {
        note_row(alloc, change, &mut sets, merge, row)?;
    }
    Ok(sets)
}

/// The set of an identifier, as a list.
fn others_in(alloc: Global, sets: &HashMap<Id, IdSet>, id: &Id) -> Result<Vec<Id>, AllocError>
    ensures list { IfOk result (λ v. v.items ≡ set_in (get same_id sets.now id.now)) }
    ensures ascend { IfOk result (λ v. IsAscending v.items) }
{
    match sets.get(id) {
        Some(set) => set.ids(alloc),
        None => Ok(Vec::new(alloc)),
    }
}

/// The group of an identifier.
fn group_of(
    alloc: Global,
    sets: &HashMap<Id, IdSet>,
    merge: bool,
    id: &Id,
) -> Result<Group, AllocError>
    ensures name { IfOk result (λ g. group_name g ≡ as_group merge id.now) }
    ensures others { IfOk result (λ g. g.others ≡ set_in (get same_id sets.now id.now)) }
    ensures ascend { IfOk result (λ g. IsAscending g.others) }
{
    let others = others_in(alloc, sets, id)?;
    let id = id.copy()?;
    Ok(Group {
        merge,
        id,
        others: Sequence::new(others),
    })
}

/// Whether an identifier is of an exact split, or a successor that a row names of an exact merge.
fn is_of_exact(change: &Change, marks: &Marks, merge: bool, id: &Id) -> bool
    ensures { (rows : List Row) → AreMarks (kind_at change.now) marks.now rows
        → (merge ≡ true → list_any (names_successor id.now) rows ≡ true)
        → result ≡ is_exact_of merge (kind_at change.now) rows id.now }
{
    if merge {
        merges_exactly(change, marks, id)
    } else {
        splits_exactly(change, marks, id)
    }
}

/// Adds the group of an identifier where it is of an exact split or an exact merge.
fn note_group(
    alloc: Global,
    change: &Change,
    marks: &Marks,
    sets: &HashMap<Id, IdSet>,
    merge: bool,
    id: &Id,
    groups: &mut Vec<Group>,
) -> Result<(), AllocError>
    requires marks { AreMarks (kind_at change.now) marks.now change.now.rows }
    requires sets { AreGathered (kind_at change.now) merge change.now.rows
        (λ q. set_in (get same_id sets.now q)) }
    requires named { merge ≡ true → list_any (names_successor id.now) change.now.rows ≡ true }
    ensures names { OnOk result (map group_name groups.new.items ≡ map group_name groups.old.items
        ++ map (as_group merge) (filter (is_exact_of merge (kind_at change.now) change.now.rows)
        (id.now ∷ []))) }
    ensures others { All (HasOthers (kind_at change.now) change.now.rows merge) groups.old.items
        → OnOk result (All (HasOthers (kind_at change.now) change.now.rows merge)
        groups.new.items) }
{
    if !is_of_exact(change, marks, merge, id) {
        return Ok(());
    }
    let group = group_of(alloc, sets, merge, id)?;
    groups.push(group)?;
    Ok(())
}

/// The exact groups of these identifiers, in their order.
fn groups_of(
    alloc: Global,
    change: &Change,
    marks: &Marks,
    merge: bool,
    ids: &[Id],
) -> Result<Vec<Group>, AllocError>
    requires marks { AreMarks (kind_at change.now) marks.now change.now.rows }
    requires named { merge ≡ true
        → All (λ (id : List ℕ). list_any (names_successor id) change.now.rows ≡ true) ids.now }
    ensures names { IfOk result (λ v. map group_name v.items
        ≡ map (as_group merge) (filter (is_exact_of merge (kind_at change.now) change.now.rows)
        ids.now)) }
    ensures others { IfOk result (λ v. All (HasOthers (kind_at change.now) change.now.rows merge)
        v.items) }
{
    let sets = gather(alloc, change, merge)?;
    let mut groups = Vec::new(alloc);
    for id in ids {
        note_group(alloc, change, marks, &sets, merge, id, &mut groups)?;
    }
    Ok(groups)
}

/// Adds the successor of a row, where there is one.
fn note_successor(named_successors: &mut IdSet, row: &Row) -> Result<(), AllocError>
    ensures { OnOk result ((s : List ℕ) → has_id named_successors.new s
        ≡ (has_id named_successors.old s || names_successor s row.now)) }
{
    match &row.new {
        None => Ok(()),
        Some(successor) => {
            let copy = successor.copy()?;
            named_successors.add(copy)?;
            Ok(())
        }
    }
}

/// The successors that rows name, ascending.
fn successors_of(alloc: Global, change: &Change) -> Result<Vec<Id>, AllocError>
    ensures ascend { IfOk result (λ v. IsAscending v.items) }
    ensures are { IfOk result (λ v. (s : List ℕ) → has_id v.items s
        ≡ list_any (names_successor s) change.now.rows) }
{
    let mut named_successors = IdSet::new(alloc);
    for row in change.rows() {
        note_successor(&mut named_successors, row)?;
    }
    named_successors.ids(alloc)
}

/// The splits all of whose rows are marked, ascending by their old identifiers, and then the merges
/// all of whose rows are marked, ascending by their successors; the others of each ascending.
pub fn exact_groups(alloc: Global, change: &Change) -> Result<Vec<Group>, AllocError>
    ensures { (last live : List (List ℕ)) → IsChange last live change.now.rows change.now
        → IfOk result (λ v. AreExactGroups (kind_at change.now) change.now.rows v.items) }
{
    let marks = marks_of(alloc, change)?;
    let mut groups = groups_of(alloc, change, &marks, false, change.dropped())?;
    let named_successors = successors_of(alloc, change)?;
    let mut merges = groups_of(alloc, change, &marks, true, named_successors.as_slice())?;
    groups.append(&mut merges)?;
    Ok(groups)
}
