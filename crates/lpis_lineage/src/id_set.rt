//! Sets of identifiers.

ghost use Rattle.std.specs.Prelude.{◌≡◌, not, ℕ, List, IfOk, OnOk, true, cond, []};
ghost use Rattle.std.specs.List.{All, filter};
ghost use Rattle.lpis_tables.specs.Ids.{has_id, is_id, same_id};
ghost use Rattle.lpis_lineage.specs.Order.{IsAscending};

use lpis_tables::Id;
use std::alloc::{AllocError, Global};
use std::collections::BTreeSet;
use std::collections::btree_set::{Difference, Iter};
use std::marker::Model;

/// A set of identifiers, which contracts see as their list, ascending by bytes.
#[derive(Drop)]
pub struct IdSet {
    ids: BTreeSet<Id>,
}

impl Model for IdSet {
    ghost use Rattle.std.specs.Prelude.{ℕ, List};
    ghost use Rattle.lpis_lineage.specs.Order.{IsAscending};

    ghost Value = { List (List ℕ) };

    ghost view = { λ s. s.ids.keys };

    ghost invariant = { λ s. IsAscending s.ids.keys };
}

impl IdSet {
    /// No identifiers.
    pub(crate) fn new(alloc: Global) -> IdSet
        ensures { result ≡ [] }
    {
        IdSet {
            ids: BTreeSet::new(alloc),
        }
    }

    /// The set of these identifiers.
    pub(crate) fn of(alloc: Global, ids: &[Id]) -> Result<IdSet, AllocError>
        ensures { IfOk result (λ s. (q : List ℕ) → has_id s q ≡ has_id ids.now q) }
    {
        let copies = copy_ids(alloc, ids)?;
        let ids = BTreeSet::from_iter(alloc, copies)?;
        Ok(IdSet { ids })
    }

    /// Adds an identifier.
    pub(crate) fn add(&mut self, id: Id) -> Result<(), AllocError>
        ensures ok { OnOk result ((q : List ℕ) → has_id self.new q ≡ cond (same_id id q) true
            (has_id self.old q)) }
    {
        self.ids.insert(id)?;
        Ok(())
    }

    /// Whether the set has the identifier.
    pub fn contains(&self, id: &Id) -> bool
        ensures { result ≡ has_id self.now id.now }
    {
        self.ids.contains(id)
    }

    /// The identifiers, ascending by bytes.
    pub fn iter(&self) -> Iter<'_, Id>
        ensures rest { result ≡ self.now }
        ensures ascending { IsAscending self.now }
    {
        self.ids.iter()
    }

    /// Copies of the identifiers, ascending by bytes.
    pub(crate) fn ids(&self, alloc: Global) -> Result<Vec<Id>, AllocError>
        ensures list { IfOk result (λ v. v.items ≡ self.now) }
        ensures ascending { IfOk result (λ v. IsAscending v.items) }
    {
        let mut copies = Vec::new(alloc);
        for id in self.iter() {
            let copy = id.copy()?;
            copies.push(copy)?;
        }
        Ok(copies)
    }

    /// The identifiers that another set lacks, ascending by bytes. Both are walked side by side.
    pub(crate) fn lacking<'a>(&'a self, other: &'a IdSet) -> Difference<'a, Id, Global>
        ensures rest { result ≡ filter (λ id. not (has_id other.now id)) self.now }
        ensures ascending { IsAscending result }
    {
        self.ids.difference(&other.ids)
    }

    /// Copies of those identifiers of another set that are not in this one, ascending.
    pub(crate) fn outside(&self, alloc: Global, other: &IdSet) -> Result<Vec<Id>, AllocError>
        ensures list { IfOk result (λ v. v.items ≡ filter (λ id. not (has_id self.now id))
            other.now) }
        ensures ascending { IfOk result (λ v. IsAscending v.items) }
        ensures ids { IfOk result (λ v. All (λ id. is_id id ≡ true) v.items) }
    {
        let mut found = Vec::new(alloc);
        for id in other.lacking(self) {
            let _ = id.as_str();
            let copy = id.copy()?;
            found.push(copy)?;
        }
        Ok(found)
    }
}

/// Copies of these identifiers, in their order.
pub(crate) fn copy_ids(alloc: Global, ids: &[Id]) -> Result<Vec<Id>, AllocError>
    ensures { IfOk result (λ v. v.items ≡ ids.now) }
{
    let mut copies = Vec::with_capacity(alloc, ids.len())?;
    for id in ids {
        let copy = id.copy()?;
        copies.push(copy)?;
    }
    Ok(copies)
}
