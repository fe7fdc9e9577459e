//! Identifiers of rows.

ghost use Rattle.std.specs.Prelude.{◌≡◌, ◌++◌, ◌∷◌, [], not, length, position, slice_get, is_some};
ghost use Rattle.std.specs.Prelude.{IfOk, OnErr, IfSome, Some, if◌then◌else◌};
ghost use Rattle.std.specs.List.{IsDistinct};
ghost use Rattle.lpis_tables.specs.Ids.{has_id, same_id};

use crate::id::Id;
use indexmap::IndexSet;
use std::alloc::{AllocError, Global};
use std::marker::Model;

/// Identifiers in the order in which they came, no two the same. Contracts see their list. One is
/// found in constant time.
#[derive(Drop)]
pub(crate) struct Keys {
    ids: IndexSet<Id>,
}

impl Model for Keys {
    ghost use Rattle.std.specs.Prelude.{List, ℕ};

    ghost Value = { List (List ℕ) };

    ghost view = { λ k. k.ids.keys };
}

impl Keys {
    /// No identifiers, with room for so many.
    pub(crate) fn with_capacity(alloc: Global, count: usize) -> Result<Keys, AllocError>
        ensures { IfOk result (λ keys. keys ≡ []) }
    {
        Ok(Keys {
            ids: IndexSet::with_capacity(alloc, count)?,
        })
    }

    /// Adds an identifier after the others and says whether it was not among them. One that was is
    /// not added again; a refusal adds nothing.
    pub(crate) fn add(&mut self, id: &Id) -> Result<bool, AllocError>
        ensures new { IfOk result (λ new. new ≡ not (has_id self.old id.now)) }
        ensures added { IfOk result
            (λ new. self.new ≡ (if new then self.old ++ id.now ∷ [] else self.old)) }
        ensures refused { OnErr result (self.new ≡ self.old) }
    {
        let new = self.ids.insert(id.copy()?)?;
        Ok(new)
    }

    /// How many there are.
    pub(crate) fn len(&self) -> usize
        ensures len { result ≡ length self.now }
        ensures distinct { IsDistinct same_id self.now }
    {
        self.ids.len()
    }

    /// The index of an identifier.
    pub(crate) fn position(&self, id: &Id) -> Option<usize>
        ensures index { result ≡ position (same_id id.now) self.now }
        ensures found { is_some result ≡ has_id self.now id.now }
        ensures at_index { IfSome result (λ i. slice_get self.now i ≡ Some id.now) }
    {
        self.ids.get_index_of(id)
    }
}
