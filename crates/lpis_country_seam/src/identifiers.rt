//! The identifiers of all parcels so far.

ghost use Rattle.std.specs.Prelude.{◌≡◌, ℕ, List, [], OnOk, true, cond};
ghost use Rattle.lpis_tables.specs.Ids.{has_id, same_id};

use lpis_tables::Id;
use std::alloc::{AllocError, Global};
use std::collections::BTreeSet;
use std::marker::Model;

/// A set of identifiers. Contracts see a list of them, of which only what it has is said.
#[derive(Drop)]
pub(crate) struct Identifiers {
    ids: BTreeSet<Id>,
}

impl Model for Identifiers {
    ghost use Rattle.std.specs.Prelude.{ℕ, List};

    ghost Value = { List (List ℕ) };

    ghost view = { λ s. s.ids.keys };
}

impl Identifiers {
    /// No identifiers.
    pub(crate) fn new(alloc: Global) -> Identifiers
        ensures { result ≡ [] }
    {
        Identifiers {
            ids: BTreeSet::new(alloc),
        }
    }

    /// Adds an identifier.
    pub(crate) fn add(&mut self, id: &Id) -> Result<(), AllocError>
        ensures { OnOk result ((q : List ℕ) → has_id self.new q ≡ cond (same_id id.now q) true
            (has_id self.old q)) }
    {
        self.ids.insert(id.copy()?)?;
        Ok(())
    }

    /// Whether the identifier is among them.
    pub(crate) fn contains(&self, id: &Id) -> bool
        ensures { result ≡ has_id self.now id.now }
    {
        self.ids.contains(id)
    }
}
