//! Rows by their own identifiers.

ghost use Rattle.std.specs.Prelude.{◌≡◌, ◌≤◌, map, length, IfSome, Some, is_some, position};
ghost use Rattle.std.specs.Prelude.{slice_get};
ghost use Rattle.std.specs.List.{IsDistinct};
ghost use Rattle.lpis_tables.specs.Ids.{has_id, same_id};
ghost use Rattle.lpis_tables.specs.Table.{most_rows};

use crate::id::Id;
use crate::keys::Keys;
use std::marker::Model;

/// A row that has an identifier of its own.
pub trait Identified {
    ghost use Rattle.std.specs.Prelude.{List, ℕ};

    ghost identifier: { Self → List ℕ };

    /// Its own identifier.
    fn id(&self) -> &Id
        ensures { result.now ≡ identifier self.now };
}

/// The rows of a table in its order, at most 200,000, no two with one identifier. Contracts see
/// their list. A row is found by its identifier in constant time.
#[derive(Drop)]
pub struct Keyed<T: Identified> {
    rows: Vec<T>,
    keys: Keys,
}

impl<T: Identified> Model for Keyed<T> {
    ghost use Rattle.std.specs.Prelude.{List};
    ghost use Rattle.lpis_tables.specs.private.Keyed.{IsKeyed};

    ghost Value = { List T };

    ghost view = { λ k. k.rows.items };

    ghost invariant = { λ k. IsKeyed T.identifier k.keys k.rows.items };
}

impl<T: Identified> Keyed<T> {
    /// These rows, whose identifiers are the keys.
    pub(crate) fn of(rows: Vec<T>, keys: Keys) -> Keyed<T>
        requires same { keys ≡ map T.identifier rows.items }
        requires few { length rows.items ≤ most_rows }
        ensures { result ≡ rows.items }
    {
        let _count = keys.len();
        Keyed { rows, keys }
    }

    /// The rows in the order of the table.
    pub fn as_slice(&self) -> &[T]
        ensures rows { result.now ≡ self.now }
        ensures distinct { IsDistinct same_id (map T.identifier self.now) }
        ensures few { length self.now ≤ most_rows }
    {
        self.rows.as_slice()
    }

    /// The rows alone, in the order of the table; their keys are let go.
    pub fn into_rows(self) -> Vec<T>
        ensures rows { result.items ≡ self }
        ensures distinct { IsDistinct same_id (map T.identifier self) }
        ensures few { length self ≤ most_rows }
    {
        let Keyed { rows, .. } = self;
        rows
    }

    /// The index of the row with this identifier.
    pub fn position(&self, id: &Id) -> Option<usize>
        ensures index { result ≡ position (same_id id.now) (map T.identifier self.now) }
        ensures found { is_some result ≡ has_id (map T.identifier self.now) id.now }
        ensures at_index { IfSome result (λ i. slice_get (map T.identifier self.now) i ≡ Some
            id.now) }
    {
        self.keys.position(id)
    }
}
