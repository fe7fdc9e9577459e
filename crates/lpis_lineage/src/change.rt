//! What a release changes.

ghost use Rattle.std.specs.Prelude.{◌≡◌, ℕ, List, IfOk};
ghost use Rattle.std.specs.HashMap.{get};
ghost use Rattle.lpis_tables.specs.Ids.{same_id};
ghost use Rattle.lpis_lineage.specs.Changes.{IsChange, kind_at};
ghost use Rattle.lpis_lineage.specs.declared.row.Row.{Row};
ghost use Rattle.lpis_lineage.specs.private.Fates.{AreFates};
ghost use Rattle.lpis_lineage.specs.Kinds.{kind};
ghost use Rattle.lpis_lineage.specs.Order.{IsAscending};

use crate::fates::{Fates, all_fates, kind_of};
use crate::id_set::IdSet;
use crate::kind::Kind;
use crate::row::{Row, copy_rows};
use lpis_tables::Id;
use std::alloc::{AllocError, Global};
use std::collections::HashMap;
use std::marker::Model;

/// What a release changes: what became of each identifier of the history's last release, and the
/// rows that say so.
#[derive(Drop)]
pub struct Change {
    kinds: HashMap<Id, Kind>,
    dropped: Vec<Id>,
    rows: Vec<Row>,
}

impl Model for Change {
    ghost use Rattle.lpis_lineage.specs.Changes.{Changes};
    ghost use Rattle.lpis_lineage.specs.Order.{IsAscending};

    ghost Value = { Changes };

    ghost view = { λ a. record {
      kinds = a.kinds.entries;
      dropped_ids = a.dropped.items;
      rows = a.rows.items;
    } };

    ghost invariant = { λ a. IsAscending a.dropped.items };
}

impl Change {
    /// The change from the identifiers of the last release to those that are live now, by these
    /// rows.
    pub(crate) fn of(
        alloc: Global,
        last: &IdSet,
        live: &IdSet,
        rows: &[Row],
    ) -> Result<Change, AllocError>
        ensures { IfOk result (IsChange last.now live.now rows.now) }
    {
        let fates = all_fates(alloc, last, live, rows)?;
        let kinds = kinds_of(alloc, last, live, &fates)?;
        let dropped = live.outside(alloc, last)?;
        let rows = copy_rows(alloc, rows)?;
        Ok(Change {
            kinds,
            dropped,
            rows,
        })
    }

    /// What became of an identifier; `None` where it is not live in the last release.
    pub fn kind_of(&self, id: &Id) -> Option<Kind>
        ensures { result ≡ kind_at self.now id.now }
    {
        self.kinds.get(id).copied()
    }

    /// The rows, in the order in which they were handed in.
    pub fn rows(&self) -> &[Row]
        ensures { result.now ≡ self.now.rows }
    {
        self.rows.as_slice()
    }

    /// The identifiers of the last release that are not live in the new one, ascending by bytes.
    pub fn dropped(&self) -> &[Id]
        ensures list { result.now ≡ self.now.dropped_ids }
        ensures ascending { IsAscending self.now.dropped_ids }
    {
        self.dropped.as_slice()
    }
}

/// The kinds of the identifiers of the last release.
fn kinds_of(
    alloc: Global,
    last: &IdSet,
    live: &IdSet,
    fates: &Fates,
) -> Result<HashMap<Id, Kind>, AllocError>
    ensures { (rows : List Row) → AreFates last.now live.now rows fates.now rows
        → IfOk result (λ m. (q : List ℕ) → get same_id m q ≡ kind last.now live.now rows q) }
{
    let mut kinds = HashMap::new(alloc);
    for id in last.iter() {
        let copy = id.copy()?;
        kinds.insert(copy, kind_of(live, fates, id))?;
    }
    Ok(kinds)
}
