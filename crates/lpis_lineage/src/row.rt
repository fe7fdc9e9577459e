//! Rows of lineage, and releases.

ghost use Rattle.std.specs.Prelude.{◌≡◌, IfOk};
ghost use Rattle.lpis_lineage.specs.Accepts.{IsReleaseEntry};

use crate::id_set::IdSet;
use lpis_memory::Sequence;
use lpis_tables::Id;
use std::alloc::{AllocError, Global};

/// A row of lineage: what an old identifier became in the release that the row belongs to.
#[derive(Debug, Drop)]
pub struct Row {
    /// The old identifier, which the release drops.
    pub old: Id,
    /// A successor in the release; without one the row is an ending.
    pub new: Option<Id>,
    /// Whether it is marked exact.
    pub exact: bool,
}

impl Row {
    /// An equal row.
    pub fn copy(&self) -> Result<Row, AllocError>
        ensures { IfOk result (λ r. r ≡ self.now) }
    {
        let old = self.old.copy()?;
        let new = match &self.new {
            Some(id) => Some(id.copy()?),
            None => None,
        };
        let exact = self.exact;
        Ok(Row { old, new, exact })
    }
}

/// Copies of these rows.
pub(crate) fn copy_rows(alloc: Global, rows: &[Row]) -> Result<Vec<Row>, AllocError>
    ensures { IfOk result (λ v. v.items ≡ rows.now) }
{
    let mut copies = Vec::with_capacity(alloc, rows.len())?;
    for row in rows {
        copies.push(row.copy()?)?;
    }
    Ok(copies)
}

/// A release in a history.
#[derive(Drop)]
pub struct Entry {
    /// Its year.
    pub year: u16,
    /// The identifiers that are live in it.
    pub live: IdSet,
    /// Its rows, in the order in which they were handed in.
    pub rows: Sequence<Row>,
}

impl Entry {
    /// The release of these identifiers and rows.
    pub(crate) fn of(
        alloc: Global,
        year: u16,
        live: IdSet,
        rows: &[Row],
    ) -> Result<Entry, AllocError>
        ensures release { IfOk result (IsReleaseEntry live rows.now) }
        ensures year { IfOk result (λ e. e.year ≡ year) }
    {
        let rows = copy_rows(alloc, rows)?;
        Ok(Entry {
            year,
            live,
            rows: Sequence::new(rows),
        })
    }
}
