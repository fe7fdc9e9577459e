//! Writing a release, inside a transaction.

ghost use Rattle.std.specs.Prelude.{◌≡◌, pos, IsTrue, OnOk};
ghost use Rattle.sqlite.specs.Held.{state};
ghost use Rattle.sqlite.specs.State.{HasCleanDisk};
ghost use Rattle.lpis_register_rows.specs.Shapes.{text_edits};
ghost use Rattle.lpis_register_sql.specs.Stopping.{release_statements};
ghost use Rattle.lpis_register_sql.specs.Within.{KeepsTables, Makes};

use crate::steps::steps_of;
use crate::writing::write_steps;
use lpis_lineage::Row;
use lpis_register_rows::ShapeChange;
use lpis_tables::Id;
use sqlite::{Alter, Error, Transaction};
use std::alloc::Global;

/// Writes a release inside a transaction: its year, the spans of the identifiers that it drops,
/// which end with the last release's year, the spans of those that are new with it, its rows with
/// their marks, and of its shapes the texts of those that differ from the kept ones; texts of kept
/// shapes that it lacks are deleted. No table is made or dropped.
pub fn write_release<S: Alter>(
    alloc: Global,
    tx: &mut Transaction<'_, S>,
    year: u32,
    last: u32,
    dropped: &[Id],
    fresh: &[Id],
    rows: &[Row],
    change: ShapeChange<'_>,
) -> Result<(), Error>
    ensures same_reference { tx.new.conn.ghost_name ≡ tx.old.conn.ghost_name }
    ensures makes { Makes S.Store (release_statements (pos year) (pos last) dropped.now fresh.now
        rows.now (text_edits change.entry.kept.now change.entry.shapes.now))
        tx.old.conn.now tx.new.conn.now result }
    ensures tables { HasCleanDisk (state S.Store tx.new.conn.now)
        → IsTrue (state S.Store tx.old.conn.now).is_open → IsTrue tx.old.conn.now.in_transaction
        → OnOk result (KeepsTables (state S.Store tx.old.conn.now)
        (state S.Store tx.new.conn.now)) }
{
    let steps = steps_of(year, last, dropped, fresh, rows, change);
    write_steps(alloc, tx, steps)
}
