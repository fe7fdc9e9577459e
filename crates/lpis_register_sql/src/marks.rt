//! The marks of the rows of lineage, written.

ghost use Rattle.std.specs.Prelude.{◌≡◌, ◌<◌, ◌^◌, ◌∷◌, [], map, pos};
ghost use Rattle.lpis_register_rows.specs.Content.{marks_from};
ghost use Rattle.lpis_register_sql.specs.Stopping.{mark_statement};
ghost use Rattle.lpis_register_sql.specs.Within.{Makes};
ghost use Rattle.lpis_register_sql.specs.private.Lines.{mark_at};

use crate::statements::run;
use lpis_lineage::Row;
use sqlite::{Alter, Error, Transaction, params};

/// One more mark: of the row of lineage at a position of a year's release.
fn insert_mark<S: Alter>(
    tx: &mut Transaction<'_, S>,
    year: u32,
    position: usize,
) -> Result<(), Error>
    requires small { position < 2 ^ 63 }
    ensures same_reference { tx.new.conn.ghost_name ≡ tx.old.conn.ghost_name }
    ensures makes { Makes S.Store (mark_statement (mark_at (pos year) (pos position)) ∷ [])
        tx.old.conn.now tx.new.conn.now result }
{
    let position = position as i64;
    run(
        tx,
        "INSERT INTO lpis_mark (year, pos) VALUES (?1, ?2)",
        params![year, position],
    )
}

/// The mark of a row of lineage at its position, where it is marked exact.
pub(crate) fn insert_if<S: Alter>(
    tx: &mut Transaction<'_, S>,
    year: u32,
    position: usize,
    row: &Row,
) -> Result<(), Error>
    requires small { position < 2 ^ 63 }
    ensures same_reference { tx.new.conn.ghost_name ≡ tx.old.conn.ghost_name }
    ensures makes { Makes S.Store
        (map mark_statement (marks_from (pos year) position (row.now ∷ [])))
        tx.old.conn.now tx.new.conn.now result }
{
    if row.exact {
        insert_mark(tx, year, position)
    } else {
        Ok(())
    }
}
