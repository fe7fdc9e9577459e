//! The statements that write, one a function.

ghost use Rattle.std.specs.Prelude.{◌≡◌, ◌<◌, ◌^◌, ◌∷◌, [], map, pos};
ghost use Rattle.sqlite.specs.Held.{state};
ghost use Rattle.sqlite.specs.Values.{bound};
ghost use Rattle.lpis_register_rows.specs.Content.{successor_text};
ghost use Rattle.lpis_register_sql.specs.Making.{plain_statement};
ghost use Rattle.lpis_register_sql.specs.Within.{Ends, IsQuiet, Makes};
ghost use Rattle.lpis_register_sql.specs.private.Lines.{line_with, row_line};
ghost use Rattle.lpis_register_sql.specs.Stopping.{ending_statement, line_statement};
ghost use Rattle.lpis_register_sql.specs.Stopping.{span_statement, year_statement};

use lpis_lineage::Row;
use lpis_tables::Id;
use sqlite::types::ValueRef;
use sqlite::{Alter, Error, Transaction, params};

/// Executes a statement inside a transaction.
fn execute<S: Alter>(
    tx: &mut Transaction<'_, S>,
    sql: &str,
    values: &[ValueRef<'_>],
) -> Result<(), Error>
    ensures same_reference { tx.new.conn.ghost_name ≡ tx.old.conn.ghost_name }
    ensures ends { Ends S.Store ((record { sql = sql.now; values = bound values.now }) ∷ [])
        tx.old.conn.now tx.new.conn.now result }
    ensures quiet { IsQuiet (state S.Store tx.old.conn.now) (state S.Store tx.new.conn.now) }
{
    tx.execute(sql, values)?;
    Ok(())
}

/// Makes a statement inside a transaction.
pub(crate) fn run<S: Alter>(
    tx: &mut Transaction<'_, S>,
    sql: &str,
    values: &[ValueRef<'_>],
) -> Result<(), Error>
    ensures same_reference { tx.new.conn.ghost_name ≡ tx.old.conn.ghost_name }
    ensures makes { Makes S.Store ((record { sql = sql.now; values = bound values.now }) ∷ [])
        tx.old.conn.now tx.new.conn.now result }
{
    execute(tx, sql, values)
}

/// Makes statements without parameters, in turn.
pub(crate) fn run_all<S: Alter>(tx: &mut Transaction<'_, S>, texts: &[&str]) -> Result<(), Error>
    ensures same_reference { tx.new.conn.ghost_name ≡ tx.old.conn.ghost_name }
    ensures makes { Makes S.Store (map (λ t. plain_statement t.now) texts.now)
        tx.old.conn.now tx.new.conn.now result }
{
    for text in texts {
        run(tx, text, &[])?;
    }
    Ok(())
}

/// One more release, inside a transaction.
pub(crate) fn insert_release<S: Alter>(tx: &mut Transaction<'_, S>, year: u32) -> Result<(), Error>
    ensures same_reference { tx.new.conn.ghost_name ≡ tx.old.conn.ghost_name }
    ensures makes { Makes S.Store (year_statement (pos year) ∷ [])
        tx.old.conn.now tx.new.conn.now result }
{
    run(
        tx,
        "INSERT INTO lpis_release (year) VALUES (?1)",
        params![year],
    )
}

/// One more span, which has not ended.
pub(crate) fn insert_span<S: Alter>(
    tx: &mut Transaction<'_, S>,
    year: u32,
    id: &Id,
) -> Result<(), Error>
    ensures same_reference { tx.new.conn.ghost_name ≡ tx.old.conn.ghost_name }
    ensures makes { Makes S.Store (span_statement (pos year) id.now ∷ [])
        tx.old.conn.now tx.new.conn.now result }
{
    let id = id.as_str();
    run(
        tx,
        "INSERT INTO lpis_span (id, since, until) VALUES (?1, ?2, 0)",
        params![id, year],
    )
}

/// Ends the span of an identifier with a year.
pub(crate) fn end_span<S: Alter>(
    tx: &mut Transaction<'_, S>,
    year: u32,
    id: &Id,
) -> Result<(), Error>
    ensures same_reference { tx.new.conn.ghost_name ≡ tx.old.conn.ghost_name }
    ensures makes { Makes S.Store (ending_statement (pos year) id.now ∷ [])
        tx.old.conn.now tx.new.conn.now result }
{
    let id = id.as_str();
    run(
        tx,
        "UPDATE lpis_span SET until = ?1 WHERE id = ?2",
        params![year, id],
    )
}

/// The text of a successor, empty for an ending.
fn text_of_successor(successor: &Option<Id>) -> &str
    ensures { result.now ≡ successor_text successor.now }
{
    match successor {
        Some(id) => id.as_str(),
        None => "",
    }
}

/// One more line of the table of rows.
fn insert_line<S: Alter>(
    tx: &mut Transaction<'_, S>,
    year: u32,
    position: usize,
    old: &str,
    new: &str,
) -> Result<(), Error>
    requires small { position < 2 ^ 63 }
    ensures same_reference { tx.new.conn.ghost_name ≡ tx.old.conn.ghost_name }
    ensures makes { Makes S.Store
        (line_statement (line_with (pos year) (pos position) old.now new.now) ∷ []) tx.old.conn.now
        tx.new.conn.now result }
{
    let position = position as i64;
    run(
        tx,
        "INSERT INTO lpis_row (year, pos, old, new) VALUES (?1, ?2, ?3, ?4)",
        params![year, position, old, new],
    )
}

/// One more row of lineage, at its position in the release.
pub(crate) fn insert_row<S: Alter>(
    tx: &mut Transaction<'_, S>,
    year: u32,
    position: usize,
    row: &Row,
) -> Result<(), Error>
    requires small { position < 2 ^ 63 }
    ensures same_reference { tx.new.conn.ghost_name ≡ tx.old.conn.ghost_name }
    ensures makes { Makes S.Store (line_statement (row_line (pos year) (pos position) row.now) ∷ [])
        tx.old.conn.now tx.new.conn.now result }
{
    let old = row.old.as_str();
    let new = text_of_successor(&row.new);
    insert_line(tx, year, position, old, new)
}
