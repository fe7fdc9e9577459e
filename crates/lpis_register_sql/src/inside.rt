//! The tables, read inside a transaction: what was written is read back before it is committed.

ghost use Rattle.std.specs.Prelude.{◌≡◌, ◌≢◌, ◌++◌, ◌∷◌, List, length, map, take, IfErr, IfOk};
ghost use Rattle.std.specs.Prelude.{IsTrue, OnOk};
ghost use Rattle.sqlite.specs.State.{HasCleanDisk};
ghost use Rattle.sqlite.specs.Held.{state};
ghost use Rattle.sqlite.specs.Order.{Row as Values};
ghost use Rattle.sqlite.specs.declared.error.Error.TheVariants.{SqliteFailure};
ghost use Rattle.sqlite.specs.declared.error.ErrorCode.TheVariants.{OutOfMemory};
ghost use Rattle.lpis_register_sql.specs.Showing.{Shows, ShowsFormats, ShowsFound, ShowsRows};
ghost use Rattle.lpis_register_sql.specs.Showing.{ShowsTexts};
ghost use Rattle.lpis_register_sql.specs.StoredTables.{HasColumns, is_read, kinds_of};
ghost use Rattle.lpis_register_sql.specs.Unread.{Tells};
ghost use Rattle.lpis_register_sql.specs.Within.{IsQuiet};

use crate::found::Found;
use crate::reading::Stored;
use lpis_register_rows::{FormatRow, LineRow, LiveRow, MarkRow, Rows, SpanRow, TextRow};
use sqlite::{Alter, Error, Row, Transaction};
use std::alloc::Global;

/// The rows of a table, of what its query showed. Each row is let go once it is read.
fn items_of<T: Stored>(alloc: Global, rows: Vec<Row>) -> Result<Vec<T>, Error>
    ensures columns { IfOk result (λ all. map (take (length (kinds_of T.table))) rows.items
        ≡ map T.columns all.items) }
    ensures misfit { IfErr result (λ e. e ≢ SqliteFailure OutOfMemory → (before : List Values)
        × (row : Values) × (after : List Values) × (rows.items ≡ before ++ row ∷ after)
        × ¬ HasColumns (kinds_of T.table) row) }
{
    let mut all = Vec::with_capacity(alloc, rows.len())?;
    for row in rows {
        let item = T::read(&row)?;
        all.push(item)?;
    }
    Ok(all)
}

/// The rows of a table, where it was found.
fn rows_inside<T: Stored, S: Alter>(
    alloc: Global,
    tx: &mut Transaction<'_, S>,
    found: &Found,
) -> Result<Vec<T>, Error>
    ensures same_reference { tx.new.conn.ghost_name ≡ tx.old.conn.ghost_name }
    ensures quiet { IsQuiet (state S.Store tx.old.conn.now) (state S.Store tx.new.conn.now) }
    ensures tells { Tells found.now (state S.Store tx.old.conn.now)
        (state S.Store tx.new.conn.now) result }
    ensures shows { Shows (λ db all. ShowsFound (is_read found.now T.table) db T.table T.columns
        all.items) (state S.Store tx.old.conn.now) (state S.Store tx.new.conn.now) result }
    ensures open { IsTrue (is_read found.now T.table) → HasCleanDisk (state S.Store tx.new.conn.now)
        → OnOk result (IsTrue (state S.Store tx.old.conn.now).is_open) }
{
    if !T::was_found(found) {
        return Ok(Vec::new(alloc));
    }
    let rows = tx.query_all(T::query(), &[])?;
    items_of(alloc, rows)
}

/// The versions that the tables tell, read inside a transaction.
fn formats_inside<S: Alter>(
    alloc: Global,
    tx: &mut Transaction<'_, S>,
    found: &Found,
) -> Result<Vec<FormatRow>, Error>
    ensures same_reference { tx.new.conn.ghost_name ≡ tx.old.conn.ghost_name }
    ensures quiet { IsQuiet (state S.Store tx.old.conn.now) (state S.Store tx.new.conn.now) }
    ensures tells { Tells found.now (state S.Store tx.old.conn.now)
        (state S.Store tx.new.conn.now) result }
    ensures shows { Shows (λ db all. ShowsFormats found.now db all.items)
        (state S.Store tx.old.conn.now) (state S.Store tx.new.conn.now) result }
{
    if found.format {
        return rows_inside(alloc, tx, found);
    }
    let mut formats = Vec::new(alloc);
    if found.spans {
        formats.push(FormatRow { one: 1, version: 3 })?;
    }
    Ok(formats)
}

/// The rows of the tables that were found, but for the texts, read inside a transaction.
pub fn load_found_inside<S: Alter>(
    alloc: Global,
    tx: &mut Transaction<'_, S>,
    found: &Found,
) -> Result<Rows, Error>
    ensures same_reference { tx.new.conn.ghost_name ≡ tx.old.conn.ghost_name }
    ensures quiet { IsQuiet (state S.Store tx.old.conn.now) (state S.Store tx.new.conn.now) }
    ensures tells { Tells found.now (state S.Store tx.old.conn.now)
        (state S.Store tx.new.conn.now) result }
    ensures shows { Shows (ShowsRows found.now) (state S.Store tx.old.conn.now)
        (state S.Store tx.new.conn.now) result }
    ensures open { IsTrue found.now.years → HasCleanDisk (state S.Store tx.new.conn.now)
        → OnOk result (IsTrue (state S.Store tx.old.conn.now).is_open) }
{
    let formats = formats_inside(alloc, tx, found)?;
    let years: Vec<i64> = rows_inside(alloc, tx, found)?;
    let spans: Vec<SpanRow> = rows_inside(alloc, tx, found)?;
    let lines: Vec<LineRow> = rows_inside(alloc, tx, found)?;
    let lives: Vec<LiveRow> = rows_inside(alloc, tx, found)?;
    let marks: Vec<MarkRow> = rows_inside(alloc, tx, found)?;
    Ok(Rows::new(formats, years, spans, lines, lives, marks))
}

/// The texts of shapes, where their table was found, read inside a transaction.
pub fn load_texts_inside<S: Alter>(
    alloc: Global,
    tx: &mut Transaction<'_, S>,
    found: &Found,
) -> Result<Vec<TextRow>, Error>
    ensures same_reference { tx.new.conn.ghost_name ≡ tx.old.conn.ghost_name }
    ensures quiet { IsQuiet (state S.Store tx.old.conn.now) (state S.Store tx.new.conn.now) }
    ensures tells { Tells found.now (state S.Store tx.old.conn.now)
        (state S.Store tx.new.conn.now) result }
    ensures shows { Shows (λ db texts. ShowsTexts found.now db texts.items)
        (state S.Store tx.old.conn.now) (state S.Store tx.new.conn.now) result }
{
    rows_inside(alloc, tx, found)
}
