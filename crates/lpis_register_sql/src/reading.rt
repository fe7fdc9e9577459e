//! The rows of a table, read one at a time, whichever it is: no list of what a query shows is made.

ghost use Rattle.std.specs.Prelude.{◌≡◌, ◌⊎◌, [], List, length, map, take, false, true, IfOk};
ghost use Rattle.std.specs.Prelude.{IsTrue, OnErr, OnOk};
ghost use Rattle.sqlite.specs.Held.{state};
ghost use Rattle.sqlite.specs.State.{CommitsShowing, HasCleanDisk, IsRolledBack, IsUnchanged};
ghost use Rattle.sqlite.specs.State.{Shown, Survives};
ghost use Rattle.lpis_register_sql.specs.Quiet.{LeavesAll};
ghost use Rattle.lpis_register_sql.specs.Showing.{Shows, ShowsFound, ShowsTable};
ghost use Rattle.lpis_register_sql.specs.StoredTables.{is_read, kinds_of, query_of};
ghost use Rattle.lpis_register_sql.specs.Unread.{Tells};
ghost use Rattle.lpis_register_sql.specs.private.Telling.{IsPlainWhere, TellsRows};

use crate::found::Found;
use sqlite::{Alter, Connection, Error, ErrorCode, Row};
use std::alloc::Global;

/// A row of a table of the register.
pub(crate) trait Stored: Drop {
    ghost use Rattle.std.specs.Prelude.{◌≡◌, ◌≢◌, true, false, IfErr, IfOk};
    ghost use Rattle.std.specs.Prelude.{[], length, map, take};
    ghost use Rattle.sqlite.specs.Order.{Row};
    ghost use Rattle.sqlite.specs.declared.error.Error.TheVariants.{SqliteFailure};
    ghost use Rattle.sqlite.specs.declared.error.ErrorCode.TheVariants.{OutOfMemory};
    ghost use Rattle.lpis_register_sql.specs.StoredTables.{HasColumns, StoredTable, is_read};
    ghost use Rattle.lpis_register_sql.specs.StoredTables.{kinds_of, query_of};

    ghost table: { StoredTable };

    ghost columns: { Self → Row };

    /// Whether its table was found.
    fn was_found(found: &Found) -> bool
        ensures { result ≡ is_read found.now table };

    /// The query that reads its table, and shows all its rows.
    fn query() -> &'static str
        ensures { result.now ≡ query_of table };

    /// A row that the query showed.
    fn read(row: &Row) -> Result<Self, Error>
        ensures columns { IfOk result (λ it. take (length (kinds_of table)) row.now ≡ columns it) }
        ensures misfit { IfErr result (λ e. e ≢ SqliteFailure OutOfMemory
            → ¬ HasColumns (kinds_of table) row.now) };
}

/// Puts what a query shows into a list, one row after the other.
fn take_rows<T: Stored, S: Alter>(
    conn: &mut Connection<S>,
    sql: &str,
    all: &mut Vec<T>,
) -> Result<(), Error>
    requires empty { all.old.items ≡ [] }
    ensures autocommit { conn.old.in_transaction ≡ false → conn.new.in_transaction ≡ false }
    ensures shown { IsPlainWhere conn.old.schema sql.now
        → HasCleanDisk (state S.Store conn.new) → OnOk result ((rows : List Row)
        × Shown sql.now [] (state S.Store conn.old) (state S.Store conn.new) rows
        × (map (take (length (kinds_of T.table))) rows ≡ map T.columns all.new.items)) }
    ensures same { IsPlainWhere conn.old.schema sql.now
        → HasCleanDisk (state S.Store conn.new)
        → OnErr result (IsUnchanged (state S.Store conn.old) (state S.Store conn.new)
        ⊎ IsRolledBack (state S.Store conn.old) (state S.Store conn.new)) }
    ensures tells { TellsRows sql.now (kinds_of T.table) (state S.Store conn.old)
        (state S.Store conn.new) result }
    ensures survives { Survives (state S.Store conn.old) (state S.Store conn.new)
        (CommitsShowing sql.now [] (state S.Store conn.old)) }
{
    let mut rows = conn.query(sql, &[])?;
    'rows: for _ in 0..u64::MAX {
        let Some(row) = rows.next()? else {
            return Ok(());
        };
        let item = T::read(row)?;
        all.push(item)?;
    }
    // No store has so many rows.
    Err(Error::SqliteFailure(ErrorCode::OutOfMemory))
}

/// What a query shows.
fn read_rows<T: Stored, S: Alter>(
    alloc: Global,
    conn: &mut Connection<S>,
    sql: &str,
) -> Result<Vec<T>, Error>
    ensures autocommit { conn.old.in_transaction ≡ false → conn.new.in_transaction ≡ false }
    ensures shown { IsPlainWhere conn.old.schema sql.now
        → HasCleanDisk (state S.Store conn.new) → IfOk result (λ all. (rows : List Row)
        × Shown sql.now [] (state S.Store conn.old) (state S.Store conn.new) rows
        × (map (take (length (kinds_of T.table))) rows ≡ map T.columns all.items)) }
    ensures same { IsPlainWhere conn.old.schema sql.now
        → HasCleanDisk (state S.Store conn.new)
        → OnErr result (IsUnchanged (state S.Store conn.old) (state S.Store conn.new)
        ⊎ IsRolledBack (state S.Store conn.old) (state S.Store conn.new)) }
    ensures tells { TellsRows sql.now (kinds_of T.table) (state S.Store conn.old)
        (state S.Store conn.new) result }
    ensures survives { Survives (state S.Store conn.old) (state S.Store conn.new)
        (CommitsShowing sql.now [] (state S.Store conn.old)) }
{
    let mut all = Vec::new(alloc);
    take_rows(conn, sql, &mut all)?;
    Ok(all)
}

/// The rows of a table.
fn read_table<T: Stored, S: Alter>(alloc: Global, conn: &mut Connection<S>) -> Result<Vec<T>, Error>
    requires autocommit { conn.old.in_transaction ≡ false }
    ensures autocommit { conn.new.in_transaction ≡ false }
    ensures reads { LeavesAll (state S.Store conn.old) (state S.Store conn.new) result }
    ensures tells { TellsRows (query_of T.table) (kinds_of T.table) (state S.Store conn.old)
        (state S.Store conn.new) result }
    ensures shows { Shows (λ db all. ShowsTable db T.table T.columns all.items)
        (state S.Store conn.old) (state S.Store conn.new) result }
    ensures was_open { HasCleanDisk (state S.Store conn.new)
        → OnOk result (IsTrue (state S.Store conn.old).is_open) }
{
    read_rows(alloc, conn, T::query())
}

/// The rows of a table, where it was found.
pub(crate) fn load_rows<T: Stored, S: Alter>(
    alloc: Global,
    conn: &mut Connection<S>,
    found: &Found,
) -> Result<Vec<T>, Error>
    requires autocommit { conn.old.in_transaction ≡ false }
    ensures autocommit { conn.new.in_transaction ≡ false }
    ensures reads { LeavesAll (state S.Store conn.old) (state S.Store conn.new) result }
    ensures tells { Tells found.now (state S.Store conn.old) (state S.Store conn.new) result }
    ensures shows { Shows (λ db all. ShowsFound (is_read found.now T.table) db T.table T.columns
        all.items) (state S.Store conn.old) (state S.Store conn.new) result }
    ensures was_open { IsTrue (is_read found.now T.table) → HasCleanDisk (state S.Store conn.new)
        → OnOk result (IsTrue (state S.Store conn.old).is_open) }
{
    if T::was_found(found) {
        read_table(alloc, conn)
    } else {
        Ok(Vec::new(alloc))
    }
}
