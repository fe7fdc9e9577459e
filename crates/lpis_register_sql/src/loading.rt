//! The tables, read.

ghost use Rattle.std.specs.Prelude.{◌≡◌, false, IsTrue, OnOk};
ghost use Rattle.sqlite.specs.State.{HasCleanDisk};
ghost use Rattle.sqlite.specs.Held.{state};
ghost use Rattle.lpis_register_sql.specs.Quiet.{LeavesAll};
ghost use Rattle.lpis_register_sql.specs.Showing.{Shows, ShowsFormats, ShowsRows, ShowsTexts};
ghost use Rattle.lpis_register_sql.specs.Unread.{Tells};

use crate::found::Found;
use crate::reading::load_rows;
use lpis_register_rows::{FormatRow, LineRow, LiveRow, MarkRow, Rows, SpanRow, TextRow};
use sqlite::{Alter, Connection, Error};
use std::alloc::Global;

/// The versions that the tables tell: that of `lpis_format`, or version 3 where spans are there
/// without it.
fn load_formats<S: Alter>(
    alloc: Global,
    conn: &mut Connection<S>,
    found: &Found,
) -> Result<Vec<FormatRow>, Error>
    requires autocommit { conn.old.in_transaction ≡ false }
    ensures autocommit { conn.new.in_transaction ≡ false }
    ensures reads { LeavesAll (state S.Store conn.old) (state S.Store conn.new) result }
    ensures tells { Tells found.now (state S.Store conn.old) (state S.Store conn.new) result }
    ensures shows { Shows (λ db all. ShowsFormats found.now db all.items)
        (state S.Store conn.old) (state S.Store conn.new) result }
    ensures was_open { IsTrue found.now.format → HasCleanDisk (state S.Store conn.new)
        → OnOk result (IsTrue (state S.Store conn.old).is_open) }
{
    if found.format {
        return load_rows(alloc, conn, found);
    }
    let mut formats = Vec::new(alloc);
    if found.spans {
        formats.push(FormatRow { one: 1, version: 3 })?;
    }
    Ok(formats)
}

/// The rows of the tables that were found, but for the texts.
pub fn load_found<S: Alter>(
    alloc: Global,
    conn: &mut Connection<S>,
    found: &Found,
) -> Result<Rows, Error>
    requires autocommit { conn.old.in_transaction ≡ false }
    ensures autocommit { conn.new.in_transaction ≡ false }
    ensures reads { LeavesAll (state S.Store conn.old) (state S.Store conn.new) result }
    ensures tells { Tells found.now (state S.Store conn.old) (state S.Store conn.new) result }
    ensures shows { Shows (ShowsRows found.now) (state S.Store conn.old)
        (state S.Store conn.new) result }
    ensures was_open { IsTrue found.now.format → HasCleanDisk (state S.Store conn.new)
        → OnOk result (IsTrue (state S.Store conn.old).is_open) }
{
    let formats = load_formats(alloc, conn, found)?;
    let years: Vec<i64> = load_rows(alloc, conn, found)?;
    let spans: Vec<SpanRow> = load_rows(alloc, conn, found)?;
    let lines: Vec<LineRow> = load_rows(alloc, conn, found)?;
    let lives: Vec<LiveRow> = load_rows(alloc, conn, found)?;
    let marks: Vec<MarkRow> = load_rows(alloc, conn, found)?;
    Ok(Rows::new(formats, years, spans, lines, lives, marks))
}

/// The texts of shapes, where their table was found.
pub fn load_texts<S: Alter>(
    alloc: Global,
    conn: &mut Connection<S>,
    found: &Found,
) -> Result<Vec<TextRow>, Error>
    requires autocommit { conn.old.in_transaction ≡ false }
    ensures autocommit { conn.new.in_transaction ≡ false }
    ensures reads { LeavesAll (state S.Store conn.old) (state S.Store conn.new) result }
    ensures tells { Tells found.now (state S.Store conn.old) (state S.Store conn.new) result }
    ensures shows { Shows (λ db texts. ShowsTexts found.now db texts.items) (state S.Store conn.old)
        (state S.Store conn.new) result }
{
    load_rows(alloc, conn, found)
}
