//! Tables of version 3, made of those of a version, inside a transaction.

ghost use Rattle.std.specs.Prelude.{◌≡◌, ◌∷◌, [], false, IsTrue, OnOk, map};
ghost use Rattle.sqlite.specs.Effect.{IsDatabase};
ghost use Rattle.sqlite.specs.Held.{state};
ghost use Rattle.sqlite.specs.State.{HasCleanDisk};
ghost use Rattle.lpis_register_sql.specs.Hiding.{hides_table};
ghost use Rattle.lpis_register_sql.specs.Making.{lives_emptied, moving_statements};
ghost use Rattle.lpis_register_sql.specs.Making.{raising_statements, settling_statements};
ghost use Rattle.lpis_register_sql.specs.Making.{spans_in_place};
ghost use Rattle.lpis_register_sql.specs.Making.{version_in_place, whole_span_statement};
ghost use Rattle.lpis_register_sql.specs.Presence.{AreThere, completed};
ghost use Rattle.lpis_register_sql.specs.Within.{HasTables, Makes};
ghost use Rattle.lpis_register_sql.specs.private.Lines.{span_at};

use crate::completing::complete;
use crate::found::Found;
use crate::statements::{run, run_all};
use lpis_register_rows::{SpanRow, Version};
use sqlite::{Alter, Error, Transaction, params};

/// One more span, its columns apart.
fn insert_span_at<S: Alter>(
    tx: &mut Transaction<'_, S>,
    id: &str,
    since: i64,
    until: i64,
) -> Result<(), Error>
    ensures same_reference { tx.new.conn.ghost_name ≡ tx.old.conn.ghost_name }
    ensures makes { Makes S.Store (whole_span_statement (span_at id.now since until) ∷ [])
        tx.old.conn.now tx.new.conn.now result }
{
    run(
        tx,
        "INSERT INTO lpis_span (id, since, until) VALUES (?1, ?2, ?3)",
        params![id, since, until],
    )
}

/// One more span.
fn insert_whole_span<S: Alter>(tx: &mut Transaction<'_, S>, span: &SpanRow) -> Result<(), Error>
    ensures same_reference { tx.new.conn.ghost_name ≡ tx.old.conn.ghost_name }
    ensures makes { Makes S.Store (whole_span_statement span.now ∷ [])
        tx.old.conn.now tx.new.conn.now result }
{
    insert_span_at(tx, span.id.as_str(), span.since, span.until)
}

/// Spans, in this order.
fn insert_whole_spans<S: Alter>(tx: &mut Transaction<'_, S>, spans: &[SpanRow]) -> Result<(), Error>
    ensures same_reference { tx.new.conn.ghost_name ≡ tx.old.conn.ghost_name }
    ensures makes { Makes S.Store (map whole_span_statement spans.now)
        tx.old.conn.now tx.new.conn.now result }
{
    for span in spans {
        insert_whole_span(tx, span)?;
    }
    Ok(())
}

/// Nothing is left in `lpis_live`, where it is there.
fn empty_lives<S: Alter>(tx: &mut Transaction<'_, S>, found: &Found) -> Result<(), Error>
    ensures same_reference { tx.new.conn.ghost_name ≡ tx.old.conn.ghost_name }
    ensures makes { Makes S.Store (lives_emptied found.now)
        tx.old.conn.now tx.new.conn.now result }
{
    if found.lives {
        run(tx, "DELETE FROM lpis_live", &[])
    } else {
        Ok(())
    }
}

/// These spans in place of any, and no live rows.
fn put_in_spans<S: Alter>(
    tx: &mut Transaction<'_, S>,
    found: &Found,
    spans: &[SpanRow],
) -> Result<(), Error>
    ensures same_reference { tx.new.conn.ghost_name ≡ tx.old.conn.ghost_name }
    ensures makes { Makes S.Store (spans_in_place found.now spans.now)
        tx.old.conn.now tx.new.conn.now result }
{
    run(tx, "DELETE FROM lpis_span", &[])?;
    insert_whole_spans(tx, spans)?;
    empty_lives(tx, found)
}

/// Version 3, with no text and no mark.
fn raise<S: Alter>(tx: &mut Transaction<'_, S>) -> Result<(), Error>
    ensures same_reference { tx.new.conn.ghost_name ≡ tx.old.conn.ghost_name }
    ensures makes { Makes S.Store version_in_place tx.old.conn.now tx.new.conn.now result }
{
    let texts = [
        "DELETE FROM lpis_text",
        "DELETE FROM lpis_mark",
        "UPDATE lpis_format SET version = 3",
    ];
    run_all(tx, &texts)
}

/// The steps from version 1 to version 3.
fn fill_moved<S: Alter>(
    tx: &mut Transaction<'_, S>,
    found: &Found,
    spans: &[SpanRow],
) -> Result<(), Error>
    ensures same_reference { tx.new.conn.ghost_name ≡ tx.old.conn.ghost_name }
    ensures makes { Makes S.Store (moving_statements found.now spans.now)
        tx.old.conn.now tx.new.conn.now result }
{
    complete(tx, found)?;
    put_in_spans(tx, found, spans)?;
    raise(tx)
}

/// The steps from version 2 to version 3.
fn fill_raised<S: Alter>(tx: &mut Transaction<'_, S>, found: &Found) -> Result<(), Error>
    ensures same_reference { tx.new.conn.ghost_name ≡ tx.old.conn.ghost_name }
    ensures makes { Makes S.Store (raising_statements found.now)
        tx.old.conn.now tx.new.conn.now result }
{
    complete(tx, found)?;
    raise(tx)
}

/// Makes tables of version 3 of those of a version, inside a transaction: those that were not found
/// are made; of version 1 or 2 there are no texts and marks then, and of version 1 these spans.
pub fn settle_tables<S: Alter>(
    tx: &mut Transaction<'_, S>,
    found: &Found,
    version: Version,
    spans: &[SpanRow],
) -> Result<(), Error>
    ensures same_reference { tx.new.conn.ghost_name ≡ tx.old.conn.ghost_name }
    ensures makes { Makes S.Store (settling_statements version found.now spans.now)
        tx.old.conn.now tx.new.conn.now result }
    ensures tables { HasCleanDisk (state S.Store tx.new.conn.now)
        → IsTrue (state S.Store tx.old.conn.now).is_open → IsTrue tx.old.conn.now.in_transaction
        → AreThere tx.old.conn.now.schema found.now
        → hides_table tx.old.conn.now.schema ≡ false
        → IsDatabase (state S.Store tx.old.conn.now).now
        → OnOk result (HasTables (completed found.now) (state S.Store tx.new.conn.now)) }
{
    match version {
        Version::First => fill_moved(tx, found, spans),
        Version::Second => fill_raised(tx, found),
        Version::Third => complete(tx, found),
    }
}
