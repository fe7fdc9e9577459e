//! The texts of the shapes of the last release's parcels, written.

ghost use Rattle.std.specs.Prelude.{◌≡◌, ◌∷◌, [], map};
ghost use Rattle.lpis_register_rows.specs.Content.{Deletes, Replaces, Inserts};
ghost use Rattle.lpis_register_rows.specs.Shapes.{written_text};
ghost use Rattle.lpis_register_rows.specs.Editing.{edit_in, edits_in};
ghost use Rattle.lpis_register_sql.specs.Stopping.{edit_statement};
ghost use Rattle.lpis_register_sql.specs.Within.{Makes};
ghost use Rattle.lpis_register_sql.specs.private.Lines.{text_at};

use crate::statements::run;
use lpis_register_rows::{Edit, KeptShape};
use lpis_tables::Id;
use lpis_wkt_writer::write;
use sqlite::{Alter, Error, Transaction, params};
use std::alloc::Global;

/// No text is of this identifier.
fn delete_text<S: Alter>(tx: &mut Transaction<'_, S>, id: &Id) -> Result<(), Error>
    ensures same_reference { tx.new.conn.ghost_name ≡ tx.old.conn.ghost_name }
    ensures makes { Makes S.Store (edit_statement (Deletes id.now) ∷ []) tx.old.conn.now
        tx.new.conn.now result }
{
    let id = id.as_str();
    run(tx, "DELETE FROM lpis_text WHERE id = ?1", params![id])
}

/// A text in place of that of its identifier, its columns apart.
fn replace_text_at<S: Alter>(tx: &mut Transaction<'_, S>, id: &str, wkt: &str) -> Result<(), Error>
    ensures same_reference { tx.new.conn.ghost_name ≡ tx.old.conn.ghost_name }
    ensures makes { Makes S.Store (edit_statement (Replaces (text_at id.now wkt.now)) ∷ [])
        tx.old.conn.now tx.new.conn.now result }
{
    run(
        tx,
        "UPDATE lpis_text SET wkt = ?1 WHERE id = ?2",
        params![wkt, id],
    )
}

/// The text of a shape, in place of that of its identifier.
fn replace_text<S: Alter>(
    alloc: Global,
    tx: &mut Transaction<'_, S>,
    shape: &KeptShape,
) -> Result<(), Error>
    ensures same_reference { tx.new.conn.ghost_name ≡ tx.old.conn.ghost_name }
    ensures makes { Makes S.Store (edit_statement (Replaces (written_text shape.now)) ∷ [])
        tx.old.conn.now tx.new.conn.now result }
{
    let wkt = write(alloc, shape.polygon())?;
    replace_text_at(tx, shape.id().as_str(), wkt.as_str())
}

/// One more text, its columns apart.
fn insert_text_at<S: Alter>(tx: &mut Transaction<'_, S>, id: &str, wkt: &str) -> Result<(), Error>
    ensures same_reference { tx.new.conn.ghost_name ≡ tx.old.conn.ghost_name }
    ensures makes { Makes S.Store (edit_statement (Inserts (text_at id.now wkt.now)) ∷ [])
        tx.old.conn.now tx.new.conn.now result }
{
    run(
        tx,
        "INSERT INTO lpis_text (id, wkt) VALUES (?1, ?2)",
        params![id, wkt],
    )
}

/// The text of a shape, as one more.
fn insert_text<S: Alter>(
    alloc: Global,
    tx: &mut Transaction<'_, S>,
    shape: &KeptShape,
) -> Result<(), Error>
    ensures same_reference { tx.new.conn.ghost_name ≡ tx.old.conn.ghost_name }
    ensures makes { Makes S.Store (edit_statement (Inserts (written_text shape.now)) ∷ [])
        tx.old.conn.now tx.new.conn.now result }
{
    let wkt = write(alloc, shape.polygon())?;
    insert_text_at(tx, shape.id().as_str(), wkt.as_str())
}

/// What becomes of a text.
fn write_edit<S: Alter>(
    alloc: Global,
    tx: &mut Transaction<'_, S>,
    edit: Edit<'_>,
) -> Result<(), Error>
    ensures same_reference { tx.new.conn.ghost_name ≡ tx.old.conn.ghost_name }
    ensures makes { Makes S.Store (edit_statement (edit_in edit.entry) ∷ []) tx.old.conn.now
        tx.new.conn.now result }
{
    match edit {
        Edit::Deletes(id) => delete_text(tx, id),
        Edit::Replaces(shape) => replace_text(alloc, tx, shape),
        Edit::Inserts(shape) => insert_text(alloc, tx, shape),
    }
}

/// What becomes of a text, if anything.
pub(crate) fn write_if<S: Alter>(
    alloc: Global,
    tx: &mut Transaction<'_, S>,
    edit: Option<Edit<'_>>,
) -> Result<(), Error>
    ensures same_reference { tx.new.conn.ghost_name ≡ tx.old.conn.ghost_name }
    ensures makes { Makes S.Store (map edit_statement (edits_in edit.entry))
        tx.old.conn.now tx.new.conn.now result }
{
    match edit {
        Some(edit) => write_edit(alloc, tx, edit),
        None => Ok(()),
    }
}
