//! Writing a release that was accepted.

ghost use Rattle.std.specs.Prelude.{◌≡◌, false, pos, IfErr, IsTrue, List, OnErr, OnOk};
ghost use Rattle.sqlite.specs.Held.{state};
ghost use Rattle.sqlite.specs.State.{HasCleanDisk};
ghost use Rattle.sqlite.specs.declared.error.Error.TheVariants.{SqliteFailure};
ghost use Rattle.sqlite.specs.declared.error.ErrorCode.TheVariants.{OutOfMemory};
ghost use Rattle.lpis_lineage.specs.declared.row.Entry.{Entry};
ghost use Rattle.lpis_register_rows.specs.Shapes.{text_edits};
ghost use Rattle.lpis_register_sql.specs.Stopping.{release_statements};
ghost use Rattle.lpis_register_sql.specs.Within.{KeepsTables, Makes};
ghost use Rattle.lpis_register.specs.Accepting.{IsPrepared};
ghost use Rattle.lpis_register.specs.Failing.{FailsToWrite, writing_statements};
ghost use Rattle.lpis_register.specs.Faults.{IsStoreFault};
ghost use Rattle.lpis_register.specs.Holdings.{Candidate, holdings};
ghost use Rattle.lpis_register.specs.Publishing.{FollowsHistory};
ghost use Rattle.lpis_register.specs.Running.{RunsAlone};
ghost use Rattle.lpis_register.specs.Saying.{LeavesSaid};
ghost use Rattle.lpis_register.specs.private.Writes.{Commits, FailsToCommit};
ghost use Rattle.lpis_register.specs.private.Writes.{IsToWrite, WritesRelease, written};
ghost use Rattle.lpis_register.specs.declared.fault.PublishFault.TheVariants.{Memory, Store};
ghost use Rattle.lpis_register.specs.declared.fault.PublishFault.TheVariants.{StoreMemory};

use crate::accepting::Writing;
use crate::confirming::confirm;
use crate::fault::PublishFault;
use lpis_lineage::{History, IdSet};
use lpis_register_rows::{KeptShape, ShapeChange};
use lpis_register_sql::{tables_in, write_release};
use sqlite::{Alter, Connection, Error, ErrorCode, Transaction};
use std::alloc::Global;

/// Writes an accepted release inside a transaction.
fn fill<S: Alter>(
    alloc: Global,
    tx: &mut Transaction<'_, S>,
    last: u16,
    kept: &[KeptShape],
    writing: &Writing,
) -> Result<(), Error>
    ensures same_reference { tx.new.conn.ghost_name ≡ tx.old.conn.ghost_name }
    ensures makes { Makes S.Store (release_statements (pos writing.now.year) (pos last)
        writing.now.change.dropped_ids writing.now.fresh.items writing.now.change.rows
        (text_edits kept.now writing.now.shapes.items)) tx.old.conn.now tx.new.conn.now result }
    ensures tables { HasCleanDisk (state S.Store tx.new.conn.now)
        → IsTrue (state S.Store tx.old.conn.now).is_open → IsTrue tx.old.conn.now.in_transaction
        → OnOk result (KeepsTables (state S.Store tx.old.conn.now)
        (state S.Store tx.new.conn.now)) }
{
    let shapes = writing.shapes.as_slice();
    write_release(
        alloc,
        tx,
        u32::from(writing.year),
        u32::from(last),
        writing.change.dropped(),
        writing.fresh.as_slice(),
        writing.change.rows(),
        ShapeChange { kept, shapes },
    )
}

/// Writes an accepted release, which stands at a history's end already, in one transaction, reads
/// the tables back, and commits it where they say the history and its shapes. With an error the
/// tables are as they were.
fn write_at_end<S: Alter>(
    alloc: Global,
    conn: &mut Connection<S>,
    history: &History,
    last: u16,
    kept: &[KeptShape],
    writing: &Writing,
) -> Result<(), PublishFault>
    requires autocommit { conn.old.in_transaction ≡ false }
    ensures autocommit { conn.new.in_transaction ≡ false }
    ensures writes { WritesRelease (written writing.now history.now)
        (LeavesSaid history.now writing.now.shapes.items)
        (state S.Store conn.old) (state S.Store conn.new) result }
    ensures runs { (h : List Entry) → IsToWrite writing.now last h history.now → RunsAlone S.Store
        (writing_statements writing.now (holdings h kept.now)) conn.old conn.new result }
    ensures failure { IfErr result IsStoreFault }
    ensures cause { (h : List Entry) → IsToWrite writing.now last h history.now
        → HasCleanDisk (state S.Store conn.new) → IfErr result (λ fault. fault ≡ Store
        → FailsToWrite S.Store writing.now (holdings h kept.now) conn.old conn.new) }
{
    let found = tables_in(conn.schema());
    let mut tx = conn.transaction();
    match fill(alloc, &mut tx, last, kept, writing) {
        Ok(()) => {}
        Err(error) => return Err(fault_of_writing(error)),
    }
    confirm(alloc, &mut tx, &found, history, writing.shapes.as_slice())?;
    match tx.commit() {
        Ok(()) => Ok(()),
        Err(error) => Err(fault_of_writing(error)),
    }
}

/// Puts an accepted release at the history's end.
fn grow(history: &mut History, live: IdSet, writing: &Writing) -> Result<(), PublishFault>
    requires made { (c : Candidate)
        × IsPrepared c history.old (record { live = live; writing = writing.now }) }
    ensures grows { (c : Candidate)
        → IsPrepared c history.old (record { live = live; writing = writing.now })
        → OnOk result (FollowsHistory c history.old (written writing.now history.new)) }
    ensures refused { OnErr result (history.new ≡ history.old) }
    ensures memory { IfErr result (λ e. e ≡ Memory) }
{
    let fresh = writing.fresh.as_slice();
    let added = history.extend(writing.year, live, &writing.change, fresh);
    let _ = history.releases();
    match added {
        Ok(()) => Ok(()),
        Err(_) => Err(PublishFault::Memory),
    }
}

/// Why the database did not write a release. It says itself where it ran out of memory.
fn fault_of_writing(error: Error) -> PublishFault
    ensures either { IsStoreFault result }
    ensures memory { error ≡ SqliteFailure OutOfMemory → result ≡ StoreMemory }
    ensures of_memory { result ≡ StoreMemory → error ≡ SqliteFailure OutOfMemory }
{
    match error {
        Error::SqliteFailure(ErrorCode::OutOfMemory) => PublishFault::StoreMemory,
        _ => PublishFault::Store,
    }
}

/// Writes an accepted release, which stands at the history's end already, or takes it back.
fn write_or_take_back<S: Alter>(
    alloc: Global,
    conn: &mut Connection<S>,
    history: &mut History,
    last: u16,
    kept: &[KeptShape],
    writing: &Writing,
) -> Result<(), PublishFault>
    requires autocommit { conn.old.in_transaction ≡ false }
    ensures autocommit { conn.new.in_transaction ≡ false }
    ensures commits { (h : List Entry) (due : IsToWrite writing.now last h history.old)
        → Commits due.candidate (holdings h kept.now) (written writing.now history.new)
        (state S.Store conn.old) (state S.Store conn.new) result }
    ensures runs { (h : List Entry) → IsToWrite writing.now last h history.old → RunsAlone S.Store
        (writing_statements writing.now (holdings h kept.now)) conn.old conn.new result }
    ensures failure { IfErr result IsStoreFault }
    ensures cause { (h : List Entry) → IsToWrite writing.now last h history.old
        → HasCleanDisk (state S.Store conn.new) → IfErr result (λ fault. fault ≡ Store
        → FailsToWrite S.Store writing.now (holdings h kept.now) conn.old conn.new) }
{
    match write_at_end(alloc, conn, history, last, kept, writing) {
        Ok(()) => Ok(()),
        Err(fault) => {
            history.take_back();
            Err(fault)
        }
    }
}

/// Publishes a release that was accepted for this history: it stands at the end of the history and
/// of that of the tables. With an error both are as before.
pub(crate) fn commit_release<S: Alter>(
    alloc: Global,
    conn: &mut Connection<S>,
    history: &mut History,
    kept: &[KeptShape],
    live: IdSet,
    writing: &Writing,
) -> Result<(), PublishFault>
    requires autocommit { conn.old.in_transaction ≡ false }
    requires made { (c : Candidate)
        × IsPrepared c history.old (record { live = live; writing = writing.now }) }
    ensures autocommit { conn.new.in_transaction ≡ false }
    ensures commits { (c : Candidate)
        → IsPrepared c history.old (record { live = live; writing = writing.now })
        → Commits c (holdings history.old kept.now) (written writing.now history.new)
        (state S.Store conn.old) (state S.Store conn.new) result }
    ensures runs { RunsAlone S.Store (writing_statements writing.now
        (holdings history.old kept.now)) conn.old conn.new result }
    ensures failure { IfErr result (FailsToCommit S.Store writing.now
        (holdings history.old kept.now) conn.old conn.new) }
{
    let last = history.last_year();
    match grow(history, live, writing) {
        // The tables don't have the release yet.
        Ok(()) => write_or_take_back(alloc, conn, history, last, kept, writing),
        Err(fault) => Err(fault),
    }
}
