//! Tables of version 3, made of those that were found, in one transaction in which they are read
//! back.

ghost use Rattle.std.specs.Prelude.{◌≡◌, false, true, IfErr, IsTrue};
ghost use Rattle.sqlite.specs.Held.{state};
ghost use Rattle.sqlite.specs.State.{HasCleanDisk};
ghost use Rattle.lpis_register_rows.specs.Histories.{AreSpansOf};
ghost use Rattle.lpis_register_rows.specs.declared.version.Version.TheVariants.{First as Oldest};
ghost use Rattle.lpis_register.specs.Faults.{IsFailure, IsStoreFault};
ghost use Rattle.lpis_register.specs.declared.fault.PublishFault.TheVariants.{Memory, Store};
ghost use Rattle.lpis_register.specs.private.Commits.{Settles};

use crate::confirming::confirm;
use crate::fault::PublishFault;
use crate::opening::{Loaded, fault_of};
use lpis_register_rows::{SpanRow, Version, spans_of};
use lpis_register_sql::{settle_tables, tables_in};
use sqlite::{Alter, Connection};
use std::alloc::Global;

/// The fault of an opening of which the tables are not read back.
fn fault_of_confirming(fault: PublishFault) -> PublishFault
    requires kind { IsStoreFault fault }
    ensures failure { IsFailure result }
    ensures store { result ≡ Store → fault ≡ Store }
{
    match fault {
        PublishFault::StoreMemory => PublishFault::Memory,
        _ => PublishFault::Store,
    }
}

/// Makes tables of version 3 of those of a version, which say this, and reads them back before that
/// is committed. With an error they are as they were.
fn settle_with<S: Alter>(
    alloc: Global,
    conn: &mut Connection<S>,
    version: Version,
    told: &Loaded,
    spans: &[SpanRow],
) -> Result<(), PublishFault>
    requires autocommit { conn.old.in_transaction ≡ false }
    requires spans { version ≡ Oldest → AreSpansOf spans.now told.now.history }
    ensures autocommit { conn.new.in_transaction ≡ false }
    ensures settles { Settles S.Store version told.now.history told.now.shapes.items conn.old
        conn.new result }
{
    let found = tables_in(conn.schema());
    if found.hidden {
        return Err(PublishFault::Store);
    }
    let complete = found.completed();
    let mut tx = conn.transaction();
    match settle_tables(&mut tx, &found, version, spans) {
        Ok(()) => {}
        Err(error) => return Err(fault_of(error)),
    }
    match confirm(
        alloc,
        &mut tx,
        &complete,
        &told.history,
        told.shapes.as_slice(),
    ) {
        Ok(()) => {}
        Err(fault) => return Err(fault_of_confirming(fault)),
    }
    match tx.commit() {
        Ok(()) => Ok(()),
        Err(error) => Err(fault_of(error)),
    }
}

/// Makes tables of version 3 of those of a version, which say this: of version 1 with the spans of
/// its history.
pub(crate) fn settle<S: Alter>(
    alloc: Global,
    conn: &mut Connection<S>,
    version: Version,
    told: &Loaded,
) -> Result<(), PublishFault>
    requires autocommit { conn.old.in_transaction ≡ false }
    ensures autocommit { conn.new.in_transaction ≡ false }
    ensures settles { Settles S.Store version told.now.history told.now.shapes.items conn.old
        conn.new result }
{
    match version {
        Version::First => match spans_of(alloc, &told.history) {
            Ok(spans) => settle_with(alloc, conn, version, told, spans.as_slice()),
            Err(_) => Err(PublishFault::Memory),
        },
        Version::Second | Version::Third => settle_with(alloc, conn, version, told, &[]),
    }
}
