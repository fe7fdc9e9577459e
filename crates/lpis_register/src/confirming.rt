//! What was written, read back inside its transaction.

ghost use Rattle.std.specs.Prelude.{◌≡◌, true, IfErr, IfOk, IsTrue, List, OnOk};
ghost use Rattle.sqlite.specs.Held.{state};
ghost use Rattle.sqlite.specs.State.{HasCleanDisk, IsUnchanged};
ghost use Rattle.lpis_lineage.specs.Order.{IsAscending};
ghost use Rattle.lpis_register_rows.specs.Shapes.{Shape, shape_ids};
ghost use Rattle.lpis_register_rows.specs.declared.version.Version.TheVariants.{Third};
ghost use Rattle.lpis_register_rows.specs.declared.version.Version.{Version as AnyVersion};
ghost use Rattle.lpis_register_sql.specs.Presence.{is_any};
ghost use Rattle.lpis_register_sql.specs.Within.{IsQuiet};
ghost use Rattle.lpis_register.specs.Failing.{IsUnsaid};
ghost use Rattle.lpis_register.specs.Faults.{IsOpeningFault, IsStoreFault};
ghost use Rattle.lpis_register.specs.Saying.{SaysNoShapes, SaysShapes, SaysTables};
ghost use Rattle.lpis_register.specs.private.Finding.{IsTold, SeesFound, SeesHistory};
ghost use Rattle.lpis_register.specs.private.Finding.{SeesNoHistory, SeesTold, TellsFound};
ghost use Rattle.lpis_register.specs.declared.fault.PublishFault.TheVariants.{Memory, Store};
ghost use Rattle.lpis_register.specs.declared.fault.PublishFault.TheVariants.{StoreMemory};

use crate::comparing::{are_same_shapes, is_same_history};
use crate::fault::PublishFault;
use crate::finding::{history_at, shapes_at};
use crate::opening::fault_of;
use lpis_lineage::History;
use lpis_register_rows::{KeptShape, Version, texts_keep_one_list_of_shapes};
use lpis_register_sql::{Found, load_found_inside, load_texts_inside};
use sqlite::{Alter, Transaction};
use std::alloc::Global;
use std::mem::drop;

/// The history that the tables say, and their version.
fn history_inside<S: Alter>(
    alloc: Global,
    tx: &mut Transaction<'_, S>,
    found: &Found,
) -> Result<(History, Version), PublishFault>
    ensures same_reference { tx.new.conn.ghost_name ≡ tx.old.conn.ghost_name }
    ensures quiet { IsQuiet (state S.Store tx.old.conn.now) (state S.Store tx.new.conn.now) }
    ensures tells { TellsFound found.now (state S.Store tx.old.conn.now)
        (state S.Store tx.new.conn.now) result }
    ensures sees { SeesFound (SeesHistory found.now) (SeesNoHistory found.now)
        (state S.Store tx.old.conn.now) (state S.Store tx.new.conn.now) result }
    ensures kinds { IfErr result IsOpeningFault }
    ensures open { IsTrue found.now.years → HasCleanDisk (state S.Store tx.new.conn.now)
        → OnOk result (IsTrue (state S.Store tx.old.conn.now).is_open) }
{
    match load_found_inside(alloc, tx, found) {
        Ok(rows) => history_at(alloc, rows),
        Err(error) => Err(fault_of(error)),
    }
}

/// The shapes of the texts in the tables, where their table is there.
fn texts_inside<S: Alter>(
    alloc: Global,
    tx: &mut Transaction<'_, S>,
    found: &Found,
    history: &History,
) -> Result<Vec<KeptShape>, PublishFault>
    ensures same_reference { tx.new.conn.ghost_name ≡ tx.old.conn.ghost_name }
    ensures quiet { IsQuiet (state S.Store tx.old.conn.now) (state S.Store tx.new.conn.now) }
    ensures tells { TellsFound found.now (state S.Store tx.old.conn.now)
        (state S.Store tx.new.conn.now) result }
    ensures sees { SeesFound (λ db shapes. SaysShapes Third found.now db history.now shapes.items)
        (λ db. SaysNoShapes Third found.now db history.now)
        (state S.Store tx.old.conn.now) (state S.Store tx.new.conn.now) result }
    ensures ascend { IfOk result (λ shapes. IsAscending (shape_ids shapes.items)) }
    ensures kinds { IfErr result IsOpeningFault }
{
    match load_texts_inside(alloc, tx, found) {
        Ok(texts) => shapes_at(alloc, history, texts),
        Err(error) => Err(fault_of(error)),
    }
}

/// The shapes that the tables keep; only version 3 keeps any.
fn shapes_inside<S: Alter>(
    alloc: Global,
    tx: &mut Transaction<'_, S>,
    found: &Found,
    version: Version,
    history: &History,
) -> Result<Vec<KeptShape>, PublishFault>
    ensures same_reference { tx.new.conn.ghost_name ≡ tx.old.conn.ghost_name }
    ensures quiet { IsQuiet (state S.Store tx.old.conn.now) (state S.Store tx.new.conn.now) }
    ensures tells { TellsFound found.now (state S.Store tx.old.conn.now)
        (state S.Store tx.new.conn.now) result }
    ensures sees { SeesFound (λ db shapes. SaysShapes version found.now db history.now shapes.items)
        (λ db. SaysNoShapes version found.now db history.now)
        (state S.Store tx.old.conn.now) (state S.Store tx.new.conn.now) result }
    ensures ascend { IfOk result (λ shapes. IsAscending (shape_ids shapes.items)) }
    ensures kinds { IfErr result IsOpeningFault }
{
    texts_keep_one_list_of_shapes();
    match version {
        Version::First | Version::Second => Ok(Vec::new(alloc)),
        Version::Third => texts_inside(alloc, tx, found, history),
    }
}

/// Whether the history that the tables say is this one, and the shapes that they keep beside it are
/// these. A history that is this one is let go before the texts are read.
fn shapes_told<S: Alter>(
    alloc: Global,
    tx: &mut Transaction<'_, S>,
    found: &Found,
    version: Version,
    told: History,
    history: &History,
    shapes: &[KeptShape],
) -> Result<bool, PublishFault>
    ensures same_reference { tx.new.conn.ghost_name ≡ tx.old.conn.ghost_name }
    ensures quiet { IsQuiet (state S.Store tx.old.conn.now) (state S.Store tx.new.conn.now) }
    ensures tells { TellsFound found.now (state S.Store tx.old.conn.now)
        (state S.Store tx.new.conn.now) result }
    ensures sees { SeesFound (λ db is. (others : List Shape) × SaysShapes version found.now db told
        others × IsTold told history.now others shapes.now is)
        (λ db. SaysNoShapes version found.now db told)
        (state S.Store tx.old.conn.now) (state S.Store tx.new.conn.now) result }
    ensures kinds { IfErr result IsOpeningFault }
{
    if is_same_history(&told, history) {
        drop(told);
        let others = shapes_inside(alloc, tx, found, version, history)?;
        Ok(are_same_shapes(others.as_slice(), shapes))
    } else {
        let _others = shapes_inside(alloc, tx, found, version, &told)?;
        Ok(false)
    }
}

/// Whether the tables say this history, and keep these shapes.
fn told_inside<S: Alter>(
    alloc: Global,
    tx: &mut Transaction<'_, S>,
    found: &Found,
    history: &History,
    shapes: &[KeptShape],
) -> Result<bool, PublishFault>
    ensures same_reference { tx.new.conn.ghost_name ≡ tx.old.conn.ghost_name }
    ensures quiet { IsQuiet (state S.Store tx.old.conn.now) (state S.Store tx.new.conn.now) }
    ensures tells { TellsFound found.now (state S.Store tx.old.conn.now)
        (state S.Store tx.new.conn.now) result }
    ensures sees { SeesTold found.now history.now shapes.now (state S.Store tx.old.conn.now)
        (state S.Store tx.new.conn.now) result }
    ensures kinds { IfErr result IsOpeningFault }
    ensures open { IsTrue found.now.years → HasCleanDisk (state S.Store tx.new.conn.now)
        → OnOk result (IsTrue (state S.Store tx.old.conn.now).is_open) }
{
    let (told, version) = history_inside(alloc, tx, found)?;
    shapes_told(alloc, tx, found, version, told, history, shapes)
}

/// The fault of a publication of which the tables are not read back: want of memory is the
/// database's, which the register reads.
fn fault_of_reading(fault: PublishFault) -> PublishFault
    ensures failure { IsStoreFault result }
    ensures memory { fault ≡ Memory → result ≡ StoreMemory }
    ensures of_memory { result ≡ StoreMemory → fault ≡ Memory }
{
    match fault {
        PublishFault::Memory => PublishFault::StoreMemory,
        _ => PublishFault::Store,
    }
}

/// Reads the tables back inside a transaction: Ok where they say this history and keep these
/// shapes. With `Store` `lpis_release` was not found, or a table is not read, or they say something
/// else.
pub(crate) fn confirm<S: Alter>(
    alloc: Global,
    tx: &mut Transaction<'_, S>,
    found: &Found,
    history: &History,
    shapes: &[KeptShape],
) -> Result<(), PublishFault>
    ensures same_reference { tx.new.conn.ghost_name ≡ tx.old.conn.ghost_name }
    ensures quiet { IsQuiet (state S.Store tx.old.conn.now) (state S.Store tx.new.conn.now) }
    ensures said { HasCleanDisk (state S.Store tx.new.conn.now) → OnOk result
        ((is_any found.now ≡ true) × ((version : AnyVersion) × SaysTables found.now
        (state S.Store tx.old.conn.now).now version history.now shapes.now)
        × IsUnchanged (state S.Store tx.old.conn.now) (state S.Store tx.new.conn.now)) }
    ensures cause { HasCleanDisk (state S.Store tx.new.conn.now)
        → IsTrue (state S.Store tx.old.conn.now).is_open → IfErr result (λ fault. fault ≡ Store
        → IsUnsaid found.now (state S.Store tx.old.conn.now) (state S.Store tx.new.conn.now)
        history.now shapes.now) }
    ensures failure { IfErr result IsStoreFault }
{
    if !found.years {
        return Err(PublishFault::Store);
    }
    match told_inside(alloc, tx, found, history, shapes) {
        Ok(true) => Ok(()),
        Ok(false) => Err(PublishFault::Store),
        Err(fault) => Err(fault_of_reading(fault)),
    }
}
