//! What the tables of a database of any version say, read. Nothing is changed.

ghost use Rattle.std.specs.Prelude.{◌≡◌, ◌≢◌, false, IfOk, IfErr, IsTrue, List, OnOk};
ghost use Rattle.sqlite.specs.Held.{state};
ghost use Rattle.sqlite.specs.State.{HasCleanDisk};
ghost use Rattle.lpis_lineage.specs.declared.row.Entry.{Entry};
ghost use Rattle.lpis_lineage.specs.Lineage.{last_live};
ghost use Rattle.lpis_lineage.specs.Order.{IsAscending};
ghost use Rattle.lpis_register_rows.specs.Shapes.{AreLive, ShapesAre, TextsStand, shape_ids};
ghost use Rattle.lpis_register_rows.specs.Histories.{TablesHave};
ghost use Rattle.lpis_register_sql.specs.Quiet.{LeavesAll};
ghost use Rattle.lpis_register.specs.Faults.{IsOpeningFault};
ghost use Rattle.lpis_register.specs.Saying.{SaysNoShapes, SaysNoTables, SaysShapes, SaysTables};
ghost use Rattle.lpis_register.specs.private.Finding.{SeesFound};
ghost use Rattle.lpis_register.specs.private.Finding.{SeesHistory};
ghost use Rattle.lpis_register.specs.private.Finding.{SeesNoHistory, TellsFound};
ghost use Rattle.lpis_register_rows.specs.declared.fault.RowsFault.TheVariants.{Unlawful as OfRows};
ghost use Rattle.lpis_register_rows.specs.declared.version.Version.TheVariants.{Third};
ghost use Rattle.lpis_register.specs.declared.fault.PublishFault.TheVariants.{Store, Unlawful};

use crate::fault::PublishFault;
use crate::opening::{Loaded, fault_of};
use lpis_lineage::History;
use lpis_register_rows::{
    KeptShape, Rows, RowsFault, TextRow, Version, history_of, shapes_of,
    texts_keep_one_list_of_shapes,
};
use lpis_register_sql::{Found, load_found, load_texts};
use sqlite::{Alter, Connection};
use std::alloc::Global;

/// Why rows are not read.
fn fault_of_rows(fault: RowsFault) -> PublishFault
    ensures unlawful { result ≡ Unlawful → fault ≡ OfRows }
    ensures no_store { result ≢ Store }
    ensures kind { IsOpeningFault result }
{
    match fault {
        RowsFault::Memory => PublishFault::Memory,
        RowsFault::Unlawful => PublishFault::Unlawful,
    }
}

/// The history of rows, and their version.
pub(crate) fn history_at(alloc: Global, rows: Rows) -> Result<(History, Version), PublishFault>
    ensures says { IfOk result (λ found. TablesHave found.1 rows found.0) }
    ensures unlawful { IfErr result (λ e. e ≡ Unlawful → (version : _) (h : List Entry)
        → TablesHave version rows h → ⊥) }
    ensures no_store { IfErr result (λ e. e ≢ Store) }
    ensures kinds { IfErr result IsOpeningFault }
{
    match history_of(alloc, rows) {
        Ok(told) => Ok(told),
        Err(fault) => Err(fault_of_rows(fault)),
    }
}

/// The history that the tables say, and their version.
pub(crate) fn find_rows<S: Alter>(
    alloc: Global,
    conn: &mut Connection<S>,
    found: &Found,
) -> Result<(History, Version), PublishFault>
    requires autocommit { conn.old.in_transaction ≡ false }
    ensures autocommit { conn.new.in_transaction ≡ false }
    ensures reads { LeavesAll (state S.Store conn.old) (state S.Store conn.new) result }
    ensures kinds { IfErr result IsOpeningFault }
    ensures tells { TellsFound found.now (state S.Store conn.old) (state S.Store conn.new) result }
    ensures sees { SeesFound (SeesHistory found.now) (SeesNoHistory found.now)
        (state S.Store conn.old) (state S.Store conn.new) result }
    ensures was_open { IsTrue found.now.format → HasCleanDisk (state S.Store conn.new)
        → OnOk result (IsTrue (state S.Store conn.old).is_open) }
{
    match load_found(alloc, conn, found) {
        Ok(rows) => history_at(alloc, rows),
        Err(error) => Err(fault_of(error)),
    }
}

/// The shapes of texts, which are to be of live parcels.
pub(crate) fn shapes_at(
    alloc: Global,
    history: &History,
    texts: Vec<TextRow>,
) -> Result<Vec<KeptShape>, PublishFault>
    ensures are { IfOk result (λ shapes. ShapesAre texts.items shapes.items
        × AreLive (last_live history.now) shapes.items) }
    ensures unlawful { IfErr result (λ e. e ≡ Unlawful
        → TextsStand texts.items (last_live history.now) → ⊥) }
    ensures no_store { IfErr result (λ e. e ≢ Store) }
    ensures kinds { IfErr result IsOpeningFault }
{
    match shapes_of(alloc, texts, history) {
        Ok(shapes) => Ok(shapes),
        Err(fault) => Err(fault_of_rows(fault)),
    }
}

/// The shapes of the texts in the tables, where their table is there.
fn find_texts<S: Alter>(
    alloc: Global,
    conn: &mut Connection<S>,
    found: &Found,
    history: &History,
) -> Result<Vec<KeptShape>, PublishFault>
    requires autocommit { conn.old.in_transaction ≡ false }
    ensures autocommit { conn.new.in_transaction ≡ false }
    ensures reads { LeavesAll (state S.Store conn.old) (state S.Store conn.new) result }
    ensures kinds { IfErr result IsOpeningFault }
    ensures ascend { IfOk result (λ shapes. IsAscending (shape_ids shapes.items)) }
    ensures tells { TellsFound found.now (state S.Store conn.old) (state S.Store conn.new) result }
    ensures sees { SeesFound (λ db shapes. SaysShapes Third found.now db history.now shapes.items)
        (λ db. SaysNoShapes Third found.now db history.now)
        (state S.Store conn.old) (state S.Store conn.new) result }
{
    match load_texts(alloc, conn, found) {
        Ok(texts) => shapes_at(alloc, history, texts),
        Err(error) => Err(fault_of(error)),
    }
}

/// The shapes that the tables keep; only version 3 keeps any.
fn find_shapes<S: Alter>(
    alloc: Global,
    conn: &mut Connection<S>,
    found: &Found,
    version: Version,
    history: &History,
) -> Result<Vec<KeptShape>, PublishFault>
    requires autocommit { conn.old.in_transaction ≡ false }
    ensures autocommit { conn.new.in_transaction ≡ false }
    ensures reads { LeavesAll (state S.Store conn.old) (state S.Store conn.new) result }
    ensures kinds { IfErr result IsOpeningFault }
    ensures ascend { IfOk result (λ shapes. IsAscending (shape_ids shapes.items)) }
    ensures tells { TellsFound found.now (state S.Store conn.old) (state S.Store conn.new) result }
    ensures sees { SeesFound (λ db shapes. SaysShapes version found.now db history.now shapes.items)
        (λ db. SaysNoShapes version found.now db history.now)
        (state S.Store conn.old) (state S.Store conn.new) result }
{
    texts_keep_one_list_of_shapes();
    match version {
        Version::First | Version::Second => Ok(Vec::new(alloc)),
        Version::Third => find_texts(alloc, conn, found, history),
    }
}

/// What the tables say, and their version.
pub(crate) fn find_loaded<S: Alter>(
    alloc: Global,
    conn: &mut Connection<S>,
    found: &Found,
) -> Result<(Loaded, Version), PublishFault>
    requires autocommit { conn.old.in_transaction ≡ false }
    ensures autocommit { conn.new.in_transaction ≡ false }
    ensures reads { LeavesAll (state S.Store conn.old) (state S.Store conn.new) result }
    ensures kinds { IfErr result IsOpeningFault }
    ensures tells { TellsFound found.now (state S.Store conn.old) (state S.Store conn.new) result }
    ensures sees { SeesFound (λ db it. SaysTables found.now db it.1 it.0.history it.0.shapes.items)
        (SaysNoTables found.now) (state S.Store conn.old) (state S.Store conn.new) result }
    ensures was_open { IsTrue found.now.format → HasCleanDisk (state S.Store conn.new)
        → OnOk result (IsTrue (state S.Store conn.old).is_open) }
{
    let (history, version) = find_rows(alloc, conn, found)?;
    let shapes = find_shapes(alloc, conn, found, version, &history)?;
    Ok((Loaded { history, shapes }, version))
}
