//! A register over a database that is there.

ghost use Rattle.std.specs.Prelude.{◌≡◌, ◌↔◌, false, true, IfOk, IfErr, IsTrue};
ghost use Rattle.lpis_register_rows.specs.declared.version.Version.TheVariants.{Third};
ghost use Rattle.lpis_register_sql.specs.Hiding.{hides_table};
ghost use Rattle.lpis_register_sql.specs.Presence.{AreThere, is_any, is_whole};
ghost use Rattle.lpis_register.specs.FailingToOpen.{HasOpeningCause};
ghost use Rattle.lpis_register.specs.Opening.{IsOpened, IsUnopened};
ghost use Rattle.lpis_register.specs.private.Opens.{Opens};
ghost use Rattle.lpis_register.specs.declared.fault.PublishFault.TheVariants.{Store};

use crate::fault::PublishFault;
use crate::finding::find_loaded;
use crate::opening::Loaded;
use crate::register::Register;
use crate::settling::settle;
use lpis_register_rows::Version;
use lpis_register_sql::{Found, tables_in};
use sqlite::{Alter, Connection};
use std::alloc::Global;

/// Whether nothing is to be made of tables that were found, of this version.
fn is_settled(found: &Found, version: Version) -> bool
    ensures { IsTrue result ↔ ((version ≡ Third) × (is_whole found.now ≡ true)) }
{
    match version {
        Version::Third => found.is_whole(),
        Version::First | Version::Second => false,
    }
}

/// What the tables say that are there; tables of version 3 are made of them.
fn open_found<S: Alter>(
    alloc: Global,
    conn: &mut Connection<S>,
    found: &Found,
) -> Result<Loaded, PublishFault>
    requires autocommit { conn.old.in_transaction ≡ false }
    requires there { AreThere conn.old.schema found.now }
    requires any { is_any found.now ≡ true }
    requires seen { hides_table conn.old.schema ≡ false }
    ensures autocommit { conn.new.in_transaction ≡ false }
    ensures opens { Opens S.Store conn.old conn.new result }
{
    let (told, version) = find_loaded(alloc, conn, found)?;
    if is_settled(found, version) {
        let _ = conn.is_autocommit();
        return Ok(told);
    }
    settle(alloc, conn, version, &told)?;
    Ok(told)
}

/// Makes the tables of version 3 where none is there.
fn open_bare<S: Alter>(
    alloc: Global,
    conn: &mut Connection<S>,
    found: &Found,
) -> Result<Loaded, PublishFault>
    requires autocommit { conn.old.in_transaction ≡ false }
    requires there { AreThere conn.old.schema found.now }
    requires none { is_any found.now ≡ false }
    requires seen { hides_table conn.old.schema ≡ false }
    ensures autocommit { conn.new.in_transaction ≡ false }
    ensures opens { Opens S.Store conn.old conn.new result }
{
    let told = Loaded::none(alloc);
    settle(alloc, conn, Version::Third, &told)?;
    Ok(told)
}

/// What a database says, whose tables are those of version 3 afterwards. Where one of the
/// register's is there, those that are there are read before any is made.
fn open_tables<S: Alter>(alloc: Global, conn: &mut Connection<S>) -> Result<Loaded, PublishFault>
    requires autocommit { conn.old.in_transaction ≡ false }
    ensures autocommit { conn.new.in_transaction ≡ false }
    ensures opens { Opens S.Store conn.old conn.new result }
{
    let found = tables_in(conn.schema());
    if found.hidden {
        Err(PublishFault::Store)
    } else if found.is_any() {
        open_found(alloc, conn, &found)
    } else {
        open_bare(alloc, conn, &found)
    }
}

impl<S: Alter + Drop> Register<S> {
    /// Opens the register in a database: the history that its tables say, in whatever order they
    /// stand, and whatever stands beside. Once they were read, tables that are not there are made,
    /// and those of version 1 or 2 are moved to version 3, in one transaction, which is committed
    /// once the tables were read back and say the same. Rows that are no lawful history are
    /// refused, and so are texts that are not those of shapes of live parcels; then nothing is
    /// changed. Where `lpis_format` is not there, `lpis_span` tells version 3. Where something else
    /// has the name of a table of the register, or a trigger or an index binds one so that no
    /// statement here can read it, that is the register's failure to store.
    /// The connection comes back beside a fault, and its tables hold what they held. With `Store`
    /// there is a cause, which `FailsToOpen` lists.
    pub fn adopt(
        alloc: Global,
        mut connection: Connection<S>,
    ) -> Result<Register<S>, (Connection<S>, PublishFault)>
        requires autocommit { connection.in_transaction ≡ false }
        ensures opened { IfOk result (λ it. IsOpened S.Store connection it.conn it.held.history
            it.held.shapes) }
        ensures unopened { IfErr result (λ e. IsUnopened S.Store connection e.0 e.1) }
        ensures cause { IfErr result (λ e. HasOpeningCause S.Store connection e.0 (e.1 ≡ Store)) }
        ensures autocommit { IfErr result (λ e. e.0.in_transaction ≡ false) }
    {
        match open_tables(alloc, &mut connection) {
            Ok(told) => Ok(Register::of(alloc, connection, told)),
            Err(fault) => Err((connection, fault)),
        }
    }
}
