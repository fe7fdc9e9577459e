//! A register in files that were opened.
//!
//! The layer above may cite: the register is that of the database that was opened; why there is
//! none, and what is left.
//! Begin at `specs/Opening.antt`, then `src/lib.rt`.
#![tactic(auto)]

ghost use Rattle.std.specs.Prelude.{IfOk};
ghost use Rattle.sqlite.specs.Held.{IsNew};
ghost use Rattle.lpis_register_file.specs.Opening.{AnswersOpening};

use lpis_register::{PublishFault, Register, fault_of};
use sqlite::{Connection, Error, FileStore, Leftover};
use sqlite_disk::Disk;
use std::alloc::Global;

/// What is left of files in which no register was opened.
#[derive(Drop)]
pub enum Unopened<D: Disk> {
    /// No database was: what is left of the files, if they were opened.
    Files(Option<Leftover<D>>),
    /// Their database, which no register was made of.
    Database(Connection<FileStore<D>>),
}

/// Opens the register of the database that `Connection::open_from` opened, or makes one in it. It
/// is handed the answer as it is: which file is opened is the caller's.
///
/// With an error of that call, what it left comes back as it is. A file that is no database, that
/// another program has locked, or whose disk fails is the register's failure to store, and only
/// want of memory is out of memory. So the causes of that error are those that the call states, and
/// nothing was written but what it says. Else the fault is that of the register, and the database
/// comes back beside it. Right after Ok a crash leaves tables that say the register that was
/// opened, by the law `a_crash_leaves_what_is_said`.
pub fn open_file<D: Disk + Drop>(
    alloc: Global,
    opened: Result<Connection<FileStore<D>>, (Error, Option<Leftover<D>>)>,
) -> Result<Register<FileStore<D>>, (PublishFault, Unopened<D>)>
    requires fresh { IfOk opened IsNew }
    ensures { AnswersOpening opened result }
{
    match opened {
        Ok(conn) => match Register::adopt(alloc, conn) {
            Ok(register) => Ok(register),
            Err((conn, fault)) => Err((fault, Unopened::Database(conn))),
        },
        Err((error, files)) => Err((fault_of(error), Unopened::Files(files))),
    }
}
