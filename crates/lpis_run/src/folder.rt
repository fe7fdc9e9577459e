//! The files that a command reads: their readers, and their bytes.

ghost use Rattle.std.specs.Prelude.{◌≡◌, IfErr, IfOk, is_some};
ghost use Rattle.std.specs.Option.{option_map};
ghost use Rattle.lpis_run.specs.CheckAnswer.{AreRead, AreTablesRead};
ghost use Rattle.lpis_run.specs.Failures.{AreUnread, AreUntouched};
ghost use Rattle.lpis_run.specs.Folders.{cert_named, folder_by, folder_named, tables_by};
ghost use Rattle.lpis_run.specs.Folders.{tables_named};
ghost use Rattle.lpis_run.specs.Inputs.{inputs_of, tables_of};
ghost use Rattle.lpis_run.specs.Streams.{IsReadIfAny};

use crate::failure::{Failure, Name};
use crate::reading::read_lent;
use std::alloc::Global;
use std::io::Read;

/// The tables of a release, in the order in which they are opened and read: what is kept of each,
/// as a reader or bytes.
#[derive(Debug, Drop)]
pub struct Tables<T: Drop> {
    /// The parcels table.
    pub parcels: T,
    /// The covers table.
    pub covers: T,
    /// The classes table.
    pub classes: T,
}

/// The files of a release, in the order in which they are opened and read.
#[derive(Debug, Drop)]
pub struct Folder<T: Drop> {
    /// The tables of the release.
    pub tables: Tables<T>,
    /// The certificate, where one is named; where none is, one is made.
    pub cert: Option<T>,
}

/// The files of a release that is handed in to be published, or to be given the blocks of its exact
/// lineage, in the order in which they are opened and read.
#[derive(Debug, Drop)]
pub struct Submission<T: Drop> {
    /// The tables of the release, and its certificate where one is named.
    pub folder: Folder<T>,
    /// The lineage table.
    pub lineage: T,
}

/// The two files at the top of a country's folder, in the order in which they are opened and read.
#[derive(Debug, Drop)]
pub struct Top<T: Drop> {
    /// The text that says how the country is cut into regions.
    pub plan: T,
    /// The table of classes that all regions have.
    pub classes: T,
}

/// All bytes of the tables, which are read in their order. Where one is not read, those behind it
/// are as they were.
pub fn read_tables<R: Read + Drop>(
    alloc: Global,
    tables: &mut Tables<R>,
) -> Result<Tables<Vec<u8>>, Failure>
    ensures read { IfOk result (λ t. AreTablesRead (tables_of t)
        (tables_by R.remaining tables.old)) }
    ensures failure { IfErr result (AreUnread (tables_named (tables_by R.remaining tables.old))) }
    ensures untouched { IfErr result
        (AreUntouched (tables_named tables.old) (tables_named tables.new)) }
{
    let parcels = read_lent(alloc, &mut tables.parcels, Name::Parcels)?;
    let covers = read_lent(alloc, &mut tables.covers, Name::Covers)?;
    let classes = read_lent(alloc, &mut tables.classes, Name::Classes)?;
    Ok(Tables {
        parcels,
        covers,
        classes,
    })
}

/// All bytes of the certificate, where one is named.
pub fn read_cert<R: Read + Drop>(
    alloc: Global,
    cert: &mut Option<R>,
) -> Result<Option<Vec<u8>>, Failure>
    ensures bytes { IfOk result (λ b. IsReadIfAny (option_map (λ v. v.items) b)
        (option_map R.remaining cert.old)) }
    ensures failure { IfErr result (AreUnread (cert_named (option_map R.remaining cert.old))) }
    ensures named { is_some cert.new ≡ is_some cert.old }
{
    match cert {
        Some(file) => Ok(Some(read_lent(alloc, file, Name::Cert)?)),
        None => Ok(None),
    }
}

/// All bytes of the tables, and of the certificate where one is named, which is read behind them.
/// Where one is not read, those behind it are as they were.
pub fn read_folder<R: Read + Drop>(
    alloc: Global,
    folder: &mut Folder<R>,
) -> Result<Folder<Vec<u8>>, Failure>
    ensures read { IfOk result (λ i. AreRead (inputs_of i) (folder_by R.remaining folder.old)) }
    ensures failure { IfErr result (AreUnread (folder_named (folder_by R.remaining folder.old))) }
    ensures untouched { IfErr result
        (AreUntouched (folder_named folder.old) (folder_named folder.new)) }
    ensures named { is_some folder.new.cert ≡ is_some folder.old.cert }
{
    let tables = read_tables(alloc, &mut folder.tables)?;
    let cert = read_cert(alloc, &mut folder.cert)?;
    Ok(Folder { tables, cert })
}
