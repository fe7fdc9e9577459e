//! The files of a command, opened in their order.

ghost use Rattle.std.specs.Prelude.{◌≡◌, IfErr, IfOk};
ghost use Rattle.std.specs.Option.{option_map};
ghost use Rattle.lpis_run.specs.Folders.{cert_named, folder_by, folder_named, submission_by};
ghost use Rattle.lpis_run.specs.Folders.{submission_named, tables_by, tables_named, top_by};
ghost use Rattle.lpis_run.specs.Folders.{top_named};
ghost use Rattle.lpis_run.specs.declared.failure.Failure.{Failure};
ghost use Rattle.lpis_command_line.specs.Files.{path_of};
ghost use Rattle.lpis_perform.specs.Opening.{AreOpen, IsNotOpen, StopsOpening, bytes_of};
ghost use Rattle.lpis_perform.specs.Standing.{MayOpen, Opens};
ghost use Rattle.lpis_perform.specs.private.Missing.{IsOpenIfThere};

use crate::machine::{Machine, Opened};
use lpis_command_line::NamedFile;
use lpis_run::{Failure, Folder, Submission, Tables, Top};
use std::alloc::Global;

/// Opens what stands at the path of a file.
fn open_at_path<M: Machine>(
    alloc: Global,
    machine: &M,
    file: &NamedFile<'_>,
) -> Result<Opened<M::File>, Failure>
    ensures opened { IfOk result
        (Opens M.File.remaining (M.standing machine.now (path_of file.now))) }
    ensures failure { IfErr result (λ f. f ≡ Failure.Memory) }
{
    let path = file.whole_path(alloc)?;
    Ok(machine.open(path.as_str()))
}

/// Opens a file, or reports that it cannot be read.
#[tactic(auto, using(crate::proofs::OpeningLemmas::absent_fails))]
pub(crate) fn open<M: Machine>(
    alloc: Global,
    machine: &M,
    file: &NamedFile<'_>,
) -> Result<M::File, Failure>
    ensures given { IfOk result
        (λ f. M.File.remaining f ≡ bytes_of (M.standing machine.now) file.now) }
    ensures opened { IfOk result (λ f. MayOpen (M.standing machine.now (path_of file.now))) }
    ensures failure { IfErr result (IsNotOpen (M.standing machine.now) file.now) }
{
    match open_at_path(alloc, machine, file)? {
        Opened::File(opened) => Ok(opened),
        Opened::Missing | Opened::Failed => Err(Failure::Read(file.name)),
    }
}

/// Opens a file, where one is named.
pub(crate) fn open_if_named<M: Machine>(
    alloc: Global,
    machine: &M,
    file: &Option<NamedFile<'_>>,
) -> Result<Option<M::File>, Failure>
    ensures given { IfOk result (λ f. option_map M.File.remaining f
        ≡ option_map (bytes_of (M.standing machine.now)) file.now) }
    ensures opened { IfOk result (λ f. AreOpen (M.standing machine.now) (cert_named file.now)) }
    ensures failure { IfErr result
        (StopsOpening (M.standing machine.now) (cert_named file.now)) }
{
    match file {
        Some(file) => Ok(Some(open(alloc, machine, file)?)),
        None => Ok(None),
    }
}

/// Opens a file, where there is one at its path.
pub(crate) fn open_if_there<M: Machine>(
    alloc: Global,
    machine: &M,
    file: &NamedFile<'_>,
) -> Result<Option<M::File>, Failure>
    ensures given { IfOk result (λ f. IsOpenIfThere (M.standing machine.now) file.now
        (option_map M.File.remaining f)) }
    ensures failure { IfErr result (IsNotOpen (M.standing machine.now) file.now) }
{
    match open_at_path(alloc, machine, file)? {
        Opened::File(opened) => Ok(Some(opened)),
        Opened::Missing => Ok(None),
        Opened::Failed => Err(Failure::Read(file.name)),
    }
}

/// Opens the tables of a release, or reports the first that cannot be read.
pub(crate) fn open_tables<M: Machine>(
    alloc: Global,
    machine: &M,
    tables: &Tables<NamedFile<'_>>,
) -> Result<Tables<M::File>, Failure>
    ensures given { IfOk result (λ t. tables_by M.File.remaining t
        ≡ tables_by (bytes_of (M.standing machine.now)) tables.now) }
    ensures opened { IfOk result
        (λ t. AreOpen (M.standing machine.now) (tables_named tables.now)) }
    ensures failure { IfErr result
        (StopsOpening (M.standing machine.now) (tables_named tables.now)) }
{
    let parcels = open(alloc, machine, &tables.parcels)?;
    let covers = open(alloc, machine, &tables.covers)?;
    let classes = open(alloc, machine, &tables.classes)?;
    Ok(Tables {
        parcels,
        covers,
        classes,
    })
}

/// Opens the tables of a release and then its certificate, where one is named, or reports the first
/// that cannot be read.
pub(crate) fn open_folder<M: Machine>(
    alloc: Global,
    machine: &M,
    folder: &Folder<NamedFile<'_>>,
) -> Result<Folder<M::File>, Failure>
    ensures given { IfOk result (λ f. folder_by M.File.remaining f
        ≡ folder_by (bytes_of (M.standing machine.now)) folder.now) }
    ensures opened { IfOk result
        (λ f. AreOpen (M.standing machine.now) (folder_named folder.now)) }
    ensures failure { IfErr result
        (StopsOpening (M.standing machine.now) (folder_named folder.now)) }
{
    let tables = open_tables(alloc, machine, &folder.tables)?;
    let cert = open_if_named(alloc, machine, &folder.cert)?;
    Ok(Folder { tables, cert })
}

/// Opens the files of a release that has a lineage, which comes last, or reports the first that
/// cannot be read.
pub(crate) fn open_submission<M: Machine>(
    alloc: Global,
    machine: &M,
    submission: &Submission<NamedFile<'_>>,
) -> Result<Submission<M::File>, Failure>
    ensures given { IfOk result (λ s. submission_by M.File.remaining s
        ≡ submission_by (bytes_of (M.standing machine.now)) submission.now) }
    ensures opened { IfOk result
        (λ s. AreOpen (M.standing machine.now) (submission_named submission.now)) }
    ensures failure { IfErr result
        (StopsOpening (M.standing machine.now) (submission_named submission.now)) }
{
    let folder = open_folder(alloc, machine, &submission.folder)?;
    let lineage = open(alloc, machine, &submission.lineage)?;
    Ok(Submission { folder, lineage })
}

/// Opens the files at the top of a country's folder, or reports the first that cannot be read.
pub(crate) fn open_top<M: Machine>(
    alloc: Global,
    machine: &M,
    top: &Top<NamedFile<'_>>,
) -> Result<Top<M::File>, Failure>
    ensures given { IfOk result (λ t. top_by M.File.remaining t
        ≡ top_by (bytes_of (M.standing machine.now)) top.now) }
    ensures opened { IfOk result (λ t. AreOpen (M.standing machine.now) (top_named top.now)) }
    ensures failure { IfErr result (StopsOpening (M.standing machine.now) (top_named top.now)) }
{
    let plan = open(alloc, machine, &top.plan)?;
    let classes = open(alloc, machine, &top.classes)?;
    Ok(Top { plan, classes })
}
