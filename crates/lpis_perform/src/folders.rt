//! The folders of a country's regions, on a machine.

ghost use Rattle.std.specs.Prelude.{IfErr, IfOk};
ghost use Rattle.lpis_run.specs.Folders.{folder_by};
ghost use Rattle.lpis_run_country.specs.CountryFailures.{IsUnopened};
ghost use Rattle.lpis_run_country.specs.Regions.{AreOpened};
ghost use Rattle.lpis_perform.specs.Opening.{texts_in};

use crate::machine::Machine;
use crate::opening::{open, open_if_there, open_tables};
use lpis_command_line::{cert_in, lineage_in, path_in, tables_in};
use lpis_run::{Failure, Folder};
use lpis_run_country::Regions;
use lpis_run_publish_country::Lineages;
use std::alloc::Global;

/// The folder of a country, in which each region has one.
#[derive(Drop)]
pub(crate) struct Folders<'a, M: Machine> {
    /// What paths are made in.
    pub(crate) alloc: Global,
    /// The machine.
    pub(crate) machine: &'a M,
    /// The path of the country's folder.
    pub(crate) path: &'a str,
}

/// Opens the tables of a region's folder, and its certificate if there is one, or reports the first
/// that cannot be read.
fn open_region<M: Machine>(
    alloc: Global,
    machine: &M,
    folder: &str,
) -> Result<Folder<M::File>, Failure>
    ensures given { IfOk result (λ f. AreOpened
        (texts_in (M.standing machine.now) folder.now) (folder_by M.File.remaining f)) }
    ensures failure { IfErr result
        (IsUnopened (texts_in (M.standing machine.now) folder.now)) }
{
    let tables = open_tables(alloc, machine, &tables_in(folder))?;
    let cert = open_if_there(alloc, machine, &cert_in(folder))?;
    Ok(Folder { tables, cert })
}

impl<M: Machine> Regions for Folders<'_, M> {
    ghost use Rattle.lpis_perform.specs.Opening.{texts_of};

    type File = M::File;

    ghost texts = { λ f name. texts_of (M.standing f.machine.now) f.path.now name };

    fn open(&self, name: &str) -> Result<Folder<M::File>, Failure> {
        let folder = path_in(self.alloc, self.path, name)?;
        open_region(self.alloc, self.machine, folder.as_str())
    }
}

impl<M: Machine> Lineages for Folders<'_, M> {
    ghost use Rattle.lpis_perform.specs.Opening.{lineage_of};

    type Table = M::File;

    ghost lineages = { λ f name. lineage_of (M.standing f.machine.now) f.path.now name };

    fn open_lineage(&self, name: &str) -> Result<M::File, Failure> {
        let folder = path_in(self.alloc, self.path, name)?;
        open(self.alloc, self.machine, &lineage_in(folder.as_str()))
    }
}
