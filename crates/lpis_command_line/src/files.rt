//! The files that a command names.

ghost use Rattle.std.specs.Prelude.{◌≡◌, IfOk, codes, string_bytes};
ghost use Rattle.lpis_run.specs.declared.failure.Name.{Name};
ghost use Rattle.lpis_command_line.specs.Files.{AreTablesIn, IsCountryIn, IsFile};
ghost use Rattle.lpis_command_line.specs.Files.{in_folder, path_of};

use lpis_run::{Name, Tables, Top};
use std::alloc::{AllocError, Global};

/// A file that a command names.
#[derive(Clone, Copy, Debug)]
pub struct NamedFile<'a> {
    /// The folder in which it lies, where that is what the words name.
    pub folder: Option<&'a str>,
    /// Its path, in that folder if there is one.
    pub path: &'a str,
    /// The name by which a failure reports it.
    pub name: Name,
}

impl NamedFile<'_> {
    /// Its path, with that of its folder.
    pub fn whole_path(&self, alloc: Global) -> Result<String, AllocError>
        ensures { IfOk result (λ path. string_bytes path ≡ path_of self.now) }
    {
        match self.folder {
            Some(folder) => path_in(alloc, folder, self.path),
            None => String::from_str(alloc, self.path),
        }
    }
}

/// The folder of a country, in which each region has a folder.
#[derive(Debug, Drop)]
pub struct CountryFolder<'a> {
    /// Its path.
    pub path: &'a str,
    /// The files at its top.
    pub top: Top<NamedFile<'a>>,
}

/// The path of what lies in a folder, such as the folder of a region in that of its country.
pub fn path_in(alloc: Global, folder: &str, path: &str) -> Result<String, AllocError>
    ensures { IfOk result (λ whole. string_bytes whole ≡ in_folder folder.now path.now) }
{
    let whole = format!(in alloc; "{folder}/{path}")?;
    Ok(whole)
}

/// The file at a path.
pub(crate) fn file_at(path: &str, name: Name) -> NamedFile<'_>
    ensures { IsFile name path.now result }
{
    NamedFile {
        folder: None,
        path,
        name,
    }
}

/// A file in a folder.
fn file_in<'a>(folder: &'a str, path: &'a str, name: Name) -> NamedFile<'a>
    ensures { IsFile name (in_folder folder.now path.now) result }
{
    NamedFile {
        folder: Some(folder),
        path,
        name,
    }
}

/// The tables of the release in a folder.
pub fn tables_in(folder: &str) -> Tables<NamedFile<'_>>
    ensures { AreTablesIn folder.now result }
{
    Tables {
        parcels: file_in(folder, "parcels.csv", Name::Parcels),
        covers: file_in(folder, "covers.csv", Name::Covers),
        classes: file_in(folder, "classes.csv", Name::Classes),
    }
}

/// The certificate of the region in a folder.
pub fn cert_in(folder: &str) -> NamedFile<'_>
    ensures { IsFile Name.Cert (in_folder folder.now (codes "cert.txt")) result }
{
    file_in(folder, "cert.txt", Name::Cert)
}

/// The lineage table of the release in a folder.
pub fn lineage_in(folder: &str) -> NamedFile<'_>
    ensures { IsFile Name.Lineage (in_folder folder.now (codes "lineage.csv")) result }
{
    file_in(folder, "lineage.csv", Name::Lineage)
}

/// The country in a folder.
pub(crate) fn country_in(folder: &str) -> CountryFolder<'_>
    ensures { IsCountryIn folder.now result }
{
    let plan = file_in(folder, "country.txt", Name::Country);
    let classes = file_in(folder, "classes.csv", Name::Classes);
    CountryFolder {
        path: folder,
        top: Top { plan, classes },
    }
}
