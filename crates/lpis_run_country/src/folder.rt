//! The folders of a country's regions.

ghost use Rattle.std.specs.Prelude.{◌≡◌, ◌<◌, ◌∷◌, [], IfErr, IfOk, List, OnOk, get_or, length};
ghost use Rattle.std.specs.Prelude.{map, ℕ};
ghost use Rattle.std.specs.String.{string_bytes};
ghost use Rattle.lpis_run.specs.CheckAnswer.{AreRead};
ghost use Rattle.lpis_run.specs.Failures.{AreUnread, AreUntouched};
ghost use Rattle.lpis_run.specs.Folders.{folder_by, folder_named};
ghost use Rattle.lpis_run.specs.Inputs.{inputs_of};
ghost use Rattle.lpis_run_country.specs.CountryFailures.{IsStoppedBefore, IsUnopened};
ghost use Rattle.lpis_run_country.specs.CountryFailures.{IsUnreadFolder};
ghost use Rattle.lpis_run_country.specs.Regions.{AreOpened, IsFolderRead, Texts};
ghost use Rattle.lpis_run_country.specs.private.Progressing.{IsFailureOf};

use lpis_run::{Failure, Folder, read_folder};
use std::alloc::Global;
use std::io::Read;

/// The folders of a country, each of which is opened by its name.
pub trait Regions {
    /// The reader of a file.
    type File: Read + Drop;

    /// What is known of the files of each folder: which may be missing, and their bytes.
    ghost texts: { Self → List ℕ → Texts };

    /// Opens the files of the folder of this name: the certificate too, if there is one.
    fn open(&self, name: &str) -> Result<Folder<Self::File>, Failure>
        ensures given { IfOk result (λ f. AreOpened (texts self.now name.now)
            (folder_by Self.File.remaining f)) }
        ensures failure { IfErr result (IsUnopened (texts self.now name.now)) };
}

/// All bytes of the files of a region's folder, which was opened. A failed read names the file that
/// failed: the readers behind it are as they were.
fn read_opened<R: Read + Drop>(
    alloc: Global,
    folder: &mut Folder<R>,
) -> Result<Folder<Vec<u8>>, Failure>
    ensures bytes { IfOk result (λ i. AreRead (inputs_of i) (folder_by R.remaining folder.old)) }
    ensures failure { IfErr result (AreUnread (folder_named (folder_by R.remaining folder.old))) }
    ensures untouched { IfErr result
        (AreUntouched (folder_named folder.old) (folder_named folder.new)) }
{
    read_folder(alloc, folder)
}

/// All bytes of the files of the folder of this name.
pub(crate) fn read_region_files<G: Regions>(
    alloc: Global,
    regions: &G,
    name: &str,
) -> Result<Folder<Vec<u8>>, Failure>
    ensures bytes { IfOk result (λ i. IsFolderRead (inputs_of i)
        (G.texts regions.now name.now)) }
    ensures failure { IfErr result (IsUnreadFolder (G.texts regions.now name.now)) }
{
    let mut folder = regions.open(name)?;
    read_opened(alloc, &mut folder)
}

/// The failure of the region of this number, whose name may be taken out of the list.
pub(crate) fn of_region(failure: Failure, names: &mut Vec<String>, index: usize) -> Failure
    requires { index < length names.old.items }
    ensures { IsFailureOf failure (get_or (map string_bytes names.old.items) index []) result }
{
    match failure {
        Failure::Read(file) => Failure::ReadOf(file, names.swap_remove(index)),
        other => other,
    }
}

/// All bytes of the files of the folder of this number. Where they are not read, its name may be
/// taken out of the list.
pub fn read_region<G: Regions>(
    alloc: Global,
    regions: &G,
    names: &mut Vec<String>,
    index: usize,
) -> Result<Folder<Vec<u8>>, Failure>
    requires { index < length names.old.items }
    ensures names { OnOk result (names.new.items ≡ names.old.items) }
    ensures bytes { IfOk result (λ i. IsFolderRead (inputs_of i)
        (G.texts regions.now (get_or (map string_bytes names.old.items) index []))) }
    ensures failure { (left : List (List ℕ)) → IfErr result (IsStoppedBefore (G.texts regions.now)
        (get_or (map string_bytes names.old.items) index [] ∷ left)) }
{
    let read = read_region_files(alloc, regions, names[index].as_str());
    match read {
        Ok(inputs) => Ok(inputs),
        Err(failure) => Err(of_region(failure, names, index)),
    }
}
