//! How far a search through regions has come.

ghost use Rattle.std.specs.Prelude.{IfErr, IfOk, List, ℕ};
ghost use Rattle.lpis_checker.specs.SoundMap.{IsSoundMap};
ghost use Rattle.lpis_run.specs.Inputs.{inputs_of};
ghost use Rattle.lpis_run.specs.Stops.{IsRefusedAs};
ghost use Rattle.lpis_run_country.specs.CountryAnswer.{IsMisfit, IsRefusedRegion};
ghost use Rattle.lpis_run_country.specs.Regions.{IsFolderRead, Texts};
ghost use Rattle.lpis_run_locate.specs.private.Searching.{AfterAny, Follows, HasPassed, IsReady};
ghost use Rattle.lpis_run_locate.specs.private.Searching.{setting_at};

use crate::search::{Sought, search_in};
use lpis_country_seam::OpenSeam;
use lpis_release::Release;
use lpis_run::{Folder, Stop, checked_release};
use lpis_run_country::refuse_seam;
use std::alloc::Global;

/// What is kept of the regions that passed, and what is looked for, with what was found of it there.
#[derive(Drop)]
pub(crate) struct Progress {
    pub(crate) seam: OpenSeam,
    pub(crate) sought: Sought,
}

/// Tests a region that is a sound map against those before it, and looks for the points in it; or
/// the answer to its first fault.
fn follow(
    alloc: Global,
    names: &[String],
    name: &str,
    progress: &mut Progress,
    release: &Release,
) -> Result<(), Stop>
    requires ready { IsReady progress.old }
    requires sound { IsSoundMap release.now }
    ensures follows { (texts : List ℕ → Texts)
        → AfterAny (setting_at texts names.now progress.old) progress.old (λ s table before.
        IfOk result (λ _. Follows s table before release.now progress.new)) }
    ensures refused { (texts : List ℕ → Texts)
        → AfterAny (setting_at texts names.now progress.old) progress.old (λ s table before.
        IfErr result (IsRefusedAs (IsMisfit s before name.now release.now))) }
{
    match progress.seam.step(alloc, release) {
        Ok(_places) => {
            search_in(release, &mut progress.sought)?;
            Ok(())
        }
        Err(fault) => Err(Stop::Refused(refuse_seam(alloc, names, name, &fault)?)),
    }
}

/// Checks the region of a folder's bytes, tests it against those before it, and looks for the
/// points in it; or the answer that refuses it.
pub(crate) fn judge_inputs(
    alloc: Global,
    names: &[String],
    name: &str,
    progress: &mut Progress,
    inputs: Folder<Vec<u8>>,
) -> Result<(), Stop>
    requires { IsReady progress.old }
    ensures passed { (texts : List ℕ → Texts) → IsFolderRead (inputs_of inputs) (texts name.now)
        → AfterAny (setting_at texts names.now progress.old) progress.old (λ s table before.
        IfOk result (λ _. HasPassed s table before name.now progress.new)) }
    ensures refused { (texts : List ℕ → Texts) → IsFolderRead (inputs_of inputs) (texts name.now)
        → AfterAny (setting_at texts names.now progress.old) progress.old (λ s table before.
        IfErr result (IsRefusedAs (IsRefusedRegion s before name.now))) }
{
    match checked_release(alloc, inputs) {
        Ok(release) => follow(alloc, names, name, progress, &release),
        Err(stop) => Err(stop.in_region(name)),
    }
}
