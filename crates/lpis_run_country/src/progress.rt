//! How far a run over regions has come.

ghost use Rattle.std.specs.Prelude.{◌≡◌, List, ℕ};
ghost use Rattle.lpis_checker.specs.SoundMap.{AreasAdd};
ghost use Rattle.lpis_run_country.specs.Regions.{Texts};
ghost use Rattle.lpis_run_country.specs.private.Progressing.{AfterAny, FollowsAs, IsReady};
ghost use Rattle.lpis_run_country.specs.private.Progressing.{gathers, setting_at};

use crate::gathering::Gathered;
use crate::lines::report_region;
use crate::refusals::refuse_seam;
use crate::totals::{Totals, totals_at};
use lpis_country::is_region;
use lpis_country_seam::OpenSeam;
use lpis_release::Release;
use lpis_run::{Detail, Stop};
use std::alloc::Global;

/// What is kept of the regions that passed, what their country has, and its parcels if they are
/// wanted.
#[derive(Drop)]
pub(crate) struct Progress {
    pub(crate) seam: OpenSeam,
    pub(crate) totals: Totals,
    pub(crate) gathered: Gathered,
}

/// Tests a region that is a sound map against those before it: what is printed of it, or the answer
/// to its first fault.
pub(crate) fn follow(
    alloc: Global,
    names: &[String],
    name: &str,
    detail: Detail,
    progress: &mut Progress,
    release: &Release,
) -> Result<Vec<u8>, Stop>
    requires ready { IsReady progress.old }
    requires areas { AreasAdd release.now }
    ensures follows { (texts : List ℕ → Texts)
        → AfterAny (setting_at texts detail names.now progress.old) progress.old
        (λ s before. FollowsAs s before name.now release.now progress.new result) }
    ensures wanted { gathers progress.new.gathered ≡ gathers progress.old.gathered }
{
    is_region(release);
    let _ = release.parcels();
    match progress.seam.step(alloc, release) {
        Ok(places) => {
            let text = report_region(alloc, name, release, places.as_slice(), detail)?;
            let totals = totals_at(release, places.as_slice());
            progress.totals = progress.totals.plus(totals);
            progress.gathered.gather(alloc, release, places.as_slice())?;
            Ok(text)
        }
        Err(fault) => Err(Stop::Refused(refuse_seam(alloc, names, name, &fault)?)),
    }
}
