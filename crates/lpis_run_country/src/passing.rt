//! The regions of a country, one after the other.

ghost use Rattle.std.specs.Prelude.{◌≡◌, ◌<◌, [], IfErr, IfOk, OnOk, get_or, length, map};
ghost use Rattle.std.specs.String.{string_bytes};
ghost use Rattle.lpis_run_country.specs.Beginning.{IsPlanned, setting_in};
ghost use Rattle.lpis_run_country.specs.RegionsOutcome.{RegionsStop};
ghost use Rattle.lpis_run_country.specs.private.Progressing.{AfterAny, HasGathered, IsBrokenOff};
ghost use Rattle.lpis_run_country.specs.private.Progressing.{IsReady, IsStart, IsWritten};
ghost use Rattle.lpis_run_country.specs.private.Progressing.{RegionsPass, gathers, setting_at};

use crate::beginning::Begun;
use crate::folder::{Regions, of_region};
use crate::gathering::Gathered;
use crate::judging::pass;
use crate::progress::Progress;
use crate::totals::Totals;
use lpis_country_seam::OpenSeam;
use lpis_run::{Detail, Failure};
use std::alloc::Global;
use std::io::Write;

/// What the regions of what was begun came to.
#[derive(Drop)]
pub(crate) struct Passing {
    /// The names of their folders, in the order of the plan.
    pub(crate) names: Vec<String>,
    /// What those that passed left.
    pub(crate) progress: Progress,
    /// The status of the first that was refused.
    pub(crate) refused: Option<u8>,
}

/// Reads and judges the region of this number, and writes what is printed of it. Some is the status
/// of one that is refused.
fn pass_at<G: Regions, W: Write>(
    alloc: Global,
    regions: &G,
    names: &mut Vec<String>,
    index: usize,
    detail: Detail,
    progress: &mut Progress,
    out: &mut W,
) -> Result<Option<u8>, Failure>
    requires inside { index < length names.old.items }
    requires ready { IsReady progress.old }
    ensures names { OnOk result (names.new.items ≡ names.old.items) }
    ensures wanted { gathers progress.new.gathered ≡ gathers progress.old.gathered }
    ensures written { AfterAny
        (setting_at (G.texts regions.now) detail names.old.items progress.old) progress.old
        (λ s before. IfOk result (IsWritten s before (get_or s.names index []) progress.new
        (W.contents out.old) (W.contents out.new))) }
    ensures failure { AfterAny
        (setting_at (G.texts regions.now) detail names.old.items progress.old) progress.old
        (λ s before. IfErr result (IsBrokenOff s before (get_or s.names index [])
        (W.contents out.old) (W.contents out.new))) }
{
    let passed = pass(
        alloc,
        regions,
        names.as_slice(),
        names[index].as_str(),
        detail,
        progress,
        out,
    );
    match passed {
        Ok(status) => Ok(status),
        Err(failure) => Err(of_region(failure, names, index)),
    }
}

/// Reads and judges the regions of these names, one after the other, and writes what is printed of
/// each. Some is the status of the first that is refused.
fn pass_regions<G: Regions, W: Write>(
    alloc: Global,
    regions: &G,
    names: &mut Vec<String>,
    progress: &mut Progress,
    detail: Detail,
    out: &mut W,
) -> Result<Option<u8>, Failure>
    requires { IsStart (setting_at (G.texts regions.now) detail names.old.items progress.old)
        progress.old }
    ensures names { OnOk result (names.new.items ≡ names.old.items) }
    ensures wanted { gathers progress.new.gathered ≡ gathers progress.old.gathered }
    ensures passed { IfOk result (RegionsPass
        (setting_at (G.texts regions.now) detail names.old.items progress.old) progress.new
        (W.contents out.old) (W.contents out.new)) }
    ensures failure { IfErr result (RegionsStop
        (setting_at (G.texts regions.now) detail names.old.items progress.old)
        (W.contents out.old) (W.contents out.new)) }
{
    for index in 0..names.len() {
        match pass_at(alloc, regions, names, index, detail, progress, out)? {
            Some(status) => return Ok(Some(status)),
            None => {}
        }
    }
    Ok(None)
}

/// Reads and judges the regions of what was begun, one after the other, writes what is printed of
/// each, and gathers their parcels where they are wanted.
pub(crate) fn pass_begun<G: Regions, W: Write>(
    alloc: Global,
    regions: &G,
    begun: Begun,
    gathered: Gathered,
    detail: Detail,
    out: &mut W,
) -> Result<Passing, Failure>
    requires { HasGathered [] gathered }
    ensures passed { IfOk result (λ p. RegionsPass
        (setting_in (G.texts regions.now) detail begun) p.progress (W.contents out.old)
        (W.contents out.new) p.refused) }
    ensures names { IfOk result (λ p. map string_bytes p.names.items ≡ begun.names) }
    ensures wanted { IfOk result (λ p. gathers p.progress.gathered ≡ gathers gathered) }
    ensures planned { IsPlanned begun.names begun.tiles }
    ensures failure { IfErr result (RegionsStop
        (setting_in (G.texts regions.now) detail begun) (W.contents out.old)
        (W.contents out.new)) }
{
    let (mut names, tiles, classes) = begun.into_parts();
    let mut progress = Progress {
        seam: OpenSeam::new(alloc, tiles, classes),
        totals: Totals::none(),
        gathered,
    };
    let refused = pass_regions(alloc, regions, &mut names, &mut progress, detail, out)?;
    Ok(Passing {
        names,
        progress,
        refused,
    })
}
