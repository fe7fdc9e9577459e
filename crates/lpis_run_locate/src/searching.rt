//! The search through the regions of a plan, each of which is checked before.

ghost use Rattle.std.specs.Prelude.{◌≡◌, ◌<◌, ◌∷◌, [], IfErr, IfOk, List, OnOk, get_or, length};
ghost use Rattle.std.specs.Prelude.{map, ℕ};
ghost use Rattle.std.specs.String.{string_bytes};
ghost use Rattle.lpis_run_country.specs.Beginning.{IsBegun};
ghost use Rattle.lpis_run_country.specs.CountryFailures.{IsStoppedBefore};
ghost use Rattle.lpis_run_locate.specs.LocateCountryAnswer.{AnswersLocateCountry};
ghost use Rattle.lpis_run_locate.specs.private.LocateRuns.{LocateCountryInputs};
ghost use Rattle.lpis_run_locate.specs.private.Found.{IsSearched};
ghost use Rattle.lpis_run_locate.specs.private.Searching.{AfterAny, IsOutcome, IsReady, IsStart};
ghost use Rattle.lpis_run_locate.specs.private.Searching.{IsStopped, IsUnanswered, IsVerdict};
ghost use Rattle.lpis_run_locate.specs.private.Searching.{setting_at};

use crate::progress::{Progress, judge_inputs};
use crate::search::{Sought, report_search};
use lpis_country_seam::OpenSeam;
use lpis_country_seam::laws::a_country_of_joined_regions_is_sound;
use lpis_run::{Answer, Failure};
use lpis_run_country::{Begun, Regions, read_region};
use std::alloc::Global;

/// Reads and judges the region of this number, and looks for the points in it. Some is the answer
/// that refuses it.
fn judge_at<G: Regions>(
    alloc: Global,
    regions: &G,
    names: &mut Vec<String>,
    index: usize,
    progress: &mut Progress,
) -> Result<Option<Answer>, Failure>
    requires inside { index < length names.old.items }
    requires ready { IsReady progress.old }
    ensures names { OnOk result (names.new.items ≡ names.old.items) }
    ensures verdict { AfterAny (setting_at (G.texts regions.now) names.old.items progress.old)
        progress.old (λ s table before. IfOk result
        (IsVerdict s table before (get_or s.names index []) progress.new)) }
    ensures failure { (left : List (List ℕ)) → IfErr result (IsStoppedBefore (G.texts regions.now)
        (get_or (map string_bytes names.old.items) index [] ∷ left)) }
{
    let inputs = read_region(alloc, regions, names, index)?;
    let verdict = judge_inputs(
        alloc,
        names.as_slice(),
        names[index].as_str(),
        progress,
        inputs,
    );
    match verdict {
        Ok(()) => Ok(None),
        Err(stop) => Ok(Some(stop.into_answer()?)),
    }
}

/// Reads and judges the regions of these names, one after the other, and looks for the points in
/// each. Some is the answer to the first that is refused.
fn judge_regions<G: Regions>(
    alloc: Global,
    regions: &G,
    names: &mut Vec<String>,
    progress: &mut Progress,
) -> Result<Option<Answer>, Failure>
    requires { (table : List ℕ) × IsStart
        (setting_at (G.texts regions.now) names.old.items progress.old) table progress.old }
    ensures outcome { (table : List ℕ) → IsSearched table [] progress.old.sought → IfOk result
        (IsOutcome (setting_at (G.texts regions.now) names.old.items progress.old) table
        progress.new) }
    ensures failure { IfErr result (IsStopped
        (setting_at (G.texts regions.now) names.old.items progress.old)) }
{
    for index in 0..names.len() {
        match judge_at(alloc, regions, names, index, progress)? {
            Some(answer) => return Ok(Some(answer)),
            None => {}
        }
    }
    Ok(None)
}

/// The answer to the points of a search in the regions of a plan.
pub(crate) fn search_regions<G: Regions>(
    alloc: Global,
    regions: &G,
    begun: Begun,
    sought: Sought,
) -> Result<Answer, Failure>
    requires { (table : List ℕ) × IsSearched table [] sought }
    ensures answer { (x : LocateCountryInputs) → IsBegun x.files begun
        → IsSearched x.points [] sought → IfOk result (λ a.
        AnswersLocateCountry (G.texts regions.now) x (a.text.items, a.status)) }
    ensures failure { (x : LocateCountryInputs) → IsBegun x.files begun
        → IsSearched x.points [] sought
        → IfErr result (IsUnanswered (G.texts regions.now) x) }
{
    let (mut names, tiles, classes) = begun.into_parts();
    let mut progress = Progress {
        seam: OpenSeam::new(alloc, tiles, classes),
        sought,
    };
    // What all that passed make up is their union, and a sound map.
    a_country_of_joined_regions_is_sound();
    match judge_regions(alloc, regions, &mut names, &mut progress)? {
        Some(answer) => Ok(answer),
        None => Ok(report_search(alloc, &progress.sought)?),
    }
}
