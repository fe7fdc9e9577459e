//! The run of `locate-country`, over any readers, folders and writer.

ghost use Rattle.std.specs.Prelude.{IfErr, IfOk};
ghost use Rattle.lpis_run.specs.Failures.{AreUnread, AreUntouched};
ghost use Rattle.lpis_run.specs.Folders.{top_by, top_named};
ghost use Rattle.lpis_run_country.specs.Regions.{AreCountryRead};
ghost use Rattle.lpis_run_locate.specs.LocateAnswer.{ArePointsRead, points_by, points_named};
ghost use Rattle.lpis_run_locate.specs.LocateCountryAnswer.{AnswersLocateCountry};
ghost use Rattle.lpis_run_locate.specs.LocateCountryAnswer.{RunsLocateCountry};
ghost use Rattle.lpis_run_locate.specs.private.LocateRuns.{locate_country_inputs_of};
ghost use Rattle.lpis_run_locate.specs.private.Searching.{IsUnanswered};

use crate::points_in::PointsIn;
use crate::search::begin_search;
use crate::searching::search_regions;
use lpis_run::{Answer, Failure, Name, Top, read_lent};
use lpis_run_country::{Regions, begin, read_top};
use std::alloc::Global;
use std::io::{Read, Write};

/// All bytes of the three, which are read in this order. Where one is not read, those behind it are
/// as they were.
fn read_inputs<R: Read + Drop>(
    alloc: Global,
    asked: &mut PointsIn<Top<R>, R>,
) -> Result<PointsIn<Top<Vec<u8>>, Vec<u8>>, Failure>
    ensures bytes { IfOk result (λ b. ArePointsRead AreCountryRead (locate_country_inputs_of b)
        (points_by (top_by R.remaining) R.remaining asked.old)) }
    ensures failure { IfErr result (AreUnread (points_named top_named
        (points_by (top_by R.remaining) R.remaining asked.old))) }
    ensures untouched { IfErr result (AreUntouched (points_named top_named asked.old)
        (points_named top_named asked.new)) }
{
    let files = read_top(alloc, &mut asked.files)?;
    let points = read_lent(alloc, &mut asked.points, Name::Points)?;
    Ok(PointsIn { files, points })
}

/// The answer to a country and a table of points.
fn answer_to<G: Regions>(
    alloc: Global,
    regions: &G,
    inputs: PointsIn<Top<Vec<u8>>, Vec<u8>>,
) -> Result<Answer, Failure>
    ensures answer { IfOk result (λ a. AnswersLocateCountry (G.texts regions.now)
        (locate_country_inputs_of inputs) (a.text.items, a.status)) }
    ensures failure { IfErr result (IsUnanswered (G.texts regions.now)
        (locate_country_inputs_of inputs)) }
{
    let PointsIn { files, points } = inputs;
    let sought = begin_search(alloc, points)?;
    match begin(alloc, files) {
        Ok(begun) => search_regions(alloc, regions, begun, sought),
        Err(stop) => Ok(stop.into_answer()?),
    }
}

/// Checks a country, region by region, and prints for each point of a table the one parcel and the
/// one piece of the union of all regions that contain it, or that none does; or the line of the
/// first fault: those of `run_country` first, then that of the table of points.
///
/// The points are known before the first region, and each region is read once: it is checked
/// against its certificate, tested against those before it, searched and let go before the next one
/// is read. Everything is decided before anything is written. Ok is the status: `DONE`, `REFUSED`
/// or `UNREADABLE`. A failed read names the file that failed; where it is no region's, the readers
/// behind it are as they were.
pub fn run_locate_country<R: Read + Drop, G: Regions, W: Write>(
    alloc: Global,
    asked: &mut PointsIn<Top<R>, R>,
    regions: &G,
    out: &mut W,
) -> Result<u8, Failure>
    ensures runs { RunsLocateCountry (G.texts regions.now)
        (points_by (top_by R.remaining) R.remaining asked.old) (W.contents out.old)
        (W.contents out.new) result }
    ensures untouched { IfErr result (AreUntouched (points_named top_named asked.old)
        (points_named top_named asked.new)) }
{
    let inputs = read_inputs(alloc, asked)?;
    let answer = answer_to(alloc, regions, inputs)?;
    answer.write_to(out)
}
