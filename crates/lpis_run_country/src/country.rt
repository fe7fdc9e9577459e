//! The run over the regions of a country.

ghost use Rattle.std.specs.Prelude.{IfErr, IfOk, List, ℕ};
ghost use Rattle.lpis_run.specs.Failures.{AreUntouched};
ghost use Rattle.lpis_run.specs.Folders.{top_by, top_named};
ghost use Rattle.lpis_run.specs.declared.detail.Detail.{Detail};
ghost use Rattle.lpis_run_country.specs.CountryRun.{RunsCountry};
ghost use Rattle.lpis_run_country.specs.Regions.{CountryInputs, Texts};
ghost use Rattle.lpis_run_country.specs.Beginning.{IsUnbegun, setting_in};
ghost use Rattle.lpis_run_country.specs.private.Progressing.{IsFinished, IsUnfinished, RunsBegun};
ghost use Rattle.lpis_run_country.specs.private.Progressing.{RunsRegions};
ghost use Rattle.lpis_run_country.specs.private.Totals.{IsPrintable, last_lines};

use crate::beginning::{Begun, begin, read_top};
use crate::folder::Regions;
use crate::gathering::Gathered;
use crate::lines::report_country;
use crate::passing::pass_begun;
use crate::totals::Totals;
use lpis_country_seam::laws::a_country_of_joined_regions_is_sound;
use lpis_run::{Answer, Detail, Failure, Top};
use std::alloc::Global;
use std::io::{Read, Write};

/// Writes the line of the country of so many regions, and the yes.
fn finish<W: Write>(alloc: Global, count: usize, totals: Totals, out: &mut W) -> Result<u8, Failure>
    requires { IsPrintable totals }
    ensures finished { IfOk result (IsFinished (last_lines count totals) (W.contents out.old)
        (W.contents out.new)) }
    ensures failure { IfErr result (IsUnfinished (last_lines count totals) (W.contents out.old)
        (W.contents out.new)) }
{
    let answer = report_country(alloc, count, totals)?;
    answer.write_to(out)
}

/// Reads and judges the regions of a plan, one after the other.
fn run_begun<G: Regions, W: Write>(
    alloc: Global,
    regions: &G,
    begun: Begun,
    detail: Detail,
    out: &mut W,
) -> Result<u8, Failure>
    ensures { RunsRegions (setting_in (G.texts regions.now) detail begun) (W.contents out.old)
        (W.contents out.new) result }
{
    // What all have passed is a sound map.
    a_country_of_joined_regions_is_sound();
    let passing = pass_begun(alloc, regions, begun, Gathered::Nothing, detail, out)?;
    match passing.refused {
        Some(status) => Ok(status),
        None => finish(alloc, passing.names.len(), passing.progress.totals, out),
    }
}

/// Writes the answer that refuses a country before its first region.
fn write_refusal<W: Write>(answer: &Answer, out: &mut W) -> Result<u8, Failure>
    ensures { (texts : List ℕ → Texts) (detail : Detail) (x : CountryInputs)
        → IsUnbegun x (answer.now.text.items, answer.now.status)
        → RunsBegun texts detail x (W.contents out.old) (W.contents out.new) result }
{
    answer.write_to(out)
}

/// Checks a country, region by region, and prints what each region that passes has, and what all of
/// them have together, with a yes where their union is a sound map; or the line of the first fault.
///
/// Faults come in this order: of the plan, of the classes, of the regions in the order of the plan.
/// A region is read, checked against its certificate, tested against those before it, and let go
/// before the next one is read; what is printed of it is written once it has passed. Ok is the
/// status: `DONE`, `REFUSED` or `UNREADABLE`. A failed read names the file that failed; where it is
/// one at the top, the readers behind it are as they were.
pub fn run_country<R: Read + Drop, G: Regions, W: Write>(
    alloc: Global,
    top: &mut Top<R>,
    regions: &G,
    detail: Detail,
    out: &mut W,
) -> Result<u8, Failure>
    ensures runs { RunsCountry (G.texts regions.now) detail (top_by R.remaining top.old)
        (W.contents out.old) (W.contents out.new) result }
    ensures untouched { IfErr result (AreUntouched (top_named top.old) (top_named top.new)) }
{
    let top = read_top(alloc, top)?;
    match begin(alloc, top) {
        Ok(begun) => run_begun(alloc, regions, begun, detail, out),
        Err(stop) => {
            let answer = stop.into_answer()?;
            write_refusal(&answer, out)
        }
    }
}
