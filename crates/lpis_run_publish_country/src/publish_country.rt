//! The run of `publish-country`, over any register, readers, folders and writer.

ghost use Rattle.std.specs.Prelude.{◌≡◌, IfErr, List};
ghost use Rattle.std.specs.Option.{option_map};
ghost use Rattle.lpis_release.specs.Release.{Contents};
ghost use Rattle.lpis_run.specs.Failures.{AreUntouched};
ghost use Rattle.lpis_run.specs.Folders.{top_by};
ghost use Rattle.lpis_run_publish_country.specs.PublishCountryAnswer.{CountryFiles, CountryRequest};
ghost use Rattle.lpis_run_publish_country.specs.PublishCountryAnswer.{CountrySaid};
ghost use Rattle.lpis_run_publish_country.specs.PublishCountryAnswer.{PublishCountryInputs};
ghost use Rattle.lpis_run_publish_country.specs.PublishCountryAnswer.{country_request};
ghost use Rattle.lpis_run_publish_country.specs.PublishCountryRuns.{RunsPublishCountry};
ghost use Rattle.lpis_run_publish_country.specs.PublishCountryRuns.{inputs_named};
ghost use Rattle.lpis_run_publish_country.specs.private.Deciding.{EndsUnion, IsToPublish};
ghost use Rattle.lpis_run_publish_country.specs.private.Deciding.{PublishesUnion, RunsEarly};
ghost use Rattle.lpis_run_publish_country.specs.private.Deciding.{RunsPrepared};
ghost use Rattle.lpis_run_publish_country.specs.private.Preparing.{IsPrepared};
ghost use Rattle.lpis_run_publish_country.specs.private.Preparing.{inputs_of};

use crate::inputs::{Prepared, PublishCountryBytes, prepare, read_inputs};
use crate::lineage::{CountryLineage, Lineages};
use crate::refusals::refuse_country;
use crate::unprepared::Unprepared;
use lpis_cert::Cert;
use lpis_register::{PublishFault, Register};
use lpis_run::{Answer, Detail, Failure, REFUSED, Top};
use lpis_run_country::{JoinedCountry, Joining, Regions, join_regions};
use lpis_run_publish::{publish_accepted, refuse};
use sqlite::Alter;
use std::alloc::Global;
use std::io::{Read, Write};
use std::mem::drop;

/// Publishes the country of regions that all passed, where the register lets it follow and these
/// blocks show what its marked rows ask for. What is printed is in memory before.
fn publish_union<S: Alter>(
    alloc: Global,
    register: &mut Register<S>,
    year: u16,
    country: JoinedCountry,
    cert: &Cert,
    lineage: &CountryLineage,
) -> Result<Answer, Failure>
    ensures { (asked : CountryRequest) (said : CountrySaid) (regions : List Contents)
        → IsToPublish asked said regions year country cert.now lineage.now
        → PublishesUnion S.Store asked said regions register.old register.new result }
{
    let JoinedCountry {
        names,
        parcels,
        text,
    } = country;
    match register.accept(year, &parcels, lineage.rows.as_slice(), cert) {
        Ok(accepted) => {
            // What is accepted has copies of their shapes.
            drop(parcels);
            publish_accepted(alloc, register, text, accepted)
        }
        Err(PublishFault::Memory) => Err(Failure::Memory),
        Err(fault) => {
            let counts = lineage.counts.as_slice();
            let answer = refuse_country(alloc, fault, names.as_slice(), counts)?;
            Ok(answer)
        }
    }
}

/// The same, and what is printed is written.
fn end_union<S: Alter, W: Write>(
    alloc: Global,
    register: &mut Register<S>,
    year: u16,
    country: JoinedCountry,
    cert: &Cert,
    lineage: &CountryLineage,
    out: &mut W,
) -> Result<u8, Failure>
    ensures { (asked : CountryRequest) (said : CountrySaid) (regions : List Contents)
        → IsToPublish asked said regions year country cert.now lineage.now
        → EndsUnion S.Store asked said regions register.old register.new
        (W.contents out.old) (W.contents out.new) result }
{
    let answer = publish_union(alloc, register, year, country, cert, lineage)?;
    answer.write_to(out)
}

/// Checks the regions, and publishes their union, of what the files before them say.
fn publish_prepared<S: Alter, G: Regions, W: Write>(
    alloc: Global,
    register: &mut Register<S>,
    year: u16,
    regions: &G,
    prepared: Prepared,
    detail: Detail,
    out: &mut W,
) -> Result<u8, Failure>
    ensures { (given : CountryFiles) (x : PublishCountryInputs)
        → given.texts ≡ G.texts regions.now → IsPrepared given x prepared
        → RunsPrepared S.Store (record { year = year; given = given; detail = detail }) x
        register.old register.new (W.contents out.old) (W.contents out.new) result }
{
    let Prepared {
        begun,
        cert,
        lineage,
    } = prepared;
    match join_regions(alloc, regions, begun, detail, out)? {
        Joining::Joined(country) => {
            end_union(alloc, register, year, country, &cert, &lineage, out)
        }
        Joining::Refused(status) => Ok(status),
    }
}

/// Refuses a year that is not above this last one.
fn refuse_early<W: Write>(alloc: Global, last: u16, out: &mut W) -> Result<u8, Failure>
    ensures { RunsEarly last (W.contents out.old) (W.contents out.new) result }
{
    let answer = refuse(alloc, &PublishFault::Year { last }, REFUSED)?;
    answer.write_to(out)
}

/// The run in a year above the last one, of the bytes of the files that are no region's.
fn publish_inputs<S: Alter, G: Regions, L: Lineages, W: Write>(
    alloc: Global,
    register: &mut Register<S>,
    year: u16,
    inputs: PublishCountryBytes,
    regions: &G,
    lineages: &L,
    detail: Detail,
    out: &mut W,
) -> Result<u8, Failure>
    ensures { (given : CountryFiles) → given.texts ≡ G.texts regions.now
        → given.lineages ≡ L.lineages lineages.now
        → RunsPrepared S.Store (record { year = year; given = given; detail = detail })
        (inputs_of inputs) register.old register.new
        (W.contents out.old) (W.contents out.new) result }
{
    match prepare(alloc, lineages, inputs) {
        Ok(prepared) => publish_prepared(alloc, register, year, regions, prepared, detail, out),
        Err(Unprepared::Failed(failure)) => Err(failure),
        Err(Unprepared::Refused(answer)) => answer.write_to(out),
    }
}

/// Checks a country, region by region, and publishes the union of its regions in a register, with
/// its year and the rows of all lineage tables. It prints what each region that passes has, what
/// all of them have together with a yes, what became of each identifier that the union drops, and
/// its year; or, behind the lines of the regions that passed, the line of the first fault.
///
/// `country` is the text of the plan, `classes` the table of classes that all regions have, `exact`
/// a certificate of which only the blocks that show exact splits and merges are used. Faults come
/// in this order: a year that is not above the last one, before any file is read; then those of the
/// plan, of the classes, of the certificate's text, of the lineage tables in the order of the plan,
/// of the regions, as `run_country` has them, and of the register. Any row may stand in the table
/// of any region; a fault of a row names it by its region and its number there.
///
/// All is decided before the register is written, in one transaction. Ok is the status: `DONE`,
/// where the union was published and its parcels' shapes are kept, or `REFUSED` or `UNREADABLE`,
/// where the register is as it was. So it is at each failure but that of the output: then the union
/// may be published, as `trace` shows. A failed read names the file that failed; where it is no
/// region's, the readers behind it are as they were.
pub fn run_publish_country<S: Alter, R: Read + Drop, G: Regions, L: Lineages, W: Write>(
    alloc: Global,
    register: &mut Register<S>,
    year: u16,
    top: &mut Top<R>,
    exact: &mut Option<R>,
    regions: &G,
    lineages: &L,
    detail: Detail,
    out: &mut W,
) -> Result<u8, Failure>
    ensures runs { RunsPublishCountry S.Store (country_request year detail
        (top_by R.remaining top.old) (option_map R.remaining exact.old) (G.texts regions.now)
        (L.lineages lineages.now)) register.old register.new (W.contents out.old)
        (W.contents out.new) result }
    ensures untouched { IfErr result (AreUntouched (inputs_named top.old exact.old)
        (inputs_named top.new exact.new)) }
{
    let last = register.current().last_year();
    if year <= last {
        return refuse_early(alloc, last, out);
    }
    let inputs = read_inputs(alloc, top, exact)?;
    publish_inputs(
        alloc, register, year, inputs, regions, lineages, detail, out,
    )
}
