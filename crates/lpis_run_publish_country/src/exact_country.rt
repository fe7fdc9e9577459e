//! The run of `exact-country`, over any register, readers, folders and writers.

ghost use Rattle.std.specs.Prelude.{◌≡◌, ℕ, IfErr, IfOk, List, None};
ghost use Rattle.lpis_run_country.specs.CountryAnswer.{Setting};
ghost use Rattle.lpis_run_country.specs.RegionsOutcome.{IsCountryJoined, JoinsAll};
ghost use Rattle.lpis_lineage.specs.declared.row.Row.{Row};
ghost use Rattle.lpis_release.specs.Release.{Contents};
ghost use Rattle.lpis_run.specs.Failures.{AreUntouched};
ghost use Rattle.lpis_run.specs.Folders.{top_by, top_named};
ghost use Rattle.lpis_run.specs.Outputs.{held, outputs_of, writer};
ghost use Rattle.lpis_run_publish_country.specs.ExactCountryAnswer.{RunsExactCountry};
ghost use Rattle.lpis_run_publish_country.specs.PublishCountryAnswer.{CountryFiles, country_files};
ghost use Rattle.lpis_run_publish_country.specs.PublishCountryAnswer.{PublishCountryInputs};
ghost use Rattle.lpis_run_publish_country.specs.private.Filling.{FillsPrepared, IsFillOutcome};
ghost use Rattle.lpis_run_publish_country.specs.private.Preparing.{HasTables, IsPrepared};

use crate::inputs::{Prepared, PublishCountryBytes, prepare, read_country};
use crate::lineage::{CountryLineage, Lineages};
use crate::refusals::refuse_country;
use crate::unprepared::Unprepared;
use lpis_cert::Cert;
use lpis_lineage::LineageFault;
use lpis_register::{PublishFault, Register};
use lpis_run::{Answer, Detail, Failure, Outcome, Top};
use lpis_run_country::{JoinedCountry, Joining, Regions, join_regions};
use lpis_run_publish::fill_blocks;
use sqlite::Alter;
use std::alloc::{AllocError, Global};
use std::io::{Read, Write};

/// The blocks that the marks of a country's rows ask for, in a certificate without other parts; or
/// the line of the first fault.
fn fill_union<S: Alter>(
    alloc: Global,
    register: &Register<S>,
    country: &JoinedCountry,
    lineage: &CountryLineage,
) -> Result<Outcome, AllocError>
    ensures { (g : Setting) (regions : List Contents) (lines : List ℕ) (tables : List (List Row))
        → JoinsAll g regions lines → IsCountryJoined g regions country.now
        → HasTables lineage.now tables → IfOk result (λ o. IsFillOutcome g tables regions
        register.now.held (outputs_of o)) }
{
    let parcels = country.parcels.parcels();
    let rows = lineage.rows.as_slice();
    match fill_blocks(alloc, register, parcels, rows, Cert::empty(alloc)) {
        Ok(outcome) => Ok(outcome),
        Err(LineageFault::Memory) => Err(AllocError),
        Err(fault) => {
            let fault = PublishFault::Lineage(fault);
            let counts = lineage.counts.as_slice();
            let answer = refuse_country(alloc, fault, country.names.as_slice(), counts)?;
            Ok(Outcome::without_cert(answer))
        }
    }
}

/// Checks the regions, and writes the blocks that are asked for, of what the files before them say.
fn fill_prepared<S: Alter, G: Regions, V: Write, W: Write>(
    alloc: Global,
    register: &Register<S>,
    regions: &G,
    prepared: Prepared,
    file: &mut V,
    out: &mut W,
) -> Result<u8, Failure>
    ensures { (given : CountryFiles) (x : PublishCountryInputs)
        → given.texts ≡ G.texts regions.now → IsPrepared given x prepared
        → FillsPrepared given x register.now.held
        (held (writer V.contents file.old) (W.contents out.old))
        (held (writer V.contents file.new) (W.contents out.new)) result }
{
    let Prepared { begun, lineage, .. } = prepared;
    match join_regions(alloc, regions, begun, Detail::Regions, out)? {
        Joining::Joined(country) => {
            let outcome = fill_union(alloc, register, &country, &lineage)?;
            outcome.write_to(file, out)
        }
        Joining::Refused(status) => Ok(status),
    }
}

/// Writes a certificate that has nothing but the blocks that the marked rows of a country's lineage
/// tables ask for, and prints what each region that passes has, and then the number of the blocks;
/// or, behind the lines of the regions that passed, the line of the first fault: of the plan, of
/// the classes, of the lineage tables in the order of the plan, of the regions, as `run_country`
/// has them, of the lineage; of an old parcel whose shape the register does not keep; or of a group
/// for which no flats are found, or more than a certificate may have.
///
/// The flats that are found are what `publish-country` will check. Where there is no certificate,
/// no write is asked of `file`. Ok is the status: `DONE`, `REFUSED` or `UNREADABLE`. The register
/// stays as it is. A failed read names the file that failed; where it is one at the top, the
/// readers behind it are as they were.
pub fn run_exact_country<S: Alter, R: Read + Drop, G: Regions, L: Lineages, V: Write, W: Write>(
    alloc: Global,
    register: &Register<S>,
    top: &mut Top<R>,
    regions: &G,
    lineages: &L,
    file: &mut V,
    out: &mut W,
) -> Result<u8, Failure>
    ensures runs { RunsExactCountry (country_files (top_by R.remaining top.old) None
        (G.texts regions.now) (L.lineages lineages.now)) register.now.held
        (held (writer V.contents file.old) (W.contents out.old))
        (held (writer V.contents file.new) (W.contents out.new)) result }
    ensures untouched { IfErr result (AreUntouched (top_named top.old) (top_named top.new)) }
{
    let inputs = read_country(alloc, top)?;
    match prepare(alloc, lineages, inputs) {
        Ok(prepared) => fill_prepared(alloc, register, regions, prepared, file, out),
        Err(Unprepared::Failed(failure)) => Err(failure),
        Err(Unprepared::Refused(answer)) => answer.write_to(out),
    }
}
