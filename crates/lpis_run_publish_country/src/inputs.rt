//! The files of a country that come before its regions.

ghost use Rattle.std.specs.Prelude.{◌≡◌, IfErr, IfOk, None, is_some};
ghost use Rattle.std.specs.Option.{option_map};
ghost use Rattle.lpis_run.specs.Failures.{AreUnread, AreUntouched};
ghost use Rattle.lpis_run.specs.Folders.{top_by, top_named};
ghost use Rattle.lpis_run.specs.Stops.{IsRefusedAs};
ghost use Rattle.lpis_run_country.specs.Beginning.{IsBegun};
ghost use Rattle.lpis_run_publish_country.specs.PublishCountryAnswer.{AreBlocksOf, AreTopRead};
ghost use Rattle.lpis_run_publish_country.specs.PublishCountryAnswer.{CountryFiles};
ghost use Rattle.lpis_run_publish_country.specs.PublishCountryAnswer.{IsExactTextAnswer};
ghost use Rattle.lpis_run_publish_country.specs.PublishCountryAnswer.{IsRefusedBefore};
ghost use Rattle.lpis_run_publish_country.specs.PublishCountryRuns.{StopsAtLineage};
ghost use Rattle.lpis_run_publish_country.specs.PublishCountryRuns.{files_named, inputs_named};
ghost use Rattle.lpis_run_publish_country.specs.private.Preparing.{AreRowsOf, AreTablesRefused};
ghost use Rattle.lpis_run_publish_country.specs.private.Preparing.{AreTablesUnread, IsPrepared};
ghost use Rattle.lpis_run_publish_country.specs.private.Preparing.{inputs_of};
ghost use Rattle.lpis_run_publish_country.specs.private.Unprepared.{IsUnprepared};

use crate::lineage::{CountryLineage, Lineages, read_lineage};
use crate::unprepared::Unprepared;
use lpis_cert::Cert;
use lpis_run::{Failure, Stop, Top, certificate_in, read_cert};
use lpis_run_country::{Begun, begin, read_top};
use std::alloc::Global;
use std::io::Read;

/// The bytes of the files that are no region's.
#[derive(Drop)]
pub(crate) struct PublishCountryBytes {
    /// The plan and the table of classes.
    pub(crate) country: Top<Vec<u8>>,
    /// The certificate whose blocks are used, where one is named.
    pub(crate) exact: Option<Vec<u8>>,
}

/// What the files before the regions say.
#[derive(Drop)]
pub(crate) struct Prepared {
    /// The plan and the classes.
    pub(crate) begun: Begun,
    /// The certificate whose blocks are used; one without any where none is named.
    pub(crate) cert: Cert,
    /// The rows of the lineage tables.
    pub(crate) lineage: CountryLineage,
}

/// All bytes of the files that are no region's, which are read in this order. Where one is not
/// read, those behind it are as they were.
pub(crate) fn read_inputs<R: Read + Drop>(
    alloc: Global,
    top: &mut Top<R>,
    exact: &mut Option<R>,
) -> Result<PublishCountryBytes, Failure>
    ensures bytes { (given : CountryFiles) → given.top ≡ top_by R.remaining top.old
        → given.exact ≡ option_map R.remaining exact.old
        → IfOk result (λ b. AreTopRead (inputs_of b) given) }
    ensures failure { (given : CountryFiles) → given.top ≡ top_by R.remaining top.old
        → given.exact ≡ option_map R.remaining exact.old
        → IfErr result (AreUnread (files_named given)) }
    ensures untouched { IfErr result (AreUntouched (inputs_named top.old exact.old)
        (inputs_named top.new exact.new)) }
    ensures named { is_some exact.new ≡ is_some exact.old }
{
    let country = read_top(alloc, top)?;
    let exact = read_cert(alloc, exact)?;
    Ok(PublishCountryBytes { country, exact })
}

/// All bytes of the plan and of the table of classes, where no certificate is named.
pub(crate) fn read_country<R: Read + Drop>(
    alloc: Global,
    top: &mut Top<R>,
) -> Result<PublishCountryBytes, Failure>
    ensures bytes { (given : CountryFiles) → given.top ≡ top_by R.remaining top.old
        → given.exact ≡ None → IfOk result (λ b. AreTopRead (inputs_of b) given) }
    ensures failure { IfErr result (AreUnread (top_named (top_by R.remaining top.old))) }
    ensures untouched { IfErr result (AreUntouched (top_named top.old) (top_named top.new)) }
{
    let country = read_top(alloc, top)?;
    Ok(PublishCountryBytes {
        country,
        exact: None,
    })
}

/// The certificate of a text, whose bytes are let go, or the line of the text's first fault. Where
/// there is no text, a certificate without blocks.
fn blocks_in(alloc: Global, exact: Option<Vec<u8>>) -> Result<Cert, Stop>
    ensures blocks { IfOk result (λ c. AreBlocksOf (option_map (λ v. v.items) exact) c.exact) }
    ensures refused { IfErr result (IsRefusedAs (IsExactTextAnswer (λ blocks a. ⊥)
        (option_map (λ v. v.items) exact))) }
{
    match exact {
        Some(text) => certificate_in(alloc, text),
        None => Ok(Cert::empty(alloc)),
    }
}

/// The plan and the classes, and the certificate whose blocks are used; or the line of the first
/// fault.
fn understand(alloc: Global, inputs: PublishCountryBytes) -> Result<(Begun, Cert), Stop>
    ensures said { IfOk result (λ p. IsBegun (inputs_of inputs).country p.0
        × AreBlocksOf (inputs_of inputs).exact p.1.exact) }
    ensures refused { (given : CountryFiles) → IfErr result (IsRefusedAs (IsRefusedBefore given
        (inputs_of inputs))) }
{
    let PublishCountryBytes { country, exact } = inputs;
    let begun = begin(alloc, country)?;
    let cert = blocks_in(alloc, exact)?;
    Ok((begun, cert))
}

/// The rows of the lineage tables in the folders of what was begun, which is handed back; or the
/// answer to the first table that has a fault.
fn read_tables<L: Lineages>(
    alloc: Global,
    lineages: &L,
    begun: Begun,
) -> Result<(Begun, CountryLineage), Unprepared>
    ensures begun { IfOk result (λ p. p.0 ≡ begun) }
    ensures rows { IfOk result (λ p. AreRowsOf (L.lineages lineages.now) begun.names p.1) }
    ensures unprepared { IfErr result (IsUnprepared
        (AreTablesUnread (L.lineages lineages.now) begun.names)
        (AreTablesRefused (L.lineages lineages.now) begun.names)) }
{
    let (mut names, tiles, classes) = begun.into_parts();
    let lineage = read_lineage(alloc, lineages, &mut names)?;
    Ok((Begun::new(names, tiles, classes), lineage))
}

/// What the files before the regions say, or the line of the first fault: of the plan, of the
/// classes, of the certificate, of the lineage tables in the order of the plan.
pub(crate) fn prepare<L: Lineages>(
    alloc: Global,
    lineages: &L,
    inputs: PublishCountryBytes,
) -> Result<Prepared, Unprepared>
    ensures prepared { (given : CountryFiles) → given.lineages ≡ L.lineages lineages.now
        → IfOk result (IsPrepared given (inputs_of inputs)) }
    ensures unprepared { (given : CountryFiles) → given.lineages ≡ L.lineages lineages.now
        → IfErr result (IsUnprepared (StopsAtLineage given (inputs_of inputs))
        (IsRefusedBefore given (inputs_of inputs))) }
{
    let (start, cert) = understand(alloc, inputs)?;
    let (begun, lineage) = read_tables(alloc, lineages, start)?;
    Ok(Prepared {
        begun,
        cert,
        lineage,
    })
}
