//! The run of `cut`, over any readers and writers.

ghost use Rattle.std.specs.Prelude.{◌≡◌, IfErr, IfOk, Ok};
ghost use Rattle.lpis_cert.specs.declared.cert.Cert.{Cert};
ghost use Rattle.lpis_cutter.specs.Refusals.{RefusesRightly};
ghost use Rattle.lpis_run.specs.CheckAnswer.{release_in};
ghost use Rattle.lpis_run_check.specs.CutAnswer.{Cuts, IsCutAnswer, counts_text, cut_outputs};
ghost use Rattle.lpis_run.specs.Failures.{AreUnread, AreUntouched};
ghost use Rattle.lpis_run.specs.Folders.{tables_by, tables_named};
ghost use Rattle.lpis_run.specs.Inputs.{tables_of};
ghost use Rattle.lpis_run.specs.Outputs.{held, outputs_of, writer};
ghost use Rattle.lpis_run.specs.Run.{RunsBoth};
ghost use Rattle.lpis_run.specs.Status.{done};

use crate::cut_line::print_counts;
use lpis_cert::Cert;
use lpis_cutter::{CutFault, ReleaseCut, cut};
use lpis_release::Release;
use lpis_run::{Answer, DONE, Failure, Outcome, Tables, read_tables, refuse_release, release_in};
use std::alloc::{AllocError, Global};
use std::io::{Read, Write};

/// The line of a certificate's counts.
fn count_cert(alloc: Global, cert: &Cert) -> Result<Answer, AllocError>
    ensures { IfOk result (λ a. (a.text.items ≡ counts_text cert.now) × (a.status ≡ done)) }
{
    let mut text = Vec::new(alloc);
    let printed = print_counts(cert, &mut text);
    Answer::of(text, DONE, printed)
}

/// The outcome of a certificate that was cut.
fn outcome_of(alloc: Global, cert: &Cert) -> Result<Outcome, AllocError>
    ensures { IfOk result (λ o. (c : Cert) × (outputs_of o ≡ cut_outputs c)) }
{
    let printed = count_cert(alloc, cert)?;
    Outcome::with_cert(alloc, cert, printed)
}

/// The outcome of what a release was cut into.
fn outcome_of_cut(alloc: Global, cut: ReleaseCut) -> Result<Outcome, AllocError>
    ensures { IfOk result (λ o. (c : Cert) × (outputs_of o ≡ cut_outputs c)) }
{
    let cert = cut.into_cert()?;
    outcome_of(alloc, &cert)
}

/// Cuts a release and lets it go, so that it does not lie beside the certificate and its text.
fn cut_alone(alloc: Global, release: Release) -> Result<ReleaseCut, CutFault>
    ensures { IfErr result (RefusesRightly release) }
{
    cut(alloc, &release)
}

/// The answer to a release.
fn answer_to_release(alloc: Global, release: Release) -> Result<Outcome, AllocError>
    ensures { IfOk result (λ o. IsCutAnswer (Ok release) (outputs_of o)) }
{
    match cut_alone(alloc, release) {
        Ok(cut) => outcome_of_cut(alloc, cut),
        Err(CutFault::Memory) => Err(AllocError),
        Err(CutFault::Refused(refusal)) => {
            let printed = refuse_release(alloc, &refusal)?;
            Ok(Outcome::without_cert(printed))
        }
    }
}

/// The answer to three tables.
fn answer_to(alloc: Global, tables: Tables<Vec<u8>>) -> Result<Outcome, AllocError>
    ensures { IfOk result (λ o. IsCutAnswer (release_in (tables_of tables)) (outputs_of o)) }
{
    match release_in(alloc, tables) {
        Ok(release) => answer_to_release(alloc, release),
        Err(stop) => Ok(Outcome::without_cert(stop.into_answer()?)),
    }
}

/// The answer to what three readers give.
fn decide<R: Read + Drop>(alloc: Global, tables: &mut Tables<R>) -> Result<Outcome, Failure>
    ensures cuts { IfOk result (λ o. Cuts (tables_by R.remaining tables.old) (outputs_of o)) }
    ensures unread { IfErr result (AreUnread (tables_named (tables_by R.remaining tables.old))) }
    ensures untouched { IfErr result
        (AreUntouched (tables_named tables.old) (tables_named tables.new)) }
{
    let tables = read_tables(alloc, tables)?;
    let outcome = answer_to(alloc, tables)?;
    Ok(outcome)
}

/// Cuts the release of three tables: writes a certificate of triangles and prints its counts, or
/// prints the line of the tables' first fault or of the cutter's refusal.
///
/// The tables are read to their ends, in the order in which they stand here, and everything is
/// decided before anything is written. The certificate is written first, then the line; where there
/// is no certificate, no write is asked of `cert_out`. Ok is the status: `DONE`, `REFUSED` or
/// `UNREADABLE`. A failed read names the table that failed; the readers behind it are as they were.
pub fn run_cut<R: Read + Drop, E: Write, W: Write>(
    alloc: Global,
    tables: &mut Tables<R>,
    cert_out: &mut E,
    out: &mut W,
) -> Result<u8, Failure>
    ensures runs { RunsBoth (AreUnread (tables_named (tables_by R.remaining tables.old)))
        (Cuts (tables_by R.remaining tables.old))
        (held (writer E.contents cert_out.old) (W.contents out.old))
        (held (writer E.contents cert_out.new) (W.contents out.new)) result }
    ensures untouched { IfErr result
        (AreUntouched (tables_named tables.old) (tables_named tables.new)) }
{
    let outcome = decide(alloc, tables)?;
    outcome.write_to(cert_out, out)
}
