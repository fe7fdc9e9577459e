//! The run of `exact`, over any register, readers and writers.

ghost use Rattle.std.specs.Prelude.{◌≡◌, IfErr, IfOk, List, OnOk, length};
ghost use Rattle.std.specs.Io.KnownBytes.{Appends};
ghost use Rattle.std.specs.List.{IsDistinct};
ghost use Rattle.lpis_tables.specs.Ids.{same_id};
ghost use Rattle.lpis_release.specs.declared.parcel.Parcel.{Parcel};
ghost use Rattle.lpis_release.specs.Release.{parcel_ids};
ghost use Rattle.lpis_lineage.specs.declared.exact.Group.{Group};
ghost use Rattle.lpis_lineage.specs.declared.row.Entry.{Entry};
ghost use Rattle.lpis_lineage.specs.declared.row.Row.{Row};
ghost use Rattle.lpis_lineage.specs.Faults.{ReportsFirstOf, faults};
ghost use Rattle.lpis_lineage.specs.Order.{IsAscending};
ghost use Rattle.lpis_register_rows.specs.Shapes.{AreShapesOf, shape_ids};
ghost use Rattle.lpis_lineage_exact.specs.Asking.{AsksFor, IsChangeTo};
ghost use Rattle.lpis_register.specs.Holdings.{Holdings, holdings};
ghost use Rattle.lpis_run.specs.Failures.{AreUntouched};
ghost use Rattle.lpis_run.specs.Folders.{submission_by, submission_named};
ghost use Rattle.lpis_run.specs.Outputs.{held, line_alone, outputs_of, writer};
ghost use Rattle.lpis_run.specs.Status.{done, refused};
ghost use Rattle.lpis_run_publish.specs.ExactAnswer.{AnswersSubmitted, FillsGroups, FillsRows};
ghost use Rattle.lpis_run_publish.specs.ExactAnswer.{HasTextOnlyIfDone};
ghost use Rattle.lpis_run_publish.specs.ExactAnswer.{IsExactAnswer, RunsExact};
ghost use Rattle.lpis_run_publish.specs.ExactAnswer.{blocks_line, unfilled_line};
ghost use Rattle.lpis_run_publish.specs.LineageLines.{publish_refusal_text};
ghost use Rattle.lpis_run_publish.specs.Submission.{submitted};
ghost use Rattle.lpis_run_publish.specs.private.ExactRuns.{filled_with};
ghost use Rattle.lpis_run_publish.specs.private.Submitting.{submission_of, submitted_of};

use crate::blocks::{BlockFault, with_blocks};
use crate::inputs::read_submission;
use crate::lineage_lines::refuse;
use crate::submission::{ReadSubmission, submission_in};
use lpis_cert::Cert;
use lpis_checker::ExactPart;
use lpis_lineage::{Change, History, LineageFault, Row, accept};
use lpis_lineage_exact::{AskFault, wanted_parts};
use lpis_register::{PublishFault, Register, ids_of};
use lpis_register_rows::{KeptShape, shapes_in};
use lpis_release::{Parcel, Release};
use lpis_run::{Answer, DONE, Failure, Outcome, PrintFault, REFUSED, Submission, cert_for};
use lpis_tables::Id;
use sqlite::Alter;
use std::alloc::{AllocError, Global};
use std::io::{Read, Write};

/// Writes the line of a group that gets no block.
fn print_unfilled<W: Write>(id: &Id, out: &mut W) -> Result<(), PrintFault>
    ensures { OnOk result (Appends (W.contents out.old) (W.contents out.new)
        (unfilled_line id.now)) }
{
    write!(out, "refused 45 exact {}\n", id.as_str())?;
    Ok(())
}

/// The line of a group that gets no block.
fn refuse_group(alloc: Global, id: &Id) -> Result<Answer, AllocError>
    ensures { IfOk result (λ a. (a.text.items ≡ unfilled_line id.now) × (a.status ≡ refused)) }
{
    let mut text = Vec::new(alloc);
    let printed = print_unfilled(id, &mut text);
    Answer::of(text, REFUSED, printed)
}

/// Writes the line of a certificate's blocks.
fn print_blocks<W: Write>(cert: &Cert, out: &mut W) -> Result<(), PrintFault>
    ensures { OnOk result (Appends (W.contents out.old) (W.contents out.new)
        (blocks_line (length cert.now.exact))) }
{
    write!(out, "exact {}\n", cert.exact.as_slice().len())?;
    Ok(())
}

/// The line of a certificate's blocks, where it is written.
fn count_blocks(alloc: Global, cert: &Cert) -> Result<Answer, AllocError>
    ensures { IfOk result (λ a. (a.text.items ≡ blocks_line (length cert.now.exact))
        × (a.status ≡ done)) }
{
    let mut text = Vec::new(alloc);
    let printed = print_blocks(cert, &mut text);
    Answer::of(text, DONE, printed)
}

/// The outcome of a certificate with blocks.
fn write_blocks(alloc: Global, cert: &Cert) -> Result<Outcome, AllocError>
    ensures { IfOk result (λ o. outputs_of o ≡ filled_with cert.now) }
{
    let printed = count_blocks(alloc, cert)?;
    Outcome::with_cert(alloc, cert, printed)
}

/// The outcome of a refusal of the register.
fn refuse_blocks(alloc: Global, fault: &PublishFault) -> Result<Outcome, AllocError>
    ensures { IfOk result
        (λ o. outputs_of o ≡ line_alone (publish_refusal_text fault.now) refused) }
{
    Ok(Outcome::without_cert(refuse(alloc, fault, REFUSED)?))
}

/// The outcome of a group that gets no block.
fn refuse_part(alloc: Global, id: &Id) -> Result<Outcome, AllocError>
    ensures { IfOk result (λ o. outputs_of o ≡ line_alone (unfilled_line id.now) refused) }
{
    Ok(Outcome::without_cert(refuse_group(alloc, id)?))
}

/// The answer to a certificate and the parts that are asked for.
fn answer_to_parts(alloc: Global, cert: Cert, parts: &[ExactPart]) -> Result<Outcome, AllocError>
    ensures { (before : Holdings) (parcels : List Parcel) (rows : List Row) (gs : List Group)
        → AsksFor before.history before.shapes parcels rows gs parts.now
        → IfOk result (λ o. FillsGroups parcels rows cert before (outputs_of o)) }
{
    match with_blocks(alloc, cert, parts) {
        Ok(made) => write_blocks(alloc, &made),
        Err(BlockFault::Memory) => Err(AllocError),
        Err(BlockFault::NoFlats { id }) => refuse_part(alloc, &id),
    }
}

/// The answer to parcels that may follow, and a certificate; these are their shapes.
fn answer_to_change(
    alloc: Global,
    kept: &[KeptShape],
    change: &Change,
    new: &[KeptShape],
    cert: Cert,
) -> Result<Outcome, AllocError>
    requires ascending { IsAscending (shape_ids kept.now) }
    requires new_ascending { IsAscending (shape_ids new.now) }
    ensures { (h : List Entry) (parcels : List Parcel) (rows : List Row)
        → IsChangeTo h parcels rows change.now → AreShapesOf parcels new.now
        → IfOk result (λ o. FillsGroups parcels rows cert (holdings h kept.now) (outputs_of o)) }
{
    match wanted_parts(alloc, change, kept, new) {
        Ok(parts) => answer_to_parts(alloc, cert, parts.as_slice()),
        Err(AskFault::Memory) => Err(AllocError),
        Err(AskFault::NotKept { id }) => refuse_blocks(alloc, &PublishFault::NotKept { id }),
    }
}

/// What parcels with these rows of lineage change, where they may follow the history, or the first
/// fault of their lineage.
fn change_of(
    alloc: Global,
    history: &History,
    parcels: &[Parcel],
    rows: &[Row],
) -> Result<Change, LineageFault>
    ensures tells { ReportsFirstOf (faults history.now (parcel_ids parcels.now) rows.now) result }
    ensures change { IfOk result (IsChangeTo history.now parcels.now rows.now) }
{
    let live = ids_of(alloc, parcels)?;
    match accept(alloc, history, live.as_slice(), rows) {
        Ok(step) => Ok(step.change),
        Err(fault) => Err(fault),
    }
}

/// The answer to parcels that may follow with this change, and a certificate.
fn fill_change(
    alloc: Global,
    kept: &[KeptShape],
    change: &Change,
    parcels: &[Parcel],
    cert: Cert,
) -> Result<Outcome, AllocError>
    requires ascending { IsAscending (shape_ids kept.now) }
    requires distinct { IsDistinct same_id (parcel_ids parcels.now) }
    ensures { (h : List Entry) (rows : List Row) → IsChangeTo h parcels.now rows change.now
        → IfOk result (λ o. FillsGroups parcels.now rows cert (holdings h kept.now)
        (outputs_of o)) }
{
    let new = shapes_in(alloc, parcels, kept)?;
    answer_to_change(alloc, kept, change, new.as_slice(), cert)
}

/// Gives a certificate the blocks that the marked rows ask for, in place of its own, where these
/// parcels may follow by these rows; or says for which old parcel's shape that is not kept it gets
/// none, or for which group: no flats are found for it, or more than a certificate may have. The
/// first fault of the lineage is handed over.
pub fn fill_blocks<S: Alter>(
    alloc: Global,
    register: &Register<S>,
    parcels: &[Parcel],
    rows: &[Row],
    cert: Cert,
) -> Result<Outcome, LineageFault>
    requires distinct { IsDistinct same_id (parcel_ids parcels.now) }
    ensures filled { IfOk result (λ o. FillsGroups parcels.now rows.now cert register.now.held
        (outputs_of o)) }
    ensures refused { ReportsFirstOf (faults register.now.held.history (parcel_ids parcels.now)
        rows.now) result }
{
    let change = change_of(alloc, register.current(), parcels, rows)?;
    let outcome = fill_change(alloc, register.current_shapes(), &change, parcels, cert)?;
    Ok(outcome)
}

/// The answer to a release, rows of lineage and a certificate.
fn answer_by<S: Alter>(
    alloc: Global,
    register: &Register<S>,
    release: &Release,
    rows: &[Row],
    cert: Cert,
) -> Result<Outcome, AllocError>
    ensures { IfOk result (λ o. HasTextOnlyIfDone (FillsRows register.now.held release.now rows.now
        cert) (outputs_of o)) }
{
    match fill_blocks(alloc, register, release.parcels(), rows, cert) {
        Ok(outcome) => Ok(outcome),
        Err(LineageFault::Memory) => Err(AllocError),
        Err(fault) => refuse_blocks(alloc, &PublishFault::Lineage(fault)),
    }
}

/// The answer to a release and rows of lineage, by the certificate that is named or by one that is
/// made.
fn answer_to_rows<S: Alter>(
    alloc: Global,
    register: &Register<S>,
    release: &Release,
    rows: &[Row],
    named: Option<Cert>,
) -> Result<Outcome, AllocError>
    ensures { IfOk result (λ o. HasTextOnlyIfDone (AnswersSubmitted register.now.held
        (submitted release.now named rows.now)) (outputs_of o)) }
{
    match cert_for(alloc, release, named) {
        Ok(cert) => answer_by(alloc, register, release, rows, cert),
        Err(stop) => Ok(Outcome::without_cert(stop.into_answer()?)),
    }
}

/// The answer to what a submission says.
fn answer_to_submission<S: Alter>(
    alloc: Global,
    register: &Register<S>,
    said: ReadSubmission,
) -> Result<Outcome, AllocError>
    ensures { IfOk result (λ o. HasTextOnlyIfDone (AnswersSubmitted register.now.held
        (submitted_of said)) (outputs_of o)) }
{
    let ReadSubmission {
        release,
        cert,
        rows,
    } = said;
    answer_to_rows(alloc, register, &release, rows.as_slice(), cert)
}

/// The answer to what is handed in.
fn answer_to<S: Alter>(
    alloc: Global,
    register: &Register<S>,
    submission: Submission<Vec<u8>>,
) -> Result<Outcome, AllocError>
    ensures { IfOk result (λ o. IsExactAnswer (submission_of submission) register.now.held
        (outputs_of o)) }
{
    match submission_in(alloc, submission) {
        Ok(said) => answer_to_submission(alloc, register, said),
        Err(stop) => Ok(Outcome::without_cert(stop.into_answer()?)),
    }
}

/// Gives a certificate the blocks that the marked rows of a lineage table ask for, in place of its
/// own: it writes the certificate and prints the number of its blocks, or prints the line of the
/// first fault: of the tables, of the certificate's text, of the lineage table, of the lineage; of
/// an old parcel whose shape the register does not keep; or of a group for which no flats are
/// found, or more than a certificate may have.
///
/// The certificate is not checked, and the flats that are found are what `publish` will check. All
/// inputs are read to their ends, in the order in which they stand here, before anything is
/// decided, and everything is decided before anything is written. The certificate is written first,
/// then the line; where there is no certificate, no write is asked of `cert_out`. Ok is the
/// status: `DONE`, `REFUSED` or `UNREADABLE`. The register stays as it is. A failed read names the
/// input that failed; the readers behind it are as they were.
pub fn run_exact<S: Alter, R: Read + Drop, V: Write, W: Write>(
    alloc: Global,
    register: &Register<S>,
    submission: &mut Submission<R>,
    cert_out: &mut V,
    out: &mut W,
) -> Result<u8, Failure>
    ensures runs { RunsExact (submission_by R.remaining submission.old) register.now.held
        (held (writer V.contents cert_out.old) (W.contents out.old))
        (held (writer V.contents cert_out.new) (W.contents out.new)) result }
    ensures untouched { IfErr result
        (AreUntouched (submission_named submission.old) (submission_named submission.new)) }
{
    let bytes = read_submission(alloc, submission)?;
    let outcome = answer_to(alloc, register, bytes)?;
    outcome.write_to(cert_out, out)
}
