//! The run of `publish`, over any register, readers and writer.

ghost use Rattle.std.specs.Prelude.{◌≡◌, ◌++◌, IfErr, IfOk, OnOk};
ghost use Rattle.std.specs.Io.KnownBytes.{Appends};
ghost use Rattle.std.specs.List.{flat_map};
ghost use Rattle.lpis_tables.specs.Ids.{has_id};
ghost use Rattle.lpis_cert.specs.declared.cert.Cert.{Cert};
ghost use Rattle.lpis_checker.specs.GoodCertificate.{IsGood};
ghost use Rattle.lpis_checker.specs.SoundMap.{IsSoundMap};
ghost use Rattle.lpis_lineage.specs.Changes.{kind_at};
ghost use Rattle.lpis_lineage.specs.Order.{IsAscending};
ghost use Rattle.lpis_register.specs.Accepting.{IsAccepted, WasMadeFor};
ghost use Rattle.lpis_register.specs.Failing.{HasStoreCause};
ghost use Rattle.lpis_register.specs.Holdings.{Candidate};
ghost use Rattle.lpis_run.specs.CheckAnswer.{IsUsedAnswer};
ghost use Rattle.lpis_run.specs.Failures.{AreUntouched};
ghost use Rattle.lpis_run.specs.Folders.{submission_by, submission_named};
ghost use Rattle.lpis_run.specs.Report.{report_text};
ghost use Rattle.lpis_run.specs.Status.{done};
ghost use Rattle.lpis_run.specs.declared.failure.Failure.TheVariants.{Store};
ghost use Rattle.lpis_run_publish.specs.LineageLines.{lineage_line, published_line};
ghost use Rattle.lpis_run_publish.specs.Publication.{IsReleasePublished, PublishLeaves};
ghost use Rattle.lpis_run_publish.specs.Publication.{PublishesAccepted};
ghost use Rattle.lpis_run_publish.specs.PublishAnswer.{IsPublishAnswer, IsReleaseAnswer, IsSoundBy};
ghost use Rattle.lpis_run_publish.specs.PublishAnswer.{IsSoundCandidate, MovesRegister};
ghost use Rattle.lpis_run_publish.specs.PublishAnswer.{RunsPublish, candidate_of};
ghost use Rattle.lpis_run_publish.specs.private.Marked.{is_marked};
ghost use Rattle.lpis_run_publish.specs.private.Submitting.{IsGoodAnswer, submission_of};

use crate::inputs::read_submission;
use crate::lineage_lines::{marked_ids, print_lineage, print_published, refuse};
use crate::submission::{ReadSubmission, submission_in};
use lpis_cert::Cert;
use lpis_checker::Yes;
use lpis_lineage::{Change, Row};
use lpis_register::{Accepted, PublishFault, Register};
use lpis_release::Release;
use lpis_run::{
    Answer, DONE, Failure, PrintFault, REFUSED, Submission, cert_for, report_of, say_yes,
};
use lpis_tables::Id;
use sqlite::Alter;
use std::alloc::{AllocError, Global};
use std::collections::HashSet;
use std::io::{Read, Write};

/// Writes the line of each identifier that a release drops, and its year.
fn print_publication<W: Write>(
    year: u16,
    change: &Change,
    marked: &HashSet<Id>,
    out: &mut W,
) -> Result<(), PrintFault>
    ensures { OnOk result (Appends (W.contents out.old) (W.contents out.new)
        (flat_map (lineage_line (kind_at change.now) (has_id marked.now.keys))
        change.now.dropped_ids ++ published_line year)) }
{
    print_lineage(change, marked, out)?;
    print_published(year, out)
}

/// What is printed, behind this text, of a release that is published.
fn tell_change(
    alloc: Global,
    head: Vec<u8>,
    year: u16,
    change: &Change,
) -> Result<Answer, AllocError>
    ensures text { IfOk result (λ a. a.text.items ≡ head.items
        ++ flat_map (lineage_line (kind_at change.now) (is_marked change.now.rows))
        change.now.dropped_ids ++ published_line year) }
    ensures status { IfOk result (λ a. a.status ≡ done) }
    ensures ascend { IsAscending change.now.dropped_ids }
{
    // Its dropped identifiers ascend.
    let _ = change.dropped();
    let marked = marked_ids(alloc, change.rows())?;
    let mut text = head;
    match print_publication(year, change, &marked, &mut text) {
        Ok(()) => Ok(Answer { text, status: DONE }),
        Err(_) => Err(AllocError),
    }
}

/// Publishes a release that was accepted: what is printed is this text, the line of each identifier
/// that it drops, and its year. It is whole in memory before the register is written.
pub fn publish_accepted<S: Alter>(
    alloc: Global,
    register: &mut Register<S>,
    head: Vec<u8>,
    accepted: Accepted,
) -> Result<Answer, Failure>
    requires made { WasMadeFor register.old.held accepted }
    ensures publishes { (c : Candidate) → IsAccepted c register.old.held accepted
        → PublishesAccepted S.Store head.items c register.old register.new result }
    ensures cause { IfErr result (λ failure. HasStoreCause S.Store accepted register.old
        register.new (failure ≡ Store)) }
{
    let answer = tell_change(alloc, head, accepted.year(), accepted.change())?;
    match register.commit(accepted) {
        Ok(_) => Ok(answer),
        Err(PublishFault::Memory) => Err(Failure::Memory),
        Err(PublishFault::Store) => Err(Failure::Store),
        // Memory ran out in the transaction: a commit has no other fault.
        Err(_) => Err(Failure::StoreMemory),
    }
}

/// Publishes a checked release that was accepted, with its report.
fn publish_reported<S: Alter>(
    alloc: Global,
    register: &mut Register<S>,
    yes: &Yes<'_>,
    accepted: Accepted,
) -> Result<Answer, Failure>
    requires made { WasMadeFor register.old.held accepted }
    ensures { (c : Candidate) → IsAccepted c register.old.held accepted → PublishesAccepted
        S.Store (report_text yes.now) c register.old register.new result }
{
    let head = report_of(alloc, yes.release())?;
    publish_accepted(alloc, register, head, accepted)
}

/// Publishes a checked release where the history lets it follow, and its certificate shows what its
/// marked rows ask for.
fn publish_checked<S: Alter>(
    alloc: Global,
    register: &mut Register<S>,
    year: u16,
    yes: &Yes<'_>,
    cert: &Cert,
    rows: &[Row],
) -> Result<Answer, Failure>
    ensures answer { IfOk result (λ a. IsGoodAnswer year yes.now rows.now cert.now
        register.old.held (a.text.items, a.status)) }
    ensures published { IfOk result (λ a. a.status ≡ done → IsReleasePublished (candidate_of year
        yes.now rows.now cert.now) register.old.held register.new.held) }
    ensures leaves { PublishLeaves S.Store (λ k. k ≡ candidate_of year yes.now rows.now cert.now)
        register.old register.new result }
{
    match register.accept(year, yes, rows, cert) {
        Ok(accepted) => publish_reported(alloc, register, yes, accepted),
        Err(PublishFault::Memory) => Err(Failure::Memory),
        Err(fault) => Ok(refuse(alloc, &fault, REFUSED)?),
    }
}

/// The answer to a release and rows of lineage by a certificate.
fn answer_by<S: Alter>(
    alloc: Global,
    register: &mut Register<S>,
    year: u16,
    release: &Release,
    rows: &[Row],
    cert: &Cert,
) -> Result<Answer, Failure>
    ensures answer { IfOk result (λ a. IsReleaseAnswer year release.now rows.now register.old.held
        cert.now (a.text.items, a.status)) }
    ensures published { IfOk result (λ a. a.status ≡ done → IsSoundMap release.now
        × IsGood release.now cert.now × IsReleasePublished
        (candidate_of year release.now rows.now cert.now) register.old.held register.new.held) }
    ensures leaves { PublishLeaves S.Store (λ k. IsSoundMap release.now
        × IsGood release.now cert.now × (k ≡ candidate_of year release.now rows.now cert.now))
        register.old register.new result }
{
    match say_yes(alloc, release, cert) {
        Ok(yes) => publish_checked(alloc, register, year, &yes, cert, rows),
        Err(stop) => Ok(stop.into_answer()?),
    }
}

/// The answer to a release and rows of lineage, by the certificate that is named or by one that is
/// made.
fn answer_to_release<S: Alter>(
    alloc: Global,
    register: &mut Register<S>,
    year: u16,
    release: &Release,
    rows: &[Row],
    named: Option<Cert>,
) -> Result<Answer, Failure>
    ensures answer { IfOk result (λ a. IsUsedAnswer release.now
        (IsReleaseAnswer year release.now rows.now register.old.held) named
        (a.text.items, a.status)) }
    ensures published { IfOk result (λ a. a.status ≡ done → (c : Cert)
        × IsSoundBy release.now named c × IsReleasePublished
        (candidate_of year release.now rows.now c) register.old.held register.new.held) }
    ensures leaves { PublishLeaves S.Store (λ k. (c : Cert) × IsSoundBy release.now named c
        × (k ≡ candidate_of year release.now rows.now c)) register.old register.new result }
{
    match cert_for(alloc, release, named) {
        Ok(cert) => answer_by(alloc, register, year, release, rows, &cert),
        Err(stop) => Ok(stop.into_answer()?),
    }
}

/// The answer to what a submission says.
fn answer_to_submission<S: Alter>(
    alloc: Global,
    register: &mut Register<S>,
    year: u16,
    said: ReadSubmission,
) -> Result<Answer, Failure>
    ensures answer { IfOk result (λ a. IsUsedAnswer said.release
        (IsReleaseAnswer year said.release said.rows.items register.old.held) said.cert
        (a.text.items, a.status)) }
    ensures published { IfOk result (λ a. a.status ≡ done → (c : Cert)
        × IsSoundBy said.release said.cert c × IsReleasePublished
        (candidate_of year said.release said.rows.items c) register.old.held register.new.held) }
    ensures leaves { PublishLeaves S.Store (λ k. (c : Cert) × IsSoundBy said.release said.cert c
        × (k ≡ candidate_of year said.release said.rows.items c)) register.old register.new
        result }
{
    let ReadSubmission {
        release,
        cert,
        rows,
    } = said;
    answer_to_release(alloc, register, year, &release, rows.as_slice(), cert)
}

/// The answer to what is to be published.
fn answer_to<S: Alter>(
    alloc: Global,
    register: &mut Register<S>,
    year: u16,
    submission: Submission<Vec<u8>>,
) -> Result<Answer, Failure>
    ensures answer { IfOk result (λ a. IsPublishAnswer year (submission_of submission)
        register.old.held (a.text.items, a.status)) }
    ensures moves { IfOk result (λ a. MovesRegister year (submission_of submission)
        register.old.held register.new.held a.status) }
    ensures leaves { PublishLeaves S.Store (IsSoundCandidate year (submission_of submission))
        register.old register.new result }
{
    match submission_in(alloc, submission) {
        Ok(said) => answer_to_submission(alloc, register, year, said),
        Err(stop) => Ok(stop.into_answer()?),
    }
}

/// Checks the release of three tables against a certificate and publishes it in a register, with
/// its year and the rows of a lineage table. It prints the report of a release that is a sound map,
/// what became of each identifier that it drops, and its year; or the line of the first fault: of
/// the tables, of the certificate's text, of the lineage table, of the certificate, of the
/// register. The certificate has to have the blocks that the marked rows ask for, and no others:
/// they are checked against the shapes that the register keeps of the last release.
///
/// Where no certificate is named, one is made of the release behind the lineage table and let go
/// again, or there is the line of the cutter's refusal.
///
/// All inputs are read to their ends, in the order in which they stand here, before anything is
/// decided, and what is printed is whole in memory before the register is written. Ok is the
/// status: `DONE`, where the release was published and its parcels' shapes are kept, or `REFUSED`
/// or `UNREADABLE`, where the register is as it was. So it is at each failure but that of the
/// output: then the release may be published, as `trace` shows. A failed read names the input that
/// failed; the readers behind it are as they were.
pub fn run_publish<S: Alter, R: Read + Drop, W: Write>(
    alloc: Global,
    register: &mut Register<S>,
    year: u16,
    submission: &mut Submission<R>,
    out: &mut W,
) -> Result<u8, Failure>
    ensures runs { RunsPublish S.Store year (submission_by R.remaining submission.old) register.old
        register.new (W.contents out.old) (W.contents out.new) result }
    ensures untouched { IfErr result
        (AreUntouched (submission_named submission.old) (submission_named submission.new)) }
{
    let bytes = read_submission(alloc, submission)?;
    let answer = answer_to(alloc, register, year, bytes)?;
    answer.write_to(out)
}
