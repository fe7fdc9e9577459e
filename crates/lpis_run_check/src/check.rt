//! The run of `check`, over any readers and writer.

ghost use Rattle.std.specs.Prelude.{◌≡◌, IfErr, IfOk, is_some};
ghost use Rattle.lpis_checker.specs.SoundMap.{IsSoundMap};
ghost use Rattle.lpis_run.specs.CheckAnswer.{IsAnswer, IsProved};
ghost use Rattle.lpis_run.specs.Failures.{AreUnread, AreUntouched};
ghost use Rattle.lpis_run.specs.Folders.{folder_by, folder_named};
ghost use Rattle.lpis_run.specs.Inputs.{inputs_of};
ghost use Rattle.lpis_run.specs.Report.{report_text};
ghost use Rattle.lpis_run.specs.Run.{Runs};
ghost use Rattle.lpis_run.specs.Status.{done};
ghost use Rattle.lpis_run_check.specs.CheckRun.{Checks};

use lpis_release::Release;
use lpis_run::{Answer, DONE, Failure, Folder, checked_release, read_folder, report_of};
use std::alloc::{AllocError, Global};
use std::io::{Read, Write};

/// The answer to a release that is a sound map.
fn say_done(alloc: Global, release: &Release) -> Result<Answer, AllocError>
    requires { IsSoundMap release.now }
    ensures { IfOk result (λ a. (a.text.items ≡ report_text release.now) × (a.status ≡ done)) }
{
    Ok(Answer {
        text: report_of(alloc, release)?,
        status: DONE,
    })
}

/// The answer to three tables, and to a certificate where one is named.
fn answer_to(alloc: Global, inputs: Folder<Vec<u8>>) -> Result<Answer, AllocError>
    ensures answer { IfOk result (λ a. IsAnswer (inputs_of inputs) (a.text.items, a.status)) }
    ensures proved { IfOk result (λ a. a.status ≡ done → IsProved (inputs_of inputs)) }
{
    match checked_release(alloc, inputs) {
        Ok(release) => say_done(alloc, &release),
        Err(stop) => stop.into_answer(),
    }
}

/// The answer to what the readers give.
fn decide<R: Read + Drop>(alloc: Global, folder: &mut Folder<R>) -> Result<Answer, Failure>
    ensures answers { IfOk result (λ a. Checks (folder_by R.remaining folder.old)
        (a.text.items, a.status)) }
    ensures unread { IfErr result (AreUnread (folder_named (folder_by R.remaining folder.old))) }
    ensures untouched { IfErr result
        (AreUntouched (folder_named folder.old) (folder_named folder.new)) }
    ensures named { is_some folder.new.cert ≡ is_some folder.old.cert }
{
    let inputs = read_folder(alloc, folder)?;
    let answer = answer_to(alloc, inputs)?;
    Ok(answer)
}

/// Checks the release of three tables against a certificate, and prints the report of a release
/// that is a sound map, or the line of the first fault: of the tables, then of the certificate's
/// text, then of the certificate.
///
/// Where no certificate is named, one is made of the release and let go again, or there is the line
/// of the cutter's refusal. A yes comes from the check alone all the same: nothing is believed of
/// what the cutter made.
///
/// All inputs are read to their ends, in the order in which they stand in the folder, before
/// anything is decided, and everything is decided before anything is written. Ok is the status:
/// `DONE`, `REFUSED` or `UNREADABLE`. A failed read names the input that failed; the readers behind
/// it are as they were.
pub fn run_check<R: Read + Drop, W: Write>(
    alloc: Global,
    folder: &mut Folder<R>,
    out: &mut W,
) -> Result<u8, Failure>
    ensures runs { Runs (AreUnread (folder_named (folder_by R.remaining folder.old)))
        (Checks (folder_by R.remaining folder.old)) (W.contents out.old) (W.contents out.new)
        result }
    ensures untouched { IfErr result
        (AreUntouched (folder_named folder.old) (folder_named folder.new)) }
{
    let answer = decide(alloc, folder)?;
    answer.write_to(out)
}
