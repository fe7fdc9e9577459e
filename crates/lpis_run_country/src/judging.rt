//! What the next region comes to.

ghost use Rattle.std.specs.Prelude.{◌≡◌, IfErr, IfOk, List, ℕ};
ghost use Rattle.lpis_release.specs.Release.{Contents};
ghost use Rattle.lpis_run.specs.Inputs.{inputs_of};
ghost use Rattle.lpis_run_country.specs.CountryAnswer.{Setting};
ghost use Rattle.lpis_run_country.specs.declared.progress.Progress.{Progress};
ghost use Rattle.lpis_run_country.specs.Regions.{IsFolderRead, Texts};
ghost use Rattle.lpis_run_country.specs.private.Progressing.{AfterAny, IsReady, IsUnwritten};
ghost use Rattle.lpis_run_country.specs.private.Progressing.{IsVerdict, IsWritten, gathers};
ghost use Rattle.lpis_run_country.specs.private.Progressing.{setting_at};

use crate::folder::{Regions, read_region_files};
use crate::progress::{Progress, follow};
use lpis_run::{Detail, Failure, Folder, Name, Stop, checked_release, write_text};
use std::alloc::Global;
use std::io::Write;

/// Checks the region of a folder's bytes and tests it against those before it: what is printed of
/// it, or the answer that refuses it.
fn judge_inputs(
    alloc: Global,
    names: &[String],
    name: &str,
    detail: Detail,
    progress: &mut Progress,
    inputs: Folder<Vec<u8>>,
) -> Result<Vec<u8>, Stop>
    requires { IsReady progress.old }
    ensures verdict { (texts : List ℕ → Texts) → IsFolderRead (inputs_of inputs) (texts name.now)
        → AfterAny (setting_at texts detail names.now progress.old) progress.old
        (λ s before. IsVerdict s before name.now progress.new result) }
    ensures wanted { gathers progress.new.gathered ≡ gathers progress.old.gathered }
{
    match checked_release(alloc, inputs) {
        Ok(release) => follow(alloc, names, name, detail, progress, &release),
        Err(stop) => Err(stop.in_region(name)),
    }
}

/// Writes what is printed of a region. Some is the status of one that is refused.
fn write_verdict<W: Write>(
    verdict: Result<Vec<u8>, Stop>,
    out: &mut W,
) -> Result<Option<u8>, Failure>
    ensures written { (s : Setting) (before : List Contents) (name : List ℕ) (p : Progress)
        → IsVerdict s before name p verdict → IfOk result (IsWritten s before name p
        (W.contents out.old) (W.contents out.new)) }
    ensures failure { (s : Setting) (before : List Contents) (name : List ℕ) (p : Progress)
        → IsVerdict s before name p verdict → IfErr result (IsUnwritten s before name
        (W.contents out.old) (W.contents out.new)) }
{
    match verdict {
        Ok(text) => {
            write_text(text.as_slice(), Name::Out, out)?;
            Ok(None)
        }
        Err(Stop::Refused(answer)) => Ok(Some(answer.write_to(out)?)),
        Err(Stop::Memory) => Err(Failure::Memory),
    }
}

/// Reads and judges the region of this name, and writes what is printed of it. Some is the status
/// of one that is refused.
pub(crate) fn pass<G: Regions, W: Write>(
    alloc: Global,
    regions: &G,
    names: &[String],
    name: &str,
    detail: Detail,
    progress: &mut Progress,
    out: &mut W,
) -> Result<Option<u8>, Failure>
    requires { IsReady progress.old }
    ensures written { AfterAny (setting_at (G.texts regions.now) detail names.now progress.old)
        progress.old (λ s before. IfOk result (IsWritten s before name.now progress.new
        (W.contents out.old) (W.contents out.new))) }
    ensures wanted { gathers progress.new.gathered ≡ gathers progress.old.gathered }
    ensures failure { AfterAny (setting_at (G.texts regions.now) detail names.now progress.old)
        progress.old (λ s before. IfErr result (IsUnwritten s before name.now
        (W.contents out.old) (W.contents out.new))) }
{
    let inputs = read_region_files(alloc, regions, name)?;
    let verdict = judge_inputs(alloc, names, name, detail, progress, inputs);
    write_verdict(verdict, out)
}
