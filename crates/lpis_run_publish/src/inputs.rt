//! The bytes of a submission.

ghost use Rattle.std.specs.Prelude.{◌≡◌, IfErr, IfOk, is_some};
ghost use Rattle.lpis_run.specs.Failures.{AreUnread, AreUntouched};
ghost use Rattle.lpis_run.specs.Folders.{submission_by, submission_named};
ghost use Rattle.lpis_run_publish.specs.Submission.{AreAllRead};
ghost use Rattle.lpis_run_publish.specs.private.Submitting.{submission_of};

use lpis_run::{Failure, Name, Submission, read_folder, read_lent};
use std::alloc::Global;
use std::io::Read;

/// All bytes of the inputs, the lineage table's last. Where one is not read, those behind it are as
/// they were.
pub(crate) fn read_submission<R: Read + Drop>(
    alloc: Global,
    submission: &mut Submission<R>,
) -> Result<Submission<Vec<u8>>, Failure>
    ensures read { IfOk result (λ b. AreAllRead (submission_of b)
        (submission_by R.remaining submission.old)) }
    ensures failure { IfErr result
        (AreUnread (submission_named (submission_by R.remaining submission.old))) }
    ensures untouched { IfErr result
        (AreUntouched (submission_named submission.old) (submission_named submission.new)) }
    ensures named { is_some submission.new.folder.cert ≡ is_some submission.old.folder.cert }
{
    let folder = read_folder(alloc, &mut submission.folder)?;
    let lineage = read_lent(alloc, &mut submission.lineage, Name::Lineage)?;
    Ok(Submission { folder, lineage })
}
