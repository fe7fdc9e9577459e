//! What is handed in to be published, or to be given the blocks of its marked rows.

ghost use Rattle.std.specs.Prelude.{◌≡◌, IfErr, IfOk, Ok};
ghost use Rattle.lpis_tables.specs.Faults.{rows_of};
ghost use Rattle.lpis_lineage.specs.LineageTable.{lineage_table};
ghost use Rattle.lpis_run.specs.CheckAnswer.{IsTableAnswer};
ghost use Rattle.lpis_run.specs.Stops.{IsRefusedAs};
ghost use Rattle.lpis_run_publish.specs.Submission.{IsSubmitted};
ghost use Rattle.lpis_run_publish.specs.private.Submitting.{IsFaultAnswer, submission_of};
ghost use Rattle.lpis_run_publish.specs.private.Submitting.{submitted_of};

use lpis_cert::Cert;
use lpis_lineage::{Row, read_rows};
use lpis_release::Release;
use lpis_run::{Answer, ReadInputs, Stop, Submission, understand};
use lpis_tables::TableFault;
use std::alloc::Global;

/// The release, the certificate, where one is named, and the rows of lineage that they say.
#[derive(Drop)]
pub(crate) struct ReadSubmission {
    pub(crate) release: Release,
    pub(crate) cert: Option<Cert>,
    pub(crate) rows: Vec<Row>,
}

/// The rows of a lineage table, whose bytes are let go, or the line of its fault.
pub fn rows_in(alloc: Global, lineage: Vec<u8>) -> Result<Vec<Row>, Stop>
    ensures said { IfOk result (λ v. rows_of lineage_table lineage.items ≡ Ok v.items) }
    ensures refused { IfErr result (IsRefusedAs (IsTableAnswer (λ rows a. ⊥)
        (rows_of lineage_table lineage.items))) }
{
    match read_rows(alloc, &lineage) {
        Ok(rows) => Ok(rows),
        Err(TableFault::Memory) => Err(Stop::Memory),
        Err(fault) => Err(Stop::Refused(Answer::refuse_table(alloc, &fault)?)),
    }
}

/// What a submission says. The fault of the release's tables is told first, and that of the lineage
/// table last.
pub(crate) fn submission_in(
    alloc: Global,
    submission: Submission<Vec<u8>>,
) -> Result<ReadSubmission, Stop>
    ensures said { IfOk result (λ s. IsSubmitted (submission_of submission) (submitted_of s)) }
    ensures refused { IfErr result (IsRefusedAs (IsFaultAnswer (submission_of submission))) }
{
    let Submission { folder, lineage } = submission;
    let read = understand(alloc, folder)?;
    let rows = rows_in(alloc, lineage)?;
    let ReadInputs { release, cert } = read;
    Ok(ReadSubmission {
        release,
        cert,
        rows,
    })
}
