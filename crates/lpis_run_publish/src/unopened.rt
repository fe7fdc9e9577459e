//! A register that is not opened.

ghost use Rattle.lpis_run.specs.Run.{Runs};
ghost use Rattle.lpis_run_publish.specs.Unopened.{RefusesRegister, StopsUnopened};

use crate::lineage_lines::refuse;
use lpis_register::PublishFault;
use lpis_run::{Failure, UNREADABLE};
use std::alloc::Global;
use std::io::Write;

/// Prints the line of a register that is refused, as `publish`, `exact` and `trace` do where theirs
/// is not opened. Ok is the status `UNREADABLE`. Out of memory and a failed store have no line
/// here: they are failures, and nothing is written.
#[tactic(auto, using(lpis_run::proofs::Shared::runs_stopped, lpis_run::proofs::Shared::runs_written))]
pub fn refuse_register<W: Write>(
    alloc: Global,
    fault: &PublishFault,
    out: &mut W,
) -> Result<u8, Failure>
    ensures runs { Runs (StopsUnopened fault.now) (RefusesRegister fault.now)
        (W.contents out.old) (W.contents out.new) result }
{
    match fault {
        PublishFault::Memory => Err(Failure::Memory),
        PublishFault::Store => Err(Failure::Store),
        PublishFault::StoreMemory => Err(Failure::StoreMemory),
        _ => {
            let answer = refuse(alloc, fault, UNREADABLE)?;
            answer.write_to(out)
        }
    }
}
